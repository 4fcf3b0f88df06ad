// Cells moved within one list: no second list is needed. Inner, both of them: the caller knows that the cells are there. A
// `copy_within` took 4% more where tokens are sold, and calls the C library's `memmove`.
ghost use Rattle.std.specs.Prelude.{◌≡◌, ◌+◌, ◌≤◌, length};
ghost use Rattle.tokens.specs.Moved.{moved, Forth};

// Four cells at once: all are read before one is written, so that the compiler moves them by one load and one store.
fn move_four(list: &mut [u32], from: usize, to: usize)
    requires { (from + 4 ≤ length list.old) × (to + 4 ≤ length list.old) }
    ensures { list.new ≡ moved from 4 to list.old }
{
    let [a, b, c, d] = [list[from], list[from + 1], list[from + 2], list[from + 3]];
    list[to] = a;
    list[to + 1] = b;
    list[to + 2] = c;
    list[to + 3] = d;
}

// One by one: of few cells, as the last three are.
fn move_few(list: &mut [u32], from: usize, n: usize, to: usize)
    requires { Forth (length list.old) from n to }
    ensures { list.new ≡ moved from n to list.old }
{
    for i in 0..n {
        list[to + i] = list[from + i];
    }
}

// From the first cell on: to a place before them, which they may overlap, or to one behind all of them.
pub fn move_forth(list: &mut [u32], from: usize, n: usize, to: usize)
    requires { Forth (length list.old) from n to }
    ensures { list.new ≡ moved from n to list.old }
{
    for k in 0..n / 4 {
        move_four(list, from + 4 * k, to + 4 * k);
    }
    let whole = n - n % 4;
    move_few(list, from + whole, n % 4, to + whole);
}

// The first n cells, from the last one on: to a place behind, which they may overlap.
pub fn move_back(cells: &mut [u32], n: usize, to: usize)
    requires { to + n ≤ length cells.old }
    ensures { cells.new ≡ moved 0 n to cells.old }
{
    for i in (0..n).rev() {
        cells[to + i] = cells[i];
    }
}
