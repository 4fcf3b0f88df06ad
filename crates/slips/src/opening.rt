// Opening slips: each slip of a line becomes that many tokens of the list, and the lines of a whole book are opened so.
ghost use Rattle.std.specs.Prelude.{◌≡◌, ◌*◌, ◌≤◌, length, take, drop};
ghost use Rattle.rules.specs.Hall.{records};
ghost use Rattle.rules.specs.Records.{words};
ghost use Rattle.rules.specs.Slips.{open_slip, open_slips, opened_line, open_book};
ghost use Rattle.tokens.specs.Laid.{laid};

use book::halls::HallBook;
use book::writing;
use index::listed::Listed;
use tokens::laying;

// n tokens of the list from a place on, or as many as there are.
fn part_from(list: &[u32], p: usize, n: usize) -> &[u32]
    requires { p ≤ length list.now }
    ensures { result.now ≡ take n (drop p list.now) }
{
    let m = n.min(list.len() - p);
    &list[p..p + m]
}

// The part of the list that a slip stands for.
pub fn part_by<'a>(listed: Listed<'a, '_>, token: u32, n: usize) -> &'a [u32]
    ensures { result.now ≡ open_slip listed.entry.list.now token n }
{
    part_from(listed.list, listed.place_of(token), n)
}

// The same of a list by itself.
pub fn slip_part(list: &[u32], token: u32, n: usize) -> &[u32]
    ensures { result.now ≡ open_slip list.now token n }
{
    part_by(Listed::plain(list), token, n)
}

// The newest slip's tokens over the front of the cells, then those of the slips left, one fewer, over the remainder. The list is lent:
// copied for each slip, it took a tenth more to open a book with the index.
pub fn open_slips(listed: &Listed, left: usize, pairs: &[u32], out: &mut [u32])
    requires { 2 * left ≤ length pairs.now }
    ensures { out.new ≡ laid (open_slips listed.entry.now.list.now left pairs.now) out.old }
{
    if left == 0 {
        return;
    }
    let tokens = part_by(*listed, pairs[0], pairs[1] as usize);
    laying::lay(out, tokens);
    let m = tokens.len().min(out.len());
    open_slips(listed, left - 1, &pairs[2..], &mut out[m..]);
}

// A slip line as the plain line it opens to. A spoilt line may count more slips than it has pairs for: the rest are empty.
fn open_line(listed: Listed, rec: &[u32], out: &mut [u32])
    requires { (length rec.now ≡ words) × (length out.old ≡ words) }
    ensures { out.new ≡ opened_line listed.entry.list.now rec.now }
{
    let sales = book::sales(rec);
    writing::write_record(
        out,
        book::in_use(rec),
        book::amount(rec),
        book::count(rec),
        sales,
        &[],
    );
    let n = (sales as usize).min(16);
    open_slips(&listed, n, book::cells(rec), &mut out[4..]);
}

// The lines, which are the last records, opened over those of a plain book, and the others laid as they stand.
pub fn open_all(listed: Listed, slips: HallBook, plain: &mut [u32])
    requires { length plain.old ≡ words * records slips.hall }
    ensures { plain.new ≡ open_book slips.entry.hall listed.entry.list.now slips.entry.pages.now }
{
    let lines = slips.line(0, 0);
    let n = slips.records();
    laying::lay(plain, &slips.pages[..36 * lines]);
    for k in lines..n {
        let from = 36 * k;
        let to = from + 36;
        open_line(listed, slips.record(k), &mut plain[from..to]);
    }
}
