// Walks along an index, and a look-up.
ghost use Rattle.std.specs.Prelude.{◌≡◌};
ghost use Rattle.rules.specs.Lists.{true, place_of};
ghost use Rattle.rules.specs.Index.{is_index};
ghost use Rattle.index.specs.Walkable.{Walkable, Stopped};

use super::hashing;

// Where the walk for a token ends: at its own entry, or at an empty cell. Some cell is empty, so the turns needn't be bounded. A place that
// goes round itself, and not at each look, took a tenth more for a token looked up.
pub fn seek(list: &[u32], index: &[u16], token: u32) -> usize
    requires { Walkable list.now index.now }
    ensures { Stopped list.now index.now token result }
{
    let mut n = hashing::start(token);
    loop {
        let p = n % 8192;
        let e = usize::from(index[p]);
        if e == 0 || list[e - 1] == token {
            return p;
        }
        n += 1;
    }
}

// The first place of a token, or the list's length where it has none.
pub fn look(list: &[u32], index: &[u16], token: u32) -> usize
    requires { is_index list.now index.now ≡ true }
    ensures { result ≡ place_of token list.now }
{
    let p = seek(list, index, token);
    let e = usize::from(index[p]);
    if e == 0 {
        return list.len();
    }
    e - 1
}
