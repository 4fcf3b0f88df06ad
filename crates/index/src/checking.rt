// Whether an index is the list's own: without a second one beside it, by one walk for each token.
ghost use Rattle.std.specs.Prelude.{◌≡◌, ◌+◌, ◌%◌, ◌^◌, ◌<◌, length};
ghost use Rattle.rules.specs.Lists.{occ};
ghost use Rattle.rules.specs.Index.{ring, is_index};
ghost use Rattle.ring.specs.Way.{earlier, way_of};

use super::hashing;

// How many cells are empty. The count is no wider than an entry, so that eight are counted at a time: one as wide as a place made the check
// of a short list's index take over five times as long.
fn empties(index: &[u16]) -> u16
    requires { length index.now ≡ ring }
    ensures { result ≡ occ 0 index.now }
{
    let mut n: u16 = 0;
    for &e in index {
        n += u16::from(e == 0);
    }
    n
}

// Whether the way of place i passes the entry of place q: an earlier one, with another token. Of an empty entry q wraps, so that one test
// keeps out what is later and what is empty.
fn passes(list: &[u32], i: usize, q: usize) -> bool
    requires { i < length list.now }
    ensures { result ≡ earlier list.now i ((q + 1) % 2 ^ 64) }
{
    q < i && list[q] != list[i]
}

// Whether the way from the start of token i leads over earlier entries to its own. Some cell is empty, and no way passes it, so the turns
// needn't be bounded.
fn has_way(list: &[u32], index: &[u16], i: usize) -> bool
    requires { (i < length list.now) × (length index.now ≡ ring) × (0 < occ 0 index.now) }
    ensures { result ≡ way_of list.now index.now i }
{
    let mut n = hashing::start(list[i]);
    loop {
        let q = usize::from(index[n % 8192]).wrapping_sub(1);
        if !passes(list, i, q) {
            return q == i;
        }
        n += 1;
    }
}

// Whether the list is good and the index is its own.
pub fn is_index(list: &[u32], index: &[u16]) -> bool
    ensures { result ≡ is_index list.now index.now }
{
    if index.len() != 8192 || 4096 < list.len() {
        return false;
    }
    if usize::from(empties(index)) != 8192 - list.len() {
        return false;
    }
    (0..list.len()).all(|i| has_way(list, index, i))
}
