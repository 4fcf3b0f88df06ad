// Tokens found in a list of few, their places marked in the bits of one word; and the tokens that aren't marked, closed up in the
// cells where they stand.
ghost use Rattle.std.specs.Prelude.{◌≡◌, ◌≤◌, length, take};
ghost use Rattle.rules.specs.Hall.{most_held};
ghost use Rattle.tokens.specs.Laid.{laid};
ghost use Rattle.tokens.specs.Marks.{unmarked, found};

use super::searching;

// Of some tokens: the place of the first that a list doesn't have, or how many they are; how many it has; and the places of those.
#[derive(Clone, Copy)]
pub struct Found {
    pub dead: usize,
    pub living: usize,
    pub marks: u32,
}

// Each token's place in a list of few, marked beside the marks there are; a token that has none is passed over. A record's tokens are
// few enough for the bits of a word. Most tokens have a place, so that those without one are counted.
pub fn find(list: &[u32], tokens: &[u32], marks: u32) -> Found
    requires { length list.now ≤ most_held }
    ensures { result ≡ found list.now tokens.now marks }
{
    let mut dead = tokens.len();
    let mut gone = 0;
    let mut marks = marks;
    for (k, &token) in tokens.iter().enumerate() {
        let place = searching::first_hit(list, token);
        if place < list.len() {
            marks |= 1 << place;
        } else {
            if gone == 0 {
                dead = k;
            }
            gone += 1;
        }
    }
    let living = tokens.len() - gone;
    Found {
        dead,
        living,
        marks,
    }
}

// Of the first n cells those that aren't marked, from the first cell on; the cells behind them stay. How many they are.
pub fn close_up(cells: &mut [u32], n: usize, marks: u32) -> usize
    requires { n ≤ length cells.old }
    ensures { (result ≡ length (unmarked marks (take n cells.old))) × (cells.new ≡ laid (unmarked marks (take n cells.old)) cells.old) }
{
    let mut left = marks;
    let mut kept = 0;
    for i in 0..n {
        let token = cells[i];
        if left & 1 == 0 {
            cells[kept] = token;
            kept += 1;
        }
        left >>= 1;
    }
    kept
}
