// Lists of tokens, searched. Every function takes every list.
ghost use Rattle.std.specs.Prelude.{◌≡◌, ◌+◌, ◌≤◌, length, take, drop};
ghost use Rattle.rules.specs.Lists.{all_zero, is_in, all_different, same_list, place_of};

// One token after the other, up to the hit: of few tokens, and in the block that has the token.
pub fn first_hit(list: &[u32], token: u32) -> usize
    ensures { result ≡ place_of token list.now }
{
    let n = list.len();
    let mut i = 0;
    let place = loop {
        if n <= i {
            break n;
        }
        if list[i] == token {
            break i;
        }
        i += 1;
    };
    place
}

// A place before which the token doesn't stand: where the first block of 32 that has it begins, or what is left behind the last whole one.
fn pass_over(list: &[u32], token: u32) -> usize
    ensures { (result ≤ length list.now) × (result + place_of token (drop result list.now) ≡ place_of token list.now) }
{
    let (blocks, rest) = list.as_chunks::<32>();
    for (k, block) in blocks.iter().enumerate() {
        if is_in(block, token) {
            return 32 * k;
        }
    }
    list.len() - rest.len()
}

// The first place of a token, or the list's length where it has none. Blocks without the token are passed over, several tokens
// at a time, which a long list is worth.
pub fn place_of(list: &[u32], token: u32) -> usize
    ensures { result ≡ place_of token list.now }
{
    let i = pass_over(list, token);
    i + first_hit(&list[i..], token)
}

// Every token is looked at, also behind a hit: such a loop is compiled to compare several tokens at once, and is the faster one for long lists.
pub fn is_in(list: &[u32], token: u32) -> bool
    ensures { result ≡ is_in token list.now }
{
    let mut found = false;
    for &t in list {
        found |= t == token;
    }
    found
}

// Whether a token is among the first n of a list. It stands by itself: within the test of soundness its loop took 5% more of a full book.
#[inline(never)]
pub fn is_among(list: &[u32], n: usize, token: u32) -> bool
    ensures { result ≡ is_in token (take n list.now) }
{
    is_in(&list[..n.min(list.len())], token)
}

pub fn all_different(list: &[u32]) -> bool
    ensures { result ≡ all_different list.now }
{
    for (i, &token) in list.iter().enumerate() {
        if is_in(&list[i + 1..], token) {
            return false;
        }
    }
    true
}

// Every word is 0. As in `is_in` all of them are looked at, several at once: by `all`, which stops at the first other word, a small
// book took 70% more to be opened.
pub fn is_blank(part: &[u32]) -> bool
    ensures { result ≡ all_zero part.now }
{
    let mut blank = true;
    for &word in part {
        blank &= word == 0;
    }
    blank
}

// Whether two lists are the same, in the same order.
pub fn same_list(a: &[u32], b: &[u32]) -> bool
    ensures { result ≡ same_list a.now b.now }
{
    a == b
}
