// Tokens of records, marked by their places in the list. A place that was marked before stands for a token that comes twice. Inner: the
// tokens are the list's.
ghost use Rattle.std.specs.Prelude.{◌≡◌, ◌+◌, ◌*◌, ◌≤◌, length};
ghost use Rattle.rules.specs.Lists.{true, range, every, is_in};
ghost use Rattle.rules.specs.Hall.{most_tokens};
ghost use Rattle.rules.specs.Records.{words, held, record_at};
ghost use Rattle.tokens.specs.Map.{mapped, Marked};
ghost use Rattle.index.specs.Places.{places_of};
ghost use Rattle.sound.specs.Together.{held_in};

use index::listed::Listed;

// Marks the tokens of n records from record a on, if there is a map; whether each was new in its turn. It is put where it is called, as
// `sound::are_good` is.
#[inline(always)]
pub fn mark_records(listed: Listed, book: &[u32], a: usize, n: usize, map: &mut [u64]) -> bool
    requires { (words * (a + n) ≤ length book.now) × (mapped map.old ≡ true) × (length listed.list.now ≤ most_tokens) × (every (λ k. every (λ t. is_in t listed.list.now) (held (record_at k book.now))) (range a n) ≡ true) }
    ensures { Marked map.old (places_of listed.entry.list.now (held_in book.now (range a n))) result map.new }
{
    if map.len() == 0 {
        return true;
    }
    let mut fresh = true;
    for i in 0..n {
        fresh &= listed.mark_tokens(book::tokens_at(book, a + i), map);
    }
    fresh
}
