// Records of a book taken together: n of them from record a on. Inner, all of them: the records lie in the book.
ghost use Rattle.std.specs.Prelude.{◌≡◌, ◌+◌, ◌*◌, ◌≤◌, ◌<◌, length};
ghost use Rattle.rules.specs.Lists.{not, is_in, range};
ghost use Rattle.rules.specs.Records.{words, record_at};
ghost use Rattle.rules.specs.Sound.{once_in};
ghost use Rattle.sound.specs.Together.{held_in, apart, sum_in, paired, backed};

use tokens::searching;

// ---- who is in use with whom

// The i-th of n records from a on is in use exactly when the i-th from c on is.
pub fn are_paired(book: &[u32], a: usize, c: usize, n: usize) -> bool
    requires { (words * (a + n) ≤ length book.now) × (words * (c + n) ≤ length book.now) }
    ensures { result ≡ paired book.now a c n }
{
    (0..n).all(|i| book::word_of(book, a + i, 0) == book::word_of(book, c + i, 0))
}

// The i-th of n records from a on is in use only if the i-th from c on is, and one more.
pub fn are_backed(book: &[u32], a: usize, c: usize, used: u32, n: usize) -> bool
    requires { (words * (a + n) ≤ length book.now) × (words * (c + n) ≤ length book.now) }
    ensures { result ≡ backed book.now a c used n }
{
    (0..n).all(|i| book::word_of(book, a + i, 0) <= book::word_of(book, c + i, 0).min(used))
}

// ---- no token twice

// The token stands in none of the records.
fn is_absent(book: &[u32], a: usize, n: usize, token: u32) -> bool
    requires { words * (a + n) ≤ length book.now }
    ensures { result ≡ not (is_in token (held_in book.now (range a n))) }
{
    !(a..a + n).any(|k| searching::is_in(book::tokens_at(book, k), token))
}

// None of the tokens stands in any of the records.
pub fn are_absent(book: &[u32], a: usize, n: usize, tokens: &[u32]) -> bool
    requires { words * (a + n) ≤ length book.now }
    ensures { result ≡ apart tokens.now (held_in book.now (range a n)) }
{
    tokens.iter().all(|&token| is_absent(book, a, n, token))
}

// No token stands twice in the records.
pub fn is_once(book: &[u32], a: usize, n: usize) -> bool
    requires { words * (a + n) ≤ length book.now }
    ensures { result ≡ once_in (range a n) (λ k. record_at k book.now) }
{
    let end = a + n;
    (a..end).all(|k| {
        let tokens = book::tokens_at(book, k);
        let next = k + 1;
        searching::all_different(tokens) && are_absent(book, next, end - next, tokens)
    })
}

// No token of n records from a on stands in any of m from c on.
pub fn are_apart(book: &[u32], a: usize, n: usize, c: usize, m: usize) -> bool
    requires { (words * (a + n) ≤ length book.now) × (words * (c + m) ≤ length book.now) }
    ensures { result ≡ apart (held_in book.now (range a n)) (held_in book.now (range c m)) }
{
    (a..a + n).all(|k| are_absent(book, c, m, book::tokens_at(book, k)))
}

// ---- the money

// Word w of each record, added up in 64 bits: that many records of 32 bits can't pass them.
pub fn sum_of(book: &[u32], w: usize, a: usize, n: usize) -> u64
    requires { (words * (a + n) ≤ length book.now) × (w < words) × (n ≤ 4096) }
    ensures { (result ≡ sum_in book.now w (range a n)) × (result ≤ n * 4294967295) }
{
    let mut total = 0;
    for i in 0..n {
        total += u64::from(book::word_of(book, a + i, w));
    }
    total
}
