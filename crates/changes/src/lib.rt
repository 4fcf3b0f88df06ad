// What a granted step does to the records of a book, by their numbers. Each is written where it stands: none is copied aside.
// Inner, all of them: a step has found the records and knows that they stand in the book.

#![tactic(auto)]

ghost use Rattle.std.specs.Prelude.{◌≡◌, [], ◌+◌, ◌*◌, ◌≤◌, length, drop};
ghost use Rattle.rules.specs.Hall.{most_held};
ghost use Rattle.rules.specs.Records.{words, amount, count, held, made, with_amount, with_handshake, record_at, put};
ghost use Rattle.rules.specs.Steps.{dealt, fresh};
ghost use Rattle.tokens.specs.Marks.{unmarked};
ghost use Rattle.changes.specs.Found.{Neat, Party, Enough, Bench, Account};

pub mod lines;

use book::writing;
use tokens::{marking, moving};

// ---- one record, of which some tokens are kept

// A record without its first n tokens: the m cells behind them come in their place. Nothing stands behind its tokens, so that m may
// be more than are left, where that spares the zeros behind them, or where a move of a known length is the faster one.
fn drop_first(rec: &mut [u32], n: usize, m: usize, amount: u32, word3: u32)
    requires { (length rec.old ≡ words) × Neat rec.old × (count rec.old ≤ n + m) × (n + m ≤ most_held) }
    ensures { rec.new ≡ made amount word3 (drop n (held rec.old)) }
{
    let count = book::count(rec) as usize;
    let left = count.saturating_sub(n);
    moving::move_forth(rec, 4 + n, m, 4);
    writing::write_head(rec, 1, amount, left as u32, word3);
    // zeros stand behind the cells moved, unless a token was so far back
    if count <= m {
        return;
    }
    writing::wipe(&mut rec[4 + m..]);
}

// Record k without its first n tokens, m cells moved: a carnet after a sale, a till and the desk's view of it after an
// authentication.
pub fn keep_rest(book: &mut [u32], k: usize, n: usize, m: usize, amount: u32, word3: u32)
    requires { (words * k + words ≤ length book.old) × Neat (record_at k book.old) × (count (record_at k book.old) ≤ n + m) × (n + m ≤ most_held) }
    ensures { book.new ≡ put k (made amount word3 (drop n (held (record_at k book.old)))) book.old }
{
    let from = 36 * k;
    let to = from + 36;
    drop_first(&mut book[from..to], n, m, amount, word3);
}

// A record without the tokens that are marked, closed up in its own cells in one walk, and zeros behind the last one kept.
fn drop_marked(rec: &mut [u32], marks: u32, amount: u32, word3: u32)
    requires { length rec.old ≡ words }
    ensures { rec.new ≡ made amount word3 (unmarked marks (held rec.old)) }
{
    let n = (book::count(rec) as usize).min(32);
    let kept = marking::close_up(&mut rec[4..], n, marks);
    writing::cut_record(rec, amount, kept as u32, word3, kept);
}

// Record k without the tokens that are marked: the desk's view after a clear.
pub fn strike(book: &mut [u32], k: usize, marks: u32, amount: u32, word3: u32)
    requires { words * k + words ≤ length book.old }
    ensures { book.new ≡ put k (made amount word3 (unmarked marks (held (record_at k book.old)))) book.old }
{
    let from = 36 * k;
    let to = from + 36;
    drop_marked(&mut book[from..to], marks, amount, word3);
}

// ---- the records of a step, in the order in which the rules write them

// A party comes into use, without tokens: its own record, and the desk's view of it with an amount.
pub fn enter(book: &mut [u32], own: usize, view: usize, amount: u32)
    requires { Party book.old own view }
    ensures { book.new ≡ put view (made amount 0 []) (put own (made 0 0 []) book.old) }
{
    writing::put_made(book, own, 0, 0, &[]);
    writing::put_made(book, view, amount, 0, &[]);
}

// The next n tokens of the list replace what a party and the desk's view of it hold; the desk counts them as dealt.
pub fn deal(tokens: &[u32], book: &mut [u32], own: usize, view: usize, amount: u32, n: usize)
    requires { Enough tokens.now book.old own view n }
    ensures { book.new ≡ put 0 (with_amount (dealt book.old + n) (record_at 0 book.old)) (put view (made amount 0 (fresh tokens.now book.old n)) (put own (made 0 0 (fresh tokens.now book.old n)) book.old)) }
{
    let d = book::word_of(book, 0, 1) as usize;
    let e = d + n;
    writing::put_made(book, own, 0, 0, &tokens[d..e]);
    writing::copy_record(book, own, view);
    writing::set_word(book, view, 1, amount);
    writing::set_word(book, 0, 1, e as u32);
}

// A bench's first token is used up, in its till and in the desk's view of it, whose balance stays and whose handshake comes to s.
pub fn use_up(book: &mut [u32], till: usize, view: usize, s: u32)
    requires { Bench book.old till view }
    ensures { book.new ≡ put view (made (amount (record_at view book.old)) s (drop 1 (held (record_at view book.old)))) (put till (made 0 0 (drop 1 (held (record_at till book.old)))) book.old) }
{
    let balance = book::word_of(book, view, 1);
    keep_rest(book, till, 1, 31, 0, 0);
    keep_rest(book, view, 1, 31, balance, s);
}

// A line is cleared: the customer's view loses the tokens that are marked, the bench is paid what the caller has counted and its
// handshake is used up, the line holds none.
pub fn settle(book: &mut [u32], view: usize, bench: usize, line: usize, marks: u32, paid: u32)
    requires { Account book.old view bench line paid }
    ensures { book.new ≡ put line (made 0 0 []) (put bench (with_handshake 0 (with_amount (amount (record_at bench book.old) + paid) (record_at bench book.old))) (put view (made (amount (record_at view book.old)) 0 (unmarked marks (held (record_at view book.old)))) book.old)) }
{
    let budget = book::word_of(book, view, 1);
    let balance = book::word_of(book, bench, 1);
    strike(book, view, marks, budget, 0);
    writing::set_word(book, bench, 1, balance + paid);
    writing::set_word(book, bench, 3, 0);
    writing::put_made(book, line, 0, 0, &[]);
}
