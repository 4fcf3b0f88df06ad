// Is this book sound? The token list, the clauses of the definition one by one, and the whole test of a plain book.

#![tactic(auto)]

ghost use Rattle.std.specs.Prelude.{◌≡◌, ◌+◌, ◌*◌, ◌≤◌, length, ◌&&◌};
ghost use Rattle.rules.specs.Lists.{true, leb, min, range, every};
ghost use Rattle.rules.specs.Hall.{main_hall, Carnet, Till, Line, number, records, spendable, views};
ghost use Rattle.rules.specs.Records.{words, in_use, record_at};
ghost use Rattle.rules.specs.Sound.{good_list, record_good, parties_good, once_in, money_good, sound};
ghost use Rattle.sound.specs.Accounts.{accounts_good};

pub mod groups;
pub mod money;
pub mod records;

use book::halls::HallBook;
use index::listed::Listed;
use rules::Hall;
use tokens::searching;

#[tactic(auto, unfolding(rules::specs::Sound::good_list))]
pub fn is_good_list(list: &[u32]) -> bool
    ensures { result ≡ good_list list.now }
{
    list.len() <= 4096 && searching::all_different(list)
}

// Each of the first n records by itself, with d tokens dealt. This, what it asks of a record and `are_accounts_good` are put where they
// are called: a book or a list with its index is handed over as a copy, and the test of soundness goes deepest of all on the stack.
#[inline(always)]
pub fn are_good(h: Hall, listed: Listed, book: &[u32], d: usize, n: usize) -> bool
    requires { words * n ≤ length book.now }
    ensures { result ≡ every (λ k. record_good h listed.entry.list.now d k (record_at k book.now)) (range 0 n) }
{
    for k in 0..n {
        if !records::is_good(h, listed, d, k, book::record_at(book, k)) {
            return false;
        }
    }
    true
}

// A line is in use only if its customer and its bench are.
fn are_lines_joined(book: HallBook) -> bool
    ensures { result ≡ every (λ m. every (λ c. leb (in_use (record_at (number book.entry.hall (Line m c)) book.entry.pages.now)) (min (in_use (record_at (number book.entry.hall (Carnet c)) book.entry.pages.now)) (in_use (record_at (number book.entry.hall (Till m)) book.entry.pages.now)))) (range 0 book.entry.hall.customers)) (range 0 book.entry.hall.benches) }
{
    let carnets = book.carnet(0);
    for m in 0..book.hall.benches as u8 {
        let used = book.word(book.till(m), 0);
        let line = book.line(m, 0);
        if !groups::are_backed(book.pages, line, carnets, used, book.hall.customers) {
            return false;
        }
    }
    true
}

// A party is in use on both sides or on neither, and a line needs its two parties.
fn are_parties_good(book: HallBook) -> bool
    ensures { result ≡ parties_good book.entry.hall (λ p. in_use (record_at (number book.entry.hall p) book.entry.pages.now)) }
{
    let HallBook { hall, pages } = book;
    groups::are_paired(pages, book.carnet(0), book.view(0), hall.customers)
        && groups::are_paired(pages, book.till(0), book.bench_view(0), hall.benches)
        && are_lines_joined(book)
}

// What can still be spent or cleared, in carnets and in lines, is all different.
fn is_spendable_once(book: HallBook) -> bool
    ensures { result ≡ once_in (spendable book.entry.hall) (λ k. record_at k book.entry.pages.now) }
{
    let HallBook { hall, pages } = book;
    let carnets = book.carnet(0);
    let lines = book.line(0, 0);
    let n = hall.customers * hall.benches;
    groups::is_once(pages, carnets, hall.customers)
        && groups::are_apart(pages, carnets, hall.customers, lines, n)
        && groups::is_once(pages, lines, n)
}

// The hall has no more than it may have.
fn is_money_good(book: HallBook) -> bool
    ensures { result ≡ money_good book.entry.hall (λ k. record_at k book.entry.pages.now) }
{
    money::total(book) <= money::most(book)
}

// What both books share word for word.
#[inline(always)]
pub fn are_accounts_good(book: HallBook) -> bool
    ensures { result ≡ accounts_good book.entry.hall (λ k. record_at k book.entry.pages.now) }
{
    are_parties_good(book) && is_money_good(book)
}

// No token stands twice in the desk's views.
pub fn are_views_once(book: HallBook) -> bool
    ensures { result ≡ once_in (views book.entry.hall) (λ k. record_at k book.entry.pages.now) }
{
    let parties = book.hall.customers + book.hall.benches;
    groups::is_once(book.pages, book.view(0), parties)
}

// Nor among what can be spent or cleared.
fn is_token_once(book: HallBook) -> bool
    ensures { result ≡ (once_in (views book.entry.hall) (λ k. record_at k book.entry.pages.now) && once_in (spendable book.entry.hall) (λ k. record_at k book.entry.pages.now)) }
{
    are_views_once(book) && is_spendable_once(book)
}

// The cheap clauses come first.
#[tactic(auto, using(crate::proofs::Whole::clauses), unfolding(rules::specs::Records::amount, rules::specs::Sound::sound))]
pub fn is_sound_of(h: Hall, list: &[u32], book: &[u32]) -> bool
    requires { (h.customers ≤ 64) × (h.benches ≤ 64) }
    ensures { result ≡ sound h list.now book.now }
{
    let Some(book) = HallBook::of(h, book) else {
        return false;
    };
    let dealt = book.word(0, 1) as usize;
    are_accounts_good(book)
        && is_good_list(list)
        && are_good(h, Listed::plain(list), book.pages, dealt, book.records())
        && is_token_once(book)
}

pub fn is_sound(list: &[u32], book: &[u32]) -> bool
    ensures { result ≡ sound main_hall list.now book.now }
{
    is_sound_of(rules::MAIN, list, book)
}
