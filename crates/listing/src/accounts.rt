// The listing's accounts: a line for each joined customer, then one for each joined bench, into lent bytes.
// Inner: who calls has lent room for the longest line of each party.
ghost use Rattle.std.specs.Prelude.{◌≡◌, ◌+◌, ◌*◌, ◌≤◌, ◌<◌, length};
ghost use Rattle.rules.specs.Records.{record_at};
ghost use Rattle.rules.specs.Listing.{customer_line, bench_line, accounts};
ghost use Rattle.listing.specs.Written.{written};
ghost use Rattle.listing.specs.Parties.{account_line};

use super::text;
use book::halls::HallBook;
use sound::groups;

fn put_customer(out: &mut [u8], at: usize, book: HallBook, c: u8) -> usize
    requires { (c < book.hall.customers) × (at + 86 ≤ length out.old) }
    ensures { (result ≡ at + length (customer_line book.entry.hall (λ k. record_at k book.entry.pages.now) c)) × (out.new ≡ written at (customer_line book.entry.hall (λ k. record_at k book.entry.pages.now) c) out.old) }
{
    let view = book.view(c);
    if book.word(view, 0) != 1 {
        return at;
    }
    let budget = book.word(view, 1);
    let viewed = book.word(view, 2);
    let carried = book.word(book.carnet(c), 2);
    text::put_party(
        out,
        at,
        b'C',
        u64::from(c),
        u64::from(budget),
        u64::from(viewed),
        u64::from(carried),
    )
}

fn put_bench(out: &mut [u8], at: usize, book: HallBook, m: u8) -> usize
    requires { (m < book.hall.benches) × (at + 86 ≤ length out.old) }
    ensures { (result ≡ at + length (bench_line book.entry.hall (λ k. record_at k book.entry.pages.now) m)) × (out.new ≡ written at (bench_line book.entry.hall (λ k. record_at k book.entry.pages.now) m) out.old) }
{
    let view = book.bench_view(m);
    if book.word(view, 0) != 1 {
        return at;
    }
    let owed = book.word(view, 1);
    let stocked = book.word(book.till(m), 2);
    let waiting = groups::sum_of(book.pages, 2, book.line(m, 0), book.hall.customers);
    text::put_party(
        out,
        at,
        b'M',
        u64::from(m),
        u64::from(owed),
        u64::from(stocked),
        waiting,
    )
}

// Party p: the customers, and behind them the benches.
fn put_account(out: &mut [u8], at: usize, book: HallBook, p: usize) -> usize
    requires { (p < book.hall.customers + book.hall.benches) × (at + 86 ≤ length out.old) }
    ensures { (result ≡ at + length (account_line book.entry.hall (λ k. record_at k book.entry.pages.now) p)) × (out.new ≡ written at (account_line book.entry.hall (λ k. record_at k book.entry.pages.now) p) out.old) }
{
    if p < book.hall.customers {
        return put_customer(out, at, book, p as u8);
    }
    put_bench(out, at, book, (p - book.hall.customers) as u8)
}

pub fn put_accounts(out: &mut [u8], book: HallBook) -> usize
    requires { 86 * (book.hall.customers + book.hall.benches) ≤ length out.old }
    ensures { (result ≡ length (accounts book.entry.hall book.entry.pages.now)) × (out.new ≡ written 0 (accounts book.entry.hall book.entry.pages.now) out.old) × (result ≤ 86 * (book.entry.hall.customers + book.entry.hall.benches)) }
{
    let mut end = 0;
    for p in 0..book.hall.customers + book.hall.benches {
        end = put_account(out, end, book, p);
    }
    end
}
