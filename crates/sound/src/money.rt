// The hall's money, for the test of soundness and for a top up. Inner, both of them. Sums are of 64 bits, which that many words
// of 32 can't pass.
ghost use Rattle.std.specs.Prelude.{◌≡◌, ◌*◌, ◌≤◌, length};
ghost use Rattle.rules.specs.Records.{record_at};
ghost use Rattle.rules.specs.Sound.{total, most_total};

use crate::groups;
use book::halls::HallBook;

// Balances and budgets, and a token's worth for each that customers carry.
pub fn total(book: HallBook) -> u64
    ensures { result ≡ total book.entry.hall (λ k. record_at k book.entry.pages.now) }
{
    let HallBook { hall, pages } = book;
    let views = book.view(0);
    let owned = groups::sum_of(pages, 1, views, hall.customers + hall.benches);
    let carried = groups::sum_of(pages, 2, views, hall.customers);
    owned + carried
}

// What that may come to: 1,000,000 for each customer who joined.
pub fn most(book: HallBook) -> u64
    ensures { result ≡ most_total book.entry.hall (λ k. record_at k book.entry.pages.now) }
{
    let joined = groups::sum_of(book.pages, 0, book.view(0), book.hall.customers);
    1000000 * joined
}
