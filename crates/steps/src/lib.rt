// A step, one kind at a time: the kind's checks in the table's order and, where they let it pass, what it changes.
// Inner, all of them: the step has found the book sound and the record well formed, and calls the function of its kind.

// What each kind's answer comes to is opened here, once for all of them: its chain is told the words that were read, and what it
// writes is what the rules change.
#![tactic(auto, using(crate::proofs::Found::desk_stands, kinds::proofs::Passed::update_paid, kinds::proofs::Passed::update_few, rules::proofs::Answering::handed_on, rules::proofs::Answering::some_number), unfolding(kinds::specs::Kinds::join_customer, kinds::specs::Kinds::join_bench, kinds::specs::Kinds::open_line, kinds::specs::Kinds::update, kinds::specs::Kinds::stock, kinds::specs::Kinds::top_up, rules::specs::Steps::joining, rules::specs::Steps::updating, rules::specs::Steps::stocking, rules::specs::Steps::dealing, rules::specs::Steps::topping_up, rules::specs::Steps::put_all, rules::specs::Records::in_use, rules::specs::Records::amount, rules::specs::Records::count, rules::specs::Answers::answer))]

ghost use Rattle.std.specs.Prelude.{◌≡◌, ◌*◌, ◌≤◌, length};
ghost use Rattle.rules.specs.Answers.{Gives, verdict_of};
ghost use Rattle.rules.specs.Hall.{most_budget};
ghost use Rattle.rules.specs.Records.{words, record_at};
ghost use Rattle.rules.specs.Sound.{most_total};
ghost use Rattle.rules.specs.Steps.{left};
ghost use Rattle.kinds.specs.Kinds.{join_customer, join_bench, open_line, update, stock, top_up, Placed, Listed};

pub mod handshake;
pub mod sales;

use book::halls::HallBook;
use book::writing;
use rules::refusal::Refusal;
use rules::{Entry, Hall};
use sound::money;

// ---- who comes in

pub fn join_customer(h: Hall, book: &mut [u32], e: Entry) -> Result<(), Refusal>
    requires { Placed h book.old e 1 }
    ensures { Gives (join_customer h book.old e) (verdict_of result) book.new }
{
    let own = book::carnet(h, e.customer);
    let view = book::view(h, e.customer);
    checks::join_customer(book::word_of(book, own, 0), e.amount)?;
    changes::enter(book, own, view, e.amount);
    Ok(())
}

pub fn join_bench(h: Hall, book: &mut [u32], e: Entry) -> Result<(), Refusal>
    requires { Placed h book.old e 2 }
    ensures { Gives (join_bench h book.old e) (verdict_of result) book.new }
{
    let own = book::till(h, e.bench);
    let view = book::bench_view(h, e.bench);
    checks::join_bench(book::word_of(book, own, 0))?;
    changes::enter(book, own, view, 0);
    Ok(())
}

pub fn open_line(h: Hall, book: &mut [u32], e: Entry) -> Result<(), Refusal>
    requires { Placed h book.old e 3 }
    ensures { Gives (open_line h book.old e) (verdict_of result) book.new }
{
    let line = book::line(h, e.bench, e.customer);
    let used = book::word_of(book, line, 0);
    let bench = book::word_of(book, book::bench_view(h, e.bench), 0);
    let customer = book::word_of(book, book::view(h, e.customer), 0);
    checks::open(used, bench, customer)?;
    writing::put_made(book, line, 0, 0, &[]);
    Ok(())
}

// ---- tokens for who is in

// What the list still has.
fn tokens_left(tokens: &[u32], book: &[u32]) -> usize
    requires { Listed tokens.now book.now × (words ≤ length book.now) }
    ensures { result ≡ left tokens.now book.now }
{
    let dealt = book::word_of(book, 0, 1);
    tokens.len() - dealt as usize
}

// The view's count anew, whatever the carnet holds, and more, which the budget pays for.
pub fn update(h: Hall, tokens: &[u32], book: &mut [u32], e: Entry) -> Result<(), Refusal>
    requires { Placed h book.old e 4 × Listed tokens.now book.old }
    ensures { Gives (update h book.old e tokens.now) (verdict_of result) book.new }
{
    let own = book::carnet(h, e.customer);
    let view = book::view(h, e.customer);
    let used = book::word_of(book, view, 0);
    let budget = book::word_of(book, view, 1);
    let held = book::word_of(book, view, 2);
    let left = tokens_left(tokens, book);
    checks::update(used, budget, held, left, e.amount)?;
    let n = (held + e.amount) as usize;
    changes::deal(tokens, book, own, view, budget - e.amount, n);
    Ok(())
}

// As many as are asked for, whatever the till holds. A handshake is void from then on.
pub fn stock(h: Hall, tokens: &[u32], book: &mut [u32], e: Entry) -> Result<(), Refusal>
    requires { Placed h book.old e 5 × Listed tokens.now book.old }
    ensures { Gives (stock h book.old e tokens.now) (verdict_of result) book.new }
{
    let own = book::till(h, e.bench);
    let view = book::bench_view(h, e.bench);
    let used = book::word_of(book, view, 0);
    let balance = book::word_of(book, view, 1);
    let left = tokens_left(tokens, book);
    checks::stock(used, left, e.amount)?;
    changes::deal(tokens, book, own, view, balance, e.amount as usize);
    Ok(())
}

// ---- more budget for who is in

// Every view is read for the hall's money, and one word is written. What there may be in a sound book is at most 1,000,000 for
// each customer of the hall, so that a budget which is raised fits its word.
pub fn top_up(h: Hall, book: &mut [u32], e: Entry) -> Result<(), Refusal>
    requires { Placed h book.old e 10 × (most_total h (λ k. record_at k book.old) ≤ most_budget * h.customers) }
    ensures { Gives (top_up h book.old e) (verdict_of result) book.new }
{
    let view = book::view(h, e.customer);
    let used = book::word_of(book, view, 0);
    let budget = book::word_of(book, view, 1);
    let whole = HallBook {
        hall: h,
        pages: book,
    };
    let total = money::total(whole);
    let most = money::most(whole);
    checks::top_up(used, total, most, e.amount)?;
    writing::set_word(book, view, 1, budget + e.amount);
    Ok(())
}
