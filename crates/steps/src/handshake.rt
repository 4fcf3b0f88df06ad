// The two authentications: a bench and the desk compare the first of the bench's tokens, each from its own record, and the
// handshake goes on. Inner, all of them: the step has found the book sound and the record well formed, and calls the function of
// its kind.
ghost use Rattle.std.specs.Prelude.{◌≡◌, ◌≤◌};
ghost use Rattle.rules.specs.Answers.{first, Gives, verdict_of};
ghost use Rattle.changes.specs.Found.{Party};
ghost use Rattle.kinds.specs.Kinds.{bench_authenticates, desk_authenticates, Placed, Tidy};
ghost use Rattle.steps.specs.Pairs.{pair_of, bench_at, desk_at};

use rules::refusal::Refusal;
use rules::{Entry, Hall};

// The numbers of the records that both name: the till, and the desk's view of its bench.
#[derive(Clone, Copy)]
struct Pair {
    till: usize,
    view: usize,
}

fn find(h: Hall, e: Entry) -> Pair
    requires { (h.customers ≤ 64) × (h.benches ≤ 64) }
    ensures { result ≡ pair_of h e }
{
    Pair {
        till: book::till(h, e.bench),
        view: book::bench_view(h, e.bench),
    }
}

// ---- the checks

// Whatever the handshake, the bench may begin one.
#[tactic(auto, using(crate::proofs::handshake::Compared::first_cell), unfolding(crate::specs::Pairs::bench_at, rules::specs::Records::in_use, rules::specs::Records::count))]
fn judge_bench(book: &[u32], at: Pair) -> Result<(), Refusal>
    requires { Party book.now at.till at.view }
    ensures { verdict_of result ≡ first (bench_at book.now at) }
{
    checks::bench_authenticates(
        book::word_of(book, at.view, 0),
        book::word_of(book, at.till, 2),
        book::word_of(book, at.view, 2),
        book::word_of(book, at.till, 4),
        book::word_of(book, at.view, 4),
    )
}

// The desk answers where the bench has begun.
#[tactic(auto, using(crate::proofs::handshake::Compared::first_cell), unfolding(crate::specs::Pairs::desk_at, rules::specs::Records::in_use, rules::specs::Records::count, rules::specs::Records::handshake))]
fn judge_desk(book: &[u32], at: Pair) -> Result<(), Refusal>
    requires { Party book.now at.till at.view }
    ensures { verdict_of result ≡ first (desk_at book.now at) }
{
    checks::desk_authenticates(
        book::word_of(book, at.view, 0),
        book::word_of(book, at.view, 3),
        book::word_of(book, at.till, 2),
        book::word_of(book, at.view, 2),
        book::word_of(book, at.till, 4),
        book::word_of(book, at.view, 4),
    )
}

// ---- the kinds

// Unless it is refused, the first token goes from till and view, and the handshake goes on.
pub fn bench_authenticates(h: Hall, book: &mut [u32], e: Entry) -> Result<(), Refusal>
    requires { Placed h book.old e 7 × Tidy h book.old }
    ensures { Gives (bench_authenticates h book.old e) (verdict_of result) book.new }
{
    let at = find(h, e);
    judge_bench(book, at)?;
    changes::use_up(book, at.till, at.view, 1);
    Ok(())
}

pub fn desk_authenticates(h: Hall, book: &mut [u32], e: Entry) -> Result<(), Refusal>
    requires { Placed h book.old e 8 × Tidy h book.old }
    ensures { Gives (desk_authenticates h book.old e) (verdict_of result) book.new }
{
    let at = find(h, e);
    judge_desk(book, at)?;
    changes::use_up(book, at.till, at.view, 2);
    Ok(())
}
