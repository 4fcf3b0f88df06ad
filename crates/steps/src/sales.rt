// The kinds that work on a line, a sale and the two clears: one text for both forms of the book.
// Inner, all of them: the step has found the book sound and the record well formed, and calls the function of its kind.
ghost use Rattle.std.specs.Prelude.{◌≡◌, true, ◌≤◌};
ghost use Rattle.rules.specs.Answers.{first, Gives, verdict_of};
ghost use Rattle.rules.specs.Tape.{clears};
ghost use Rattle.rules.specs.Verdicts.{StepGives};
ghost use Rattle.book.specs.Forms.{form_of};
ghost use Rattle.kinds.specs.Kinds.{sell, clear, numbered, Placed, Passed};
ghost use Rattle.steps.specs.Spots.{spots_of, Stand, known_at, sale_at, shaken_at};

use book::forms::Form;
use changes::lines;
use rules::kind::Kind;
use rules::refusal::{Refusal, Refused, Reply};
use rules::{Entry, Hall};

// The numbers of the records that they name: the carnet, the desk's views of customer and bench, the line.
#[derive(Clone, Copy)]
struct Spots {
    carnet: usize,
    view: usize,
    bench: usize,
    line: usize,
}

fn find(h: Hall, e: Entry) -> Spots
    requires { (h.customers ≤ 64) × (h.benches ≤ 64) }
    ensures { result ≡ spots_of h e }
{
    Spots {
        carnet: book::carnet(h, e.customer),
        view: book::view(h, e.customer),
        bench: book::bench_view(h, e.bench),
        line: book::line(h, e.bench, e.customer),
    }
}

// ---- the checks

// Whether bench, customer and line are known.
#[tactic(auto, unfolding(crate::specs::Spots::known_at, rules::specs::Records::in_use))]
fn known_line(book: &[u32], at: Spots) -> Result<(), Refusal>
    requires { Stand book.now at }
    ensures { verdict_of result ≡ first (known_at book.now at) }
{
    checks::line(
        book::word_of(book, at.bench, 0),
        book::word_of(book, at.view, 0),
        book::word_of(book, at.line, 0),
    )
}

// Then whether the carnet has n tokens, and the line room for them.
fn judge_sale(book: &[u32], at: Spots, n: u32) -> Result<(), Refusal>
    requires { Stand book.now at }
    ensures { verdict_of result ≡ first (sale_at book.now at n) }
{
    known_line(book, at)?;
    checks::sale(
        book::word_of(book, at.carnet, 2),
        book::word_of(book, at.line, 2),
        book::word_of(book, at.line, 3),
        n,
    )
}

// For either clear, whether bench, customer and line are known, and then whether bench and desk have shaken hands.
fn judge_handshake(book: &[u32], at: Spots) -> Result<(), Refusal>
    requires { Stand book.now at }
    ensures { verdict_of result ≡ first (shaken_at book.now at) }
{
    known_line(book, at)?;
    checks::shaken(book::word_of(book, at.bench, 3))
}

// ---- the kinds

// The list is what the book is sound over: nothing of it is read.
pub fn sell(form: Form, h: Hall, tokens: &[u32], book: &mut [u32], e: Entry) -> Result<(), Refusal>
    requires { Placed h book.old e 6 × Passed (form_of form) h tokens.now book.old e }
    ensures { Gives (sell h book.old e (form_of form)) (verdict_of result) book.new }
{
    let at = find(h, e);
    judge_sale(book, at, e.amount)?;
    lines::sell(form, book, at.carnet, at.line, e.amount);
    Ok(())
}

// Either clear: those of the line's tokens that live in the customer's view are struck from it, the bench is paid for each, and its
// handshake is used up; the reply says how many were dropped. A whole line with a dead token is refused, and the reply says which
// is the first.
pub fn clear(form: Form, h: Hall, tokens: &[u32], book: &mut [u32], e: Entry) -> Reply
    requires { Placed h book.old e e.kind × Passed (form_of form) h tokens.now book.old e × (clears e.kind ≡ true) }
    ensures { StepGives (numbered (form_of form) h tokens.now book.old e (clear h book.old e (form_of form) tokens.now)) result book.new }
{
    let at = find(h, e);
    judge_handshake(book, at)?;
    let line = book::record_at(book, at.line);
    let n = book::count(line) as usize;
    let found = lines::find(form, tokens, line, book::tokens_at(book, at.view));
    if let Err(why) = checks::clear(e.kind == Kind::Clear as u8, found.dead, n) {
        return Err(Refused {
            why,
            second: found.dead as u8,
        });
    }
    changes::settle(
        book,
        at.view,
        at.bench,
        at.line,
        found.marks,
        found.living as u32,
    );
    Ok((n - found.living) as u8)
}
