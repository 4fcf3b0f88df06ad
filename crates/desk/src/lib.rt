// The desk's book: a step, and a run over a whole tape, in either form.
// A run asks once whether the book is sound. From then on each step looks at the desk's own record and at those that it
// names, a top up also at what stands in the views, and at no others: that a step leaves a sound book sound is a theorem.

#![tactic(auto)]

ghost use Rattle.std.specs.Prelude.{◌≡◌, ◌*◌, ◌≤◌, length};
ghost use Rattle.rules.specs.Hall.{main_hall};
ghost use Rattle.rules.specs.Lists.{eqb};
ghost use Rattle.rules.specs.Answers.{first, verdict_of};
ghost use Rattle.rules.specs.Tape.{kind_of, entry_rules, entries};
ghost use Rattle.rules.specs.Verdicts.{step, StepGives, steps, one_each, run, RunGives};
ghost use Rattle.book.specs.Forms.{form_of};
ghost use Rattle.desk.specs.Known.{Known};
ghost use Rattle.desk.specs.Replies.{single};

use book::forms::Form;
use rules::kind::Kind;
use rules::refusal::{Refusal, Reply};
use rules::{Entry, Hall, refusal};
use steps::{handshake, sales};

pub fn is_good(form: Form, h: Hall, tokens: &[u32], book: &[u32]) -> bool
    requires { (h.customers ≤ 64) × (h.benches ≤ 64) }
    ensures { result ≡ (form_of form).good h tokens.now book.now }
{
    match form {
        Form::Plain => sound::is_sound_of(h, tokens, book),
        Form::Slip => slips::is_sound_of(h, tokens, book),
    }
}

// ---- over a book that is known to be sound

// A reply without a second number: every kind's but a clear's.
fn single(answer: Result<(), Refusal>) -> Reply
    ensures { result ≡ single answer }
{
    answer?;
    Ok(0)
}

// The record has passed numbers 1 to 3: its kind's own checks and changes. A clear has a second number: which token is dead, or how
// many are dropped.
#[inline(always)]
fn step_kind(form: Form, h: Hall, tokens: &[u32], book: &mut [u32], e: Entry, kind: Kind) -> Reply
    requires { Known (form_of form) h tokens.now book.old × (first (entry_rules h e) ≡ 0) × (kind_of kind ≡ e.kind) }
    ensures { StepGives (step (form_of form) h tokens.now book.old e) result book.new }
{
    match kind {
        Kind::JoinCustomer => single(steps::join_customer(h, book, e)),
        Kind::JoinBench => single(steps::join_bench(h, book, e)),
        Kind::OpenLine => single(steps::open_line(h, book, e)),
        Kind::Update => single(steps::update(h, tokens, book, e)),
        Kind::Stock => single(steps::stock(h, tokens, book, e)),
        Kind::Sell => single(sales::sell(form, h, tokens, book, e)),
        Kind::BenchAuthenticates => single(handshake::bench_authenticates(h, book, e)),
        Kind::DeskAuthenticates => single(handshake::desk_authenticates(h, book, e)),
        Kind::TopUp => single(steps::top_up(h, book, e)),
        Kind::Clear | Kind::ClearLiving => sales::clear(form, h, tokens, book, e),
    }
}

// It is put where it is called, and `step_kind` in it: a reply that is handed over has three parts and goes through memory.
#[inline(always)]
pub fn step_known(form: Form, h: Hall, tokens: &[u32], book: &mut [u32], e: Entry) -> Reply
    requires { Known (form_of form) h tokens.now book.old }
    ensures { StepGives (step (form_of form) h tokens.now book.old e) result book.new }
{
    let kind = tape::judge(h, e)?;
    step_kind(form, h, tokens, book, e, kind)
}

// Each record of the tape in its turn, and its two numbers. It stands by itself, so that soundness isn't asked on top of a step's stack.
#[inline(never)]
pub fn run_known(
    form: Form,
    h: Hall,
    tokens: &[u32],
    book: &mut [u32],
    tape: &[u8],
    verdicts: &mut [u8],
    seconds: &mut [u8],
)
    requires { Known (form_of form) h tokens.now book.old × (length tape.now ≡ 8 * length verdicts.old) × (length seconds.old ≡ length verdicts.old) }
    ensures { RunGives (steps (form_of form) h tokens.now book.old (entries (length verdicts.old) tape.now)) 0 book.new verdicts.new seconds.new }
{
    for i in 0..verdicts.len() {
        let e = tape::entry_at(tape, 8 * i);
        let (verdict, second) = refusal::numbers(step_known(form, h, tokens, book, e));
        verdicts[i] = verdict;
        seconds[i] = second;
    }
}

// ---- over any book

#[tactic(auto, unfolding(rules::specs::Verdicts::step, rules::specs::Verdicts::table, rules::specs::Verdicts::second, rules::specs::Answers::first, rules::specs::Answers::answer))]
pub fn step_of(form: Form, h: Hall, tokens: &[u32], book: &mut [u32], e: Entry) -> Reply
    requires { (h.customers ≤ 64) × (h.benches ≤ 64) }
    ensures { StepGives (step (form_of form) h tokens.now book.old e) result book.new }
{
    if !is_good(form, h, tokens, book) {
        return single(Err(Refusal::Unsound));
    }
    step_known(form, h, tokens, book, e)
}

// 8 times n may not fit, and isn't formed.
fn is_eight_times(long: usize, n: usize) -> bool
    ensures { result ≡ eqb long (8 * n) }
{
    long % 8 == 0 && long / 8 == n
}

// A byte of each buffer for each 8 of the tape.
#[tactic(auto, unfolding(rules::specs::Verdicts::one_each))]
fn is_one_each(tape: &[u8], verdicts: &[u8], seconds: &[u8]) -> bool
    ensures { result ≡ one_each tape.now verdicts.now seconds.now }
{
    is_eight_times(tape.len(), verdicts.len()) && seconds.len() == verdicts.len()
}

#[tactic(auto, using(rules::proofs::Running::each_tape, rules::proofs::Running::each_second), unfolding(rules::specs::Verdicts::run, rules::specs::Answers::first))]
pub fn run_of(
    form: Form,
    h: Hall,
    tokens: &[u32],
    book: &mut [u32],
    tape: &[u8],
    verdicts: &mut [u8],
    seconds: &mut [u8],
) -> Result<(), Refusal>
    requires { (h.customers ≤ 64) × (h.benches ≤ 64) }
    ensures { RunGives (run (form_of form) h tokens.now book.old tape.now verdicts.old seconds.old) (verdict_of result) book.new verdicts.new seconds.new }
{
    if !is_good(form, h, tokens, book) {
        return Err(Refusal::Unsound);
    }
    if !is_one_each(tape, verdicts, seconds) {
        return Err(Refusal::CutShort);
    }
    run_known(form, h, tokens, book, tape, verdicts, seconds);
    Ok(())
}

// ---- in the hall in use

pub fn step(form: Form, tokens: &[u32], book: &mut [u32], e: Entry) -> Reply
    ensures { StepGives (step (form_of form) main_hall tokens.now book.old e) result book.new }
{
    step_of(form, rules::MAIN, tokens, book, e)
}

pub fn run(
    form: Form,
    tokens: &[u32],
    book: &mut [u32],
    tape: &[u8],
    verdicts: &mut [u8],
    seconds: &mut [u8],
) -> Result<(), Refusal>
    ensures { RunGives (run (form_of form) main_hall tokens.now book.old tape.now verdicts.old seconds.old) (verdict_of result) book.new verdicts.new seconds.new }
{
    run_of(form, rules::MAIN, tokens, book, tape, verdicts, seconds)
}
