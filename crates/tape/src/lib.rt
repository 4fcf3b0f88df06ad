// The tape: what is refused of a record by itself, a cursor that reads the records of lent bytes, and the writer of one.

#![tactic(auto)]

ghost use Rattle.std.specs.Prelude.{◌≡◌, ◌+◌, ◌≤◌, ◌||◌, IfOk};
ghost use Rattle.rules.specs.Lists.{not, leb, ltb, eqb, length, drop};
ghost use Rattle.rules.specs.Hall.{main_hall};
ghost use Rattle.rules.specs.Answers.{first, verdict_of, Gives};
ghost use Rattle.rules.specs.Tape.{kind_of, uses_bench, uses_customer, uses_amount, entry_rules, entry_of, eight_bytes, read_at, write_entry};
ghost use Rattle.tape.specs.Fields.{formed, placed};
ghost use Rattle.tape.specs.Reading.{refusal_of, reading};

use rules::kind::Kind;
use rules::refusal::Refusal;
use rules::{Entry, Hall};

// Number 2, of one field: what isn't used is zero.
fn is_used_or_zero(used: bool, x: u32) -> bool
    ensures { result ≡ (used || eqb x 0) }
{
    used || x == 0
}

// Number 3, of one field: what is used is one of the hall's `n`.
fn is_unused_or_below(used: bool, x: u8, n: usize) -> bool
    ensures { result ≡ (not used || ltb x n) }
{
    !used || usize::from(x) < n
}

// Number 2, of all but the kind.
#[tactic(auto, unfolding(crate::specs::Fields::formed))]
fn is_formed(e: Entry, kind: Kind) -> bool
    ensures { result ≡ formed e (uses_bench (kind_of kind)) (uses_customer (kind_of kind)) (uses_amount (kind_of kind)) }
{
    e.byte3 == 0
        && is_used_or_zero(kind.uses_bench(), u32::from(e.bench))
        && is_used_or_zero(kind.uses_customer(), u32::from(e.customer))
        && is_used_or_zero(kind.uses_amount(), e.amount)
}

#[tactic(auto, unfolding(crate::specs::Fields::placed))]
fn is_placed(h: Hall, e: Entry, kind: Kind) -> bool
    ensures { result ≡ placed h e (uses_bench (kind_of kind)) (uses_customer (kind_of kind)) }
{
    is_unused_or_below(kind.uses_bench(), e.bench, h.benches)
        && is_unused_or_below(kind.uses_customer(), e.customer, h.customers)
}

// Numbers 2 and 3 of a record whose kind is known. It is put where it is called, each time for one kind, so that which fields are used
// is settled when it is compiled.
#[tactic(auto, unfolding(rules::specs::Answers::first, rules::specs::Tape::entry_rules, rules::specs::Tape::well_formed, rules::specs::Tape::in_hall, crate::specs::Fields::formed, crate::specs::Fields::placed))]
#[inline(always)]
fn judge_of(h: Hall, e: Entry, kind: Kind) -> Result<Kind, Refusal>
    requires { kind_of kind ≡ e.kind }
    ensures number { verdict_of result ≡ first (entry_rules h e) }
    ensures kind { IfOk result (λ k. kind_of k ≡ e.kind) }
{
    if !is_formed(e, kind) {
        return Err(Refusal::Malformed);
    }
    if !is_placed(h, e, kind) {
        return Err(Refusal::NotInHall);
    }
    Ok(kind)
}

// The kind of a record that numbers 2 and 3 let pass. It is put where it is called, once in a step. The kind is looked at once, and each has
// a call of its own: with one call for all, which fields a kind uses was asked five times over, and a record read took two thirds more.
#[tactic(auto, unfolding(rules::specs::Answers::first, rules::specs::Tape::entry_rules, rules::specs::Tape::well_formed))]
#[inline(always)]
pub fn judge(h: Hall, e: Entry) -> Result<Kind, Refusal>
    ensures number { verdict_of result ≡ first (entry_rules h e) }
    ensures kind { IfOk result (λ k. kind_of k ≡ e.kind) }
{
    match Kind::try_from(e.kind)? {
        Kind::JoinCustomer => judge_of(h, e, Kind::JoinCustomer),
        Kind::JoinBench => judge_of(h, e, Kind::JoinBench),
        Kind::OpenLine => judge_of(h, e, Kind::OpenLine),
        Kind::Update => judge_of(h, e, Kind::Update),
        Kind::Stock => judge_of(h, e, Kind::Stock),
        Kind::Sell => judge_of(h, e, Kind::Sell),
        Kind::BenchAuthenticates => judge_of(h, e, Kind::BenchAuthenticates),
        Kind::DeskAuthenticates => judge_of(h, e, Kind::DeskAuthenticates),
        Kind::Clear => judge_of(h, e, Kind::Clear),
        Kind::TopUp => judge_of(h, e, Kind::TopUp),
        Kind::ClearLiving => judge_of(h, e, Kind::ClearLiving),
    }
}

// A reader's place on the tape.
#[derive(Clone, Copy, PartialEq, Eq, Debug)]
pub struct Cursor {
    pub at: usize,
}

// Why no good record is handed back: number 2 or 3, with the record that is refused, or number 16.
#[derive(Clone, Copy, PartialEq, Eq, Debug)]
pub enum Unread {
    Bad(Refusal, Entry),
    Cut,
}

// The verdict number alone.
impl From<Unread> for Refusal {
    ghost from_gives = { λ unread why. why ≡ refusal_of unread };

    fn from(unread: Unread) -> Refusal {
        match unread {
            Unread::Bad(why, _) => why,
            Unread::Cut => Refusal::CutShort,
        }
    }
}

// What is handed back: the record or why not, and the cursor moved on.
#[derive(Clone, Copy, PartialEq, Eq, Debug)]
pub struct Reading {
    pub got: Result<Entry, Unread>,
    pub next: Cursor,
}

// Whether 8 of `n` bytes are left at `at`. Any place may be asked, so `at + 8`, which may not fit, is never formed.
fn is_whole(n: usize, at: usize) -> bool
    ensures { result ≡ leb (at + 8) n }
{
    8 <= n && at <= n - 8
}

// The record that stands at a place with 8 bytes left; whether it is refused is not asked. Its bytes are read as two words, each of
// which is one load, and the first is taken apart.
#[tactic(auto, using(crate::proofs::Eight::entry_parted))]
pub fn entry_at(bytes: &[u8], at: usize) -> Entry
    requires { at + 8 ≤ length bytes.now }
    ensures { result ≡ entry_of (drop at bytes.now) }
{
    let [kind, bench, customer, byte3] = octets::word_at(bytes, at).to_le_bytes();
    Entry {
        kind,
        bench,
        customer,
        byte3,
        amount: octets::word_at(bytes, at + 4),
    }
}

impl Cursor {
    // The record at the cursor. A record that is refused is passed over, so that the one after it can be read. It is put where it is
    // called, as `judge` is, so that who asks for the next place alone doesn't pay for the rest.
    #[tactic(auto, unfolding(rules::specs::Tape::read_at, crate::specs::Reading::got_of, crate::specs::Reading::reading))]
    #[inline(always)]
    pub fn read_of(self, h: Hall, tape: &[u8]) -> Reading
        ensures { result ≡ reading (read_at h tape.now self.at) }
    {
        let at = self.at;
        if !is_whole(tape.len(), at) {
            return Reading {
                got: Err(Unread::Cut),
                next: self,
            };
        }
        let e = entry_at(tape, at);
        let next = Cursor { at: at + 8 };
        match judge(h, e) {
            Ok(_) => Reading { got: Ok(e), next },
            Err(why) => Reading {
                got: Err(Unread::Bad(why, e)),
                next,
            },
        }
    }

    // In the hall in use.
    #[inline(always)]
    pub fn read(self, tape: &[u8]) -> Reading
        ensures { result ≡ reading (read_at main_hall tape.now self.at) }
    {
        self.read_of(rules::MAIN, tape)
    }
}

#[tactic(auto, using(crate::proofs::Eight::put_eight), unfolding(rules::specs::Tape::eight_bytes))]
fn put_entry(e: Entry, out: &mut [u8])
    requires { length out.old ≡ 8 }
    ensures { out.new ≡ eight_bytes e }
{
    out[0] = e.kind;
    out[1] = e.bench;
    out[2] = e.customer;
    out[3] = e.byte3;
    octets::put_word(out, 4, e.amount);
}

// Writes the record, or answers why not: what reading would refuse comes before a part that isn't 8 bytes.
#[tactic(auto, unfolding(rules::specs::Answers::first, rules::specs::Answers::answer, rules::specs::Tape::entry_rules, rules::specs::Tape::write_entry))]
pub fn write_of(h: Hall, e: Entry, out: &mut [u8]) -> Result<(), Refusal>
    ensures { Gives (write_entry h e out.old) (verdict_of result) out.new }
{
    judge(h, e)?;
    if out.len() != 8 {
        return Err(Refusal::CutShort);
    }
    put_entry(e, out);
    Ok(())
}

// In the hall in use.
pub fn write(e: Entry, out: &mut [u8]) -> Result<(), Refusal>
    ensures { Gives (write_entry main_hall e out.old) (verdict_of result) out.new }
{
    write_of(rules::MAIN, e, out)
}
