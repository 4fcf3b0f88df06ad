// The library for C and Rust: the main hall's functions under names of their own, for whatever a caller lends.
// A slice is a pointer and a count of elements. Each promise is that of the function below it.

#![tactic(auto)]

ghost use Rattle.std.specs.Prelude.{◌≡◌, ◌/◌, ◌%◌, length};
ghost use Rattle.rules.specs.Answers.{Gives};
ghost use Rattle.rules.specs.Lists.{cond};
ghost use Rattle.rules.specs.Hall.{main_hall};
ghost use Rattle.rules.specs.Sound.{sound};
ghost use Rattle.rules.specs.Bytes.{make_empty, write_book, read_book};
ghost use Rattle.rules.specs.Tape.{read_at, write_entry};
ghost use Rattle.rules.specs.Form.{plain};
ghost use Rattle.rules.specs.Verdicts.{verdict_in, second_in, step, run, RunGives};
ghost use Rattle.rules.specs.Slips.{slip, slip_sound, open_into};
ghost use Rattle.rules.specs.Index.{is_index, build_index, places_into, open_indexed};
ghost use Rattle.tape.specs.Reading.{number_of, entry_in};
ghost use Rattle.gingerstall.specs.Outer.{Packed, entry_from, fields_of, read_fields};

use book::forms::Form;
use book::writing;
use index::{building, checking, finding};
use rules::refusal::{Refusal, Reply};
use rules::{Entry, refusal};
use tape::{Cursor, Unread};

fn entry(kind: u8, bench: u8, customer: u8, zero: u8, amount: u32) -> Entry
    ensures { result ≡ entry_from kind bench customer zero amount }
{
    Entry {
        kind,
        bench,
        customer,
        byte3: zero,
        amount,
    }
}

// ---- an empty book

#[unsafe(no_mangle)]
pub extern "C" fn gs_empty(book: &mut [u32]) -> u8
    ensures { Gives (make_empty main_hall book.old) result book.new }
{
    refusal::verdict(writing::make_empty(book))
}

// ---- is it sound? 0 for yes, as a verdict would be

fn unsound(good: bool) -> u8
    ensures { result ≡ cond good 0 1 }
{
    u8::from(!good)
}

#[unsafe(no_mangle)]
pub extern "C" fn gs_sound(tokens: &[u32], book: &[u32]) -> u8
    ensures { result ≡ cond (sound main_hall tokens.now book.now) 0 1 }
{
    unsound(sound::is_sound(tokens, book))
}

#[unsafe(no_mangle)]
pub extern "C" fn gs_slip_sound(tokens: &[u32], book: &[u32]) -> u8
    ensures { result ≡ cond (slip_sound main_hall tokens.now book.now) 0 1 }
{
    unsound(slips::is_sound(tokens, book))
}

// ---- a step: the low byte of the answer is its verdict, the high byte its second number

fn packed(reply: Reply) -> u16
    ensures { (result % 256 ≡ verdict_in reply) × (result / 256 ≡ second_in reply) }
{
    let (verdict, second) = refusal::numbers(reply);
    u16::from_le_bytes([verdict, second])
}

#[unsafe(no_mangle)]
pub extern "C" fn gs_step(
    tokens: &[u32],
    book: &mut [u32],
    kind: u8,
    bench: u8,
    customer: u8,
    zero: u8,
    amount: u32,
) -> u16
    ensures { Packed (step plain main_hall tokens.now book.old (entry_from kind bench customer zero amount)) result book.new }
{
    let e = entry(kind, bench, customer, zero, amount);
    packed(desk::step(Form::Plain, tokens, book, e))
}

#[unsafe(no_mangle)]
pub extern "C" fn gs_slip_step(
    tokens: &[u32],
    book: &mut [u32],
    kind: u8,
    bench: u8,
    customer: u8,
    zero: u8,
    amount: u32,
) -> u16
    ensures { Packed (step slip main_hall tokens.now book.old (entry_from kind bench customer zero amount)) result book.new }
{
    let e = entry(kind, bench, customer, zero, amount);
    packed(desk::step(Form::Slip, tokens, book, e))
}

// ---- a run over a whole tape

#[unsafe(no_mangle)]
pub extern "C" fn gs_run(
    tokens: &[u32],
    book: &mut [u32],
    tape: &[u8],
    verdicts: &mut [u8],
    seconds: &mut [u8],
) -> u8
    ensures { RunGives (run plain main_hall tokens.now book.old tape.now verdicts.old seconds.old) result book.new verdicts.new seconds.new }
{
    refusal::verdict(desk::run(Form::Plain, tokens, book, tape, verdicts, seconds))
}

#[unsafe(no_mangle)]
pub extern "C" fn gs_slip_run(
    tokens: &[u32],
    book: &mut [u32],
    tape: &[u8],
    verdicts: &mut [u8],
    seconds: &mut [u8],
) -> u8
    ensures { RunGives (run slip main_hall tokens.now book.old tape.now verdicts.old seconds.old) result book.new verdicts.new seconds.new }
{
    refusal::verdict(desk::run(Form::Slip, tokens, book, tape, verdicts, seconds))
}

#[unsafe(no_mangle)]
pub extern "C" fn gs_slip_open(tokens: &[u32], slips: &[u32], plain: &mut [u32]) -> u8
    ensures { Gives (open_into main_hall tokens.now slips.now plain.old) result plain.new }
{
    refusal::verdict(slips::open_into(tokens, slips, plain))
}

// ---- an index beside the list, and what is done with one

#[unsafe(no_mangle)]
pub extern "C" fn gs_index_build(tokens: &[u32], index: &mut [u16]) -> u8
    ensures { Gives (build_index tokens.now index.old) result index.new }
{
    refusal::verdict(building::build(tokens, index))
}

#[unsafe(no_mangle)]
pub extern "C" fn gs_index_check(tokens: &[u32], index: &[u16]) -> u8
    ensures { result ≡ cond (is_index tokens.now index.now) 0 1 }
{
    unsound(checking::is_index(tokens, index))
}

#[unsafe(no_mangle)]
pub extern "C" fn gs_index_places(
    tokens: &[u32],
    index: &[u16],
    numbers: &[u32],
    places: &mut [u32],
) -> u8
    ensures { Gives (places_into tokens.now index.now numbers.now places.old) result places.new }
{
    refusal::verdict(finding::places(tokens, index, numbers, places))
}

#[unsafe(no_mangle)]
pub extern "C" fn gs_slip_open_indexed(
    tokens: &[u32],
    index: &[u16],
    slips: &[u32],
    plain: &mut [u32],
) -> u8
    ensures { Gives (open_indexed main_hall tokens.now index.now slips.now plain.old) result plain.new }
{
    refusal::verdict(slips::open_indexed(tokens, index, slips, plain))
}

// ---- a book on file

#[unsafe(no_mangle)]
pub extern "C" fn gs_book_to_bytes(book: &[u32], bytes: &mut [u8]) -> u8
    ensures { Gives (write_book main_hall book.now bytes.old) result bytes.new }
{
    refusal::verdict(filing::write_book(book, bytes))
}

#[unsafe(no_mangle)]
pub extern "C" fn gs_book_from_bytes(bytes: &[u8], book: &mut [u32]) -> u8
    ensures { Gives (read_book main_hall bytes.now book.old) result book.new }
{
    refusal::verdict(filing::read_book(bytes, book))
}

// ---- the tape, record by record

fn number_of(got: Result<Entry, Unread>) -> u8
    ensures { result ≡ number_of got }
{
    match got {
        Ok(_) => 0,
        Err(unread) => Refusal::from(unread) as u8,
    }
}

fn put_fields(fields: &mut [u32], e: &Entry)
    requires { length fields.old ≡ 5 }
    ensures { fields.new ≡ fields_of e.now }
{
    fields[0] = u32::from(e.kind);
    fields[1] = u32::from(e.bench);
    fields[2] = u32::from(e.customer);
    fields[3] = u32::from(e.byte3);
    fields[4] = e.amount;
}

// Those of the record handed back, all zeros where there is none. They are laid in each case for itself, since a refused record stands
// elsewhere in its `Result` than a good one: with the record taken out first, in either case, to read one took half as long again.
fn put_handed_back(fields: &mut [u32], got: Result<Entry, Unread>)
    requires { length fields.old ≡ 5 }
    ensures { fields.new ≡ fields_of (entry_in got) }
{
    match got {
        Ok(e) => put_fields(fields, &e),
        Err(unread) => match unread {
            Unread::Bad(_, e) => put_fields(fields, &e),
            Unread::Cut => put_fields(fields, &entry(0, 0, 0, 0, 0)),
        },
    }
}

// The record at a place, its five fields laid into the lent ones, also where it is refused.
#[unsafe(no_mangle)]
pub extern "C" fn gs_read(tape: &[u8], at: usize, fields: &mut [u32]) -> u8
    ensures { Gives (read_fields main_hall tape.now at fields.old) result fields.new }
{
    if fields.len() != 5 {
        return 16;
    }
    let reading = Cursor { at }.read(tape);
    put_handed_back(fields, reading.got);
    number_of(reading.got)
}

#[unsafe(no_mangle)]
pub extern "C" fn gs_read_next(tape: &[u8], at: usize) -> usize
    ensures { result ≡ (read_at main_hall tape.now at).next }
{
    Cursor { at }.read(tape).next.at
}

#[unsafe(no_mangle)]
pub extern "C" fn gs_write(
    kind: u8,
    bench: u8,
    customer: u8,
    zero: u8,
    amount: u32,
    part: &mut [u8],
) -> u8
    ensures { Gives (write_entry main_hall (entry_from kind bench customer zero amount) part.old) result part.new }
{
    refusal::verdict(tape::write(entry(kind, bench, customer, zero, amount), part))
}
