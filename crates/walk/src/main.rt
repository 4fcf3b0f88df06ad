// The walk: a list in `tokens.rec` and a tape on standard input, walked to the listing on standard output.
// What a list, a part of the tape and a book come to is the library's to say; here they are only read and shown.
#![tactic(auto)]

ghost use Rattle.std.specs.Prelude.{◌≡◌, ◌+◌, ◌*◌, ◌≤◌, length, take, IfSome, IfOk, OnErr};
ghost use Rattle.rules.specs.Lists.{true};
ghost use Rattle.rules.specs.Hall.{main_hall};
ghost use Rattle.rules.specs.Sound.{good_list};
ghost use Rattle.rules.specs.Listing.{accounts};
ghost use Rattle.rules.specs.Walk.{refused_line};
ghost use Rattle.io.specs.Counts.{IsPrefixLen};
ghost use Rattle.walk.specs.Reached.{Reached, Lines, Ended};

use book::forms::Form;
use book::halls::HallBook;
use book::writing;
use listing::accounts;
use std::fs;
use std::io::{Error, Read};
use std::rt::Files;

// What a part of the tape has: 1,024 records.
const PART: usize = 8192;

// Places stay below it with the records of another part. No tape comes near.
const FAR: u64 = 9223372036854774783;

// The walk ends early. What failed has been told, but for a tape that is longer than any.
#[derive(Clone, Copy)]
struct Stopped;

// How many bytes were read, and what failed behind them, if anything. It's no `Result` of the number: what was read before a
// fault is walked all the same.
#[derive(Drop)]
struct Filled<E> {
    bytes: usize,
    end: Result<(), E>,
}

// One line on standard error: what failed, and why. Where that can't be written either, there is nobody to tell.
fn tell(rt: &impl Eprint, what: &str, fault: Error) -> Stopped {
    let _ = eprintln!(rt; "{what}: {fault}");
    Stopped
}

fn show(rt: &(impl Print + Eprint), text: &[u8]) -> Result<(), Stopped> {
    rt.write_all(text)
        .map_err(|fault| tell(rt, "listing", fault))
}

// ---- all that is ever shown: each of these is told, besides the text, what it has to be the text of

fn show_refusal(rt: &(impl Print + Eprint), text: &[u8]) -> Result<(), Stopped>
    requires { text.now ≡ refused_line }
{
    show(rt, text)
}

fn show_lines(
    rt: &(impl Print + Eprint),
    tokens: &[u32],
    place: u64,
    part: &[u8],
    text: &[u8],
) -> Result<(), Stopped>
    requires { Lines tokens.now place part.now text.now }
{
    show(rt, text)
}

fn show_accounts(
    rt: &(impl Print + Eprint),
    tokens: &[u32],
    book: &[u32],
    text: &[u8],
) -> Result<(), Stopped>
    requires { Ended tokens.now book.now × (text.now ≡ accounts main_hall book.now) }
{
    show(rt, text)
}

// ---- what is read

// Reads until the lent bytes are full or the file ends. A read that fails is no end, however it failed: what stands behind it
// isn't asked for.
fn fill(file: &mut impl Read, out: &mut [u8]) -> Filled<Error>
    ensures { IsPrefixLen result.bytes out.new }
{
    let mut bytes = 0;
    while bytes < out.len() {
        match file.read(&mut out[bytes..]) {
            Ok(0) => break,
            Ok(more) => bytes += more,
            Err(fault) => {
                return Filled {
                    bytes,
                    end: Err(fault),
                };
            }
        }
    }
    Filled { bytes, end: Ok(()) }
}

// How many tokens the file has. A list that can't be read, or not to its end, is none.
fn load_list(rt: &impl Files, list: &mut [u32]) -> Option<usize>
    requires { length list.old ≡ 4096 }
    ensures { IfSome result (λ n. (n ≤ 4096) × (good_list (take n list.new) ≡ true)) }
{
    let mut bytes = io::large_buffer();
    let mut file = fs::open(rt, "tokens.rec").ok()?;
    let read = fill(&mut file, &mut bytes);
    read.end.ok()?;
    filing::read_list(&bytes[..read.bytes], list).ok()?;
    Some(read.bytes / 4)
}

// A part of the tape. Where a read fails within a record, that record is left out: it isn't the tape that is cut.
fn read_part(rt: &impl Eprint, tape: &mut impl Read, part: &mut [u8]) -> Filled<Stopped>
    ensures { IsPrefixLen result.bytes part.new }
{
    let Filled { bytes, end } = fill(tape, part);
    match end {
        Ok(()) => Filled { bytes, end: Ok(()) },
        Err(fault) => Filled {
            bytes: bytes - bytes % 8,
            end: Err(tell(rt, "tape", fault)),
        },
    }
}

// ---- the walk

// Reads a part of the tape, does its steps and shows their lines: how many bytes it had. Where a read failed, those before it
// are walked and shown, and no more.
fn walk_some(
    rt: &(impl Print + Eprint),
    tape: &mut impl Read,
    tokens: &[u32],
    book: &mut [u32],
    place: u64,
) -> Result<usize, Stopped>
    requires { Reached tokens.now book.old (8 * place) × (place ≤ 9223372036854774783) }
    ensures ok { IfOk result (λ n. Reached tokens.now book.new (8 * place + n) × (n ≤ 8192)) }
    ensures err { OnErr result (Ended tokens.now book.new) }
{
    let mut space = [0u8; PART];
    let read = read_part(rt, tape, &mut space);
    let part = &space[..read.bytes];
    let mut lines = io::large_buffer();
    let end = listing::walk_part(
        Form::Plain,
        rules::MAIN,
        tokens,
        book,
        place,
        part,
        &mut lines,
    );
    show_lines(rt, tokens, place, part, &lines[..end])?;
    read.end?;
    Ok(read.bytes)
}

// Part by part, up to one that isn't full: there the tape has ended, and all of it was shown. The book is sound from the start
// and stays so: nothing asks again.
fn walk_tape(
    rt: &(impl Print + Eprint),
    tape: &mut impl Read,
    tokens: &[u32],
    book: &mut [u32],
) -> Result<(), Stopped>
    requires { Reached tokens.now book.old 0 }
    ensures { Ended tokens.now book.new }
{
    for place in (0..FAR).step_by(1024) {
        if walk_some(rt, tape, tokens, book, place)? < PART {
            return Ok(());
        }
    }
    Err(Stopped)
}

fn end_listing(rt: &(impl Print + Eprint), tokens: &[u32], book: &[u32]) -> Result<(), Stopped>
    requires { Ended tokens.now book.now }
{
    let mut lines = io::buffer();
    let whole = HallBook {
        hall: rules::MAIN,
        pages: book,
    };
    let end = accounts::put_accounts(&mut lines, whole);
    show_accounts(rt, tokens, book, &lines[..end])
}

// The accounts are those of a whole tape: where something failed, the listing ends without them.
fn walk(
    rt: &(impl Print + Eprint),
    tape: &mut impl Read,
    tokens: &[u32],
    book: &mut [u32],
) -> Result<(), Stopped>
    requires { Reached tokens.now book.old 0 }
{
    walk_tape(rt, tape, tokens, book)?;
    end_listing(rt, tokens, book)
}

// What failed has been told by then: the program has nothing to add.
fn main(rt: HostRuntime) {
    let mut list = [0u32; 4096];
    let Some(n) = load_list(&rt, &mut list) else {
        let _ = show_refusal(&rt, b"refused 1\n");
        return;
    };
    let mut book = [0u32; 6372];
    // Never refused: it is as long as the main hall asks.
    let _ = writing::make_empty(&mut book);
    let _ = walk(&rt, &mut rt.stdin(), &list[..n], &mut book);
}
