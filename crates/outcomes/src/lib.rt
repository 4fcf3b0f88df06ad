// Demand 2 of the running code: a book and a tape record written out and read back are the same; read and written back, they give
// the same bytes. Nobody has to call these functions. Their promises are the theorems: what went out comes back, whatever is
// lent, and that a cell holds 32 bits or 8 is told by the types of what is lent.

#![tactic(auto)]

ghost use Rattle.rules.specs.Answers.{Gives, verdict_of};
ghost use Rattle.rules.specs.Hall.{main_hall};
ghost use Rattle.rules.specs.Bytes.{write_book, read_book};
ghost use Rattle.rules.specs.Tape.{write_entry};
ghost use Rattle.tape.specs.Reading.{reading};
ghost use Rattle.outcomes.specs.Back.{book_back, bytes_back, record_back, eight_back, Back, RecordBack};

use rules::Entry;
use rules::refusal::Refusal;
use tape::{Cursor, Reading};

// A book, written out and read back.
pub fn book_back(book: &[u32], bytes: &mut [u8], out: &mut [u32]) -> Result<(), Refusal>
    ensures { Back (write_book main_hall book.now bytes.old).cells (book_back main_hall book.now bytes.old out.old) bytes.new (verdict_of result) out.new }
{
    filing::write_book(book, bytes)?;
    filing::read_book(bytes, out)
}

// A book's bytes, read and written back.
pub fn bytes_back(bytes: &[u8], book: &mut [u32], out: &mut [u8]) -> Result<(), Refusal>
    ensures { Back (read_book main_hall bytes.now book.old).cells (bytes_back main_hall bytes.now book.old out.old) book.new (verdict_of result) out.new }
{
    filing::read_book(bytes, book)?;
    filing::write_book(book, out)
}

// A tape record, written out and read back.
pub fn record_back(e: Entry, out: &mut [u8]) -> Reading
    ensures { RecordBack (write_entry main_hall e out.old).cells (reading (record_back main_hall e out.old)) out.new result }
{
    // a record that is refused isn't written, and what stands there is read
    let _ = tape::write(e, out);
    Cursor { at: 0 }.read(out)
}

// The eight bytes of a tape record, read and written back.
pub fn eight_back(tape: &[u8], at: usize, out: &mut [u8]) -> Result<(), Refusal>
    ensures { Gives (eight_back main_hall tape.now at out.old) (verdict_of result) out.new }
{
    let e = Cursor { at }.read(tape).got?;
    tape::write(e, out)
}
