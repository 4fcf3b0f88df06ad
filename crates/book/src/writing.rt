// Records written, each as a part of the book: whole, copied, or in its first words; a single word; and the empty book.
ghost use Rattle.std.specs.Prelude.{◌≡◌, ◌∷◌, ◌++◌, ◌+◌, ◌*◌, ◌-◌, ◌≤◌, ◌<◌, length, take, drop, replicate};
ghost use Rattle.rules.specs.Answers.{Gives, verdict_of};
ghost use Rattle.rules.specs.Hall.{main_hall, most_held};
ghost use Rattle.rules.specs.Records.{words, cells, filled, made, with_word, record_at, put};
ghost use Rattle.rules.specs.Bytes.{make_empty};

use rules::Hall;
use rules::refusal::Refusal;
use tokens::{laying, moving};

// Every word 0.
pub fn wipe(part: &mut [u32])
    ensures { part.new ≡ replicate (length part.old) 0 }
{
    part.fill(0);
}

pub fn write_head(rec: &mut [u32], used: u32, amount: u32, count: u32, word3: u32)
    requires { 4 ≤ length rec.old }
    ensures { rec.new ≡ used ∷ amount ∷ count ∷ word3 ∷ drop 4 rec.old }
{
    rec[0] = used;
    rec[1] = amount;
    rec[2] = count;
    rec[3] = word3;
}

// The cells that are filled over zeros: a record has as many cells as any other, so that all of them are wiped at once.
fn write_cells(cells: &mut [u32], new: &[u32])
    requires { length new.now ≤ length cells.old }
    ensures { cells.new ≡ new.now ++ replicate (length cells.old - length new.now) 0 }
{
    wipe(cells);
    laying::lay(cells, new);
}

// The one record writer.
pub fn write_record(rec: &mut [u32], used: u32, amount: u32, count: u32, word3: u32, cells: &[u32])
    requires { (length rec.old ≡ words) × (length cells.now ≤ most_held) }
    ensures { rec.new ≡ filled used amount count word3 cells.now }
{
    write_head(rec, used, amount, count, word3);
    write_cells(&mut rec[4..], cells);
}

// A record filled from the first n of its own cells.
pub fn cut_record(rec: &mut [u32], amount: u32, count: u32, word3: u32, n: usize)
    requires { (length rec.old ≡ words) × (n ≤ most_held) }
    ensures { rec.new ≡ filled 1 amount count word3 (take n (cells rec.old)) }
{
    write_head(rec, 1, amount, count, word3);
    wipe(&mut rec[4 + n..]);
}

// Record k, lent to the writer as a part from the book's middle.
pub fn put_record(
    book: &mut [u32],
    k: usize,
    used: u32,
    amount: u32,
    count: u32,
    word3: u32,
    cells: &[u32],
)
    requires { (words * k + words ≤ length book.old) × (length cells.now ≤ most_held) }
    ensures { book.new ≡ put k (filled used amount count word3 cells.now) book.old }
{
    let from = 36 * k;
    write_record(
        &mut book[from..from + 36],
        used,
        amount,
        count,
        word3,
        cells,
    );
}

// Record k, in use and holding the tokens.
pub fn put_made(book: &mut [u32], k: usize, amount: u32, word3: u32, tokens: &[u32])
    requires { (words * k + words ≤ length book.old) × (length tokens.now ≤ most_held) }
    ensures { book.new ≡ put k (made amount word3 tokens.now) book.old }
{
    let n = tokens.len() as u32;
    put_record(book, k, 1, amount, n, word3, tokens);
}

// Record `to` becomes what record `from` is.
pub fn copy_record(book: &mut [u32], from: usize, to: usize)
    requires { (words * from + words ≤ length book.old) × (words * to + words ≤ length book.old) }
    ensures { book.new ≡ put to (record_at from book.old) book.old }
{
    moving::move_forth(book, 36 * from, 36, 36 * to);
}

// Word w of record k alone, where it stands.
pub fn set_word(book: &mut [u32], k: usize, w: usize, x: u32)
    requires { (words * k + words ≤ length book.old) × (w < words) }
    ensures { book.new ≡ put k (with_word w x (record_at k book.old)) book.old }
{
    book[36 * k + w] = x;
}

// ---- the empty book

pub fn make_empty_of(h: Hall, book: &mut [u32]) -> Result<(), Refusal>
    requires { (h.customers ≤ 64) × (h.benches ≤ 64) }
    ensures { Gives (make_empty h book.old) (verdict_of result) book.new }
{
    if book.len() != super::book_words(h) {
        return Err(Refusal::Unsound);
    }
    wipe(book);
    put_made(book, 0, 0, 0, &[]);
    Ok(())
}

pub fn make_empty(book: &mut [u32]) -> Result<(), Refusal>
    ensures { Gives (make_empty main_hall book.old) (verdict_of result) book.new }
{
    make_empty_of(rules::MAIN, book)
}
