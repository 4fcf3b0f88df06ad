// Lines in either form of the book: what a sale puts into one, and where the tokens that one stands for are found.
ghost use Rattle.std.specs.Prelude.{◌≡◌, ◌++◌, ◌+◌, ◌*◌, ◌≤◌, length, take};
ghost use Rattle.rules.specs.Hall.{most_held, most_sales};
ghost use Rattle.rules.specs.Records.{words, sales, cells, record_at, put};
ghost use Rattle.rules.specs.Slips.{slip, open_slips};
ghost use Rattle.rules.specs.Form.{plain};
ghost use Rattle.tokens.specs.Moved.{moved};
ghost use Rattle.tokens.specs.Marks.{found};
ghost use Rattle.book.specs.Forms.{form_of};
ghost use Rattle.changes.specs.Sales.{line_cells, sold, Room};

use book::forms::Form;
use book::writing;
use slips::opening;
use tokens::marking::Found;
use tokens::{marking, moving};

// ---- a line's tokens, found in a view

// One slip after the other: each slip's tokens are a part of the list.
fn find_slips(list: &[u32], left: usize, pairs: &[u32], view: &[u32]) -> Found
    requires { (2 * left ≤ length pairs.now) × (length (open_slips list.now left pairs.now) ≤ most_held) × (length view.now ≤ most_held) }
    ensures { result ≡ found view.now (open_slips list.now left pairs.now) 0 }
{
    let mut dead = 0;
    let mut living = 0;
    let mut seen = 0;
    let mut marks = 0;
    for i in 0..left {
        let tokens = opening::slip_part(list, pairs[2 * i], pairs[2 * i + 1] as usize);
        let here = marking::find(view, tokens, marks);
        // all before it live
        if dead == seen {
            dead += here.dead;
        }
        seen += tokens.len();
        living += here.living;
        marks = here.marks;
    }
    Found {
        dead,
        living,
        marks,
    }
}

// Of a line's tokens: the first that a view doesn't have, how many it has, and the places of those.
pub fn find(form: Form, list: &[u32], line: &[u32], view: &[u32]) -> Found
    requires { (length line.now ≡ words) × (sales line.now ≤ most_sales) × (length ((form_of form).tokens list.now line.now) ≤ most_held) × (length view.now ≤ most_held) }
    ensures { result ≡ found view.now ((form_of form).tokens list.now line.now) 0 }
{
    match form {
        Form::Plain => marking::find(view, book::tokens_of(line), 0),
        Form::Slip => find_slips(list, book::sales(line) as usize, book::cells(line), view),
    }
}

// ---- a sale

// The older cells of a line, moved back to leave room for the new ones before them.
fn make_room(book: &mut [u32], line: usize, older: usize, by: usize)
    requires { (words * line + words ≤ length book.old) × (by + older ≤ most_held) }
    ensures { book.new ≡ put line (take 4 (record_at line book.old) ++ moved 0 older by (cells (record_at line book.old))) book.old }
{
    let from = 36 * line + 4;
    let to = from + 32;
    moving::move_back(&mut book[from..to], older, by);
}

// The tokens sold before the older ones.
fn put_tokens(book: &mut [u32], carnet: usize, line: usize, n: usize)
    requires { Room plain book.old carnet line n }
    ensures { book.new ≡ put line (take 4 (record_at line book.old) ++ line_cells plain book.old carnet line n) book.old }
{
    let m = book::word_of(book, line, 2) as usize;
    make_room(book, line, m, n);
    moving::move_forth(book, 36 * carnet + 4, n, 36 * line + 4);
}

// One pair for all the tokens sold before the older pairs; nothing sold is no pair.
fn put_slip(book: &mut [u32], carnet: usize, line: usize, n: usize)
    requires { Room slip book.old carnet line n }
    ensures { book.new ≡ put line (take 4 (record_at line book.old) ++ line_cells slip book.old carnet line n) book.old }
{
    if n == 0 {
        return;
    }
    let m = 2 * book::word_of(book, line, 3) as usize;
    let first = book::word_of(book, carnet, 4);
    make_room(book, line, m, 2);
    writing::set_word(book, line, 4, first);
    writing::set_word(book, line, 5, n as u32);
}

fn put_sale(form: Form, book: &mut [u32], carnet: usize, line: usize, n: usize)
    requires { Room (form_of form) book.old carnet line n }
    ensures { book.new ≡ put line (take 4 (record_at line book.old) ++ line_cells (form_of form) book.old carnet line n) book.old }
{
    match form {
        Form::Plain => put_tokens(book, carnet, line, n),
        Form::Slip => put_slip(book, carnet, line, n),
    }
}

// A sale of n: the line with the carnet's first n tokens, or with their slip, before the older ones, and the carnet without them.
// The line is written first, since the carnet is where they stand.
pub fn sell(form: Form, book: &mut [u32], carnet: usize, line: usize, n: u32)
    requires { Room (form_of form) book.old carnet line n }
    ensures { book.new ≡ sold (form_of form) book.old carnet line n }
{
    let count = book::word_of(book, line, 2);
    let sales = book::word_of(book, line, 3);
    let held = book::word_of(book, carnet, 2) as usize;
    put_sale(form, book, carnet, line, n as usize);
    let from = 36 * line;
    let to = from + 36;
    writing::write_head(&mut book[from..to], 1, 0, count + n, sales + n.min(1));
    let m = held.min(32 - n as usize);
    super::keep_rest(book, carnet, n as usize, m, 0, 0);
}
