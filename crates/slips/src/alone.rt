// No token twice in a slip book's carnets and lines: each slip is tested by itself, without opening the book. No carnet
// holds one of its tokens, it alone begins at its first token, and no slip begins at a later one.
ghost use Rattle.std.specs.Prelude.{◌≡◌, ◌*◌, ◌≤◌, ◌<◌, min, length};
ghost use Rattle.rules.specs.Lists.{every, occ};
ghost use Rattle.rules.specs.Hall.{most_sales, carnets, lines, records};
ghost use Rattle.rules.specs.Records.{sales, cells, record_at};
ghost use Rattle.rules.specs.Slips.{open_slip};
ghost use Rattle.sound.specs.Together.{held_in, apart};
ghost use Rattle.slips.specs.Alone.{firsts, begun_in, alone, all_alone};

use super::opening;
use book::halls::HallBook;
use sound::groups;

// A line's slips, as far as it has room for them: how many, and their pairs.
fn slips_at<'a>(book: HallBook<'a>, k: usize) -> (usize, &'a [u32])
    requires { k < records book.hall }
    ensures { (result.0 ≡ min (sales (record_at k book.entry.pages.now)) most_sales) × (result.1.now ≡ cells (record_at k book.entry.pages.now)) × (2 * result.0 ≤ length result.1.now) }
{
    let rec = book.record(k);
    let n = (book::sales(rec) as usize).min(16);
    (n, book::cells(rec))
}

// How many slips of a line begin with the token.
fn begun_here(book: HallBook, k: usize, token: u32) -> usize
    requires { k < records book.hall }
    ensures { result ≡ occ token (firsts (min (sales (record_at k book.entry.pages.now)) most_sales) (cells (record_at k book.entry.pages.now))) }
{
    let (n, pairs) = slips_at(book, k);
    // `filter` and `count` took a tenth more to check a full book.
    (0..n).map(|i| usize::from(pairs[2 * i] == token)).sum()
}

// How many slips of the lines begin with the token.
fn begun_in(book: HallBook, token: u32) -> usize
    ensures { result ≡ occ token (begun_in book.entry.pages.now (lines book.entry.hall)) }
{
    (book.line(0, 0)..book.records())
        .map(|k| begun_here(book, k, token))
        .sum()
}

// No slip of the lines begins with one of the tokens.
fn are_none_begun(book: HallBook, tokens: &[u32]) -> bool
    ensures { result ≡ apart tokens.now (begun_in book.entry.pages.now (lines book.entry.hall)) }
{
    tokens.iter().all(|&t| begun_in(book, t) == 0)
}

// The slip of n tokens that begins with the token.
fn is_alone(list: &[u32], book: HallBook, token: u32, n: usize) -> bool
    ensures { result ≡ alone (held_in book.entry.pages.now (carnets book.entry.hall)) (begun_in book.entry.pages.now (lines book.entry.hall)) token (open_slip list.now token n) }
{
    let run = opening::slip_part(list, token, n);
    let m = run.len().min(1);
    groups::are_absent(book.pages, book.carnet(0), book.hall.customers, run)
        && begun_in(book, token) == 1
        && are_none_begun(book, &run[m..])
}

// Each slip of a line.
fn are_alone(list: &[u32], book: HallBook, k: usize) -> bool
    requires { k < records book.hall }
    ensures { result ≡ all_alone list.now (held_in book.entry.pages.now (carnets book.entry.hall)) (begun_in book.entry.pages.now (lines book.entry.hall)) (min (sales (record_at k book.entry.pages.now)) most_sales) (cells (record_at k book.entry.pages.now)) }
{
    let (n, pairs) = slips_at(book, k);
    (0..n).all(|i| is_alone(list, book, pairs[2 * i], pairs[2 * i + 1] as usize))
}

// Each slip of each line.
pub fn are_lines_alone(list: &[u32], book: HallBook) -> bool
    ensures { result ≡ every (λ k. all_alone list.now (held_in book.entry.pages.now (carnets book.entry.hall)) (begun_in book.entry.pages.now (lines book.entry.hall)) (min (sales (record_at k book.entry.pages.now)) most_sales) (cells (record_at k book.entry.pages.now))) (lines book.entry.hall) }
{
    (book.line(0, 0)..book.records()).all(|k| are_alone(list, book, k))
}
