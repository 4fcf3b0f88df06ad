// The book's records, each read as a part of the book; where each stands, how long a hall's book is, and the hall in use.

#![tactic(auto)]

ghost use Rattle.std.specs.Prelude.{◌≡◌, ◌+◌, ◌*◌, ◌≤◌, ◌<◌, length, get_or};
ghost use Rattle.rules.specs.Hall.{Carnet, View, BenchView, Till, Line, number, records};
ghost use Rattle.rules.specs.Records.{words, in_use, amount, count, sales, handshake, cells, held, record_at};

pub mod forms;
pub mod halls;
pub mod writing;

use rules::Hall;

// ---- a record, read

pub fn record_at(book: &[u32], k: usize) -> &[u32]
    requires { words * k + words ≤ length book.now }
    ensures { result.now ≡ record_at k book.now }
{
    let from = 36 * k;
    &book[from..from + 36]
}

pub fn in_use(rec: &[u32]) -> u32
    requires { 4 ≤ length rec.now }
    ensures { result ≡ in_use rec.now }
{
    rec[0]
}

pub fn amount(rec: &[u32]) -> u32
    requires { 4 ≤ length rec.now }
    ensures { result ≡ amount rec.now }
{
    rec[1]
}

pub fn count(rec: &[u32]) -> u32
    requires { 4 ≤ length rec.now }
    ensures { result ≡ count rec.now }
{
    rec[2]
}

pub fn sales(rec: &[u32]) -> u32
    requires { 4 ≤ length rec.now }
    ensures { result ≡ sales rec.now }
{
    rec[3]
}

// The same word, in the desk's view of a bench.
pub fn handshake(rec: &[u32]) -> u32
    requires { 4 ≤ length rec.now }
    ensures { result ≡ handshake rec.now }
{
    rec[3]
}

pub fn cells(rec: &[u32]) -> &[u32]
    requires { 4 ≤ length rec.now }
    ensures { result.now ≡ cells rec.now }
{
    &rec[4..]
}

// The tokens that a record holds. A spoilt record may count more than it has cells for: then it's all the cells.
pub fn tokens_of(rec: &[u32]) -> &[u32]
    requires { 4 ≤ length rec.now }
    ensures { result.now ≡ held rec.now }
{
    let n = (count(rec) as usize).min(rec.len() - 4);
    &rec[4..4 + n]
}

// ---- record k of a book, read

pub fn word_of(book: &[u32], k: usize, w: usize) -> u32
    requires { (words * k + words ≤ length book.now) × (w < words) }
    ensures { result ≡ get_or (record_at k book.now) w 0 }
{
    record_at(book, k)[w]
}

pub fn tokens_at(book: &[u32], k: usize) -> &[u32]
    requires { words * k + words ≤ length book.now }
    ensures { result.now ≡ held (record_at k book.now) }
{
    tokens_of(record_at(book, k))
}

// ---- where each record stands

// A party goes by its byte of the tape, so that a hall of at most 64 and 64 keeps every number in range. Every hall planned
// is below that.
pub fn carnet(h: Hall, c: u8) -> usize
    ensures { result ≡ number h (Carnet c) }
{
    1 + usize::from(c)
}

pub fn view(h: Hall, c: u8) -> usize
    requires { (h.customers ≤ 64) × (h.benches ≤ 64) }
    ensures { result ≡ number h (View c) }
{
    1 + h.customers + usize::from(c)
}

pub fn bench_view(h: Hall, m: u8) -> usize
    requires { (h.customers ≤ 64) × (h.benches ≤ 64) }
    ensures { result ≡ number h (BenchView m) }
{
    1 + 2 * h.customers + usize::from(m)
}

pub fn till(h: Hall, m: u8) -> usize
    requires { (h.customers ≤ 64) × (h.benches ≤ 64) }
    ensures { result ≡ number h (Till m) }
{
    1 + 2 * h.customers + h.benches + usize::from(m)
}

pub fn line(h: Hall, m: u8, c: u8) -> usize
    requires { (h.customers ≤ 64) × (h.benches ≤ 64) }
    ensures { result ≡ number h (Line m c) }
{
    1 + 2 * h.customers + 2 * h.benches + h.customers * usize::from(m) + usize::from(c)
}

// ---- the whole book

pub fn records(h: Hall) -> usize
    requires { (h.customers ≤ 64) × (h.benches ≤ 64) }
    ensures { result ≡ records h }
{
    1 + 2 * h.customers + 2 * h.benches + h.customers * h.benches
}

pub fn book_words(h: Hall) -> usize
    requires { (h.customers ≤ 64) × (h.benches ≤ 64) }
    ensures { result ≡ words * records h }
{
    36 * records(h)
}
