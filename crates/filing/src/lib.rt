// On file, four bytes for each word: a book to bytes and back, of which lengths alone are tested, and a token list, which has to be good.

#![tactic(auto)]

ghost use Rattle.std.specs.Prelude.{◌≡◌, ◌*◌, ◌/◌, ◌%◌, ◌≤◌, length, ◌&&◌};
ghost use Rattle.rules.specs.Answers.{Gives, verdict_of};
ghost use Rattle.rules.specs.Lists.{eqb};
ghost use Rattle.rules.specs.Hall.{main_hall, records};
ghost use Rattle.rules.specs.Records.{words};
ghost use Rattle.rules.specs.Bytes.{to_bytes, to_words, write_book, read_book};
ghost use Rattle.rules.specs.Walk.{read_list};

use rules::Hall;
use rules::refusal::Refusal;
use tokens::laying;

// Each word's four bytes, one word after the other.
#[tactic(auto, using(crate::proofs::Filing::as_bytes))]
fn lay_bytes(out: &mut [u8], from: &[u32])
    requires { length out.old ≡ 4 * length from.now }
    ensures { out.new ≡ to_bytes from.now }
{
    for (i, &word) in from.iter().enumerate() {
        octets::put_word(out, 4 * i, word);
    }
}

#[tactic(auto, using(crate::proofs::Filing::as_words))]
fn lay_words(out: &mut [u32], from: &[u8])
    requires { length from.now ≡ 4 * length out.old }
    ensures { out.new ≡ to_words (length out.old) from.now }
{
    for i in 0..out.len() {
        out[i] = octets::word_at(from, 4 * i);
    }
}

// Whether a book of so many words, and its bytes, are as long as the hall asks.
fn lengths_fit(h: Hall, in_words: usize, in_bytes: usize) -> bool
    requires { (h.customers ≤ 64) × (h.benches ≤ 64) }
    ensures { result ≡ (eqb in_words (words * records h) && eqb in_bytes (4 * in_words)) }
{
    in_words == book::book_words(h) && in_bytes == 4 * in_words
}

#[tactic(auto, unfolding(rules::specs::Answers::first, rules::specs::Answers::answer, rules::specs::Sound::fits, rules::specs::Bytes::write_book))]
pub fn write_book_of(h: Hall, plain: &[u32], out: &mut [u8]) -> Result<(), Refusal>
    requires { (h.customers ≤ 64) × (h.benches ≤ 64) }
    ensures { Gives (write_book h plain.now out.old) (verdict_of result) out.new }
{
    if !lengths_fit(h, plain.len(), out.len()) {
        return Err(Refusal::Unsound);
    }
    lay_bytes(out, plain);
    Ok(())
}

#[tactic(auto, unfolding(rules::specs::Answers::first, rules::specs::Answers::answer, rules::specs::Sound::fits, rules::specs::Bytes::read_book))]
pub fn read_book_of(h: Hall, from: &[u8], out: &mut [u32]) -> Result<(), Refusal>
    requires { (h.customers ≤ 64) × (h.benches ≤ 64) }
    ensures { Gives (read_book h from.now out.old) (verdict_of result) out.new }
{
    if !lengths_fit(h, out.len(), from.len()) {
        return Err(Refusal::Unsound);
    }
    lay_words(out, from);
    Ok(())
}

// The main hall's book.
pub fn write_book(plain: &[u32], out: &mut [u8]) -> Result<(), Refusal>
    ensures { Gives (write_book main_hall plain.now out.old) (verdict_of result) out.new }
{
    write_book_of(rules::MAIN, plain, out)
}

pub fn read_book(from: &[u8], out: &mut [u32]) -> Result<(), Refusal>
    ensures { Gives (read_book main_hall from.now out.old) (verdict_of result) out.new }
{
    read_book_of(rules::MAIN, from, out)
}

// A token list, by way of a scratch as long as the list: it is judged there, since a refusal leaves the lent cells.
#[tactic(auto, using(rules::proofs::Words::length_to_words), unfolding(rules::specs::Answers::first, rules::specs::Answers::answer, rules::specs::Walk::list_good, rules::specs::Walk::read_list, tokens::specs::Laid::laid))]
fn take_list(list: &mut [u32], from: &[u8], out: &mut [u32]) -> Result<(), Refusal>
    requires { (length list.old ≡ length from.now / 4) × (length from.now % 4 ≡ 0) × (length list.old ≤ length out.old) }
    ensures { Gives (read_list from.now out.old) (verdict_of result) out.new }
{
    lay_words(list, from);
    if !sound::is_good_list(list) {
        return Err(Refusal::Unsound);
    }
    laying::lay(out, list);
    Ok(())
}

// A token list, into the front of the lent cells.
#[tactic(auto, using(rules::proofs::Words::length_to_words), unfolding(rules::specs::Answers::first, rules::specs::Answers::answer, rules::specs::Sound::good_list, rules::specs::Walk::list_good, rules::specs::Walk::read_list))]
pub fn read_list(from: &[u8], out: &mut [u32]) -> Result<(), Refusal>
    ensures { Gives (read_list from.now out.old) (verdict_of result) out.new }
{
    let n = from.len() / 4;
    if from.len() % 4 != 0 || 4096 < n || out.len() < n {
        return Err(Refusal::Unsound);
    }
    let mut scratch = [0u32; 4096];
    take_list(&mut scratch[..n], from, out)
}
