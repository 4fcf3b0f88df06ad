// Is this slip book sound? It's told from the book as it stands, clause by clause. And a slip book opened into a lent plain one,
// with an index beside the list or without one.

#![tactic(auto)]

ghost use Rattle.std.specs.Prelude.{◌≡◌, ◌≤◌, length, ◌&&◌};
ghost use Rattle.rules.specs.Answers.{Gives, verdict_of};
ghost use Rattle.rules.specs.Lists.{true, replicate};
ghost use Rattle.rules.specs.Hall.{most_tokens, main_hall, carnets, views};
ghost use Rattle.rules.specs.Records.{amount, record_at};
ghost use Rattle.rules.specs.Sound.{good_list, once_in};
ghost use Rattle.rules.specs.Slips.{slip_sound, open_into};
ghost use Rattle.rules.specs.Index.{open_indexed};
ghost use Rattle.tokens.specs.Map.{mapped, MarkedIfGood};
ghost use Rattle.index.specs.Places.{places_of};
ghost use Rattle.sound.specs.Together.{held_in};
ghost use Rattle.slips.specs.Clauses.{all_listed, own_good, new_views, new_good, apart_good};

pub mod alone;
pub mod marked;
pub mod opening;
pub mod pairs;

use book::halls::HallBook;
use index::listed::Listed;
use rules::Hall;
use rules::refusal::Refusal;
use sound::groups;
use tokens::map;

// The tokens of the views, and of the carnets, each group on an empty map. Those of the carnets stay marked, for the lines to come.
fn are_held_new(listed: Listed, map: &mut [u64], book: HallBook) -> bool
    requires { (length listed.list.now ≤ most_tokens) × (all_listed book.hall listed.list.now book.pages.now ≡ true) × (mapped map.old ≡ true) }
    ensures { MarkedIfGood (new_views (length map.old) book.entry.hall listed.entry.list.now book.entry.pages.now) (replicate (length map.old) 0) (places_of listed.entry.list.now (held_in book.entry.pages.now (carnets book.entry.hall))) result map.new }
{
    map::wipe(map);
    let parties = book.hall.customers + book.hall.benches;
    if !marked::mark_records(listed, book.pages, book.view(0), parties, map) {
        return false;
    }
    map::wipe(map);
    marked::mark_records(listed, book.pages, book.carnet(0), book.hall.customers, map)
}

// Each record by itself, and its tokens new to the map, if there is one.
fn are_records_good(listed: Listed, map: &mut [u64], book: HallBook) -> bool
    requires { (good_list listed.list.now ≡ true) × (mapped map.old ≡ true) }
    ensures { result ≡ (own_good book.entry.hall listed.entry.list.now (amount (record_at 0 book.entry.pages.now)) book.entry.pages.now && new_good (length map.old) book.entry.hall listed.entry.list.now book.entry.pages.now) }
{
    let HallBook { hall, pages } = book;
    let dealt = book.word(0, 1) as usize;
    let lines = book.line(0, 0);
    if !sound::are_good(hall, listed, pages, dealt, lines) {
        return false;
    }
    if !are_held_new(listed, map, book) {
        return false;
    }
    let n = hall.customers * hall.benches;
    pairs::are_lines_good(listed, dealt, pages, lines, n, map)
        && pairs::are_runs(listed, pages, book.carnet(0), hall.customers)
}

// Is the list good? An index that is used was built from a good one.
fn is_good_list_by(listed: Listed) -> bool
    ensures { result ≡ good_list listed.entry.list.now }
{
    listed.index.is_some() || sound::is_good_list(listed.list)
}

// What can still be spent or cleared, in carnets and in opened lines, is all different.
fn is_spendable_once(list: &[u32], book: HallBook) -> bool
    ensures { result ≡ apart_good book.entry.hall list.now book.entry.pages.now }
{
    groups::is_once(book.pages, book.carnet(0), book.hall.customers)
        && alone::are_lines_alone(list, book)
}

// No token twice, by walks along the book.
fn is_walked_once(list: &[u32], book: HallBook) -> bool
    ensures { result ≡ (once_in (views book.entry.hall) (λ k. record_at k book.entry.pages.now) && apart_good book.entry.hall list.now book.entry.pages.now) }
{
    sound::are_views_once(book) && is_spendable_once(list, book)
}

// The one check of soundness. Places are looked up by the index, or found by walks along the list; repeats are found by marks on places,
// where a map for them is lent, or by walks along the book. The cheap clauses come first.
fn is_sound_by(listed: Listed, map: &mut [u64], book: HallBook) -> bool
    requires { mapped map.old ≡ true }
    ensures { result ≡ slip_sound book.entry.hall listed.entry.list.now book.entry.pages.now }
{
    if !sound::are_accounts_good(book) {
        return false;
    }
    if !is_good_list_by(listed) {
        return false;
    }
    if !are_records_good(listed, map, book) {
        return false;
    }
    map.len() != 0 || is_walked_once(listed.list, book)
}

pub fn is_sound_of(h: Hall, list: &[u32], book: &[u32]) -> bool
    requires { (h.customers ≤ 64) × (h.benches ≤ 64) }
    ensures { result ≡ slip_sound h list.now book.now }
{
    let Some(book) = HallBook::of(h, book) else {
        return false;
    };
    // no index and no map: by walks
    is_sound_by(Listed::plain(list), &mut [], book)
}

pub fn is_sound(list: &[u32], book: &[u32]) -> bool
    ensures { result ≡ slip_sound main_hall list.now book.now }
{
    is_sound_of(rules::MAIN, list, book)
}

// 1, and the plain book as it was, for an unsound slip book or a plain book of another length.
fn open_by(
    h: Hall,
    listed: Listed,
    map: &mut [u64],
    slips: &[u32],
    plain: &mut [u32],
) -> Result<(), Refusal>
    requires { (h.customers ≤ 64) × (h.benches ≤ 64) × (mapped map.old ≡ true) }
    ensures { Gives (open_into h listed.entry.list.now slips.now plain.old) (verdict_of result) plain.new }
{
    if plain.len() != book::book_words(h) {
        return Err(Refusal::Unsound);
    }
    let Some(slips) = HallBook::of(h, slips) else {
        return Err(Refusal::Unsound);
    };
    if !is_sound_by(listed, map, slips) {
        return Err(Refusal::Unsound);
    }
    opening::open_all(listed, slips, plain);
    Ok(())
}

pub fn open_into_of(h: Hall, list: &[u32], slips: &[u32], plain: &mut [u32]) -> Result<(), Refusal>
    requires { (h.customers ≤ 64) × (h.benches ≤ 64) }
    ensures { Gives (open_into h list.now slips.now plain.old) (verdict_of result) plain.new }
{
    // no index and no map: by walks
    open_by(h, Listed::plain(list), &mut [], slips, plain)
}

// With an index, which is checked first: 1 also for one that isn't the list's.
pub fn open_indexed_of(
    h: Hall,
    list: &[u32],
    index: &[u16],
    slips: &[u32],
    plain: &mut [u32],
) -> Result<(), Refusal>
    requires { (h.customers ≤ 64) × (h.benches ≤ 64) }
    ensures { Gives (open_indexed h list.now index.now slips.now plain.old) (verdict_of result) plain.new }
{
    let Some(listed) = Listed::with(list, index) else {
        return Err(Refusal::Unsound);
    };
    open_by(h, listed, &mut [0u64; 64], slips, plain)
}

pub fn open_into(list: &[u32], slips: &[u32], plain: &mut [u32]) -> Result<(), Refusal>
    ensures { Gives (open_into main_hall list.now slips.now plain.old) (verdict_of result) plain.new }
{
    open_into_of(rules::MAIN, list, slips, plain)
}

pub fn open_indexed(
    list: &[u32],
    index: &[u16],
    slips: &[u32],
    plain: &mut [u32],
) -> Result<(), Refusal>
    ensures { Gives (open_indexed main_hall list.now index.now slips.now plain.old) (verdict_of result) plain.new }
{
    open_indexed_of(rules::MAIN, list, index, slips, plain)
}
