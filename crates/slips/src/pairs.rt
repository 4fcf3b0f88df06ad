// What soundness asks of a slip book's record by itself: a line's pairs, and a carnet that is a run of the list. Where a map is lent, a
// line's tokens have to be new to it too.
ghost use Rattle.std.specs.Prelude.{◌≡◌, ◌+◌, ◌*◌, ◌≤◌, length, ◌&&◌};
ghost use Rattle.rules.specs.Lists.{true, every, range};
ghost use Rattle.rules.specs.Hall.{most_sales};
ghost use Rattle.rules.specs.Records.{words, record_at};
ghost use Rattle.rules.specs.Sound.{good_list};
ghost use Rattle.rules.specs.Slips.{open_slips, slip_tokens, slip_sum, slips_good, slip_line_good, is_run};
ghost use Rattle.tokens.specs.Map.{mapped, MarkedIfGood, MarkedOrWiped};
ghost use Rattle.index.specs.Places.{places_of};
ghost use Rattle.slips.specs.Fine.{fine};
ghost use Rattle.slips.specs.Placed.{slip_place};
ghost use Rattle.slips.specs.Clauses.{opened_in};

use super::opening;
use index::listed::Listed;
use sound::records;
use tokens::{map, searching};

// The counts of k slips added up, in 64 bits: sixteen of 32 bits can't pass them.
fn slip_sum(k: usize, pairs: &[u32]) -> usize
    requires { (2 * k ≤ length pairs.now) × (k ≤ most_sales) }
    ensures { result ≡ slip_sum k pairs.now }
{
    (0..k).map(|i| pairs[2 * i + 1] as usize).sum()
}

// The place of a slip of some tokens, no more than a record holds, all of them among the d dealt; d for any other.
fn slip_place(listed: Listed, d: usize, token: u32, n: usize) -> usize
    ensures { result ≡ slip_place listed.entry.list.now d token n }
{
    if n < 1 {
        return d;
    }
    if 32 < n {
        return d;
    }
    let p = listed.place_of(token);
    if d < p + n {
        return d;
    }
    p
}

// Each of k slips is good, and new to the map.
fn are_slips_good(listed: Listed, d: usize, k: usize, pairs: &[u32], map: &mut [u64]) -> bool
    requires { (2 * k ≤ length pairs.now) × (good_list listed.list.now ≡ true) × (d ≤ length listed.list.now) × (mapped map.old ≡ true) }
    ensures { MarkedIfGood (slips_good listed.entry.list.now d k pairs.now) map.old (places_of listed.entry.list.now (open_slips listed.entry.list.now k pairs.now)) result map.new }
{
    for i in 0..k {
        let n = pairs[2 * i + 1] as usize;
        let p = slip_place(listed, d, pairs[2 * i], n);
        if p == d {
            return false;
        }
        if !map::mark_run(map, p, n) {
            return false;
        }
    }
    true
}

// What else a line is asked.
#[tactic(auto, unfolding(crate::specs::Fine::fine))]
fn is_fine(rec: &[u32]) -> bool
    requires { length rec.now ≡ words }
    ensures { result ≡ fine rec.now }
{
    records::is_kept(rec) && book::amount(rec) == 0
}

// A line by itself, its tokens new to the map.
fn is_line_good(listed: Listed, d: usize, rec: &[u32], map: &mut [u64]) -> bool
    requires { (length rec.now ≡ words) × (good_list listed.list.now ≡ true) × (d ≤ length listed.list.now) × (mapped map.old ≡ true) }
    ensures { MarkedIfGood (fine rec.now && slip_line_good listed.entry.list.now d rec.now) map.old (places_of listed.entry.list.now (slip_tokens listed.entry.list.now rec.now)) result map.new }
{
    if !is_fine(rec) {
        return false;
    }
    let k = book::sales(rec) as usize;
    if 16 < k {
        return false;
    }
    let pairs = book::cells(rec);
    if book::count(rec) as usize != slip_sum(k, pairs) {
        return false;
    }
    are_slips_good(listed, d, k, pairs, map) && searching::is_blank(&pairs[2 * k..])
}

// Each of n lines from line a on, by itself and new to the map. Each slip is looked up once, for both. Where a line fails, the map is
// wiped: it would hold the marks of some lines and not of others.
pub fn are_lines_good(
    listed: Listed,
    d: usize,
    book: &[u32],
    a: usize,
    n: usize,
    map: &mut [u64],
) -> bool
    requires { (words * (a + n) ≤ length book.now) × (good_list listed.list.now ≡ true) × (d ≤ length listed.list.now) × (mapped map.old ≡ true) }
    ensures { MarkedOrWiped (every (λ k. fine (record_at k book.now) && slip_line_good listed.entry.list.now d (record_at k book.now)) (range a n)) map.old (places_of listed.entry.list.now (opened_in listed.entry.list.now book.now (range a n))) result map.new }
{
    for i in 0..n {
        if !is_line_good(listed, d, book::record_at(book, a + i), map) {
            map::wipe(map);
            return false;
        }
    }
    true
}

// A record whose tokens stand side by side in the list.
fn is_run(listed: Listed, book: &[u32], k: usize) -> bool
    requires { words * k + words ≤ length book.now }
    ensures { result ≡ is_run listed.entry.list.now (record_at k book.now) }
{
    let n = book::word_of(book, k, 2) as usize;
    let part = opening::part_by(listed, book::word_of(book, k, 4), n);
    searching::same_list(book::tokens_at(book, k), part)
}

// Each of n carnets from record a on.
pub fn are_runs(listed: Listed, book: &[u32], a: usize, n: usize) -> bool
    requires { words * (a + n) ≤ length book.now }
    ensures { result ≡ every (λ k. is_run listed.entry.list.now (record_at k book.now)) (range a n) }
{
    (a..a + n).all(|k| is_run(listed, book, k))
}
