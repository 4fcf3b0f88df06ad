// What soundness asks of a record by itself. Inner, all of them: the record is one of a book whose length was tested.
ghost use Rattle.std.specs.Prelude.{◌≡◌, length, ◌&&◌, ◌||◌};
ghost use Rattle.rules.specs.Lists.{eqb, all_zero, all_different};
ghost use Rattle.rules.specs.Records.{words, in_use, held};
ghost use Rattle.rules.specs.Sound.{shaped, desk_good, bare, line_good, place_good, record_good};
ghost use Rattle.sound.specs.Kept.{kept};

use index::listed::Listed;
use rules::Hall;
use tokens::searching;

// A record not in use has nothing else in it either.
fn is_used_or_blank(rec: &[u32]) -> bool
    requires { length rec.now ≡ words }
    ensures { result ≡ (eqb (in_use rec.now) 1 || all_zero rec.now) }
{
    book::in_use(rec) == 1 || searching::is_blank(rec)
}

// In use or blank, and no more tokens than a record holds: what a slip line is asked too.
pub fn is_kept(rec: &[u32]) -> bool
    requires { length rec.now ≡ words }
    ensures { result ≡ kept rec.now }
{
    book::in_use(rec) <= 1 && is_used_or_blank(rec) && book::count(rec) <= 32
}

#[tactic(auto, unfolding(rules::specs::Sound::shaped))]
fn is_shaped(rec: &[u32]) -> bool
    requires { length rec.now ≡ words }
    ensures { result ≡ shaped rec.now }
{
    if !is_kept(rec) {
        return false;
    }
    let past = 4 + book::count(rec) as usize;
    searching::is_blank(&rec[past..])
}

#[tactic(auto, unfolding(rules::specs::Sound::desk_good))]
fn is_desk(list: &[u32], rec: &[u32]) -> bool
    requires { length rec.now ≡ words }
    ensures { result ≡ desk_good list.now rec.now }
{
    book::in_use(rec) == 1
        && book::amount(rec) as usize <= list.len()
        && searching::is_blank(&rec[2..])
}

#[tactic(auto, unfolding(rules::specs::Sound::bare))]
fn is_bare(rec: &[u32]) -> bool
    requires { length rec.now ≡ words }
    ensures { result ≡ bare rec.now }
{
    book::amount(rec) == 0 && book::sales(rec) == 0
}

fn is_till(rec: &[u32]) -> bool
    requires { length rec.now ≡ words }
    ensures { result ≡ (bare rec.now && all_different (held rec.now)) }
{
    is_bare(rec) && searching::all_different(book::tokens_of(rec))
}

#[tactic(auto, unfolding(rules::specs::Sound::line_good))]
fn is_line(rec: &[u32]) -> bool
    requires { length rec.now ≡ words }
    ensures { result ≡ line_good rec.now }
{
    let sales = book::sales(rec);
    let count = book::count(rec);
    book::amount(rec) == 0 && sales <= 16 && sales <= count && sales.min(1) == count.min(1)
}

// What record k is asked for its place: the desk, a carnet, the desk's view of a customer and of a bench, a till, a line. It is counted
// on from group to group: the groups' first numbers, kept at hand, would take more stack.
fn fits_place(h: Hall, list: &[u32], k: usize, rec: &[u32]) -> bool
    requires { length rec.now ≡ words }
    ensures { result ≡ place_good h list.now k rec.now }
{
    if k < 1 {
        return is_desk(list, rec);
    }
    let carnet = k - 1;
    if carnet < h.customers {
        return is_bare(rec);
    }
    let view = carnet - h.customers;
    if view < h.customers {
        return book::sales(rec) == 0;
    }
    let bench = view - h.customers;
    if bench < h.benches {
        return book::handshake(rec) <= 2;
    }
    let till = bench - h.benches;
    if till < h.benches {
        return is_till(rec);
    }
    is_line(rec)
}

// All that record k is asked by itself, with d tokens dealt; its tokens are looked up by the index, where there is one.
#[tactic(auto, unfolding(rules::specs::Sound::record_good))]
#[inline(always)]
pub fn is_good(h: Hall, listed: Listed, d: usize, k: usize, rec: &[u32]) -> bool
    requires { length rec.now ≡ words }
    ensures { result ≡ record_good h listed.entry.list.now d k rec.now }
{
    is_shaped(rec)
        && listed.all_among(d, book::tokens_of(rec))
        && fits_place(h, listed.list, k, rec)
}
