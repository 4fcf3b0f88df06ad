// A token list with the index beside it, where there is one: then places are looked up by it, else they are found by walks along the
// list. So one text serves both.
ghost use Rattle.std.specs.Prelude.{◌≡◌, ◌≤◌, None, Some, length, take, is_some};
ghost use Rattle.std.specs.Option.{ForSome};
ghost use Rattle.rules.specs.Lists.{true, every, is_in, place_of};
ghost use Rattle.rules.specs.Hall.{most_tokens};
ghost use Rattle.rules.specs.Index.{is_index};
ghost use Rattle.tokens.specs.Map.{Marked};
ghost use Rattle.index.specs.Places.{places_of};

use super::{checking, walking};
use tokens::{map, searching};

// An index that is there is the list's own.
#[derive(Clone, Copy)]
pub struct Listed<'a, 'x> {
    pub list: &'a [u32],
    pub index: Option<&'x [u16]>,
    pub ghost own: { ForSome index (λ x. is_index list.now x.now ≡ true) },
}

impl<'a, 'x> Listed<'a, 'x> {
    pub fn plain(list: &'a [u32]) -> Listed<'a, 'x>
        ensures { (result.list ≡ list.entry) × (result.index ≡ None) }
    {
        Listed { list, index: None }
    }

    // None where the index isn't the list's own.
    pub fn with(list: &'a [u32], index: &'x [u16]) -> Option<Listed<'a, 'x>>
        ensures { (is_some result ≡ is_index list.now index.now) × ForSome result (λ l. (l.list ≡ list.entry) × (l.index ≡ Some index.entry)) }
    {
        if !checking::is_index(list, index) {
            return None;
        }
        Some(Listed {
            list,
            index: Some(index),
        })
    }

    // The first place of a token, or the list's length where it has none. It is put where it is called: with an index it is a few
    // instructions, and the list would be handed over for each token.
    #[inline(always)]
    pub fn place_of(self, token: u32) -> usize
        ensures { result ≡ place_of token self.entry.list.now }
    {
        match self.index {
            Some(index) => walking::look(self.list, index, token),
            None => searching::place_of(self.list, token),
        }
    }

    // Whether a token is among the first n of the list.
    fn is_among(self, n: usize, token: u32) -> bool
        ensures { result ≡ is_in token (take n self.entry.list.now) }
    {
        match self.index {
            Some(index) => walking::look(self.list, index, token) < n.min(self.list.len()),
            None => searching::is_among(self.list, n, token),
        }
    }

    // Whether each of some tokens is among the first n of the list.
    pub fn all_among(self, n: usize, tokens: &[u32]) -> bool
        ensures { result ≡ every (λ t. is_in t (take n self.entry.list.now)) tokens.now }
    {
        tokens.iter().all(|&t| self.is_among(n, t))
    }

    // Marks the place of each of some tokens of the list; whether each was new in its turn.
    pub fn mark_tokens(self, tokens: &[u32], map: &mut [u64]) -> bool
        requires { (length map.old ≡ 64) × (length self.list.now ≤ most_tokens) × (every (λ t. is_in t self.list.now) tokens.now ≡ true) }
        ensures { Marked map.old (places_of self.entry.list.now tokens.now) result map.new }
    {
        let mut fresh = true;
        for &t in tokens {
            fresh &= map::mark(map, self.place_of(t));
        }
        fresh
    }
}
