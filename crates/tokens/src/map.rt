// Places marked in a map of 64 numbers, a bit for each place, so that whether a place comes twice is one look at the map.
ghost use Rattle.std.specs.Prelude.{◌≡◌, ◌+◌, ◌≤◌, ◌<◌, eqb, length, replicate};
ghost use Rattle.rules.specs.Lists.{true, range};
ghost use Rattle.rules.specs.Hall.{most_tokens};
ghost use Rattle.tokens.specs.Map.{mapped, bit_at, with_bit, Marked};

// Marks a place; whether it was new.
pub fn mark(map: &mut [u64], p: usize) -> bool
    requires { (length map.old ≡ 64) × (p < most_tokens) }
    ensures { (result ≡ eqb (bit_at map.old p) 0) × (map.new ≡ with_bit map.old p) }
{
    let j = p / 64;
    let k = p % 64;
    let fresh = (map[j] >> k) & 1 == 0;
    map[j] |= 1 << k;
    fresh
}

// Marks n places from one on, if there is a map; whether each was new in its turn. It goes on behind a repeat, so that all of them are
// marked afterwards, also where one was marked before.
pub fn mark_run(map: &mut [u64], p: usize, n: usize) -> bool
    requires { (mapped map.old ≡ true) × (p + n ≤ most_tokens) }
    ensures { Marked map.old (range p n) result map.new }
{
    if map.is_empty() {
        return true;
    }
    let mut fresh = true;
    for place in p..p + n {
        fresh &= mark(map, place);
    }
    fresh
}

// No place is marked.
pub fn wipe(map: &mut [u64])
    ensures { map.new ≡ replicate (length map.old) 0 }
{
    map.fill(0);
}
