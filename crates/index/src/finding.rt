// The places of some numbers in a list, by its index.
ghost use Rattle.std.specs.Prelude.{◌≡◌, length};
ghost use Rattle.rules.specs.Answers.{Gives, verdict_of};
ghost use Rattle.rules.specs.Lists.{true};
ghost use Rattle.rules.specs.Index.{is_index, places_into};
ghost use Rattle.index.specs.Places.{places_of};

use super::{checking, walking};
use rules::refusal::Refusal;

fn lay_places(list: &[u32], index: &[u16], numbers: &[u32], out: &mut [u32])
    requires { (is_index list.now index.now ≡ true) × (length numbers.now ≡ length out.old) }
    ensures { out.new ≡ places_of list.now numbers.now }
{
    for (i, &number) in numbers.iter().enumerate() {
        out[i] = walking::look(list, index, number) as u32;
    }
}

// The place of each of some numbers, by an index that is checked first: who asks for many asks once.
pub fn places(list: &[u32], index: &[u16], numbers: &[u32], out: &mut [u32]) -> Result<(), Refusal>
    ensures { Gives (places_into list.now index.now numbers.now out.old) (verdict_of result) out.new }
{
    if numbers.len() != out.len() || !checking::is_index(list, index) {
        return Err(Refusal::Unsound);
    }
    lay_places(list, index, numbers, out);
    Ok(())
}
