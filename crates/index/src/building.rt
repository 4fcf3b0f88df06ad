// The index of a list, built.
ghost use Rattle.std.specs.Prelude.{◌≡◌, ◌<◌, ◌≤◌, length};
ghost use Rattle.rules.specs.Answers.{Gives, verdict_of};
ghost use Rattle.rules.specs.Index.{blank, build_index};
ghost use Rattle.index.specs.Putting.{Putting, Put, PutAll};

use super::walking;
use rules::refusal::Refusal;

// Puts token i in, unless it stands before.
fn put_in(list: &[u32], index: &mut [u16], i: usize) -> bool
    requires { (i < length list.now) × Putting list.now index.old i }
    ensures { Put list.now i result index.new }
{
    let p = walking::seek(list, index, list[i]);
    if index[p] != 0 {
        return false;
    }
    index[p] = (i + 1) as u16;
    true
}

// Puts all tokens in, up to one that stands before.
fn put_all(list: &[u32], index: &mut [u16]) -> bool
    requires { (length list.now ≤ 4096) × (index.old ≡ blank) }
    ensures { PutAll list.now result index.new }
{
    for i in 0..list.len() {
        if !put_in(list, index, i) {
            return false;
        }
    }
    true
}

// Built aside and copied: a repeat shows only on the way, and a refusal leaves the lent index.
pub fn build(list: &[u32], index: &mut [u16]) -> Result<(), Refusal>
    ensures { Gives (build_index list.now index.old) (verdict_of result) index.new }
{
    if index.len() != 8192 || 4096 < list.len() {
        return Err(Refusal::Unsound);
    }
    let mut made = [0u16; 8192];
    if !put_all(list, &mut made) {
        return Err(Refusal::Unsound);
    }
    index.copy_from_slice(&made);
    Ok(())
}
