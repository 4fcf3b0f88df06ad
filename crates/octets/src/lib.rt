// A word as four bytes, lowest first: what the tape's amounts and the book's words have in common.

#![tactic(auto)]

ghost use Rattle.std.specs.Prelude.{◌≡◌, ◌+◌, ◌≤◌, ◌++◌};
ghost use Rattle.rules.specs.Lists.{length, take, drop};
ghost use Rattle.rules.specs.Bytes.{bytes_of, word_of};

// The word that starts at `at`. Inner, as `put_word` is: who calls has tested the length, for an answer of its own.
pub fn word_at(bytes: &[u8], at: usize) -> u32
    requires { at + 4 ≤ length bytes.now }
    ensures { result ≡ word_of (drop at bytes.now) }
{
    u32::from_le_bytes([bytes[at], bytes[at + 1], bytes[at + 2], bytes[at + 3]])
}

pub fn put_word(out: &mut [u8], at: usize, w: u32)
    requires { at + 4 ≤ length out.old }
    ensures { out.new ≡ take at out.old ++ (bytes_of w ++ drop (at + 4) out.old) }
{
    out[at..at + 4].copy_from_slice(&w.to_le_bytes());
}
