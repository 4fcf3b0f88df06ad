// The listing's lines as bytes, each written from a place of a lent buffer on. Every function answers the place behind what it wrote.
// Inner, all of them: who calls has lent room for the longest line.
ghost use Rattle.std.specs.Prelude.{◌≡◌, ◌+◌, ◌≤◌, length, ◌∷◌};
ghost use Rattle.rules.specs.Lists.{[]};
ghost use Rattle.rules.specs.Listing.{digits, decimal, spaced, step_line, cut_line};
ghost use Rattle.listing.specs.Written.{written};

// The last k digits of a number, or all where it has fewer.
fn put_digits(out: &mut [u8], at: usize, k: usize, n: u64) -> usize
    requires { at + k ≤ length out.old }
    ensures { (result ≡ at + length (digits k n)) × (out.new ≡ written at (digits k n) out.old) × (result ≤ at + k) }
{
    if k == 0 {
        return at;
    }
    if n < 10 {
        out[at] = 48 + n as u8;
        return at + 1;
    }
    let end = put_digits(out, at, k - 1, n / 10);
    out[end] = 48 + (n % 10) as u8;
    end + 1
}

// A number behind a space.
fn put_number(out: &mut [u8], at: usize, n: u64) -> usize
    requires { at + 21 ≤ length out.old }
    ensures { (result ≡ at + length (32 ∷ decimal n)) × (out.new ≡ written at (32 ∷ decimal n) out.old) × (result ≤ at + 21) }
{
    out[at] = b' ';
    put_digits(out, at + 1, 20, n)
}

pub fn put_step(out: &mut [u8], at: usize, place: u64, kind: u8, verdict: u8) -> usize
    requires { at + 63 ≤ length out.old }
    ensures { (result ≡ at + length (step_line place kind verdict)) × (out.new ≡ written at (step_line place kind verdict) out.old) }
{
    let a = put_digits(out, at, 20, place);
    let b = put_number(out, a, u64::from(kind));
    let c = put_number(out, b, u64::from(verdict));
    out[c] = b'\n';
    c + 1
}

// A party's line.
pub fn put_party(
    out: &mut [u8],
    at: usize,
    letter: u8,
    who: u64,
    first: u64,
    second: u64,
    third: u64,
) -> usize
    requires { at + 86 ≤ length out.old }
    ensures { (result ≡ at + length (letter ∷ spaced (who ∷ first ∷ second ∷ third ∷ []))) × (out.new ≡ written at (letter ∷ spaced (who ∷ first ∷ second ∷ third ∷ [])) out.old) }
{
    out[at] = letter;
    let a = put_number(out, at + 1, who);
    let b = put_number(out, a, first);
    let c = put_number(out, b, second);
    let d = put_number(out, c, third);
    out[d] = b'\n';
    d + 1
}

// Whether bytes are left over behind the last whole record of so many.
pub fn put_cut(out: &mut [u8], at: usize, bytes: usize) -> usize
    requires { at + 4 ≤ length out.old }
    ensures { (result ≡ at + length (cut_line bytes)) × (out.new ≡ written at (cut_line bytes) out.old) }
{
    if bytes % 8 == 0 {
        return at;
    }
    let end = at + 4;
    out[at..end].copy_from_slice(b"cut\n");
    end
}
