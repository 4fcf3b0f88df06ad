// Tokens laid over the front of lent cells, as far as these go.
ghost use Rattle.std.specs.Prelude.{◌≡◌, ◌≤◌, length};
ghost use Rattle.tokens.specs.Laid.{laid};

// One by one: of few tokens, as the last three are.
fn lay_few(out: &mut [u32], tokens: &[u32])
    requires { length tokens.now ≤ length out.old }
    ensures { out.new ≡ laid tokens.now out.old }
{
    for (i, &token) in tokens.iter().enumerate() {
        out[i] = token;
    }
}

// As many tokens as there are cells. It takes every list. Four tokens a turn, all read before one is written, so that the compiler
// moves them at once: it can't know that the two lists don't overlap. One `copy_from_slice` took 6% to 8% more in a step.
pub fn lay(out: &mut [u32], tokens: &[u32])
    ensures { out.new ≡ laid tokens.now out.old }
{
    let n = tokens.len().min(out.len());
    let (fours, few) = tokens[..n].as_chunks::<4>();
    for (k, &[a, b, c, d]) in fours.iter().enumerate() {
        out[4 * k] = a;
        out[4 * k + 1] = b;
        out[4 * k + 2] = c;
        out[4 * k + 3] = d;
    }
    lay_few(&mut out[n - few.len()..], few);
}
