// Where a token's walk starts: by the FNV-1a hash of its bytes.
ghost use Rattle.std.specs.Prelude.{◌≡◌, ◌*◌, ◌%◌, ◌^◌, ◌<◌};
ghost use Rattle.rules.specs.Bytes.{bytes_of};
ghost use Rattle.rules.specs.Index.{ring, fnv_from, start};

// The product, wrapping at 32 bits.
fn product(a: u32, b: u32) -> u32
    ensures { result ≡ a * b % 2 ^ 32 }
{
    a.wrapping_mul(b)
}

fn hash(token: u32) -> u32
    ensures { result ≡ fnv_from 2166136261 (bytes_of token) }
{
    let mut h = 2166136261;
    for byte in token.to_le_bytes() {
        h = product(h ^ u32::from(byte), 16777619);
    }
    h
}

pub fn start(token: u32) -> usize
    ensures { (result ≡ start token) × (result < ring) }
{
    (hash(token) % 8192) as usize
}
