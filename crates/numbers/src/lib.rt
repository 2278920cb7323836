// Numbers of several bytes, lowest first, in lent bytes: read, and put.
#![tactic(auto)]

ghost use Rattle.std.specs.Prelude.{◌+◌, ◌*◌, ◌≤◌, ◌<◌, ◌≡◌, length};
ghost use Rattle.std.proofs.lemmas.List.Edits.{sets};
ghost use Rattle.table.specs.Bytes.{u16_at, u32_at};
ghost use Rattle.numbers.specs.Bytes.{bytes, u64_at};

pub fn two(s: &[u8], i: usize) -> u64
    requires { i + 2 ≤ length s.now }
    ensures { (result ≡ u16_at s.now i) × (result < 65536) }
{
    u64::from(u16::from_le_bytes([s[i], s[i + 1]]))
}

pub fn four(s: &[u8], i: usize) -> u64
    requires { i + 4 ≤ length s.now }
    ensures { (result ≡ u32_at s.now i) × (result < 4294967296) }
{
    u64::from(u32::from_le_bytes([s[i], s[i + 1], s[i + 2], s[i + 3]]))
}

// Two fours, and not a list of eight places.
pub fn eight(s: &[u8], i: usize) -> u64
    requires { i + 8 ≤ length s.now }
    ensures { result ≡ u64_at s.now i }
{
    four(s, i) + 4294967296 * four(s, i + 4)
}

// The k lowest bytes of x, lowest first; every other byte stays. Any k is met, and so not by `to_le_bytes`, which has
// eight bytes.
pub fn put_bytes(out: &mut [u8], at: usize, x: u64, k: usize)
    requires { at + k ≤ length out.old }
    ensures { out.new ≡ sets out.old at (bytes k x) }
{
    let mut rest = x;
    for p in at..at + k {
        out[p] = (rest % 256) as u8;
        rest /= 256;
    }
}
