// A set of numbers below 1,048,576 as bits: 128 KiB.
ghost use Rattle.std.specs.Prelude.{◌≡◌, ℕ, ◌<◌, length};
ghost use Rattle.arrays.specs.work.Filled.{Filled};
ghost use Rattle.limits.specs.work.Fits.{Decides};
ghost use Rattle.vetting.specs.work.Bits.{bit, Has, PutIn};

// The empty set.
pub(crate) fn clear(bits: &mut [u64; 16384])
    ensures { Filled 16384 0 bits.new }
{
    bits.fill(0);
}

// Bit k of w.
fn bit_of(w: u64, k: u64) -> u64
    requires { k < 64 }
    ensures { result ≡ bit k w }
{
    (w >> k) % 2
}

// w with bit k, which it has not.
fn with(w: u64, k: u64) -> u64
    requires { (k < 64) × (bit k w ≡ 0) }
    ensures { (bit k result ≡ 1) × ((j : ℕ) → (j ≡ k → ⊥) → bit j result ≡ bit j w) }
{
    w + (1 << k)
}

// Whether p is in the set.
pub(crate) fn has(bits: &[u64; 16384], p: usize) -> bool
    requires { p < 1048576 }
    ensures { Decides (Has bits.now p) result }
{
    bit_of(bits[p / 64], (p % 64) as u64) == 1
}

// Puts p in; false where it was in before.
pub(crate) fn put(bits: &mut [u64; 16384], p: usize) -> bool
    requires { (p < 1048576) × (length bits.old ≡ 16384) }
    ensures { PutIn bits.old p result bits.new }
{
    let w = bits[p / 64];
    let k = (p % 64) as u64;
    if bit_of(w, k) == 1 {
        return false;
    }
    bits[p / 64] = with(w, k);
    true
}
