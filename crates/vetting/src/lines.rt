// Where a pair's bit stands: lines of n bits, each for two first nodes, and the block of lines that the set has.
ghost use Rattle.std.specs.Prelude.{◌≡◌, ◌+◌, ◌≤◌, ◌<◌, length};
ghost use Rattle.vetting.specs.work.Lines.{Line, Column, Slot, SlotAsked, Block, Admitted};

use crate::bits::put;

// The line of first node a.
pub(crate) fn line_of(a: usize, n: usize) -> usize
    requires { (a < n) × (n ≤ 4096) }
    ensures { Line n a result }
{
    if 2 * a < n { a } else { n - 1 - a }
}

// The column of b beside it.
fn column_of(a: usize, b: usize, n: usize) -> usize
    requires { (a < b) × (b < n) × (n ≤ 4096) }
    ensures { Column n a b result }
{
    if 2 * a < n { b } else { n - 1 - b }
}

// The bit of the pair a, b, whose line t is one of the block's.
pub(crate) fn slot(t: usize, a: usize, b: usize, n: usize, from: usize) -> usize
    requires { SlotAsked n from t a b }
    ensures { Slot n from a b result × (result < 1048576) }
{
    n * (t - from) + column_of(a, b, n)
}

// Puts the pair a, b in, where it is one of the block's; false where it was in before.
pub(crate) fn admit(
    bits: &mut [u64; 16384],
    a: usize,
    b: usize,
    n: usize,
    from: usize,
    end: usize,
) -> bool
    requires { Block n from end × (a < b) × (b < n) × (length bits.old ≡ 16384) }
    ensures { Admitted n from end a b bits.old result bits.new }
{
    let t = line_of(a, n);
    if t < from || end <= t {
        return true;
    }
    put(bits, slot(t, a, b, n, from))
}
