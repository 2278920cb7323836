// The first pair, in pair order, that belongs and that no row names: looked for among the first nodes of a block, whose
// pairs named by rows are in the set.
ghost use Rattle.std.specs.Prelude.{◌≡◌, ◌≤◌, ◌<◌};
ghost use Rattle.vetting.specs.work.Lines.{LineAsked, SlotAsked, Block};
ghost use Rattle.vetting.specs.work.Meant.{MeantOf, Ready};
ghost use Rattle.vetting.specs.work.Lacks.{InSet, LackTold, FirstHigh, BlockHigh, BlockLack, open_to};

use crate::bits::has;
use crate::lines::{line_of, slot};
use crate::pairs::Pairs;

// A pair that is lacking.
#[derive(Clone, Copy)]
pub(crate) struct Lack {
    pub low: usize,
    pub high: usize,
}

// Whether the pair a, b belongs and is not in the set; t is its line.
fn is_lacking(bits: &[u64; 16384], t: usize, a: usize, b: usize, from: usize, pairs: &Pairs) -> bool
    requires { Ready pairs.now × SlotAsked pairs.now.n from t a b }
    ensures { LackTold (MeantOf pairs.now) (InSet pairs.now.n from bits.now) a b result }
{
    if has(bits, slot(t, a, b, pairs.n, from)) {
        return false;
    }
    let v = pairs.figure(a, b);
    pairs.passes(&v)
}

// Of first node a, whose line is t: the first second node of such a pair.
fn first_high(bits: &[u64; 16384], t: usize, a: usize, from: usize, pairs: &Pairs) -> Option<usize>
    requires { Ready pairs.now × LineAsked pairs.now.n from t a }
    ensures { FirstHigh (MeantOf pairs.now) (InSet pairs.now.n from bits.now) pairs.now.n a result }
{
    for b in a + 1..pairs.n {
        if is_lacking(bits, t, a, b, from, pairs) {
            return Some(b);
        }
    }
    None
}

// The same of any first node: none where its line is none of the block's.
fn block_high(
    bits: &[u64; 16384],
    a: usize,
    from: usize,
    end: usize,
    pairs: &Pairs,
) -> Option<usize>
    requires { Ready pairs.now × Block pairs.now.n from end × (a < pairs.now.n) }
    ensures { BlockHigh (MeantOf pairs.now) (InSet pairs.now.n from bits.now) pairs.now.n from end a
        result }
{
    let t = line_of(a, pairs.n);
    if t < from || end <= t {
        return None;
    }
    first_high(bits, t, a, from, pairs)
}

// The first nodes below which a pair would come before the one that is known.
fn open_to(n: usize, known: Option<Lack>) -> usize
    ensures { result ≡ open_to n known }
{
    match known {
        Some(lack) => lack.low,
        None => n,
    }
}

// The first such pair of the block, if it comes before the one that is known.
pub(crate) fn first_lack(
    bits: &[u64; 16384],
    known: Option<Lack>,
    from: usize,
    end: usize,
    pairs: &Pairs,
) -> Option<Lack>
    requires { Ready pairs.now
        × Block pairs.now.n from end
        × (open_to pairs.now.n known ≤ pairs.now.n) }
    ensures { BlockLack (MeantOf pairs.now) (InSet pairs.now.n from bits.now) pairs.now.n from end
        known result }
{
    for low in 0..open_to(pairs.n, known) {
        if let Some(high) = block_high(bits, low, from, end, pairs) {
            return Some(Lack { low, high });
        }
    }
    known
}
