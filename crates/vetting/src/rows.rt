// The rows of the list one by one: whether a row is, byte for byte, the row of an entry that is meant.
ghost use Rattle.std.specs.Prelude.{◌+◌, ◌*◌, ◌≤◌, ◌<◌, length};
ghost use Rattle.limits.specs.work.Fits.{Decides};
ghost use Rattle.vetting.specs.work.Foreign.{Belongs, FirstForeign};
ghost use Rattle.vetting.specs.work.Meant.{MeantOf, Ready};

use crate::pairs::Pairs;
use numbers::{eight, four, two};
use pages::bits;

// Whether row i belongs: it names two nodes, lower first, its length and weight are theirs, and these pass.
fn belongs(list: &[u8], i: usize, pairs: &Pairs) -> bool
    requires { Ready pairs.now
        × (16 * i + 16 ≤ length list.now) }
    ensures { Decides (Belongs (MeantOf pairs.now) list.now i) result }
{
    let p = 16 * i;
    let a = two(list, p) as usize;
    let b = two(list, p + 2) as usize;
    if b <= a || pairs.n <= b {
        return false;
    }
    let v = pairs.figure(a, b);
    four(list, p + 4) == v.length && eight(list, p + 8) == bits(v.weight) && pairs.passes(&v)
}

// Of m rows the first that does not belong; m where all do. No Option: it is how many rows the blocks' passes go over.
pub(crate) fn first_foreign(list: &[u8], m: usize, pairs: &Pairs) -> usize
    requires { Ready pairs.now
        × (16 * m ≤ length list.now) }
    ensures { FirstForeign (MeantOf pairs.now) list.now m result }
{
    for i in 0..m {
        if !belongs(list, i, pairs) {
            return i;
        }
    }
    m
}
