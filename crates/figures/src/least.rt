// The least number from one place to another, by the tables of bins.rt.
ghost use Rattle.std.specs.Prelude.{◌+◌, ◌≤◌, ◌<◌};
ghost use Rattle.arrays.specs.At.{at};
ghost use Rattle.layout.specs.work.Spotted.{LeastOf};
ghost use Rattle.figures.specs.work.Bins.{LeastOrNone, LeastAsked};

use crate::bins::NONE;

// In one bin, place by place.
fn scan(above: &[u16; 4096], begin: usize, end: usize) -> u16
    requires { (begin ≤ end) × (end ≤ 4096) }
    ensures { LeastOrNone (at above.now) begin end result }
{
    let mut m = NONE;
    for k in begin..end {
        m = m.min(above[k]);
    }
    m
}

// Numbers by place, and the three tables of them that bins.rt makes.
#[derive(Clone, Copy)]
pub(crate) struct Binned<'a> {
    pub(crate) above: &'a [u16; 4096],
    pub(crate) tail: &'a [u16; 4096],
    pub(crate) front: &'a [u16; 4096],
    pub(crate) gap: &'a [u16; 4096],
}

impl<'a> Binned<'a> {
    // The least behind place i and up to place j.
    pub(crate) fn least(&self, i: usize, j: usize) -> usize
        requires { LeastAsked self.now.above.now self.now.tail.now self.now.front.now self.now.gap.now i j }
        ensures { LeastOf (at self.now.above.now) (i + 1) j result }
    {
        let a = (i + 1) / 64;
        let b = j / 64;
        if a == b {
            return usize::from(scan(self.above, i + 1, j + 1));
        }
        usize::from(
            self.tail[i + 1]
                .min(self.gap[64 * a + b])
                .min(self.front[j]),
        )
    }
}
