// A pair's figures, its path's length and weight, from three spots and with no climb: the climbs of two nodes meet at
// the least parent's spot among the spots behind the one and up to the other. bins.rt makes the tables by which
// least.rt finds that in three reads, or, within a bin, by a short scan; across.rt has the figures of two spots.
#![tactic(auto)]

ghost use Rattle.std.specs.Prelude.{◌<◌};
ghost use Rattle.table.specs.work.Lift.{sum_end};
ghost use Rattle.figures.specs.work.Bins.{Tables};
ghost use Rattle.figures.specs.work.Figures.{Figures, FigureAsked};

use crate::across::across;
use crate::bins::{fronts, gaps, tails};
use crate::least::Binned;

mod across;
mod bins;
mod least;

pub use across::Figure;

// Between crates: the tables by which `figure` finds where two climbs meet. above has, by spot, the spot of the parent.
pub fn tables(
    above: &[u16; 4096],
    tail: &mut [u16; 4096],
    front: &mut [u16; 4096],
    gap: &mut [u16; 4096],
)
    ensures { Tables above.now tail.new front.new gap.new }
{
    tails(above, tail);
    fronts(above, front);
    gaps(tail, gap);
}

// Between crates: the figures of two nodes, a lower than b. far and heavy have, by spot, the distance and the lifted
// weight from node 0.
// The arrays apart, as vetting lends them: what is asked of them (`FigureAsked`) speaks of each.
pub fn figure(
    spot: &[u16; 4096],
    above: &[u16; 4096],
    tail: &[u16; 4096],
    front: &[u16; 4096],
    gap: &[u16; 4096],
    far: &[u64; 4096],
    heavy: &[u64; 4096],
    n: usize,
    a: usize,
    b: usize,
) -> Figure
    requires { FigureAsked n spot.now above.now tail.now front.now gap.now far.now heavy.now a b }
    ensures { Figures spot.now above.now far.now heavy.now a b
        result.length result.weight × (result.weight < sum_end) }
{
    let x = usize::from(spot[a]);
    let y = usize::from(spot[b]);
    let parents = Binned {
        above,
        tail,
        front,
        gap,
    };
    across(&parents, far, heavy, x.min(y), x.max(y))
}
