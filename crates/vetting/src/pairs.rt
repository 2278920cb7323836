// The pairs that the rows are held against.
ghost use Rattle.std.specs.Prelude.{◌<◌};
ghost use Rattle.table.specs.work.Lift.{sum_end};
ghost use Rattle.limits.specs.work.Fits.{Decides, Fits};
ghost use Rattle.pages.specs.work.Lowered.{InSums};
ghost use Rattle.figures.specs.work.Figures.{Figures, FigureAsked};

use figures::{Figure, figure};
use limits::Limit;
use pages::Sums;

// The numbers of a net of n nodes laid out by spots, with the tables of its figures, and what a pair's figures must
// pass.
#[derive(Clone, Copy)]
pub(crate) struct Pairs<'a> {
    pub spot: &'a [u16; 4096],
    pub above: &'a [u16; 4096],
    pub tail: &'a [u16; 4096],
    pub front: &'a [u16; 4096],
    pub gap: &'a [u16; 4096],
    pub far: &'a [u64; 4096],
    pub heavy: &'a [u64; 4096],
    pub n: usize,
    pub limit: Limit,
    pub sums: Sums,
}

impl<'a> Pairs<'a> {
    pub(crate) fn figure(&self, a: usize, b: usize) -> Figure
        requires { FigureAsked self.now.n self.now.spot.now self.now.above.now self.now.tail.now
            self.now.front.now self.now.gap.now self.now.far.now self.now.heavy.now a b }
        ensures { Figures self.now.spot.now self.now.above.now self.now.far.now self.now.heavy.now a b
            result.length result.weight × (result.weight < sum_end) }
    {
        figure(
            self.spot, self.above, self.tail, self.front, self.gap, self.far, self.heavy, self.n,
            a, b,
        )
    }

    pub(crate) fn passes(&self, v: &Figure) -> bool
        ensures { Decides (Fits self.now.limit v.now.length × InSums self.now.sums v.now.weight) result }
    {
        pages::passes(v.length, v.weight, self.limit, self.sums)
    }
}
