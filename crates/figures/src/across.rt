// The figures of two spots: the two added, and those of the spot where the climbs meet taken away twice.
ghost use Rattle.std.specs.Prelude.{◌<◌};
ghost use Rattle.table.specs.work.Lift.{sum_end};
ghost use Rattle.figures.specs.work.Figures.{Joins, Crossing};

use crate::least::Binned;

// A path's length, and its weight lifted by 2^33.
#[derive(Drop)]
pub struct Figure {
    pub length: u64,
    pub weight: u64,
}

// Of two spots, i before j.
pub(crate) fn across(
    parents: &Binned<'_>,
    far: &[u64; 4096],
    heavy: &[u64; 4096],
    i: usize,
    j: usize,
) -> Figure
    requires { Crossing parents.now.above.now parents.now.tail.now parents.now.front.now parents.now.gap.now
        far.now heavy.now i j }
    ensures { Joins parents.now.above.now far.now heavy.now i j result.length result.weight
        × (result.weight < sum_end) }
{
    let m = parents.least(i, j);
    let length = far[i] + far[j] - 2 * far[m];
    let weight = heavy[i] + heavy[j] + table::SUM_LIFT - 2 * heavy[m];
    Figure { length, weight }
}
