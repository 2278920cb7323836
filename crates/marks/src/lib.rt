// Marks: free, or held or spent by a run; what a marked branch weighs; and a climb's length, weight and free branches.
#![tactic(auto)]

ghost use Rattle.std.specs.Prelude.{◌≡◌, min, leb, length};
ghost use Rattle.net.specs.work.Net.{Net};
ghost use Rattle.net.specs.work.Rise.{WalkClimb};
ghost use Rattle.marks.specs.Mark.{top, run_of, spend};
ghost use Rattle.marks.specs.work.Lifted.{LiftedUnder};
ghost use Rattle.marks.specs.work.Measured.{one_free, Measured};

pub const FREE: u16 = 0;

// The run that stands for "unknown"; every run's own number is below it.
pub const UNKNOWN: u16 = 0x7fff;

// The run that a mark keeps, held or spent.
pub fn run_of(mark: u16) -> u16
    ensures { result ≡ run_of mark }
{
    mark & 0x7fff
}

pub fn is_spent(mark: u16) -> bool
    ensures { result ≡ leb top mark }
{
    0x8000 <= mark
}

// The mark with its top bit set: spent, and the run stays.
pub fn spend(mark: u16) -> u16
    ensures { result ≡ spend mark }
{
    mark | 0x8000
}

// A row's weight under its mark, lifted by 1,000,000. Any table, marks and row number.
pub fn lifted_under(s: &[u8], marks: &[u16], row: usize) -> u32
    ensures { LiftedUnder s.now marks.now row result }
{
    let own = table::lifted_at(s, row);
    if row < marks.len() && marks[row] != FREE {
        return own.min(table::ROW_LIFT);
    }
    own
}

fn one_free(mark: u16) -> u16
    ensures { result ≡ one_free mark }
{
    if mark == FREE { 1 } else { 0 }
}

// What a row's weight is lifted by, as sums of weights are carried.
const ROW_LIFT: u64 = table::ROW_LIFT as u64;

// A climb's wire length, its weight under the marks, lifted by 2^33, and how many of its branches are free.
#[derive(Clone, Copy)]
pub struct Climb {
    pub length: u64,
    pub weight: u64,
    pub free: u16,
}

// Between crates: the climb from x to t, which is above x. The three arrays that it reads, and no Walk: a walk has one
// more, which not every caller needs to have.
pub fn measure_climb(
    s: &[u8],
    marks: &[u16],
    parent: &[u16; 4096],
    half: &[u16; 4096],
    place: &[u16; 4096],
    x: usize,
    t: usize,
) -> Climb
    requires { (k : WalkClimb (length marks.now) parent.now half.now place.now x t)
        × Net s.now k.nodes }
    ensures { Measured s.now marks.now parent.now half.now x t
        result.length result.weight result.free }
{
    let mut v = x;
    let mut length: u64 = 0;
    let mut weight: u64 = table::SUM_LIFT;
    let mut free: u16 = 0;
    while v != t {
        let r = usize::from(half[v]) / 2;
        length += u64::from(table::row_at(s, r).length);
        weight = weight + u64::from(lifted_under(s, marks, r)) - ROW_LIFT;
        free += one_free(marks[r]);
        v = usize::from(parent[v]);
    }
    Climb {
        length,
        weight,
        free,
    }
}
