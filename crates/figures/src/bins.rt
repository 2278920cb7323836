// Three tables over bins of 64 places, from which the least number from one place to another comes in three reads.
ghost use Rattle.std.specs.Prelude.{ℕ, ◌<◌, List};
ghost use Rattle.figures.specs.work.Bins.{Tails, Fronts, Gaps, TailTurn, FrontTurn, GapTurn};

// More than every spot: the least of no places, so that the lesser of two takes no test of whether there are any.
pub(crate) const NONE: u16 = u16::MAX;

// The least of the places behind i in its bin.
fn tail_behind(tail: &[u16; 4096], i: usize) -> u16
    requires { i < 4096 }
    ensures { TailTurn tail.now i result }
{
    if i % 64 == 63 { NONE } else { tail[i + 1] }
}

// From each place to the end of its bin.
pub(crate) fn tails(above: &[u16; 4096], tail: &mut [u16; 4096])
    ensures { Tails above.now 0 tail.new }
{
    tail.fill(0);
    for i in (0..4096).rev() {
        tail[i] = above[i].min(tail_behind(tail, i));
    }
}

// The least of the places before i in its bin.
fn front_before(front: &[u16; 4096], i: usize) -> u16
    requires { i < 4096 }
    ensures { FrontTurn front.now i result }
{
    if i % 64 == 0 { NONE } else { front[i - 1] }
}

// From the begin of its bin to each place.
pub(crate) fn fronts(above: &[u16; 4096], front: &mut [u16; 4096])
    ensures { Fronts above.now 4096 front.new }
{
    front.fill(0);
    for i in 0..4096 {
        front[i] = front_before(front, i).min(above[i]);
    }
}

// The bins between bin i / 64 and bin i % 64: those up to the bin before, and the last.
fn gap_between(gap: &[u16; 4096], tail: &[u16; 4096], i: usize) -> u16
    requires { i < 4096 }
    ensures { GapTurn gap.now tail.now i result }
{
    if i % 64 <= i / 64 + 1 {
        return NONE;
    }
    gap[i - 1].min(tail[64 * (i % 64 - 1)])
}

// Of the bins between any two: that of bins a and b stands at 64 a + b.
pub(crate) fn gaps(tail: &[u16; 4096], gap: &mut [u16; 4096])
    ensures { (above : List ℕ) → Tails above 0 tail.now → Gaps above 4096 gap.new }
{
    gap.fill(0);
    for i in 0..4096 {
        gap[i] = gap_between(gap, tail, i);
    }
}
