// Claim, along the path: both nodes climb to where their climbs meet. First the path is measured, then its free
// branches are taken.
ghost use Rattle.std.specs.Prelude.{◌<◌, length};
ghost use Rattle.net.specs.work.Net.{Net};
ghost use Rattle.net.specs.work.Rise.{WalkClimb};
ghost use Rattle.reach.specs.work.Walked.{WalkOf};
ghost use Rattle.marks.specs.Mark.{free};
ghost use Rattle.changes.specs.Claim.{Claiming, Ended};
ghost use Rattle.changes.specs.work.Climbs.{Takes, ClimbHeld, ClaimReady};

use crate::Change;
use crate::runs::not_a_run;
use marks::{FREE, measure_climb};
use reach::Walk;
use table::Opened;
use tree::Refusal;

fn take(marks: &mut [u16], row: usize, run: u16)
    requires { row < length marks.old }
    ensures { Takes row run marks.old marks.new }
{
    if marks[row] == FREE {
        marks[row] = run;
    }
}

// The free branches of the climb from x to t become held by the run.
fn hold(marks: &mut [u16], walk: &Walk, x: usize, t: usize, run: u16)
    requires { WalkClimb (length marks.old) walk.now.parent walk.now.half walk.now.place x t × (free < run) }
    ensures { ClimbHeld walk.now.parent walk.now.half x t run marks.old marks.new }
{
    let mut v = x;
    while v != t {
        let r = usize::from(walk.half[v]) / 2;
        take(marks, r, run);
        v = usize::from(walk.parent[v]);
    }
}

// Over a walk: 18, 19, then the claim.
fn claim_path(
    s: &[u8],
    marks: &mut [u16],
    walk: &Walk,
    net: Opened,
    run: u16,
    a: u16,
    b: u16,
) -> Change
    requires { ClaimReady s.now marks.old net.nodes run a b
        × WalkOf s.now net.nodes walk.now.parent walk.now.half walk.now.place }
    ensures { Ended s.now net.nodes net.bound marks.old run a b (result, marks.new) }
{
    let x = usize::from(a);
    let y = usize::from(b);
    let t = tree::meet(&walk.parent, &walk.place, usize::from(net.nodes), x, y);
    let ups = measure_climb(s, marks, &walk.parent, &walk.half, &walk.place, x, t);
    let downs = measure_climb(s, marks, &walk.parent, &walk.half, &walk.place, y, t);
    if u64::from(net.bound) < ups.length + downs.length {
        return Err(Refusal::TOO_LONG);
    }
    let free = ups.free + downs.free;
    if free == 0 {
        return Err(Refusal::NONE_FREE);
    }
    hold(marks, walk, x, t, run);
    hold(marks, walk, y, t, run);
    Ok(free)
}

// The walk, in the lent arrays, and the claim over it.
fn claim_walked(
    s: &[u8],
    marks: &mut [u16],
    net: Opened,
    run: u16,
    a: u16,
    b: u16,
    walk: &mut Walk,
) -> Change
    requires { ClaimReady s.now marks.old net.nodes run a b }
    ensures { Ended s.now net.nodes net.bound marks.old run a b (result, marks.new) }
{
    tree::walk(s, net.nodes, walk);
    claim_path(s, marks, walk, net, run, a, b)
}

// In an accepted net: 13, 14, 15, and then along the path.
pub(crate) fn claim_pair(
    s: &[u8],
    marks: &mut [u16],
    net: Opened,
    run: u16,
    a: u16,
    b: u16,
    walk: &mut Walk,
) -> Change
    requires { Net s.now net.nodes }
    ensures { Claiming s.now net.nodes net.bound marks.old run a b (result, marks.new) }
{
    if marks.len() + 1 != usize::from(net.nodes) {
        return Err(Refusal::MARKS);
    }
    if not_a_run(run) {
        return Err(Refusal::RUN);
    }
    if net.nodes <= a || net.nodes <= b || a == b {
        return Err(Refusal::NODES);
    }
    claim_walked(s, marks, net, run, a, b, walk)
}
