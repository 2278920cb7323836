// Commit and abort: one sweep over the marks, in which what the run holds, unspent, gets another mark.
ghost use Rattle.std.specs.Prelude.{◌≤◌, ◌<◌, length};
ghost use Rattle.arrays.specs.At.{at};
ghost use Rattle.marks.specs.Mark.{HeldBy};
ghost use Rattle.changes.specs.Change.{Changes, Settling, Settles};

use crate::Change;
use crate::runs::{holds, not_a_run};
use tree::Refusal;

// Each mark that the run holds, unspent, becomes `to`; how many they were.
fn replace(marks: &mut [u16], run: u16, to: u16) -> u16
    requires { length marks.old < 4096 }
    ensures { Changes (λ r. HeldBy run (at marks.old r)) to marks.old
        marks.new result }
{
    let mut k: u16 = 0;
    for mark in marks.iter_mut() {
        if holds(run, *mark) {
            *mark = to;
            k += 1;
        }
    }
    k
}

// In an accepted net: 13, 14, then what the run holds, unspent, becomes `to`.
fn settle_net(marks: &mut [u16], nodes: u16, run: u16, to: u16) -> Change
    requires { (1 ≤ nodes) × (nodes ≤ 4096) }
    ensures { Settling to nodes marks.old run (result, marks.new) }
{
    if marks.len() + 1 != usize::from(nodes) {
        return Err(Refusal::MARKS);
    }
    if not_a_run(run) {
        return Err(Refusal::RUN);
    }
    Ok(replace(marks, run, to))
}

pub(crate) fn settle(s: &[u8], marks: &mut [u16], run: u16, to: u16) -> Change
    ensures { Settles to s.now marks.old run (result, marks.new) }
{
    let net = tree::accept(s)?;
    settle_net(marks, net.nodes, run, to)
}
