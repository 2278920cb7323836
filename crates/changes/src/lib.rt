// The operations claim, commit and abort: what they change of the marks.
#![tactic(auto)]

ghost use Rattle.changes.specs.Change.{Commits, Aborts};
ghost use Rattle.changes.specs.Claim.{Claims};

use crate::along::claim_pair;
use crate::settle::settle;
use marks::{FREE, spend};
use reach::Walk;
use tree::Refusal;

mod along;
mod runs;
mod settle;

// How many marks an operation changed, or why it did nothing.
pub type Change = Result<u16, Refusal>;

// Each free branch of the path between a and b becomes held by the run.
pub fn claim(s: &[u8], marks: &mut [u16], run: u16, a: u16, b: u16) -> Change
    ensures { Claims s.now marks.old run a b (result, marks.new) }
{
    // Acceptance uses the walk's arrays before there is a walk.
    let mut walk = Walk::new();
    let net = tree::accept_in(s, &mut walk)?;
    claim_pair(s, marks, net, run, a, b, &mut walk)
}

// Each branch that the run holds, unspent, becomes spent, and its mark keeps the run.
pub fn commit(s: &[u8], marks: &mut [u16], run: u16) -> Change
    ensures { Commits s.now marks.old run (result, marks.new) }
{
    // What a run holds has the run's own number as its mark, so this is that mark with its top bit set.
    settle(s, marks, run, spend(run))
}

// Each branch that the run holds, unspent, becomes free.
pub fn abort(s: &[u8], marks: &mut [u16], run: u16) -> Change
    ensures { Aborts s.now marks.old run (result, marks.new) }
{
    settle(s, marks, run, FREE)
}
