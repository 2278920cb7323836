// Claim, commit and abort.
ghost use Rattle.frozen.specs.Calls.{ClaimsWith, CommitsWith, AbortsWith};

use crate::changed::{LARGEST, changed_table};
use changes::Change;

// A path's free branches become the run's.
pub fn claim_with(
    table: &[u8],
    changes: &[u8],
    marks: &mut [u16],
    run: u16,
    a: u16,
    b: u16,
) -> Change
    ensures { ClaimsWith table.now changes.now marks.old run a b
        (result, marks.new) }
{
    let mut buffer = [0; LARGEST];
    let changed = changed_table(table, changes, &mut buffer)?;
    changes::claim(changed, marks, run, a, b)
}

// What the run holds, unspent, becomes spent.
pub fn commit_with(table: &[u8], changes: &[u8], marks: &mut [u16], run: u16) -> Change
    ensures { CommitsWith table.now changes.now marks.old run
        (result, marks.new) }
{
    let mut buffer = [0; LARGEST];
    let changed = changed_table(table, changes, &mut buffer)?;
    changes::commit(changed, marks, run)
}

// What the run holds, unspent, becomes free.
pub fn abort_with(table: &[u8], changes: &[u8], marks: &mut [u16], run: u16) -> Change
    ensures { AbortsWith table.now changes.now marks.old run
        (result, marks.new) }
{
    let mut buffer = [0; LARGEST];
    let changed = changed_table(table, changes, &mut buffer)?;
    changes::abort(changed, marks, run)
}
