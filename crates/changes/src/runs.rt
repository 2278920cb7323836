// Runs: which numbers are one's, and which marks a run holds.
ghost use Rattle.std.specs.Prelude.{◌≡◌, true, false};
ghost use Rattle.marks.specs.Mark.{HeldBy, RunNumber};

use marks::{FREE, UNKNOWN, is_spent, run_of};

// 14.
pub(crate) fn not_a_run(run: u16) -> bool
    ensures { (result ≡ true → RunNumber run → ⊥) × (result ≡ false → RunNumber run) }
{
    run == FREE || UNKNOWN <= run
}

// Whether the run holds a mark, unspent.
pub(crate) fn holds(run: u16, mark: u16) -> bool
    ensures { (result ≡ true → HeldBy run mark) × (result ≡ false → HeldBy run mark → ⊥) }
{
    mark != FREE && !is_spent(mark) && run_of(mark) == run
}
