// The changed table of an operation, in a buffer of the operation's own.
ghost use Rattle.std.specs.Prelude.{Ok, Err, MatchResult};
ghost use Rattle.frozen.specs.work.Changed.{Makes};

use tree::Refusal;

// The bytes of the largest table: 12 for each of 4,096 nodes.
pub(crate) const LARGEST: usize = 49152;

// The table with the rows of its set written in; or why it cannot be: 1 to 6, 33 or 34. It hands the table back, and
// takes no closure to ask: an operation's closure holds the lent marks or rows, and where it is dropped, not called,
// nothing would say that these stay as they were.
#[tactic(auto, using(changeset::proofs::Withs::written_fits))]
pub(crate) fn changed_table<'a>(
    table: &[u8],
    changes: &[u8],
    buffer: &'a mut [u8; LARGEST],
) -> Result<&'a [u8], Refusal>
    ensures { MatchResult result (λ t. Makes table.now changes.now (Ok t.now))
        (λ why. Makes table.now changes.now (Err why)) }
{
    changeset::write_in(table, changes, buffer)?;
    Ok(&buffer[..table.len()])
}
