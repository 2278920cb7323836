// Writing the road-graph texts.
ghost use Rattle.frozen.specs.Calls.{WriteWith};

use crate::changed::{LARGEST, changed_table};
use dimacs::WriteAnswer;

// The two texts of a table of version 1; any other version is refused before the change set is looked at.
pub fn write_with(
    table: &[u8],
    changes: &[u8],
    lengths: &mut [u8],
    weights: &mut [u8],
) -> WriteAnswer
    ensures { WriteWith table.now changes.now lengths.old weights.old
        (result, lengths.new, weights.new) }
{
    dimacs::version_one(table)?;
    let mut buffer = [0; LARGEST];
    let changed = changed_table(table, changes, &mut buffer)?;
    dimacs::write(changed, lengths, weights)
}
