// The row shown for a branch.
ghost use Rattle.changeset.specs.Shown.{PartShown};

use crate::entries::find;

// The caller's own 12 bytes: those of the change set where it has an entry for the row, else those of the table; an
// empty part where the table has no such row. Both slices have one lifetime, since the part may be of either.
pub fn shown<'a>(table: &'a [u8], changes: &'a [u8], row: usize) -> &'a [u8]
    ensures { PartShown table.now table.entry.ref_ptr changes.now changes.entry.ref_ptr
        row result.now result.ref_ptr }
{
    let own = table::row_part(table, row);
    if own.is_empty() {
        return own;
    }
    match find(changes, row) {
        Some(k) => {
            let a = 8 + 14 * k;
            &changes[a..a + 12]
        }
        None => own,
    }
}
