// The entries of a change set: how many there are, which is for a row, and whether the set is formed as one (33).
ghost use Rattle.std.specs.Prelude.{◌≡◌, ◌+◌, ◌≤◌, ◌<◌, length, MatchOption};
ghost use Rattle.table.specs.Bytes.{u16_at};
ghost use Rattle.limits.specs.work.Fits.{Decides};
ghost use Rattle.changeset.specs.Entries.{Formed};
ghost use Rattle.changeset.specs.Shown.{FirstFor, Unchanged};
ghost use Rattle.changeset.specs.work.Search.{EntryCount};

// A number of 16 bits.
pub(crate) fn number_at(c: &[u8], i: usize) -> usize
    requires { i + 2 ≤ length c.now }
    ensures { (result ≡ u16_at c.now i) × (result < 65536) }
{
    numbers::two(c, i) as usize
}

// How many entries stand in a set, whole ones.
pub(crate) fn count(c: &[u8]) -> usize
    ensures { EntryCount c.now result }
{
    c.len().saturating_sub(6) / 14
}

// The first entry for a row. A plain search: a set need not rise to be asked.
pub(crate) fn find(c: &[u8], row: usize) -> Option<usize>
    ensures { MatchOption result (Unchanged c.now row) (FirstFor c.now row) }
{
    for i in 0..count(c) {
        if number_at(c, 6 + 14 * i) == row {
            return Some(i);
        }
    }
    None
}

// Whether the set has the letters, the version, the sort, and a size of 6 plus a multiple of 14.
pub(crate) fn formed(c: &[u8]) -> bool
    ensures { Decides (Formed c.now) result }
{
    if c.len() < 6
        || c[0] != b'R'
        || c[1] != b'T'
        || c[2] != b'N'
        || number_at(c, 3) != 1
        || c[5] != 1
    {
        return false;
    }
    (c.len() - 6) % 14 == 0
}
