// The rows of a version 3 table, each by itself: refusals 7 to 10.
ghost use Rattle.std.specs.Prelude.{ℕ, ◌<◌, ◌≡◌, ◌≢◌, MatchOption};
ghost use Rattle.table.specs.Header.{version_of};
ghost use Rattle.table.specs.Row.{Stands};
ghost use Rattle.table.specs.Examine.{RowNumber};
ghost use Rattle.mesh.specs.work.Rows.{FirstBadRow};

use crate::header::Head;

// A row that is refused, and by which number.
#[derive(Drop)]
pub(crate) struct BadRow {
    pub number: u8,
    pub row: usize,
}

// The first of 7 to 10 that a row meets.
fn row_number(s: &[u8], r: usize, n: usize) -> Option<u8>
    requires { Stands s.now r × (version_of s.now ≡ 3) }
    ensures { MatchOption result (RowNumber n s.now r 0) (λ k. RowNumber n s.now r k × (k ≢ 0)) }
{
    let q = table::row_at(s, r);
    let a = usize::from(q.a);
    let b = usize::from(q.b);
    if n <= a || n <= b {
        return Some(7);
    }
    if a == b {
        return Some(8);
    }
    if 1000000 < q.length {
        return Some(9);
    }
    if q.weight < -1000000 || 1000000 < q.weight {
        return Some(10);
    }
    None
}

// Every row in order.
pub(crate) fn first_bad(s: &[u8], head: Head) -> Option<BadRow>
    requires { ((r : ℕ) → r < head.rows → Stands s.now r) × (version_of s.now ≡ 3) }
    ensures { MatchOption result ((r : ℕ) → r < head.rows → RowNumber head.nodes s.now r 0)
        (λ t. FirstBadRow s.now head.nodes head.rows t.number t.row) }
{
    for r in 0..head.rows {
        if let Some(number) = row_number(s, r, head.nodes) {
            return Some(BadRow { number, row: r });
        }
    }
    None
}
