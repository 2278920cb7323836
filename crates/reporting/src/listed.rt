// Pieces of the pairs' lines: those of the rows of the page that was last asked for, and then of the page after it.
ghost use Rattle.std.specs.Prelude.{◌≤◌, ◌<◌, ◌≡◌, length};
ghost use Rattle.reporting.specs.work.Asked.{ListingReady, Asked};
ghost use Rattle.reporting.specs.work.Pieces.{ReportLent, Going, Shown};

use crate::{Pairs, Piece};
use numbers::two;
use paging::Rows;

// As many rows' lines as one piece has at the most.
const LINES: usize = 600;

// A page of the pairs after (low, high): of an accepted table, with a mark for each branch and room for a row, it is
// not refused.
pub(crate) fn ask(s: &[u8], marks: &[u16], floor: i64, low: u16, high: u16, rows: &mut [u8]) -> Rows
    requires { ListingReady s.now marks.now rows.old }
    ensures { Asked s.now marks.now floor low high rows.new result.written
        result.left }
{
    listing::listing(s, marks, floor, low, high, rows).unwrap()
}

// The lines of exactly the page's next rows, as many as a piece has.
pub(crate) fn some_rows(s: &[u8], out: &mut [u8], rows: &[u8], pairs: Pairs, at: usize) -> Piece
    requires { (65536 ≤ length out.old) × (pairs.row < pairs.page.written) × Going s.now rows.now pairs at }
    ensures { Shown s.now rows.now out.new result × (result.place ≡ at) }
{
    let i = pairs.row;
    let e = i + (pairs.page.written - i).min(LINES);
    let n = lines::pairs(out, rows, i, e);
    Piece {
        n,
        place: at,
        pairs: Some(Pairs { row: e, ..pairs }),
    }
}

// The page after the last row of this one, and the lines of its first rows.
pub(crate) fn next_page(
    s: &[u8],
    branches: &[u16],
    rows: &mut [u8],
    out: &mut [u8],
    pairs: Pairs,
    at: usize,
) -> Piece
    requires { ReportLent branches.now rows.old out.old
        × (pairs.page.written ≤ pairs.row)
        × (0 < pairs.page.left)
        × Going s.now rows.old pairs at }
    ensures { Shown s.now rows.new out.new result × (result.place ≡ at) }
{
    let m = usize::from(pairs.nodes) - 1;
    let i = 16 * (pairs.page.written - 1);
    let low = two(rows, i) as u16;
    let high = two(rows, i + 2) as u16;
    let page = ask(s, &branches[..m], pairs.floor, low, high, rows);
    let next = Pairs {
        page,
        row: 0,
        ..pairs
    };
    some_rows(s, out, rows, next, at)
}
