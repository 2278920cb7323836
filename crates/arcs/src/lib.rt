// Arcs matched: refusals 27 and 28 of two road-graph texts that have passed 25 and 26, and the rows of the table made
// of them. chunk.rt copies arcs of a text into arrays, where they are found again; look.rt is the one look that 27 and
// 28 come from; one.rt and many.rt are what is done with texts that one chunk holds, and with others; lay.rt lays the
// rows.
#![tactic(auto)]

ghost use Rattle.std.specs.Prelude.{◌≡◌, List, length};
ghost use Rattle.roads.specs.Text.{Arc};
ghost use Rattle.arcs.specs.Arcs.{arcs_of};
ghost use Rattle.arcs.specs.work.Chunk.{ArcsFrom};
ghost use Rattle.arcs.specs.work.Lay.{RowsMade};

mod chunk;
mod lay;
mod look;
mod many;
mod one;

use chunk::{Chunk, Links, Road, Work};
use many::decide_many;
use one::rows_one;
use roads::{Kind, LENGTH_LOW, LENGTH_TOP, WEIGHT_LOW, WEIGHT_TOP};

// 27 or 28 of m arcs each that stand from place i on in the length text and from place j on in the weight text; else
// the table has the rows, from byte 12 on, unless there are more than 4,095. Between crates.
pub fn rows(
    s: &[u8],
    i: usize,
    w: &[u8],
    j: usize,
    nodes: u16,
    m: usize,
    table: &mut [u8; 49152],
) -> Result<(), u8>
    requires { (la : List Arc)
        × (lb : List Arc)
        × ArcsFrom 4294967295 0 nodes s.now i m la
        × ArcsFrom 2147483647 2147483648 nodes w.now j m lb
        × (length table.old ≡ 49152) }
    ensures { (la : List Arc) → ArcsFrom 4294967295 0 nodes s.now i m la → (lb : List Arc)
        → ArcsFrom 2147483647 2147483648 nodes w.now j m lb
        → RowsMade (arcs_of la) (arcs_of lb) table.old table.new result }
{
    let mut work = Work {
        one: Chunk {
            arcs: [0; 8192],
            count: 0,
        },
        other: Chunk {
            arcs: [0; 8192],
            count: 0,
        },
        links: Links {
            first: [0; 8192],
            next: [0; 8192],
        },
        seen: [0; 8192],
    };
    let lengths = Road {
        text: s,
        at: i,
        kind: Kind {
            nodes,
            top: LENGTH_TOP,
            low: LENGTH_LOW,
        },
    };
    let weights = Road {
        text: w,
        at: j,
        kind: Kind {
            nodes,
            top: WEIGHT_TOP,
            low: WEIGHT_LOW,
        },
    };
    if m <= 8192 {
        rows_one(lengths, weights, m, &mut work, table)
    } else {
        decide_many(lengths, weights, m, &mut work)
    }
}
