// The rows: of two texts that have passed 27 and 28, each whole in a chunk.
ghost use Rattle.std.specs.Prelude.{◌≡◌, ◌+◌, ◌*◌, ◌/◌, ◌%◌, ◌≤◌, ◌<◌, length};
ghost use Rattle.std.proofs.lemmas.List.Edits.{sets};
ghost use Rattle.arcs.specs.Arcs.{Arcs};
ghost use Rattle.arcs.specs.Made.{row_bytes};
ghost use Rattle.arcs.specs.work.Lay.{arc_fields, RowsLaid, LayReady};

use crate::chunk::{Chunk, Links, key_of, turned};
use numbers::put_bytes;

// Row c: an arc's nodes less 1 each, its length, and the number of the other arc, its branch's weight.
fn put_row(table: &mut [u8; 49152], c: usize, arc: u64, other: u64)
    requires { (c < 4095)
        × (length table.old ≡ 49152)
        × (1 ≤ arc / 4294967296 / 65536)
        × (1 ≤ arc / 4294967296 % 65536) }
    ensures { table.new ≡ sets table.old (12 * c + 12) (row_bytes (arc_fields arc other)) }
{
    let at = 12 * c + 12;
    let key = arc / 4294967296;
    put_bytes(table, at, key / 65536 - 1, 2);
    put_bytes(table, at + 2, key % 65536 - 1, 2);
    put_bytes(table, at + 4, arc % 4294967296, 4);
    put_bytes(table, at + 8, other % 4294967296, 4);
}

// The rows in the order of the branches' first arcs. An arc is its branch's first if its opposite's place in the weight
// text is not marked yet; its branch's weight stands at its own place there. Both are there: the texts have the same
// branches.
pub(crate) fn lay(
    lengths: &Chunk,
    weights: &Chunk,
    links: &Links,
    seen: &mut [u8; 8192],
    table: &mut [u8; 49152],
)
    requires { (L : Arcs)
        × (M : Arcs)
        × LayReady L M lengths.now.count lengths.now.arcs weights.now.arcs links.now.first links.now.next
        × (weights.now.count ≡ lengths.now.count)
        × (length table.old ≡ 49152) }
    ensures { (L M : Arcs)
        → LayReady L M lengths.now.count lengths.now.arcs weights.now.arcs links.now.first links.now.next
        → RowsLaid L M L.count table.old table.new }
{
    *seen = [0; 8192];
    let mut c = 0;
    for j in 0..lengths.count {
        let arc = lengths.arcs[j];
        let key = key_of(arc);
        let y = links.find(weights, turned(key)).unwrap();
        if seen[y] == 0 {
            let x = links.find(weights, key).unwrap();
            seen[x] = 1;
            put_row(table, c, arc, weights.arcs[x]);
            c += 1;
        }
    }
}
