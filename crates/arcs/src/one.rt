// Texts whose arcs one chunk holds: each is read once, and everything else is done on the two chunks.
ghost use Rattle.std.specs.Prelude.{◌≡◌, List, ◌≤◌, length, Ok};
ghost use Rattle.roads.specs.Text.{Arc};
ghost use Rattle.roads.specs.work.Line.{KindFits};
ghost use Rattle.arcs.specs.Arcs.{Arcs, arcs_of};
ghost use Rattle.arcs.specs.work.Chunk.{TailOf, WholeIn, Buckets};
ghost use Rattle.arcs.specs.work.Look.{Decided};
ghost use Rattle.arcs.specs.work.Lay.{RowsMade};

use crate::chunk::{Chunk, Links, Road, Work};
use crate::lay::lay;
use crate::look::look_whole;

// 27 or 28; then the weight text's chunk is chained.
fn decide_one(
    lengths: &Chunk,
    weights: &Chunk,
    links: &mut Links,
    seen: &mut [u8; 8192],
) -> Result<(), u8>
    requires { (lengths.now.count ≤ 8192)
        × (weights.now.count ≡ lengths.now.count)
        × (length lengths.now.arcs ≡ 8192)
        × (length weights.now.arcs ≡ 8192) }
    ensures { (result ≡ Ok tt → Buckets weights.now.arcs weights.now.count links.new.first links.new.next)
        × ((L M : Arcs) → WholeIn L lengths.now.count lengths.now.arcs → WholeIn M weights.now.count weights.now.arcs
        → Decided L M result) }
{
    links.chain(lengths);
    if !look_whole(true, lengths, lengths, links, seen) {
        return Err(27);
    }
    let same = look_whole(false, weights, lengths, links, seen);
    links.chain(weights);
    if !look_whole(true, weights, weights, links, seen) {
        return Err(27);
    }
    if !same {
        return Err(28);
    }
    Ok(())
}

// 27, 28, or the rows where there are at most 4,095.
pub(crate) fn rows_one(
    s: Road,
    w: Road,
    m: usize,
    work: &mut Work,
    table: &mut [u8; 49152],
) -> Result<(), u8>
    requires { (la : List Arc)
        × (lb : List Arc)
        × TailOf s.kind s.text.now s.at m la
        × TailOf w.kind w.text.now w.at m lb
        × KindFits s.kind
        × KindFits w.kind
        × (m ≤ 8192)
        × (length table.old ≡ 49152) }
    ensures { (la : List Arc) → TailOf s.entry.kind s.entry.text.now s.entry.at m la → (lb : List Arc)
        → TailOf w.entry.kind w.entry.text.now w.entry.at m lb
        → RowsMade (arcs_of la) (arcs_of lb) table.old table.new result }
{
    let Work {
        one: lengths,
        other: weights,
        links,
        seen,
    } = work;
    lengths.load(s.text, s.at, s.kind, m);
    weights.load(w.text, w.at, w.kind, m);
    decide_one(lengths, weights, links, seen)?;
    if m <= 8190 {
        lay(lengths, weights, links, seen, table);
    }
    Ok(())
}
