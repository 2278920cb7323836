// Texts of more arcs than a chunk holds: the same look, by chunks of one text, and for each of them by chunks of the
// other. Such texts make no rows here.
ghost use Rattle.std.specs.Prelude.{◌≡◌, List};
ghost use Rattle.roads.specs.Text.{Arc};
ghost use Rattle.roads.specs.work.Line.{KindFits};
ghost use Rattle.arcs.specs.Arcs.{arcs_of};
ghost use Rattle.arcs.specs.work.Chunk.{TailOf, Searchable};
ghost use Rattle.arcs.specs.work.Look.{ArcsIn, Looked, Decided};

use crate::chunk::{Chunk, Links, Road, Work};
use crate::look::{all_seen, look};

// Looks the opposites of all arcs of a text up in a chunk.
fn stream(
    b: Road,
    m: usize,
    strict: bool,
    chunk: &Chunk,
    links: &Links,
    others: &mut Chunk,
    seen: &mut [u8; 8192],
) -> bool
    requires { KindFits b.kind × Searchable chunk.now.count chunk.now.arcs links.now.first links.now.next }
    ensures { (all : List Arc) → TailOf b.entry.kind b.entry.text.now b.entry.at m all
        → ArcsIn strict (arcs_of all) chunk.now.count chunk.now.arcs result }
{
    *seen = [0; 8192];
    let mut c = b.at;
    for start in (0..m).step_by(8192) {
        c = others.load(b.text, c, b.kind, (m - start).min(8192));
        if !look(strict, others, chunk, links, seen) {
            return false;
        }
    }
    all_seen(seen, chunk.count)
}

// Whether each arc of a has its one opposite in b; where it is strict, with equal number. No arc of b goes from a node
// to itself.
fn meets(a: Road, b: Road, m: usize, strict: bool, work: &mut Work) -> bool
    requires { KindFits a.kind × KindFits b.kind }
    ensures { (x : List Arc) → TailOf a.entry.kind a.entry.text.now a.entry.at m x → (y : List Arc)
        → TailOf b.entry.kind b.entry.text.now b.entry.at m y → Looked strict (arcs_of x) (arcs_of y) result }
{
    let mut c = a.at;
    for start in (0..m).step_by(8192) {
        c = work.one.load(a.text, c, a.kind, (m - start).min(8192));
        work.links.chain(&work.one);
        if !stream(
            b,
            m,
            strict,
            &work.one,
            &work.links,
            &mut work.other,
            &mut work.seen,
        ) {
            return false;
        }
    }
    true
}

// 27 or 28.
pub(crate) fn decide_many(s: Road, w: Road, m: usize, work: &mut Work) -> Result<(), u8>
    requires { KindFits s.kind × KindFits w.kind }
    ensures { (x : List Arc) → TailOf s.entry.kind s.entry.text.now s.entry.at m x → (y : List Arc)
        → TailOf w.entry.kind w.entry.text.now w.entry.at m y → Decided (arcs_of x) (arcs_of y) result }
{
    if !meets(s, s, m, true, work) || !meets(w, w, m, true, work) {
        return Err(27);
    }
    if !meets(s, w, m, false, work) {
        return Err(28);
    }
    Ok(())
}
