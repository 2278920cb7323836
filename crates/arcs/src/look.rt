// One look: the opposites of arcs looked up in a chunk, what is found marked. It fails where an arc goes from a node to
// itself, where a place is found a second time, where numbers that must be equal differ, and where in the end a place
// was not found.
ghost use Rattle.std.specs.Prelude.{◌≡◌, true, false, ℕ, ◌%◌, ◌≤◌, ◌<◌, length};
ghost use Rattle.arrays.specs.At.{at};
ghost use Rattle.arcs.specs.Arcs.{Arcs};
ghost use Rattle.arcs.specs.work.Chunk.{WholeIn, Searchable, Answers};
ghost use Rattle.arcs.specs.work.Look.{ChunkIn, ArcsIn};

use crate::chunk::{Chunk, Links, key_of, turned};

// Whether a place found is one that was not found before and, where the look is strict, its arc has the equal number.
// `strict` is a condition of this one test, and no step of its own: a closure in its place would say it in more words.
fn agree(strict: bool, seen: u8, mine: u64, other: u64) -> bool
    ensures { Answers ((seen ≡ 0) × (strict ≡ true → other % 4294967296 ≡ mine % 4294967296)) result }
{
    seen == 0 && (!strict || other % 4294967296 == mine % 4294967296)
}

// Looks the opposites of the arcs of one chunk up in another.
pub(crate) fn look(
    strict: bool,
    others: &Chunk,
    chunk: &Chunk,
    links: &Links,
    seen: &mut [u8; 8192],
) -> bool
    requires { (others.now.count ≤ 8192)
        × (length others.now.arcs ≡ 8192)
        × Searchable chunk.now.count chunk.now.arcs links.now.first links.now.next
        × (length seen.old ≡ 8192) }
    ensures { (length seen.new ≡ 8192)
        × ChunkIn strict others.now.count others.now.arcs chunk.now.count chunk.now.arcs seen.old seen.new result }
{
    for t in 0..others.count {
        let arc = others.arcs[t];
        let key = key_of(arc);
        let back = turned(key);
        if key == back {
            return false;
        }
        if let Some(i) = links.find(chunk, back) {
            if !agree(strict, seen[i], chunk.arcs[i], arc) {
                return false;
            }
            seen[i] = 1;
        }
    }
    true
}

// Whether every place below k is marked.
pub(crate) fn all_seen(seen: &[u8; 8192], k: usize) -> bool
    requires { (length seen.now ≡ 8192) × (k ≤ 8192) }
    ensures { Answers ((i : ℕ) → i < k → at seen.now i ≡ 0 → ⊥) result }
{
    seen[..k].iter().all(|x| *x != 0)
}

// The look of a text that stands whole in one chunk.
pub(crate) fn look_whole(
    strict: bool,
    others: &Chunk,
    chunk: &Chunk,
    links: &Links,
    seen: &mut [u8; 8192],
) -> bool
    requires { (others.now.count ≤ 8192)
        × (length others.now.arcs ≡ 8192)
        × Searchable chunk.now.count chunk.now.arcs links.now.first links.now.next }
    ensures { (B : Arcs) → WholeIn B others.now.count others.now.arcs
        → ArcsIn strict B chunk.now.count chunk.now.arcs result }
{
    *seen = [0; 8192];
    look(strict, others, chunk, links, seen) && all_seen(seen, chunk.count)
}
