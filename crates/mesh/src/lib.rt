// The operation mesh: the most branches on a simple path of a clock mesh in which each branch lies on at most one ring.
// From each node the longest path is found over a spanning tree, ring by ring, each the longer way round.
#![tactic(auto)]

mod bands;
mod hang;
mod header;
mod repeats;
mod rows;
mod sweep;

ghost use Rattle.std.specs.Prelude.{ℕ, ◌≤◌, ◌<◌, ◌≡◌, List, MatchOption};
ghost use Rattle.table.specs.Header.{version_of};
ghost use Rattle.table.specs.Row.{Stands};
ghost use Rattle.net.specs.Net.{first_end, second_end};
ghost use Rattle.mesh.specs.Mesh.{OneRing};
ghost use Rattle.mesh.specs.Table.{MeshRows};
ghost use Rattle.mesh.specs.Answer.{MeshAnswer, mesh_refusal, MeshJoined, Answered, MeshOf};
ghost use Rattle.mesh.specs.work.Rows.{MeshReadable};
ghost use Rattle.mesh.specs.work.Hung.{HungAt};
ghost use Rattle.mesh.specs.work.Bands.{NoRepeat};
ghost use Rattle.mesh.specs.work.Roots.{FromRoot};

use crate::bands::Bands;
use crate::hang::Tree;
use crate::header::Head;
use crate::sweep::Swept;
use tree::Refusal;

// The most branches on a simple path, and the two ends of the first path that has so many.
#[derive(Clone, Copy)]
pub struct Most {
    pub branches: u16,
    pub low: u16,
    pub high: u16,
}

// What mesh gives.
pub type MeshAnswer = Result<Most, Refusal>;

// The most branches on a path from one root, and its other end.
#[derive(Clone, Copy)]
struct Far {
    branches: u16,
    node: usize,
}

// What the search from a root fills: lent to each root in turn, so that no root copies or moves an array.
#[derive(Drop)]
struct Work {
    tree: Tree,
    bands: Bands,
    swept: Swept,
}

// A mesh's refusals name no ring.
fn refusal(number: u8, row: usize) -> Refusal
    ensures { result ≡ record { number = number; row = row; ring = 0 } }
{
    Refusal {
        number,
        row,
        ring: 0,
    }
}

// The most branches on a simple path from node a; None for 38.
fn from_root(s: &[u8], head: Head, tree0: &Tree, a: usize, work: &mut Work) -> Option<Far>
    requires { MeshReadable s.now head.rows head.nodes
        × HungAt (first_end s.now) (second_end s.now) head.rows head.nodes 0
        tree0.now.par tree0.now.order tree0.now.place
        × NoRepeat (first_end s.now) (second_end s.now) head.rows × (a < head.nodes) }
    ensures { MatchOption result (¬ OneRing (first_end s.now) (second_end s.now) head.rows)
        (λ f. FromRoot (first_end s.now) (second_end s.now) head.rows a f.branches f.node × (f.node < head.nodes)) }
{
    hang::turn(head.nodes, tree0, a, &mut work.tree);
    if !bands::passes(s, head.rows, &work.tree, &mut work.bands.over) {
        return None;
    }
    bands::sizes(head.nodes, &mut work.bands);
    sweep::sweep(head.nodes, &work.tree, &work.bands, &mut work.swept);
    let node = sweep::farthest(&work.swept.most, head.nodes);
    Some(Far {
        branches: work.swept.most[node],
        node,
    })
}

// 37 and 38, and the most over all roots: of equal ones the first.
#[inline(never)]
fn from_all(s: &[u8], head: Head) -> MeshAnswer
    requires { MeshReadable s.now head.rows head.nodes × (0 < head.nodes)
        × NoRepeat (first_end s.now) (second_end s.now) head.rows }
    ensures { MeshJoined (first_end s.now) (second_end s.now) head.rows head.nodes result }
{
    let Some(tree) = hang::spread(s, head) else {
        return Err(refusal(37, 0));
    };
    let mut work = Work {
        tree: Tree {
            par: [0; 256],
            order: [0; 256],
            place: [0; 256],
        },
        bands: Bands {
            over: [0; 256],
            size: [0; 256],
        },
        swept: Swept {
            most: [0; 256],
            base: [0; 256],
            climb: [0; 256],
        },
    };
    let mut branches: u16 = 0;
    let mut low: usize = 0;
    let mut high: usize = 0;
    for a in 0..head.nodes {
        let Some(far) = from_root(s, head, &tree, a, &mut work) else {
            return Err(refusal(38, 0));
        };
        if branches < far.branches {
            branches = far.branches;
            low = a;
            high = far.node;
        }
    }
    Ok(Most {
        branches,
        low: low as u16,
        high: high as u16,
    })
}

// 7 to 10 row by row, then 36, then what the rows join.
fn tested(s: &[u8], head: Head) -> MeshAnswer
    requires { ((r : ℕ) → r < head.rows → Stands s.now r) × (version_of s.now ≡ 3)
        × (0 < head.nodes) × (head.nodes ≤ 256) }
    ensures { MeshRows MeshAnswer mesh_refusal s.now head.nodes head.rows
        (Answered (first_end s.now) (second_end s.now) head.rows head.nodes) result }
{
    if let Some(bad) = rows::first_bad(s, head) {
        return Err(refusal(bad.number, bad.row));
    }
    if let Some(r) = repeats::first_repeat(s, head) {
        return Err(refusal(36, r));
    }
    from_all(s, head)
}

pub fn mesh(s: &[u8]) -> MeshAnswer
    ensures { MeshOf s.now result }
{
    match header::open(s) {
        Err(number) => Err(refusal(number, 0)),
        Ok(head) => tested(s, head),
    }
}
