// A spanning tree: nodes are hung up one by one, each below one that hangs already and by a row that joins the two.
// From node 0 it is found by the rows; from any other node it is the same tree, turned.
ghost use Rattle.std.specs.Prelude.{ℕ, ◌≤◌, ◌<◌, ◌≡◌, ◌≢◌, true, false, set, MatchOption};
ghost use Rattle.arrays.specs.At.{at};
ghost use Rattle.net.specs.Net.{first_end, second_end};
ghost use Rattle.mesh.specs.work.Rows.{MeshReadable};
ghost use Rattle.mesh.specs.Mesh.{Connected};
ghost use Rattle.mesh.specs.work.Hung.{
  RootAlone,
  OneTaken,
  Alike,
  Closed,
  Leads,
  HungAt,
  SomeTree,
  TurnedTo,
};

use crate::header::Head;
use net::{first_end, second_end};

// For each node its parent, the nodes in the order in which they were hung up, and for each node its place in that
// order, 256 for one that does not hang: as Options each comparison of two places in `later` would unwrap both.
#[derive(Drop)]
pub(crate) struct Tree {
    pub par: [u16; 256],
    pub order: [u16; 256],
    pub place: [u16; 256],
}

impl Tree {
    // The root alone, in place of what hung here.
    fn start(&mut self, a: usize)
        requires { a < 256 }
        ensures { RootAlone a self.new.par self.new.order self.new.place }
    {
        self.par.fill(0);
        self.order.fill(0);
        self.place.fill(256);
        self.par[a] = a as u16;
        self.order[0] = a as u16;
        self.place[a] = 0;
    }

    // Hangs c up below d, in the order as the m-th.
    fn hang(&mut self, m: usize, c: usize, d: usize)
        requires { (m < 256) × (c < 256) × (d < 256) }
        ensures { (self.new.par ≡ set self.old.par c d)
            × (self.new.order ≡ set self.old.order m c) × (self.new.place ≡ set self.old.place c m) }
    {
        self.par[c] = d as u16;
        self.order[m] = c as u16;
        self.place[c] = m as u16;
    }
}

// Of two places one is taken and the other is not.
fn lone(p: u16, q: u16) -> bool
    ensures { (result ≡ true → OneTaken p q) × (result ≡ false → Alike p q) }
{
    (p == 256) != (q == 256)
}

// The first row with exactly one end in the tree.
fn leads(s: &[u8], rows: usize, place: &[u16; 256]) -> Option<usize>
    requires { MeshReadable s.now rows 256 }
    ensures { MatchOption result (Closed (first_end s.now) (second_end s.now) rows place.now)
        (λ r. Leads (first_end s.now) (second_end s.now) rows place.now r) }
{
    for r in 0..rows {
        if lone(place[first_end(s, r)], place[second_end(s, r)]) {
            return Some(r);
        }
    }
    None
}

// Of the ends of a row that leads on the one that does not hang yet; t is the first one's place.
fn new_end(t: u16, p: usize, q: usize) -> usize
    ensures { (t ≡ 256 → result ≡ p) × ((t ≡ 256 → ⊥) → result ≡ q) }
{
    if t == 256 { p } else { q }
}

// Whether some node does not hang in the tree.
fn missing(place: &[u16; 256], n: usize) -> bool
    requires { n ≤ 256 }
    ensures { (result ≡ true → (x : ℕ) × (x < n) × (at place.now x ≡ 256))
        × (result ≡ false → (x : ℕ) → x < n → at place.now x ≢ 256) }
{
    place[..n].contains(&256)
}

// All nodes that are joined to node 0, hung up there; None where these are not all n.
pub(crate) fn spread(s: &[u8], head: Head) -> Option<Tree>
    requires { MeshReadable s.now head.rows head.nodes × (0 < head.nodes) }
    ensures { MatchOption result (¬ Connected (first_end s.now) (second_end s.now) head.rows head.nodes)
        (λ t. HungAt (first_end s.now) (second_end s.now) head.rows head.nodes 0 t.par t.order t.place) }
{
    let mut tree = Tree {
        par: [0; 256],
        order: [0; 256],
        place: [0; 256],
    };
    tree.start(0);
    let mut m: usize = 1;
    while let Some(r) = leads(s, head.rows, &tree.place) {
        let p = first_end(s, r);
        let q = second_end(s, r);
        let c = new_end(tree.place[p], p, q);
        let d = p + q - c;
        tree.hang(m, c, d);
        m += 1;
    }
    if missing(&tree.place, head.nodes) {
        return None;
    }
    Some(tree)
}

// The tree of node 0 hung up at node a: first the climb from a to node 0, turned round, then every other node below its
// old parent, in the old order. Into a tree that is lent, since it is done for each root.
pub(crate) fn turn(n: usize, old: &Tree, a: usize, tree: &mut Tree)
    requires { SomeTree n old.now.par old.now.order × (a < n) }
    ensures { TurnedTo n old.now.par old.now.order a tree.new.par tree.new.order tree.new.place }
{
    tree.start(a);
    let mut m: usize = 1;
    let mut x = a;
    while x != 0 {
        let p = usize::from(old.par[x]);
        tree.hang(m, p, x);
        m += 1;
        x = p;
    }
    for i in 1..n {
        let y = usize::from(old.order[i]);
        if tree.place[y] == 256 {
            let p = usize::from(old.par[y]);
            tree.hang(m, y, p);
            m += 1;
        }
    }
}
