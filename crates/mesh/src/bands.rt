// The rows beside the tree: each closes a ring with it, and passes over the nodes whose own rows lie on that ring. Two
// such rows over one node are refused by 38.
ghost use Rattle.std.specs.Prelude.{ℕ, ◌≤◌, ◌<◌, ◌≡◌, ◌⊎◌, ◌≢◌, true, false, length};
ghost use Rattle.arrays.specs.At.{at};
ghost use Rattle.net.specs.Net.{first_end, second_end};
ghost use Rattle.mesh.specs.work.Rows.{MeshReadable};
ghost use Rattle.mesh.specs.work.Bands.{Later, NamedFrom, BandSizes, SomeRound, RoundEnd, SomeHung, PassesEnd};

use crate::hang::Tree;
use net::{first_end, second_end};

// Of two nodes the one that was hung up later.
fn later(place: &[u16; 256], x: usize, y: usize) -> usize
    requires { (x < 256) × (y < 256) }
    ensures { Later place.now x y result }
{
    if place[x] < place[y] { y } else { x }
}

// Names the band of the nodes that a row from p to q passes over: up from both ends to where they meet. False where one
// is of a band already.
fn round(tree: &Tree, p: usize, q: usize, over: &mut [u16; 256]) -> bool
    requires { SomeRound tree.now.par tree.now.place p q over.old }
    ensures { RoundEnd tree.now.par tree.now.place p q over.old over.new result }
{
    let band = later(&tree.place, p, q);
    let mut x = p;
    let mut y = q;
    while x != y {
        let z = later(&tree.place, x, y);
        if over[z] != 256 {
            return false;
        }
        over[z] = band as u16;
        y = x + y - z;
        x = usize::from(tree.par[z]);
    }
    true
}

// Neither of p and q is the other's parent; d and e are their parents.
fn extra(d: usize, e: usize, p: usize, q: usize) -> bool
    ensures { (result ≡ true → (d ≢ q) × (e ≢ p)) × (result ≡ false → (d ≡ q) ⊎ (e ≡ p)) }
{
    d != q && e != p
}

// For all rows that are no node's own; false as soon as two pass over one node.
pub(crate) fn passes(s: &[u8], rows: usize, tree: &Tree, over: &mut [u16; 256]) -> bool
    requires { MeshReadable s.now rows 256
        × SomeHung (first_end s.now) (second_end s.now) rows tree.now.par tree.now.place }
    ensures { PassesEnd (first_end s.now) (second_end s.now) rows tree.now.par tree.now.place over.new result }
{
    over.fill(256);
    for r in 0..rows {
        let p = first_end(s, r);
        let q = second_end(s, r);
        if extra(usize::from(tree.par[p]), usize::from(tree.par[q]), p, q)
            && !round(tree, p, q, over)
        {
            return false;
        }
    }
    true
}

// A node that no row passes over is a band by itself.
fn named(w: u16, x: usize) -> usize
    ensures { (w ≡ 256 → result ≡ x) × ((w ≡ 256 → ⊥) → result ≡ w) }
{
    if w == 256 { x } else { usize::from(w) }
}

// Each node's band, and how many nodes each band has. Before the bands are named `over` has 256, and no None, for a
// node that no row passes over: the named bands stand in the same places, and there every node has one.
#[derive(Drop)]
pub(crate) struct Bands {
    pub over: [u16; 256],
    pub size: [u16; 256],
}

// Names the bands of one node, and counts the nodes of each band.
pub(crate) fn sizes(n: usize, bands: &mut Bands)
    requires { (n ≤ 256) × (length bands.old.over ≡ 256) × ((x : ℕ) → x < n → at bands.old.over x ≤ 256) }
    ensures { NamedFrom n bands.old.over bands.new.over × (length bands.new.over ≡ 256)
        × BandSizes n bands.new.over bands.new.size }
{
    bands.size.fill(0);
    for x in 0..n {
        let g = named(bands.over[x], x);
        bands.over[x] = g as u16;
        bands.size[g] += 1;
    }
}
