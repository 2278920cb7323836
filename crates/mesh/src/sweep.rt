// The most branches on a path from the root to each node, from the parent's.
ghost use Rattle.std.specs.Prelude.{◌≡◌, ◌+◌, ◌≤◌, ◌<◌, length};
ghost use Rattle.arrays.specs.At.{at};
ghost use Rattle.mesh.specs.work.Hung.{InOrder};
ghost use Rattle.mesh.specs.work.Bands.{BandSizes};
ghost use Rattle.mesh.specs.work.Sweep.{LongerWay, SweptOn, Computed, Farthest};

use crate::bands::Bands;
use crate::hang::Tree;

#[derive(Drop)]
struct Step {
    base: u16,
    climb: u16,
}

// Where the ring goes on it begins as for the parent; else it begins at the parent.
fn advance(f: u16, g: u16, d: u16, b: u16, i: u16) -> Step
    requires { i < 1000 }
    ensures { SweptOn f g d b i result.base result.climb }
{
    if f == g {
        Step {
            base: b,
            climb: i + 1,
        }
    } else {
        Step { base: d, climb: 1 }
    }
}

// The longer way round a ring of m + 1 rows, i of them the one way, after b rows.
fn best(b: u16, i: u16, m: u16) -> u16
    requires { (b + 256 < 65536) × (0 < i) × (i ≤ 256) × (m ≤ 256) }
    ensures { LongerWay b i m result }
{
    if i + i > m { b + i } else { b + (m + 1 - i) }
}

// For each node the most branches on a path to it, and the two ways round its ring: how many come before the ring, and
// how many lie on it the one way.
#[derive(Drop)]
pub(crate) struct Swept {
    pub most: [u16; 256],
    pub base: [u16; 256],
    pub climb: [u16; 256],
}

// Root first, each node after its parent.
pub(crate) fn sweep(n: usize, tree: &Tree, bands: &Bands, swept: &mut Swept)
    requires { InOrder n tree.now.par tree.now.order × BandSizes n bands.now.over bands.now.size }
    ensures { Computed n (at tree.now.order 0) tree.now.par bands.now.over swept.new.most
        swept.new.base swept.new.climb × (length swept.new.most ≡ 256) }
{
    swept.most.fill(0);
    swept.base.fill(0);
    swept.climb.fill(0);
    for j in 1..n {
        let z = usize::from(tree.order[j]);
        let p = usize::from(tree.par[z]);
        let f = bands.over[z];
        let t = advance(
            bands.over[p],
            f,
            swept.most[p],
            swept.base[p],
            swept.climb[p],
        );
        let d = best(t.base, t.climb, bands.size[usize::from(f)]);
        swept.base[z] = t.base;
        swept.climb[z] = t.climb;
        swept.most[z] = d;
    }
}

// The first node with the greatest value.
pub(crate) fn farthest(d: &[u16; 256], n: usize) -> usize
    requires { (0 < n) × (n ≤ 256) }
    ensures { Farthest n d.now result }
{
    let mut z: usize = 0;
    for x in 1..n {
        if d[x] > d[z] {
            z = x;
        }
    }
    z
}
