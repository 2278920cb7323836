// The operation pair: the path between two nodes, its length, its weight under the marks, and the spines that it
// touches.
#![tactic(auto)]

ghost use Rattle.std.specs.Prelude.{◌≡◌, ◌-◌, length};
ghost use Rattle.net.specs.work.Net.{Net};
ghost use Rattle.net.specs.Net.{TwoNodes};
ghost use Rattle.reach.specs.work.Walked.{WalkOf};
ghost use Rattle.pair.specs.Pair.{ShowsPath, Measures, PairOf};
ghost use Rattle.pair.specs.work.Way.{WayOf};

use marks::measure_climb;
use reach::Walk;
use tree::Refusal;

// A path's length, weight and hops.
#[derive(Clone, Copy)]
pub struct Found {
    pub length: u32,
    pub weight: i64,
    pub hops: u16,
}

// What pair gives.
pub type PairAnswer = Result<Found, Refusal>;

// The path between a and b.
pub fn pair(s: &[u8], marks: &[u16], a: u16, b: u16) -> PairAnswer
    ensures { PairOf s.now marks.now a b result }
{
    // Acceptance uses the walk's arrays before there is a walk.
    let mut walk = Walk::new();
    let net = tree::accept_in(s, &mut walk)?;
    measure(s, marks, net.nodes, a, b, &mut walk)
}

// 13 and 15, then the path, of an accepted net.
fn measure(s: &[u8], marks: &[u16], nodes: u16, a: u16, b: u16, walk: &mut Walk) -> PairAnswer
    requires { Net s.now nodes }
    ensures { Measures s.now marks.now nodes a b result }
{
    let n = usize::from(nodes);
    if marks.len() != n - 1 {
        return Err(Refusal::MARKS);
    }
    if nodes <= a || nodes <= b || a == b {
        return Err(Refusal::NODES);
    }
    show(s, marks, nodes, a, b, walk)
}

// The path between two different nodes.
fn show(s: &[u8], marks: &[u16], nodes: u16, a: u16, b: u16, walk: &mut Walk) -> PairAnswer
    requires { Net s.now nodes × (length marks.now ≡ nodes - 1) × TwoNodes nodes a b }
    ensures { ShowsPath s.now marks.now nodes a b result }
{
    let mut head: [u16; 4096] = [0; 4096];
    let n = usize::from(nodes);
    let x = usize::from(a);
    let y = usize::from(b);
    tree::walk(s, nodes, walk);
    let way = way_between(s, marks, walk, n, x, y);
    // No climb reads rows any more: the main children stand where the half-branches were.
    spines::heads_of(&walk.parent, &walk.order, n, &mut walk.half, &mut head);
    let hops = spines::hops(&walk.parent, &walk.place, &head, n, x, y);
    let weight = table::lowered(way.weight);
    Ok(Found {
        length: way.length as u32,
        weight,
        hops,
    })
}

// The length of a path and its weight, lifted by 2^33.
#[derive(Clone, Copy)]
struct Way {
    length: u64,
    weight: u64,
}

// The path from x to y, by the climbs of both to where they meet.
fn way_between(s: &[u8], marks: &[u16], walk: &Walk, n: usize, x: usize, y: usize) -> Way
    requires { Net s.now n
        × (length marks.now ≡ n - 1)
        × TwoNodes n x y
        × WalkOf s.now n walk.now.parent walk.now.half walk.now.place }
    ensures { WayOf s.now marks.now n x y result.length result.weight }
{
    let t = tree::meet(&walk.parent, &walk.place, n, x, y);
    let ups = measure_climb(s, marks, &walk.parent, &walk.half, &walk.place, x, t);
    let downs = measure_climb(s, marks, &walk.parent, &walk.half, &walk.place, y, t);
    let length = ups.length + downs.length;
    let weight = ups.weight + downs.weight - table::SUM_LIFT;
    Way { length, weight }
}
