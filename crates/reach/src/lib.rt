// The walk from a node by a queue, over chains of half-branches: 2r and 2r + 1 are row r, left by its first end and by
// its second.
#![tactic(auto)]

ghost use Rattle.std.specs.Prelude.{◌≡◌, ◌+◌, ◌*◌, ◌/◌, ◌<◌};
ghost use Rattle.arrays.specs.At.{at};
ghost use Rattle.arrays.specs.work.Filled.{Filled};
ghost use Rattle.table.specs.Row.{Stands};
ghost use Rattle.net.specs.Net.{first_end, second_end};
ghost use Rattle.reach.specs.work.Half.{from};
ghost use Rattle.reach.specs.work.Walked.{WalkedFrom};
ghost use Rattle.net.specs.work.Rows.{Readable};
ghost use Rattle.reach.specs.work.Chains.{Chained};
ghost use Rattle.reach.specs.work.Queue.{Outer, Visits};
ghost use Rattle.reach.specs.work.Placing.{Once, Placed, Places};

use net::{first_end, second_end};

// The walk: for each node its parent, the half-branch by which it was reached and its place in the order; for each
// place the node. Each array has 4,096 places, whatever the net: no heap, and room for every accepted one.
#[derive(Drop)]
pub struct Walk {
    pub parent: [u16; 4096],
    pub half: [u16; 4096],
    pub order: [u16; 4096],
    pub place: [u16; 4096],
}

impl Walk {
    // Arrays to walk in, all zeros.
    pub fn new() -> Walk
        ensures { Filled 4096 0 result.parent
            × Filled 4096 0 result.half
            × Filled 4096 0 result.order
            × Filled 4096 0 result.place }
    {
        Walk {
            parent: [0; 4096],
            half: [0; 4096],
            order: [0; 4096],
            place: [0; 4096],
        }
    }
}

// The node that half-branch h leaves.
fn leaves(s: &[u8], h: usize) -> usize
    requires { Stands s.now (h / 2) }
    ensures { result ≡ from (first_end s.now) (second_end s.now) h }
{
    if h % 2 == 0 {
        return first_end(s, h / 2);
    }
    second_end(s, h / 2)
}

// The node that it leads to.
fn leads(s: &[u8], h: usize) -> usize
    requires { Stands s.now (h / 2) }
    ensures { result ≡ from (second_end s.now) (first_end s.now) h }
{
    if h % 2 == 0 {
        return second_end(s, h / 2);
    }
    first_end(s, h / 2)
}

// For each node the chain of the half-branches that leave it, each by one more than its number, from the highest down
// to 0. Numbers, and no Option: an array of Options would take twice the memory.
fn chains(s: &[u8], rows: usize, first: &mut [u16; 4096], next: &mut [u16; 8192])
    requires { Readable s.now rows }
    ensures { Chained (first_end s.now) (second_end s.now) rows (2 * rows)
        first.new next.new }
{
    first.fill(0);
    next.fill(0);
    let end = 2 * rows;
    for h in 0..end {
        let v = leaves(s, h);
        next[h] = first[v];
        first[v] = (h + 1) as u16;
    }
}

// Reaches the nodes next to the one at the place head. tail nodes have been reached; the answer is how many then.
// The chains begin in the walk's array of places, which is read while the other three are written: so the arrays, and
// not the walk.
fn visit(
    s: &[u8],
    rows: usize,
    first: &[u16; 4096],
    next: &[u16; 8192],
    parent: &mut [u16; 4096],
    half: &mut [u16; 4096],
    order: &mut [u16; 4096],
    head: usize,
    tail: usize,
) -> usize
    requires { Visits (at order.old 0) s.now rows first.now next.now head tail parent.old half.old
        order.old }
    ensures { Placed (Outer (at order.old 0) (first_end s.now)
        (second_end s.now) rows (head + 1) result parent.new half.new order.new) }
{
    let p = usize::from(order[head]);
    let mut m = tail;
    let mut x = usize::from(first[p]);
    while x > 0 {
        let h = x - 1;
        let c = leads(s, h);
        if parent[c] == 4096 {
            parent[c] = p as u16;
            half[c] = h as u16;
            order[m] = c as u16;
            m += 1;
        }
        x = usize::from(next[h]);
    }
    m
}

// All nodes that are joined to the node start: every place starts as unvisited, and the answer is how many were
// reached.
fn reach(
    s: &[u8],
    rows: usize,
    start: usize,
    first: &[u16; 4096],
    next: &[u16; 8192],
    parent: &mut [u16; 4096],
    half: &mut [u16; 4096],
    order: &mut [u16; 4096],
) -> usize
    requires { (start < 4096)
        × Readable s.now rows
        × Chained (first_end s.now) (second_end s.now) rows (2 * rows) first.now next.now }
    ensures { Placed (WalkedFrom start (first_end s.now) (second_end s.now) rows result
        parent.new half.new order.new) }
{
    // 4096 is no parent, a form that document 01 names (docs/FORMS.md).
    *parent = [4096; 4096];
    half.fill(0);
    order.fill(0);
    parent[start] = start as u16;
    order[0] = start as u16;
    let mut head: usize = 0;
    let mut tail: usize = 1;
    while head < tail {
        tail = visit(s, rows, first, next, parent, half, order, head, tail);
        head += 1;
    }
    tail
}

// For each of the n nodes in the order its place there, and 0 for the others.
fn places(order: &[u16; 4096], n: usize, place: &mut [u16; 4096])
    requires { Once n order.now }
    ensures { Places n order.now place.new }
{
    place.fill(0);
    for i in 0..n {
        let x = usize::from(order[i]);
        place[x] = i as u16;
    }
}

// Between crates: the chains, the walk over them, and the places. The answer, how many nodes were reached, is there for
// the promise.
pub fn walk_from(s: &[u8], rows: usize, start: usize, walk: &mut Walk) -> usize
    requires { (start < 4096) × Readable s.now rows }
    ensures { WalkedFrom start (first_end s.now) (second_end s.now) rows result
        walk.new.parent walk.new.half walk.new.order walk.new.place }
{
    let mut next: [u16; 8192] = [0; 8192];
    // Until the walk is over the array of places has where each node's chain begins.
    chains(s, rows, &mut walk.place, &mut next);
    let n = reach(
        s,
        rows,
        start,
        &walk.place,
        &next,
        &mut walk.parent,
        &mut walk.half,
        &mut walk.order,
    );
    places(&walk.order, n, &mut walk.place);
    n
}
