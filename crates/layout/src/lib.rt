// The nodes of a net numbered by spots, so that what is below a node is a span of spots and each spine's items follow
// each other: a node, then the trees that hang from it one after the other, then the rest of its spine. seats.rt gives
// each node its spot; laid.rt lays out arrays by spot; the lists of crate parts then find the best pair, and the tables
// of crate figures any pair's path.
#![tactic(auto)]

ghost use Rattle.std.specs.Prelude.{◌≡◌, ◌<◌};
ghost use Rattle.reach.specs.work.Grown.{Grown};
ghost use Rattle.net.specs.Value.{Value};
ghost use Rattle.spines.specs.work.Parents.{HeadsAll, SizesAll};
ghost use Rattle.paths.specs.work.Ground.{Ground};
ghost use Rattle.limits.specs.work.Fits.{Fits};
ghost use Rattle.layout.specs.work.BestPair.{BestPair};
ghost use Rattle.layout.specs.work.Seats.{Seating};
ghost use Rattle.layout.specs.work.Laid.{Layable, LaidOut};
ghost use Rattle.layout.specs.work.Spotted.{Spotted};

use crate::laid::{lay_long, lay_names, lay_spots, lay_stops};
use crate::seats::seats;
use limits::Limit;
use parts::{KEY_LIFT, Lists, Spots, whole};
use paths::Swept;
use reach::Walk;
use spans::Best;
use spines::{heads_of, sizes_of};

mod laid;
mod seats;

// The head, the size and the spot of each node. The main children stand where the next free spots then do. The arrays,
// and not the walk: heads go into one of the walk's for `heaviest_pair`, and into one of its own for `spots_of`.
fn number(
    parent: &[u16; 4096],
    order: &[u16; 4096],
    place: &[u16; 4096],
    n: usize,
    head: &mut [u16; 4096],
    size: &mut [u16; 4096],
    spot: &mut [u16; 4096],
    next: &mut [u16; 4096],
)
    requires { Grown n parent.now order.now place.now }
    ensures heads_all { HeadsAll n parent.now head.new }
    ensures sizes_all { SizesAll n parent.now size.new }
    ensures seating { Seating n parent.now place.now head.new size.new n spot.new next.new }
{
    heads_of(parent, order, n, next, head);
    sizes_of(parent, order, n, size);
    seats(parent, order, place, head, size, n, spot, next);
}

// All that `whole` reads, by spot, each in an array that is not read by node any more: where spans end in order, the
// heads in size, the parents in half, the names in parent; d and w, the distance and the lifted weight of each node
// from the root, in far and heavy.
fn lay_out(
    walk: &mut Walk,
    size: &mut [u16; 4096],
    spot: &[u16; 4096],
    d: &[u64; 4096],
    w: &[u64; 4096],
    n: usize,
    far: &mut [u64; 4096],
    heavy: &mut [u64; 4096],
)
    requires { Layable n walk.old.parent walk.old.half size.old spot.now }
    ensures { LaidOut n walk.old.parent walk.old.half size.old spot.now d.now w.now
        walk.new.order size.new walk.new.half walk.new.parent far.new heavy.new }
{
    lay_stops(spot, size, n, &mut walk.order);
    lay_spots(spot, &walk.half, n, size);
    lay_spots(spot, &walk.parent, n, &mut walk.half);
    lay_names(spot, n, &mut walk.parent);
    lay_long(spot, d, n, far);
    lay_long(spot, w, n, heavy);
}

// Between crates: the heaviest pair of nodes whose path's length fits the limit. bl and bw hold, for each node but 0,
// the length and the lifted weight of the branch to its parent; half is lent for the heads. Each array serves again
// once it is not read any more, so what the lent ones held is lost. The answer's length and weight are lifted by 2^40;
// weight 0 is none.
pub fn heaviest_pair(
    walk: &mut Walk,
    bl: &mut [u64; 4096],
    bw: &mut [u64; 4096],
    n: usize,
    limit: Limit,
) -> Best
    requires ground { Ground n walk.old.parent walk.old.order walk.old.place bl.old bw.old }
    requires most_bound { limit.most < 4294967296 }
    ensures { (g : Ground n walk.old.parent walk.old.order walk.old.place bl.old bw.old)
        → BestPair (Value g.u g.v g.k g.long g.heavy) n (Fits limit) result }
{
    let mut size: [u16; 4096] = [0; 4096];
    let mut spot: [u16; 4096] = [0; 4096];
    let mut next: [u16; 4096] = [0; 4096];
    let mut d: [u64; 4096] = [0; 4096];
    let mut w: [u64; 4096] = [0; 4096];
    // next has the flags of the paths, then main children, then next free spots.
    let swept = Swept {
        n,
        parent: &walk.parent,
        order: &walk.order,
        place: &walk.place,
        bl,
        bw,
    };
    swept.paths_from(0, &mut next, &mut d, &mut w);
    number(
        &walk.parent,
        &walk.order,
        &walk.place,
        n,
        &mut walk.half,
        &mut size,
        &mut spot,
        &mut next,
    );
    lay_out(walk, &mut size, &spot, &d, &w, n, bl, bw);
    let spots = Spots {
        stop: &walk.order,
        head: &size,
        parent: &walk.half,
        name: &walk.parent,
        d: bl,
        w: bw,
    };
    let lists = Lists {
        x: &mut spot,
        y: &mut next,
        ku: &mut d,
        wu: &mut w,
        spare: &mut walk.place,
    };
    let lifted = Limit {
        most: limit.most + KEY_LIFT,
        ..limit
    };
    whole(&spots, lists, n, lifted)
}

// Between crates: each node's spot, in spot, and by spot what tells the path between any two nodes: the spot of the
// parent, left in order, and the distance and the lifted weight from node 0, left in bl and bw. What those held is
// lost. Parents and places are read alone, and no half-branch is asked for: so the arrays, and not the walk.
pub fn spots_of(
    parent: &[u16; 4096],
    order: &mut [u16; 4096],
    place: &[u16; 4096],
    bl: &mut [u64; 4096],
    bw: &mut [u64; 4096],
    n: usize,
    spot: &mut [u16; 4096],
)
    requires { Ground n parent.now order.old place.now bl.old bw.old }
    ensures { (g : Ground n parent.now order.old place.now bl.old bw.old)
        → Spotted (Value g.u g.v g.k g.long g.heavy) n spot.new order.new bl.new bw.new }
{
    let mut head: [u16; 4096] = [0; 4096];
    let mut size: [u16; 4096] = [0; 4096];
    let mut next: [u16; 4096] = [0; 4096];
    let mut d: [u64; 4096] = [0; 4096];
    let mut w: [u64; 4096] = [0; 4096];
    // next has the flags of the paths, then main children, then next free spots.
    let swept = Swept {
        n,
        parent,
        order,
        place,
        bl,
        bw,
    };
    swept.paths_from(0, &mut next, &mut d, &mut w);
    number(
        parent, order, place, n, &mut head, &mut size, spot, &mut next,
    );
    lay_spots(spot, parent, n, order);
    lay_long(spot, &d, n, bl);
    lay_long(spot, &w, n, bw);
}
