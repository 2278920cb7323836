// Each node's spot, forward over the walk: a node, then the trees that hang from it one after the other,
// then the rest of its spine.
ghost use Rattle.std.specs.Prelude.{◌<◌};
ghost use Rattle.arrays.specs.At.{at};
ghost use Rattle.reach.specs.work.Grown.{Grown};
ghost use Rattle.spines.specs.work.Parents.{SizesAll};
ghost use Rattle.layout.specs.work.Seats.{SeatRoom, Seated, Seating};

// A node's spot, and its parent's next free spot.
#[derive(Drop)]
struct Seat {
    spot: u16,
    next: u16,
}

// The seat of v, a child of p: on p's spine it ends where p ends, else it takes p's next free spot.
fn seat_of(
    head: &[u16; 4096],
    size: &[u16; 4096],
    spot: &[u16; 4096],
    next: &[u16; 4096],
    p: usize,
    v: usize,
) -> Seat
    requires p_bound { (p < 4096) × (v < 4096) }
    requires seat_room { SeatRoom (at spot.now p) (at next.now p) (at size.now p) (at size.now v) }
    ensures { Seated (at head.now v) (at head.now p) (at spot.now p)
        (at next.now p) (at size.now p) (at size.now v) result.spot result.next }
{
    if head[v] == head[p] {
        return Seat {
            spot: spot[p] + size[p] - size[v],
            next: next[p],
        };
    }
    Seat {
        spot: next[p],
        next: next[p] + size[v],
    }
}

// The spot of each node.
pub(crate) fn seats(
    parent: &[u16; 4096],
    order: &[u16; 4096],
    place: &[u16; 4096],
    head: &[u16; 4096],
    size: &[u16; 4096],
    n: usize,
    spot: &mut [u16; 4096],
    next: &mut [u16; 4096],
)
    requires grown { Grown n parent.now order.now place.now }
    requires sizes_all { SizesAll n parent.now size.now }
    ensures { Seating n parent.now place.now head.now size.now n spot.new next.new }
{
    spot.fill(0);
    next.fill(1);
    for i in 1..n {
        let v = usize::from(order[i]);
        let p = usize::from(parent[v]);
        let t = seat_of(head, size, spot, next, p, v);
        spot[v] = t.spot;
        next[p] = t.next;
        next[v] = t.spot + 1;
    }
}
