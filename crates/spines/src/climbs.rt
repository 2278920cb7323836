// Hops: the number of different spines that the path between two nodes touches, counted along the two climbs to where
// they meet.
ghost use Rattle.std.specs.Prelude.{◌<◌};
ghost use Rattle.spines.specs.work.Parents.{Spined, HopsBy};
ghost use Rattle.spines.specs.work.Climbs.{One, HeadsClimbable, PassedHeads};

// 1 where v is its own head, and else 0.
fn one(head: &[u16; 4096], v: usize) -> usize
    requires { v < 4096 }
    ensures { One head.now v result }
{
    usize::from(usize::from(head[v]) == v)
}

// How many heads the climb from x to t passes.
fn passed_heads(
    parent: &[u16; 4096],
    place: &[u16; 4096],
    head: &[u16; 4096],
    x: usize,
    t: usize,
) -> usize
    requires { HeadsClimbable parent.now place.now head.now x t }
    ensures { (k : HeadsClimbable parent.now place.now head.now x t)
        → PassedHeads k.n parent.now place.now x t result }
{
    let mut v = x;
    let mut passed: usize = 0;
    while v != t {
        passed += one(head, v);
        v = usize::from(parent[v]);
    }
    passed
}

// Between crates: the hops of the path from x to y.
// Parents and places alone, and not the walk: its half-branches and its order have other things by then.
pub fn hops(
    parent: &[u16; 4096],
    place: &[u16; 4096],
    head: &[u16; 4096],
    n: usize,
    x: usize,
    y: usize,
) -> u16
    requires { Spined n parent.now place.now head.now × (x < n) × (y < n) }
    ensures { HopsBy n parent.now place.now x y result }
{
    let t = tree::meet(parent, place, n, x, y);
    let i = passed_heads(parent, place, head, x, t);
    let j = passed_heads(parent, place, head, y, t);
    (1 + i + j) as u16
}
