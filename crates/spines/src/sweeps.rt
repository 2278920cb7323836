// Sweeps over the walk's order: the leaves below each node, its main child, its head. The counts may stand in the array
// that then holds the heads: heads are found by the main children alone.
ghost use Rattle.std.specs.Prelude.{ℕ, ◌≤◌, ◌<◌, List};
ghost use Rattle.reach.specs.work.Grown.{Ordered};
ghost use Rattle.spines.specs.work.Parents.{HeadsAll};
ghost use Rattle.spines.specs.work.Sweeps.{Owns, Sums, LeavesAll, Parented, MainsAll, MainTaken, Follows};

// How many of some nodes are below each node, itself among them: backward over the order, `own` makes a node's number
// of the sum that its children gave it, and the number goes to its parent.
pub(crate) fn sum_up<F: Fn(u16) -> u16>(
    parent: &[u16; 4096],
    order: &[u16; 4096],
    n: usize,
    own: F,
    sum: &mut [u16; 4096],
)
    requires ordered { Ordered n parent.now order.now }
    requires owned { (L : List ℕ) × Owns L n parent.now (F.pre own) (F.post own) }
    ensures { (L : List ℕ) → Owns L n parent.now (F.pre own) (F.post own) → Sums L n parent.now sum.new }
{
    sum.fill(0);
    for i in (1..n).rev() {
        let v = usize::from(order[i]);
        let p = usize::from(parent[v]);
        let w = own(sum[v]);
        let y = sum[p] + w;
        sum[v] = w;
        sum[p] = y;
    }
    sum[0] = own(sum[0]);
}

// How many leaves are below each node: one with no leaves strictly below it is a leaf, and counts itself.
pub(crate) fn leaves_of(
    parent: &[u16; 4096],
    order: &[u16; 4096],
    n: usize,
    leaves: &mut [u16; 4096],
)
    requires { Ordered n parent.now order.now }
    ensures { LeavesAll n parent.now leaves.new }
{
    sum_up(parent, order, n, |x| x.max(1), leaves);
}

// The better of two children, q before c; 4096 is no child, and no None: children stand in the array of 16-bit words
// that the caller of heads_of lends.
fn better(leaves: &[u16; 4096], q: usize, c: usize) -> usize
    requires { (q ≤ 4096) × (c < 4096) }
    ensures { MainTaken leaves.now q c result }
{
    if q == 4096 || leaves[q] < leaves[c] {
        c
    } else {
        q
    }
}

// The main child of each node, 4096 for a leaf: over the node numbers, so that the lowest among equals comes first.
pub(crate) fn mains_of(parent: &[u16; 4096], leaves: &[u16; 4096], n: usize, main: &mut [u16; 4096])
    requires { Parented n parent.now × LeavesAll n parent.now leaves.now }
    ensures { MainsAll n parent.now main.new }
{
    main.fill(4096);
    for c in 1..n {
        let p = usize::from(parent[c]);
        let q = usize::from(main[p]);
        main[p] = better(leaves, q, c) as u16;
    }
}

// The head of v, whose parent has the main child q and the head h.
fn follow(v: usize, q: u16, h: u16) -> u16
    requires { v < 4096 }
    ensures { Follows v q h result }
{
    if usize::from(q) == v { h } else { v as u16 }
}

// The head of each node, forward over the order.
pub(crate) fn follow_mains(
    parent: &[u16; 4096],
    order: &[u16; 4096],
    main: &[u16; 4096],
    n: usize,
    head: &mut [u16; 4096],
)
    requires { Ordered n parent.now order.now × MainsAll n parent.now main.now }
    ensures { HeadsAll n parent.now head.new }
{
    head.fill(0);
    for i in 1..n {
        let v = usize::from(order[i]);
        let p = usize::from(parent[v]);
        head[v] = follow(v, main[p], head[p]);
    }
}
