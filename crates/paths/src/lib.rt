// The lengths and the lifted weights of the paths from one node to every node: one climb from it to node 0, then one
// sweep over the order of the walk, each node's value from its parent's.
#![tactic(auto)]

ghost use Rattle.std.specs.Prelude.{◌≤◌, ◌≡◌, length};
ghost use Rattle.paths.specs.work.Ground.{Ground};
ghost use Rattle.paths.specs.work.Paths.{Paths, Begun, ArraysLent};
ghost use Rattle.paths.specs.work.Sweeps.{Cleared, Climbable, Marked, Sweepable, Sweeping, Steps, StepMade};

// What a row's weight is lifted by, as sums of weights are carried.
const ROW_LIFT: u64 = table::ROW_LIFT as u64;

// What is swept: for each of n nodes its parent, its place in the order of a walk, and the length and the lifted
// weight of its own branch, the one to its parent; for each place the node.
#[derive(Clone, Copy)]
pub struct Swept<'a> {
    pub n: usize,
    pub parent: &'a [u16; 4096],
    pub order: &'a [u16; 4096],
    pub place: &'a [u16; 4096],
    pub bl: &'a [u64; 4096],
    pub bw: &'a [u64; 4096],
}

// The length of a path and its weight, lifted by 2^33.
#[derive(Clone, Copy)]
struct Far {
    length: u64,
    weight: u64,
}

// No flag of the n nodes is set. The places past them are left: who sweeps from many nodes of a small net would pay for
// all 4,096 each time.
fn clear(above: &mut [u16; 4096], n: usize)
    requires { (n ≤ 4096) × (length above.old ≡ 4096) }
    ensures { Cleared n above.new }
{
    above[..n].fill(0);
}

// A branch nearer where the flag is 1, a branch further otherwise. A flag is a number, and no bool: the array of flags
// that the caller of paths_from lends is one of 16-bit words.
fn step(flag: u16, l: u64, w: u64, f: u64, y: u64) -> Far
    requires { Steps flag l w f y }
    ensures { StepMade flag l w f y result.length result.weight }
{
    if flag == 1 {
        Far {
            length: l - f,
            weight: w + ROW_LIFT - y,
        }
    } else {
        Far {
            length: l + f,
            weight: w + y - ROW_LIFT,
        }
    }
}

impl Swept<'_> {
    // The path from a to node 0. Marks the nodes on it: a and those above it.
    fn climb(&self, a: usize, above: &mut [u16; 4096]) -> Far
        requires { Climbable self.now.n a self.now.parent.now self.now.place.now self.now.bl.now self.now.bw.now
            × (length above.old ≡ 4096) }
        ensures { ((k : Climbable self.now.n a self.now.parent.now self.now.place.now self.now.bl.now self.now.bw.now)
            → Marked k.ground a result.length result.weight above.new)
            × (length above.new ≡ 4096) }
    {
        clear(above, self.n);
        let mut x = a;
        let mut length: u64 = 0;
        let mut weight: u64 = table::SUM_LIFT;
        while x != 0 {
            above[x] = 1;
            length += self.bl[x];
            weight = weight + self.bw[x] - ROW_LIFT;
            x = usize::from(self.parent[x]);
        }
        Far { length, weight }
    }

    // Each node in turn from its parent, beginning with node 0 at `top`.
    fn sweep(
        &self,
        above: &[u16; 4096],
        a: usize,
        top: Far,
        len: &mut [u64; 4096],
        wt: &mut [u64; 4096],
    )
        requires { Sweepable self.now.n a top.length top.weight self.now.parent.now self.now.order.now
            self.now.bl.now self.now.bw.now above.now
            × (length len.old ≡ 4096)
            × (length wt.old ≡ 4096) }
        ensures { Sweeping self.now.n a top.length top.weight self.now.parent.now self.now.order.now
            self.now.bl.now self.now.bw.now above.now self.now.n len.new wt.new }
    {
        len[0] = top.length;
        wt[0] = top.weight;
        for i in 1..self.n {
            let x = usize::from(self.order[i]);
            let p = usize::from(self.parent[x]);
            let far = step(above[x], len[p], wt[p], self.bl[x], self.bw[x]);
            len[x] = far.length;
            wt[x] = far.weight;
        }
    }

    // The paths from a to every node: their lengths, and their lifted weights.
    pub fn paths_from(
        &self,
        a: usize,
        above: &mut [u16; 4096],
        len: &mut [u64; 4096],
        wt: &mut [u64; 4096],
    )
        requires { Begun self.now.n a self.now.parent.now self.now.order.now self.now.place.now
            self.now.bl.now self.now.bw.now
            × ArraysLent above.old len.old wt.old }
        ensures { ((g : Ground self.now.n self.now.parent.now self.now.order.now self.now.place.now
            self.now.bl.now self.now.bw.now)
            → Paths g a len.new wt.new)
            × ArraysLent above.new len.new wt.new }
    {
        let top = self.climb(a, above);
        self.sweep(above, a, top, len, wt);
    }
}
