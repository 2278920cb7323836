// The pair with the most branches: for each first node in turn the counts and weights of its paths, and of the second
// nodes those that pass. Only more branches take a pair's place, so that among equals the earlier pair stays.
ghost use Rattle.std.specs.Prelude.{◌+◌, ◌≤◌, ◌<◌, false, ◌≡◌};
ghost use Rattle.limits.specs.work.Fits.{Decides};
ghost use Rattle.pages.specs.work.Lowered.{InSums};
ghost use Rattle.pages.specs.work.Filling.{Here};
ghost use Rattle.paths.specs.work.Ground.{Ground};
ghost use Rattle.paths.specs.work.Paths.{ArraysLent};
ghost use Rattle.window.specs.work.Best.{InLimits, BetterOf, Bettered, Stand, Best};

use pages::Sums;
use paths::Swept;

// The branch counts that pass.
#[derive(Clone, Copy)]
pub(crate) struct CountLimits {
    pub(crate) fewest: u64,
    pub(crate) most: u64,
}

// A pair, its branch count and its lifted weight; count 0 is none. hit is 1 where the first node that was looked at
// last has a pair of that count. No Option: each pair's count is compared with this one, which would be taken out of it
// each time; hit goes into an array of numbers.
#[derive(Clone, Copy)]
pub(crate) struct Found {
    pub(crate) low: usize,
    pub(crate) high: usize,
    pub(crate) count: u64,
    pub(crate) weight: u64,
    pub(crate) hit: u16,
}

// Whether a count and a lifted weight pass, and the count is no less than the one that is given.
fn takes(y: u64, x: u64, counts: CountLimits, sums: Sums, count: u64) -> bool
    ensures { Decides (InLimits counts y × InSums sums x × (count ≤ y)) result }
{
    count <= y && counts.fewest <= y && y <= counts.most && sums.floor <= x && x < sums.end
}

// The pair u, v in the best pair's place where it has more branches; else it has as many, and the earlier pair stays.
fn better(b: Found, u: usize, v: usize, y: u64, x: u64) -> Found
    ensures { BetterOf b u v y x result }
{
    if b.count < y {
        return Found {
            low: u,
            high: v,
            count: y,
            weight: x,
            hit: 1,
        };
    }
    Found { hit: 1, ..b }
}

// The second nodes of u in turn.
fn among(
    key: &[u64; 4096],
    wt: &[u64; 4096],
    u: usize,
    n: usize,
    counts: CountLimits,
    sums: Sums,
    b: Found,
) -> Found
    requires { (u < n) × (n ≤ 4096) }
    ensures { Bettered (Here (InLimits counts) key.now key.now wt.now u (u + 1)
        sums n) b result }
{
    let mut best = Found { hit: 0, ..b };
    for v in u + 1..n {
        if takes(key[v], wt[v], counts, sums, best.count) {
            best = better(best, u, v, key[v], wt[v]);
        }
    }
    best
}

// Whether the search may end: no pair has more branches than the upper limit. Where all first nodes are to be looked
// at, never.
// `all` is a condition of this one test, and no step of its own.
fn met(count: u64, counts: CountLimits, all: bool) -> bool
    ensures { Decides ((all ≡ false) × (count ≡ counts.most)) result }
{
    !all && count == counts.most
}

// The best of the pairs whose first node is `first` or a later one; both operations begin with 0. In ones each
// branch is 1 long, so that the lengths of paths are their branch counts; above, key and wt are work arrays of the
// paths. hits gets 1 for every first node that may have a pair of the best one's count; who asks for these, to look at
// no others, has all first nodes looked at.
pub(crate) fn best(
    ones: &Swept<'_>,
    first: usize,
    all: bool,
    counts: CountLimits,
    sums: Sums,
    above: &mut [u16; 4096],
    key: &mut [u64; 4096],
    wt: &mut [u64; 4096],
    hits: &mut [u16; 4096],
) -> Found
    requires { Ground ones.now.n ones.now.parent.now ones.now.order.now ones.now.place.now ones.now.bl.now
        ones.now.bw.now
        × ArraysLent above.old key.old wt.old }
    ensures { ((g : Stand ones.now.n ones.now.parent.now ones.now.order.now ones.now.place.now ones.now.bl.now
        ones.now.bw.now sums)
        → Best first counts g hits.new result)
        × ArraysLent above.new key.new wt.new }
{
    hits.fill(1);
    let mut b = Found {
        low: 0,
        high: 0,
        count: 0,
        weight: 0,
        hit: 0,
    };
    let n = ones.n;
    for u in first..n {
        if met(b.count, counts, all) {
            return b;
        }
        ones.paths_from(u, above, key, wt);
        b = among(key, wt, u, n, counts, sums, b);
        hits[u] = b.hit;
    }
    b
}
