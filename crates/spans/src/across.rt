// The best pair of places, one from each of two spans: going down the one and up the other, with the best partner that
// was passed.
ghost use Rattle.std.specs.Prelude.{◌<◌};
ghost use Rattle.limits.specs.work.Fits.{Fits};
ghost use Rattle.spans.specs.work.Pairs.{best4, Given, Joinable, JoinedBest};
ghost use Rattle.spans.specs.work.Partners.{Offered, Preferred, Picked, Walkable, Sofar, Advanced, Tried};

use crate::Spans;
use limits::{Limit, fits};

// The best pair so far: its weight and length, lifted, and its two nodes, lower first. Weight 0 stands for none, where
// an Option would say more: `whole` of parts and `heaviest_pair` of layout promise it (`best4 0 0 0 0`).
#[derive(Drop)]
pub struct Best {
    pub weight: u64,
    pub length: u64,
    pub low: usize,
    pub high: usize,
}

// The other span is passed up to `to`, and its best place so far is `node`.
#[derive(Drop)]
struct Partner {
    to: usize,
    node: usize,
}

// The better of the best so far and one more pair: greater weight, then shorter, then the earlier pair.
fn offer(best: Best, weight: u64, length: u64, low: usize, high: usize) -> Best
    ensures { Offered best (best4 weight length low high) result }
{
    if (weight, best.length, best.low, best.high) <= (best.weight, length, low, high) {
        return best;
    }
    Best {
        weight,
        length,
        low,
        high,
    }
}

// What stands at each place: its name, its key and weight as the upper of a pair, and as the lower.
#[derive(Clone, Copy)]
pub struct Places<'a> {
    pub name: &'a [u16; 4096],
    pub ku: &'a [u64; 4096],
    pub wu: &'a [u64; 4096],
    pub d: &'a [u64; 4096],
    pub w: &'a [u64; 4096],
}

impl<'a> Places<'a> {
    // The better partner of the two: greater weight, then nearer, then the lower name. Before the first (j is m) it is
    // the new one.
    fn prefer(&self, m: usize, j: usize, old: usize, new: usize) -> usize
        requires { (new < 4096) × (old < 4096) }
        ensures { Preferred self.now.name.now self.now.d.now self.now.w.now m j old new result }
    {
        let Places { name, d, w, .. } = *self;
        if m < j && (w[new], d[old], name[old]) < (w[old], d[new], name[new]) {
            return old;
        }
        new
    }

    // The partner to keep. Where the limit is exact the farther goes first: of those passed, only the farthest can
    // still reach it.
    fn pick(&self, m: usize, j: usize, old: usize, new: usize, exact: bool) -> usize
        requires { (new < 4096) × (old < 4096) }
        ensures { Picked exact self.now.name.now self.now.d.now self.now.w.now m j old new result }
    {
        if exact && self.d[new] > self.d[old] {
            return new;
        }
        self.prefer(m, j, old, new)
    }

    // Passes on while the place's key with `key` stays within the limit.
    fn advance(
        &self,
        down: &[u16; 4096],
        m: usize,
        e: usize,
        key: u64,
        limit: Limit,
        from: Partner,
    ) -> Partner
        requires walkable { Walkable self.now.d.now down.now m e key }
        requires sofar { Sofar limit.exact self.now.name.now self.now.d.now self.now.w.now down.now m e
            from.to from.node }
        ensures sofar_2 { Sofar limit.exact self.now.name.now self.now.d.now self.now.w.now down.now m e
            result.to result.node }
        ensures advanced { Advanced self.now.d.now down.now e key limit.most from.to result.to }
    {
        let mut node = from.node;
        for j in from.to..e {
            let y = usize::from(down[j]);
            if limit.most < key + self.d[y] {
                return Partner { to: j, node };
            }
            node = self.pick(m, j, node, y, limit.exact);
        }
        Partner { to: e, node }
    }

    // Offers the pair of x and its best partner, where one was passed (beyond m) and the two fit the limit.
    fn try_pair(&self, m: usize, x: usize, partner: &Partner, limit: Limit, best: Best) -> Best
        requires given { Given self.now.ku.now self.now.wu.now self.now.d.now self.now.w.now }
        requires x_bound { (x < 4096) × (partner.now.node < 4096) }
        ensures { Tried (Fits limit) self.now.name.now self.now.ku.now self.now.wu.now self.now.d.now
            self.now.w.now m partner.now.to x partner.now.node best result }
    {
        let y = partner.node;
        let length = self.ku[x] + self.d[y];
        if partner.to <= m || !fits(limit, length) {
            return best;
        }
        let weight = self.wu[x] + self.w[y];
        let a = usize::from(self.name[x]);
        let b = usize::from(self.name[y]);
        offer(best, weight, length, a.min(b), a.max(b))
    }

    // The best of `best` and the pairs of a place x of up's span, from s to m, and a place y of down's, from m to e,
    // with ku[x] + d[y] at most `limit`, or exactly it. up is sorted by ku, down by d.
    pub fn join(
        &self,
        up: &[u16; 4096],
        down: &[u16; 4096],
        spans: Spans,
        limit: Limit,
        best: Best,
    ) -> Best
        requires { Joinable self.now.ku.now self.now.wu.now self.now.d.now self.now.w.now up.now down.now
            spans.s spans.m spans.e }
        ensures { JoinedBest self.now.name.now self.now.ku.now self.now.wu.now self.now.d.now self.now.w.now
            up.now down.now spans.s spans.m spans.e (Fits limit) best result }
    {
        let Spans { s, m, e } = spans;
        let mut all = best;
        let mut passed = Partner { to: m, node: 0 };
        for i in (s..m).rev() {
            let x = usize::from(up[i]);
            passed = self.advance(down, m, e, self.ku[x], limit, passed);
            all = self.try_pair(m, x, &passed, limit, all);
        }
        all
    }
}
