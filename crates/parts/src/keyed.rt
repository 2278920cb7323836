// The two lists of one item and the keys of its spots: ku[x] = 2^40 + d[x] - 2 d[t] and wu[x] = 2^40 + w[x] - 2 w[t],
// t being the spine's node at which x hangs. The length from x to a spot y of a later item is then
// ku[x] + d[y] - 2^40, its weight wu[x] + w[y] - 2^40.
ghost use Rattle.std.specs.Prelude.{◌≡◌, ◌+◌, ◌≤◌, ◌<◌, length};
ghost use Rattle.arrays.specs.At.{at};
ghost use Rattle.parts.specs.work.Lift.{Low, World};
ghost use Rattle.parts.specs.work.Listed.{Sizes, Framed, SpanListed, Alone, RaisedKeys, Lone};

use crate::{KEY_LIFT, Lists, Spots};
use spans::copy;

// out[i] = 2^40 + from[i] - 2 from[p], for each spot i from s to e.
fn raise(out: &mut [u64; 4096], from: &[u64; 4096], p: usize, s: usize, e: usize)
    requires low { Low from.now × (length out.old ≡ 4096) }
    requires s_le_e { (s ≤ e) × (e ≤ 4096) × (p < 4096) }
    ensures { RaisedKeys from.now p s e out.old out.new }
{
    let base = KEY_LIFT - 2 * from[p];
    for i in s..e {
        out[i] = base + from[i];
    }
}

// The list of one spot.
fn put(out: &mut [u16; 4096], s: usize)
    requires { (length out.old ≡ 4096) × (s < 4096) }
    ensures { Alone s out.old out.new }
{
    out[s] = s as u16;
}

impl<'a> Lists<'a> {
    // A node of the spine: both lists are it alone, and it hangs at itself.
    pub(crate) fn alone(&mut self, spots: &Spots<'_>, s: usize)
        requires world { World spots.now.d.now spots.now.w.now × (s < 4096) }
        requires sizes { Sizes self.old.x.now self.old.y.now self.old.ku.now self.old.wu.now }
        ensures lone { Lone spots.now.d.now spots.now.w.now s s (s + 1) self.new.x.now
            self.new.y.now self.new.ku.now self.new.wu.now }
        ensures framed { Framed s (s + 1) self.old.x.now self.old.y.now self.old.ku.now self.old.wu.now
            self.new.x.now self.new.y.now self.new.ku.now self.new.wu.now }
        ensures spare { self.new.spare.now ≡ self.old.spare.now }
    {
        put(self.x, s);
        put(self.y, s);
        raise(self.ku, spots.d, s, s, s + 1);
        raise(self.wu, spots.w, s, s, s + 1);
    }

    // A hanging tree: its down list x serves as both, and each of its spots hangs at the tree's parent.
    pub(crate) fn hang(&mut self, spots: &Spots<'_>, s: usize, e: usize)
        requires world { World spots.now.d.now spots.now.w.now }
        requires sizes { Sizes self.old.x.now self.old.y.now self.old.ku.now self.old.wu.now }
        requires listed { SpanListed spots.now.d.now self.old.x.now s e }
        requires s_lt_e { (s < e) × (e ≤ 4096) × (at spots.now.parent.now s < 4096) }
        ensures lone { Lone spots.now.d.now spots.now.w.now (at spots.now.parent.now s) s e self.new.x.now
            self.new.y.now self.new.ku.now self.new.wu.now }
        ensures framed { Framed s e self.old.x.now self.old.y.now self.old.ku.now self.old.wu.now
            self.new.x.now self.new.y.now self.new.ku.now self.new.wu.now }
        ensures spare { self.new.spare.now ≡ self.old.spare.now }
    {
        let p = usize::from(spots.parent[s]);
        copy(self.x, self.y, s, e);
        raise(self.ku, spots.d, p, s, e);
        raise(self.wu, spots.w, p, s, e);
    }
}
