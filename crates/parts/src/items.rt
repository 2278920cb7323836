// The spots of a spine fall into items: a node of the spine alone, or a tree that hangs from it.
ghost use Rattle.std.specs.Prelude.{◌≤◌, ◌<◌};
ghost use Rattle.parts.specs.work.Parts.{Part};
ghost use Rattle.parts.specs.work.Items.{Owned, ItemEnd, Cut};

use crate::Spots;

impl<'a> Spots<'a> {
    // Whether the item at i is a node of the spine of h.
    pub(crate) fn own(&self, h: usize, i: usize) -> bool
        requires { i < 4096 }
        ensures { Owned self.now.head.now h i result }
    {
        usize::from(self.head[i]) == h
    }

    // Where the item at i of the spine of h ends.
    pub(crate) fn item_end(&self, h: usize, i: usize) -> usize
        requires { i < 4096 }
        ensures { ItemEnd self.now.stop.now self.now.head.now h i result }
    {
        if self.own(h, i) {
            i + 1
        } else {
            usize::from(self.stop[i])
        }
    }

    // The boundary of items nearest the middle of a part of two items or more.
    pub(crate) fn split(&self, h: usize, s: usize, e: usize) -> usize
        requires part { Part self.now.stop.now self.now.head.now self.now.parent.now h s e }
        requires s_lt_e { (s < e) × (e ≤ 4096) × (ItemEnd self.now.stop.now self.now.head.now h s e → ⊥) }
        ensures { Cut self.now.stop.now self.now.head.now self.now.parent.now h s e result }
    {
        let mid = s + (e - s) / 2;
        let mut prev = s;
        let mut i = self.item_end(h, s);
        while i < mid {
            prev = i;
            i = self.item_end(h, i);
        }
        if i == e || s < prev && mid - prev < i - mid {
            return prev;
        }
        i
    }
}
