// The heaviest run over spots. The spots of a net are numbered so that each subtree is a span of spots: a node, then
// the trees that hang from it one after the other, then the rest of its spine. items.rt: the items of a spine, and
// where a part of it is cut; keyed.rt: the lists and keys of one item; spine.rt: a spine and the trees that hang from
// it, which call each other.
#![tactic(auto)]

mod items;
mod keyed;
mod spine;

pub use spine::whole;

// What is read of each spot: where its subtree ends, the head of its spine, its parent, both as spots, its node, and
// its distance and lifted weight from the root.
#[derive(Clone, Copy)]
pub struct Spots<'a> {
    pub stop: &'a [u16; 4096],
    pub head: &'a [u16; 4096],
    pub parent: &'a [u16; 4096],
    pub name: &'a [u16; 4096],
    pub d: &'a [u64; 4096],
    pub w: &'a [u64; 4096],
}

// What is written: for each part of a spine its two lists, x by d and y by ku, the two keys of its spots, and a list to
// merge in.
#[derive(Drop)]
pub struct Lists<'a> {
    pub x: &'a mut [u16; 4096],
    pub y: &'a mut [u16; 4096],
    pub ku: &'a mut [u64; 4096],
    pub wu: &'a mut [u64; 4096],
    pub spare: &'a mut [u16; 4096],
}

// What is added to a difference of distances, and of weights, from the root, so that it is a natural number.
pub const KEY_LIFT: u64 = 1099511627776;
