// What a sweep over an accepted net stands on: its walk, and each node's own branch, under the marks.
#![tactic(auto)]

ghost use Rattle.net.specs.work.Net.{Net};
ghost use Rattle.ground.specs.work.Grounded.{BranchesReadable, Branches, Grounded};

use reach::Walk;

// The walk of an accepted net, and its branches. A sweep that stands on them reads no half-branches any more: half is
// then the caller's to lend on.
pub fn grounded(
    s: &[u8],
    marks: &[u16],
    nodes: u16,
    walk: &mut Walk,
    bl: &mut [u64; 4096],
    bw: &mut [u64; 4096],
)
    requires { Net s.now nodes }
    ensures { Grounded s.now marks.now nodes walk.new.parent walk.new.half
        walk.new.order walk.new.place bl.new bw.new }
{
    tree::walk(s, nodes, walk);
    branches(s, marks, &walk.half, usize::from(nodes), bl, bw);
}

// For each node but 0 the length and the lifted weight of the branch to its parent,
// a marked one as the marks crate has it.
fn branches(
    s: &[u8],
    marks: &[u16],
    half: &[u16; 4096],
    n: usize,
    bl: &mut [u64; 4096],
    bw: &mut [u64; 4096],
)
    requires { BranchesReadable s.now n half.now }
    ensures { Branches s.now marks.now half.now n bl.new
        bw.new }
{
    bl.fill(0);
    bw.fill(0);
    for x in 1..n {
        let r = usize::from(half[x]) / 2;
        bl[x] = u64::from(table::row_at(s, r).length);
        bw[x] = u64::from(marks::lifted_under(s, marks, r));
    }
}
