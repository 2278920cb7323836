// The first row whose ends earlier rows already join, by union by rank: each node climbs to a root, joined nodes to the
// same, and a row links two roots.
#![tactic(auto)]

ghost use Rattle.std.specs.Prelude.{◌<◌};
ghost use Rattle.net.specs.Net.{first_end, second_end};
ghost use Rattle.net.specs.work.Rows.{Readable};
ghost use Rattle.ring.specs.work.Union.{Numbered, Rises, Root, FirstRing, Linkable, Union};

use net::{first_end, second_end};

// Sets each place to its own number.
fn number(up: &mut [u16; 4096])
    ensures { Numbered 4096 up.new }
{
    for i in 0..4096 {
        up[i] = i as u16;
    }
}

// Climbs from x to its root.
fn find(up: &[u16; 4096], rank: &[u16; 4096], x: usize) -> usize
    requires { (x < 4096) × Rises up.now rank.now 4096 }
    ensures { Root up.now x result }
{
    let mut t = x;
    loop {
        let p = usize::from(up[t]);
        if p == t {
            return t;
        }
        t = p;
    }
}

// Puts the root q above the root p, or the other way round: the one of higher rank goes above.
fn link(up: &mut [u16; 4096], rank: &mut [u16; 4096], p: usize, q: usize)
    requires { Linkable p q rank.old }
    ensures { Union p q up.old rank.old up.new rank.new }
{
    let a = rank[p];
    let b = rank[q];
    if b < a {
        up[q] = p as u16;
    } else {
        up[p] = q as u16;
        if a == b {
            rank[q] = b + 1;
        }
    }
}

// Between crates: the first row whose ends the rows before it join, or the number of rows. The arrays are lent for the
// climbs and the ranks, and nothing is promised of them.
pub fn first_ring(s: &[u8], rows: usize, up: &mut [u16; 4096], rank: &mut [u16; 4096]) -> usize
    requires { Readable s.now rows }
    ensures { FirstRing (first_end s.now) (second_end s.now) rows result }
{
    number(up);
    rank.fill(0);
    for r in 0..rows {
        let p = find(up, rank, first_end(s, r));
        let q = find(up, rank, second_end(s, r));
        if p == q {
            return r;
        }
        link(up, rank, p, q);
    }
    rows
}
