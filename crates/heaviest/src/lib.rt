// The operations heaviest and heaviest_exact: of the pairs within the bound, or of exactly its length, the one of
// greatest weight; among equals the shorter, then the earlier pair.
#![tactic(auto)]

ghost use Rattle.std.specs.Prelude.{◌≡◌, ◌<◌};
ghost use Rattle.table.specs.Header.{bound_of};
ghost use Rattle.net.specs.work.Net.{Net};
ghost use Rattle.limits.specs.work.Fits.{Within, Fits};
ghost use Rattle.layout.specs.work.BestPair.{BestPair};
ghost use Rattle.heaviest.specs.Heaviest.{Chooses, HeaviestWithin, HeaviestOf, HeaviestExactOf};
ghost use Rattle.ground.specs.PathOf.{PathOf};

use ground::grounded;
use limits::Limit;
use parts::KEY_LIFT;
use reach::Walk;
use spans::Best;
use tree::Refusal;

// The two nodes, lower first, with the length and the weight of their path.
#[derive(Clone, Copy)]
pub struct Between {
    pub low: u16,
    pub high: u16,
    pub length: u32,
    pub weight: i64,
}

// What heaviest gives.
pub type HeaviestAnswer = Result<Between, Refusal>;

// The best pair of an accepted net, its length and weight lifted by 2^40; weight 0 is none. Of the walk half
// then serves for the heads.
fn search(s: &[u8], marks: &[u16], nodes: u16, limit: Limit, walk: &mut Walk) -> Best
    requires net { Net s.now nodes }
    requires most_bound { limit.most < 4294967296 }
    ensures { BestPair (PathOf s.now marks.now nodes) nodes (Fits limit) result }
{
    let mut bl: [u64; 4096] = [0; 4096];
    let mut bw: [u64; 4096] = [0; 4096];
    grounded(s, marks, nodes, walk, &mut bl, &mut bw);
    layout::heaviest_pair(walk, &mut bl, &mut bw, usize::from(nodes), limit)
}

// 13, then `none` where no pair fits the limit, then the heaviest run, of an accepted net.
fn choose(
    s: &[u8],
    marks: &[u16],
    nodes: u16,
    limit: Limit,
    none: u8,
    walk: &mut Walk,
) -> HeaviestAnswer
    requires net { Net s.now nodes }
    requires most_bound { limit.most < 4294967296 }
    ensures { Chooses none (Fits limit) s.now nodes marks.now result }
{
    let n = usize::from(nodes);
    if marks.len() != n - 1 {
        return Err(Refusal::MARKS);
    }
    let b = search(s, marks, nodes, limit, walk);
    if b.weight == 0 {
        return Err(Refusal {
            number: none,
            row: 0,
            ring: 0,
        });
    }
    let low = b.low as u16;
    let high = b.high as u16;
    let length = (b.length - KEY_LIFT) as u32;
    let weight = table::lowered(b.weight + table::SUM_LIFT - KEY_LIFT);
    Ok(Between {
        low,
        high,
        length,
        weight,
    })
}

// The heaviest run of the net in table s under the marks.
pub fn heaviest(s: &[u8], marks: &[u16]) -> HeaviestAnswer
    ensures { HeaviestOf s.now marks.now result }
{
    heaviest_in_mode(s, marks, false, 16)
}

// The heaviest of exactly the bound's length.
pub fn heaviest_exact(s: &[u8], marks: &[u16]) -> HeaviestAnswer
    ensures { HeaviestExactOf s.now marks.now result }
{
    heaviest_in_mode(s, marks, true, 21)
}

// Both: whether the bound is meant exactly, and what no such pair is refused by.
// The mode is a bool, as Limit has it: a condition of one test, which is asked at every pair. `none` is a number, by
// which `Chooses` promises it.
fn heaviest_in_mode(s: &[u8], marks: &[u16], exact: bool, none: u8) -> HeaviestAnswer
    ensures { HeaviestWithin none (Within exact (bound_of s.now)) s.now marks.now
        result }
{
    // Acceptance uses the walk's arrays before there is a walk.
    let mut walk = Walk::new();
    let net = tree::accept_in(s, &mut walk)?;
    let limit = Limit {
        most: u64::from(net.bound),
        exact,
    };
    choose(s, marks, net.nodes, limit, none, &mut walk)
}
