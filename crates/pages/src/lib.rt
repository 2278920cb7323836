// Pages of a listing: rows of 16 bytes in lent memory, filled in pair order, one first node at a time. Knows no tree:
// what it asks of a node's paths comes in lent arrays. A key is what the limit is for.
#![tactic(auto)]

ghost use Rattle.std.specs.Prelude.{◌≡◌, ◌+◌, ◌*◌, ◌≤◌, ◌<◌, length};
ghost use Rattle.std.proofs.lemmas.List.Edits.{sets};
ghost use Rattle.std.specs.Int.{w64};
ghost use Rattle.std.proofs.Common.{of_z};
ghost use Rattle.arrays.specs.At.{at};
ghost use Rattle.limits.specs.work.Fits.{Fits, Decides};
ghost use Rattle.pages.specs.Listing.{entry};
ghost use Rattle.pages.specs.Bytes.{row};
ghost use Rattle.pages.specs.work.Lowered.{lower, Raised, Capped, InSums};
ghost use Rattle.pages.specs.work.Filling.{Starts, Added, SecondsReady, Seconds};

use limits::{Limit, fits};
use numbers::put_bytes;
use table::SUM_LIFT;

// The lift of a sum as a signed number, and the least sum that is lifted.
const SIGNED_LIFT: i64 = SUM_LIFT as i64;

const LEAST: i64 = -SIGNED_LIFT;

// The lifted weights that pass: from floor on, below end.
#[derive(Clone, Copy)]
pub struct Sums {
    pub floor: u64,
    pub end: u64,
}

// The rows written and the rows left over.
#[derive(Clone, Copy)]
pub struct Count {
    pub given: usize,
    pub left: usize,
}

// By second node, the keys, the lengths and the lifted weights of a first node's paths. Where the limit is for the
// length, key and len are one array.
#[derive(Clone, Copy)]
pub struct Paths<'a> {
    pub key: &'a [u64; 4096],
    pub len: &'a [u64; 4096],
    pub wt: &'a [u64; 4096],
}

// A pair with its path's length and lifted weight.
#[derive(Clone, Copy)]
struct Pair {
    low: usize,
    high: usize,
    length: u64,
    weight: u64,
}

// Between crates: the 64 bits of the signed number that x stands for.
pub fn bits(x: u64) -> u64
    requires { x < 17179869184 }
    ensures { result ≡ of_z w64 (lower x) }
{
    x.wrapping_sub(SUM_LIFT)
}

// Writes a pair as a row.
fn put_row(out: &mut [u8], at: usize, p: &Pair)
    requires { (at + 16 ≤ length out.old) × (p.now.weight < 17179869184) }
    ensures { out.new ≡ sets out.old at (row (entry p.now.low p.now.high p.now.length (lower p.now.weight))) }
{
    put_bytes(out, at, p.low as u64, 2);
    put_bytes(out, at + 2, p.high as u64, 2);
    put_bytes(out, at + 4, p.length, 4);
    put_bytes(out, at + 8, bits(p.weight), 8);
}

// A row more where there is room for it, one more left over where there is none.
fn add(out: &mut [u8], room: usize, p: &Pair, c: Count) -> Count
    requires { (16 * room ≤ length out.old)
        × (length out.old < 16 * room + 16)
        × (p.now.weight < 17179869184)
        × (c.left < 33554432) }
    ensures { Added (entry p.now.low p.now.high p.now.length (lower p.now.weight)) out.old c.given c.left
        out.new result.given result.left }
{
    if c.given < room {
        put_row(out, 16 * c.given, p);
        return Count {
            given: c.given + 1,
            ..c
        };
    }
    Count {
        left: c.left + 1,
        ..c
    }
}

// Whether a lifted weight is one that passes.
fn weighs(x: u64, sums: Sums) -> bool
    ensures { Decides (InSums sums x) result }
{
    sums.floor <= x && x < sums.end
}

// Between crates: whether a key fits the limit and a lifted weight is one that passes.
pub fn passes(y: u64, x: u64, limit: Limit, sums: Sums) -> bool
    ensures { Decides (Fits limit y × InSums sums x) result }
{
    weighs(x, sums) && fits(limit, y)
}

impl Paths<'_> {
    // The same of the path to v, by what fewer pairs pass first: the one length of an exact limit, or else the floor,
    // so that of most pairs one number is read.
    fn passes(&self, v: usize, limit: Limit, sums: Sums) -> bool
        requires { v < 4096 }
        ensures { Decides (Fits limit (at self.now.key.now v) × InSums sums (at self.now.wt.now v)) result }
    {
        if limit.exact {
            return fits(limit, self.key[v]) && weighs(self.wt[v], sums);
        }
        weighs(self.wt[v], sums) && fits(limit, self.key[v])
    }
}

// One more than x, and n where that is above n.
fn next(x: usize, n: usize) -> usize
    ensures { (x < n → result ≡ x + 1) × (n ≤ x → result ≡ n) }
{
    if x < n { x + 1 } else { n }
}

// The second node of u to begin with, for the start s, t: nothing before it makes a pair after the start.
pub fn first_second(s: usize, t: usize, u: usize, n: usize) -> usize
    ensures { Starts s t u n result }
{
    next(if u == s && u < t { t } else { u }, n)
}

// The second nodes of u in turn, from `from` on: each that passes goes into the page, or is counted.
// The limit and the sums apart: `passes`, which vetting calls too, promises of each by itself.
pub fn seconds(
    out: &mut [u8],
    room: usize,
    paths: &Paths<'_>,
    u: usize,
    from: usize,
    n: usize,
    limit: Limit,
    sums: Sums,
    c: Count,
) -> Count
    requires { SecondsReady out.old room paths.now.wt.now u from n c.left }
    ensures { Seconds (Fits limit) paths.now.key.now paths.now.len.now paths.now.wt.now u from sums n
        out.old c.given c.left out.new result.given result.left }
{
    let Paths { len, wt, .. } = *paths;
    let mut k = c;
    for v in from..n {
        if paths.passes(v, limit, sums) {
            let pair = Pair {
                low: u,
                high: v,
                length: len[v],
                weight: wt[v],
            };
            k = add(out, room, &pair, k);
        }
    }
    k
}

// The floor, lifted; 0 where it is below all that can be lifted.
pub fn raised(floor: i64) -> u64
    ensures { Raised floor result }
{
    if floor >= 0 {
        return (floor as u64) + SUM_LIFT;
    }
    if floor < LEAST {
        return 0;
    }
    (floor + SIGNED_LIFT) as u64
}

// Where the lifted weights of at most the ceiling end; 0 where it is below all that can be lifted.
pub fn capped(ceiling: i64) -> u64
    ensures { Capped ceiling result }
{
    if ceiling >= LEAST {
        let r = raised(ceiling);
        return r + 1;
    }
    0
}
