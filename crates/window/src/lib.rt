// The operations window and window_list: of the pairs whose branch count lies between two positive limits and whose
// weight lies between two sums, the one with the most branches, among equals the earlier; and all that have as many, a
// page at a time. Wire lengths and the bound play no part.
#![tactic(auto)]

mod best;
mod scan;

ghost use Rattle.std.specs.Prelude.{◌<◌, ◌≡◌, true};
ghost use Rattle.net.specs.work.Net.{Net};
ghost use Rattle.limits.specs.work.Fits.{Decides};
ghost use Rattle.window.specs.Window.{window, Proper, InWindow, Picks, WindowOf};
ghost use Rattle.window.specs.List.{ListsMost, WindowListOf};
ghost use Rattle.pages.specs.work.Lowered.{Raised, Capped};
ghost use Rattle.window.specs.work.Asked.{window_asked};
ghost use Rattle.window.specs.work.Best.{BestOf};

use best::{CountLimits, Found, best};
use ground::grounded;
use pages::Sums;
use paging::{Listed, Rows};
use paths::Swept;
use reach::Walk;
use tree::Refusal;

// The two nodes, lower first, with the branch count and the weight of their path.
#[derive(Clone, Copy)]
pub struct Most {
    pub low: u16,
    pub high: u16,
    pub count: u32,
    pub weight: i64,
}

// What window gives.
pub type WindowAnswer = Result<Most, Refusal>;

// Two limits of the branch count and two sums, as a caller gives them.
#[derive(Clone, Copy)]
pub(crate) struct Asked {
    pub fewest: u32,
    pub most: u32,
    pub floor: i64,
    pub ceiling: i64,
}

impl Asked {
    // Whether the limits are positive and no lower one is above its upper one.
    fn proper(&self) -> bool
        ensures { Decides (Proper (window_asked self.now)) result
            × (result ≡ true → self.now.most < 4294967296) }
    {
        self.fewest != 0 && self.fewest <= self.most && self.floor <= self.ceiling
    }

    // The limits as the sweeps compare with them.
    pub(crate) fn counts(&self) -> CountLimits
        ensures { (result.fewest ≡ self.now.fewest) × (result.most ≡ self.now.most) }
    {
        CountLimits {
            fewest: u64::from(self.fewest),
            most: u64::from(self.most),
        }
    }

    // The sums lifted.
    pub(crate) fn sums(&self) -> Sums
        ensures { Raised self.now.floor result.floor × Capped self.now.ceiling result.end }
    {
        Sums {
            floor: pages::raised(self.floor),
            end: pages::capped(self.ceiling),
        }
    }
}

// The best pair of an accepted net; count 0 is none. Of the walk half is then a work array of the paths,
// and bl, since no length is asked for, has 1 for each branch.
fn search(s: &[u8], marks: &[u16], nodes: u16, asked: Asked, walk: &mut Walk) -> Found
    requires { Net s.now nodes }
    ensures { BestOf (InWindow s.now marks.now nodes (window_asked asked))
        result }
{
    let mut bl: [u64; 4096] = [0; 4096];
    let mut bw: [u64; 4096] = [0; 4096];
    let mut key: [u64; 4096] = [0; 4096];
    let mut wt: [u64; 4096] = [0; 4096];
    let mut hits: [u16; 4096] = [0; 4096];
    grounded(s, marks, nodes, walk, &mut bl, &mut bw);
    bl.fill(1);
    let n = usize::from(nodes);
    let counts = asked.counts();
    let sums = asked.sums();
    let ones = Swept {
        n,
        parent: &walk.parent,
        order: &walk.order,
        place: &walk.place,
        bl: &bl,
        bw: &bw,
    };
    best(
        &ones,
        0,
        false,
        counts,
        sums,
        &mut walk.half,
        &mut key,
        &mut wt,
        &mut hits,
    )
}

// 13 and 30, then 31 where no pair is in the window, then the best pair, of an accepted net.
fn pick(s: &[u8], marks: &[u16], nodes: u16, asked: Asked, walk: &mut Walk) -> WindowAnswer
    requires { Net s.now nodes }
    ensures { Picks s.now nodes marks.now (window_asked asked) result }
{
    let n = usize::from(nodes);
    if marks.len() != n - 1 {
        return Err(Refusal::MARKS);
    }
    if !asked.proper() {
        return Err(Refusal::LIMITS);
    }
    let b = search(s, marks, nodes, asked, walk);
    if b.count == 0 {
        return Err(Refusal::NO_WINDOW_PAIR);
    }
    let weight = table::lowered(b.weight);
    Ok(Most {
        low: b.low as u16,
        high: b.high as u16,
        count: b.count as u32,
        weight,
    })
}

// The run with the most branches in the window.
pub fn window(
    s: &[u8],
    marks: &[u16],
    fewest: u32,
    most: u32,
    floor: i64,
    ceiling: i64,
) -> WindowAnswer
    ensures { WindowOf s.now marks.now (window fewest most floor ceiling) result }
{
    let asked = Asked {
        fewest,
        most,
        floor,
        ceiling,
    };
    // Acceptance uses the walk's arrays before there is a walk.
    let mut walk = Walk::new();
    let net = tree::accept_in(s, &mut walk)?;
    pick(s, marks, net.nodes, asked, &mut walk)
}

// 13, 30 and 17, then the page, of an accepted net. The arrays are lent for its walk.
fn list(
    s: &[u8],
    marks: &[u16],
    nodes: u16,
    asked: Asked,
    low: u16,
    high: u16,
    walk: &mut Walk,
    rows: &mut [u8],
) -> Listed
    requires { Net s.now nodes }
    ensures { ListsMost s.now nodes marks.now (window_asked asked) low high
        rows.old (result, rows.new) }
{
    let n = usize::from(nodes);
    if marks.len() != n - 1 {
        return Err(Refusal::MARKS);
    }
    if !asked.proper() {
        return Err(Refusal::LIMITS);
    }
    if rows.len() < 16 {
        return Err(Refusal::NO_ROOM);
    }
    let k = scan::page(s, marks, nodes, asked, low, high, walk, rows);
    Ok(Rows {
        written: k.given,
        left: k.left,
    })
}

// All pairs in the window with the greatest branch count of all, strictly after (low, high): as many rows of 16 bytes
// as fit.
pub fn window_list(
    s: &[u8],
    marks: &[u16],
    fewest: u32,
    most: u32,
    floor: i64,
    ceiling: i64,
    low: u16,
    high: u16,
    rows: &mut [u8],
) -> Listed
    ensures { WindowListOf s.now marks.now (window fewest most floor ceiling) low high
        rows.old (result, rows.new) }
{
    let asked = Asked {
        fewest,
        most,
        floor,
        ceiling,
    };
    let mut walk = Walk::new();
    let net = tree::accept_in(s, &mut walk)?;
    list(s, marks, net.nodes, asked, low, high, &mut walk, rows)
}
