// The scan of an accepted net: for each first node from the start's on, the paths to all nodes, and of the second nodes
// those that pass. What the limit is for, the key, is the length.
ghost use Rattle.std.specs.Prelude.{◌≡◌, length};
ghost use Rattle.net.specs.work.Net.{Net};
ghost use Rattle.limits.specs.work.Fits.{Fits};
ghost use Rattle.pages.specs.Passes.{Qualifies};
ghost use Rattle.pages.specs.Paged.{Paged};
ghost use Rattle.paths.specs.work.Ground.{Ground};
ghost use Rattle.ground.specs.Considered.{Considered};
ghost use Rattle.ground.specs.work.Grounded.{ValueIn};

use ground::grounded;
use limits::Limit;
use pages::{Count, Paths, Sums};
use paths::Swept;
use reach::Walk;
use table::SUM_END;

// The first nodes in turn, from the start's on. above, len and wt are work arrays of the paths.
fn firsts(
    swept: &Swept<'_>,
    limit: Limit,
    floor: i64,
    low: usize,
    high: usize,
    above: &mut [u16; 4096],
    rows: &mut [u8],
) -> Count
    requires { Ground swept.now.n swept.now.parent.now swept.now.order.now swept.now.place.now
        swept.now.bl.now swept.now.bw.now × (length above.old ≡ 4096) }
    ensures { (g : Ground swept.now.n swept.now.parent.now swept.now.order.now swept.now.place.now
        swept.now.bl.now swept.now.bw.now)
        → Paged (Qualifies (ValueIn g) (Fits limit) floor swept.now.n) low high rows.old result.given result.left
        rows.new }
{
    let mut len: [u64; 4096] = [0; 4096];
    let mut wt: [u64; 4096] = [0; 4096];
    let room = rows.len() / 16;
    let sums = Sums {
        floor: pages::raised(floor),
        end: SUM_END,
    };
    let mut k = Count { given: 0, left: 0 };
    let n = swept.n;
    for u in low..n {
        swept.paths_from(u, above, &mut len, &mut wt);
        let from = pages::first_second(low, high, u, n);
        let found = Paths {
            key: &len,
            len: &len,
            wt: &wt,
        };
        k = pages::seconds(rows, room, &found, u, from, n, limit, sums, k);
    }
    k
}

// A page of an accepted net. Of the walk the half-branches serve the branches alone: after those the array half is the
// work array of the paths.
pub(crate) fn page(
    s: &[u8],
    marks: &[u16],
    nodes: u16,
    limit: Limit,
    floor: i64,
    low: u16,
    high: u16,
    walk: &mut Walk,
    rows: &mut [u8],
) -> Count
    requires { Net s.now nodes }
    ensures { Paged (Considered (Fits limit) s.now marks.now nodes floor) low
        high rows.old result.given result.left rows.new }
{
    let mut bl: [u64; 4096] = [0; 4096];
    let mut bw: [u64; 4096] = [0; 4096];
    grounded(s, marks, nodes, walk, &mut bl, &mut bw);
    let swept = Swept {
        n: usize::from(nodes),
        parent: &walk.parent,
        order: &walk.order,
        place: &walk.place,
        bl: &bl,
        bw: &bw,
    };
    firsts(
        &swept,
        limit,
        floor,
        usize::from(low),
        usize::from(high),
        &mut walk.half,
        rows,
    )
}
