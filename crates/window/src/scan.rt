// The scan for the list: the greatest count of all pairs in the window first; then, for each first node from the
// start's on that may have one, the second nodes whose path has that count and a weight that passes.
ghost use Rattle.std.specs.Prelude.{◌<◌};
ghost use Rattle.net.specs.work.Net.{Net};
ghost use Rattle.limits.specs.work.Fits.{Fits};
ghost use Rattle.pages.specs.Paged.{Paged};
ghost use Rattle.paths.specs.work.Paths.{ArraysLent};
ghost use Rattle.window.specs.work.Asked.{window_asked};
ghost use Rattle.window.specs.List.{AsMany};
ghost use Rattle.window.specs.work.Scan.{Both, ListStand, ListTaken, FourLent, RowsReady, RowsOf, Hits};

use crate::Asked;
use crate::best::best;
use ground::grounded;
use limits::Limit;
use pages::{Count, Paths, Sums};
use paths::Swept;
use reach::Walk;

// The rows of first node u, where it may have a pair of the greatest count. One that has none costs nothing.
// Many parameters: what is read, what is asked for and four arrays lent, each of a borrow of its own.
fn rows_of(
    swept: &Swept<'_>,
    ones: &[u64; 4096],
    u: usize,
    hit: u16,
    low: usize,
    high: usize,
    limit: Limit,
    sums: Sums,
    room: usize,
    above: &mut [u16; 4096],
    key: &mut [u64; 4096],
    len: &mut [u64; 4096],
    wt: &mut [u64; 4096],
    rows: &mut [u8],
    k: Count,
) -> Count
    requires { Both swept.now.n swept.now.parent.now swept.now.order.now swept.now.place.now
        ones.now swept.now.bl.now swept.now.bw.now
        × FourLent above.old key.old len.old wt.old
        × RowsReady rows.old room u swept.now.n k.left }
    ensures { RowsOf (Fits limit) swept.now.n swept.now.parent.now swept.now.order.now swept.now.place.now
        ones.now swept.now.bl.now swept.now.bw.now u hit low high sums rows.old k.given
        k.left rows.new result.given result.left
        × FourLent above.new key.new len.new wt.new }
{
    if hit != 1 {
        return k;
    }
    let counted = Swept { bl: ones, ..*swept };
    counted.paths_from(u, above, key, wt);
    swept.paths_from(u, above, len, wt);
    let n = swept.n;
    let from = pages::first_second(low, high, u, n);
    let found = Paths { key, len, wt };
    pages::seconds(rows, room, &found, u, from, n, limit, sums, k)
}

// The first nodes in turn, from the start's on. above, key and wt are work arrays of the paths.
fn firsts(
    swept: &Swept<'_>,
    ones: &[u64; 4096],
    hits: &[u16; 4096],
    limit: Limit,
    sums: Sums,
    low: usize,
    high: usize,
    above: &mut [u16; 4096],
    key: &mut [u64; 4096],
    wt: &mut [u64; 4096],
    rows: &mut [u8],
) -> Count
    requires { Both swept.now.n swept.now.parent.now swept.now.order.now swept.now.place.now
        ones.now swept.now.bl.now swept.now.bw.now
        × ArraysLent above.old key.old wt.old
        × Hits (Fits limit) swept.now.n swept.now.parent.now swept.now.order.now swept.now.place.now
        ones.now swept.now.bl.now swept.now.bw.now sums hits.now }
    ensures { (g : ListStand swept.now.n swept.now.parent.now swept.now.order.now swept.now.place.now
        ones.now swept.now.bl.now swept.now.bw.now sums)
        → Paged (ListTaken (Fits limit) g) low high rows.old result.given result.left rows.new }
{
    let mut len: [u64; 4096] = [0; 4096];
    let room = rows.len() / 16;
    let mut k = Count { given: 0, left: 0 };
    let n = swept.n;
    for u in low..n {
        k = rows_of(
            swept, ones, u, hits[u], low, high, limit, sums, room, above, key, &mut len, wt, rows,
            k,
        );
    }
    k
}

// A page of an accepted net. Of the walk the half-branches serve the branches alone: after those the array half is a
// work array of the paths.
pub(crate) fn page(
    s: &[u8],
    marks: &[u16],
    nodes: u16,
    asked: Asked,
    low: u16,
    high: u16,
    walk: &mut Walk,
    rows: &mut [u8],
) -> Count
    requires { Net s.now nodes × (0 < asked.fewest) }
    ensures { Paged (AsMany s.now marks.now nodes (window_asked asked)) low
        high rows.old result.given result.left rows.new }
{
    let mut bl: [u64; 4096] = [0; 4096];
    let mut bw: [u64; 4096] = [0; 4096];
    let ones: [u64; 4096] = [1; 4096];
    let mut key: [u64; 4096] = [0; 4096];
    let mut wt: [u64; 4096] = [0; 4096];
    let mut hits: [u16; 4096] = [0; 4096];
    grounded(s, marks, nodes, walk, &mut bl, &mut bw);
    let n = usize::from(nodes);
    let from = usize::from(low);
    let counts = asked.counts();
    let sums = asked.sums();
    let swept = Swept {
        n,
        parent: &walk.parent,
        order: &walk.order,
        place: &walk.place,
        bl: &bl,
        bw: &bw,
    };
    let counted = Swept { bl: &ones, ..swept };
    let b = best(
        &counted,
        0,
        true,
        counts,
        sums,
        &mut walk.half,
        &mut key,
        &mut wt,
        &mut hits,
    );
    if b.count == 0 {
        return Count { given: 0, left: 0 };
    }
    let limit = Limit {
        most: b.count,
        exact: true,
    };
    firsts(
        &swept,
        &ones,
        &hits,
        limit,
        sums,
        from,
        usize::from(high),
        &mut walk.half,
        &mut key,
        &mut wt,
        rows,
    )
}
