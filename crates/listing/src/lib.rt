// The operations listing and listing_exact: the pairs within the bound, or of exactly its length, at or above a floor,
// a page at a time.
#![tactic(auto)]

mod scan;

ghost use Rattle.table.specs.Header.{bound_of};
ghost use Rattle.net.specs.work.Net.{Net};
ghost use Rattle.limits.specs.work.Fits.{Within, Fits};
ghost use Rattle.listing.specs.Listing.{GoesOn, ListingWithin, ListingOf, ListingExactOf};

use limits::Limit;
use paging::{Listed, Rows};
use reach::Walk;
use tree::Refusal;

// The pairs strictly after (low, high), within the bound and weighing at least the floor: as many rows of 16 bytes as
// fit.
pub fn listing(s: &[u8], marks: &[u16], floor: i64, low: u16, high: u16, rows: &mut [u8]) -> Listed
    ensures { ListingOf s.now marks.now floor low high rows.old
        (result, rows.new) }
{
    listing_in_mode(s, marks, false, floor, low, high, rows)
}

// The same of the pairs of exactly the bound's length.
pub fn listing_exact(
    s: &[u8],
    marks: &[u16],
    floor: i64,
    low: u16,
    high: u16,
    rows: &mut [u8],
) -> Listed
    ensures { ListingExactOf s.now marks.now floor low high rows.old
        (result, rows.new) }
{
    listing_in_mode(s, marks, true, floor, low, high, rows)
}

// Both: whether the bound is meant exactly.
// The mode is a bool, as Limit has it: a condition of one test, which is asked at every pair.
fn listing_in_mode(
    s: &[u8],
    marks: &[u16],
    exact: bool,
    floor: i64,
    low: u16,
    high: u16,
    rows: &mut [u8],
) -> Listed
    ensures { ListingWithin (Within exact (bound_of s.now)) s.now marks.now floor
        low high rows.old (result, rows.new) }
{
    // Acceptance uses the walk's arrays before there is a walk.
    let mut walk = Walk::new();
    let net = tree::accept_in(s, &mut walk)?;
    let most = u64::from(net.bound);
    let limit = Limit { most, exact };
    go_on(
        s, marks, net.nodes, limit, floor, low, high, &mut walk, rows,
    )
}

// 13 and 17, then the page, of an accepted net. The arrays are lent for its walk.
fn go_on(
    s: &[u8],
    marks: &[u16],
    nodes: u16,
    limit: Limit,
    floor: i64,
    low: u16,
    high: u16,
    walk: &mut Walk,
    rows: &mut [u8],
) -> Listed
    requires { Net s.now nodes }
    ensures { GoesOn (Fits limit) s.now nodes marks.now floor low high rows.old
        (result, rows.new) }
{
    let n = usize::from(nodes);
    if marks.len() != n - 1 {
        return Err(Refusal::MARKS);
    }
    if rows.len() < 16 {
        return Err(Refusal::NO_ROOM);
    }
    let k = scan::page(s, marks, nodes, limit, floor, low, high, walk, rows);
    Ok(Rows {
        written: k.given,
        left: k.left,
    })
}
