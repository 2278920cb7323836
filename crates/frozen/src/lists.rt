// Those that list, and the verdict on a list.
ghost use Rattle.window.specs.Window.{window};
ghost use Rattle.frozen.specs.Calls.{ListingWith, ListingExactWith, WindowListWith, VetWith};

use crate::changed::{LARGEST, changed_table};
use paging::Listed;
use vetting::Vetted;

// A page of the listing.
pub fn listing_with(
    table: &[u8],
    changes: &[u8],
    marks: &[u16],
    floor: i64,
    low: u16,
    high: u16,
    rows: &mut [u8],
) -> Listed
    ensures { ListingWith table.now changes.now marks.now floor low high
        rows.old (result, rows.new) }
{
    let mut buffer = [0; LARGEST];
    let changed = changed_table(table, changes, &mut buffer)?;
    listing::listing(changed, marks, floor, low, high, rows)
}

// The same of exactly the bound's length.
pub fn listing_exact_with(
    table: &[u8],
    changes: &[u8],
    marks: &[u16],
    floor: i64,
    low: u16,
    high: u16,
    rows: &mut [u8],
) -> Listed
    ensures { ListingExactWith table.now changes.now marks.now floor low high
        rows.old (result, rows.new) }
{
    let mut buffer = [0; LARGEST];
    let changed = changed_table(table, changes, &mut buffer)?;
    listing::listing_exact(changed, marks, floor, low, high, rows)
}

// A page of all pairs in a window with the most branches.
pub fn window_list_with(
    table: &[u8],
    changes: &[u8],
    marks: &[u16],
    fewest: u32,
    most: u32,
    floor: i64,
    ceiling: i64,
    low: u16,
    high: u16,
    rows: &mut [u8],
) -> Listed
    ensures { WindowListWith table.now changes.now marks.now
        (window fewest most floor ceiling) low high rows.old (result, rows.new) }
{
    let mut buffer = [0; LARGEST];
    let changed = changed_table(table, changes, &mut buffer)?;
    window::window_list(
        changed, marks, fewest, most, floor, ceiling, low, high, rows,
    )
}

// The verdict on a list of rows.
pub fn vet_with(table: &[u8], changes: &[u8], marks: &[u16], floor: i64, list: &[u8]) -> Vetted
    ensures { VetWith table.now changes.now marks.now floor list.now
        result }
{
    let mut buffer = [0; LARGEST];
    let changed = changed_table(table, changes, &mut buffer)?;
    vet::vet(changed, marks, floor, list)
}
