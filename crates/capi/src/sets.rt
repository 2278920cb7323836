// The operations with a change set for C and Rust: each is the one of lib.rt, of the table with the set's rows written
// in. The set follows the table.
ghost use Rattle.std.specs.Prelude.{[]};
ghost use Rattle.window.specs.Window.{window};
ghost use Rattle.eight.specs.Call.{call};
ghost use Rattle.capi.specs.PromisesWith.{
  AcceptWithCall,
  PairWithCall,
  HeaviestWithCall,
  HeaviestExactWithCall,
  HeadsWithCall,
  ListingWithCall,
  ListingExactWithCall,
  WindowWithCall,
  WindowListWithCall,
  VetWithCall,
  ClaimWithCall,
  CommitWithCall,
  AbortWithCall,
  ConvertWithCall,
  WriteWithCall,
};

use eight::{
    show_accept, show_change, show_conversion, show_heads, show_heaviest, show_page, show_pair,
    show_vet, show_window, show_write,
};

// Fields: nodes, bound.
pub fn hb_accept_with(table: &[u8], changes: &[u8], answer: &mut [i64; 8]) -> u8
    ensures { AcceptWithCall table.now changes.now (call result answer.new []) }
{
    let o = frozen::accept_with(table, changes);
    show_accept(o, answer)
}

// Fields: length, weight, hops.
pub fn hb_pair_with(
    table: &[u8],
    changes: &[u8],
    marks: &[u16],
    a: u16,
    b: u16,
    answer: &mut [i64; 8],
) -> u8
    ensures { PairWithCall table.now changes.now marks.now a b
        (call result answer.new []) }
{
    let o = frozen::pair_with(table, changes, marks, a, b);
    show_pair(o, answer)
}

// Fields: low, high, length, weight.
pub fn hb_heaviest_with(table: &[u8], changes: &[u8], marks: &[u16], answer: &mut [i64; 8]) -> u8
    ensures { HeaviestWithCall table.now changes.now marks.now
        (call result answer.new []) }
{
    let o = frozen::heaviest_with(table, changes, marks);
    show_heaviest(o, answer)
}

// The same for exactly the bound's length.
pub fn hb_heaviest_exact_with(
    table: &[u8],
    changes: &[u8],
    marks: &[u16],
    answer: &mut [i64; 8],
) -> u8
    ensures { HeaviestExactWithCall table.now changes.now marks.now
        (call result answer.new []) }
{
    let o = frozen::heaviest_exact_with(table, changes, marks);
    show_heaviest(o, answer)
}

// No fields; each node's head into `heads`.
pub fn hb_heads_with(table: &[u8], changes: &[u8], heads: &mut [u16], answer: &mut [i64; 8]) -> u8
    ensures { HeadsWithCall table.now changes.now heads.old
        (call result answer.new heads.new) }
{
    let o = frozen::heads_with(table, changes, heads);
    show_heads(o, answer)
}

// Fields: written, left; the rows into `rows`.
pub fn hb_listing_with(
    table: &[u8],
    changes: &[u8],
    marks: &[u16],
    floor: i64,
    low: u16,
    high: u16,
    rows: &mut [u8],
    answer: &mut [i64; 8],
) -> u8
    ensures { ListingWithCall table.now changes.now marks.now floor low high
        rows.old (call result answer.new rows.new) }
{
    let o = frozen::listing_with(table, changes, marks, floor, low, high, rows);
    show_page(o, answer)
}

// The same for exactly the bound's length.
pub fn hb_listing_exact_with(
    table: &[u8],
    changes: &[u8],
    marks: &[u16],
    floor: i64,
    low: u16,
    high: u16,
    rows: &mut [u8],
    answer: &mut [i64; 8],
) -> u8
    ensures { ListingExactWithCall table.now changes.now marks.now floor low
        high rows.old (call result answer.new rows.new) }
{
    let o = frozen::listing_exact_with(table, changes, marks, floor, low, high, rows);
    show_page(o, answer)
}

// Fields: low, high, count, weight.
pub fn hb_window_with(
    table: &[u8],
    changes: &[u8],
    marks: &[u16],
    fewest: u32,
    most: u32,
    floor: i64,
    ceiling: i64,
    answer: &mut [i64; 8],
) -> u8
    ensures { WindowWithCall table.now changes.now marks.now
        (window fewest most floor ceiling) (call result answer.new []) }
{
    let o = frozen::window_with(table, changes, marks, fewest, most, floor, ceiling);
    show_window(o, answer)
}

// Fields: written, left; the rows into `rows`.
pub fn hb_window_list_with(
    table: &[u8],
    changes: &[u8],
    marks: &[u16],
    fewest: u32,
    most: u32,
    floor: i64,
    ceiling: i64,
    low: u16,
    high: u16,
    rows: &mut [u8],
    answer: &mut [i64; 8],
) -> u8
    ensures { WindowListWithCall table.now changes.now marks.now
        (window fewest most floor ceiling) low high rows.old
        (call result answer.new rows.new) }
{
    let o = frozen::window_list_with(
        table, changes, marks, fewest, most, floor, ceiling, low, high, rows,
    );
    show_page(o, answer)
}

// Fields: the verdict, row, low, high; the list is only read.
pub fn hb_vet_with(
    table: &[u8],
    changes: &[u8],
    marks: &[u16],
    floor: i64,
    list: &[u8],
    answer: &mut [i64; 8],
) -> u8
    ensures { VetWithCall table.now changes.now marks.now floor
        list.now (call result answer.new []) }
{
    let o = frozen::vet_with(table, changes, marks, floor, list);
    show_vet(o, answer)
}

// Fields: claimed; the marks change in place.
pub fn hb_claim_with(
    table: &[u8],
    changes: &[u8],
    marks: &mut [u16],
    run: u16,
    a: u16,
    b: u16,
    answer: &mut [i64; 8],
) -> u8
    ensures { ClaimWithCall table.now changes.now marks.old run a b
        (call result answer.new marks.new) }
{
    let o = frozen::claim_with(table, changes, marks, run, a, b);
    show_change(o, answer)
}

// Fields: changed; the marks change in place.
pub fn hb_commit_with(
    table: &[u8],
    changes: &[u8],
    marks: &mut [u16],
    run: u16,
    answer: &mut [i64; 8],
) -> u8
    ensures { CommitWithCall table.now changes.now marks.old run
        (call result answer.new marks.new) }
{
    let o = frozen::commit_with(table, changes, marks, run);
    show_change(o, answer)
}

// Fields: changed; the marks change in place.
pub fn hb_abort_with(
    table: &[u8],
    changes: &[u8],
    marks: &mut [u16],
    run: u16,
    answer: &mut [i64; 8],
) -> u8
    ensures { AbortWithCall table.now changes.now marks.old run
        (call result answer.new marks.new) }
{
    let o = frozen::abort_with(table, changes, marks, run);
    show_change(o, answer)
}

// No fields; an old set of marks is only read.
pub fn hb_convert_with(table: &[u8], changes: &[u8], marks: &[u16], answer: &mut [i64; 8]) -> u8
    ensures { ConvertWithCall table.now changes.now marks.now
        (call result answer.new []) }
{
    let o = frozen::convert_with(table, changes, marks);
    show_conversion(o, answer)
}

// Fields: the two sizes; the texts into `lengths` and `weights`.
pub fn hb_dimacs_write_with(
    table: &[u8],
    changes: &[u8],
    lengths: &mut [u8],
    weights: &mut [u8],
    answer: &mut [i64; 8],
) -> u8
    ensures { WriteWithCall table.now changes.now lengths.old
        weights.old (call result answer.new lengths.new, weights.new) }
{
    let o = frozen::write_with(table, changes, lengths, weights);
    show_write(o, answer)
}
