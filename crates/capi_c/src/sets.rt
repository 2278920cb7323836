// The exports with a change set: each is the one of lib.rt, of the table with the set's rows written in. The set
// follows the table.
ghost use Rattle.std.specs.Prelude.{[]};
ghost use Rattle.window.specs.Window.{window};
ghost use Rattle.eight.specs.Call.{call};
ghost use Rattle.capi.specs.PromisesWith.{
  AcceptWithCall,
  PairWithCall,
  HeaviestWithCall,
  HeaviestExactWithCall,
  HeadsWithCall,
  ListingWithCall,
  ListingExactWithCall,
  WindowWithCall,
  WindowListWithCall,
  VetWithCall,
  ClaimWithCall,
  CommitWithCall,
  AbortWithCall,
  ConvertWithCall,
  WriteWithCall,
};

// Fields: nodes, bound.
#[unsafe(no_mangle)]
pub extern "C" fn hb_accept_with(table: &[u8], changes: &[u8], answer: &mut [i64; 8]) -> u8
    ensures { AcceptWithCall table.now changes.now (call result answer.new []) }
{
    capi::hb_accept_with(table, changes, answer)
}

// Fields: length, weight, hops.
#[unsafe(no_mangle)]
pub extern "C" fn hb_pair_with(
    table: &[u8],
    changes: &[u8],
    marks: &[u16],
    a: u16,
    b: u16,
    answer: &mut [i64; 8],
) -> u8
    ensures { PairWithCall table.now changes.now marks.now a b
        (call result answer.new []) }
{
    capi::hb_pair_with(table, changes, marks, a, b, answer)
}

// Fields: low, high, length, weight.
#[unsafe(no_mangle)]
pub extern "C" fn hb_heaviest_with(
    table: &[u8],
    changes: &[u8],
    marks: &[u16],
    answer: &mut [i64; 8],
) -> u8
    ensures { HeaviestWithCall table.now changes.now marks.now
        (call result answer.new []) }
{
    capi::hb_heaviest_with(table, changes, marks, answer)
}

// The same for exactly the bound's length.
#[unsafe(no_mangle)]
pub extern "C" fn hb_heaviest_exact_with(
    table: &[u8],
    changes: &[u8],
    marks: &[u16],
    answer: &mut [i64; 8],
) -> u8
    ensures { HeaviestExactWithCall table.now changes.now marks.now
        (call result answer.new []) }
{
    capi::hb_heaviest_exact_with(table, changes, marks, answer)
}

// No fields; each node's head into `heads`.
#[unsafe(no_mangle)]
pub extern "C" fn hb_heads_with(
    table: &[u8],
    changes: &[u8],
    heads: &mut [u16],
    answer: &mut [i64; 8],
) -> u8
    ensures { HeadsWithCall table.now changes.now heads.old
        (call result answer.new heads.new) }
{
    capi::hb_heads_with(table, changes, heads, answer)
}

// Fields: written, left; the rows into `rows`.
#[unsafe(no_mangle)]
pub extern "C" fn hb_listing_with(
    table: &[u8],
    changes: &[u8],
    marks: &[u16],
    floor: i64,
    low: u16,
    high: u16,
    rows: &mut [u8],
    answer: &mut [i64; 8],
) -> u8
    ensures { ListingWithCall table.now changes.now marks.now floor low high
        rows.old (call result answer.new rows.new) }
{
    capi::hb_listing_with(table, changes, marks, floor, low, high, rows, answer)
}

// The same for exactly the bound's length.
#[unsafe(no_mangle)]
pub extern "C" fn hb_listing_exact_with(
    table: &[u8],
    changes: &[u8],
    marks: &[u16],
    floor: i64,
    low: u16,
    high: u16,
    rows: &mut [u8],
    answer: &mut [i64; 8],
) -> u8
    ensures { ListingExactWithCall table.now changes.now marks.now floor low
        high rows.old (call result answer.new rows.new) }
{
    capi::hb_listing_exact_with(table, changes, marks, floor, low, high, rows, answer)
}

// Fields: low, high, count, weight.
#[unsafe(no_mangle)]
pub extern "C" fn hb_window_with(
    table: &[u8],
    changes: &[u8],
    marks: &[u16],
    fewest: u32,
    most: u32,
    floor: i64,
    ceiling: i64,
    answer: &mut [i64; 8],
) -> u8
    ensures { WindowWithCall table.now changes.now marks.now
        (window fewest most floor ceiling) (call result answer.new []) }
{
    capi::hb_window_with(table, changes, marks, fewest, most, floor, ceiling, answer)
}

// Fields: written, left; the rows into `rows`.
#[unsafe(no_mangle)]
pub extern "C" fn hb_window_list_with(
    table: &[u8],
    changes: &[u8],
    marks: &[u16],
    fewest: u32,
    most: u32,
    floor: i64,
    ceiling: i64,
    low: u16,
    high: u16,
    rows: &mut [u8],
    answer: &mut [i64; 8],
) -> u8
    ensures { WindowListWithCall table.now changes.now marks.now
        (window fewest most floor ceiling) low high rows.old
        (call result answer.new rows.new) }
{
    capi::hb_window_list_with(
        table, changes, marks, fewest, most, floor, ceiling, low, high, rows, answer,
    )
}

// Fields: the verdict, row, low, high; the list is only read.
#[unsafe(no_mangle)]
pub extern "C" fn hb_vet_with(
    table: &[u8],
    changes: &[u8],
    marks: &[u16],
    floor: i64,
    list: &[u8],
    answer: &mut [i64; 8],
) -> u8
    ensures { VetWithCall table.now changes.now marks.now floor
        list.now (call result answer.new []) }
{
    capi::hb_vet_with(table, changes, marks, floor, list, answer)
}

// Fields: claimed; the marks change in place.
#[unsafe(no_mangle)]
pub extern "C" fn hb_claim_with(
    table: &[u8],
    changes: &[u8],
    marks: &mut [u16],
    run: u16,
    a: u16,
    b: u16,
    answer: &mut [i64; 8],
) -> u8
    ensures { ClaimWithCall table.now changes.now marks.old run a b
        (call result answer.new marks.new) }
{
    capi::hb_claim_with(table, changes, marks, run, a, b, answer)
}

// Fields: changed; the marks change in place.
#[unsafe(no_mangle)]
pub extern "C" fn hb_commit_with(
    table: &[u8],
    changes: &[u8],
    marks: &mut [u16],
    run: u16,
    answer: &mut [i64; 8],
) -> u8
    ensures { CommitWithCall table.now changes.now marks.old run
        (call result answer.new marks.new) }
{
    capi::hb_commit_with(table, changes, marks, run, answer)
}

// Fields: changed; the marks change in place.
#[unsafe(no_mangle)]
pub extern "C" fn hb_abort_with(
    table: &[u8],
    changes: &[u8],
    marks: &mut [u16],
    run: u16,
    answer: &mut [i64; 8],
) -> u8
    ensures { AbortWithCall table.now changes.now marks.old run
        (call result answer.new marks.new) }
{
    capi::hb_abort_with(table, changes, marks, run, answer)
}

// No fields; an old set of marks is only read.
#[unsafe(no_mangle)]
pub extern "C" fn hb_convert_with(
    table: &[u8],
    changes: &[u8],
    marks: &[u16],
    answer: &mut [i64; 8],
) -> u8
    ensures { ConvertWithCall table.now changes.now marks.now
        (call result answer.new []) }
{
    capi::hb_convert_with(table, changes, marks, answer)
}

// Fields: the two sizes; the texts into `lengths` and `weights`.
#[unsafe(no_mangle)]
pub extern "C" fn hb_dimacs_write_with(
    table: &[u8],
    changes: &[u8],
    lengths: &mut [u8],
    weights: &mut [u8],
    answer: &mut [i64; 8],
) -> u8
    ensures { WriteWithCall table.now changes.now lengths.old
        weights.old (call result answer.new lengths.new, weights.new) }
{
    capi::hb_dimacs_write_with(table, changes, lengths, weights, answer)
}
