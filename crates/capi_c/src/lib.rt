// The library for C: each function of the crate capi, under the same name and clauses, as include/hourbench.h declares
// it. A `&[u8]` is a pointer and a length to C, an `&mut [i64; 8]` a pointer. Those with a change set are in sets.rt. A
// crate is a library or a static library, not both, and so the exports stand apart from what they call.
#![tactic(auto)]

mod sets;

ghost use Rattle.std.specs.Prelude.{[]};
ghost use Rattle.window.specs.Window.{window};
ghost use Rattle.eight.specs.Call.{call};
ghost use Rattle.capi.specs.Promises.{
  AcceptCall,
  PairCall,
  HeaviestCall,
  HeaviestExactCall,
  HeadsCall,
  ListingCall,
  ListingExactCall,
  WindowCall,
  WindowListCall,
  VetCall,
  ClaimCall,
  CommitCall,
  AbortCall,
  ConvertCall,
  ReadCall,
  WriteCall,
  WriteRowCall,
  MeshCall,
};

// Fields: nodes, bound, filler.
#[unsafe(no_mangle)]
pub extern "C" fn hb_accept(s: &[u8], answer: &mut [i64; 8]) -> u8
    ensures { AcceptCall s.now (call result answer.new []) }
{
    capi::hb_accept(s, answer)
}

// Fields: length, weight, hops.
#[unsafe(no_mangle)]
pub extern "C" fn hb_pair(s: &[u8], marks: &[u16], a: u16, b: u16, answer: &mut [i64; 8]) -> u8
    ensures { PairCall s.now marks.now a b (call result answer.new []) }
{
    capi::hb_pair(s, marks, a, b, answer)
}

// Fields: low, high, length, weight.
#[unsafe(no_mangle)]
pub extern "C" fn hb_heaviest(s: &[u8], marks: &[u16], answer: &mut [i64; 8]) -> u8
    ensures { HeaviestCall s.now marks.now (call result answer.new []) }
{
    capi::hb_heaviest(s, marks, answer)
}

// The same for exactly the bound's length.
#[unsafe(no_mangle)]
pub extern "C" fn hb_heaviest_exact(s: &[u8], marks: &[u16], answer: &mut [i64; 8]) -> u8
    ensures { HeaviestExactCall s.now marks.now (call result answer.new []) }
{
    capi::hb_heaviest_exact(s, marks, answer)
}

// No fields; each node's head into `heads`.
#[unsafe(no_mangle)]
pub extern "C" fn hb_heads(s: &[u8], heads: &mut [u16], answer: &mut [i64; 8]) -> u8
    ensures { HeadsCall s.now heads.old
        (call result answer.new heads.new) }
{
    capi::hb_heads(s, heads, answer)
}

// Fields: written, left; the rows into `rows`.
#[unsafe(no_mangle)]
pub extern "C" fn hb_listing(
    s: &[u8],
    marks: &[u16],
    floor: i64,
    low: u16,
    high: u16,
    rows: &mut [u8],
    answer: &mut [i64; 8],
) -> u8
    ensures { ListingCall s.now marks.now floor low high rows.old
        (call result answer.new rows.new) }
{
    capi::hb_listing(s, marks, floor, low, high, rows, answer)
}

// The same for exactly the bound's length.
#[unsafe(no_mangle)]
pub extern "C" fn hb_listing_exact(
    s: &[u8],
    marks: &[u16],
    floor: i64,
    low: u16,
    high: u16,
    rows: &mut [u8],
    answer: &mut [i64; 8],
) -> u8
    ensures { ListingExactCall s.now marks.now floor low high rows.old
        (call result answer.new rows.new) }
{
    capi::hb_listing_exact(s, marks, floor, low, high, rows, answer)
}

// Fields: low, high, count, weight.
#[unsafe(no_mangle)]
pub extern "C" fn hb_window(
    s: &[u8],
    marks: &[u16],
    fewest: u32,
    most: u32,
    floor: i64,
    ceiling: i64,
    answer: &mut [i64; 8],
) -> u8
    ensures { WindowCall s.now marks.now (window fewest most floor ceiling)
        (call result answer.new []) }
{
    capi::hb_window(s, marks, fewest, most, floor, ceiling, answer)
}

// Fields: written, left; the rows into `rows`.
#[unsafe(no_mangle)]
pub extern "C" fn hb_window_list(
    s: &[u8],
    marks: &[u16],
    fewest: u32,
    most: u32,
    floor: i64,
    ceiling: i64,
    low: u16,
    high: u16,
    rows: &mut [u8],
    answer: &mut [i64; 8],
) -> u8
    ensures { WindowListCall s.now marks.now (window fewest most floor ceiling) low high
        rows.old (call result answer.new rows.new) }
{
    capi::hb_window_list(
        s, marks, fewest, most, floor, ceiling, low, high, rows, answer,
    )
}

// Fields: the verdict (1 yes, 2 a row at fault, 3 a pair missing), row, low, high; the list is only read.
#[unsafe(no_mangle)]
pub extern "C" fn hb_vet(
    s: &[u8],
    marks: &[u16],
    floor: i64,
    list: &[u8],
    answer: &mut [i64; 8],
) -> u8
    ensures { VetCall s.now marks.now floor list.now
        (call result answer.new []) }
{
    capi::hb_vet(s, marks, floor, list, answer)
}

// Fields: claimed; the marks change in place.
#[unsafe(no_mangle)]
pub extern "C" fn hb_claim(
    s: &[u8],
    marks: &mut [u16],
    run: u16,
    a: u16,
    b: u16,
    answer: &mut [i64; 8],
) -> u8
    ensures { ClaimCall s.now marks.old run a b
        (call result answer.new marks.new) }
{
    capi::hb_claim(s, marks, run, a, b, answer)
}

// Fields: changed; the marks change in place.
#[unsafe(no_mangle)]
pub extern "C" fn hb_commit(s: &[u8], marks: &mut [u16], run: u16, answer: &mut [i64; 8]) -> u8
    ensures { CommitCall s.now marks.old run
        (call result answer.new marks.new) }
{
    capi::hb_commit(s, marks, run, answer)
}

// Fields: changed; the marks change in place.
#[unsafe(no_mangle)]
pub extern "C" fn hb_abort(s: &[u8], marks: &mut [u16], run: u16, answer: &mut [i64; 8]) -> u8
    ensures { AbortCall s.now marks.old run
        (call result answer.new marks.new) }
{
    capi::hb_abort(s, marks, run, answer)
}

// No fields; an old set of marks is only read.
#[unsafe(no_mangle)]
pub extern "C" fn hb_convert(s: &[u8], marks: &[u16], answer: &mut [i64; 8]) -> u8
    ensures { ConvertCall s.now marks.now (call result answer.new []) }
{
    capi::hb_convert(s, marks, answer)
}

// Fields: size; the table of two texts into `table`.
#[unsafe(no_mangle)]
pub extern "C" fn hb_dimacs_read(
    lengths: &[u8],
    weights: &[u8],
    bound: u32,
    table: &mut [u8],
    answer: &mut [i64; 8],
) -> u8
    ensures { ReadCall lengths.now weights.now bound table.old
        (call result answer.new table.new) }
{
    capi::hb_dimacs_read(lengths, weights, bound, table, answer)
}

// Fields: the two sizes; the texts into `lengths` and `weights`.
#[unsafe(no_mangle)]
pub extern "C" fn hb_dimacs_write(
    s: &[u8],
    lengths: &mut [u8],
    weights: &mut [u8],
    answer: &mut [i64; 8],
) -> u8
    ensures { WriteCall s.now lengths.old weights.old
        (call result answer.new lengths.new, weights.new) }
{
    capi::hb_dimacs_write(s, lengths, weights, answer)
}

// No fields; one row of version 2 into `row`.
#[unsafe(no_mangle)]
pub extern "C" fn hb_write_row(
    a: u16,
    b: u16,
    wire: u32,
    kind: u16,
    count: u16,
    row: &mut [u8],
    answer: &mut [i64; 8],
) -> u8
    ensures { WriteRowCall a b wire kind count row.old
        (call result answer.new row.new) }
{
    capi::hb_write_row(a, b, wire, kind, count, row, answer)
}

// Fields: branches, low, high.
#[unsafe(no_mangle)]
pub extern "C" fn hb_mesh(s: &[u8], answer: &mut [i64; 8]) -> u8
    ensures { MeshCall s.now (call result answer.new []) }
{
    capi::hb_mesh(s, answer)
}
