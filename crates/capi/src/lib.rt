// The operations for C and Rust, as the crate capi_c exports them. Each function calls the operation and shows its
// answer, by the crate eight: it returns the refusal number (0: none) and writes all 8 of `answer`: number, row, ring,
// the operation's fields in order, zeros. Those with a change set are in sets.rt.
#![tactic(auto)]

mod sets;

ghost use Rattle.std.specs.Prelude.{[]};
ghost use Rattle.window.specs.Window.{window};
ghost use Rattle.eight.specs.Call.{call};
ghost use Rattle.capi.specs.Promises.{
  AcceptCall,
  PairCall,
  HeaviestCall,
  HeaviestExactCall,
  HeadsCall,
  ListingCall,
  ListingExactCall,
  WindowCall,
  WindowListCall,
  VetCall,
  ClaimCall,
  CommitCall,
  AbortCall,
  ConvertCall,
  ReadCall,
  WriteCall,
  WriteRowCall,
  MeshCall,
};

use eight::{
    show_accept, show_change, show_conversion, show_heads, show_heaviest, show_mesh, show_page,
    show_pair, show_read, show_row, show_vet, show_window, show_write,
};
pub use sets::{
    hb_abort_with, hb_accept_with, hb_claim_with, hb_commit_with, hb_convert_with,
    hb_dimacs_write_with, hb_heads_with, hb_heaviest_exact_with, hb_heaviest_with,
    hb_listing_exact_with, hb_listing_with, hb_pair_with, hb_vet_with, hb_window_list_with,
    hb_window_with,
};

// Fields: nodes, bound, filler.
pub fn hb_accept(s: &[u8], answer: &mut [i64; 8]) -> u8
    ensures { AcceptCall s.now (call result answer.new []) }
{
    let o = accept::accept(s);
    show_accept(o, answer)
}

// Fields: length, weight, hops.
pub fn hb_pair(s: &[u8], marks: &[u16], a: u16, b: u16, answer: &mut [i64; 8]) -> u8
    ensures { PairCall s.now marks.now a b (call result answer.new []) }
{
    let o = pair::pair(s, marks, a, b);
    show_pair(o, answer)
}

// Fields: low, high, length, weight.
pub fn hb_heaviest(s: &[u8], marks: &[u16], answer: &mut [i64; 8]) -> u8
    ensures { HeaviestCall s.now marks.now (call result answer.new []) }
{
    let o = heaviest::heaviest(s, marks);
    show_heaviest(o, answer)
}

// The same for exactly the bound's length.
pub fn hb_heaviest_exact(s: &[u8], marks: &[u16], answer: &mut [i64; 8]) -> u8
    ensures { HeaviestExactCall s.now marks.now (call result answer.new []) }
{
    let o = heaviest::heaviest_exact(s, marks);
    show_heaviest(o, answer)
}

// No fields; each node's head into `heads`.
pub fn hb_heads(s: &[u8], heads: &mut [u16], answer: &mut [i64; 8]) -> u8
    ensures { HeadsCall s.now heads.old
        (call result answer.new heads.new) }
{
    let o = spines::heads(s, heads);
    show_heads(o, answer)
}

// Fields: written, left; the rows into `rows`.
pub fn hb_listing(
    s: &[u8],
    marks: &[u16],
    floor: i64,
    low: u16,
    high: u16,
    rows: &mut [u8],
    answer: &mut [i64; 8],
) -> u8
    ensures { ListingCall s.now marks.now floor low high rows.old
        (call result answer.new rows.new) }
{
    let o = listing::listing(s, marks, floor, low, high, rows);
    show_page(o, answer)
}

// The same for exactly the bound's length.
pub fn hb_listing_exact(
    s: &[u8],
    marks: &[u16],
    floor: i64,
    low: u16,
    high: u16,
    rows: &mut [u8],
    answer: &mut [i64; 8],
) -> u8
    ensures { ListingExactCall s.now marks.now floor low high rows.old
        (call result answer.new rows.new) }
{
    let o = listing::listing_exact(s, marks, floor, low, high, rows);
    show_page(o, answer)
}

// Fields: low, high, count, weight.
pub fn hb_window(
    s: &[u8],
    marks: &[u16],
    fewest: u32,
    most: u32,
    floor: i64,
    ceiling: i64,
    answer: &mut [i64; 8],
) -> u8
    ensures { WindowCall s.now marks.now (window fewest most floor ceiling)
        (call result answer.new []) }
{
    let o = window::window(s, marks, fewest, most, floor, ceiling);
    show_window(o, answer)
}

// Fields: written, left; the rows into `rows`.
pub fn hb_window_list(
    s: &[u8],
    marks: &[u16],
    fewest: u32,
    most: u32,
    floor: i64,
    ceiling: i64,
    low: u16,
    high: u16,
    rows: &mut [u8],
    answer: &mut [i64; 8],
) -> u8
    ensures { WindowListCall s.now marks.now (window fewest most floor ceiling) low high
        rows.old (call result answer.new rows.new) }
{
    let o = window::window_list(s, marks, fewest, most, floor, ceiling, low, high, rows);
    show_page(o, answer)
}

// Fields: the verdict (1 yes, 2 a row at fault, 3 a pair missing), row, low, high; the list is only read.
pub fn hb_vet(s: &[u8], marks: &[u16], floor: i64, list: &[u8], answer: &mut [i64; 8]) -> u8
    ensures { VetCall s.now marks.now floor list.now
        (call result answer.new []) }
{
    let o = vet::vet(s, marks, floor, list);
    show_vet(o, answer)
}

// Fields: claimed; the marks change in place.
pub fn hb_claim(s: &[u8], marks: &mut [u16], run: u16, a: u16, b: u16, answer: &mut [i64; 8]) -> u8
    ensures { ClaimCall s.now marks.old run a b
        (call result answer.new marks.new) }
{
    let o = changes::claim(s, marks, run, a, b);
    show_change(o, answer)
}

// Fields: changed; the marks change in place.
pub fn hb_commit(s: &[u8], marks: &mut [u16], run: u16, answer: &mut [i64; 8]) -> u8
    ensures { CommitCall s.now marks.old run
        (call result answer.new marks.new) }
{
    let o = changes::commit(s, marks, run);
    show_change(o, answer)
}

// Fields: changed; the marks change in place.
pub fn hb_abort(s: &[u8], marks: &mut [u16], run: u16, answer: &mut [i64; 8]) -> u8
    ensures { AbortCall s.now marks.old run
        (call result answer.new marks.new) }
{
    let o = changes::abort(s, marks, run);
    show_change(o, answer)
}

// No fields; an old set of marks is only read.
pub fn hb_convert(s: &[u8], marks: &[u16], answer: &mut [i64; 8]) -> u8
    ensures { ConvertCall s.now marks.now (call result answer.new []) }
{
    let o = convert::convert(s, marks);
    show_conversion(o, answer)
}

// Fields: size; the table of two texts into `table`.
pub fn hb_dimacs_read(
    lengths: &[u8],
    weights: &[u8],
    bound: u32,
    table: &mut [u8],
    answer: &mut [i64; 8],
) -> u8
    ensures { ReadCall lengths.now weights.now bound table.old
        (call result answer.new table.new) }
{
    let o = dimacs::read(lengths, weights, bound, table);
    show_read(o, answer)
}

// Fields: the two sizes; the texts into `lengths` and `weights`.
pub fn hb_dimacs_write(
    s: &[u8],
    lengths: &mut [u8],
    weights: &mut [u8],
    answer: &mut [i64; 8],
) -> u8
    ensures { WriteCall s.now lengths.old weights.old
        (call result answer.new lengths.new, weights.new) }
{
    let o = dimacs::write(s, lengths, weights);
    show_write(o, answer)
}

// No fields; one row of version 2 into `row`.
pub fn hb_write_row(
    a: u16,
    b: u16,
    wire: u32,
    kind: u16,
    count: u16,
    row: &mut [u8],
    answer: &mut [i64; 8],
) -> u8
    ensures { WriteRowCall a b wire kind count row.old
        (call result answer.new row.new) }
{
    let o = writer::write_row(a, b, wire, kind, count, row);
    show_row(o, answer)
}

// Fields: branches, low, high.
pub fn hb_mesh(s: &[u8], answer: &mut [i64; 8]) -> u8
    ensures { MeshCall s.now (call result answer.new []) }
{
    let o = mesh::mesh(s);
    show_mesh(o, answer)
}
