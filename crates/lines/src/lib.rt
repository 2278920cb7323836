// The report's lines, put into lent bytes: each function promises the text, byte for byte, and that nothing else
// changes.
#![tactic(auto)]

mod fields;

ghost use Rattle.std.specs.Prelude.{◌+◌, ◌*◌, ◌-◌, ◌≤◌, ◌++◌, length};
ghost use Rattle.std.specs.Int.{w64};
ghost use Rattle.std.proofs.Common.{to_z};
ghost use Rattle.pages.specs.Listing.{entry};
ghost use Rattle.pages.specs.Bytes.{entry_at, entries};
ghost use Rattle.text.specs.work.Put.{Put};
ghost use Rattle.lines.specs.Lines.{ring_text, refused_text, net_text, best_text, pair_text, pairs_text, total_text};

use fields::{LINE_END, Row, field, four_fields, two_fields};
use numbers::{eight, four, two};

// ` ring 2`, for 11 alone
fn ring(out: &mut [u8], at: usize, number: u64, rows: u64) -> usize
    requires { at + 26 ≤ length out.old }
    ensures { Put out.old at (ring_text number rows) out.new result × (result ≤ at + 26) }
{
    if number == 11 {
        return field(out, at, b" ring ", rows);
    }
    at
}

// `refused 16 row 0`, `refused 11 row 1 ring 2`
pub fn refused(out: &mut [u8], number: u64, row: u64, rows: u64) -> usize
    requires { 128 ≤ length out.old }
    ensures { Put out.old 0 (refused_text number row rows) out.new result × (result ≤ 128) }
{
    let a = two_fields(out, b"refused ", number, b" row ", row);
    let b = ring(out, a, number, rows);
    text::put_byte(out, b, LINE_END)
}

// `net 5 bound 8`
fn net(out: &mut [u8], nodes: u64, bound: u64) -> usize
    requires { 128 ≤ length out.old }
    ensures { Put out.old 0 (net_text nodes bound) out.new result × (result ≤ 128) }
{
    let a = two_fields(out, b"net ", nodes, b" bound ", bound);
    text::put_byte(out, a, LINE_END)
}

// `best 1 3 length 6 weight 7`
fn best(out: &mut [u8], at: usize, row: Row) -> usize
    requires { at + 128 ≤ length out.old }
    ensures { Put out.old at (best_text (entry row.low row.high row.len (to_z w64 row.bits))) out.new result
        × (result ≤ at + 128) }
{
    four_fields(out, at, b"best ", b" length ", b" weight ", row)
}

// The first two lines.
pub fn top(
    out: &mut [u8],
    nodes: u64,
    bound: u64,
    low: u64,
    high: u64,
    len: u64,
    bits: u64,
) -> usize
    requires { 256 ≤ length out.old }
    ensures { Put out.old 0 (net_text nodes bound ++ best_text (entry low high len (to_z w64 bits)))
        out.new result
        × (result ≤ 256) }
{
    let a = net(out, nodes, bound);
    let row = Row {
        low,
        high,
        len,
        bits,
    };
    best(out, a, row)
}

// `pair 0 2 7 7`, of the row that begins at place i
fn pair(out: &mut [u8], at: usize, rows: &[u8], i: usize) -> usize
    requires { (at + 96 ≤ length out.old) × (i + 16 ≤ length rows.now) }
    ensures { Put out.old at (pair_text (entry_at rows.now i)) out.new result
        × (result ≤ at + 96) }
{
    let low = two(rows, i);
    let high = two(rows, i + 2);
    let len = four(rows, i + 4);
    let bits = eight(rows, i + 8);
    let row = Row {
        low,
        high,
        len,
        bits,
    };
    four_fields(out, at, b"pair ", b" ", b" ", row)
}

// The lines of the rows from one on, up to another: 96 bytes at most for each.
pub fn pairs(out: &mut [u8], rows: &[u8], from: usize, upto: usize) -> usize
    requires { (from ≤ upto) × (16 * upto ≤ length rows.now) × (96 * (upto - from) ≤ length out.old) }
    ensures { Put out.old 0 (pairs_text (entries rows.now from (upto - from)))
        out.new result
        × (result ≤ 96 * (upto - from)) }
{
    let mut at: usize = 0;
    for i in from..upto {
        at = pair(out, at, rows, 16 * i);
    }
    at
}

// `total 2`
pub fn total(out: &mut [u8], count: u64) -> usize
    requires { 128 ≤ length out.old }
    ensures { Put out.old 0 (total_text count) out.new result × (result ≤ 128) }
{
    let a = field(out, 0, b"total ", count);
    text::put_byte(out, a, LINE_END)
}
