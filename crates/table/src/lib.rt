// The branch table, versions 1 and 2: bytes to header and rows. Refusals 1 to 10, 22 and 23, the part of a row, a
// decoded row and its lifted weight, and the reader that holds the table. Every public function takes any bytes and
// any number and asks nothing of its caller.
#![tactic(auto)]

ghost use Rattle.std.specs.Prelude.{◌≡◌, Ok, true, false, ◌+◌, ◌*◌, ◌≤◌, ◌<◌, length};
ghost use Rattle.table.specs.Bytes.{u16_at, u32_at};
ghost use Rattle.table.specs.Opens.{Opening, opening_refusal, Opens, Examines};
ghost use Rattle.table.specs.Row.{Stands, PartOf, NextOf, RowOf, weight_at};
ghost use Rattle.table.specs.Signed.{InRange};
ghost use Rattle.table.specs.work.RowTold.{RowTold};
ghost use Rattle.table.specs.work.Standing.{Standing};
ghost use Rattle.table.specs.Examine.{RowsTested};
ghost use Rattle.table.specs.work.Lift.{LiftedOf, LoweredOf};
ghost use Rattle.table.specs.Reader.{HeldOf, Stepped, FirstOf};

use crate::scores::score_of;

mod scores;

// What is refused, by the paper's number, and the row it names: 0 where none is named.
#[derive(Clone, Copy)]
pub struct Refusal {
    pub number: u8,
    pub row: usize,
}

// A table's node count and wire bound.
#[derive(Clone, Copy)]
pub struct Opened {
    pub nodes: u16,
    pub bound: u32,
}

// What opening or examining a table gives.
pub type Opening = Result<Opened, Refusal>;

// A branch: the two nodes that it joins, its wire length and its weight.
#[derive(Clone, Copy)]
pub struct Row {
    pub a: u16,
    pub b: u16,
    pub length: u32,
    pub weight: i32,
}

fn u16_at(s: &[u8], i: usize) -> u16
    requires { i + 2 ≤ length s.now }
    ensures { result ≡ u16_at s.now i }
{
    u16::from_le_bytes([s[i], s[i + 1]])
}

fn u32_at(s: &[u8], i: usize) -> u32
    requires { i + 4 ≤ length s.now }
    ensures { result ≡ u32_at s.now i }
{
    u32::from_le_bytes([s[i], s[i + 1], s[i + 2], s[i + 3]])
}

// Tests 1 to 6 alone, in order.
#[tactic(auto, using(crate::proofs::Short::too_short))]
pub fn open_table(s: &[u8]) -> Opening
    ensures { Opens s.now result }
{
    if s.len() < 12 {
        return Err(Refusal { number: 1, row: 0 });
    }
    if s[0] != b'R' || s[1] != b'T' || s[2] != b'N' {
        return Err(Refusal { number: 2, row: 0 });
    }
    let version = u16_at(s, 3);
    if version < 1 || 2 < version {
        return Err(Refusal { number: 3, row: 0 });
    }
    let nodes = u16_at(s, 5);
    if nodes < 1 || 4096 < nodes {
        return Err(Refusal { number: 4, row: 0 });
    }
    if s[7] != 0 {
        return Err(Refusal { number: 5, row: 0 });
    }
    if s.len() != 12 * usize::from(nodes) {
        return Err(Refusal { number: 6, row: 0 });
    }
    Ok(Opened {
        nodes,
        bound: u32_at(s, 8),
    })
}

// Whether 12 bytes stand from place 12 + 12 * row on. That place is never computed where it would not fit.
fn stands(s: &[u8], row: usize) -> bool
    ensures { Standing s.now row result }
{
    24 <= s.len() && row <= (s.len() - 24) / 12
}

// The caller's own 12 bytes of a row, or an empty part where fewer stand there, as `PartOf` promises C's callers.
pub fn row_part(s: &[u8], row: usize) -> &[u8]
    ensures { PartOf s.now s.entry.ref_ptr row result.now result.ref_ptr }
{
    if stands(s, row) {
        let a = 12 + 12 * row;
        let e = a + 12;
        return &s[a..e];
    }
    &s[0..0]
}

// The row to stand at after the part of this one was asked for.
pub fn next_row(s: &[u8], row: usize) -> usize
    ensures { NextOf s.now row result }
{
    if stands(s, row) { row + 1 } else { row }
}

// A row's weight, by the table's version.
fn weight_at(s: &[u8], row: usize) -> i32
    requires { Stands s.now row }
    ensures { result ≡ weight_at s.now row }
{
    if u16_at(s, 3) == 2 {
        let score = score_of(u16_at(s, 20 + 12 * row));
        let count = i32::from(u16_at(s, 22 + 12 * row));
        return count * score;
    }
    u32_at(s, 20 + 12 * row).cast_signed()
}

fn in_range(weight: i32) -> bool
    ensures { (result ≡ true → InRange weight) × (result ≡ false → InRange weight → ⊥) }
{
    -1000000 <= weight && weight <= 1000000
}

// A row's four numbers, all 0 where the table has no such row.
pub fn row_at(s: &[u8], row: usize) -> Row
    ensures { RowOf s.now row result }
{
    if stands(s, row) {
        return Row {
            a: u16_at(s, 12 + 12 * row),
            b: u16_at(s, 14 + 12 * row),
            length: u32_at(s, 16 + 12 * row),
            weight: weight_at(s, row),
        };
    }
    Row {
        a: 0,
        b: 0,
        length: 0,
        weight: 0,
    }
}

// What is added to a row's weight, and to a sum of weights, so that both are carried as natural numbers; and what every
// lifted sum is below.
pub const ROW_LIFT: u32 = 1000000;

pub const SUM_LIFT: u64 = 8589934592;

pub const SUM_END: u64 = 2 * SUM_LIFT;

const BELOW_SUM_LIFT: u64 = SUM_LIFT - 1;

// A row's weight lifted by 1,000,000; 0 where there is no such row or its weight is out of range.
pub fn lifted_at(s: &[u8], row: usize) -> u32
    ensures { LiftedOf s.now row result }
{
    if stands(s, row) {
        let weight = weight_at(s, row);
        if in_range(weight) {
            return (weight + ROW_LIFT as i32) as u32;
        }
    }
    0
}

// A sum lifted by 2^33 brought back to a signed number; 0 for a number that is no such sum.
pub fn lowered(x: u64) -> i64
    ensures { LoweredOf x result }
{
    if SUM_END <= x {
        return 0;
    }
    if x < SUM_LIFT {
        let m = (BELOW_SUM_LIFT - x) as i64;
        return -1 - m;
    }
    (x - SUM_LIFT) as i64
}

// The first of 7 to 10, 22 and 23 that a row meets, if any.
fn row_number(s: &[u8], r: usize, nodes: u16) -> Option<u8>
    requires { Stands s.now r }
    ensures { RowTold nodes s.now r result }
{
    let a = u16_at(s, 12 + 12 * r);
    let b = u16_at(s, 14 + 12 * r);
    if nodes <= a || nodes <= b {
        return Some(7);
    }
    if a == b {
        return Some(8);
    }
    let length = u32_at(s, 16 + 12 * r);
    if 1000000 < length {
        return Some(9);
    }
    if u16_at(s, 3) == 2 {
        if 64 <= u16_at(s, 20 + 12 * r) {
            return Some(22);
        }
        if 20000 < u16_at(s, 22 + 12 * r) {
            return Some(23);
        }
        return None;
    }
    if in_range(weight_at(s, r)) {
        return None;
    }
    Some(10)
}

// Every row in order, after a good header.
fn rows(s: &[u8], table: Opened) -> Opening
    requires { (1 ≤ table.nodes) × (12 * table.nodes ≤ length s.now) }
    ensures { RowsTested Opening opening_refusal s.now table.nodes (λ x. x ≡ Ok table) result }
{
    for r in 0..usize::from(table.nodes) - 1 {
        if let Some(number) = row_number(s, r, table.nodes) {
            return Err(Refusal { number, row: r });
        }
    }
    Ok(table)
}

// Tests 1 to 10, 22 and 23: the header, then row by row.
pub fn examine(s: &[u8]) -> Opening
    ensures { Examines s.now result }
{
    let table = open_table(s)?;
    rows(s, table)
}

// What a reader of s holds: all of s, or an empty part where its header is refused.
pub fn held(s: &[u8]) -> &[u8]
    ensures { HeldOf s.now s.entry.ref_ptr result.now result.ref_ptr }
{
    match open_table(s) {
        Ok(_) => s,
        Err(_) => &s[0..0],
    }
}

// The row reader: the lent table itself together with the row it stands at.
#[derive(Drop)]
pub struct Reader<'a> {
    pub table: &'a [u8],
    pub row: usize,
}

// Opens a reader at row 0.
pub fn read_from<'a>(table: &'a [u8]) -> Reader<'a>
    ensures { HeldOf table.now table.entry.ref_ptr result.table.now result.table.ref_ptr
        × (result.row ≡ 0) }
{
    Reader {
        table: held(table),
        row: 0,
    }
}

// Hands back the caller's own 12 bytes of the row it stands at and moves on by one; where none stand there, an empty
// part, and stays.
pub fn step<'s, 'a>(r: &'s mut Reader<'a>) -> &'a [u8]
    ensures { (r.new.table ≡ r.old.table)
        × Stepped r.old.table.now r.old.table.ref_ptr r.old.row result.now result.ref_ptr
        r.new.row }
{
    let part = row_part(r.table, r.row);
    r.row = next_row(r.table, r.row);
    part
}

// The first row's part, by a reader of its own: for callers that have a slice and want no reader.
pub fn first_row(table: &[u8]) -> &[u8]
    ensures { FirstOf table.now table.entry.ref_ptr result.now result.ref_ptr }
{
    let mut r = read_from(table);
    step(&mut r)
}
