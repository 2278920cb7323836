// A text into lent bytes, piece after piece. Each function asks for room for its piece and no more.
ghost use Rattle.std.specs.Prelude.{[], ◌∷◌, ◌++◌, ◌+◌, ◌-◌, ◌*◌, ◌≤◌, ◌<◌, length};
ghost use Rattle.text.specs.work.Put.{Put};
ghost use Rattle.roads.specs.work.Line.{arc_of};
ghost use Rattle.written.specs.work.Rows.{row_arc, RowsThere};
ghost use Rattle.written.specs.work.Texts.{field_text, number_text, arc_text, row_text, rows_text, head_text, text_of};

use crate::size::Rows;
use text::{put_byte, put_number, put_word};

const LINE_END: u8 = b'\n';

const SPACE: u8 = b' ';

const MINUS: u8 = b'-';

fn put_field(out: &mut [u8], at: usize, x: u64, end: u8) -> usize
    requires { at + length (field_text x end) ≤ length out.old }
    ensures { Put out.old at (field_text x end) out.new result }
{
    let p = put_number(out, at, x);
    put_byte(out, p, end)
}

// An arc's number, from its 32 bits, and the line's end.
fn put_last(out: &mut [u8], at: usize, b: u64, top: u64) -> usize
    requires { (at + length (number_text top b ++ 10 ∷ []) ≤ length out.old) × (b < 4294967296) }
    ensures { Put out.old at (number_text top b ++ 10 ∷ []) out.new result }
{
    if b <= top {
        return put_field(out, at, b, LINE_END);
    }
    let p = put_byte(out, at, MINUS);
    put_field(out, p, 4294967296 - b, LINE_END)
}

fn put_arc(out: &mut [u8], at: usize, from: u64, to: u64, b: u64, top: u64) -> usize
    requires { (at + length (arc_text top (arc_of from to b)) ≤ length out.old) × (b < 4294967296) }
    ensures { Put out.old at (arc_text top (arc_of from to b)) out.new result }
{
    let p = put_word(out, at, b"a ");
    let q = put_field(out, p, from, SPACE);
    let r = put_field(out, q, to, SPACE);
    put_last(out, r, b, top)
}

// A row's arc and its opposite.
fn put_row(out: &mut [u8], at: usize, t: Rows, r: usize) -> usize
    requires { (at + length (row_text t.top (row_arc t.place t.table.now r)) ≤ length out.old)
        × (24 + 12 * r ≤ length t.table.now) × (t.place ≤ 8) }
    ensures { Put out.old at (row_text t.entry.top (row_arc t.entry.place t.entry.table.now r)) out.new result }
{
    let i = 12 + 12 * r;
    let from = numbers::two(t.table, i) + 1;
    let to = numbers::two(t.table, i + 2) + 1;
    let b = numbers::four(t.table, i + t.place);
    let p = put_arc(out, at, from, to, b, t.top);
    put_arc(out, p, to, from, b, t.top)
}

fn put_rows(out: &mut [u8], at: usize, t: Rows, rows: usize) -> usize
    requires { (at + length (rows_text t.top (row_arc t.place t.table.now) rows) ≤ length out.old)
        × RowsThere t.table.now rows t.place }
    ensures { Put out.old at (rows_text t.entry.top (row_arc t.entry.place t.entry.table.now) rows) out.new result }
{
    let mut p = at;
    for r in 0..rows {
        p = put_row(out, p, t, r);
    }
    p
}

// The p line.
fn put_head(out: &mut [u8], nodes: u64, arcs: u64) -> usize
    requires { length (head_text nodes arcs) ≤ length out.old }
    ensures { Put out.old 0 (head_text nodes arcs) out.new result }
{
    let p = put_word(out, 0, b"p sp ");
    let q = put_field(out, p, nodes, SPACE);
    put_field(out, q, arcs, LINE_END)
}

pub fn put_text(out: &mut [u8], s: &[u8], nodes: u16, top: u64, place: usize) -> usize
    requires { (length (text_of top nodes (row_arc place s.now) (nodes - 1)) ≤ length out.old)
        × (1 ≤ nodes) × RowsThere s.now (nodes - 1) place }
    ensures { Put out.old 0 (text_of top nodes (row_arc place s.now) (nodes - 1))
        out.new result }
{
    let rows = usize::from(nodes) - 1;
    let p = put_head(out, u64::from(nodes), 2 * (rows as u64));
    let t = Rows {
        table: s,
        top,
        place,
    };
    put_rows(out, p, t, rows)
}
