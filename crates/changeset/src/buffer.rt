// The changed table in a lent buffer: the table copied, and the entries put over it, one by one.
ghost use Rattle.std.specs.Prelude.{◌+◌, ◌≤◌, length};
ghost use Rattle.changeset.specs.work.Buffer.{
  BytesPut,
  BufferLent,
  RowsEach,
  Apart,
  EntriesPut,
  WritesIn,
};

use crate::entries::{count, formed, number_at};
use table::Refusal;

// The N bytes of a set from place `from` on, put into the buffer from place `at` on. All are read before the first is
// stored, so that they can be moved as wider words.
fn put<const N: usize>(c: &[u8], from: usize, out: &mut [u8], at: usize)
    requires { (from + N ≤ length c.now) × (at + N ≤ length out.old) }
    ensures { BytesPut N c.now from out.old at out.new }
{
    let mut word = [0; N];
    word.copy_from_slice(&c[from..from + N]);
    out[at..at + N].copy_from_slice(&word);
}

// The table, and over it the entries, as long as their row numbers rise and stay below n - 1: whether they do to the
// end.
fn put_entries(table: &[u8], c: &[u8], n: usize, out: &mut [u8]) -> bool
    requires { BufferLent table.now n out.old }
    ensures { EntriesPut table.now c.now n out.new result }
{
    text::put_word(out, 0, table);
    let m = count(c);
    let mut low: usize = 0;
    for i in 0..m {
        let r = number_at(c, 6 + 14 * i);
        if r < low || n <= r + 1 {
            return false;
        }
        put::<12>(c, 8 + 14 * i, out, 12 + 12 * r);
        low = r + 1;
    }
    true
}

// 0 as long as it was 0 and two numbers are equal.
fn apart(off: usize, x: usize, i: usize) -> usize
    ensures { Apart off x i result }
{
    off | (x ^ i)
}

// The same of as many entries as the table has rows: they rise exactly if entry i is for row i, so that no row of the
// table is left and only its header is copied. The loop has no other exit, and moves 4 bytes more than a row, which the
// next entry's row covers: beside acceptance, the shortest operation, every turn counts.
fn put_all(table: &[u8], c: &[u8], n: usize, out: &mut [u8]) -> bool
    requires { BufferLent table.now n out.old × RowsEach c.now n }
    ensures { EntriesPut table.now c.now n out.new result }
{
    text::put_word(out, 0, &table[..12]);
    let last = n - 2;
    let mut off: usize = 0;
    for i in 0..last {
        put::<16>(c, 8 + 14 * i, out, 12 + 12 * i);
        off = apart(off, number_at(c, 6 + 14 * i), i);
    }
    put::<12>(c, 8 + 14 * last, out, 12 + 12 * last);
    apart(off, number_at(c, 6 + 14 * last), last) == 0
}

// The four parameters are handed on here alone: as a struct they would have but one more name.
fn put_rows(table: &[u8], c: &[u8], n: usize, out: &mut [u8]) -> bool
    requires { BufferLent table.now n out.old }
    ensures { EntriesPut table.now c.now n out.new result }
{
    if 2 <= n && count(c) == n - 1 {
        put_all(table, c, n, out)
    } else {
        put_entries(table, c, n, out)
    }
}

// Between crates: 1 to 6 of the table, 33 or 34; or nothing is refused, and the changed table, which is as long as the
// table, stands at the front of the buffer. Nothing is promised of the bytes beyond it, nor of any where it refuses.
pub fn write_in(table: &[u8], changes: &[u8], out: &mut [u8]) -> Result<(), Refusal>
    requires { 49152 ≤ length out.old }
    ensures { WritesIn table.now changes.now out.new result }
{
    let opened = table::open_table(table)?;
    if !formed(changes) {
        return Err(Refusal { number: 33, row: 0 });
    }
    if !put_rows(table, changes, usize::from(opened.nodes), out) {
        return Err(Refusal { number: 34, row: 0 });
    }
    Ok(())
}
