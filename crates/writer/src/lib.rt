// The operation write row: two nodes, length, kind and count as one row of version 2, into 12 lent bytes. Filler is no
// longer written. It takes any numbers and any lent bytes, and asks nothing of its caller.
#![tactic(auto)]

ghost use Rattle.std.specs.Prelude.{◌≡◌, length};
ghost use Rattle.limits.specs.work.Fits.{Decides};
ghost use Rattle.writer.specs.WriteRow.{Filler, cell_row, WritesRow};

use numbers::put_bytes;
use table::Refusal;

// The row is written, or why not.
pub type RowAnswer = Result<(), Refusal>;

// Between crates: whether a kind is filler, which this crate refuses and acceptance counts.
pub fn is_filler(kind: u64) -> bool
    ensures { Decides (Filler kind) result }
{
    matches!(kind, 24..=31)
}

// The row's five numbers, one after the other.
fn put_row(a: u16, b: u16, wire: u32, kind: u16, count: u16, row: &mut [u8])
    requires { length row.old ≡ 12 }
    ensures { row.new ≡ cell_row a b wire kind count }
{
    put_bytes(row, 0, u64::from(a), 2);
    put_bytes(row, 2, u64::from(b), 2);
    put_bytes(row, 4, u64::from(wire), 4);
    put_bytes(row, 8, u64::from(kind), 2);
    put_bytes(row, 10, u64::from(count), 2);
}

// The length is called wire here: in a contract length is that of the lent bytes.
pub fn write_row(a: u16, b: u16, wire: u32, kind: u16, count: u16, row: &mut [u8]) -> RowAnswer
    ensures { WritesRow a b wire kind count row.old (result, row.new) }
{
    if 4095 < a || 4095 < b {
        return Err(Refusal { number: 7, row: 0 });
    }
    if a == b {
        return Err(Refusal { number: 8, row: 0 });
    }
    if 1000000 < wire {
        return Err(Refusal { number: 9, row: 0 });
    }
    if 64 <= kind {
        return Err(Refusal { number: 22, row: 0 });
    }
    if is_filler(u64::from(kind)) {
        return Err(Refusal { number: 35, row: 0 });
    }
    if 20000 < count {
        return Err(Refusal { number: 23, row: 0 });
    }
    if row.len() != 12 {
        return Err(Refusal { number: 39, row: 0 });
    }
    put_row(a, b, wire, kind, count, row);
    Ok(())
}
