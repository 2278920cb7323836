// A table made anew, in as many lent bytes: its first 12 as they are, then each row that stands in it whole by the
// writer, its numbers read as those of version 2.
ghost use Rattle.std.specs.Prelude.{◌≡◌, ◌+◌, ◌≤◌, length};

use numbers::{four, two};
use writer::RowAnswer;

// Fewer than 12 where there are no more.
fn put_header(s: &[u8], made: &mut [u8])
    requires { length made.old ≡ length s.now }
    ensures { length made.new ≡ length made.old }
{
    let size = s.len().min(12);
    made[..size].copy_from_slice(&s[..size]);
}

fn put_row(s: &[u8], made: &mut [u8], at: usize) -> RowAnswer
    requires { (at + 12 ≤ length s.now) × (length made.old ≡ length s.now) }
{
    let a = two(s, at) as u16;
    let b = two(s, at + 2) as u16;
    let wire = four(s, at + 4) as u32;
    let kind = two(s, at + 8) as u16;
    let count = two(s, at + 10) as u16;
    writer::write_row(a, b, wire, kind, count, &mut made[at..at + 12])
}

// Up to the first row that the writer refuses.
fn put_rows(s: &[u8], made: &mut [u8]) -> RowAnswer
    requires { length made.old ≡ length s.now }
{
    for i in 1..s.len() / 12 {
        put_row(s, made, 12 * i)?;
    }
    Ok(())
}

pub(crate) fn make(s: &[u8], made: &mut [u8]) -> RowAnswer
    requires { length made.old ≡ length s.now }
{
    put_header(s, made);
    put_rows(s, made)
}
