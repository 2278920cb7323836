// The program behind ./report TABLE CHANGES: the report of a table with a change set, to standard output. The crate
// reporting says what that is. Standard input has a head of 8 bytes, the sizes of the table and of the set (four bytes
// each, lowest first), and then the two. Of an input that is longer than there is room for, or shorter than said,
// nothing is handed over. A read or a write that fails ends it with that error.
#![tactic(auto)]

use std::io;
use std::io::{Read, Write};
use streams::{buffer, read_full};

// Whether the next bytes of standard input, as many as the input has, are there.
fn filled<R: Read>(from: &mut R, input: &mut [u8]) -> io::Result<bool> {
    let n = read_full(from, input)?;
    Ok(n == input.len())
}

// A page has 262,144 rows: half of the 8 MB of stack that Linux gives a program.
fn show<R: Read, W: Write>(
    from: &mut R,
    to: &mut W,
    table: &mut [u8],
    changes: &mut [u8],
) -> io::Result<()> {
    if !filled(from, table)? || !filled(from, changes)? {
        return Ok(());
    }
    let mut rows = buffer::<4194304>();
    let mut out = buffer::<65536>();
    printing::print_with(to, table, changes, &mut rows, &mut out)?;
    Ok(())
}

// The table has room for the largest one and one byte more, enough to refuse a longer one; the set has 1 MB, of which a
// good one has 57,336 bytes at most.
fn main(rt: HostRuntime) -> io::Result<()> {
    let mut from = rt.stdin();
    let mut to = rt.stdout();
    let mut h = [0u8; 8];
    read_full(&mut from, &mut h)?;
    let a = u32::from_le_bytes([h[0], h[1], h[2], h[3]]) as usize;
    let b = u32::from_le_bytes([h[4], h[5], h[6], h[7]]) as usize;
    let mut table = buffer::<49153>();
    let mut changes = buffer::<1048576>();
    if a <= table.len() && b <= changes.len() {
        show(&mut from, &mut to, &mut table[..a], &mut changes[..b])?;
    }
    Ok(())
}
