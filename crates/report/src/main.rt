// The report program: a table from standard input, its report to standard output. The crate reporting says what that
// is. A read or a write that fails ends it with that error.
#![tactic(auto)]

use std::io;
use streams::{buffer, read_full};

// The input has room for the largest table and one byte more, enough to refuse a longer one; a page has 262,144 rows:
// half of the 8 MB of stack that Linux gives a program.
fn main(rt: HostRuntime) -> io::Result<()> {
    // All three before the first `?`: made after it, the page was cleared twice.
    let mut input = buffer::<49153>();
    let mut rows = buffer::<4194304>();
    let mut out = buffer::<65536>();
    let n = read_full(&mut rt.stdin(), &mut input)?;
    printing::print(&mut rt.stdout(), &input[..n], &mut rows, &mut out)?;
    Ok(())
}
