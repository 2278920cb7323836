// Answers the cases on standard input, a line for each ask; oracle/README.md has the form of both. What it must write
// is what oracle/ says: of a hand-worked case the answers in oracle/worked.txt, of a random one what oracle/ computes.
// A read or a write that fails ends it with that error.
#![tactic(auto)]

mod anew;
mod asks;
mod read;
mod say;
mod told;

use crate::read::Sizes;
use std::io;
use std::io::{Read, Write};
use streams::{copy_line, read_array, read_full};

// The asks of a case, one after the other, on one table, one change set and one set of marks.
fn each<R: Read, W: Write>(
    from: &mut R,
    to: &mut W,
    s: &mut [u8],
    set: &[u8],
    marks: &mut [u16],
    count: u16,
) -> io::Result<()> {
    for _ in 0..count {
        let ask = read::next_ask(from)?;
        asks::answer(from, to, s, set, marks, ask)?;
    }
    Ok(())
}

fn with_marks<R: Read, W: Write>(
    from: &mut R,
    to: &mut W,
    s: &mut [u8],
    set: &[u8],
    sizes: Sizes,
) -> io::Result<()> {
    let size = usize::from(sizes.marks);
    let mut space = [0u16; 4200];
    let whole = &mut space[..];
    if size <= whole.len() {
        let marks = &mut whole[..size];
        read::marks(from, marks)?;
        each(from, to, s, set, marks, sizes.asks)?;
    }
    Ok(())
}

fn with_set<R: Read, W: Write>(
    from: &mut R,
    to: &mut W,
    s: &mut [u8],
    sizes: Sizes,
) -> io::Result<()> {
    let size = usize::from(sizes.set);
    let mut space = [0u8; 57400];
    let whole = &mut space[..];
    if size <= whole.len() {
        let set = &mut whole[..size];
        read_full(from, set)?;
        with_marks(from, to, s, set, sizes)?;
    }
    Ok(())
}

fn with_table<R: Read, W: Write>(from: &mut R, to: &mut W, sizes: Sizes) -> io::Result<()> {
    let size = usize::from(sizes.table);
    let mut space = [0u8; 49200];
    let whole = &mut space[..];
    if size <= whole.len() {
        let table = &mut whole[..size];
        read_full(from, table)?;
        with_set(from, to, table, sizes)?;
    }
    Ok(())
}

// A case: how much it has of each thing, then the things.
fn case<R: Read, W: Write>(from: &mut R, to: &mut W) -> io::Result<()> {
    let sizes = read::next_case(from)?;
    copy_line(from, to, sizes.text)?;
    with_table(from, to, sizes)
}

fn cases<R: Read, W: Write>(from: &mut R, to: &mut W, count: u64) -> io::Result<()> {
    for _ in 0..count {
        case(from, to)?;
    }
    Ok(())
}

fn main(rt: HostRuntime) -> io::Result<()> {
    let mut from = rt.stdin();
    let mut to = rt.stdout();
    let count = u64::from_le_bytes(read_array(&mut from)?);
    cases(&mut from, &mut to, count)
}
