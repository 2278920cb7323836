// Reads and writes road-graph texts as the trades on standard input ask, and says what came of each; oracle/README.md
// has the form of both. What it must write is what oracle/ says: of a hand-worked trade the answers in
// oracle/roads.txt, of a random one what oracle/ computes. A read or a write that fails ends it with that error.
#![tactic(auto)]

mod asks;
mod read;
mod say;

use std::io;
use std::io::{Read, Write};
use streams::{buffer, copy_line, read_array, read_full};

// The asks of a trade, one after the other, on its two inputs.
fn each<R: Read, W: Write>(
    from: &mut R,
    to: &mut W,
    first: &mut [u8],
    second: &mut [u8],
    count: u16,
) -> io::Result<()> {
    for _ in 0..count {
        let ask = read::next_ask(from)?;
        asks::answer(from, to, first, second, ask)?;
    }
    Ok(())
}

// Of the memory for an input, as much as the input has.
fn with_second<R: Read, W: Write>(
    from: &mut R,
    to: &mut W,
    first: &mut [u8],
    space: &mut [u8],
    size: usize,
    asks: u16,
) -> io::Result<()> {
    if size <= space.len() {
        let second = &mut space[0..size];
        read_full(from, second)?;
        each(from, to, first, second, asks)?;
    }
    Ok(())
}

fn with_first<R: Read, W: Write>(
    from: &mut R,
    to: &mut W,
    space: &mut [u8],
    size: usize,
    other: usize,
    asks: u16,
) -> io::Result<()> {
    if size <= space.len() {
        let first = &mut space[0..size];
        read_full(from, first)?;
        let mut more = buffer::<400000>();
        with_second(from, to, first, &mut more, other, asks)?;
    }
    Ok(())
}

// A trade: how much it has of each thing, then the things.
fn trade<R: Read, W: Write>(from: &mut R, to: &mut W) -> io::Result<()> {
    let text = u16::from_le_bytes(read_array(from)?);
    let asks = u16::from_le_bytes(read_array(from)?);
    let first = read::number(from)?;
    let second = read::number(from)?;
    copy_line(from, to, text)?;
    let mut space = buffer::<400000>();
    with_first(from, to, &mut space, first, second, asks)
}

fn trades<R: Read, W: Write>(from: &mut R, to: &mut W, count: usize) -> io::Result<()> {
    for _ in 0..count {
        trade(from, to)?;
    }
    Ok(())
}

fn main(rt: HostRuntime) -> io::Result<()> {
    let mut from = rt.stdin();
    let mut to = rt.stdout();
    let count = read::number(&mut from)?;
    trades(&mut from, &mut to, count)
}
