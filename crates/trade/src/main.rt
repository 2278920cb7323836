// The program behind ./dimacs: two road-graph texts become a table, or a table two such texts. Standard input has a
// head of 13 bytes, the way (1 read, 2 write), the wire bound and the sizes of two inputs (four bytes each, lowest
// first), and then the inputs: the texts with lengths and with weights, or a table and nothing. What is handed over is
// in specs/Told. Of an input that is longer than there is room for, or shorter than said, nothing is. A read
// or a write that fails ends it with that error.
#![tactic(auto)]

mod handed;
mod trading;

use handed::Asked;
use std::io;
use std::io::{Read, Write};
use streams::{buffer, read_full};

// Whether the next bytes of standard input, as many as the input has, are there.
fn filled<R: Read>(from: &mut R, input: &mut [u8]) -> io::Result<bool> {
    let n = read_full(from, input)?;
    Ok(n == input.len())
}

// A table of such texts takes 786,448 bytes at most.
fn read<W: Write>(to: &mut W, asked: &Asked) -> io::Result<()> {
    let mut table = buffer::<786448>();
    let mut line = buffer::<128>();
    trading::read(to, asked, &mut table, &mut line)?;
    Ok(())
}

fn write<W: Write>(to: &mut W, asked: &Asked) -> io::Result<()> {
    let mut lengths = buffer::<180000>();
    let mut weights = buffer::<180000>();
    let mut line = buffer::<128>();
    let mut other = buffer::<128>();
    trading::write(to, asked, &mut lengths, &mut weights, &mut line, &mut other)?;
    Ok(())
}

fn trade<R: Read, W: Write>(
    from: &mut R,
    to: &mut W,
    way: u8,
    bound: u32,
    first: &mut [u8],
    second: &mut [u8],
) -> io::Result<()> {
    if !filled(from, first)? || !filled(from, second)? {
        return Ok(());
    }
    let asked = Asked {
        bound,
        first,
        second,
    };
    match way {
        1 => read(to, &asked),
        2 => write(to, &asked),
        _ => Ok(()),
    }
}

// 1 MB for a text, twice: the system gives a program 8 MB of stack.
fn main(rt: HostRuntime) -> io::Result<()> {
    let mut from = rt.stdin();
    let mut to = rt.stdout();
    let mut h = [0u8; 13];
    read_full(&mut from, &mut h)?;
    let bound = u32::from_le_bytes([h[1], h[2], h[3], h[4]]);
    let a = u32::from_le_bytes([h[5], h[6], h[7], h[8]]) as usize;
    let b = u32::from_le_bytes([h[9], h[10], h[11], h[12]]) as usize;
    let mut first = buffer::<1048576>();
    let mut second = buffer::<1048576>();
    if a <= first.len() && b <= second.len() {
        trade(
            &mut from,
            &mut to,
            h[0],
            bound,
            &mut first[..a],
            &mut second[..b],
        )?;
    }
    Ok(())
}
