// Lines of standard output: a refusal's number, row and ring, the sizes, and what lent memory holds.
use dimacs::{ReadAnswer, WriteAnswer};
use std::io;
use std::io::Write;
use streams::write_all;
use tree::Refusal;

fn word<W: Write>(to: &mut W, w: &[u8]) -> io::Result<()> {
    write_all(to, w)
}

fn number<W: Write>(to: &mut W, x: usize) -> io::Result<()> {
    write!(to, " {x}")
}

fn refused<W: Write>(to: &mut W, why: &Refusal) -> io::Result<()> {
    number(to, usize::from(why.number))?;
    number(to, why.row)?;
    number(to, why.ring)
}

fn fine<W: Write>(to: &mut W) -> io::Result<()> {
    number(to, 0)?;
    number(to, 0)?;
    number(to, 0)
}

// One byte more: it is shown where it stands among the first, and joins the sum.
fn more<W: Write>(to: &mut W, s: usize, x: usize, show: bool) -> io::Result<usize> {
    if show {
        number(to, x)?;
    }
    Ok(((s % 4294967291) * 257 + x % 256) % 4294967291)
}

fn sum<W: Write>(to: &mut W, s: usize) -> io::Result<()> {
    word(to, b" sum")?;
    number(to, s)
}

// The lent bytes, as many of the first as are to be shown, and the sum over all.
fn shows<W: Write>(to: &mut W, m: &[u8], shown: usize) -> io::Result<()> {
    let mut s: usize = 1;
    for (i, x) in m.iter().enumerate() {
        s = more(to, s, usize::from(*x), i < shown)?;
    }
    sum(to, s)
}

// The line of a reading, from what stands on it already on.
pub(crate) fn made<W: Write>(
    to: &mut W,
    o: ReadAnswer,
    table: &[u8],
    shown: usize,
) -> io::Result<()> {
    match o {
        Ok(size) => {
            fine(to)?;
            number(to, size)?;
        }
        Err(why) => {
            refused(to, &why)?;
            number(to, 0)?;
        }
    }
    word(to, b" now")?;
    shows(to, table, shown)?;
    word(to, b"\n")
}

// The line of a writing.
pub(crate) fn wrote<W: Write>(
    to: &mut W,
    o: &WriteAnswer,
    lengths: &[u8],
    weights: &[u8],
) -> io::Result<()> {
    match o {
        Ok(sizes) => {
            fine(to)?;
            number(to, sizes.lengths)?;
            number(to, sizes.weights)?;
        }
        Err(why) => {
            refused(to, why)?;
            number(to, 0)?;
            number(to, 0)?;
        }
    }
    shows(to, lengths, 0)?;
    shows(to, weights, 0)?;
    word(to, b"\n")
}

// A text as it was written, where it is no longer than what is to be shown.
pub(crate) fn text<W: Write>(to: &mut W, t: &[u8], shown: usize) -> io::Result<()> {
    if t.len() <= shown {
        word(to, t)?;
    }
    Ok(())
}

// What the line begins with that tells what was read back.
pub(crate) fn back<W: Write>(to: &mut W) -> io::Result<()> {
    word(to, b"back:")
}
