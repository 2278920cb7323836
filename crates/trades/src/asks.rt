// What an ask calls. Every byte of lent memory holds 165 before.
ghost use Rattle.std.specs.Prelude.{◌<◌};

use crate::read::Ask;
use crate::say;
use dimacs::WriteAnswer;
use std::io;
use std::io::{Read, Write};
use streams::copy_line;

// Two texts read into as many bytes as are lent, and what came of it.
fn reading<W: Write>(
    to: &mut W,
    lengths: &[u8],
    weights: &[u8],
    bound: usize,
    room: usize,
    shown: usize,
) -> io::Result<()>
    requires { bound < 4294967296 }
{
    let mut space = [165u8; 200000];
    let whole = &mut space[..];
    if room <= whole.len() {
        let table = &mut whole[0..room];
        let o = dimacs::read(lengths, weights, bound as u32, table);
        say::made(to, o, table, shown)?;
    }
    Ok(())
}

// What was written is shown, and read back into as many bytes as the table has.
fn back<W: Write>(
    to: &mut W,
    s: &[u8],
    lengths: &[u8],
    weights: &[u8],
    bound: usize,
    shown: usize,
) -> io::Result<()>
    requires { bound < 4294967296 }
{
    say::text(to, lengths, shown)?;
    say::text(to, weights, shown)?;
    say::back(to)?;
    reading(to, lengths, weights, bound, s.len(), shown)
}

// Both texts of a table, or of the table with its change set, into what is lent for each.
fn texts(s: &[u8], set: &[u8], lengths: &mut [u8], weights: &mut [u8], q: Ask) -> WriteAnswer {
    if q.code == 2 {
        return dimacs::write(s, lengths, weights);
    }
    frozen::write_with(s, set, lengths, weights)
}

// These, and where nothing is refused they are read back.
fn writing<W: Write>(
    to: &mut W,
    s: &[u8],
    set: &[u8],
    lengths: &mut [u8],
    weights: &mut [u8],
    q: Ask,
) -> io::Result<()>
    requires { q.x < 4294967296 }
{
    let o = texts(s, set, lengths, weights, q);
    say::wrote(to, &o, lengths, weights)?;
    if let Ok(sizes) = o
        && sizes.lengths <= lengths.len()
        && sizes.weights <= weights.len()
    {
        let long = &lengths[..sizes.lengths];
        let heavy = &weights[..sizes.weights];
        back(to, s, long, heavy, q.x, q.shown)?;
    }
    Ok(())
}

// Memory to lend for a text.
fn text_space() -> [u8; 400000] {
    [165; 400000]
}

// Of it, as much as is lent.
fn with_weights<W: Write>(
    to: &mut W,
    s: &[u8],
    set: &[u8],
    lengths: &mut [u8],
    space: &mut [u8],
    q: Ask,
) -> io::Result<()>
    requires { q.x < 4294967296 }
{
    let room = q.z;
    if room <= space.len() {
        let weights = &mut space[0..room];
        writing(to, s, set, lengths, weights, q)?;
    }
    Ok(())
}

fn with_lengths<W: Write>(
    to: &mut W,
    s: &[u8],
    set: &[u8],
    space: &mut [u8],
    q: Ask,
) -> io::Result<()>
    requires { q.x < 4294967296 }
{
    let room = q.y;
    if room <= space.len() {
        let lengths = &mut space[0..room];
        let mut other = text_space();
        with_weights(to, s, set, lengths, &mut other, q)?;
    }
    Ok(())
}

fn written<W: Write>(to: &mut W, s: &[u8], set: &[u8], q: Ask) -> io::Result<()>
    requires { q.x < 4294967296 }
{
    let mut space = text_space();
    with_lengths(to, s, set, &mut space, q)
}

// A byte of an input is another one from here on.
fn change(input: &mut [u8], place: usize, byte: usize) {
    if place < input.len() {
        input[place] = (byte % 256) as u8;
    }
}

pub(crate) fn answer<R: Read, W: Write>(
    from: &mut R,
    to: &mut W,
    first: &mut [u8],
    second: &mut [u8],
    q: Ask,
) -> io::Result<()>
    requires { q.x < 4294967296 }
{
    copy_line(from, to, q.text)?;
    let code = q.code;
    match code {
        1 => reading(to, first, second, q.x, q.y, q.shown),
        3 => {
            change(first, q.x, q.y);
            Ok(())
        }
        4 => {
            change(second, q.x, q.y);
            Ok(())
        }
        _ => written(to, first, second, q),
    }
}
