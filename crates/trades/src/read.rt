// Standard input: a trade's sizes, its inputs, its asks, all in the order in which they stand there. Where the input
// ends, what is missing is zeros.
ghost use Rattle.std.specs.Prelude.{◌<◌, IfOk};

use std::io;
use std::io::Read;
use streams::read_array;

// An ask: its operation, how many bytes its text has, how much its lines show, and the operation's three numbers.
#[derive(Clone, Copy)]
pub(crate) struct Ask {
    pub(crate) code: u16,
    pub(crate) text: u16,
    pub(crate) shown: usize,
    pub(crate) x: usize,
    pub(crate) y: usize,
    pub(crate) z: usize,
}

// The next number of 32 bits, the lowest byte first.
pub(crate) fn number<R: Read>(from: &mut R) -> io::Result<usize>
    ensures { IfOk result (λ x. x < 4294967296) }
{
    Ok(u32::from_le_bytes(read_array(from)?) as usize)
}

pub(crate) fn next_ask<R: Read>(from: &mut R) -> io::Result<Ask>
    ensures { IfOk result (λ ask. ask.x < 4294967296) }
{
    let code = u16::from_le_bytes(read_array(from)?);
    let text = u16::from_le_bytes(read_array(from)?);
    let shown = usize::from(u16::from_le_bytes(read_array(from)?));
    let x = number(from)?;
    let y = number(from)?;
    let z = number(from)?;
    Ok(Ask {
        code,
        text,
        shown,
        x,
        y,
        z,
    })
}
