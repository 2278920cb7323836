// What is handed over to the writer: the one function that writes, and how much it has handed over.
ghost use Rattle.std.specs.Prelude.{◌++◌, IfOk, OnErr, OnOk};
ghost use Rattle.trade.specs.Told.{Tells, HandedOver, Writes, WritesFront};

use std::io;
use std::io::Write;
use streams::write_both;

// What is asked besides the way: the wire bound, and two inputs.
#[derive(Clone, Copy)]
pub(crate) struct Asked<'a> {
    pub bound: u32,
    pub first: &'a [u8],
    pub second: &'a [u8],
}

// How many bytes have been handed over, in two parts. The fields are private, so that `hand_over` alone makes one: an
// outcome of which something was left out has more bytes.
#[derive(Drop)]
pub(crate) struct Handed {
    one: usize,
    two: usize,
}

// A line and some bytes, another line and some bytes, any of which may be empty: one after the other they tell the
// outcome of what is asked. That the system writes what its standard output is handed, in order, is not proved; a
// writer whose bytes are known has them all, or after an error a front of them.
pub(crate) fn hand_over<W: Write>(
    to: &mut W,
    way: u8,
    asked: &Asked,
    line: &[u8],
    bytes: &[u8],
    other: &[u8],
    more: &[u8],
) -> io::Result<Handed>
    requires { Tells way asked.now.first.now asked.now.second.now asked.now.bound
        ((line.now ++ bytes.now) ++ (other.now ++ more.now)) }
    ensures counted { IfOk result (λ handed. HandedOver way asked.now.first.now asked.now.second.now
        asked.now.bound handed.one handed.two) }
    ensures written { OnOk result (Writes way asked.now.first.now asked.now.second.now asked.now.bound
        (W.contents to.old) (W.contents to.new)) }
    ensures err { OnErr result (WritesFront way asked.now.first.now asked.now.second.now asked.now.bound
        (W.contents to.old) (W.contents to.new)) }
{
    write_both(to, line, bytes)?;
    write_both(to, other, more)?;
    Ok(Handed {
        one: line.len() + bytes.len(),
        two: other.len() + more.len(),
    })
}
