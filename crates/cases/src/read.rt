// Standard input: a case's sizes, its bytes and marks, its asks, all in the order in which they stand there. Where
// the input ends, what is missing is zeros.
use std::io;
use std::io::Read;
use streams::read_array;

// How much a case has of each thing: bytes of its text, its table and its change set, marks, asks.
#[derive(Clone, Copy)]
pub(crate) struct Sizes {
    pub(crate) text: u16,
    pub(crate) table: u16,
    pub(crate) set: u16,
    pub(crate) marks: u16,
    pub(crate) asks: u16,
}

// An ask: its operation, how many bytes its text has, how much memory is lent (of vet, how many bytes the list has) and
// how much of that is written out after the call, and the operation's numbers: those of a window stand at the end, but
// for its lower sum, which is x. Of a row to be written the kind is run, the length count_low, the count count_high.
#[derive(Clone, Copy)]
pub(crate) struct Ask {
    pub(crate) code: u16,
    pub(crate) text: u16,
    pub(crate) lent: usize,
    pub(crate) shown: usize,
    pub(crate) run: u16,
    pub(crate) a: u16,
    pub(crate) b: u16,
    pub(crate) x: u64,
    pub(crate) sum_high: u64,
    pub(crate) count_low: u32,
    pub(crate) count_high: u32,
}

pub(crate) fn next_case<R: Read>(from: &mut R) -> io::Result<Sizes> {
    let text = u16::from_le_bytes(read_array(from)?);
    let table = u16::from_le_bytes(read_array(from)?);
    let set = u16::from_le_bytes(read_array(from)?);
    let marks = u16::from_le_bytes(read_array(from)?);
    let asks = u16::from_le_bytes(read_array(from)?);
    Ok(Sizes {
        text,
        table,
        set,
        marks,
        asks,
    })
}

pub(crate) fn next_ask<R: Read>(from: &mut R) -> io::Result<Ask> {
    let code = u16::from_le_bytes(read_array(from)?);
    let text = u16::from_le_bytes(read_array(from)?);
    let lent = usize::from(u16::from_le_bytes(read_array(from)?));
    let shown = usize::from(u16::from_le_bytes(read_array(from)?));
    let run = u16::from_le_bytes(read_array(from)?);
    let a = u16::from_le_bytes(read_array(from)?);
    let b = u16::from_le_bytes(read_array(from)?);
    let x = u64::from_le_bytes(read_array(from)?);
    let sum_high = u64::from_le_bytes(read_array(from)?);
    let count_low = u32::from_le_bytes(read_array(from)?);
    let count_high = u32::from_le_bytes(read_array(from)?);
    Ok(Ask {
        code,
        text,
        lent,
        shown,
        run,
        a,
        b,
        x,
        sum_high,
        count_low,
        count_high,
    })
}

pub(crate) fn marks<R: Read>(from: &mut R, marks: &mut [u16]) -> io::Result<()> {
    for mark in marks.iter_mut() {
        *mark = u16::from_le_bytes(read_array(from)?);
    }
    Ok(())
}
