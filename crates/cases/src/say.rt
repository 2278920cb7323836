// A line of standard output: number, row and ring, the fields, and what lent memory holds.
use std::io;
use std::io::Write;
use streams::write_all;
use tree::Refusal;

// What an operation answers: as many fields as it has, of which one may be a weight, lifted by 2^33.
#[derive(Clone, Copy)]
pub(crate) struct Answer {
    number: u64,
    row: u64,
    ring: u64,
    fields: [u64; 4],
    many: usize,
    weight: Option<usize>,
}

// A refusal: every field is 0.
pub(crate) fn refused(why: Refusal, many: usize) -> Answer {
    Answer {
        number: u64::from(why.number),
        row: why.row as u64,
        ring: why.ring as u64,
        fields: [0; 4],
        many,
        weight: None,
    }
}

// No refusal: the first `many` of these.
pub(crate) fn fine(many: usize, fields: [u64; 4]) -> Answer {
    Answer {
        number: 0,
        row: 0,
        ring: 0,
        fields,
        many,
        weight: None,
    }
}

// The same, where the field `place` is a weight.
pub(crate) fn weighed(many: usize, place: usize, fields: [u64; 4]) -> Answer {
    Answer {
        number: 0,
        row: 0,
        ring: 0,
        fields,
        many,
        weight: Some(place),
    }
}

fn number<W: Write>(to: &mut W, x: u64) -> io::Result<()> {
    write!(to, " {x}")
}

fn lifted<W: Write>(to: &mut W, x: u64) -> io::Result<()> {
    if x < 8589934592 {
        write!(to, " -{}", 8589934592 - x)
    } else {
        number(to, x - 8589934592)
    }
}

fn field<W: Write>(to: &mut W, x: u64, weight: bool) -> io::Result<()> {
    if weight { lifted(to, x) } else { number(to, x) }
}

// The answer on its line, which goes on.
fn told<W: Write>(to: &mut W, a: Answer) -> io::Result<()> {
    number(to, a.number)?;
    number(to, a.row)?;
    number(to, a.ring)?;
    for (i, x) in a.fields.iter().enumerate() {
        if i < a.many {
            field(to, *x, a.weight == Some(i))?;
        }
    }
    Ok(())
}

pub(crate) fn line<W: Write>(to: &mut W, a: Answer) -> io::Result<()> {
    told(to, a)?;
    write_all(to, b"\n")
}

// The answer on a line that shows lent memory: its first elements, as many as are to be shown, and the sum over all.
fn begun<W: Write>(to: &mut W, a: Answer) -> io::Result<()> {
    told(to, a)?;
    write_all(to, b" now")
}

fn sum<W: Write>(to: &mut W, s: u64) -> io::Result<()> {
    write_all(to, b" sum")?;
    number(to, s)?;
    write_all(to, b"\n")
}

// One element more: it is shown where it stands among the first, and joins the sum.
fn more<W: Write>(to: &mut W, s: u64, x: u64, show: bool) -> io::Result<u64> {
    if show {
        number(to, x)?;
    }
    Ok(((s % 4294967291) * 257 + x % 65536) % 4294967291)
}

pub(crate) fn memory<T: Copy + Into<u64>, W: Write>(
    to: &mut W,
    a: Answer,
    m: &[T],
    shown: usize,
) -> io::Result<()> {
    begun(to, a)?;
    let mut s: u64 = 1;
    for (i, x) in m.iter().enumerate() {
        s = more(to, s, (*x).into(), i < shown)?;
    }
    sum(to, s)
}
