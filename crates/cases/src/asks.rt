// The operations: what an ask calls, and its answer as fields. A new operation is a code and an arm here, and where its
// answer is of a new sort how that is told (told.rt). By a code that is greater by 128 it is asked with the case's
// change set.
ghost use Rattle.std.specs.Prelude.{◌≡◌, length};

use crate::read::Ask;
use crate::say::Answer;
use crate::told::{Told, outcome, ringless};
use crate::{anew, say};
use accept::AcceptAnswer;
use changes::Change;
use numbers::put_bytes;
use paging::Listed;
use spines::HeadsAnswer;
use std::io;
use std::io::{Read, Write};
use streams::{copy_line, read_full};
use vetting::Vetted;
use window::WindowAnswer;
use writer::RowAnswer;

// What the mark of a row says: whether it is spent, and its run. Nothing where the row has none.
fn mark_of(marks: &[u16], row: usize) -> Answer {
    if row >= marks.len() {
        return say::fine(2, [0; 4]);
    }
    let mark = marks[row];
    say::fine(
        2,
        [
            u64::from(marks::is_spent(mark)),
            u64::from(marks::run_of(mark)),
            0,
            0,
        ],
    )
}

// The table's own functions, and the row shown. A row number is any that 64 bits hold.
fn of_table<W: Write>(to: &mut W, s: &[u8], set: &[u8], q: Ask) -> io::Result<()> {
    let code = q.code;
    let row = q.x as usize;
    let shown = q.shown;
    match code {
        1 => say::line(to, outcome(ringless(table::open_table(s)))),
        2 => say::line(to, outcome(ringless(table::examine(s)))),
        3 => say::memory(to, say::fine(0, [0; 4]), table::row_part(s, row), shown),
        4 => say::line(to, say::fine(1, [table::next_row(s, row) as u64, 0, 0, 0])),
        5 => say::memory(to, say::fine(0, [0; 4]), table::first_row(s), shown),
        6 => say::line(to, table::row_at(s, row).told()),
        _ => say::memory(
            to,
            say::fine(0, [0; 4]),
            changeset::shown(s, set, row),
            shown,
        ),
    }
}

// The lower sum of a window is where the floor of a listing is.
fn in_window(s: &[u8], set: &[u8], marks: &[u16], q: Ask) -> WindowAnswer {
    let sum_low = q.x.cast_signed();
    let sum_high = q.sum_high.cast_signed();
    if q.code == 23 {
        return window::window(s, marks, q.count_low, q.count_high, sum_low, sum_high);
    }
    frozen::window_with(s, set, marks, q.count_low, q.count_high, sum_low, sum_high)
}

// Those that lend nothing and change nothing.
fn of_net(s: &[u8], set: &[u8], marks: &[u16], q: Ask) -> Answer {
    let code = q.code;
    match code {
        17 => outcome(accept::accept(s)),
        18 => outcome(pair::pair(s, marks, q.a, q.b)),
        19 => outcome(heaviest::heaviest(s, marks)),
        20 => outcome(heaviest::heaviest_exact(s, marks)),
        21 => outcome(convert::convert(s, marks)),
        22 => mark_of(marks, q.x as usize),
        24 => outcome(mesh::mesh(s)),
        _ => outcome(in_window(s, set, marks, q)),
    }
}

fn of_changed_net(s: &[u8], set: &[u8], marks: &[u16], q: Ask) -> Answer {
    let code = q.code;
    match code {
        145 => outcome(frozen::accept_with(s, set)),
        146 => outcome(frozen::pair_with(s, set, marks, q.a, q.b)),
        147 => outcome(frozen::heaviest_with(s, set, marks)),
        148 => outcome(frozen::heaviest_exact_with(s, set, marks)),
        149 => outcome(frozen::convert_with(s, set, marks)),
        _ => outcome(in_window(s, set, marks, q)),
    }
}

fn all_in_window(s: &[u8], set: &[u8], marks: &[u16], q: Ask, rows: &mut [u8]) -> Listed {
    let sum_low = q.x.cast_signed();
    let sum_high = q.sum_high.cast_signed();
    if q.code == 35 {
        return window::window_list(
            s,
            marks,
            q.count_low,
            q.count_high,
            sum_low,
            sum_high,
            q.a,
            q.b,
            rows,
        );
    }
    frozen::window_list_with(
        s,
        set,
        marks,
        q.count_low,
        q.count_high,
        sum_low,
        sum_high,
        q.a,
        q.b,
        rows,
    )
}

fn page(s: &[u8], set: &[u8], marks: &[u16], q: Ask, rows: &mut [u8]) -> Listed {
    let code = q.code;
    let floor = q.x.cast_signed();
    match code {
        33 => listing::listing(s, marks, floor, q.a, q.b, rows),
        34 => listing::listing_exact(s, marks, floor, q.a, q.b, rows),
        161 => frozen::listing_with(s, set, marks, floor, q.a, q.b, rows),
        162 => frozen::listing_exact_with(s, set, marks, floor, q.a, q.b, rows),
        _ => all_in_window(s, set, marks, q, rows),
    }
}

// A row's kind stands where a run does, its length and its count, of 16 bits, where a window's count limits do.
fn row_of(q: Ask, row: &mut [u8]) -> RowAnswer {
    let count = (q.count_high % 65536) as u16;
    writer::write_row(q.a, q.b, q.count_low, q.run, count, row)
}

// What is put into lent bytes: one row, or a page of them.
fn put(s: &[u8], set: &[u8], marks: &[u16], q: Ask, rows: &mut [u8]) -> Answer {
    if q.code == 36 {
        return outcome(ringless(row_of(q, rows)));
    }
    outcome(page(s, set, marks, q, rows))
}

// As many bytes as are lent, each of which held 165.
fn of_lent<W: Write>(to: &mut W, s: &[u8], set: &[u8], marks: &[u16], q: Ask) -> io::Result<()> {
    let size = q.lent;
    let mut space = [165u8; 65536];
    let whole = &mut space[..];
    if size <= whole.len() {
        let rows = &mut whole[0..size];
        let a = put(s, set, marks, q, rows);
        say::memory(to, a, rows, q.shown)?;
    }
    Ok(())
}

// What the writer refuses; or all rows are written, and what was made is accepted or not.
fn remade(s: &[u8], made: &mut [u8]) -> AcceptAnswer
    requires { length made.old ≡ length s.now }
{
    anew::make(s, made)?;
    accept::accept(made)
}

// As many bytes as the table has, each of which held 165.
fn of_table_anew<W: Write>(to: &mut W, s: &[u8], q: Ask) -> io::Result<()> {
    let size = s.len();
    let mut space = [165u8; 65536];
    let whole = &mut space[..];
    if size <= whole.len() {
        let made = &mut whole[0..size];
        let a = outcome(remade(s, made));
        say::memory(to, a, made, q.shown)?;
    }
    Ok(())
}

// Those that put rows into bytes.
fn of_rows<W: Write>(to: &mut W, s: &[u8], set: &[u8], marks: &[u16], q: Ask) -> io::Result<()> {
    if q.code == 37 {
        of_table_anew(to, s, q)
    } else {
        of_lent(to, s, set, marks, q)
    }
}

fn heads(s: &[u8], set: &[u8], q: Ask, list: &mut [u16]) -> HeadsAnswer {
    if q.code == 49 {
        return spines::heads(s, list);
    }
    frozen::heads_with(s, set, list)
}

// A list of as many heads as are lent, each of which held 165.
fn of_heads<W: Write>(to: &mut W, s: &[u8], set: &[u8], q: Ask) -> io::Result<()> {
    let size = q.lent;
    let mut space = [165u16; 4200];
    let whole = &mut space[..];
    if size <= whole.len() {
        let list = &mut whole[0..size];
        let a = outcome(heads(s, set, q, list));
        say::memory(to, a, list, q.shown)?;
    }
    Ok(())
}

fn change(s: &[u8], set: &[u8], marks: &mut [u16], q: Ask) -> Change {
    let code = q.code;
    match code {
        65 => changes::claim(s, marks, q.run, q.a, q.b),
        66 => changes::commit(s, marks, q.run),
        67 => changes::abort(s, marks, q.run),
        193 => frozen::claim_with(s, set, marks, q.run, q.a, q.b),
        194 => frozen::commit_with(s, set, marks, q.run),
        _ => frozen::abort_with(s, set, marks, q.run),
    }
}

fn of_marks<W: Write>(
    to: &mut W,
    s: &[u8],
    set: &[u8],
    marks: &mut [u16],
    q: Ask,
) -> io::Result<()> {
    let a = outcome(change(s, set, marks, q));
    say::memory(to, a, marks, q.shown)
}

// No operation: another bound for the asks that follow, in the table's own bytes. A table without room for it stays.
fn of_bound<W: Write>(to: &mut W, s: &mut [u8], q: Ask) -> io::Result<()> {
    if s.len() >= 12 {
        put_bytes(s, 8, q.x, 4);
    }
    say::line(to, say::fine(0, [0; 4]))
}

fn verdict_on(s: &[u8], set: &[u8], marks: &[u16], q: Ask, list: &[u8]) -> Vetted {
    let floor = q.x.cast_signed();
    if q.code == 97 {
        return vet::vet(s, marks, floor, list);
    }
    frozen::vet_with(s, set, marks, floor, list)
}

// A list to be read, of as many bytes as the ask says, which stand behind its text.
fn of_list<R: Read, W: Write>(
    from: &mut R,
    to: &mut W,
    s: &[u8],
    set: &[u8],
    marks: &[u16],
    q: Ask,
) -> io::Result<()> {
    let size = q.lent;
    let mut space = [0u8; 65536];
    let whole = &mut space[..];
    if size <= whole.len() {
        let list = &mut whole[0..size];
        read_full(from, list)?;
        say::line(to, outcome(verdict_on(s, set, marks, q, list)))?;
    }
    Ok(())
}

pub(crate) fn answer<R: Read, W: Write>(
    from: &mut R,
    to: &mut W,
    s: &mut [u8],
    set: &[u8],
    marks: &mut [u16],
    q: Ask,
) -> io::Result<()> {
    copy_line(from, to, q.text)?;
    let sort = q.code / 16;
    match sort {
        0 | 8 => of_table(to, s, set, q),
        1 => say::line(to, of_net(s, set, marks, q)),
        2 | 10 => of_rows(to, s, set, marks, q),
        3 | 11 => of_heads(to, s, set, q),
        4 | 12 => of_marks(to, s, set, marks, q),
        5 => of_bound(to, s, q),
        9 => say::line(to, of_changed_net(s, set, marks, q)),
        _ => of_list(from, to, s, set, marks, q),
    }
}
