// Prints the report of a table, or of a table with a change set: each piece is handed over once, as it comes. Of the
// report's crates this one alone writes.
#![tactic(auto)]

mod handed;

ghost use Rattle.std.specs.Prelude.{◌≤◌, [], IfOk, OnErr, OnOk, length};
ghost use Rattle.reporting.specs.Report.{Rest};
ghost use Rattle.reporting.specs.With.{WholeWith};
ghost use Rattle.reporting.specs.work.Pieces.{ReportLent};
ghost use Rattle.printing.specs.Printed.{Prints, PrintsFront, PrintsWith, PrintsFrontWith};

pub use handed::Handed;
use handed::{hand_over, hand_over_line, nothing};
use std::io;
use std::io::Write;

// Piece after piece, until none is left.
fn pieces<W: Write>(
    to: &mut W,
    s: &[u8],
    branches: &[u16],
    rows: &mut [u8],
    out: &mut [u8],
) -> io::Result<Handed>
    requires { ReportLent branches.now rows.old out.old }
    ensures counted { IfOk result (λ handed. Rest s.now handed.place []) }
    ensures written { OnOk result (Prints s.now (W.contents to.old) (W.contents to.new)) }
    ensures err { OnErr result (PrintsFront s.now (W.contents to.old) (W.contents to.new)) }
{
    let mut p = reporting::first(s, branches, rows, out);
    let mut handed = nothing();
    while p.n > 0 {
        handed = hand_over(to, s, &out[..p.n], handed)?;
        p = reporting::next(s, branches, rows, out, p);
    }
    Ok(handed)
}

// The whole report, to the writer. `rows` is lent for pages of the listing, as many rows as fit; `out` for text. A
// write that fails ends it, with that error.
pub fn print<W: Write>(to: &mut W, s: &[u8], rows: &mut [u8], out: &mut [u8]) -> io::Result<Handed>
    requires { (16 ≤ length rows.old) × (65536 ≤ length out.old) }
    ensures counted { IfOk result (λ handed. Rest s.now handed.place []) }
    ensures written { OnOk result (Prints s.now (W.contents to.old) (W.contents to.new)) }
    ensures err { OnErr result (PrintsFront s.now (W.contents to.old) (W.contents to.new)) }
{
    let branches = reporting::free_branches();
    pieces(to, s, &branches, rows, out)
}

// The same of the table with a change set: the changed table is written into a buffer, and its report is the whole one;
// or a line says why it cannot be, by 1 to 6 of the table, 33 or 34.
pub fn print_with<W: Write>(
    to: &mut W,
    table: &[u8],
    changes: &[u8],
    rows: &mut [u8],
    out: &mut [u8],
) -> io::Result<Handed>
    requires { (16 ≤ length rows.old) × (65536 ≤ length out.old) }
    ensures counted { IfOk result (λ handed. WholeWith table.now changes.now handed.place) }
    ensures written { OnOk result (PrintsWith table.now changes.now (W.contents to.old) (W.contents to.new)) }
    ensures err { OnErr result (PrintsFrontWith table.now changes.now (W.contents to.old) (W.contents to.new)) }
{
    let mut buffer = [0; 49152];
    if let Err(why) = changeset::write_in(table, changes, &mut buffer) {
        let n = lines::refused(out, u64::from(why.number), why.row as u64, 0);
        return hand_over_line(to, table, changes, &out[..n]);
    }
    print(to, &buffer[..table.len()], rows, out)
}
