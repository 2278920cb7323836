// What has been handed over to the writer: the two functions that write, and how far they have come.
ghost use Rattle.std.specs.Prelude.{◌+◌, ◌≡◌, IfOk, OnErr, OnOk, length};
ghost use Rattle.std.specs.Io.KnownBytes.{Appends};
ghost use Rattle.streams.specs.Front.{HasWritten};
ghost use Rattle.printing.specs.Printed.{PrintsWith, PrintsFrontWith};
ghost use Rattle.reporting.specs.Report.{Next};
ghost use Rattle.reporting.specs.With.{ReportWith, WholeWith};

use std::io;
use std::io::Write;
use streams::write_all;

// How many bytes of the report have been handed over. The field is private, so that the two functions below alone raise
// it: a report of which a part was left out does not come to its end.
#[derive(Drop)]
pub struct Handed {
    place: usize,
}

pub(crate) fn nothing() -> Handed
    ensures { result.place ≡ 0 }
{
    Handed { place: 0 }
}

// A piece to the writer: its bytes are those of the table's report from where it stands. That the system writes
// what its standard output is handed, in order, is not proved. After an error a front of them has been handed over, and
// there is no outcome to go on with.
pub(crate) fn hand_over<W: Write>(
    to: &mut W,
    s: &[u8],
    piece: &[u8],
    handed: Handed,
) -> io::Result<Handed>
    requires { Next s.now handed.place piece.now }
    ensures counted { IfOk result (λ after. after.place ≡ handed.place + length piece.now) }
    ensures written { OnOk result (Appends (W.contents to.old) (W.contents to.new) piece.now) }
    ensures err { OnErr result (HasWritten (W.contents to.old) (W.contents to.new) piece.now) }
{
    write_all(to, piece)?;
    Ok(Handed {
        place: handed.place + piece.len(),
    })
}

// A line to the writer that is the whole report of a table with a change set, as where the set is refused.
pub(crate) fn hand_over_line<W: Write>(
    to: &mut W,
    table: &[u8],
    changes: &[u8],
    line: &[u8],
) -> io::Result<Handed>
    requires { ReportWith table.now changes.now line.now }
    ensures counted { IfOk result (λ handed. WholeWith table.now changes.now handed.place) }
    ensures written { OnOk result (PrintsWith table.now changes.now (W.contents to.old) (W.contents to.new)) }
    ensures err { OnErr result (PrintsFrontWith table.now changes.now (W.contents to.old) (W.contents to.new)) }
{
    write_all(to, line)?;
    Ok(Handed { place: line.len() })
}
