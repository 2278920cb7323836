// The first piece: a refusal's one line, or the first two lines of a net that has a heaviest run.
ghost use Rattle.std.specs.Prelude.{◌≤◌, ◌≡◌, MatchResult, Ok, length};
ghost use Rattle.tree.specs.Accept.{Accepts};
ghost use Rattle.heaviest.specs.Heaviest.{HeaviestOf};
ghost use Rattle.lines.specs.Lines.{refused_text};
ghost use Rattle.reporting.specs.Report.{all_free, Rest};
ghost use Rattle.reporting.specs.work.Pieces.{ReportLent, Shown};

use crate::listed::ask;
use crate::{Pairs, Piece, last};
use heaviest::Between;
use table::Opened;
use tree::Refusal;

fn refuse(s: &[u8], rows: &[u8], out: &mut [u8], why: Refusal) -> Piece
    requires { (65536 ≤ length out.old) × Rest s.now 0 (refused_text why.number why.row why.ring) }
    ensures { Shown s.now rows.now out.new result × (result.place ≡ 0) }
{
    let n = lines::refused(out, u64::from(why.number), why.row as u64, why.ring as u64);
    last(n, 0)
}

// The first two lines. The first page is asked for with them, so that their number is known.
fn lined(
    s: &[u8],
    net: Opened,
    marks: &[u16],
    best: Between,
    rows: &mut [u8],
    out: &mut [u8],
) -> Piece
    requires { Accepts s.now (Ok net)
        × (marks.now ≡ all_free net.nodes)
        × HeaviestOf s.now marks.now (Ok best)
        × (16 ≤ length rows.old)
        × (65536 ≤ length out.old) }
    ensures { Shown s.now rows.new out.new result × (result.place ≡ 0) }
{
    let page = ask(s, marks, best.weight, 0, 0, rows);
    let bits = text::bits_of(best.weight);
    let n = lines::top(
        out,
        u64::from(net.nodes),
        u64::from(net.bound),
        u64::from(best.low),
        u64::from(best.high),
        u64::from(best.length),
        bits,
    );
    let pairs = Pairs {
        nodes: net.nodes,
        floor: best.weight,
        total: page.written + page.left,
        page,
        row: 0,
    };
    Piece {
        n,
        place: 0,
        pairs: Some(pairs),
    }
}

// Of a table that is not refused. The heaviest run is known before a line is made.
fn begin(s: &[u8], branches: &[u16], rows: &mut [u8], out: &mut [u8]) -> Result<Piece, Refusal>
    requires { ReportLent branches.now rows.old out.old }
    ensures { MatchResult result (λ piece. Shown s.now rows.new out.new piece × (piece.place ≡ 0))
        (λ why. Rest s.now 0 (refused_text why.number why.row why.ring)) }
{
    let net = tree::accept(s)?;
    let n = usize::from(net.nodes) - 1;
    let marks = &branches[..n];
    let best = heaviest::heaviest(s, marks)?;
    Ok(lined(s, net, marks, best, rows, out))
}

// `rows` is lent for pages of the listing, as many rows as fit; `out` for text.
pub fn first(s: &[u8], branches: &[u16], rows: &mut [u8], out: &mut [u8]) -> Piece
    requires { ReportLent branches.now rows.old out.old }
    ensures { Shown s.now rows.new out.new result × (result.place ≡ 0) }
{
    match begin(s, branches, rows, out) {
        Ok(piece) => piece,
        Err(why) => refuse(s, rows, out, why),
    }
}
