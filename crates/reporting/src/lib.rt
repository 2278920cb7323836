// The report of a table, all branches free, in pieces: the net, its heaviest run, every pair that weighs as much, and
// their number; of a refusal its one line. Each piece is put into lent bytes, and each is proved to be what the report
// has there, byte for byte (specs/Report, `Comes` of specs/Pieces). Nothing here writes to the system.
#![tactic(auto)]

mod begun;
mod listed;

ghost use Rattle.std.specs.Prelude.{◌+◌, ◌≡◌, None, replicate};
ghost use Rattle.reporting.specs.work.Pieces.{ReportLent, Shown};

pub use begun::first;
use paging::Rows;

// A piece: its n bytes come next, 0 where the report has ended. The rest is how to go on, and nobody else's.
#[derive(Drop)]
pub struct Piece {
    pub n: usize,
    // how many bytes went before it
    place: usize,
    // how the pairs' lines stand, which follow; None where nothing does
    pairs: Option<Pairs>,
}

// What the listing is asked with, and how many pairs there are; the page that was last asked for, and how many of its
// rows' lines are out.
#[derive(Clone, Copy)]
struct Pairs {
    nodes: u16,
    floor: i64,
    total: usize,
    page: Rows,
    row: usize,
}

// As many free branches as a net can have.
pub fn free_branches() -> [u16; 4095]
    ensures { result ≡ replicate 4095 0 }
{
    [0; 4095]
}

// A piece that nothing follows.
fn last(n: usize, place: usize) -> Piece
    ensures { (result.n ≡ n) × (result.place ≡ place) × (result.pairs ≡ None) }
{
    Piece {
        n,
        place,
        pairs: None,
    }
}

// The piece after p: lines of the page's rows, of the next page's, or the last line.
pub fn next(s: &[u8], branches: &[u16], rows: &mut [u8], out: &mut [u8], p: Piece) -> Piece
    requires { ReportLent branches.now rows.old out.old × Shown s.now rows.old out.old p }
    ensures { Shown s.now rows.new out.new result
        × (result.place ≡ p.place + p.n) }
{
    let at = p.place + p.n;
    let Some(pairs) = p.pairs else {
        return last(0, at);
    };
    if pairs.row < pairs.page.written {
        return listed::some_rows(s, out, rows, pairs, at);
    }
    if pairs.page.left > 0 {
        return listed::next_page(s, branches, rows, out, pairs, at);
    }
    let n = lines::total(out, pairs.total as u64);
    last(n, at)
}
