// The operation accept: 1 to 11 by tree, and how many rows of an accepted table are filler.
#![tactic(auto)]

ghost use Rattle.std.specs.Prelude.{◌*◌, ◌-◌, ◌≤◌, ◌≡◌, length};
ghost use Rattle.table.specs.Row.{Stands, kind_at};
ghost use Rattle.net.specs.Count.{Count};
ghost use Rattle.accept.specs.Accept.{FillerBelow, AcceptOf};

use numbers::two;
use tree::Refusal;
use writer::is_filler;

// The node count, the wire bound and the number of filler rows.
#[derive(Clone, Copy)]
pub struct Accepted {
    pub nodes: u16,
    pub bound: u32,
    pub filler: u16,
}

// What accept gives.
pub type AcceptAnswer = Result<Accepted, Refusal>;

fn kind_at(s: &[u8], row: usize) -> u64
    requires { Stands s.now row }
    ensures { result ≡ kind_at s.now row }
{
    two(s, 20 + 12 * row)
}

// By kind, which only rows of version 2 have.
fn filler_rows(s: &[u8], nodes: u16) -> u16
    requires { (1 ≤ nodes) × (12 * nodes ≤ length s.now) }
    ensures { Count (FillerBelow s.now (nodes - 1)) result }
{
    if two(s, 3) != 2 {
        return 0;
    }
    let rows = usize::from(nodes) - 1;
    let mut filler: u16 = 0;
    for r in 0..rows {
        if is_filler(kind_at(s, r)) {
            filler += 1;
        }
    }
    filler
}

pub fn accept(s: &[u8]) -> AcceptAnswer
    ensures { AcceptOf s.now result }
{
    let net = tree::accept(s)?;
    let filler = filler_rows(s, net.nodes);
    Ok(Accepted {
        nodes: net.nodes,
        bound: net.bound,
        filler,
    })
}
