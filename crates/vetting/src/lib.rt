// A list of rows vetted against the entries that the numbers of a net mean: each row's figures first (rows.rt), then
// block after block of lines, two first nodes to a line (blocks.rt): which pairs of the block the rows name
// (repeats.rt, over lines.rt and bits.rt), and which that belong none does (lacks.rt). So the set of bits is for one
// block's pairs, not for all. What a pair's figures are is asked of the numbers (pairs.rt).
#![tactic(auto)]

mod bits;
mod blocks;
mod lacks;
mod lines;
mod pairs;
mod repeats;
mod rows;

ghost use Rattle.vetting.specs.Vets.{Vets};
ghost use Rattle.vetting.specs.work.Meant.{Meant};
ghost use Rattle.vetting.specs.work.Screened.{RowsAsked};

use crate::blocks::screen;
use crate::pairs::Pairs;
use crate::rows::first_foreign;
use limits::Limit;
use pages::Sums;
use tree::Refusal;

// Yes, the first row at fault, or the first pair missing.
#[derive(Clone, Copy)]
pub enum Verdict {
    Yes,
    Fault { row: usize },
    Missing { low: u16, high: u16 },
}

// What vet gives.
pub type Vetted = Result<Verdict, Refusal>;

// Between crates: the verdict on a list of m rows. The nodes have their spots in spot; by spot, above has the parent's
// spot, far and heavy the distance and the lifted weight from node 0. The three arrays lent are for tables.
// The promise speaks of each array lent by itself (`Meant`, `RowsAsked`), so they are parameters here, and one struct,
// Pairs, from here on.
pub fn vet_rows(
    list: &[u8],
    m: usize,
    spot: &[u16; 4096],
    above: &[u16; 4096],
    far: &[u64; 4096],
    heavy: &[u64; 4096],
    n: usize,
    limit: Limit,
    sums: Sums,
    tail: &mut [u16; 4096],
    front: &mut [u16; 4096],
    gap: &mut [u16; 4096],
) -> Verdict
    requires { RowsAsked list.now m n spot.now above.now far.now heavy.now limit }
    ensures { Vets
        (Meant spot.now above.now far.now heavy.now n limit sums)
        list.now m result }
{
    figures::tables(above, tail, front, gap);
    let pairs = Pairs {
        spot,
        above,
        tail,
        front,
        gap,
        far,
        heavy,
        n,
        limit,
        sums,
    };
    let row = first_foreign(list, m, &pairs);
    screen(list, m, row, &pairs)
}
