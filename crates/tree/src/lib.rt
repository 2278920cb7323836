// Acceptance, refusals 1 to 11 in order; the walk of an accepted net; and where two climbs to its root meet.
#![tactic(auto)]

mod refusals;
mod round;
mod two_climbs;

ghost use Rattle.std.specs.Prelude.{◌≡◌, Ok, ◌-◌};
ghost use Rattle.net.specs.Net.{first_end, second_end};
ghost use Rattle.net.specs.work.Net.{Net};
ghost use Rattle.tree.specs.Accept.{Acceptance, acceptance_refusal, Rings, Accepts};
ghost use Rattle.reach.specs.work.Walked.{Walked};
ghost use Rattle.net.specs.work.Rows.{Fitting};

use reach::Walk;
use table::Opened;
pub use two_climbs::meet;

// What is refused, by the paper's number; the row it names, 0 where none is named; and how many rows the ring has that
// this row closes, 0 but for number 11.
#[derive(Clone, Copy)]
pub struct Refusal {
    pub number: u8,
    pub row: usize,
    pub ring: usize,
}

// A table's own refusal names no ring.
impl From<table::Refusal> for Refusal {
    ghost from_gives = { λ why r. r ≡ record { number = why.number; row = why.row; ring = 0 } };

    fn from(why: table::Refusal) -> Refusal {
        Refusal {
            number: why.number,
            row: why.row,
            ring: 0,
        }
    }
}

// What acceptance gives.
pub type Acceptance = Result<Opened, Refusal>;

// Between crates: tests 1 to 11, in order. The operation accept (crate accept) is this and a count.
pub fn accept(s: &[u8]) -> Acceptance
    ensures { Accepts s.now result }
{
    accept_in(s, &mut Walk::new())
}

// The same in lent arrays, those of the walk that the caller makes afterwards. Nothing is asked of them
// and nothing promised.
pub fn accept_in(s: &[u8], walk: &mut Walk) -> Acceptance
    ensures { Accepts s.now result }
{
    let net = table::examine(s)?;
    rings(s, net, walk)
}

// Test 11, of a table that has passed the others. Rows that pass it join all nodes (`all_joined`, proofs/Theorems).
fn rings(s: &[u8], net: Opened, walk: &mut Walk) -> Acceptance
    requires { Fitting s.now net.nodes }
    ensures { Rings Acceptance acceptance_refusal s.now net.nodes (λ x. x ≡ Ok net) result }
{
    let rows = usize::from(net.nodes) - 1;
    // Here parent has each node's climb to its root, and half the ranks; what counts a ring's rows fills all four anew.
    let row = ring::first_ring(s, rows, &mut walk.parent, &mut walk.half);
    if row < rows {
        return Err(Refusal {
            number: 11,
            row,
            ring: round::count_round(s, row, walk),
        });
    }
    Ok(net)
}

// The walk from the root of an accepted net. For the crates above, which ask for acceptance first.
pub fn walk(s: &[u8], nodes: u16, walk: &mut Walk)
    requires { Net s.now nodes }
    ensures { Walked (first_end s.now) (second_end s.now) (nodes - 1) nodes
        walk.new.parent walk.new.half walk.new.order walk.new.place }
{
    reach::walk_from(s, usize::from(nodes) - 1, 0, walk);
}
