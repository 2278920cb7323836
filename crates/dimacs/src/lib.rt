// Trade with the road-graph tools: a table read out of two texts of the 9th DIMACS Implementation Challenge, and
// written as two such texts.
#![tactic(auto)]

ghost use Rattle.std.specs.Prelude.{◌≡◌};

mod header;
mod reading;
mod writing;

pub use reading::read;
use tree::Refusal;
pub use writing::{version_one, write};

// The size of the table made, or why not.
pub type ReadAnswer = Result<usize, Refusal>;

// The sizes of the two texts.
#[derive(Clone, Copy)]
pub struct Texts {
    pub lengths: usize,
    pub weights: usize,
}

// The same, or why not.
pub type WriteAnswer = Result<Texts, Refusal>;

// A refusal that names no row.
fn rowless(number: u8) -> Refusal
    ensures { result ≡ record { number = number; row = 0; ring = 0 } }
{
    Refusal {
        number,
        row: 0,
        ring: 0,
    }
}
