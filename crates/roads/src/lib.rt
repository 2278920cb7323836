// Road-graph texts: what two of them say together, one with lengths and one with weights, and the way from arc to arc
// of one. A text is read where it stands, from a place on: number.rt reads a number, line.rt a line, whole.rt whole
// texts. Everything public here is between crates.
#![tactic(auto)]

mod line;
mod number;
mod whole;

pub use line::{Kind, Step};
pub use whole::{Texts, both, next_arc};

// A text's kind is the range of its arcs' numbers, -LOW to TOP: lengths are 32 bits unsigned, weights 32 bits signed.
pub const LENGTH_TOP: u64 = 4294967295;

pub const LENGTH_LOW: u64 = 0;

pub const WEIGHT_TOP: u64 = 2147483647;

pub const WEIGHT_LOW: u64 = 2147483648;
