// Lists of places, sorted by a key: two neighbouring spans of a list made one (sorted.rt), and the best pair of places
// across two spans (across.rt). Nothing here knows a tree.
#![tactic(auto)]

mod across;
mod sorted;

pub use across::{Best, Places};
pub use sorted::{Spans, copy, merge};
