// A change set over a frozen table: the row shown for a branch, refusals 33 and 34, and the changed table written into
// a lent buffer. What every operation with a change set promises is specs/With.
#![tactic(auto)]

mod buffer;
mod entries;
mod row;

pub use buffer::write_in;
pub use row::shown;
