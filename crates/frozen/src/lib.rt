// The operations over a frozen table with its change set: each writes the changed table into a buffer of its own and
// asks the operation of it. Nothing of an operation is said here a second time.
#![tactic(auto)]

mod changed;
mod lists;
mod nets;
mod runs;
mod texts;

pub use lists::{listing_exact_with, listing_with, vet_with, window_list_with};
pub use nets::{
    accept_with, convert_with, heads_with, heaviest_exact_with, heaviest_with, pair_with,
    window_with,
};
pub use runs::{abort_with, claim_with, commit_with};
pub use texts::write_with;
