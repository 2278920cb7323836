// What an operation that lists gives, a page at a time: its answer, for all of them.
#![tactic(auto)]

use tree::Refusal;

// The rows written and the rows left over.
#[derive(Clone, Copy)]
pub struct Rows {
    pub written: usize,
    pub left: usize,
}

// The same, or why not.
pub type Listed = Result<Rows, Refusal>;
