// One road-graph text of a table's rows: its size (size.rt) and its bytes (put.rt). A text has of each row its two
// nodes and one of its two numbers, which stands at `place` in the row: 4 is the length, 8 the weight. Of that number's
// 32 bits those up to `top` are the number itself, those beyond it a negative one. Everything public here is between
// crates.
#![tactic(auto)]

mod put;
mod size;

pub use put::put_text;
pub use size::text_size;
