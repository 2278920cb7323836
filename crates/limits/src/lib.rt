// The test that a length must pass: at most a limit, or exactly it. The lists and the pages call it, so that it stands
// once.
#![tactic(auto)]

ghost use Rattle.limits.specs.work.Fits.{Fits, Decides};

// The greatest length that passes, and whether it alone does.
#[derive(Clone, Copy)]
pub struct Limit {
    pub most: u64,
    pub exact: bool,
}

// Whether a length passes.
pub fn fits(limit: Limit, length: u64) -> bool
    ensures { Decides (Fits limit length) result }
{
    // The greatest length first, which both modes ask.
    length <= limit.most && (!limit.exact || length == limit.most)
}
