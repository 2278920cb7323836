// The refusals that name no row and no ring, by what they refuse. The paper gives the numbers.
use crate::Refusal;

impl Refusal {
    // The marks are not one for each branch.
    pub const MARKS: Refusal = Refusal {
        number: 13,
        row: 0,
        ring: 0,
    };

    // The number is none of a run.
    pub const RUN: Refusal = Refusal {
        number: 14,
        row: 0,
        ring: 0,
    };

    // The two are not different nodes of the net.
    pub const NODES: Refusal = Refusal {
        number: 15,
        row: 0,
        ring: 0,
    };

    // No pair is within the bound.
    pub const NO_PAIR: Refusal = Refusal {
        number: 16,
        row: 0,
        ring: 0,
    };

    // There is no room for one row of a listing.
    pub const NO_ROOM: Refusal = Refusal {
        number: 17,
        row: 0,
        ring: 0,
    };

    // The path is longer than the bound.
    pub const TOO_LONG: Refusal = Refusal {
        number: 18,
        row: 0,
        ring: 0,
    };

    // No branch of the path is free.
    pub const NONE_FREE: Refusal = Refusal {
        number: 19,
        row: 0,
        ring: 0,
    };

    // The list of heads is not one for each node.
    pub const HEADS: Refusal = Refusal {
        number: 20,
        row: 0,
        ring: 0,
    };

    // No pair is of exactly the bound's length.
    pub const NO_EXACT_PAIR: Refusal = Refusal {
        number: 21,
        row: 0,
        ring: 0,
    };

    // A lower limit of the window is above its upper one, or the lower count is 0.
    pub const LIMITS: Refusal = Refusal {
        number: 30,
        row: 0,
        ring: 0,
    };

    // No pair is in the window.
    pub const NO_WINDOW_PAIR: Refusal = Refusal {
        number: 31,
        row: 0,
        ring: 0,
    };

    // The list is not of whole rows.
    pub const LIST: Refusal = Refusal {
        number: 32,
        row: 0,
        ring: 0,
    };
}
