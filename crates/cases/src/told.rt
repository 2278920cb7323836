// What each sort of answer tells, as fields, and one line of code for all refusals.
use crate::say;
use crate::say::Answer;
use accept::Accepted;
use heaviest::Between;
use paging::Rows;
use pair::Found;
use table::{Opened, Row};
use tree::Refusal;
use vetting::Verdict;

// A sort of answer: how many fields it has, which a refusal has too, and what they hold.
pub(crate) trait Told {
    const MANY: usize;

    fn told(self) -> Answer;
}

pub(crate) fn outcome<T: Told>(o: Result<T, Refusal>) -> Answer {
    match o {
        Ok(given) => given.told(),
        Err(why) => say::refused(why, T::MANY),
    }
}

// A refusal that tells of no ring is told as one with none.
pub(crate) fn ringless<T>(o: Result<T, table::Refusal>) -> Result<T, Refusal> {
    Ok(o?)
}

impl Told for () {
    const MANY: usize = 0;

    fn told(self) -> Answer {
        say::fine(Self::MANY, [0; 4])
    }
}

// How many marks changed.
impl Told for u16 {
    const MANY: usize = 1;

    fn told(self) -> Answer {
        say::fine(Self::MANY, [u64::from(self), 0, 0, 0])
    }
}

impl Told for Opened {
    const MANY: usize = 2;

    fn told(self) -> Answer {
        say::fine(
            Self::MANY,
            [u64::from(self.nodes), u64::from(self.bound), 0, 0],
        )
    }
}

impl Told for Rows {
    const MANY: usize = 2;

    fn told(self) -> Answer {
        say::fine(Self::MANY, [self.written as u64, self.left as u64, 0, 0])
    }
}

impl Told for Accepted {
    const MANY: usize = 3;

    fn told(self) -> Answer {
        say::fine(
            Self::MANY,
            [
                u64::from(self.nodes),
                u64::from(self.bound),
                u64::from(self.filler),
                0,
            ],
        )
    }
}

impl Told for mesh::Most {
    const MANY: usize = 3;

    fn told(self) -> Answer {
        say::fine(
            Self::MANY,
            [
                u64::from(self.branches),
                u64::from(self.low),
                u64::from(self.high),
                0,
            ],
        )
    }
}

impl Told for Found {
    const MANY: usize = 3;

    fn told(self) -> Answer {
        let weight = pages::raised(self.weight);
        say::weighed(
            Self::MANY,
            1,
            [u64::from(self.length), weight, u64::from(self.hops), 0],
        )
    }
}

impl Told for Row {
    const MANY: usize = 4;

    fn told(self) -> Answer {
        let weight = pages::raised(i64::from(self.weight));
        say::weighed(
            Self::MANY,
            3,
            [
                u64::from(self.a),
                u64::from(self.b),
                u64::from(self.length),
                weight,
            ],
        )
    }
}

impl Told for Between {
    const MANY: usize = 4;

    fn told(self) -> Answer {
        let weight = pages::raised(self.weight);
        say::weighed(
            Self::MANY,
            3,
            [
                u64::from(self.low),
                u64::from(self.high),
                u64::from(self.length),
                weight,
            ],
        )
    }
}

impl Told for window::Most {
    const MANY: usize = 4;

    fn told(self) -> Answer {
        let weight = pages::raised(self.weight);
        say::weighed(
            Self::MANY,
            3,
            [
                u64::from(self.low),
                u64::from(self.high),
                u64::from(self.count),
                weight,
            ],
        )
    }
}

// What vetting finds, 1 yes, 2 a row at fault, 3 a pair missing; that row, and that pair.
impl Told for Verdict {
    const MANY: usize = 4;

    fn told(self) -> Answer {
        match self {
            Verdict::Yes => say::fine(Self::MANY, [1, 0, 0, 0]),
            Verdict::Fault { row } => say::fine(Self::MANY, [2, row as u64, 0, 0]),
            Verdict::Missing { low, high } => say::fine(
                Self::MANY,
                [3, 0, u64::from(low), u64::from(high)],
            ),
        }
    }
}
