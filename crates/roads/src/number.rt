// Numbers at a place of a text: decimal digits with no leading zero, and the byte that ends them.
ghost use Rattle.std.specs.Prelude.{◌≤◌, ◌<◌};
ghost use Rattle.roads.specs.work.Scanned.{Longer, FieldOf, BoundedOf, ArcNumberOf};

// A number and the place after the byte that ends it. Any digits are a number: from 10^19 on it is carried as 10^19,
// which is above every bound.
#[derive(Clone, Copy)]
pub(crate) struct Scanned {
    pub value: u64,
    pub next: usize,
}

const MOST: u64 = 10000000000000000000;

const MINUS: u8 = b'-';

pub(crate) const LINE_END: u8 = b'\n';

// One digit more.
fn longer(x: u64, b: u8) -> u64
    requires { (48 ≤ b) × (b ≤ 57) }
    ensures { Longer x b result }
{
    if MOST / 10 <= x {
        return MOST;
    }
    10 * x + u64::from(b - b'0')
}

// The number that ends with the byte `end`, which is no digit.
pub(crate) fn field(s: &[u8], at: usize, end: u8) -> Option<Scanned>
    requires { end < 48 }
    ensures { FieldOf s.now at end result }
{
    let first = *s.get(at)?;
    if !first.is_ascii_digit() {
        return None;
    }
    let mut x = u64::from(first - b'0');
    for i in at + 1..s.len() {
        let b = s[i];
        if b == end {
            return Some(Scanned {
                value: x,
                next: i + 1,
            });
        }
        if !b.is_ascii_digit() || x == 0 {
            return None;
        }
        x = longer(x, b);
    }
    None
}

// The same of a number from `low` to `high` alone.
pub(crate) fn bounded(s: &[u8], at: usize, end: u8, low: u64, high: u64) -> Option<Scanned>
    requires { (end < 48) × (high < 10000000000000000000) }
    ensures { BoundedOf s.now at end low high result }
{
    let number = field(s, at, end)?;
    if number.value < low || high < number.value {
        return None;
    }
    Some(number)
}

// An arc's number, from -low to top and ended by a line feed, in 32 bits.
pub(crate) fn arc_number(s: &[u8], at: usize, top: u64, low: u64) -> Option<Scanned>
    requires { (top < 4294967296) × (low < 4294967296) }
    ensures { ArcNumberOf s.now at top low result }
{
    if *s.get(at)? != MINUS {
        return bounded(s, at, LINE_END, 0, top);
    }
    let Scanned { value, next } = bounded(s, at + 1, LINE_END, 1, low)?;
    Some(Scanned {
        value: 4294967296 - value,
        next,
    })
}
