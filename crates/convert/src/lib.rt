// The operation convert: an old set of marks, from before a mark's top bit said spent, is brought over. No number
// changes, so that it is a test: whether every mark now reads as it did.
#![tactic(auto)]

ghost use Rattle.std.specs.Prelude.{◌≡◌, true, false, ◌≤◌};
ghost use Rattle.convert.specs.Old.{ReadsOn};
ghost use Rattle.convert.specs.Convert.{TooHigh, EachMark, Converting, Converts};

use marks::{UNKNOWN, is_spent, run_of};
use tree::Refusal;

// The marks are brought over, or why not.
pub type Conversion = Result<(), Refusal>;

// Whether an old mark does not read as it did. Of those with the top bit set 65,535 alone was spent, and of the others
// "unknown" alone was held by a run whose number is none any more.
fn too_high(mark: u16) -> bool
    ensures { (result ≡ true → TooHigh mark) × (result ≡ false → ReadsOn mark) }
{
    if is_spent(mark) {
        run_of(mark) != UNKNOWN
    } else {
        run_of(mark) == UNKNOWN
    }
}

// 24, over each mark in row order.
fn each_mark(marks: &[u16]) -> Conversion
    ensures { EachMark marks.now result }
{
    for (r, mark) in marks.iter().enumerate() {
        if too_high(*mark) {
            return Err(Refusal {
                number: 24,
                row: r,
                ring: 0,
            });
        }
    }
    Ok(())
}

// In an accepted net: 13, then each mark.
fn convert_net(marks: &[u16], nodes: u16) -> Conversion
    requires { 1 ≤ nodes }
    ensures { Converting nodes marks.now result }
{
    if marks.len() + 1 != usize::from(nodes) {
        return Err(Refusal::MARKS);
    }
    each_mark(marks)
}

// Whether an old set of marks, as it stands, reads as it did; if not, the first mark that does not.
pub fn convert(s: &[u8], marks: &[u16]) -> Conversion
    ensures { Converts s.now marks.now result }
{
    let net = tree::accept(s)?;
    convert_net(marks, net.nodes)
}
