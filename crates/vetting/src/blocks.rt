// The list, block after block of lines: one pass over it for each and, where no row is at fault so far, the first pair
// that is lacking. A row at fault in a later block still comes before it.
ghost use Rattle.vetting.specs.Vets.{Vets};
ghost use Rattle.vetting.specs.work.Foreign.{FirstForeign};
ghost use Rattle.vetting.specs.work.Meant.{MeantOf};
ghost use Rattle.vetting.specs.work.Screened.{BlocksAsked};

use crate::Verdict;
use crate::lacks::first_lack;
use crate::pairs::Pairs;
use crate::repeats::first_repeat;

// The verdict; `row` is the first row that does not belong.
pub(crate) fn screen(list: &[u8], m: usize, row: usize, pairs: &Pairs) -> Verdict
    requires { BlocksAsked list.now m pairs.now × FirstForeign (MeantOf pairs.now) list.now m row }
    ensures { Vets (MeantOf pairs.now) list.now m result }
{
    let mut bits: [u64; 16384] = [0; 16384];
    // As many lines as the set has room for.
    let height = 1048576 / pairs.n;
    let mut r = row;
    let mut lack = None;
    let mut end: usize = 0;
    // Tried as (0..n.div_ceil(2)).step_by(height): the last block leaves past the invariant, with three cases a return.
    while 2 * end < pairs.n {
        let from = end;
        end = from + height;
        r = first_repeat(list, r, pairs.n, from, end, &mut bits);
        if r == m {
            lack = first_lack(&bits, lack, from, end, pairs);
        }
    }
    if r < m {
        return Verdict::Fault { row: r };
    }
    match lack {
        Some(lack) => Verdict::Missing {
            low: lack.low as u16,
            high: lack.high as u16,
        },
        None => Verdict::Yes,
    }
}
