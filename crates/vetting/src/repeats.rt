// One pass over the list for a block: the first row that names a pair of the block once more.
ghost use Rattle.vetting.specs.work.Repeats.{Repeatable, Repeats};

use crate::bits::clear;
use crate::lines::admit;
use numbers::two;

// Of the first r rows, each of which names two nodes, lower first; r where none of them repeats a pair. The set then
// has the pairs of the block that the rows before it name. No Option: the result is how many rows are good so far,
// which the next block's pass takes as its r.
pub(crate) fn first_repeat(
    list: &[u8],
    r: usize,
    n: usize,
    from: usize,
    end: usize,
    bits: &mut [u64; 16384],
) -> usize
    requires { Repeatable list.now n from end r }
    ensures { Repeats list.now n from end r result bits.new }
{
    clear(bits);
    for i in 0..r {
        let a = two(list, 16 * i) as usize;
        let b = two(list, 16 * i + 2) as usize;
        if !admit(bits, a, b, n, from, end) {
            return i;
        }
    }
    r
}
