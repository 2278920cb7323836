// How many rows the ring has that a row closes. Asked of the row of refusal 11 alone.
ghost use Rattle.net.specs.Net.{first_end, second_end};
ghost use Rattle.net.specs.Ring.{RingRows};
ghost use Rattle.net.specs.work.Rows.{Closing};

use net::{first_end, second_end};
use reach::{Walk, walk_from};

// The walk over the rows before r, from its first end; then the climb from its second end to where the order begins.
// Row r itself is one.
pub(crate) fn count_round(s: &[u8], r: usize, walk: &mut Walk) -> usize
    requires { Closing s.now r }
    ensures { RingRows (first_end s.now) (second_end s.now) r result }
{
    walk_from(s, r, first_end(s, r), walk);
    let mut x = second_end(s, r);
    let mut g: usize = 1;
    while walk.place[x] > 0 {
        x = usize::from(walk.parent[x]);
        g += 1;
    }
    g
}
