// Refusal 36: the first row that joins two nodes which an earlier row joins. A pair of nodes is a cell of a square; in
// each pass over the rows a quarter of the cells is noted where it is seen, so that the note takes 16 KiB and there are
// four passes at the most. A row with a cell outside the quarter goes by a place of its own, which is never seen, so
// that no test parts the rows: they may come in any order.
ghost use Rattle.std.specs.Prelude.{◌*◌, ◌<◌, MatchOption};
ghost use Rattle.net.specs.Net.{first_end, second_end};
ghost use Rattle.mesh.specs.work.Rows.{MeshReadable};
ghost use Rattle.mesh.specs.work.Bands.{NoRepeat};
ghost use Rattle.mesh.specs.work.Repeat.{Cell, SlotOf, SeenAs, RepeatIn, Top, FirstRepeat};

use crate::header::Head;
use net::{first_end, second_end};

// The cell of a row with these ends, the same either way round.
fn cell(p: usize, q: usize) -> usize
    requires { (p < 256) × (q < 256) }
    ensures { Cell p q result }
{
    if p < q { 256 * p + q } else { 256 * q + p }
}

// Its place among the 16,384 cells from `from` on; 16,384 for a cell that is not among them.
fn slot(from: usize, c: usize) -> usize
    requires { from < 65536 }
    ensures { SlotOf from c result }
{
    if c < from || from + 16384 <= c {
        16384
    } else {
        c - from
    }
}

// What is noted at a place: 1, and 0 at the one of the cells outside.
fn seen_as(j: usize) -> u8
    ensures { SeenAs j result }
{
    u8::from(j < 16384)
}

// Of the rows below limit with cells among these the first that repeats a pair, or limit: either is the limit of the
// next pass, so that there is no None here.
fn repeat_in(s: &[u8], from: usize, limit: usize) -> usize
    requires { MeshReadable s.now limit 256 × (from < 65536) }
    ensures { RepeatIn (first_end s.now) (second_end s.now) from limit result }
{
    let mut seen: [u8; 16385] = [0; 16385];
    for r in 0..limit {
        let j = slot(from, cell(first_end(s, r), second_end(s, r)));
        if seen[j] != 0 {
            return r;
        }
        seen[j] = seen_as(j);
    }
    limit
}

// How many rows are looked at: of 65,537 rows two join the same nodes, so that a long table costs no more.
fn top(rows: usize) -> usize
    ensures { Top rows result }
{
    rows.min(65537)
}

// The first row that repeats a pair. Never inlined, nor is from_all: what is noted here and the trees there would be on
// the stack at once.
#[inline(never)]
pub(crate) fn first_repeat(s: &[u8], head: Head) -> Option<usize>
    requires { MeshReadable s.now head.rows head.nodes }
    ensures { MatchOption result (NoRepeat (first_end s.now) (second_end s.now) head.rows)
        (λ r. FirstRepeat (first_end s.now) (second_end s.now) head.rows r) }
{
    let mut r = top(head.rows);
    for from in (0..256 * head.nodes).step_by(16384) {
        r = repeat_in(s, from, r);
    }
    if r < head.rows { Some(r) } else { None }
}
