// The operation read: two texts to a table. The table is made in memory of our own and tested there, so that a refusal
// has written nothing.
ghost use Rattle.std.specs.Prelude.{◌≡◌, true, false, ◌+◌, ◌*◌, ◌≤◌, ◌<◌, length};
ghost use Rattle.tree.specs.Accept.{Begins};
ghost use Rattle.roads.specs.work.Whole.{BothSay};
ghost use Rattle.dimacs.specs.Read.{read_refusal, GivesTable, ReadOf};

use crate::header::put_header;
use crate::{ReadAnswer, rowless};
use roads::Texts;

// Whether there is no room for the table of so many arcs, two a branch: 12 + 6 * arcs bytes, which is never computed
// where it would not fit.
fn no_room(room: usize, arcs: usize) -> bool
    ensures { (result ≡ true → room < 12 + 6 * arcs) × (result ≡ false → 12 + 6 * arcs ≤ room) }
{
    room < 12 || (room - 12) / 6 < arcs
}

// Why a table of more than 4,095 rows is refused: by its node count, or else by its size.
fn too_many(nodes: u16) -> u8
    ensures { ((1 ≤ nodes) × (nodes ≤ 4096) → result ≡ 6) × (((1 ≤ nodes) × (nodes ≤ 4096) → ⊥) → result ≡ 4) }
{
    if nodes < 1 || 4096 < nodes { 4 } else { 6 }
}

// 1 to 11 on a table made; one that is accepted goes into the lent bytes.
fn give(made: &[u8], table: &mut [u8]) -> ReadAnswer
    requires { length made.now ≤ length table.old }
    ensures { Begins _ (read_refusal table.old) made.now
        (GivesTable table.old made.now) (result, table.new) }
{
    tree::accept(made)?;
    Ok(text::put_word(table, 0, made))
}

// Two texts that agree: the header, then 27 and 28 and the rows, 29, and the table.
fn trade(lengths: &[u8], weights: &[u8], texts: Texts, bound: u32, table: &mut [u8]) -> ReadAnswer
    requires { BothSay lengths.now weights.now texts.nodes texts.arcs texts.lengths texts.weights }
    ensures { ReadOf lengths.now weights.now bound table.old
        (result, table.new) }
{
    let Texts {
        nodes,
        arcs,
        lengths: i,
        weights: j,
    } = texts;
    let mut made: [u8; 49152] = [0; 49152];
    put_header(&mut made, nodes, bound);
    if let Err(number) = arcs::rows(lengths, i, weights, j, nodes, arcs, &mut made) {
        return Err(rowless(number));
    }
    if no_room(table.len(), arcs) {
        return Err(rowless(29));
    }
    if 8190 < arcs {
        return Err(rowless(too_many(nodes)));
    }
    give(&made[..12 + 6 * arcs], table)
}

// A table of version 1 out of a text with lengths and one with weights, into the lent bytes: 25 and 26, and then as
// `trade` does.
pub fn read(lengths: &[u8], weights: &[u8], bound: u32, table: &mut [u8]) -> ReadAnswer
    ensures { ReadOf lengths.now weights.now bound table.old
        (result, table.new) }
{
    match roads::both(lengths, weights) {
        Err(number) => Err(rowless(number)),
        Ok(texts) => trade(lengths, weights, texts, bound, table),
    }
}
