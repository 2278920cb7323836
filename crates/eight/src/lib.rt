// What an operation gave, as the eight numbers that C gets: number, row, ring, the operation's fields in order, zeros.
// One function for each sort of answer; each returns the refusal's number, 0 where nothing is refused.
#![tactic(auto)]

mod answer;

ghost use Rattle.std.specs.Prelude.{◌≡◌, List, [], ℕ};
ghost use Rattle.eight.specs.Call.{call};
ghost use Rattle.eight.specs.Shown.{
  accept_in_c,
  pair_in_c,
  heaviest_in_c,
  window_in_c,
  heads_in_c,
  listing_in_c,
  vet_in_c,
  change_in_c,
  conversion_in_c,
  read_in_c,
  write_in_c,
  row_in_c,
  mesh_in_c,
};
ghost use Rattle.eight.specs.work.Room.{
  AcceptRoom,
  PairRoom,
  HeaviestRoom,
  WindowRoom,
  HeadsRoom,
  PageRoom,
  VetRoom,
  ChangeRoom,
  ConversionRoom,
  ReadRoom,
  WriteRoom,
  RowRoom,
  MeshRoom,
};

use crate::answer::{fine, refuse};
use accept::AcceptAnswer;
use changes::Change;
use convert::Conversion;
use dimacs::{ReadAnswer, WriteAnswer};
use heaviest::HeaviestAnswer;
use mesh::MeshAnswer;
use paging::Listed;
use pair::PairAnswer;
use spines::HeadsAnswer;
use tree::Refusal;
use vetting::{Verdict, Vetted};
use window::WindowAnswer;
use writer::RowAnswer;

// One function an answer, and no trait: each promises an equation of its own (`accept_in_c` and the like), which
// README and docs/PROMISES.md name.
// Acceptance: the refusal, or nodes, bound, filler.
pub fn show_accept(o: AcceptAnswer, answer: &mut [i64; 8]) -> u8
    requires { AcceptRoom o }
    ensures { call result answer.new [] ≡ accept_in_c o }
{
    match o {
        Ok(o) => fine(
            i64::from(o.nodes),
            i64::from(o.bound),
            i64::from(o.filler),
            0,
            answer,
        ),
        Err(why) => refuse(why, answer),
    }
}

// A pair: the refusal, or length, weight, hops.
pub fn show_pair(o: PairAnswer, answer: &mut [i64; 8]) -> u8
    requires { PairRoom o }
    ensures { call result answer.new [] ≡ pair_in_c o }
{
    match o {
        Ok(o) => fine(i64::from(o.length), o.weight, i64::from(o.hops), 0, answer),
        Err(why) => refuse(why, answer),
    }
}

// The heaviest run: the refusal, or low, high, length, weight.
pub fn show_heaviest(o: HeaviestAnswer, answer: &mut [i64; 8]) -> u8
    requires { HeaviestRoom o }
    ensures { call result answer.new [] ≡ heaviest_in_c o }
{
    match o {
        Ok(o) => fine(
            i64::from(o.low),
            i64::from(o.high),
            i64::from(o.length),
            o.weight,
            answer,
        ),
        Err(why) => refuse(why, answer),
    }
}

// The pair in a window with the most branches: the refusal, or low, high, count, weight.
pub fn show_window(o: WindowAnswer, answer: &mut [i64; 8]) -> u8
    requires { WindowRoom o }
    ensures { call result answer.new [] ≡ window_in_c o }
{
    match o {
        Ok(o) => fine(
            i64::from(o.low),
            i64::from(o.high),
            i64::from(o.count),
            o.weight,
            answer,
        ),
        Err(why) => refuse(why, answer),
    }
}

// Heads: the refusal, or no fields.
pub fn show_heads(o: HeadsAnswer, answer: &mut [i64; 8]) -> u8
    requires { HeadsRoom o }
    ensures { (list : List ℕ) → call result answer.new list ≡ heads_in_c (o, list) }
{
    match o {
        Ok(()) => fine(0, 0, 0, 0, answer),
        Err(why) => refuse(why, answer),
    }
}

// A page: the refusal, or written, left.
pub fn show_page(o: Listed, answer: &mut [i64; 8]) -> u8
    requires { PageRoom o }
    ensures { (rows : List ℕ) → call result answer.new rows ≡ listing_in_c (o, rows) }
{
    match o {
        Ok(o) => fine(o.written as i64, o.left as i64, 0, 0, answer),
        Err(why) => refuse(why, answer),
    }
}

// The verdict on a list: the refusal, or the verdict, row, low, high.
pub fn show_vet(o: Vetted, answer: &mut [i64; 8]) -> u8
    requires { VetRoom o }
    ensures { call result answer.new [] ≡ vet_in_c o }
{
    match o {
        Ok(Verdict::Yes) => fine(1, 0, 0, 0, answer),
        Ok(Verdict::Fault { row }) => fine(2, row as i64, 0, 0, answer),
        Ok(Verdict::Missing { low, high }) => fine(3, 0, i64::from(low), i64::from(high), answer),
        Err(why) => refuse(why, answer),
    }
}

// What claim, commit or abort gave: the refusal, or how many marks changed.
pub fn show_change(o: Change, answer: &mut [i64; 8]) -> u8
    requires { ChangeRoom o }
    ensures { (marks : List ℕ) → call result answer.new marks ≡ change_in_c (o, marks) }
{
    match o {
        Ok(count) => fine(i64::from(count), 0, 0, 0, answer),
        Err(why) => refuse(why, answer),
    }
}

// What convert gave: the refusal, or no fields.
pub fn show_conversion(o: Conversion, answer: &mut [i64; 8]) -> u8
    requires { ConversionRoom o }
    ensures { call result answer.new [] ≡ conversion_in_c o }
{
    match o {
        Ok(()) => fine(0, 0, 0, 0, answer),
        Err(why) => refuse(why, answer),
    }
}

// What reading two texts gave: the refusal, or the table's size.
pub fn show_read(o: ReadAnswer, answer: &mut [i64; 8]) -> u8
    requires { ReadRoom o }
    ensures { (table : List ℕ) → call result answer.new table ≡ read_in_c (o, table) }
{
    match o {
        Ok(size) => fine(size as i64, 0, 0, 0, answer),
        Err(why) => refuse(why, answer),
    }
}

// What writing two texts gave: the refusal, or their sizes.
pub fn show_write(o: WriteAnswer, answer: &mut [i64; 8]) -> u8
    requires { WriteRoom o }
    ensures { (lengths weights : List ℕ)
        → (call result answer.new lengths, weights) ≡ write_in_c (o, lengths, weights) }
{
    match o {
        Ok(o) => fine(o.lengths as i64, o.weights as i64, 0, 0, answer),
        Err(why) => refuse(why, answer),
    }
}

// A row written: the refusal, which has no ring, or no fields.
pub fn show_row(o: RowAnswer, answer: &mut [i64; 8]) -> u8
    requires { RowRoom o }
    ensures { (row : List ℕ) → call result answer.new row ≡ row_in_c (o, row) }
{
    match o {
        Ok(()) => fine(0, 0, 0, 0, answer),
        Err(why) => refuse(Refusal::from(why), answer),
    }
}

// A mesh: the refusal, or branches, low, high.
pub fn show_mesh(o: MeshAnswer, answer: &mut [i64; 8]) -> u8
    requires { MeshRoom o }
    ensures { call result answer.new [] ≡ mesh_in_c o }
{
    match o {
        Ok(o) => fine(
            i64::from(o.branches),
            i64::from(o.low),
            i64::from(o.high),
            0,
            answer,
        ),
        Err(why) => refuse(why, answer),
    }
}
