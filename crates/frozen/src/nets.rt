// Those that list nothing and change no mark.
ghost use Rattle.window.specs.Window.{window};
ghost use Rattle.frozen.specs.Calls.{
  AcceptWith,
  PairWith,
  HeaviestWith,
  HeaviestExactWith,
  WindowWith,
  HeadsWith,
  ConvertsWith,
};

use crate::changed::{LARGEST, changed_table};
use accept::AcceptAnswer;
use convert::Conversion;
use heaviest::HeaviestAnswer;
use pair::PairAnswer;
use spines::HeadsAnswer;
use window::WindowAnswer;

// Acceptance of the changed table, with how many of its rows are filler.
pub fn accept_with(table: &[u8], changes: &[u8]) -> AcceptAnswer
    ensures { AcceptWith table.now changes.now result }
{
    let mut buffer = [0; LARGEST];
    let changed = changed_table(table, changes, &mut buffer)?;
    accept::accept(changed)
}

// The path between two nodes.
pub fn pair_with(table: &[u8], changes: &[u8], marks: &[u16], a: u16, b: u16) -> PairAnswer
    ensures { PairWith table.now changes.now marks.now a b result }
{
    let mut buffer = [0; LARGEST];
    let changed = changed_table(table, changes, &mut buffer)?;
    pair::pair(changed, marks, a, b)
}

// The heaviest run.
pub fn heaviest_with(table: &[u8], changes: &[u8], marks: &[u16]) -> HeaviestAnswer
    ensures { HeaviestWith table.now changes.now marks.now result }
{
    let mut buffer = [0; LARGEST];
    let changed = changed_table(table, changes, &mut buffer)?;
    heaviest::heaviest(changed, marks)
}

// The same of exactly the bound's length.
pub fn heaviest_exact_with(table: &[u8], changes: &[u8], marks: &[u16]) -> HeaviestAnswer
    ensures { HeaviestExactWith table.now changes.now marks.now result }
{
    let mut buffer = [0; LARGEST];
    let changed = changed_table(table, changes, &mut buffer)?;
    heaviest::heaviest_exact(changed, marks)
}

// The pair in a window with the most branches.
pub fn window_with(
    table: &[u8],
    changes: &[u8],
    marks: &[u16],
    fewest: u32,
    most: u32,
    floor: i64,
    ceiling: i64,
) -> WindowAnswer
    ensures { WindowWith table.now changes.now marks.now
        (window fewest most floor ceiling) result }
{
    let mut buffer = [0; LARGEST];
    let changed = changed_table(table, changes, &mut buffer)?;
    window::window(changed, marks, fewest, most, floor, ceiling)
}

// Each node's head, into the list.
pub fn heads_with(table: &[u8], changes: &[u8], list: &mut [u16]) -> HeadsAnswer
    ensures { HeadsWith table.now changes.now list.old (result, list.new) }
{
    let mut buffer = [0; LARGEST];
    let changed = changed_table(table, changes, &mut buffer)?;
    spines::heads(changed, list)
}

// Whether an old set of marks reads as it did.
pub fn convert_with(table: &[u8], changes: &[u8], marks: &[u16]) -> Conversion
    ensures { ConvertsWith table.now changes.now marks.now result }
{
    let mut buffer = [0; LARGEST];
    let changed = changed_table(table, changes, &mut buffer)?;
    convert::convert(changed, marks)
}
