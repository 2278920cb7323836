// Each way: the operation's outcome is told, its lines put into lent bytes, and handed over.
ghost use Rattle.std.specs.Prelude.{◌≤◌, ◌++◌, IfOk, OnErr, OnOk, length};
ghost use Rattle.lines.specs.Lines.{refused_text};
ghost use Rattle.trade.specs.Told.{sized, Tells, HandedOver, Writes, WritesFront};

use crate::handed::{Asked, Handed, hand_over};
use std::io;
use std::io::Write;
use tree::Refusal;

fn refuse<W: Write>(
    to: &mut W,
    way: u8,
    asked: &Asked,
    line: &mut [u8],
    why: Refusal,
) -> io::Result<Handed>
    requires { (128 ≤ length line.old)
        × Tells way asked.now.first.now asked.now.second.now asked.now.bound (refused_text why.number
        why.row why.ring) }
    ensures counted { IfOk result (λ handed. HandedOver way asked.now.first.now asked.now.second.now
        asked.now.bound handed.one handed.two) }
    ensures written { OnOk result (Writes way asked.now.first.now asked.now.second.now asked.now.bound
        (W.contents to.old) (W.contents to.new)) }
    ensures err { OnErr result (WritesFront way asked.now.first.now asked.now.second.now asked.now.bound
        (W.contents to.old) (W.contents to.new)) }
{
    let k = lines::refused(line, u64::from(why.number), why.row as u64, why.ring as u64);
    hand_over(to, way, asked, &line[..k], b"", b"", b"")
}

fn give_table<W: Write>(
    to: &mut W,
    way: u8,
    asked: &Asked,
    line: &mut [u8],
    table: &[u8],
) -> io::Result<Handed>
    requires { (128 ≤ length line.old)
        × Tells way asked.now.first.now asked.now.second.now asked.now.bound (sized (length table.now)
        table.now) }
    ensures counted { IfOk result (λ handed. HandedOver way asked.now.first.now asked.now.second.now
        asked.now.bound handed.one handed.two) }
    ensures written { OnOk result (Writes way asked.now.first.now asked.now.second.now asked.now.bound
        (W.contents to.old) (W.contents to.new)) }
    ensures err { OnErr result (WritesFront way asked.now.first.now asked.now.second.now asked.now.bound
        (W.contents to.old) (W.contents to.new)) }
{
    let k = lines::total(line, table.len() as u64);
    hand_over(to, way, asked, &line[..k], table, b"", b"")
}

fn give_texts<W: Write>(
    to: &mut W,
    way: u8,
    asked: &Asked,
    line: &mut [u8],
    lengths: &[u8],
    other: &mut [u8],
    weights: &[u8],
) -> io::Result<Handed>
    requires { (128 ≤ length line.old) × (128 ≤ length other.old)
        × Tells way asked.now.first.now asked.now.second.now asked.now.bound (sized (length lengths.now)
        lengths.now ++ sized (length weights.now) weights.now) }
    ensures counted { IfOk result (λ handed. HandedOver way asked.now.first.now asked.now.second.now
        asked.now.bound handed.one handed.two) }
    ensures written { OnOk result (Writes way asked.now.first.now asked.now.second.now asked.now.bound
        (W.contents to.old) (W.contents to.new)) }
    ensures err { OnErr result (WritesFront way asked.now.first.now asked.now.second.now asked.now.bound
        (W.contents to.old) (W.contents to.new)) }
{
    let k = lines::total(line, lengths.len() as u64);
    let m = lines::total(other, weights.len() as u64);
    hand_over(to, way, asked, &line[..k], lengths, &other[..m], weights)
}

// The table of two texts, with this wire bound.
pub(crate) fn read<W: Write>(
    to: &mut W,
    asked: &Asked,
    table: &mut [u8],
    line: &mut [u8],
) -> io::Result<Handed>
    requires { (786448 ≤ length table.old) × (128 ≤ length line.old) }
    ensures counted { IfOk result (λ handed. HandedOver 1 asked.now.first.now asked.now.second.now
        asked.now.bound handed.one handed.two) }
    ensures written { OnOk result (Writes 1 asked.now.first.now asked.now.second.now asked.now.bound
        (W.contents to.old) (W.contents to.new)) }
    ensures err { OnErr result (WritesFront 1 asked.now.first.now asked.now.second.now asked.now.bound
        (W.contents to.old) (W.contents to.new)) }
{
    match dimacs::read(asked.first, asked.second, asked.bound, table) {
        Err(why) => refuse(to, 1, asked, line, why),
        Ok(size) => give_table(to, 1, asked, line, &table[..size]),
    }
}

// The two texts of a table.
pub(crate) fn write<W: Write>(
    to: &mut W,
    asked: &Asked,
    lengths: &mut [u8],
    weights: &mut [u8],
    line: &mut [u8],
    other: &mut [u8],
) -> io::Result<Handed>
    requires { (180000 ≤ length lengths.old) × (180000 ≤ length weights.old)
        × (128 ≤ length line.old) × (128 ≤ length other.old) }
    ensures counted { IfOk result (λ handed. HandedOver 2 asked.now.first.now asked.now.second.now
        asked.now.bound handed.one handed.two) }
    ensures written { OnOk result (Writes 2 asked.now.first.now asked.now.second.now asked.now.bound
        (W.contents to.old) (W.contents to.new)) }
    ensures err { OnErr result (WritesFront 2 asked.now.first.now asked.now.second.now asked.now.bound
        (W.contents to.old) (W.contents to.new)) }
{
    match dimacs::write(asked.first, lengths, weights) {
        Err(why) => refuse(to, 2, asked, line, why),
        Ok(sizes) => give_texts(
            to,
            2,
            asked,
            line,
            &lengths[..sizes.lengths],
            other,
            &weights[..sizes.weights],
        ),
    }
}
