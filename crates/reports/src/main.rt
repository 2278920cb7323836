// Reports on the tables of the cases on standard input (oracle/README.md has their form), each by pages as large as
// what the case lends for rows, 16 bytes at the least: on the table by itself, and then with its change set. What it
// must write is what the second program, oracle/, says. A read or a write that fails ends it with that error.
#![tactic(auto)]

ghost use Rattle.std.specs.Prelude.{◌<◌};

use std::io;
use std::io::{Read, Write};
use streams::{buffer, read_full};

fn word(low: u8, high: u8) -> usize
    ensures { result < 65536 }
{
    usize::from(u16::from_le_bytes([low, high]))
}

// What the cases use, one after the other.
#[derive(Drop)]
struct Room {
    input: [u8; 65536],
    changes: [u8; 65536],
    rows: [u8; 65536],
    out: [u8; 65536],
}

impl Room {
    // A case's head, its table, its set, and its marks, which are passed over: in a report all branches are free.
    fn case<R: Read, W: Write>(&mut self, from: &mut R, to: &mut W) -> io::Result<()> {
        let input = &mut self.input[..];
        let changes = &mut self.changes[..];
        let rows = &mut self.rows[..];
        let out = &mut self.out[..];
        let mut h = [0u8; 32];
        read_full(from, &mut h)?;
        let n = read_full(from, &mut input[..word(h[0], h[1])])?;
        let page = &mut rows[..word(h[16], h[17]).max(16)];
        printing::print(to, &input[..n], page, out)?;
        let m = read_full(from, &mut changes[..word(h[30], h[31])])?;
        printing::print_with(to, &input[..n], &changes[..m], page, out)?;
        read_full(from, &mut input[..2 * (word(h[2], h[3]) % 32768)])?;
        Ok(())
    }
}

fn main(rt: HostRuntime) -> io::Result<()> {
    let mut from = rt.stdin();
    let mut to = rt.stdout();
    let mut h = [0u8; 4];
    read_full(&mut from, &mut h)?;
    let mut room = Room {
        input: buffer::<65536>(),
        changes: buffer::<65536>(),
        rows: buffer::<65536>(),
        out: buffer::<65536>(),
    };
    for _ in 0..word(h[0], h[1]) {
        room.case(&mut from, &mut to)?;
    }
    Ok(())
}
