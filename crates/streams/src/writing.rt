// Writing: bytes are handed to a writer whole, or an error comes after a front of them.
ghost use Rattle.std.specs.Prelude.{◌++◌, OnErr, OnOk};
ghost use Rattle.std.specs.Io.{WritesAtMost};
ghost use Rattle.std.specs.Io.KnownBytes.{Appends, WriteAppends};
ghost use Rattle.streams.specs.Front.{HasWritten};

use std::io;
use std::io::{Error, ErrorKind, Write};

// One write, made again for as long as signals cut it short.
fn write_some<W: Write>(to: &mut W, bytes: &[u8]) -> io::Result<usize>
    ensures bound { WritesAtMost result bytes.now }
    ensures bytes { WriteAppends (W.contents to.old) (W.contents to.new) result bytes.now }
{
    for _ in 0..u64::MAX {
        match to.write(bytes) {
            Ok(count) => return Ok(count),
            Err(why) => {
                if why.kind() != ErrorKind::Interrupted {
                    return Err(why);
                }
            }
        }
    }
    to.write(bytes)
}

// Writes all of the bytes. An error is the writer's own, or tells of a writer that takes no more.
pub fn write_all<W: Write>(to: &mut W, bytes: &[u8]) -> io::Result<()>
    ensures ok { OnOk result (Appends (W.contents to.old) (W.contents to.new) bytes.now) }
    ensures err { OnErr result (HasWritten (W.contents to.old) (W.contents to.new) bytes.now) }
{
    let mut done = 0;
    while done < bytes.len() {
        let count = write_some(to, &bytes[done..])?;
        if count == 0 {
            return Err(Error::from(ErrorKind::WriteZero));
        }
        done += count;
    }
    Ok(())
}

// Writes the ones and then the others.
pub fn write_both<W: Write>(to: &mut W, ones: &[u8], others: &[u8]) -> io::Result<()>
    ensures ok { OnOk result (Appends (W.contents to.old) (W.contents to.new) (ones.now ++ others.now)) }
    ensures err { OnErr result (HasWritten (W.contents to.old) (W.contents to.new) (ones.now ++ others.now)) }
{
    write_all(to, ones)?;
    write_all(to, others)
}
