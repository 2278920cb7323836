// Reading: a buffer is filled from a reader.
ghost use Rattle.std.specs.Prelude.{◌<◌, IfOk, OnErr, length, take};
ghost use Rattle.std.specs.Io.{ReadsAtMost};
ghost use Rattle.std.specs.Io.KnownBytes.{Consumes, IsAtEnd, ReadConsumes};
ghost use Rattle.streams.specs.Front.{HasFilled, HasRead, HasTaken};

use crate::buffer;
use std::io;
use std::io::{ErrorKind, Read};

// One read, made again for as long as signals cut it short.
fn read_some<R: Read>(from: &mut R, buf: &mut [u8]) -> io::Result<usize>
    ensures bound { ReadsAtMost result buf.new }
    ensures bytes { ReadConsumes (R.remaining from.old) (R.remaining from.new) result buf.new }
{
    for _ in 0..u64::MAX {
        match from.read(buf) {
            Ok(count) => return Ok(count),
            Err(why) => {
                if why.kind() != ErrorKind::Interrupted {
                    return Err(why);
                }
            }
        }
    }
    from.read(buf)
}

// Reads until the buffer is full or the reader has no more, and says how many bytes stand at the buffer's front. An
// error is the reader's own; what was read before it stands there too, but how much that is nobody is told.
pub fn read_full<R: Read>(from: &mut R, buf: &mut [u8]) -> io::Result<usize>
    ensures bound { ReadsAtMost result buf.new }
    ensures bytes { IfOk result (λ n. Consumes (R.remaining from.old) (R.remaining from.new) (take n buf.new)) }
    ensures end { IfOk result (λ n. n < length buf.new → IsAtEnd (R.remaining from.new)) }
    ensures err { OnErr result (HasRead (R.remaining from.old) (R.remaining from.new) buf.new) }
{
    let mut done = 0;
    while done < buf.len() {
        let count = read_some(from, &mut buf[done..])?;
        if count == 0 {
            break;
        }
        done += count;
    }
    Ok(done)
}

// The next N bytes, and zeros behind them where the reader has fewer: that these are zeros no clause says, since std
// leaves open what a read does to the buffer behind its bytes. An error is the reader's own; of what was read before it
// nobody is told more than that it is no more than N bytes.
pub fn read_array<const N: usize, R: Read>(from: &mut R) -> io::Result<[u8; N]>
    ensures ok { IfOk result (HasFilled (R.remaining from.old) (R.remaining from.new)) }
    ensures err { OnErr result (HasTaken N (R.remaining from.old) (R.remaining from.new)) }
{
    let mut bytes = buffer::<N>();
    read_full(from, &mut bytes)?;
    Ok(bytes)
}
