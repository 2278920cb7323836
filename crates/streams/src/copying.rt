// Copying: what a reader gives is handed to a writer as it stands.
ghost use Rattle.std.specs.Prelude.{◌≤◌, ◌<◌, OnErr, OnOk};
ghost use Rattle.std.specs.Io.KnownBytes.{Keeps};
ghost use Rattle.streams.specs.Front.{HasCopied, HasLost};

use crate::{buffer, read_full, write_all};
use std::io;
use std::io::{Read, Write};

// Copies a line of so many bytes, at most 512: where the reader has fewer, zeros stand for the rest, which no clause
// says (reading.rt has why). Of a longer line nothing is read or written.
pub fn copy_line<R: Read, W: Write>(from: &mut R, to: &mut W, count: u16) -> io::Result<()>
    ensures ok { OnOk result (count ≤ 512 →
        HasCopied count (R.remaining from.old) (R.remaining from.new) (W.contents to.old) (W.contents to.new)) }
    ensures read { 512 < count → Keeps (R.remaining from.old) (R.remaining from.new) }
    ensures written { 512 < count → Keeps (W.contents to.old) (W.contents to.new) }
    ensures err { OnErr result
        (HasLost count (R.remaining from.old) (R.remaining from.new) (W.contents to.old) (W.contents to.new)) }
{
    let size = usize::from(count);
    let mut space = buffer::<512>();
    if size <= space.len() {
        let line = &mut space[..size];
        read_full(from, line)?;
        write_all(to, line)?;
    }
    Ok(())
}
