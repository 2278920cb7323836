// Streams of bytes, as the programs read and write them: a buffer is filled from a reader, as far as the reader's bytes
// go, and bytes are written whole. std's `read_exact` and `write_all` say less of a reader that ends and of an error.
#![tactic(auto)]

mod copying;
mod reading;
mod writing;

ghost use Rattle.std.specs.Prelude.{◌≡◌, length};
ghost use Rattle.std.specs.List.{All};

pub use copying::copy_line;
pub use reading::{read_array, read_full};
pub use writing::{write_all, write_both};

// N zeros, for what is read or written in parts as large as that.
pub fn buffer<const N: usize>() -> [u8; N]
    ensures length { N ≡ length result }
    ensures zeros { All (λ byte. byte ≡ 0) result }
{
    [0; N]
}

#[cfg(test)]
mod tests {
    use super::*;
    use std::io;
    use std::io::{Error, ErrorKind, Read};
    use std::test::Fail;

    // Gives one byte at a time, is cut short by a signal before each, and fails after a while.
    #[derive(Drop)]
    struct Drip {
        left: u8,
        is_cut: bool,
        fails: bool,
    }

    impl Read for Drip {
        fn read(&mut self, buf: &mut [u8]) -> io::Result<usize> {
            self.is_cut = !self.is_cut;
            if self.is_cut {
                return Err(Error::from(ErrorKind::Interrupted));
            }
            if self.left == 0 && self.fails {
                return Err(Error::from(ErrorKind::BrokenPipe));
            }
            if self.left == 0 || buf.is_empty() {
                return Ok(0);
            }
            buf[0] = self.left;
            self.left -= 1;
            Ok(1)
        }
    }

    fn dripping(left: u8, fails: bool) -> Drip {
        Drip {
            left,
            is_cut: false,
            fails,
        }
    }

    #[test]
    fn fills_a_buffer_or_ends(rt: HostRuntime) -> Result<(), Fail> {
        let mut buf = [0u8; 3];
        assert_eq!(rt; read_full(&mut dripping(5, true), &mut buf)?, 3);
        assert_eq!(rt; buf, [5, 4, 3]);
        assert_eq!(rt; read_full(&mut dripping(2, false), &mut buf)?, 2);
        assert_eq!(rt; buf, [2, 1, 3]);
        Ok(())
    }

    #[test]
    fn a_failed_read_is_told(rt: HostRuntime) -> Result<(), Fail> {
        let mut buf = [0u8; 3];
        let told = read_full(&mut dripping(2, true), &mut buf);
        assert!(rt; told.is_err_and(|why| why.kind() == ErrorKind::BrokenPipe));
        assert_eq!(rt; buf, [2, 1, 0]);
        Ok(())
    }
}
