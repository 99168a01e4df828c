// A file that is read block by block.

ghost use Rattle.std.specs.Prelude.{◌≡◌, ◌<◌, ◌≤◌, IfErr, IfOk, length, take};
ghost use Rattle.std.specs.IoError.{error_kind};
ghost use Rattle.lrc_shell_sources.specs.Known.{Held, IsAtEnd, IsCause, IsReadOff, unknown};

use std::io;
use std::io::{ErrorKind, Read};

/// A file that is read block by block.
pub trait Blocks {
    /// What is known about the bytes that are left in the file.
    ghost left: { Self → Held } = { λ _. unknown };

    /// Reads bytes to the front of a block and returns their number. If the block is not empty, 0 means the end of the
    /// file. If the bytes left are known and readable, it can fail only because memory runs out.
    fn read(&mut self, block: &mut [u8]) -> io::Result<usize>
        ensures count { IfOk result (λ count. count ≤ length block.new) }
        ensures ok { IfOk result (λ count. IsReadOff (left self.old) (take count block.new)
            (left self.new)) }
        ensures end { IfOk result (λ count. count ≡ 0 → 0 < length block.new
            → IsAtEnd (left self.old)) }
        ensures err { IfErr result (λ error. IsCause (left self.old) (error_kind error)) };
}

/// A reader of the system. No contract says what it reads.
#[derive(Drop)]
pub struct Reading<R> {
    pub reader: R,
}

impl<R: Read> Blocks for Reading<R> {
    // A read that was interrupted is tried again.
    fn read(&mut self, block: &mut [u8]) -> io::Result<usize> {
        for _turn in 0..u64::MAX {
            match self.reader.read(block) {
                Err(error) if error.kind() == ErrorKind::Interrupted => {}
                result => return result,
            }
        }
        Err(io::Error::from(ErrorKind::TimedOut))
    }
}
