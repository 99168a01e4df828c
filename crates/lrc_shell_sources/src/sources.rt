// The files that the program reads.

ghost use Rattle.std.specs.Prelude.{◌≡◌, IfErr, IfOk, IfSome, take};
ghost use Rattle.std.specs.IoError.{error_kind};
ghost use Rattle.lrc_shell_sources.specs.Known.{IsCause, IsFront, Known, nothing_known};

use crate::blocks::{Blocks, Reading};
use std::alloc::Global;
use std::fs::Files;
use std::io::{Input, Read};
use std::{fs, io};

/// The source of all input: files by their paths, and standard input.
pub trait Sources {
    /// A file that is read block by block.
    type File: Blocks + Drop;

    /// Standard input, read block by block.
    type Input: Blocks + Drop;

    /// What is known about the contents of the files.
    ghost known: { Self → Known } = { λ _. nothing_known };

    /// Opens a file, to be read block by block. If the file is known to be readable, it can fail only because memory
    /// runs out.
    fn open(&self, path: &str) -> io::Result<Self::File>
        ensures ok { IfOk result (λ file. Self.File.left file ≡ (known self.now).files path.now) }
        ensures err { IfErr result (λ error. IsCause ((known self.now).files path.now)
            (error_kind error)) };

    /// Opens standard input, to be read block by block.
    fn open_input(&self) -> Self::Input
        ensures { Self.Input.left result ≡ (known self.now).input };

    /// Reads the first bytes of a file, at most `most`. If the file is known to be readable, it can fail only because
    /// memory runs out.
    fn file(&self, alloc: Global, path: &str, most: u64) -> io::Result<Vec<u8>>
        ensures ok { IfOk result (λ bytes. IsFront most
            ((known self.now).files path.now) bytes.items) }
        ensures err { IfErr result (λ error. IsCause ((known self.now).files path.now)
            (error_kind error)) };

    /// Reads the first bytes of standard input, at most `most`. If it is known to be readable, it can fail only because
    /// memory runs out.
    fn input(&self, alloc: Global, most: u64) -> io::Result<Vec<u8>>
        ensures ok { IfOk result (λ bytes. IsFront most (known self.now).input bytes.items) }
        ensures err { IfErr result (λ error. IsCause (known self.now).input (error_kind error)) };
}

/// The files of the system. No contract says what they hold.
#[derive(Drop)]
pub struct System<'r, R> {
    /// The handle of the system.
    pub rt: &'r R,
}

impl<'r, R: Files + Input> Sources for System<'r, R> {
    type File = Reading<R::File>;

    type Input = Reading<R::Reader>;

    fn open(&self, path: &str) -> io::Result<Reading<R::File>> {
        Ok(Reading {
            reader: fs::open(self.rt, path)?,
        })
    }

    fn open_input(&self) -> Reading<R::Reader> {
        Reading {
            reader: self.rt.reader(),
        }
    }

    fn file(&self, alloc: Global, path: &str, most: u64) -> io::Result<Vec<u8>> {
        read_up_to(alloc, fs::open(self.rt, path)?, most)
    }

    fn input(&self, alloc: Global, most: u64) -> io::Result<Vec<u8>> {
        read_up_to(alloc, self.rt.reader(), most)
    }
}

/// Reads the bytes that a reader has left, at most `most`.
pub fn read_up_to<R: Read + Drop>(alloc: Global, reader: R, most: u64) -> io::Result<Vec<u8>>
    ensures { IfOk result (λ bytes. IfSome (R.remaining reader)
        (λ left. bytes.items ≡ take most left)) }
{
    let mut bytes = Vec::new(alloc);
    reader.take(most).read_to_end(&mut bytes)?;
    Ok(bytes)
}
