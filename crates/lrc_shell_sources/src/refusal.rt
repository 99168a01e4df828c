// The lines on files that cannot be read, and on want of memory, and the status after each.

ghost use Rattle.std.specs.Prelude.{◌≡◌};
ghost use Rattle.std.specs.IoError.{error_kind};
ghost use Rattle.lrc_shell_sources.specs.Lines.{IsTold, memory_line, read_line};

use lrc_report::output::{Output, put};
use std::io;
use std::io::{ErrorKind, Write};

/// The exit status after a fault of a file or of memory.
pub const FAULT: u8 = 1;

/// The line that is written if memory runs out.
pub const NO_MEMORY: &[u8] = b"treadmarks: out of memory\n";

const CANNOT_READ: &[u8] = b"treadmarks: cannot read file\n";

/// Writes that memory ran out, and returns the exit status 1.
pub fn refuse_memory<E: Write>(err: &mut E) -> u8
    ensures told { IsTold (E.contents err.old) (E.contents err.new) memory_line }
    ensures status { result ≡ 1 }
{
    tell_line(NO_MEMORY, err);
    FAULT
}

/// Writes why a file cannot be read, and returns the exit status 1.
pub fn refuse_file<E: Write>(error: &io::Error, err: &mut E) -> u8
    ensures told { IsTold (E.contents err.old) (E.contents err.new)
        (read_line (error_kind error.now)) }
    ensures status { result ≡ 1 }
{
    refuse_read(error.kind(), err)
}

/// Writes why a file can be read no further, and returns the exit status 1.
pub fn refuse_read<E: Write>(kind: ErrorKind, err: &mut E) -> u8
    ensures told { IsTold (E.contents err.old) (E.contents err.new) (read_line kind) }
    ensures status { result ≡ 1 }
{
    tell_line(read_line(kind), err);
    FAULT
}

fn read_line(kind: ErrorKind) -> &'static [u8]
    ensures { result.now ≡ read_line kind }
{
    match kind {
        ErrorKind::OutOfMemory => NO_MEMORY,
        _ => CANNOT_READ,
    }
}

/// Writes a line, or only its beginning if a write fails.
pub fn tell_line<E: Write>(line: &[u8], err: &mut E)
    ensures { IsTold (E.contents err.old) (E.contents err.new) line.now }
{
    let mut output = Output::new(err);
    let _written = put(&mut output, line);
}
