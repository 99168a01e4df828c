// A writer that keeps why a write to it failed.

ghost use Rattle.std.specs.Prelude.{◌≡◌, None, Option};
ghost use Rattle.std.specs.Io.{WritesAtMost};
ghost use Rattle.std.specs.Io.KnownBytes.{WriteAppends};
ghost use Rattle.std.specs.declared.io.Error.{Error};
ghost use Rattle.lrc_shell_more.specs.Outlet.{failure_after, failure_kept};

use std::io;
use std::io::{ErrorKind, Write};

/// A writer that knows by which error a write to it failed last.
pub trait Outlet {
    /// The error by which a write failed last, or none if no write has failed.
    ghost failure_of: { Self → Option Error };

    /// Returns the error by which a write failed last, or none if no write has failed.
    fn failure(&self) -> Option<io::Error>
        ensures { result ≡ failure_of self.now };
}

/// A writer with the error by which a write to it failed last. An interruption is no failure, since such a write is
/// tried again.
#[derive(Drop)]
pub struct Kept<W> {
    pub writer: W,
    failure: Option<io::Error>,
}

impl<W: Write> Kept<W> {
    /// Wraps a writer to which no write has failed.
    pub fn new(writer: W) -> Kept<W>
        ensures writer { result.writer ≡ writer }
        ensures failure { result.failure ≡ None }
    {
        Kept {
            writer,
            failure: None,
        }
    }
}

impl<W: Write> Outlet for Kept<W> {
    ghost failure_of = { λ kept. kept.failure };

    fn failure(&self) -> Option<io::Error> {
        self.failure
    }
}

impl<W: Write> Write for Kept<W> {
    ghost contents = { λ kept. W.contents kept.writer };

    fn write(&mut self, buf: &[u8]) -> io::Result<usize>
        ensures bound { WritesAtMost result buf.now }
        ensures bytes { WriteAppends (W.contents self.old.writer) (W.contents self.new.writer)
            result buf.now }
        ensures failure { self.new.failure ≡ failure_after self.old.failure result }
    {
        let answer = self.writer.write(buf);
        self.failure = failure_after(self.failure, &answer);
        answer
    }

    fn flush(&mut self) -> io::Result<()> {
        self.writer.flush()
    }
}

// The error by which a write failed last, behind a write that was answered so.
fn failure_after(before: Option<io::Error>, answer: &io::Result<usize>) -> Option<io::Error>
    ensures { result ≡ failure_after before answer.now }
{
    match answer {
        Ok(_) => before,
        Err(error) => failure_kept(error.kind(), before, *error),
    }
}

// The same behind an error of this kind.
fn failure_kept(kind: ErrorKind, before: Option<io::Error>, error: io::Error) -> Option<io::Error>
    ensures { result ≡ failure_kept kind before error }
{
    match kind {
        ErrorKind::Interrupted => before,
        _ => Some(error),
    }
}
