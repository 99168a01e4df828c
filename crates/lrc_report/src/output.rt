// Writing a text whole, or knowing that only its front was written. What has failed is not written to any more.

ghost use Rattle.std.specs.Prelude.{◌≡◌, ◌≢◌, ◌<◌, ℕ, IfErr, IsErrAnd, OnErr, OnOk, false, true};
ghost use Rattle.std.specs.Io.{WritesAtMost};
ghost use Rattle.std.specs.Io.KnownBytes.{Appends, WriteAppends};
ghost use Rattle.std.specs.IoError.{error_kind};
ghost use Rattle.lrc_report.specs.Output.{AppendsFront};
ghost use Rattle.lrc_text.specs.Parts.{whole_text};

use std::io;
use std::io::{ErrorKind, Write};

/// A writer, and whether a write to it has failed. After a failure nothing more may be written to it.
#[derive(Drop)]
pub struct Output<'w, W> {
    writer: &'w mut W,
    failed: bool,
}

impl<'w, W: Write> Output<'w, W> {
    /// Wraps a writer to which no write has failed.
    pub fn new(writer: &'w mut W) -> Output<'w, W>
        ensures same_writer { result.writer.ghost_name ≡ writer.entry.ghost_name }
        ensures held { result.writer.now ≡ writer.old }
        ensures fine { result.failed ≡ false }
    {
        Output {
            writer,
            failed: false,
        }
    }

    // Writes bytes from the front of a text and says how many: none where the writer was interrupted.
    fn write(&mut self, text: &[u8]) -> io::Result<usize>
        requires { self.now.failed ≡ false }
        ensures same_writer { self.new.writer.ghost_name ≡ self.old.writer.ghost_name }
        ensures count { WritesAtMost result text.now }
        ensures bytes { WriteAppends (W.contents self.old.writer.now)
            (W.contents self.new.writer.now) result text.now }
        ensures fine { OnOk result (self.new.failed ≡ false) }
        ensures failed { OnErr result (self.new.failed ≡ true) }
    {
        let next = after(self.writer.write(text));
        self.failed = next.is_err();
        next
    }

    // Has failed, by this error.
    fn fail(&mut self, error: io::Error) -> io::Error
        ensures same_writer { self.new.writer.ghost_name ≡ self.old.writer.ghost_name }
        ensures held { self.new.writer.now ≡ self.old.writer.now }
        ensures failed { self.new.failed ≡ true }
    {
        self.failed = true;
        error
    }
}

// What follows a write, by what the writer answered: the bytes that it took are behind us, a writer that takes none has
// failed, an interrupted write is tried again, and any other error is a failure.
fn after(answer: io::Result<usize>) -> io::Result<usize>
    ensures taken { (count : ℕ) → 0 < count → answer ≡ Ok count → result ≡ Ok count }
    ensures none_taken { answer ≡ Ok 0 → IsErrAnd result (λ e. error_kind e ≡ ErrorKind.WriteZero) }
    ensures interrupted { IfErr answer (λ e. error_kind e ≡ ErrorKind.Interrupted → result ≡ Ok 0) }
    ensures failed { IfErr answer (λ e. error_kind e ≢ ErrorKind.Interrupted → result ≡ Err e) }
{
    match answer {
        Ok(0) => Err(io::Error::from(ErrorKind::WriteZero)),
        Ok(count) => Ok(count),
        Err(error) if error.kind() == ErrorKind::Interrupted => Ok(0),
        Err(error) => Err(error),
    }
}

/// Writes the parts of a text in order, each in as few writes as the writer allows. A failed write leaves some bytes
/// from the front of the text, but not all.
pub fn put_parts<W: Write>(output: &mut Output<'_, W>, parts: &[Vec<u8>]) -> io::Result<()>
    requires { output.now.failed ≡ false }
    ensures same_writer { output.new.writer.ghost_name ≡ output.old.writer.ghost_name }
    ensures ok { OnOk result (Appends (W.contents output.old.writer.now)
        (W.contents output.new.writer.now) (whole_text parts.now)) }
    ensures err { OnErr result (AppendsFront (W.contents output.old.writer.now)
        (W.contents output.new.writer.now) (whole_text parts.now)) }
    ensures fine { OnOk result (output.new.failed ≡ false) }
    ensures failed { OnErr result (output.new.failed ≡ true) }
{
    for part in parts {
        put(output, part)?;
    }
    Ok(())
}

/// Writes a text. Unlike `write_all`, it promises what a failed write leaves: some bytes from the front of the text,
/// but not all.
pub fn put<W: Write>(output: &mut Output<'_, W>, text: &[u8]) -> io::Result<()>
    requires { output.now.failed ≡ false }
    ensures same_writer { output.new.writer.ghost_name ≡ output.old.writer.ghost_name }
    ensures ok { OnOk result (Appends (W.contents output.old.writer.now)
        (W.contents output.new.writer.now) text.now) }
    ensures err { OnErr result (AppendsFront (W.contents output.old.writer.now)
        (W.contents output.new.writer.now) text.now) }
    ensures fine { OnOk result (output.new.failed ≡ false) }
    ensures failed { OnErr result (output.new.failed ≡ true) }
{
    let mut rest = text;
    for _turn in 0..u64::MAX {
        if rest.is_empty() {
            return Ok(());
        }
        let count = output.write(rest)?;
        rest = &rest[count..];
    }
    if rest.is_empty() {
        Ok(())
    } else {
        Err(output.fail(io::Error::from(ErrorKind::TimedOut)))
    }
}
