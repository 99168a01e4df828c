// Why the system refuses a read or a write, in its words.

ghost use Rattle.std.specs.Prelude.{◌≡◌, ◌++◌, OnOk};
ghost use Rattle.std.specs.IoError.{error_kind, raw_os_error};
ghost use Rattle.lrc_more_words.specs.Reason.{code_text, kind_words, reason_text, reason_or_code};

use lrc_text::push_number;
use std::alloc::AllocError;
use std::io;
use std::io::ErrorKind;

/// Adds why the system refuses.
pub(crate) fn push_reason(text: &mut Vec<u8>, error: &io::Error) -> Result<(), AllocError>
    ensures { OnOk result (text.new.items ≡ text.old.items ++ reason_text error.now) }
{
    push_words(text, kind_words(error.kind()), error.raw_os_error())
}

// The words of a kind of error, none where the kind has none of its own.
fn kind_words(kind: ErrorKind) -> &'static [u8]
    ensures { result.now ≡ kind_words kind }
{
    match kind {
        ErrorKind::NotFound => b"No such file or directory",
        ErrorKind::PermissionDenied => b"Permission denied",
        ErrorKind::NotADirectory => b"Not a directory",
        ErrorKind::IsADirectory => b"Is a directory",
        ErrorKind::FilesystemLoop => b"Too many levels of symbolic links",
        ErrorKind::InvalidFilename => b"File name too long",
        ErrorKind::StorageFull => b"No space left on device",
        ErrorKind::FileTooLarge => b"File too large",
        _ => b"",
    }
}

// Adds these words, or the number of the error where there are none.
fn push_words(text: &mut Vec<u8>, words: &[u8], code: Option<i32>) -> Result<(), AllocError>
    ensures { OnOk result (text.new.items ≡ text.old.items ++ reason_or_code words.now code) }
{
    if words.is_empty() {
        push_code(text, code)
    } else {
        text.extend_from_slice(words)
    }
}

fn push_code(text: &mut Vec<u8>, code: Option<i32>) -> Result<(), AllocError>
    ensures { OnOk result (text.new.items ≡ text.old.items ++ code_text code) }
{
    match code {
        Some(code) => push_number(text, b"error ", u64::from(code.unsigned_abs())),
        None => text.extend_from_slice(b"unknown error"),
    }
}
