// Files that note why one of them could not be read.

ghost use Rattle.std.specs.Prelude.{◌≡◌, ◌<◌, ◌≤◌, ◌⊎◌, IfErr, IfOk, IfSome, length, take};
ghost use Rattle.std.specs.IoError.{error_kind};
ghost use Rattle.lrc_shell_sources.specs.Known.{IsAtEnd, IsCause, IsFront, IsReadOff};

use crate::more::Unread;
use lrc_shell_sources::blocks::Blocks;
use lrc_shell_sources::sources::Sources;
use std::alloc::Global;
use std::cell::Cell;
use std::io;

/// Why a file could not be read, and whether it is the report of a detector.
#[derive(Clone, Copy)]
pub struct Note {
    pub is_report: bool,
    pub error: io::Error,
}

/// The files of a source. Why one of them could not be read last is noted. No contract says what a note holds.
#[derive(Drop)]
pub struct Noting<'s, F> {
    pub sources: &'s F,
    /// The file of a report, if one is read.
    pub report: Option<&'s str>,
    pub note: &'s Cell<Option<Note>>,
}

/// A file of such a source.
#[derive(Drop)]
pub struct NotingFile<'s, B> {
    file: B,
    is_report: bool,
    note: &'s Cell<Option<Note>>,
}

impl<'s, B: Blocks> Blocks for NotingFile<'s, B> {
    ghost left = { λ noting. B.left noting.file };

    fn read(&mut self, block: &mut [u8]) -> io::Result<usize>
        ensures count { IfOk result (λ count. count ≤ length block.new) }
        ensures ok { IfOk result (λ count. IsReadOff (B.left self.old.file) (take count block.new)
            (B.left self.new.file)) }
        ensures end { IfOk result (λ count. count ≡ 0 → 0 < length block.new
            → IsAtEnd (B.left self.old.file)) }
        ensures err { IfErr result (λ error. IsCause (B.left self.old.file) (error_kind error)) }
    {
        let answer = self.file.read(block);
        take_note(self.note, self.is_report, &answer);
        answer
    }
}

impl<'s, F: Sources> Sources for Noting<'s, F> {
    type File = NotingFile<'s, F::File>;

    type Input = NotingFile<'s, F::Input>;

    ghost known = { λ noting. F.known noting.sources.now };

    fn open(&self, path: &str) -> io::Result<NotingFile<'s, F::File>> {
        let is_report = self.report == Some(path);
        let answer = self.sources.open(path);
        take_note(self.note, is_report, &answer);
        Ok(NotingFile {
            file: answer?,
            is_report,
            note: self.note,
        })
    }

    fn open_input(&self) -> NotingFile<'s, F::Input> {
        NotingFile {
            file: self.sources.open_input(),
            is_report: self.report == Some("-"),
            note: self.note,
        }
    }

    fn file(&self, alloc: Global, path: &str, most: u64) -> io::Result<Vec<u8>> {
        let answer = self.sources.file(alloc, path, most);
        take_note(self.note, self.report == Some(path), &answer);
        answer
    }

    fn input(&self, alloc: Global, most: u64) -> io::Result<Vec<u8>> {
        let answer = self.sources.input(alloc, most);
        take_note(self.note, self.report == Some("-"), &answer);
        answer
    }
}

// Notes an error.
fn take_note<T>(note: &Cell<Option<Note>>, is_report: bool, answer: &io::Result<T>) {
    if let Err(error) = answer {
        note.set(Some(Note {
            is_report,
            error: *error,
        }));
    }
}

/// Returns the file that could not be read, by a note, if there is one.
pub fn unread<'w>(note: Option<Note>, file: &'w str, report: &'w str) -> Option<Unread<'w>>
    ensures { IfSome result (λ unread. (unread.path.now ≡ file.now)
        ⊎ (unread.path.now ≡ report.now)) }
{
    let note = note?;
    let path = if note.is_report { report } else { file };
    Some(Unread {
        path,
        error: note.error,
    })
}
