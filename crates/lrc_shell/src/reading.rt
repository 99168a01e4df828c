// What a choice names: the text of its FILE, and that of its events.

ghost use Rattle.std.specs.Prelude.{◌≡◌, IfErr, IfOk, Some, is_some, option_map};
ghost use Rattle.std.specs.IoError.{error_kind};
ghost use Rattle.lrc_cli_args.specs.Files.{events_of, file_of, names_events, reads_acts};
ghost use Rattle.lrc_shell.specs.Plays.{AreEventsRead, IsTextCause, IsTextRead, IsUnread, most_read};
ghost use Rattle.lrc_shell_sources.specs.Known.{IsCause};

use lrc_cli_args::choice::Choice;
use lrc_shell_more::more::Unread;
use lrc_shell_sources::sources::Sources;
use std::alloc::Global;
use std::io;

/// The most bytes read of a program's text: the limit plus one. A longer text is cut there, and is still too long.
const TEXT_READ: u64 = lrc_lang::MOST_BYTES as u64 + 1;

const _: () = prove!(TEXT_READ > lrc_lang::MOST_BYTES as u64);

/// The most bytes read of a text of acts: the limit plus one. A longer text is cut there, and is still too long.
const ACTS_READ: u64 = lrc_acts::reading::MOST_BYTES as u64 + 1;

const _: () = prove!(ACTS_READ > lrc_acts::reading::MOST_BYTES as u64);

/// The most bytes read of a text of events: the limit plus one. A longer text is cut there, and is still too long.
const EVENTS_READ: u64 = lrc_events::events::MOST_BYTES as u64 + 1;

const _: () = prove!(EVENTS_READ > lrc_events::events::MOST_BYTES as u64);

/// The texts that a choice names.
#[derive(Drop)]
pub(crate) struct Texts {
    /// The text of the FILE: a program, or acts.
    pub text: Vec<u8>,
    /// The text of the events, if the choice names a file of them.
    pub events: Option<Vec<u8>>,
}

/// Reads the texts that a choice names. It fails if one of them cannot be read.
pub(crate) fn read<'w, F: Sources>(
    alloc: Global,
    sources: &F,
    choice: &Choice<'w>,
) -> Result<Texts, Unread<'w>>
    ensures named { IfOk result (λ read. is_some read.events ≡ names_events choice.now) }
    ensures text { IfOk result (λ read. IsTextRead (F.known sources.now)
        (most_read (reads_acts choice.now)) (file_of choice.now) read.text.items) }
    ensures events { IfOk result (λ read. AreEventsRead (F.known sources.now) (events_of choice.now)
        (option_map (λ e. e.items) read.events)) }
    ensures err { IfErr result (λ unread. IsUnread (F.known sources.now) choice.now
        unread.path.now unread.error) }
{
    let text = read_named(alloc, sources, choice)?;
    let events = read_events(alloc, sources, choice)?;
    Ok(Texts { text, events })
}

// Reads the text of the FILE.
fn read_named<'w, F: Sources>(
    alloc: Global,
    sources: &F,
    choice: &Choice<'w>,
) -> Result<Vec<u8>, Unread<'w>>
    ensures ok { IfOk result (λ text. IsTextRead (F.known sources.now)
        (most_read (reads_acts choice.now)) (file_of choice.now) text.items) }
    ensures err { IfErr result (λ unread. (unread.path.now ≡ file_of choice.now)
        × IsTextCause (F.known sources.now) unread.path.now (error_kind unread.error)) }
{
    match read_text(alloc, sources, choice) {
        Ok(text) => Ok(text),
        Err(error) => Err(Unread {
            path: choice.file(),
            error,
        }),
    }
}

// Reads the text of a program, or of acts. The path `-` is standard input.
fn read_text<F: Sources>(alloc: Global, sources: &F, choice: &Choice<'_>) -> io::Result<Vec<u8>>
    ensures ok { IfOk result (λ text. IsTextRead (F.known sources.now)
        (most_read (reads_acts choice.now)) (file_of choice.now) text.items) }
    ensures err { IfErr result (λ error. IsTextCause (F.known sources.now) (file_of choice.now)
        (error_kind error)) }
{
    let path = choice.file();
    let most = most_read(choice);
    if path == "-" {
        sources.input(alloc, most)
    } else {
        sources.file(alloc, path, most)
    }
}

// How many bytes of its text are read for a choice.
fn most_read(choice: &Choice<'_>) -> u64
    ensures { result ≡ most_read (reads_acts choice.now) }
{
    if choice.reads_acts() {
        ACTS_READ
    } else {
        TEXT_READ
    }
}

// Reads the text of the events, where a choice names one.
fn read_events<'w, F: Sources>(
    alloc: Global,
    sources: &F,
    choice: &Choice<'w>,
) -> Result<Option<Vec<u8>>, Unread<'w>>
    ensures named { IfOk result (λ events. is_some events ≡ names_events choice.now) }
    ensures ok { IfOk result (λ events. AreEventsRead (F.known sources.now) (events_of choice.now)
        (option_map (λ e. e.items) events)) }
    ensures err { IfErr result (λ unread. (events_of choice.now ≡ Some unread.path.now)
        × IsCause ((F.known sources.now).files unread.path.now) (error_kind unread.error)) }
{
    let Some(path) = choice.events() else {
        return Ok(None);
    };
    match sources.file(alloc, path, EVENTS_READ) {
        Ok(events) => Ok(Some(events)),
        Err(error) => Err(Unread { path, error }),
    }
}
