// What is noted on standard error of the lines of a trace that are read.

ghost use Rattle.std.specs.Prelude.{◌≡◌, [], IfOk};
ghost use Rattle.lrc_races_notes.specs.Noter.{notes_of};
ghost use Rattle.lrc_races_stream.specs.Noted.{IsNotedBefore, IsPartAt, IsPartOf};

use crate::answer::{Answer, Stop};
use lrc_races_notes::noter::Noter;
use lrc_races_notes::text::push_notes;
use lrc_races_text::fault::Fault;
use lrc_shell_sources::refusal::tell_line;
use std::alloc::{AllocError, Global};
use std::io::Write;

// Nothing to be noted.
fn nothing() -> Noter
    ensures { notes_of result ≡ [] }
{
    Noter::new()
}

// What is to be noted where a trace is read no further.
fn noted_at(stop: &Stop, noter: Noter) -> Noter
    ensures { IsPartAt noter stop.now result }
{
    match stop {
        Stop::Past(_last) => noter,
        Stop::Faulted(Fault::BadEvent(_line, _why)) => noter,
        Stop::Faulted(Fault::NoMemory) => nothing(),
        Stop::IllFormed(ill) => noter.up_to(ill.line),
        Stop::Unread(_kind) => noter,
    }
}

// What is to be noted where this is the answer.
fn noted_by(answer: &Answer, noter: Noter) -> Noter
    ensures { IsPartOf noter answer.now result }
{
    match answer {
        Answer::Answered(_text, _status) => noter,
        Answer::NoEvent(line) => noter.up_to(*line),
        Answer::Stopped(stop) => noted_at(stop, noter),
    }
}

fn notes(alloc: Global, noter: Noter) -> Result<Vec<u8>, AllocError>
    ensures { IfOk result (λ text. text.items ≡ notes_of noter) }
{
    let mut text = Vec::new(alloc);
    push_notes(&mut text, noter)?;
    Ok(text)
}

/// Notes what is to be noted of the lines of a trace up to an answer. Returns the answer, or, if there is no memory for
/// that, that there is none.
pub(crate) fn note<E: Write>(alloc: Global, answer: Answer, noter: Noter, err: &mut E) -> Answer
    ensures { IsNotedBefore noter answer (E.contents err.old) (E.contents err.new) result }
{
    match notes(alloc, noted_by(&answer, noter)) {
        Ok(text) => {
            tell_line(&text, err);
            answer
        }
        Err(_error) => Answer::Stopped(Stop::Faulted(Fault::NoMemory)),
    }
}
