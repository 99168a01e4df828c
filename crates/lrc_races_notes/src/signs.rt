// Whether a line says an event with a byte that is seldom meant.
ghost use Rattle.std.specs.Prelude.{◌↔◌, IsTrue};
ghost use Rattle.lrc_races_notes.specs.Signs.{EndsBlank, IsBlankEnded, IsBlankIn, IsEvent, IsMarkedEvent, IsMarkedIn};

use lrc_races_lines::cause::is_marked;
use lrc_races_lines::line::Line;
use lrc_races_lines::reading::{body_of, read_line};
use lrc_races_text::form::Form;

fn ends_blank(text: &[u8]) -> bool
    ensures { IsTrue result ↔ EndsBlank text.now }
{
    match text.last() {
        Some(byte) => *byte == b' ' || *byte == b'\t',
        None => false,
    }
}

fn is_event(line: &[u8]) -> bool
    ensures { IsTrue result ↔ IsEvent line.now }
{
    match read_line(line) {
        Line::Event(_named) => true,
        Line::Nothing => false,
        Line::Bad => false,
    }
}

fn is_marked_event(line: &[u8]) -> bool
    ensures { IsTrue result ↔ IsMarkedEvent line.now }
{
    if is_marked(line) {
        return is_event(line);
    }
    false
}

fn is_blank_ended(line: &[u8]) -> bool
    ensures { IsTrue result ↔ IsBlankEnded line.now }
{
    if ends_blank(body_of(line)) {
        return is_event(line);
    }
    false
}

/// Returns whether a line says an event and begins with a byte order mark.
pub(crate) fn is_marked_in(form: Form, line: &[u8]) -> bool
    ensures { IsTrue result ↔ IsMarkedIn form line.now }
{
    match form {
        Form::Std => is_marked_event(line),
        Form::Acts => false,
    }
}

/// Returns whether a line says an event whose location ends with a blank.
pub(crate) fn is_blank_in(form: Form, line: &[u8]) -> bool
    ensures { IsTrue result ↔ IsBlankIn form line.now }
{
    match form {
        Form::Std => is_blank_ended(line),
        Form::Acts => false,
    }
}
