// What is known of the lines of a trace of which something is to be noted.
ghost use Rattle.std.specs.Prelude.{◌≡◌, ◌++◌, ℕ, List, [], None, false};
ghost use Rattle.std.specs.Bool.{OnTrue};
ghost use Rattle.lrc_races_text.specs.declared.form.Form.{Form as AnyForm};
ghost use Rattle.lrc_races_notes.specs.Noter.{BlanksMore, BlanksUpTo, HasNoted, MarksMore, MarksUpTo, NotesMore, NotesUpTo, TellsBlank, TellsMark, more_notes, notes_of};

use crate::signs::{is_blank_in, is_marked_in};
use lrc_races_front::keeping::Keep;
use lrc_races_text::fault::Fault;
use lrc_races_text::form::Form;

/// What is to be noted of the first lines of a trace.
#[derive(Clone, Copy)]
pub struct Noter {
    /// Whether the first line begins with a byte order mark, which is part of a name.
    pub marked: bool,
    /// The first line that ends with a blank which is part of a location, counted from 1.
    pub blank: Option<u64>,
}

// Whether the first line is marked, with one line more.
fn mark_with(marked: bool, form: Form, line: &[u8], number: u64) -> bool
    ensures { MarksMore form line.now number marked result }
{
    if number == 1 {
        return is_marked_in(form, line);
    }
    marked
}

// The first line that ends with a blank, with one line more.
fn blank_with(blank: Option<u64>, form: Form, line: &[u8], number: u64) -> Option<u64>
    ensures { BlanksMore form line.now number blank result }
{
    match blank {
        Some(first) => Some(first),
        None => {
            if is_blank_in(form, line) {
                return Some(number);
            }
            None
        }
    }
}

// Whether the first line is marked, if it is one of so many.
fn mark_up_to(marked: bool, count: u64) -> bool
    ensures { MarksUpTo count marked result }
{
    if count == 0 {
        return false;
    }
    marked
}

// The first line that ends with a blank, if it is one of so many.
fn blank_up_to(blank: Option<u64>, count: u64) -> Option<u64>
    ensures { BlanksUpTo count blank result }
{
    match blank {
        Some(first) => {
            if first <= count {
                return Some(first);
            }
            None
        }
        None => None,
    }
}

impl Noter {
    /// Creates the state before any line.
    pub fn new() -> Noter
        ensures none { (form : AnyForm) → HasNoted form [] result }
        ensures empty { result ≡ record { marked = false; blank = None } }
    {
        Noter {
            marked: false,
            blank: None,
        }
    }

    /// Takes the next line, which has this number and comes without its line feed.
    pub fn note(&mut self, form: Form, line: &[u8], number: u64)
        ensures { NotesMore form line.now number self.old self.new }
    {
        self.marked = mark_with(self.marked, form, line, number);
        self.blank = blank_with(self.blank, form, line, number);
    }

    /// Returns the same of so many first lines alone.
    pub fn up_to(self, count: u64) -> Noter
        ensures { NotesUpTo count self result }
    {
        Noter {
            marked: mark_up_to(self.marked, count),
            blank: blank_up_to(self.blank, count),
        }
    }

    /// Returns whether the text of this begins with that of another, so that the rest can be told behind it.
    pub fn is_more(&self, told: Noter) -> bool
        ensures { OnTrue result (notes_of self.now ≡ notes_of told ++ more_notes told self.now) }
    {
        mark_is_more(told, self.marked) && blank_is_more(told.blank, self.blank)
    }
}

// Whether a mark was told, if it is to be told before what was.
fn mark_is_more(told: Noter, marked: bool) -> bool
    ensures { OnTrue result (TellsMark told marked) }
{
    if told.marked {
        return marked;
    }
    if marked {
        return told.blank.is_none();
    }
    true
}

// Whether the blank that was told is the one that is to be.
fn blank_is_more(told: Option<u64>, blank: Option<u64>) -> bool
    ensures { OnTrue result (TellsBlank told blank) }
{
    match (told, blank) {
        (None, _) => true,
        (Some(one), Some(other)) => one == other,
        _ => false,
    }
}

impl Keep for Noter {
    ghost has_kept = { λ sought. HasNoted };

    fn take(&mut self, form: Form, line: &[u8], number: u64) -> Result<(), Fault> {
        self.note(form, line, number);
        Ok(())
    }
}
