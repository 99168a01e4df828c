// The lines that note what is seldom meant.
ghost use Rattle.std.specs.Prelude.{◌≡◌, ◌++◌, OnOk};
ghost use Rattle.lrc_races_notes.specs.Noter.{more_blank, more_mark, more_notes, notes_of};
ghost use Rattle.lrc_races_notes.specs.Notes.{blank_note};

use crate::noter::Noter;
use lrc_text::push_number;
use std::alloc::AllocError;

const MARK_NOTE: &[u8] = b"treadmarks: trace line 1: a byte order mark is part of a name\n";

fn push_mark(text: &mut Vec<u8>, told: bool, marked: bool) -> Result<(), AllocError>
    ensures { OnOk result (text.new.items ≡ text.old.items ++ more_mark told marked) }
{
    if told {
        return Ok(());
    }
    if marked {
        return text.extend_from_slice(MARK_NOTE);
    }
    Ok(())
}

fn push_blank(text: &mut Vec<u8>, told: Option<u64>, blank: Option<u64>) -> Result<(), AllocError>
    ensures { OnOk result (text.new.items ≡ text.old.items ++ more_blank told blank) }
{
    match (told, blank) {
        (None, Some(line)) => push_blank_note(text, line),
        _ => Ok(()),
    }
}

fn push_blank_note(text: &mut Vec<u8>, line: u64) -> Result<(), AllocError>
    ensures { OnOk result (text.new.items ≡ text.old.items ++ blank_note line) }
{
    push_number(text, b"treadmarks: trace line ", line)?;
    text.extend_from_slice(b": a blank at the end of a line is part of a location\n")?;
    Ok(())
}

/// Adds the lines on what is to be noted, and was not when `told` was. It fails if memory runs out.
pub fn push_more(text: &mut Vec<u8>, told: Noter, noter: Noter) -> Result<(), AllocError>
    ensures { OnOk result (text.new.items ≡ text.old.items ++ more_notes told noter) }
{
    push_mark(text, told.marked, noter.marked)?;
    push_blank(text, told.blank, noter.blank)
}

/// Adds the lines on all that is to be noted. It fails if memory runs out.
pub fn push_notes(text: &mut Vec<u8>, noter: Noter) -> Result<(), AllocError>
    ensures { OnOk result (text.new.items ≡ text.old.items ++ notes_of noter) }
{
    push_more(text, Noter::new(), noter)
}
