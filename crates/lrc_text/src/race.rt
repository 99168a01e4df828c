// Races in words.

ghost use Rattle.std.specs.Prelude.{◌≡◌, ◌++◌, IfOk, OnErr, OnOk};
ghost use Rattle.lrc_text.specs.Front.{BeginsWith};
ghost use Rattle.lrc_text.specs.RaceText.{first_race_text, race_line, races_text};

use crate::number::push_number;
use lrc_trace::race::Race;
use std::alloc::{AllocError, Global};

/// Returns the lines of races, one for each race. It fails if memory runs out.
pub fn races_part(alloc: Global, races: &[Race]) -> Result<Vec<u8>, AllocError>
    ensures { IfOk result (λ part. part.items ≡ races_text races.now) }
{
    let mut text = Vec::new(alloc);
    for race in races {
        push_race(&mut text, *race)?;
    }
    Ok(text)
}

/// Adds the line of a race to a text. It fails if memory runs out. The text then keeps what it had, perhaps with some
/// of the line behind it.
pub fn push_race(text: &mut Vec<u8>, race: Race) -> Result<(), AllocError>
    ensures ok { OnOk result (text.new.items ≡ text.old.items ++ race_line race) }
    ensures err { OnErr result (BeginsWith text.new.items text.old.items) }
{
    push_number(text, b"race word ", u64::from(race.word))?;
    push_number(text, b": node ", u64::from(race.node_a))?;
    push_number(text, b" interval ", race.interval_a)?;
    push_number(text, b", node ", u64::from(race.node_b))?;
    push_number(text, b" interval ", race.interval_b)?;
    text.extend_from_slice(b"\n")
}

/// Returns the line of the first act that races with an earlier one, given by its position, or an empty text if there
/// is none. It fails if memory runs out.
pub fn first_race_part(alloc: Global, first: Option<usize>) -> Result<Vec<u8>, AllocError>
    ensures { IfOk result (λ part. part.items ≡ first_race_text first) }
{
    let mut text = Vec::new(alloc);
    if let Some(position) = first {
        push_number(&mut text, b"first race at act ", position as u64)?;
        text.extend_from_slice(b"\n")?;
    }
    Ok(text)
}
