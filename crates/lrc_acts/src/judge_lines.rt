// The lines in which a judge of acts tells what it found.

ghost use Rattle.std.specs.Prelude.{◌≡◌, ◌++◌, OnErr, OnOk, codes, decimal};
ghost use Rattle.lrc_text.specs.Front.{BeginsWith};
ghost use Rattle.lrc_acts.specs.JudgeLines.{kind_text, later_values_text, pair_line, place_text, unlazy_line, unordered_line, unsynchronized_line, values_text};

use lrc_text::push_number;
use std::alloc::AllocError;

/// Where an act is: its position and its line.
#[derive(Clone, Copy)]
pub struct Place {
    /// The position, counted from 0.
    pub position: usize,
    /// The line, counted from 1.
    pub line: u32,
}

/// Two accesses to one word that race.
#[derive(Clone, Copy)]
pub struct RacingAccesses {
    /// The position of the earlier access, and whether it writes.
    pub earlier: usize,
    pub earlier_writes: bool,
    /// The position of the later access, and whether it writes.
    pub later: usize,
    pub later_writes: bool,
    /// The word that both access.
    pub word: u32,
}

/// Adds the line for the first act that is not well synchronized.
pub fn push_unsynchronized(text: &mut Vec<u8>, place: Place) -> Result<(), AllocError>
    ensures ok { OnOk result (text.new.items ≡ text.old.items ++ unsynchronized_line place) }
    ensures err { OnErr result (BeginsWith text.new.items text.old.items) }
{
    text.extend_from_slice(b"not well synchronized")?;
    push_place(text, place)?;
    text.extend_from_slice(b"\n")
}

/// Adds the line for the first read that gives a value that it may not give: the value, and the values that it may
/// give.
pub fn push_unlazy(
    text: &mut Vec<u8>,
    place: Place,
    value: u64,
    allowed: &[u64],
) -> Result<(), AllocError>
    ensures ok { OnOk result (text.new.items
        ≡ text.old.items ++ unlazy_line place value allowed.now) }
    ensures err { OnErr result (BeginsWith text.new.items text.old.items) }
{
    push_read(text, b"does not read lazily", place, value)?;
    text.extend_from_slice(b", allowed ")?;
    push_values(text, allowed)?;
    text.extend_from_slice(b"\n")
}

/// Adds the line for the first read that does not give the value written last: its value, and the value written.
pub fn push_unordered(
    text: &mut Vec<u8>,
    place: Place,
    value: u64,
    last: u64,
) -> Result<(), AllocError>
    ensures ok { OnOk result (text.new.items ≡ text.old.items ++ unordered_line place value last) }
    ensures err { OnErr result (BeginsWith text.new.items text.old.items) }
{
    push_read(text, b"does not read in order", place, value)?;
    push_last(text, last)
}

// Adds where two accesses are that race, and their word.
fn push_positions(text: &mut Vec<u8>, pair: RacingAccesses) -> Result<(), AllocError>
    ensures ok { OnOk result (text.new.items
        ≡ text.old.items ++ (codes "race acts " ++ decimal pair.earlier ++ codes " "
        ++ decimal pair.later ++ codes ": word " ++ decimal pair.word)) }
    ensures err { OnErr result (BeginsWith text.new.items text.old.items) }
{
    push_number(text, b"race acts ", pair.earlier as u64)?;
    push_number(text, b" ", pair.later as u64)?;
    push_number(text, b": word ", u64::from(pair.word))
}

// Adds the kinds of two accesses.
fn push_kinds(
    text: &mut Vec<u8>,
    earlier_writes: bool,
    later_writes: bool,
) -> Result<(), AllocError>
    ensures ok { OnOk result (text.new.items
        ≡ text.old.items ++ (kind_text earlier_writes ++ codes " " ++ kind_text later_writes)) }
    ensures err { OnErr result (BeginsWith text.new.items text.old.items) }
{
    text.extend_from_slice(kind_of(earlier_writes))?;
    text.extend_from_slice(b" ")?;
    text.extend_from_slice(kind_of(later_writes))
}

/// Adds the line for two accesses that race.
pub fn push_pair(text: &mut Vec<u8>, pair: RacingAccesses) -> Result<(), AllocError>
    ensures ok { OnOk result (text.new.items ≡ text.old.items ++ pair_line pair) }
    ensures err { OnErr result (BeginsWith text.new.items text.old.items) }
{
    push_positions(text, pair)?;
    text.extend_from_slice(b", ")?;
    push_kinds(text, pair.earlier_writes, pair.later_writes)?;
    text.extend_from_slice(b"\n")
}

fn push_last(text: &mut Vec<u8>, last: u64) -> Result<(), AllocError>
    ensures ok { OnOk result (text.new.items
        ≡ text.old.items ++ codes ", last written " ++ decimal last ++ codes "\n") }
    ensures err { OnErr result (BeginsWith text.new.items text.old.items) }
{
    push_number(text, b", last written ", last)?;
    text.extend_from_slice(b"\n")
}

// Adds what a read does, where it is, and what it gives.
fn push_read(text: &mut Vec<u8>, does: &[u8], place: Place, value: u64) -> Result<(), AllocError>
    ensures ok { OnOk result (text.new.items
        ≡ text.old.items ++ does.now ++ place_text place ++ codes ": read " ++ decimal value) }
    ensures err { OnErr result (BeginsWith text.new.items text.old.items) }
{
    text.extend_from_slice(does)?;
    push_place(text, place)?;
    push_number(text, b": read ", value)
}

fn push_place(text: &mut Vec<u8>, place: Place) -> Result<(), AllocError>
    ensures ok { OnOk result (text.new.items ≡ text.old.items ++ place_text place) }
    ensures err { OnErr result (BeginsWith text.new.items text.old.items) }
{
    push_number(text, b" at act ", place.position as u64)?;
    push_number(text, b", line ", u64::from(place.line))
}

fn push_values(text: &mut Vec<u8>, values: &[u64]) -> Result<(), AllocError>
    ensures ok { OnOk result (text.new.items ≡ text.old.items ++ values_text values.now) }
    ensures err { OnErr result (BeginsWith text.new.items text.old.items) }
{
    match values.split_first() {
        Some((first, rest)) => {
            push_number(text, b"", *first)?;
            push_later_values(text, rest)
        }
        None => Ok(()),
    }
}

fn push_later_values(text: &mut Vec<u8>, values: &[u64]) -> Result<(), AllocError>
    ensures ok { OnOk result (text.new.items ≡ text.old.items ++ later_values_text values.now) }
    ensures err { OnErr result (BeginsWith text.new.items text.old.items) }
{
    for value in values {
        push_number(text, b", ", *value)?;
    }
    Ok(())
}

fn kind_of(writes: bool) -> &'static [u8]
    ensures { result.now ≡ kind_text writes }
{
    if writes { b"write" } else { b"read" }
}
