// What is printed of a report.
ghost use Rattle.std.specs.Prelude.{◌≡◌, ◌++◌, OnOk, flat_map, length};
ghost use Rattle.lrc_races_lines.specs.Table.{names_of};
ghost use Rattle.lrc_races_text.specs.Spelled.{side_place};
ghost use Rattle.lrc_races_text.specs.Tables.{naming_of};
ghost use Rattle.lrc_races_claims.specs.Known.{known_names};
ghost use Rattle.lrc_races_scored.specs.Spelled.{event_line, first_line, judged_lines, locations_line, pair_line, tally_line, variable_line};

use crate::sort::Sort;
use crate::tally::Tally;
use lrc_races_claims::known::KnownNames;
use lrc_races_claims::places::place_name;
use lrc_races_claims::spelling::push_line;
use lrc_races_claims::verdict::Verdict;
use lrc_races_lines::table::Table;
use lrc_races_missed::pairs::TwoLines;
use lrc_races_missed::variables::Racing;
use lrc_races_score::report::LinedClaim;
use lrc_races_text::asked::Sought;
use lrc_races_text::naming::Names;
use lrc_races_trace::event::Pair;
use lrc_text::push_number;
use std::alloc::AllocError;

// Adds two parts of a line.
fn push_two(text: &mut Vec<u8>, one: &[u8], two: &[u8]) -> Result<(), AllocError>
    ensures { OnOk result (text.new.items ≡ text.old.items ++ one.now ++ two.now) }
{
    text.extend_from_slice(one)?;
    text.extend_from_slice(two)?;
    Ok(())
}

/// Adds what is said of each claim, by its line in the report.
pub fn push_judged(
    text: &mut Vec<u8>,
    sought: Sought,
    threads: &Table,
    claims: &[LinedClaim<'_>],
    verdicts: &[Verdict],
) -> Result<(), AllocError>
    requires { length verdicts.now ≡ length claims.now }
    ensures { OnOk result (text.new.items ≡ text.old.items
        ++ judged_lines sought (names_of threads.now) claims.now verdicts.now) }
{
    for (place, lined) in claims.iter().enumerate() {
        push_line(
            text,
            sought,
            threads,
            lined.line,
            lined.claim,
            verdicts[place],
        )?;
    }
    Ok(())
}

// Adds the line of an event that is missed.
fn push_event(text: &mut Vec<u8>, line: u64) -> Result<(), AllocError>
    ensures { OnOk result (text.new.items ≡ text.old.items ++ event_line line) }
{
    push_number(text, b"missed event ", line)?;
    push_two(text, b"\n", b"")
}

/// Adds the lines of the events that are missed.
pub fn push_events(text: &mut Vec<u8>, lines: &[u64]) -> Result<(), AllocError>
    ensures { OnOk result (text.new.items ≡ text.old.items ++ flat_map event_line lines.now) }
{
    for line in lines {
        push_event(text, *line)?;
    }
    Ok(())
}

// Adds the line of a pair that is missed.
fn push_pair(text: &mut Vec<u8>, pair: TwoLines) -> Result<(), AllocError>
    ensures { OnOk result (text.new.items ≡ text.old.items ++ pair_line pair) }
{
    push_number(text, b"missed pair ", pair.earlier)?;
    push_number(text, b" ", pair.later)?;
    push_two(text, b"\n", b"")
}

/// Adds the lines of the pairs that are missed.
pub fn push_pairs(text: &mut Vec<u8>, pairs: &[TwoLines]) -> Result<(), AllocError>
    ensures { OnOk result (text.new.items ≡ text.old.items ++ flat_map pair_line pairs.now) }
{
    for pair in pairs {
        push_pair(text, *pair)?;
    }
    Ok(())
}

// Adds the line of two places that are missed.
fn push_places(text: &mut Vec<u8>, names: &Names, pair: Pair) -> Result<(), AllocError>
    ensures { OnOk result (text.new.items
        ≡ text.old.items ++ locations_line (naming_of names.now) pair) }
{
    let place = place_name(names, pair.earlier.event.location);
    let other = place_name(names, pair.later.event.location);
    push_two(text, b"missed locations ", place)?;
    push_two(text, b"|", other)?;
    push_two(text, b"\n", b"")
}

/// Adds the lines of the two places of each pair that are missed.
pub fn push_locations(text: &mut Vec<u8>, names: &Names, pairs: &[Pair]) -> Result<(), AllocError>
    ensures { OnOk result (text.new.items
        ≡ text.old.items ++ flat_map (locations_line (naming_of names.now)) pairs.now) }
{
    for pair in pairs {
        push_places(text, names, *pair)?;
    }
    Ok(())
}

// Adds the line of a variable that is missed.
fn push_variable(
    text: &mut Vec<u8>,
    variables: &KnownNames,
    racing: Racing,
) -> Result<(), AllocError>
    ensures { OnOk result (text.new.items
        ≡ text.old.items ++ variable_line (known_names variables.now) racing) }
{
    push_two(
        text,
        b"missed variable ",
        variables.name(racing.variable as usize),
    )?;
    push_two(text, b"\n", b"")
}

/// Adds the lines of the variables that are missed.
pub fn push_variables(
    text: &mut Vec<u8>,
    variables: &KnownNames,
    missed: &[Racing],
) -> Result<(), AllocError>
    ensures { OnOk result (text.new.items
        ≡ text.old.items ++ flat_map (variable_line (known_names variables.now)) missed.now) }
{
    for racing in missed {
        push_variable(text, variables, *racing)?;
    }
    Ok(())
}

// Adds the line of a variable whose first access that races is missed.
fn push_first(text: &mut Vec<u8>, variables: &KnownNames, racing: Racing) -> Result<(), AllocError>
    ensures { OnOk result (text.new.items
        ≡ text.old.items ++ first_line (known_names variables.now) racing) }
{
    push_two(
        text,
        b"missed first ",
        variables.name(racing.variable as usize),
    )?;
    push_number(text, b" ", racing.line)?;
    push_two(text, b"\n", b"")
}

/// Adds the lines of the variables whose first accesses that race are missed.
pub fn push_firsts(
    text: &mut Vec<u8>,
    variables: &KnownNames,
    missed: &[Racing],
) -> Result<(), AllocError>
    ensures { OnOk result (text.new.items
        ≡ text.old.items ++ flat_map (first_line (known_names variables.now)) missed.now) }
{
    for racing in missed {
        push_first(text, variables, *racing)?;
    }
    Ok(())
}

/// Adds the line of a sort of claims: how many there are, true and false, and how many are missed.
pub fn push_tally(
    text: &mut Vec<u8>,
    sort: Sort,
    tally: Tally,
    missed: u64,
) -> Result<(), AllocError>
    ensures { OnOk result (text.new.items ≡ text.old.items ++ tally_line sort tally missed) }
{
    push_two(text, b"score ", sort.word())?;
    push_number(text, b": ", tally.claims)?;
    push_number(text, b" claims, ", tally.right)?;
    push_number(text, b" true, ", tally.wrong)?;
    push_number(text, b" false, ", missed)?;
    push_two(text, b" missed\n", b"")
}
