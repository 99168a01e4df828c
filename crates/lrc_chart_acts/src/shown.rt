// Which acts are shown.

ghost use Rattle.std.specs.Prelude.{◌≡◌, ◌++◌, IfOk, OnOk};
ghost use Rattle.lrc_chart_build.specs.Course.{is_quiet_deed};
ghost use Rattle.lrc_chart_acts.specs.Shown.{acts_shown, is_from, is_shown, is_up_to, row_if, row_of_act};

use lrc_chart_build::{Part, Place};
use lrc_trace::act::{Act, Deed};
use std::alloc::{AllocError, Global};

fn is_from(first: Option<usize>, position: usize) -> bool
    ensures { result ≡ is_from first position }
{
    match first {
        Some(first) => first <= position,
        None => true,
    }
}

fn is_up_to(last: Option<usize>, position: usize) -> bool
    ensures { result ≡ is_up_to last position }
{
    match last {
        Some(last) => position <= last,
        None => true,
    }
}

fn is_quiet_deed(deed: Deed) -> bool
    ensures { result ≡ is_quiet_deed deed }
{
    matches!(deed, Deed::Quiet)
}

// Whether an act is of the part, and not one that is hidden.
fn is_shown(part: Part, position: usize, act: Act) -> bool
    ensures { result ≡ is_shown part position act }
{
    is_from(part.from, position)
        && is_up_to(part.to, position)
        && !(part.hides_quiet && is_quiet_deed(act.deed))
}

// The row of an act, with its number in the part.
fn row_of_act(part: Part, position: usize) -> Place
    ensures { result ≡ row_of_act part position }
{
    Place {
        number: position.saturating_sub(part.from.unwrap_or(0)),
        turn: position,
        act: Some(position),
    }
}

// Adds the row of an act, if it is shown.
fn push_row_if(
    places: &mut Vec<Place>,
    part: Part,
    position: usize,
    act: Act,
) -> Result<(), AllocError>
    ensures { OnOk result (places.new.items ≡ places.old.items ++ row_if part position act) }
{
    if is_shown(part, position, act) {
        places.push(row_of_act(part, position))?;
    }
    Ok(())
}

/// Returns a row for each act that is shown, numbered from the first act of the part.
pub(crate) fn acts_shown(alloc: Global, part: Part, acts: &[Act]) -> Result<Vec<Place>, AllocError>
    ensures { IfOk result (λ places. places.items ≡ acts_shown part acts.now) }
{
    let mut places = Vec::new(alloc);
    for (position, act) in acts.iter().enumerate() {
        push_row_if(&mut places, part, position, *act)?;
    }
    Ok(places)
}
