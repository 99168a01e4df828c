// Acts that race, in words.

ghost use Rattle.std.specs.Prelude.{◌≡◌, ◌++◌, OnOk, map};
ghost use Rattle.std.specs.List.{flat_map};
ghost use Rattle.lrc_labels.specs.Reading.{label_seen};
ghost use Rattle.lrc_why_lines.specs.Racing.{after_text, least_line, behind_text, first_remedy, held_line, known_text, later_locks, locks_text, more_text, opponent_lines, opponent_text, opponents_text, parting_line, place_text, racing_line, remedy_line, where_text};

use crate::deed::push_lock;
use crate::look::{interval_at, node_at};
use crate::places::push_act;
use crate::shown::Shown;
use lrc_labels::label::Label;
use lrc_text::push_number;
use lrc_why::reasons::{Opponent, Parting, Standing};
use std::alloc::AllocError;

#[tactic(auto, unfolding(crate::specs::Racing::known_text))]
fn push_known(
    text: &mut Vec<u8>,
    shown: Shown<'_, '_>,
    node: u64,
    known: Option<usize>,
) -> Result<(), AllocError>
    ensures { OnOk result (text.new.items ≡ text.old.items ++ known_text shown.entry node known) }
{
    match known {
        Some(known) => {
            push_number(text, b" knows node ", node)?;
            push_number(text, b" up to interval ", interval_at(shown, known))
        }
        None => push_number(text, b" knows nothing of node ", node),
    }
}

#[tactic(auto, unfolding(crate::specs::Racing::place_text))]
fn push_place(text: &mut Vec<u8>, shown: Shown<'_, '_>, position: usize) -> Result<(), AllocError>
    ensures { OnOk result (text.new.items ≡ text.old.items ++ place_text shown.entry position) }
{
    push_number(text, b"    act ", position as u64)?;
    push_number(text, b" is in interval ", interval_at(shown, position))?;
    push_number(text, b" of node ", node_at(shown, position))
}

#[tactic(auto, unfolding(crate::specs::Racing::parting_line))]
/// Adds the line that tells what the later of two acts knows of the earlier act's node.
pub(crate) fn push_parting(
    text: &mut Vec<u8>,
    shown: Shown<'_, '_>,
    parting: &Parting,
) -> Result<(), AllocError>
    ensures { OnOk result (text.new.items
        ≡ text.old.items ++ parting_line shown.entry parting.now) }
{
    push_place(text, shown, parting.earlier)?;
    push_number(text, b", and act ", parting.later as u64)?;
    push_known(text, shown, node_at(shown, parting.earlier), parting.known)?;
    text.extend_from_slice(b"\n")
}

fn push_later_locks(
    text: &mut Vec<u8>,
    labels: &[Label<'_>],
    locks: &[u8],
) -> Result<(), AllocError>
    ensures { OnOk result (text.new.items
        ≡ text.old.items ++ later_locks (map label_seen labels.now) locks.now) }
{
    for lock in locks {
        push_lock(text, labels, b", ", *lock)?;
    }
    Ok(())
}

#[tactic(auto, unfolding(crate::specs::Racing::locks_text))]
fn push_locks(text: &mut Vec<u8>, labels: &[Label<'_>], locks: &[u8]) -> Result<(), AllocError>
    ensures { OnOk result (text.new.items
        ≡ text.old.items ++ locks_text (map label_seen labels.now) locks.now) }
{
    match locks {
        [] => text.extend_from_slice(b": no lock"),
        [only] => push_lock(text, labels, b": lock ", *only),
        [first, rest @ ..] => {
            push_lock(text, labels, b": locks ", *first)?;
            push_later_locks(text, labels, rest)
        }
    }
}

#[tactic(auto, unfolding(crate::specs::Racing::behind_text))]
fn push_behind(text: &mut Vec<u8>, departs: usize) -> Result<(), AllocError>
    ensures { OnOk result (text.new.items ≡ text.old.items ++ behind_text departs) }
{
    if departs == 0 {
        return text.extend_from_slice(b" before any barrier");
    }
    push_number(text, b" after barrier ", departs as u64)
}

#[tactic(auto, unfolding(crate::specs::Racing::where_text))]
fn push_where(
    text: &mut Vec<u8>,
    parting: &Parting,
    first: usize,
    second: usize,
) -> Result<(), AllocError>
    ensures { OnOk result (text.new.items ≡ text.old.items ++ where_text parting.now first second) }
{
    if first == second {
        text.extend_from_slice(b"; both")?;
        return push_behind(text, first);
    }
    push_number(text, b"; act ", parting.earlier as u64)?;
    push_behind(text, first)?;
    push_number(text, b", act ", parting.later as u64)?;
    push_behind(text, second)
}

#[tactic(auto, unfolding(crate::specs::Racing::held_line))]
/// Adds the line that tells the locks held at two acts, and the last barrier before each.
pub(crate) fn push_held(
    text: &mut Vec<u8>,
    labels: &[Label<'_>],
    parting: &Parting,
    first: &Standing,
    second: &Standing,
) -> Result<(), AllocError>
    ensures { OnOk result (text.new.items
        ≡ text.old.items ++ held_line
        (map label_seen labels.now) parting.now first.now second.now) }
{
    push_number(text, b"    held at act ", parting.earlier as u64)?;
    push_locks(text, labels, &first.locks)?;
    push_number(text, b", at act ", parting.later as u64)?;
    push_locks(text, labels, &second.locks)?;
    push_where(text, parting, first.departs, second.departs)?;
    text.extend_from_slice(b"\n")
}

#[tactic(auto, unfolding(crate::specs::Racing::after_text))]
fn push_after(
    text: &mut Vec<u8>,
    words: &[u8],
    node: u64,
    does: &[u8],
    position: usize,
) -> Result<(), AllocError>
    ensures { OnOk result (text.new.items
        ≡ text.old.items ++ after_text words.now node does.now position) }
{
    push_number(text, words, node)?;
    push_number(text, does, position as u64)
}

#[tactic(auto, unfolding(crate::specs::Racing::remedy_line))]
/// Adds the line that tells what would order two acts.
pub(crate) fn push_remedy(
    text: &mut Vec<u8>,
    shown: Shown<'_, '_>,
    parting: &Parting,
) -> Result<(), AllocError>
    ensures { OnOk result (text.new.items ≡ text.old.items ++ remedy_line shown.entry parting.now) }
{
    text.extend_from_slice(
        b"  to order them: one lock held at both, a barrier between, or a lock that",
    )?;
    push_after(
        text,
        b" node ",
        node_at(shown, parting.earlier),
        b" releases after act ",
        parting.earlier,
    )?;
    push_after(
        text,
        b" and node ",
        node_at(shown, parting.later),
        b" acquires after that and before act ",
        parting.later,
    )?;
    text.extend_from_slice(b"\n")
}

#[tactic(auto, unfolding(crate::specs::Racing::more_text))]
// Adds how many more acts of the node race.
fn push_more(text: &mut Vec<u8>, node: u64, more: usize) -> Result<(), AllocError>
    ensures { OnOk result (text.new.items ≡ text.old.items ++ more_text node more) }
{
    if more == 0 {
        return Ok(());
    }
    push_number(text, b", and ", more as u64)?;
    push_number(text, b" more of node ", node)
}

// Adds the first act of a node that races, and how many more there are.
#[tactic(auto, unfolding(crate::specs::Racing::least_line))]
fn push_least(
    text: &mut Vec<u8>,
    shown: Shown<'_, '_>,
    least: usize,
    more: usize,
) -> Result<(), AllocError>
    ensures { OnOk result (text.new.items ≡ text.old.items ++ least_line shown.entry least more) }
{
    text.extend_from_slice(b"  races with ")?;
    push_act(text, shown, least)?;
    push_more(text, node_at(shown, least), more)?;
    text.extend_from_slice(b"\n")
}

#[tactic(auto, unfolding(crate::specs::Racing::racing_line))]
fn push_racing(text: &mut Vec<u8>, shown: Shown<'_, '_>, racing: &[usize]) -> Result<(), AllocError>
    ensures { OnOk result (text.new.items ≡ text.old.items ++ racing_line shown.entry racing.now) }
{
    match racing {
        [] => Ok(()),
        [least, rest @ ..] => push_least(text, shown, *least, rest.len()),
    }
}

#[tactic(auto, unfolding(crate::specs::Racing::opponent_lines))]
fn push_opponent(
    text: &mut Vec<u8>,
    shown: Shown<'_, '_>,
    opponent: &Opponent,
) -> Result<(), AllocError>
    ensures { OnOk result (text.new.items
        ≡ text.old.items ++ opponent_lines shown.entry opponent.now) }
{
    push_racing(text, shown, &opponent.racing)?;
    push_parting(text, shown, &opponent.parting)?;
    push_held(
        text,
        shown.labels,
        &opponent.parting,
        &opponent.first,
        &opponent.second,
    )
}

#[tactic(auto, unfolding(crate::specs::Racing::opponent_text))]
fn push_opponent_if(
    text: &mut Vec<u8>,
    shown: Shown<'_, '_>,
    opponent: &Option<Opponent>,
) -> Result<(), AllocError>
    ensures { OnOk result (text.new.items
        ≡ text.old.items ++ opponent_text shown.entry opponent.now) }
{
    match opponent {
        Some(opponent) => push_opponent(text, shown, opponent),
        None => Ok(()),
    }
}

// Adds what would order the first of these and the act that it races with.
fn push_first_remedy(
    text: &mut Vec<u8>,
    shown: Shown<'_, '_>,
    opponents: &[Option<Opponent>],
) -> Result<(), AllocError>
    ensures { OnOk result (text.new.items
        ≡ text.old.items ++ first_remedy shown.entry opponents.now) }
{
    for at in 0..opponents.len() {
        if let Some(opponent) = &opponents[at] {
            return push_remedy(text, shown, &opponent.parting);
        }
    }
    Ok(())
}

fn push_all_opponents(
    text: &mut Vec<u8>,
    shown: Shown<'_, '_>,
    opponents: &[Option<Opponent>],
) -> Result<(), AllocError>
    ensures { OnOk result (text.new.items
        ≡ text.old.items ++ flat_map (opponent_text shown.entry) opponents.now) }
{
    for opponent in opponents {
        push_opponent_if(text, shown, opponent)?;
    }
    Ok(())
}

#[tactic(auto, unfolding(crate::specs::Racing::opponents_text))]
/// Adds the lines about the acts that race with an act, node by node, and then what would order the first of them and
/// the act.
pub fn push_opponents(
    text: &mut Vec<u8>,
    shown: Shown<'_, '_>,
    opponents: &[Option<Opponent>],
) -> Result<(), AllocError>
    ensures { OnOk result (text.new.items
        ≡ text.old.items ++ opponents_text shown.entry opponents.now) }
{
    push_all_opponents(text, shown, opponents)?;
    push_first_remedy(text, shown, opponents)
}
