// Reading a text of acts.

ghost use Rattle.std.specs.Prelude.{◌≡◌, ◌≤◌, ◌++◌, ◌∷◌, [], IfErr, IfOk, MatchBool, MatchOption, OnOk, Err, Ok, length};
ghost use Rattle.lrc_trace.specs.declared.act.Act.{Act as AnyAct};
ghost use Rattle.lrc_text.specs.Lines.{lines_of};
ghost use Rattle.lrc_acts.specs.ActsText.{IsAmong, ReadsActs, SaysAct, SaysSome, most_bytes, words_on};
ghost use Rattle.lrc_acts.specs.declared.reading.ActsFault.TheVariants.{NoMemory};

use crate::deeds::deed_in;
use crate::words::{before_comment, first_word};
use lrc_text::read_number;
use lrc_trace::act::Act;
use std::alloc::{AllocError, AllocFailed, Global};

/// The longest text of acts, in bytes.
pub const MOST_BYTES: usize = 67_108_864;

const GREATEST_NODE: u64 = 15;

/// Acts, and the line of each.
#[derive(Drop)]
pub struct LinedActs {
    /// The acts.
    pub acts: Vec<Act>,
    /// For each act the number of its line, counted from 1.
    pub lines: Vec<u32>,
}

/// Why a text gives no acts.
#[derive(Clone, Copy, Debug, PartialEq, Eq)]
pub enum ActsFault {
    /// The text is longer than [`MOST_BYTES`].
    TooLong,
    /// The line with this number, counted from 1, says no act.
    BadAct(u32),
    /// Memory ran out.
    NoMemory,
}

impl<T: Drop> From<AllocFailed<T>> for ActsFault {
    ghost from_gives = { λ _ fault. fault ≡ NoMemory };

    fn from(_error: AllocFailed<T>) -> ActsFault {
        ActsFault::NoMemory
    }
}

impl From<AllocError> for ActsFault {
    ghost from_gives = { λ _ fault. fault ≡ NoMemory };

    fn from(_error: AllocError) -> ActsFault {
        ActsFault::NoMemory
    }
}

/// Reads the acts that a text says, one on each line: a node from 0 to 15, and below `nodes` if that is given, and then
/// what the node does. Words are separated by blanks (spaces, tabs, carriage returns), the sign # begins a comment, and
/// a line without a word says no act. The call fails with `TooLong` for a text of more than 67,108,864 bytes, and with
/// `BadAct` at the first bad line. It runs out of memory only if there is an act to keep.
pub fn acts_of(alloc: Global, text: &[u8], nodes: Option<u32>) -> Result<LinedActs, ActsFault>
    ensures ok { IfOk result (λ lined. ReadsActs nodes text.now (Ok lined)) }
    ensures err { IfErr result (λ fault. ReadsActs nodes text.now (Err fault)) }
    ensures memory { IfErr result (λ fault. fault ≡ NoMemory
        → (length text.now ≤ most_bytes) × SaysSome nodes (lines_of text.now)) }
{
    if text.len() > MOST_BYTES {
        return Err(ActsFault::TooLong);
    }
    let mut lined = LinedActs {
        acts: Vec::new(alloc),
        lines: Vec::new(alloc),
    };
    let mut number = 0;
    for line in text.split(|byte| *byte == b'\n') {
        number += 1;
        if is_wordless(line) {
            continue;
        }
        match act_on(line, nodes) {
            Some(act) => push_act(&mut lined, act, number)?,
            None => return Err(ActsFault::BadAct(number)),
        }
    }
    Ok(lined)
}

// Adds an act and its line.
fn push_act(lined: &mut LinedActs, act: Act, line: u32) -> Result<(), AllocError>
    ensures acts { OnOk result (lined.new.acts.items ≡ lined.old.acts.items ++ act ∷ []) }
    ensures lines { OnOk result (lined.new.lines.items ≡ lined.old.lines.items ++ line ∷ []) }
{
    lined.acts.push(act)?;
    lined.lines.push(line)?;
    Ok(())
}

// Whether a line has no word.
fn is_wordless(line: &[u8]) -> bool
    ensures { MatchBool result (words_on line.now ≡ []) (¬ (words_on line.now ≡ [])) }
{
    first_word(before_comment(line)).is_none()
}

// The act that a line says.
fn act_on(line: &[u8], nodes: Option<u32>) -> Option<Act>
    ensures { MatchOption result ((act : AnyAct) → ¬ SaysAct nodes (words_on line.now) act)
        (λ act. SaysAct nodes (words_on line.now) act) }
{
    let (digits, rest) = first_word(before_comment(line))?;
    let node = read_number(digits, GREATEST_NODE)?;
    if !is_among(nodes, node) {
        return None;
    }
    let deed = deed_in(rest)?;
    Some(Act {
        node: node as u8,
        deed,
    })
}

fn is_among(nodes: Option<u32>, node: u64) -> bool
    ensures { MatchBool result (IsAmong nodes node) (¬ IsAmong nodes node) }
{
    match nodes {
        Some(nodes) => node < u64::from(nodes),
        None => true,
    }
}
