// What is known of the turns so far.

ghost use Rattle.std.specs.Prelude.{◌≡◌, ℕ, ◌+◌, ◌<◌, ◌≤◌, ◌||◌, ◌∷◌, ◌++◌, [], cond, is_some, IfOk, List, OnOk};
ghost use Rattle.lrc_log.specs.Input.{seen_input};
ghost use Rattle.lrc_turns_text.specs.Told.{holds_input, holds_key};
ghost use Rattle.lrc_turns_text.specs.Turns.{Made};
ghost use Rattle.lrc_turns_text.specs.TurnsText.{took_before, takes_numbered};
ghost use Rattle.lrc_bytes_turns.specs.Seen.{Sees};

use lrc_chart_rows::TurnOf;
use lrc_envelope::Envelope;
use lrc_log::{Entry, Input};
use std::alloc::{AllocError, Global};
use std::collections::HashSet;

/// What came so far: how many acts, and which messages were taken, each by its receiver, its sender and its number.
#[derive(Drop)]
pub(crate) struct Seen {
    acts: u64,
    taken: HashSet<(u8, (u8, u32))>,
}

// Notes the message that a node takes, and says whether it was noted before.
fn note_taken(
    taken: &mut HashSet<(u8, (u8, u32))>,
    node: u8,
    input: &Input,
) -> Result<bool, AllocError>
    ensures noted { IfOk result (λ again. again
        ≡ holds_input taken.old.keys node (seen_input input.now)) }
    ensures more { OnOk result ((other from number : ℕ) → holds_key taken.new.keys other from number
        ≡ (takes_numbered other from number node
        (seen_input input.now) || holds_key taken.old.keys other from number)) }
{
    match input {
        Input::Run => Ok(false),
        Input::Taken(envelope) => {
            let envelope: &Envelope = envelope;
            Ok(!taken.insert((node, (envelope.from, envelope.number)))?)
        }
    }
}

// How many acts a turn makes.
fn acts_of(entry: &Entry) -> u64
    ensures is { result ≡ cond (is_some entry.now.turn.act) 1 0 }
    ensures few { result ≤ 1 }
{
    if entry.turn.act.is_some() { 1 } else { 0 }
}

impl Seen {
    /// Returns what is known before the first turn.
    pub(crate) fn new(alloc: Global) -> Seen
        ensures sees { Sees [] result }
        ensures acts { result.acts ≡ 0 }
    {
        Seen {
            acts: 0,
            taken: HashSet::new(alloc),
        }
    }

    /// Returns how many acts came so far.
    pub(crate) fn acts(&self) -> u64
        ensures { result ≡ self.now.acts }
    {
        self.acts
    }

    /// Notes a turn, and returns whether it takes a message that its node took before. After an error nothing is promised
    /// about what is known.
    pub(crate) fn note(&mut self, turn: &TurnOf<'_>) -> Result<bool, AllocError>
        requires { self.old.acts < 18446744073709551615 }
        ensures again { IfOk result (λ again. (turns : List Made) → Sees turns self.old
            → again ≡ took_before turns turn.now.node turn.now.entry.input) }
        ensures sees { OnOk result ((turns : List Made) → Sees turns self.old
            → Sees (turns ++ turn.now ∷ []) self.new) }
        ensures acts { self.new.acts ≤ self.old.acts + 1 }
    {
        let entry = turn.entry;
        let again = note_taken(&mut self.taken, turn.node, &entry.input)?;
        self.acts += acts_of(entry);
        Ok(again)
    }
}
