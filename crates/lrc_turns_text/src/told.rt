// What is known of the turns that were told.

ghost use Rattle.std.specs.Prelude.{◌≡◌, ℕ, ◌+◌, ◌<◌, ◌≤◌, ◌||◌, [], ◌∷◌, ◌++◌, cond, is_some, IfOk, List, OnOk, slice_index};
ghost use Rattle.lrc_log.specs.Input.{seen_input};
ghost use Rattle.lrc_turns_text.specs.Told.{Tells, holds_input, holds_key};
ghost use Rattle.lrc_turns_text.specs.Turns.{Made};
ghost use Rattle.lrc_turns_text.specs.TurnsText.{took_before, takes_numbered};

use lrc_envelope::Envelope;
use lrc_log::{Entry, Input};
use std::alloc::{AllocError, Global};
use std::collections::HashSet;

/// What was told so far: how many turns each node made, how many turns made an act, and which messages were taken, each
/// by its receiver, its sender and its number.
#[derive(Drop)]
pub(crate) struct Told {
    made: [usize; 256],
    acts: usize,
    taken: HashSet<(u8, (u8, u32))>,
}

// Notes the message that a node takes, and says whether it was noted before.
fn note_taken(
    taken: &mut HashSet<(u8, (u8, u32))>,
    node: u8,
    input: &Input,
) -> Result<bool, AllocError>
    ensures noted { IfOk result (λ again. again
        ≡ holds_input taken.old.keys node (seen_input input.now)) }
    ensures more { OnOk result ((other from number : ℕ) → holds_key taken.new.keys other from number
        ≡ (takes_numbered other from number node
        (seen_input input.now) || holds_key taken.old.keys other from number)) }
{
    match input {
        Input::Run => Ok(false),
        Input::Taken(envelope) => {
            let envelope: &Envelope = envelope;
            Ok(!taken.insert((node, (envelope.from, envelope.number)))?)
        }
    }
}

// How many acts a turn makes.
fn acts_of(entry: &Entry) -> usize
    ensures is { result ≡ cond (is_some entry.now.turn.act) 1 0 }
    ensures few { result ≤ 1 }
{
    if entry.turn.act.is_some() { 1 } else { 0 }
}

impl Told {
    /// Returns the state in which no turn was told.
    pub(crate) fn new(alloc: Global) -> Told
        ensures tells { Tells [] result }
        ensures acts { result.acts ≡ 0 }
    {
        Told {
            made: [0; 256],
            acts: 0,
            taken: HashSet::new(alloc),
        }
    }

    /// Returns how many turns the node made.
    pub(crate) fn made_by(&self, node: u8) -> usize
        ensures made { result ≡ slice_index self.now.made node }
        ensures in_range { node < 256 }
    {
        self.made[usize::from(node)]
    }

    /// Returns how many turns made an act.
    pub(crate) fn acts(&self) -> usize
        ensures { result ≡ self.now.acts }
    {
        self.acts
    }

    /// Notes a turn of a node, and returns whether it takes a message that the node took before. After an error nothing
    /// is promised about what was noted.
    pub(crate) fn note(&mut self, node: u8, entry: &Entry) -> Result<bool, AllocError>
        requires made { slice_index self.old.made node < 18446744073709551615 }
        requires acts { self.old.acts < 18446744073709551615 }
        ensures again { IfOk result (λ again. (turns : List Made) → Tells turns self.old
            → again ≡ took_before turns node entry.now.input) }
        ensures tells { OnOk result ((turns : List Made) → Tells turns self.old
            → Tells (turns ++ record { node = node; entry = entry.now } ∷ []) self.new) }
        ensures acts { self.new.acts ≤ self.old.acts + 1 }
    {
        let again = note_taken(&mut self.taken, node, &entry.input)?;
        self.made[usize::from(node)] += 1;
        self.acts += acts_of(entry);
        Ok(again)
    }
}
