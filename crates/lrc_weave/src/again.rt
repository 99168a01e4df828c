// Which turns take a message that a later turn takes again.

ghost use Rattle.std.specs.Prelude.{◌≡◌, ◌||◌, IfOk, OnOk, map};
ghost use Rattle.lrc_protocol.specs.Run.{turns_of_logs};
ghost use Rattle.lrc_log.specs.Input.{seen_input};
ghost use Rattle.lrc_envelope.specs.Envelope.{EnvelopeRecord};
ghost use Rattle.lrc_weave.specs.Again.{AreAgain, AreAllAgain, has_key, is_noted};
ghost use Rattle.lrc_weave.specs.Woven.{takes_same};

use lrc_envelope::Envelope;
use lrc_log::{Entry, Input};
use std::alloc::{AllocError, Global};
use std::collections::HashSet;

/// Returns for each turn of each log whether a later turn of that log takes the same message.
pub(crate) fn all_again(alloc: Global, logs: &[Vec<Entry>]) -> Result<Vec<Vec<bool>>, AllocError>
    ensures { IfOk result (λ again. AreAllAgain (turns_of_logs logs.now)
        (map (λ bits. bits.items) again.items)) }
{
    let mut all = Vec::new(alloc);
    for log in logs {
        all.push(again_of(alloc, log.as_slice())?)?;
    }
    Ok(all)
}

// The same of one log: from its last turn to its first, with the messages that later turns take.
fn again_of(alloc: Global, log: &[Entry]) -> Result<Vec<bool>, AllocError>
    ensures { IfOk result (λ again. AreAgain log.now again.items) }
{
    let mut again = vec![in alloc; false; log.len()]?;
    let mut seen = HashSet::new(alloc);
    let mut place = log.len();
    while place > 0 {
        place -= 1;
        let entry = &log[place];
        again[place] = note(&mut seen, &entry.input)?;
    }
    Ok(again)
}

// Notes a message that is taken, by its sender and its number, and says whether it was noted before.
fn note(seen: &mut HashSet<(u8, u32)>, input: &Input) -> Result<bool, AllocError>
    ensures noted { IfOk result (λ again. again ≡ is_noted seen.old.keys (seen_input input.now)) }
    ensures more { OnOk result ((message : EnvelopeRecord)
        → has_key seen.new.keys message
        ≡ (takes_same message (seen_input input.now) || has_key seen.old.keys message)) }
{
    match input {
        Input::Run => Ok(false),
        Input::Taken(envelope) => {
            let envelope: &Envelope = envelope;
            Ok(!seen.insert((envelope.from, envelope.number))?)
        }
    }
}
