// What leads a run whose events are not given.

use lrc_envelope::Picker;

/// What chooses the events of a run, if they are not given.
#[derive(Clone, Copy)]
pub enum Lead {
    /// The run goes in rounds. The picker chooses the messages to deliver.
    Rounds(Picker),
    /// The run goes in a random order, from this seed.
    Random(u64),
}
