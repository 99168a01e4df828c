// A message in flight.

ghost use Rattle.std.specs.Prelude.{IsOk};
ghost use Rattle.lrc_wire.specs.Reading.{envelope_of};

/// A message in flight.
#[derive(Drop)]
pub(crate) struct Flying {
    /// The bytes of its envelope.
    pub bytes: Vec<u8>,
    /// The stamp of the turn that sent the message.
    pub stamp: u64,
    /// Whether the message was delivered already.
    pub delivered: bool,
    /// The bytes decode to an envelope.
    pub ghost spelled: { IsOk (envelope_of bytes.items) },
}
