// Whether bytes are those that nodes write of a message.

ghost use Rattle.std.specs.Prelude.{◌≡◌, ◌↔◌, ◌<◌, IfOk, IsErrOf, IsTrue, OnOk, Some, length};
ghost use Rattle.lrc_wire.specs.declared.limits.TheConstants.{MOST_BODY_BYTES};
ghost use Rattle.lrc_wire.specs.declared.version.Version.TheVariants.{Two};
ghost use Rattle.lrc_wire.specs.Runs.{runs_of};
ghost use Rattle.lrc_wire.specs.Spelling.{Spells, body};
ghost use Rattle.lrc_weave.specs.Matched.{written_as};

use lrc_envelope::Envelope;
use lrc_wire::{EncodeFault, spell_over};
use std::alloc::{AllocError, Global};
use std::mem;

/// Compares messages with bytes. It keeps the memory of the message that it wrote last.
#[derive(Drop)]
pub(crate) struct Speller {
    written: Vec<u8>,
}

impl Speller {
    /// Returns a speller that has written nothing.
    pub(crate) fn new(alloc: Global) -> Speller {
        Speller {
            written: Vec::new(alloc),
        }
    }

    /// Returns whether bytes are those that nodes write of a message, in version 2 of the format.
    pub(crate) fn is_written(
        &mut self,
        bytes: &[u8],
        envelope: &Envelope,
    ) -> Result<bool, AllocError>
        ensures { IfOk result (λ is. IsTrue is ↔ (written_as bytes.now ≡ Some envelope.now)) }
    {
        match self.write(envelope) {
            Ok(()) => Ok(*bytes == *self.written.as_slice()),
            // No bytes are those of a message that is too long to be written.
            Err(EncodeFault::TooLong) => Ok(false),
            Err(EncodeFault::NoMemory) => Err(AllocError),
        }
    }

    // Writes a message in place of the last one, whose memory it takes.
    fn write(&mut self, envelope: &Envelope) -> Result<(), EncodeFault>
        ensures written { OnOk result (Spells Two envelope.now self.new.written.items) }
        ensures too_long { IsErrOf result EncodeFault.TooLong
            ↔ (MOST_BODY_BYTES < length (body Two runs_of envelope.now.message)) }
    {
        let nothing = Vec::new(*self.written.allocator());
        self.written = spell_over(mem::replace(&mut self.written, nothing), envelope)?;
        Ok(())
    }
}
