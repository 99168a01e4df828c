// A letter that a node sends.

ghost use Rattle.std.specs.Prelude.{◌≡◌, ◌∷◌, [], IfOk};

use crate::state::NodeState;
use lrc_envelope::Message;
use lrc_mail::Letter;
use std::alloc::AllocError;

impl NodeState<'_> {
    /// Returns a list of one letter. It reuses a list of the node's mail.
    pub(crate) fn letter(&mut self, to: u8, message: Message) -> Result<Vec<Letter>, AllocError>
        ensures letters { IfOk result (λ letters. letters.items
            ≡ record { to = to; message = message } ∷ []) }
        ensures same { self.new ≡ self.old }
    {
        let mut letters = self.mail.letters();
        letters.push(Letter { to, message })?;
        Ok(letters)
    }
}
