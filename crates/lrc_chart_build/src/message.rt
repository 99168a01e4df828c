// Messages in words.

ghost use Rattle.std.specs.Prelude.{◌≡◌, IfOk};
ghost use Rattle.lrc_messages.specs.MessageText.{message_text};
ghost use Rattle.lrc_chart_build.specs.Arrows.{label_text};

use lrc_envelope::Message;
use lrc_messages::{kind_name, push_message};
use lrc_wire::MessageKind;
use std::alloc::{AllocError, Global};

/// Returns the name of a message's kind.
pub(crate) fn label_text(alloc: Global, message: &Message) -> Result<Vec<u8>, AllocError>
    ensures { IfOk result (λ text. text.items ≡ label_text message.now) }
{
    Vec::from_slice(alloc, kind_name(MessageKind::of(message)))
}

/// Returns the content of a message, in words.
pub(crate) fn message_text(alloc: Global, message: &Message) -> Result<Vec<u8>, AllocError>
    ensures { IfOk result (λ text. text.items ≡ message_text message.now) }
{
    let mut text = Vec::new(alloc);
    push_message(alloc, &mut text, message)?;
    Ok(text)
}
