// The names of the kinds of messages.

ghost use Rattle.std.specs.Prelude.{◌≡◌};
ghost use Rattle.lrc_messages.specs.MessageText.{kind_name};

use lrc_wire::MessageKind;

/// Returns the name of a kind of messages.
#[tactic(auto, unfolding(crate::specs::MessageText::kind_name))]
pub fn kind_name(kind: MessageKind) -> &'static [u8]
    ensures { result.now ≡ kind_name kind }
{
    match kind {
        MessageKind::LockRequest => b"lock-request",
        MessageKind::LockForward => b"lock-forward",
        MessageKind::LockGrant => b"lock-grant",
        MessageKind::Arrive => b"arrive",
        MessageKind::Depart => b"depart",
        MessageKind::Clean => b"clean",
        MessageKind::Discard => b"discard",
        MessageKind::ChangesRequest => b"changes-request",
        MessageKind::ChangesReply => b"changes-reply",
        MessageKind::PageRequest => b"page-request",
        MessageKind::PageReply => b"page-reply",
    }
}
