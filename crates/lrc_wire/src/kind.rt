//! The kinds of messages, and their numbers.

ghost use Rattle.std.specs.Prelude.{◌≡◌};
ghost use Rattle.lrc_wire.specs.Kinds.{message_kind};
ghost use Rattle.lrc_wire.specs.Reading.{kind_of};

use lrc_envelope::Message;

/// The kind of a message. Its number, which is the message's second byte, is 1 to 11 in this order.
#[derive(Clone, Copy, PartialEq, Eq)]
pub enum MessageKind {
    LockRequest,
    LockForward,
    LockGrant,
    Arrive,
    Depart,
    Clean,
    Discard,
    ChangesRequest,
    ChangesReply,
    PageRequest,
    PageReply,
}

impl MessageKind {
    /// All kinds: first those of locks, then those of barriers, and then those that bring pages up to date.
    pub const ALL: [MessageKind; 11] = [
        MessageKind::LockRequest,
        MessageKind::LockForward,
        MessageKind::LockGrant,
        MessageKind::Arrive,
        MessageKind::Depart,
        MessageKind::Clean,
        MessageKind::Discard,
        MessageKind::ChangesRequest,
        MessageKind::ChangesReply,
        MessageKind::PageRequest,
        MessageKind::PageReply,
    ];

    /// Returns the kind of a message.
    pub fn of(message: &Message) -> MessageKind
        ensures { result ≡ message_kind message.now }
    {
        match message {
            Message::LockRequest(_) => MessageKind::LockRequest,
            Message::LockForward(_) => MessageKind::LockForward,
            Message::LockGrant(_) => MessageKind::LockGrant,
            Message::Arrive(_) => MessageKind::Arrive,
            Message::Depart(_) => MessageKind::Depart,
            Message::Clean(_) => MessageKind::Clean,
            Message::Discard(_) => MessageKind::Discard,
            Message::ChangesRequest(_) => MessageKind::ChangesRequest,
            Message::ChangesReply(_) => MessageKind::ChangesReply,
            Message::PageRequest(_) => MessageKind::PageRequest,
            Message::PageReply(_) => MessageKind::PageReply,
        }
    }
}

/// Returns the kind with the given number, or `None` if there is none.
pub(crate) fn numbered(number: u8) -> Option<MessageKind>
    ensures { result ≡ kind_of number }
{
    match number {
        1 => Some(MessageKind::LockRequest),
        2 => Some(MessageKind::LockForward),
        3 => Some(MessageKind::LockGrant),
        4 => Some(MessageKind::Arrive),
        5 => Some(MessageKind::Depart),
        6 => Some(MessageKind::Clean),
        7 => Some(MessageKind::Discard),
        8 => Some(MessageKind::ChangesRequest),
        9 => Some(MessageKind::ChangesReply),
        10 => Some(MessageKind::PageRequest),
        11 => Some(MessageKind::PageReply),
        _ => None,
    }
}
