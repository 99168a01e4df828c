// What a turn does.

ghost use Rattle.std.specs.Prelude.{◌≡◌, None};

use lrc_mail::Letter;
use lrc_trace::act::Deed;

/// A turn before its messages have numbers: its deed, if it makes an act, and the letters that it sends.
#[derive(Drop)]
pub(crate) struct Effect {
    pub deed: Option<Deed>,
    pub letters: Vec<Letter>,
}

impl Effect {
    /// Returns the effect that makes no act and sends these letters.
    pub(crate) fn sending(letters: Vec<Letter>) -> Effect
        ensures { result ≡ record { deed = None; letters = letters } }
    {
        Effect {
            deed: None,
            letters,
        }
    }
}
