// What always holds of texts of events. Each function is a theorem: its body is empty, and its clause is the law.

ghost use Rattle.std.specs.Prelude.{◌≡◌, ◌≤◌, ℕ, List, Result, Ok, Err, MatchResult, length};
ghost use Rattle.lrc_protocol.specs.declared.event.Event.{Event};
ghost use Rattle.lrc_events.specs.declared.events.EventsFault.{EventsFault};
ghost use Rattle.lrc_events.specs.declared.events.EventsFault.TheVariants.{BadEvent, NoMemory};
ghost use Rattle.lrc_events.specs.EventsText.{NameAll, ReadsEvents, most_events_bytes};
ghost use Rattle.lrc_events.specs.Writing.{AreEvents, events_text};

/// A reader gives back the events of the text that was written for them, if that text is not too long to be read.
pub fn written_events_are_read()
    ensures { (events : List Event) → AreEvents events
        → length (events_text events) ≤ most_events_bytes
        → ReadsEvents (events_text events) (Ok events) }
{}

/// If the text written for events is not too long to be read, every answer of a reader is those events, or that memory
/// ran out.
pub fn written_events_are_read_as_no_others()
    ensures { (events : List Event) (result : Result (List Event) EventsFault) → AreEvents events
        → length (events_text events) ≤ most_events_bytes → ReadsEvents (events_text events) result
        → MatchResult result (λ found. found ≡ events) (λ fault. fault ≡ NoMemory) }
{}

/// Lines name at most one list of events.
pub fn names_one()
    ensures { (lines : List (List ℕ)) (events others : List Event) → NameAll lines events
        → NameAll lines others
        → events ≡ others }
{}

/// A text has one answer: it does not name two lists of events, it does not have two first bad lines, and it does not
/// name events and have a bad line too.
pub fn texts_of_events_have_one_answer()
    ensures events { (text : List ℕ) (events others : List Event) → ReadsEvents text (Ok events)
        → ReadsEvents text (Ok others) → events ≡ others }
    ensures never_both { (text : List ℕ) (events : List Event) (line : ℕ)
        → ReadsEvents text (Ok events)
        → ReadsEvents text (Err (BadEvent line)) → ⊥ }
    ensures line { (text : List ℕ) (line other : ℕ) → ReadsEvents text (Err (BadEvent line))
        → ReadsEvents text (Err (BadEvent other)) → line ≡ other }
{}
