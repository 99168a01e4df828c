// Which hint a fault has.

ghost use Rattle.std.specs.Prelude.{◌≡◌};
ghost use Rattle.lrc_lint_fault.specs.Hint.{hint_words, words_of};
ghost use Rattle.lrc_lint_fault.specs.HintTable.{hint_of, limit_words, seen_of};

use crate::bad_byte::bad_byte_hint;
use crate::fault::Fault;
use crate::hint::Hint;
use crate::unexpected::unexpected_hint;
use lrc_lang::fault::FaultKind;

/// Returns the first hint of the table that applies to a fault.
pub fn hint_for<'t>(fault: &Fault<'t>) -> Option<Hint<'t>>
    ensures { words_of result ≡ hint_of fault.now.kind (seen_of fault.now) }
{
    match fault.kind {
        FaultKind::TooLong => Some(Hint::TooLong),
        FaultKind::BadByte => bad_byte_hint(fault),
        FaultKind::BadNumber => Some(Hint::BadNumber),
        FaultKind::Unexpected => unexpected_hint(fault),
        FaultKind::TooDeep => Some(Hint::TooDeep),
        FaultKind::TooManyNames => Some(Hint::TooManyNames),
        FaultKind::OverLimit => Some(limit_hint(fault.before.len())),
        FaultKind::NoMemory => None,
    }
}

// Which limit the token passes that stands behind so many.
fn limit_hint<'t>(before: usize) -> Hint<'t>
    ensures { hint_words result ≡ limit_words before }
{
    if before == 1 {
        Hint::Words
    } else if before == 4 {
        Hint::Locks
    } else {
        Hint::Operators
    }
}
