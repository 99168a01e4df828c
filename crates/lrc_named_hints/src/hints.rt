// Which hint a fault has.

ghost use Rattle.std.specs.Prelude.{◌≡◌};
ghost use Rattle.lrc_named_hints.specs.Hint.{words_of};
ghost use Rattle.lrc_named_hints.specs.HintTable.{hint_of, seen_of};

use crate::bad_byte::bad_byte_hint;
use crate::fault::Fault;
use crate::hint::Hint;
use crate::unexpected::unexpected_hint;
use lrc_lang::fault::FaultKind;
use lrc_lint_fault::hint::Hint as CoreHint;

/// Returns the first hint of the table that applies to a fault.
pub fn hint_for<'t>(fault: &Fault<'t>) -> Option<Hint<'t>>
    ensures { words_of result ≡ hint_of fault.now.kind (seen_of fault.now) }
{
    match fault.kind {
        FaultKind::TooLong => Some(Hint::Core(CoreHint::TooLong)),
        FaultKind::BadByte => bad_byte_hint(fault),
        FaultKind::BadNumber => Some(Hint::Core(CoreHint::BadNumber)),
        FaultKind::Unexpected => unexpected_hint(fault),
        FaultKind::TooDeep => Some(Hint::TooDeep),
        FaultKind::OverLimit => Some(Hint::Core(CoreHint::Operators)),
        FaultKind::TooManyNames | FaultKind::NoMemory => None,
    }
}
