// Deeds that conflict with what a thread does next.

ghost use Rattle.std.specs.Prelude.{◌≡◌};
ghost use Rattle.lrc_orders_less.specs.Clash.{clash_by, is_contended_next};

use lrc_orders_table::next::Next;
use lrc_trace::act::Deed;

/// Returns a deed that conflicts with what the read, the write or the acquire conflicts with that comes next.
pub fn clash_by(next: Next) -> Deed
    ensures { result ≡ clash_by next }
{
    match next {
        Next::Reads(word) => Deed::Read(word, 0),
        Next::Writes(word, value) => Deed::Write(word, value),
        Next::Acquires(lock) => Deed::Acquire(lock),
        _ => Deed::Quiet,
    }
}

/// Returns whether a read, a write or an acquire comes next.
pub fn is_contended_next(next: Next) -> bool
    ensures { result ≡ is_contended_next next }
{
    matches!(next, Next::Reads(_) | Next::Writes(..) | Next::Acquires(_))
}
