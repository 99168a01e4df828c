// Deeds, values aside.

ghost use Rattle.std.specs.Prelude.{◌≡◌, ◌↔◌, IsTrue};
ghost use Rattle.lrc_along.specs.Asked.{IsAsked, bare};

use lrc_exec::machine::Ask;
use lrc_trace::act::Deed;

// A deed without its value.
fn bare(deed: Deed) -> Deed
    ensures { result ≡ bare deed }
{
    match deed {
        Deed::Print(_) => Deed::Print(0),
        Deed::Read(word, _) => Deed::Read(word, 0),
        Deed::Write(word, _) => Deed::Write(word, 0),
        _ => deed,
    }
}

/// Whether a thread that asks for this makes this deed next, values aside. From a barrier it departs, too, where it has
/// arrived there.
pub(crate) fn is_asked(ask: Ask, deed: Deed) -> bool
    ensures { IsTrue result ↔ IsAsked ask deed }
{
    is_same(bare(ask.deed(0)), bare(deed)) || departs_from(ask, deed)
}

// Whether two deeds are the same.
fn is_same(one: Deed, other: Deed) -> bool
    ensures { IsTrue result ↔ (one ≡ other) }
{
    one == other
}

// Whether this is a depart from a barrier.
fn departs_from(ask: Ask, deed: Deed) -> bool
    ensures { IsTrue result ↔ ((ask ≡ Ask.Barrier) × (deed ≡ Deed.Depart)) }
{
    matches!((ask, deed), (Ask::Barrier, Deed::Depart))
}
