// The kinds of deeds.

ghost use Rattle.std.specs.Prelude.{◌≡◌};
ghost use Rattle.lrc_trace.specs.declared.act.Deed.{Deed};
ghost use Rattle.lrc_text.specs.ActText.{deed_name};
ghost use Rattle.lrc_stats.specs.DeedKinds.{deed_of, kind_name, kind_of};

use lrc_text::deed_name;
use lrc_trace::act::{Cause, Deed};

/// The kind of a deed: what is done, but not with which word, value, lock or cause.
#[derive(Clone, Copy, PartialEq, Eq)]
pub(crate) enum DeedKind {
    Quiet,
    Print,
    Read,
    Write,
    Acquire,
    Release,
    Arrive,
    Depart,
    Trap,
    End,
}

impl DeedKind {
    /// All kinds, in the order of their lines.
    pub(crate) const ALL: [DeedKind; 10] = [
        DeedKind::Quiet,
        DeedKind::Print,
        DeedKind::Read,
        DeedKind::Write,
        DeedKind::Acquire,
        DeedKind::Release,
        DeedKind::Arrive,
        DeedKind::Depart,
        DeedKind::Trap,
        DeedKind::End,
    ];

    /// Returns the kind of a deed.
    pub(crate) fn of(deed: Deed) -> DeedKind
        ensures { result ≡ kind_of deed }
    {
        match deed {
            Deed::Quiet => DeedKind::Quiet,
            Deed::Print(_) => DeedKind::Print,
            Deed::Read(_, _) => DeedKind::Read,
            Deed::Write(_, _) => DeedKind::Write,
            Deed::Acquire(_) => DeedKind::Acquire,
            Deed::Release(_) => DeedKind::Release,
            Deed::Arrive => DeedKind::Arrive,
            Deed::Depart => DeedKind::Depart,
            Deed::Trap(_) => DeedKind::Trap,
            Deed::End => DeedKind::End,
        }
    }

    // A deed of the kind.
    fn deed(self) -> Deed
        ensures { result ≡ deed_of self }
    {
        match self {
            DeedKind::Quiet => Deed::Quiet,
            DeedKind::Print => Deed::Print(0),
            DeedKind::Read => Deed::Read(0, 0),
            DeedKind::Write => Deed::Write(0, 0),
            DeedKind::Acquire => Deed::Acquire(0),
            DeedKind::Release => Deed::Release(0),
            DeedKind::Arrive => Deed::Arrive,
            DeedKind::Depart => Deed::Depart,
            DeedKind::Trap => Deed::Trap(Cause::DivisionByZero),
            DeedKind::End => Deed::End,
        }
    }

    /// Returns the name of the kind. It is the name of each deed of the kind.
    pub(crate) fn name(self) -> &'static [u8]
        ensures name { result.now ≡ kind_name self }
        ensures each { (deed : Deed) → kind_of deed ≡ self → result.now ≡ deed_name deed }
    {
        deed_name(self.deed())
    }
}
