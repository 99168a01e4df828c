// Groups of the pairs that are told.
ghost use Rattle.std.specs.Prelude.{◌≡◌, ◌^◌, ◌<◌, ◌++◌, ◌∷◌, [], List, OnOk, length};
ghost use Rattle.lrc_races_trace.specs.declared.event.Pair.{Pair};
ghost use Rattle.lrc_races_trace.specs.Groups.{AreGroups};
ghost use Rattle.lrc_races_detector.specs.Grouping.{side_of, AreGrouped};

use indexmap::IndexSet;
use lrc_races_trace::event::{Event, Operation, Pair};
use lrc_races_trace::group::Group;
use std::alloc::{AllocError, Global};

/// The location of an access, and whether it is a write.
#[derive(Clone, Copy, PartialEq, Eq, Hash)]
pub struct Side {
    pub location: Option<u32>,
    pub is_write: bool,
}

/// What the pairs of a group have in common.
#[derive(Clone, Copy, PartialEq, Eq, Hash)]
pub struct Sides {
    pub earlier: Side,
    pub later: Side,
}

/// The groups of the pairs reported so far.
#[derive(Drop)]
pub struct Groups {
    // What each group has in common, in the order of the groups.
    sides: IndexSet<Sides>,
    groups: Vec<Group>,
}

fn side_of(event: Event) -> Side
    ensures { result ≡ side_of event }
{
    let is_write = match event.operation {
        Operation::Write(_variable) => true,
        _ => false,
    };
    Side {
        location: event.location,
        is_write,
    }
}

impl Groups {
    /// Returns the groups before any pair.
    pub fn new(alloc: Global) -> Groups
        ensures { AreGrouped [] result }
    {
        Groups {
            sides: IndexSet::new(alloc),
            groups: Vec::new(alloc),
        }
    }

    /// Returns the groups so far, in the order in which they were first reported. It holds for fewer than 2^64 pairs.
    pub fn list(&self) -> &[Group]
        ensures { (pairs : List Pair) → length pairs < 2 ^ 64 → AreGrouped pairs self.now
            → AreGroups pairs result.now }
    {
        self.groups.as_slice()
    }

    // Takes one pair.
    fn count(&mut self, pair: Pair) -> Result<(), AllocError>
        ensures { OnOk result ((before : List Pair) → AreGrouped before self.old
            → AreGrouped (before ++ pair ∷ []) self.new) }
    {
        let sides = Sides {
            earlier: side_of(pair.earlier.event),
            later: side_of(pair.later.event),
        };
        if let Some((place, _met)) = self.sides.get_full(&sides) {
            if let Some(group) = self.groups.get_mut(place) {
                group.count = group.count.saturating_add(1);
            }
            return Ok(());
        }
        self.groups.push(Group {
            first: pair,
            count: 1,
        })?;
        self.sides.insert(sides)?;
        Ok(())
    }

    /// Takes the pairs that are reported next. It fails if memory runs out, and then the groups are of no use.
    pub fn take(&mut self, pairs: &[Pair]) -> Result<(), AllocError>
        ensures { OnOk result ((before : List Pair) → AreGrouped before self.old
            → AreGrouped (before ++ pairs.now) self.new) }
    {
        for pair in pairs {
            self.count(*pair)?;
        }
        Ok(())
    }
}
