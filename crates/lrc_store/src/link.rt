// Links into a store.

use std::marker::Model;

/// A link to an interval in a store: its place among those there, in the order of adding. A link is valid until the
/// next `discard`, which moves the remaining intervals to the front.
#[derive(Clone, Copy)]
pub struct IntervalAt {
    pub(crate) place: u32,
}

impl Model for IntervalAt {
    ghost use Rattle.std.specs.Prelude.{ℕ};

    ghost Value = { ℕ };

    ghost view = { λ link. link.place };

    ghost inverse = { λ place. record { place = place } };
}

/// A link to a write notice in a store: its place among those there, in the order of adding, the notices of one
/// interval by page. A link is valid until the next `discard`, which moves the remaining notices to the front.
#[derive(Clone, Copy)]
pub struct NoticeAt {
    pub(crate) place: u32,
}

impl Model for NoticeAt {
    ghost use Rattle.std.specs.Prelude.{ℕ};

    ghost Value = { ℕ };

    ghost view = { λ link. link.place };

    ghost inverse = { λ place. record { place = place } };
}
