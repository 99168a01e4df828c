// Warnings of a named program, and where they stand.

ghost use Rattle.std.specs.Prelude.{◌≡◌};
ghost use Rattle.lrc_named_warnings.specs.Notes.{rank};

use lrc_lint_warned::found::Kind;
use lrc_lint_warnings::warning::{Says as CoreSays, rank as core_rank};

/// What a warning says.
#[derive(Clone, Copy)]
pub enum Says {
    /// What is warned of in the core, and in which of its statements.
    OfCore(Kind, usize),
    /// A loop that waits for shared items, and has nothing in it by which it would learn of a write.
    OfLoop,
    /// A name that nothing uses: which of those.
    Unused(usize),
}

/// A warning: the line and the column that it stands at, both counted from 1, which token of the core's text it comes from
/// (the first, if it comes from none), and what it says.
#[derive(Clone, Copy)]
pub struct Note {
    pub line: u32,
    pub column: u32,
    pub at: usize,
    pub says: Says,
}

/// Returns the rank of a kind of warning among those at one place.
pub(crate) fn rank(says: Says) -> u8
    ensures { result ≡ rank says }
{
    match says {
        Says::OfCore(kind, _) => core_rank(CoreSays::OfText(kind)),
        Says::OfLoop => core_rank(CoreSays::OfText(Kind::LearnsNothing)),
        Says::Unused(_) => 15,
    }
}
