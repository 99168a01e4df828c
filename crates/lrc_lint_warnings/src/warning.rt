// Warnings, with their lines and columns.

ghost use Rattle.std.specs.Prelude.{◌≡◌};
ghost use Rattle.lrc_lint_warnings.specs.Order.{rank, rank_of};

use lrc_labels::label::Reason;
use lrc_lint_warned::found::Kind;

/// What a warning says.
#[derive(Clone, Copy)]
pub enum Says {
    /// A warning about the program.
    OfText(Kind),
    /// A label line that says nothing, and why.
    OfLabel(Reason),
}

/// The line and the column of a token, both counted from 1, columns in bytes.
#[derive(Clone, Copy)]
pub struct Spot {
    pub line: u32,
    pub column: u32,
}

/// A warning, and the line and the column of the token that it is about.
#[derive(Clone, Copy)]
pub struct Warning {
    pub line: usize,
    pub column: usize,
    pub says: Says,
}

/// Returns the rank of a kind of warning among those at one token.
pub fn rank(says: Says) -> u8
    ensures { result ≡ rank says }
{
    match says {
        Says::OfText(kind) => rank_of(kind),
        Says::OfLabel(_) => 15,
    }
}

fn rank_of(kind: Kind) -> u8
    ensures { result ≡ rank_of kind }
{
    match kind {
        Kind::NeverSet(_) => 0,
        Kind::NeverRead(_) => 1,
        Kind::NoSuchWord(_) => 2,
        Kind::NoSuchLock(_) => 3,
        Kind::DivisionByZero => 4,
        Kind::BelowZero(_) => 5,
        Kind::NeverWritten(_) => 6,
        Kind::HeldAlready(_) => 7,
        Kind::NotHeld(_) => 8,
        Kind::HeldAtBarrier(_) => 9,
        Kind::NeverReleased(_) => 10,
        Kind::UnevenBarriers => 11,
        Kind::UncertainRounds => 12,
        Kind::UnchangedCondition => 13,
        Kind::LearnsNothing => 14,
    }
}
