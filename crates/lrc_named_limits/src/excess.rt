// Limits, and what is over one.

ghost use Rattle.std.specs.Prelude.{◌≡◌};
ghost use Rattle.lrc_named_limits.specs.Limits.{rank_of};
ghost use Rattle.lrc_named_limits.specs.Earlier.{earlier, precedes};

/// A limit that the core of a named program has to keep. Of several at one statement the first is told, in this order.
#[derive(Clone, Copy)]
pub enum Limit {
    /// An expression has at most 256 operators.
    Operators,
    /// At most 32 `{` and `(` of the core's text are open.
    Open,
    /// The numbers of the translation's own names, and of private names, are at most 32.
    Names,
}

impl Limit {
    // The place in the order in which the limits of one statement are told.
    fn rank(self) -> u8
        ensures { result ≡ rank_of self }
    {
        match self {
            Limit::Operators => 0,
            Limit::Open => 1,
            Limit::Names => 2,
        }
    }
}

/// A statement whose core is over a limit: with which token of the text it begins, counted from 0, and the limit.
#[derive(Clone, Copy)]
pub struct Excess {
    pub at: u32,
    pub limit: Limit,
}

impl Excess {
    // Whether this is told rather than the other one.
    fn precedes(self, other: Excess) -> bool
        ensures { result ≡ precedes self other }
    {
        self.at < other.at || (self.at == other.at && self.limit.rank() < other.limit.rank())
    }
}

/// Returns the one of two that is told, if there is one.
pub fn earlier(one: Option<Excess>, other: Option<Excess>) -> Option<Excess>
    ensures { result ≡ earlier one other }
{
    match (one, other) {
        (Some(first), Some(second)) => {
            if second.precedes(first) {
                Some(second)
            } else {
                Some(first)
            }
        }
        (Some(first), None) => Some(first),
        (None, second) => second,
    }
}
