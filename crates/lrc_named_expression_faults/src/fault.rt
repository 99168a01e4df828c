// Faults.

ghost use Rattle.std.specs.Prelude.{◌≡◌, Some, None, if◌then◌else◌};
ghost use Rattle.lrc_named_expression_faults.specs.Fault.{earlier, fault_at, precedes, rank_of, words_of};

/// A limit of named programs.
#[derive(Clone, Copy)]
pub enum Limit {
    /// `nodes` is 1 to 16.
    NodeCount,
    /// The body of a function, with those that it calls, has at most 256 operators and calls.
    Body,
    /// The value of a constant divides by no zero.
    Division,
    /// A size is 1 to 65,536.
    Size,
    /// The shared items have at most 65,536 words.
    Words,
    /// There are at most 64 locks.
    Locks,
}

/// What is wrong with a token. Of several faults of one token the first is told, in this order.
#[derive(Clone, Copy)]
pub enum FaultKind {
    /// A name stands in the place of what it declares, and stood in such a place before.
    DeclaredTwice,
    /// A name that is declared or set begins with `_`.
    ReservedName,
    /// A name is neither declared here nor private.
    UnknownName,
    /// A name stands where what it means cannot stand.
    WrongUse,
    /// An item has more or fewer indices than sizes.
    WrongIndices,
    /// A call has more or fewer arguments than the function has parameters.
    WrongArguments,
    /// What is known in a run alone stands in a constant or a size.
    NotConstant,
    /// Something is over a limit.
    OverLimit(Limit),
    /// A constant index is not below its size.
    IndexOutOfRange,
    /// A private name is the 33rd different one.
    TooManyNames,
}

impl FaultKind {
    /// Returns the words in which the fault is told.
    pub fn words(self) -> &'static [u8]
        ensures { result.now ≡ words_of self }
    {
        match self {
            FaultKind::DeclaredTwice => b"declared twice",
            FaultKind::ReservedName => b"reserved name",
            FaultKind::UnknownName => b"unknown name",
            FaultKind::WrongUse => b"wrong use of a name",
            FaultKind::WrongIndices => b"wrong number of indices",
            FaultKind::WrongArguments => b"wrong number of arguments",
            FaultKind::NotConstant => b"not a constant",
            FaultKind::OverLimit(_) => b"over a limit",
            FaultKind::IndexOutOfRange => b"index out of range",
            FaultKind::TooManyNames => b"too many names",
        }
    }

    // The place in the order in which the faults of one token are told.
    fn rank(self) -> u8
        ensures { result ≡ rank_of self }
    {
        match self {
            FaultKind::DeclaredTwice => 0,
            FaultKind::ReservedName => 1,
            FaultKind::UnknownName => 2,
            FaultKind::WrongUse => 3,
            FaultKind::WrongIndices => 4,
            FaultKind::WrongArguments => 5,
            FaultKind::NotConstant => 6,
            FaultKind::OverLimit(_) => 7,
            FaultKind::IndexOutOfRange => 8,
            FaultKind::TooManyNames => 9,
        }
    }
}

/// A fault: which token of the text has it, counted from 0, and what is wrong with it.
#[derive(Clone, Copy)]
pub struct Fault {
    pub at: u64,
    pub kind: FaultKind,
}

impl Fault {
    /// Returns a fault of a token.
    pub fn at_token(at: u32, kind: FaultKind) -> Fault
        ensures { result ≡ fault_at at kind }
    {
        Fault {
            at: u64::from(at),
            kind,
        }
    }

    /// Returns this fault where something is so, and else none.
    pub fn only_if(self, holds: bool) -> Option<Fault>
        ensures { result ≡ if holds then Some self else None }
    {
        if holds { Some(self) } else { None }
    }

    // Whether this fault is told rather than the other one.
    fn precedes(self, other: Fault) -> bool
        ensures { result ≡ precedes self other }
    {
        self.at < other.at || (self.at == other.at && self.kind.rank() < other.kind.rank())
    }
}

/// Returns the one of two faults that is told, if there is one.
pub fn earlier(one: Option<Fault>, other: Option<Fault>) -> Option<Fault>
    ensures { result ≡ earlier one other }
{
    match (one, other) {
        (Some(first), Some(second)) => {
            if second.precedes(first) {
                Some(second)
            } else {
                Some(first)
            }
        }
        (Some(first), None) => Some(first),
        (None, second) => second,
    }
}
