// Why nothing is printed, and the line that says so.

ghost use Rattle.std.specs.Prelude.{◌≡◌, IfOk, Some};
ghost use Rattle.std.specs.String.{string_bytes};
ghost use Rattle.lrc_cli_answer.specs.FaultLine.{fault_line, fault_of_acts, fault_of_acts_chart, fault_of_events, fault_of_portrait, fault_of_text, fault_of_why, fault_words, kind_words};
ghost use Rattle.lrc_cli_answer.specs.declared.fault.Fault.TheVariants.{NoMemory};
ghost use Rattle.lrc_named_expression_faults.specs.Fault.{words_of as name_words};

use lrc_acts::reading::ActsFault;
use lrc_chart_acts::ActsChartFault;
use lrc_chart_build::PortraitFault;
use lrc_events::events::EventsFault;
use lrc_lang::fault::{FaultKind, ParseFault};
use lrc_named_expression_faults::fault::FaultKind as NameFault;
use lrc_why_text::fault::WhyFault;
use std::alloc::{AllocError, AllocFailed, Global};
use std::error::Error;
use std::fmt;
use std::fmt::{Display, Formatter};

/// Why nothing is printed. The program shows the line of the fault.
#[derive(Clone, Copy)]
pub enum Fault {
    /// The text is not a program: the line of its first fault, and the fault.
    Text(u32, FaultKind),
    /// A named program does not use its names as what they are: the line of its first fault, and the fault.
    Names(u32, NameFault),
    /// The line with this number in the text of events is not an event.
    Events(u32),
    /// The line with this number in the text of acts is not an act.
    Acts(u32),
    /// The text of acts is longer than it may be.
    LongActs,
    /// There is no act at this position: there are only so many acts.
    NoAct(usize, usize),
    /// The message numbers ran out.
    Worn,
    /// A search through every order met more states than this limit.
    TooManyStates(u32),
    /// The program has no outcome with this number.
    NoOutcome(u64),
    /// The part of the run to show with the nodes' states has too many turns.
    TooManyTurns,
    /// A chart would have more rows than it may have.
    TooLong,
    /// In a run on threads, the messages that the nodes report as sent and taken differ from those that went through
    /// the post.
    Mismatch,
    /// Memory ran out.
    NoMemory,
}

impl Display for Fault {
    ghost output = { λ fault. Some (fault_words fault) };

    fn fmt<W: fmt::Write>(&self, f: &mut Formatter<W>) -> fmt::Result {
        match self {
            Fault::Text(line, kind) => {
                let words = words_of(*kind);
                write!(f, "line {line}: {words}")
            }
            Fault::Names(line, kind) => {
                let words = name_words(*kind);
                write!(f, "line {line}: {words}")
            }
            Fault::Events(line) => write!(f, "events line {line}: bad event"),
            Fault::Acts(line) => write!(f, "acts line {line}: bad act"),
            Fault::LongActs => write!(f, "acts line 1: text too long"),
            Fault::NoAct(position, acts) => write!(f, "no act {position}, of {acts} acts"),
            Fault::Worn => write!(f, "message numbers used up"),
            Fault::TooManyStates(most) => write!(f, "more than {most} states"),
            Fault::NoOutcome(number) => write!(f, "no outcome {number}"),
            Fault::TooManyTurns => write!(f, "more than 2000 turns"),
            Fault::TooLong => write!(f, "too long for a chart"),
            Fault::Mismatch => write!(f, "logs and wires differ"),
            Fault::NoMemory => write!(f, "out of memory"),
        }
    }
}

impl fmt::Debug for Fault {
    fn fmt<W: fmt::Write>(&self, f: &mut Formatter<W>) -> fmt::Result {
        Display::fmt(self, f)
    }
}

impl Error for Fault {}

impl From<ParseFault> for Fault {
    ghost from_gives = { λ fault made. made ≡ fault_of_text fault };

    fn from(fault: ParseFault) -> Fault {
        match fault.kind {
            FaultKind::NoMemory => Fault::NoMemory,
            kind => Fault::Text(fault.line, kind),
        }
    }
}

impl From<EventsFault> for Fault {
    ghost from_gives = { λ fault made. made ≡ fault_of_events fault };

    fn from(fault: EventsFault) -> Fault {
        match fault {
            EventsFault::BadEvent(line) => Fault::Events(line),
            EventsFault::NoMemory => Fault::NoMemory,
        }
    }
}

impl From<ActsFault> for Fault {
    ghost from_gives = { λ fault made. made ≡ fault_of_acts fault };

    fn from(fault: ActsFault) -> Fault {
        match fault {
            ActsFault::TooLong => Fault::LongActs,
            ActsFault::BadAct(line) => Fault::Acts(line),
            ActsFault::NoMemory => Fault::NoMemory,
        }
    }
}

impl From<WhyFault> for Fault {
    ghost from_gives = { λ fault made. made ≡ fault_of_why fault };

    fn from(fault: WhyFault) -> Fault {
        match fault {
            WhyFault::TooLong => Fault::LongActs,
            WhyFault::BadAct(line) => Fault::Acts(line),
            WhyFault::NoAct(position, acts) => Fault::NoAct(position, acts),
            WhyFault::NoMemory => Fault::NoMemory,
        }
    }
}

impl From<PortraitFault> for Fault {
    ghost from_gives = { λ fault made. made ≡ fault_of_portrait fault };

    fn from(fault: PortraitFault) -> Fault {
        match fault {
            PortraitFault::TooLong => Fault::TooLong,
            PortraitFault::NoMemory => Fault::NoMemory,
        }
    }
}

impl From<ActsChartFault> for Fault {
    ghost from_gives = { λ fault made. made ≡ fault_of_acts_chart fault };

    fn from(fault: ActsChartFault) -> Fault {
        match fault {
            ActsChartFault::LongActs => Fault::LongActs,
            ActsChartFault::BadAct(line) => Fault::Acts(line),
            ActsChartFault::TooLong => Fault::TooLong,
            ActsChartFault::NoMemory => Fault::NoMemory,
        }
    }
}

impl From<AllocError> for Fault {
    ghost from_gives = { λ _ made. made ≡ NoMemory };

    fn from(_error: AllocError) -> Fault {
        Fault::NoMemory
    }
}

impl<T: Drop> From<AllocFailed<T>> for Fault {
    ghost from_gives = { λ _ made. made ≡ NoMemory };

    fn from(_error: AllocFailed<T>) -> Fault {
        Fault::NoMemory
    }
}

/// The line that is written if memory runs out.
pub const NO_MEMORY_LINE: &[u8] = b"treadmarks: out of memory\n";

/// Returns the line that is written for a fault.
pub fn line_of(alloc: Global, fault: Fault) -> Result<String, AllocError>
    ensures { IfOk result (λ line. string_bytes line ≡ fault_line fault) }
{
    format!(in alloc; "treadmarks: {fault}\n")
}

fn words_of(kind: FaultKind) -> &'static str
    ensures { result.now ≡ kind_words kind }
{
    match kind {
        FaultKind::TooLong => "text too long",
        FaultKind::BadByte => "bad byte",
        FaultKind::BadNumber => "bad number",
        FaultKind::Unexpected => "unexpected token",
        FaultKind::TooDeep => "nested too deep",
        FaultKind::TooManyNames => "too many names",
        FaultKind::OverLimit => "over a limit",
        FaultKind::NoMemory => "out of memory",
    }
}

fn name_words(kind: NameFault) -> &'static str
    ensures { result.now ≡ name_words kind }
{
    match kind {
        NameFault::DeclaredTwice => "declared twice",
        NameFault::ReservedName => "reserved name",
        NameFault::UnknownName => "unknown name",
        NameFault::WrongUse => "wrong use of a name",
        NameFault::WrongIndices => "wrong number of indices",
        NameFault::WrongArguments => "wrong number of arguments",
        NameFault::NotConstant => "not a constant",
        NameFault::OverLimit(_) => "over a limit",
        NameFault::IndexOutOfRange => "index out of range",
        NameFault::TooManyNames => "too many names",
    }
}
