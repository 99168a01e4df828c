// How the text of a program is read: a text of the core as it stands, and a named program as its core, which the named
// program tells.

ghost use Rattle.std.specs.Prelude.{◌≡◌, IfErr, IfOk, map};
ghost use Rattle.lrc_cli.specs.Reading.{IsReadAs, IsUnread, exploring_for, fault_of_named, nodes_for, run_for};
ghost use Rattle.lrc_cli.specs.ReadingSeen.{asked_by, text_read};
ghost use Rattle.lrc_named.specs.Named.{IsReadAsNamed};
ghost use Rattle.lrc_named_core.specs.View.{trap_of};
ghost use Rattle.lrc_named_held.specs.Held.{held_seen};
ghost use Rattle.lrc_source.specs.Telling.{as_translated, as_written};

use lrc_cli_answer::fault::Fault;
use lrc_cli_args::choice::{Exploring, RunChoice, RunOptions};
use lrc_named::fault::NamedFault;
use lrc_named::{CoreText, core_of_text, is_read_as_named};
use lrc_setting::setting::Nodes;
use lrc_source::read_text::ReadText;
use std::alloc::Global;

/// The text of a program, as it is read.
#[derive(Drop)]
pub enum Reading<'t> {
    /// A text of the core, as it stands.
    Written(&'t [u8]),
    /// A named program, and its core.
    Translated(&'t [u8], CoreText<'t>),
}

impl Reading<'_> {
    /// Returns the text of the core that is read.
    pub fn text(&self) -> &[u8]
        ensures { result.now ≡ (text_read self.now).core }
    {
        match self {
            Reading::Written(text) => *text,
            Reading::Translated(_, core) => &core.text,
        }
    }

    /// Returns the text of the core with what it is told by.
    pub fn told(&self) -> ReadText<'_>
        ensures { result ≡ text_read self.now }
    {
        match self {
            Reading::Written(text) => written(text),
            Reading::Translated(text, core) => translated_by(text, core),
        }
    }

    /// Returns how many nodes the text asks for, if it is a named program that says so.
    pub fn nodes(&self) -> Option<Nodes>
        ensures { result ≡ asked_by self.now }
    {
        match self {
            Reading::Written(_) => None,
            Reading::Translated(_, core) => core.nodes,
        }
    }
}

// A text of the core as it was written.
fn written<'r>(text: &'r &[u8]) -> ReadText<'r>
    ensures { result ≡ as_written text.now.now }
{
    ReadText::written(*text)
}

// The core of a named program with this text, which tells it.
fn translated_by<'r>(text: &'r &[u8], core: &'r CoreText<'_>) -> ReadText<'r>
    ensures { result ≡ as_translated core.now.text.items text.now.now core.now.lines.items
        (map trap_of core.now.traps.items)
        (map (λ one. map held_seen one.items) core.now.held.items) }
{
    ReadText::translated(&core.text, *text, &core.lines, &core.traps, &core.held)
}

// The fault of a named program, as it is told.
fn fault_of(fault: NamedFault) -> Fault
    ensures { result ≡ fault_of_named fault }
{
    match fault {
        NamedFault::Text(line, kind) => Fault::Text(line, kind),
        NamedFault::Names(line, kind) => Fault::Names(line, kind),
        NamedFault::NoMemory => Fault::NoMemory,
    }
}

/// Reads the text of a program. It fails if the text is a named program that has a fault, with the first one, or if memory
/// runs out. Whether a text of the core is a program is not asked.
pub fn read(alloc: Global, text: &[u8]) -> Result<Reading<'_>, Fault>
    ensures ok { IfOk result (λ reading. IsReadAs text.now (asked_by reading) (text_read reading)) }
    ensures err { IfErr result (IsUnread text.now) }
{
    if is_read_as_named(alloc, text)? {
        translated(alloc, text)
    } else {
        Ok(Reading::Written(text))
    }
}

// Reads a named program.
fn translated(alloc: Global, text: &[u8]) -> Result<Reading<'_>, Fault>
    requires { IsReadAsNamed text.now }
    ensures ok { IfOk result (λ reading. IsReadAs text.now (asked_by reading) (text_read reading)) }
    ensures err { IfErr result (IsUnread text.now) }
{
    match core_of_text(alloc, text) {
        Ok(core) => Ok(Reading::Translated(text, core)),
        Err(fault) => Err(fault_of(fault)),
    }
}

/// Returns how many nodes run: as many as the words say, else as many as the text asks for, else as many as by default.
pub fn nodes_for(given: bool, nodes: Nodes, asked: Option<Nodes>) -> Nodes
    ensures { result ≡ nodes_for given nodes asked }
{
    if given { nodes } else { asked.unwrap_or(nodes) }
}

/// Returns a search through orders with the nodes that a text asks for, unless the words say how many.
pub fn exploring_for<'w>(exploring: &Exploring<'w>, asked: Option<Nodes>) -> Exploring<'w>
    ensures { result ≡ exploring_for exploring.now asked }
{
    let made = *exploring;
    let nodes = nodes_for(made.nodes_given, made.nodes, asked);
    Exploring { nodes, ..made }
}

/// Returns a run with the nodes that a text asks for, unless the words say how many. These nodes are the default.
pub fn run_for<'w>(run: &RunChoice<'w>, asked: Option<Nodes>) -> RunChoice<'w>
    ensures { result ≡ run_for run.now asked }
{
    let options = run.options;
    let nodes = nodes_for(options.nodes_given, options.nodes, asked);
    let default_nodes = asked.unwrap_or(options.default_nodes);
    let options = RunOptions {
        nodes,
        default_nodes,
        ..options
    };
    RunChoice {
        options,
        way: run.way,
    }
}
