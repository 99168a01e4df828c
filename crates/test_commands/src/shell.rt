// A command with its texts, and what comes of it.

ghost use Rattle.std.specs.Prelude.{◌≡◌, is_some};
ghost use Rattle.lrc_cli_args.specs.Files.{names_events};

use lrc_cli::execute;
use lrc_cli_args::choice::{Choice, Collect, Nodes, RunChoice, RunOptions, Shape, Steps, Way};
use lrc_page::Size;
use std::sync::Wait;
use std::thread::Threads;

/// A run on one node, as it is without options.
pub const ON_ONE_NODE: RunOptions<'static> = RunOptions {
    file: "-",
    nodes: Nodes { count: 1 },
    nodes_given: true,
    default_nodes: Nodes { count: 1 },
    steps: Steps { count: 1_000_000 },
    collect: Collect { count: 0 },
    size: Size::Words64,
};

/// What a command printed, what it wrote to standard error, and its status.
#[derive(Drop)]
pub struct Outcome {
    pub out: Vec<u8>,
    pub err: Vec<u8>,
    pub status: u8,
}

impl Outcome {
    /// Whether this is all that was written, with this status.
    pub fn is(&self, out: &[u8], err: &[u8], status: u8) -> bool {
        self.out.as_slice() == out && self.err.as_slice() == err && self.status == status
    }
}

/// What a command makes of a text, and of that of its events where it names them.
pub fn done<R: Threads + Wait + Sync + AllocGlobal>(
    rt: &R,
    choice: &Choice<'_>,
    text: &[u8],
    events: Option<&[u8]>,
) -> Outcome
    requires { is_some events ≡ names_events choice.now }
{
    let alloc = rt.alloc();
    let mut out = Vec::new(alloc);
    let mut err = Vec::new(alloc);
    let status = execute(rt, alloc, choice, text, events, &mut out, &mut err);
    Outcome { out, err, status }
}

/// What is shown of a run with these events.
pub fn played<R: Threads + Wait + Sync + AllocGlobal>(
    rt: &R,
    options: RunOptions<'static>,
    text: &[u8],
    events: &[u8],
) -> Outcome {
    let way = Way::Events("events");
    let choice = Choice::Show(RunChoice { options, way }, Shape::Report);
    done(rt, &choice, text, Some(events))
}
