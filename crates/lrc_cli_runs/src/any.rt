// What the program answers to a run, on threads or not.

ghost use Rattle.std.specs.Prelude.{◌≡◌, is_some, option_map};
ghost use Rattle.lrc_cli_args.specs.Files.{events_along};
ghost use Rattle.lrc_cli_runs.specs.Showing.{AnswersShowing};

use crate::shown::show;
use crate::threads::show_on_threads;
use lrc_cli_answer::fault::Fault;
use lrc_cli_answer::printout::Printout;
use lrc_cli_args::choice::{RunChoice, Shape, Way};
use lrc_source::read_text::ReadText;
use std::alloc::Global;
use std::sync::Wait;
use std::thread::Threads;

/// Answers a choice of a run, on threads or not, from the program's text as it is read, and from the text of events if
/// the choice names one.
pub fn show_any<R: Threads + Wait + Sync>(
    rt: &R,
    alloc: Global,
    choice: &RunChoice<'_>,
    shape: Shape,
    text: &ReadText<'_>,
    events: Option<&[u8]>,
) -> Result<Printout, Fault>
    requires { is_some events ≡ is_some (events_along choice.now.way) }
    ensures { AnswersShowing choice.now shape text.now (option_map (λ e. e.now) events.entry)
        result }
{
    match choice.way {
        Way::Threads(order) => show_on_threads(rt, alloc, choice, order, shape, text),
        Way::Events(_) | Way::Followed(_, _) | Way::Rounds(_) | Way::Random(_) => show(
            alloc, choice, shape, text, events,
        ),
    }
}
