// Answers that may take long.

ghost use Rattle.std.specs.Prelude.{◌≡◌, is_some, option_map};
ghost use Rattle.lrc_cli.specs.Answer.{Answers};
ghost use Rattle.lrc_cli_args.specs.Files.{names_events};

use crate::progress::{Late, Watch};
use lrc_cli::answer::Answered;
use lrc_cli::answer_any;
use lrc_cli_answer::fault::Fault;
use lrc_cli_args::choice::Choice;
use std::sync::Wait;
use std::thread;
use std::thread::Threads;
use std::time::Clock;

/// Returns the answer to a choice. If it takes long, and a thread can be started, `late` says that it goes on before the
/// answer is returned.
pub(crate) fn answer_watched<R, L>(
    rt: &R,
    choice: &Choice<'_>,
    text: &[u8],
    events: Option<&[u8]>,
    late: L,
) -> Result<Answered, Fault>
where
    R: Threads + Wait + Sync + Clock + AllocGlobal,
    L: Late + Send + Drop,
    requires { is_some events ≡ names_events choice.now }
    ensures { Answers choice.now text.now (option_map (λ e. e.now) events.entry) result }
{
    let watch = Watch::new();
    let shared = &watch;
    let watched = || {
        if shared.takes_long(rt) {
            late.tell();
        }
    };
    let answering = || -> Result<Answered, Fault>
        requires { is_some events ≡ names_events choice.now }
        ensures { Answers choice.entry.now text.entry.now
            (option_map (λ e. e.now) events.entry) result }
    { answer_then_end(rt, shared, choice, text, events) };
    let (_told, answered) = thread::join(rt, watched, answering);
    answered
}

// Answers a choice, and says that this is over.
fn answer_then_end<R>(
    rt: &R,
    watch: &Watch,
    choice: &Choice<'_>,
    text: &[u8],
    events: Option<&[u8]>,
) -> Result<Answered, Fault>
where
    R: Threads + Wait + Sync + AllocGlobal,
    requires { is_some events ≡ names_events choice.now }
    ensures { Answers choice.now text.now (option_map (λ e. e.now) events.entry) result }
{
    let answered = answer_any(rt, rt.alloc(), choice, text, events);
    watch.end(rt);
    answered
}
