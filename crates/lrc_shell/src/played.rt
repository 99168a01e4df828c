// From the words to the exit status.

ghost use Rattle.std.specs.Prelude.{◌≡◌, drop, is_some, map, option_map};
ghost use Rattle.lrc_cli.specs.Answer.{Answers};
ghost use Rattle.lrc_cli_args.specs.CommandLine.{words_meant};
ghost use Rattle.lrc_cli_args.specs.Files.{names_events};
ghost use Rattle.lrc_shell.specs.Plays.{IsPerformed, IsPlayed, Plays};

use crate::more::tell_more;
use crate::progress::Late;
use crate::reading::read;
use crate::refusal::{refuse, refuse_unread, tell_fault};
use crate::topic::tell_topic;
use crate::tracing::{trace_racing, trace_reasons, trace_score, trace_witness};
use crate::watched::answer_watched;
use lrc_cli::answer::Answered;
use lrc_cli::{answer_any, tell};
use lrc_cli_answer::fault::Fault;
use lrc_cli_args::choice::{Choice, Request};
use lrc_cli_args::choose;
use lrc_shell_sources::refusal::FAULT;
use lrc_shell_sources::sources::Sources;
use std::alloc::Global;
use std::convert::AsStr;
use std::io::Write;
use std::sync::Wait;
use std::thread::Threads;
use std::time::Clock;

/// Carries out what the program's arguments ask for, and returns the exit status. The first argument is the program's
/// name. The output goes to `out`, and each fault to `err`. `late` is there if `err` is a terminal: it says once that a
/// run takes long, and behind the line of a fault more is said of it.
pub fn play<R, S: AsStr, F: Sources, L, W: Write, E: Write>(
    rt: &R,
    arguments: &[S],
    sources: &F,
    late: Option<L>,
    out: &mut W,
    err: &mut E,
) -> u8
where
    R: Threads + Wait + Sync + Clock + AllocGlobal,
    L: Late + Send + Drop,
    ensures { Plays (F.known sources.now) (is_some late) (words_meant (map S.text (drop 1 arguments.now)))
        (W.contents out.old) (W.contents out.new) (E.contents err.old) (E.contents err.new) result }
{
    let terminal = late.is_some();
    play_words(rt, terminal, words_of(arguments), sources, late, out, err)
}

// The same of the words behind the program's name.
fn play_words<R, S: AsStr, F: Sources, L, W: Write, E: Write>(
    rt: &R,
    terminal: bool,
    words: &[S],
    sources: &F,
    late: Option<L>,
    out: &mut W,
    err: &mut E,
) -> u8
where
    R: Threads + Wait + Sync + Clock + AllocGlobal,
    L: Late + Send + Drop,
    ensures { Plays (F.known sources.now) terminal (words_meant (map S.text words.now))
        (W.contents out.old) (W.contents out.new) (E.contents err.old) (E.contents err.new) result }
{
    match choose(rt.alloc(), words) {
        Ok(Request::Answer(choice)) => {
            play_choice(rt, terminal, &choice, sources, late, out, err)
        }
        Ok(Request::Races(racing)) => {
            trace_racing(rt.alloc(), terminal, &racing, sources, out, err)
        }
        Ok(Request::Witness(witnessing)) => {
            trace_witness(rt.alloc(), terminal, &witnessing, sources, out, err)
        }
        Ok(Request::Reasons(reasoning)) => {
            trace_reasons(rt.alloc(), terminal, &reasoning, sources, out, err)
        }
        Ok(Request::Score(scoring)) => {
            trace_score(rt.alloc(), terminal, &scoring, sources, out, err)
        }
        Ok(Request::About(topic)) => tell_topic(rt.alloc(), &topic, out, err),
        Err(fault) => refuse(rt.alloc(), terminal, &fault, words, err),
    }
}

// What follows the program's name.
fn words_of<S>(arguments: &[S]) -> &[S]
    ensures { result.now ≡ drop 1 arguments.now }
{
    match arguments.split_first() {
        Some((_name, words)) => words,
        None => arguments,
    }
}

// Reads what a choice names, answers it, and writes the answer.
fn play_choice<R, F: Sources, L, W: Write, E: Write>(
    rt: &R,
    terminal: bool,
    choice: &Choice<'_>,
    sources: &F,
    late: Option<L>,
    out: &mut W,
    err: &mut E,
) -> u8
where
    R: Threads + Wait + Sync + Clock + AllocGlobal,
    L: Late + Send + Drop,
    ensures { IsPlayed (F.known sources.now) terminal choice.now
        (W.contents out.old) (W.contents out.new) (E.contents err.old) (E.contents err.new) result }
{
    match read(rt.alloc(), sources, choice) {
        Ok(read) => perform(
            rt,
            terminal,
            choice,
            &read.text,
            read.events.as_deref(),
            late,
            out,
            err,
        ),
        Err(unread) => refuse_unread(rt.alloc(), terminal, unread.path, &unread.error, err),
    }
}

// Answers a choice, and writes the answer. If the answer takes long, `late` says so.
fn perform<R, L, W: Write, E: Write>(
    rt: &R,
    terminal: bool,
    choice: &Choice<'_>,
    text: &[u8],
    events: Option<&[u8]>,
    late: Option<L>,
    out: &mut W,
    err: &mut E,
) -> u8
where
    R: Threads + Wait + Sync + Clock + AllocGlobal,
    L: Late + Send + Drop,
    requires { is_some events ≡ names_events choice.now }
    ensures { IsPerformed terminal choice.now text.now (option_map (λ e. e.now) events.entry)
        (W.contents out.old) (W.contents out.new) (E.contents err.old) (E.contents err.new) result }
{
    let answered = match late {
        Some(late) => answer_watched(rt, choice, text, events, late),
        None => answer_any(rt, rt.alloc(), choice, text, events),
    };
    tell_answered(
        rt.alloc(),
        terminal,
        choice,
        text,
        events,
        answered,
        out,
        err,
    )
}

// Writes the answer to a choice, or the line of its fault and what says more of it.
fn tell_answered<W: Write, E: Write>(
    alloc: Global,
    terminal: bool,
    choice: &Choice<'_>,
    text: &[u8],
    events: Option<&[u8]>,
    answered: Result<Answered, Fault>,
    out: &mut W,
    err: &mut E,
) -> u8
    requires { Answers choice.now text.now (option_map (λ e. e.now) events) answered }
    ensures { IsPerformed terminal choice.now text.now (option_map (λ e. e.now) events.entry)
        (W.contents out.old) (W.contents out.new) (E.contents err.old) (E.contents err.new) result }
{
    match answered {
        Ok(answered) => tell(alloc, Ok(answered), out, err),
        Err(fault) => {
            let told = tell_fault(alloc, fault, err);
            tell_more(alloc, terminal, choice, text, events, told, err);
            FAULT
        }
    }
}
