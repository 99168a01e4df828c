// What the program answers to a run whose nodes are on threads.

ghost use Rattle.std.specs.Prelude.{◌≡◌, IfErr, IfOk, List, None};
ghost use Rattle.lrc_post.specs.Mailbox.{MailboxRecord};
ghost use Rattle.lrc_run.specs.Run.{IsThreadedRun};
ghost use Rattle.lrc_cli_runs.specs.Showing.{RefusesRun, ShowsRun};
ghost use Rattle.lrc_cli_runs.specs.Runs.{IsThreadedFault, halt_said, options_of};
ghost use Rattle.lrc_text.specs.Parts.{whole_text};
ghost use Rattle.lrc_cli_args.specs.declared.choice.Way.TheVariants.{Threads as OnThreads};

use crate::runs::setting_of;
use crate::shown::{keep_for, shown};
use lrc_cli_answer::fault::Fault;
use lrc_cli_answer::printout::Printout;
use lrc_cli_args::choice::{RunChoice, RunOptions, Shape};
use lrc_envelope::Picker;
use lrc_program::Program;
use lrc_run::{Halt, OpenGate, ThreadedRun, run_on_threads};
use lrc_source::read_text::ReadText;
use lrc_source::source::Source;
use lrc_source::text::SourceText;
use lrc_world::keep::Keep;
use lrc_world::run::Run;
use std::alloc::Global;
use std::mem;
use std::sync::Wait;
use std::thread::Threads;

/// Answers a choice of a run whose nodes are on threads, from the program's text as it is read. `order` determines which message a
/// mailbox gives next.
pub fn show_on_threads<R: Threads + Wait + Sync>(
    rt: &R,
    alloc: Global,
    choice: &RunChoice<'_>,
    order: Picker,
    shape: Shape,
    text: &ReadText<'_>,
) -> Result<Printout, Fault>
    requires { choice.now.way ≡ OnThreads order }
    ensures ok { IfOk result (λ printout. ShowsRun choice.now shape text.now None
        (whole_text printout.parts.items) printout.status) }
    ensures err { IfErr result (RefusesRun choice.now shape text.now None) }
{
    let read = SourceText::read(alloc, text)?;
    answered_on_threads(rt, alloc, choice, order, shape, &read)
}

// The same of a text that is read.
fn answered_on_threads<R: Threads + Wait + Sync>(
    rt: &R,
    alloc: Global,
    choice: &RunChoice<'_>,
    order: Picker,
    shape: Shape,
    read: &SourceText<'_>,
) -> Result<Printout, Fault>
    requires { choice.now.way ≡ OnThreads order }
    ensures ok { IfOk result (λ printout. ShowsRun choice.now shape read.now.text None
        (whole_text printout.parts.items) printout.status) }
    ensures err { IfErr result (RefusesRun choice.now shape read.now.text None) }
{
    let source = Source::of(alloc, read)?;
    let program = source.program();
    let run = threaded(rt, alloc, &choice.options, order, program, keep_for(shape))?;
    let printout = shown(alloc, shape, choice, &source, &run);
    // The program ends with its answer, so all that the run kept is not walked to be freed.
    mem::forget(run);
    printout
}

// The run of a program whose nodes are on threads of their own.
fn threaded<R: Threads + Wait + Sync>(
    rt: &R,
    alloc: Global,
    options: &RunOptions<'_>,
    order: Picker,
    program: &Program,
    keep: Keep,
) -> Result<Run, Fault>
    ensures run { IfOk result (λ run. (wires : List MailboxRecord)
        × IsThreadedRun program.now options.now.nodes.count (options_of options.now) order keep
        run wires) }
    ensures err { IfErr result (IsThreadedFault program.now options.now order) }
{
    let setting = setting_of(options);
    match run_on_threads(rt, alloc, program, &setting, order, keep, &OpenGate) {
        Ok(run) => Ok(made(run)),
        Err(halt) => Err(said(halt)),
    }
}

// The run that was made on threads. What the post kept is not walked to be freed.
fn made(run: ThreadedRun) -> Run
    ensures { result ≡ run.made }
{
    let ThreadedRun { made, wires } = run;
    mem::forget(wires);
    made
}

// What is said of a run that halted.
fn said(halt: Halt) -> Fault
    ensures { result ≡ halt_said halt }
{
    match halt {
        Halt::Worn(_) => Fault::Worn,
        Halt::Mismatch(_) => Fault::Mismatch,
        Halt::Refused(_) | Halt::NoMemory => Fault::NoMemory,
    }
}
