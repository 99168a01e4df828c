// What the program answers to a choice, before anything is written.

ghost use Rattle.std.specs.Prelude.{◌≡◌, IfErr, IfOk, None, false, is_some, option_map};
ghost use Rattle.lrc_cli.specs.Answer.{Answers, IsFault, IsPrintoutOfRounds, Prints, printed};
ghost use Rattle.lrc_report.specs.ReportText.{report_text, status_of};
ghost use Rattle.lrc_text.specs.Parts.{whole_text};
ghost use Rattle.lrc_cli_args.specs.Files.{names_events, starts_threads};
ghost use Rattle.lrc_cli_args.specs.declared.choice.Choice.TheVariants.{Judge, Plain};

use crate::cored::{checked, cored};
use crate::explored::explored;
use crate::judged::{judged, judged_all, judged_with_pairs};
use crate::linted::linted;
use crate::pictured::pictured;
use crate::reading::{nodes_for, read};
use crate::reasoned::reasoned;
use crate::shown::shown;
use lrc_cli_answer::fault::Fault;
use lrc_cli_answer::printout::Printout;
use lrc_cli_args::choice::{Choice, Judging, Nodes, PlainRun, Steps};
use lrc_exec::rounds::plain_rounds;
use lrc_judge_text::pairs::PairsJudgement;
use lrc_lang::parse;
use lrc_node::End;
use lrc_program::Program;
use lrc_report::report::{report_parts, status_after};
use lrc_trace::act::Act;
use lrc_world::ends::ends;
use std::alloc::{AllocError, Global};

/// The answer to a choice.
#[derive(Drop)]
pub enum Answered {
    /// A text, with its exit status.
    Printed(Printout),
    /// A judgement of acts. Its racing pairs are found while they are written.
    Judged(PairsJudgement),
    /// What a search met that was cut short: the parts of a text, and the fault that is told behind it.
    Met(Vec<Vec<u8>>, Fault),
}

/// Answers a choice that starts no threads, from the text of its FILE, and from the text of events if the choice names
/// one.
pub fn answer(
    alloc: Global,
    choice: &Choice<'_>,
    text: &[u8],
    events: Option<&[u8]>,
) -> Result<Answered, Fault>
    requires threadless { starts_threads choice.now ≡ false }
    requires events { is_some events ≡ names_events choice.now }
    ensures { Answers choice.now text.now (option_map (λ e. e.now) events.entry) result }
{
    match choice {
        Choice::Check(_) => printed(checked(alloc, text)),
        Choice::Core(_) => printed(cored(alloc, text)),
        Choice::Plain(run) => printed(plain(alloc, run, text)),
        Choice::Show(run, shape) => printed(shown(alloc, run, *shape, text, events)),
        Choice::Judge(judging) => judgement(alloc, judging, text),
        Choice::Explore(exploring) => explored(alloc, exploring, text),
        Choice::Lint(file) => printed(linted(alloc, file, text)),
        Choice::WhyActs(acts, asking) => printed(reasoned(alloc, acts, asking, text)),
        Choice::ChartActs(acts, charting) => printed(pictured(alloc, acts, charting, text)),
    }
}

/// Returns a printout as an answer.
pub(crate) fn printed(printout: Result<Printout, Fault>) -> Result<Answered, Fault>
    ensures { result ≡ printed printout }
{
    match printout {
        Ok(printout) => Ok(Answered::Printed(printout)),
        Err(fault) => Err(fault),
    }
}

// A judgement of acts, as an answer.
fn judgement(alloc: Global, judging: &Judging<'_>, text: &[u8]) -> Result<Answered, Fault>
    ensures { Answers (Judge judging.now) text.now None result }
{
    if judging.all {
        printed(judged_all(alloc, judging, text))
    } else if judging.pairs {
        let judgement = judged_with_pairs(alloc, judging, text)?;
        Ok(Answered::Judged(judgement))
    } else {
        printed(judged(alloc, judging, text))
    }
}

// What the nodes print on the plain machine, and how they end there.
fn plain(alloc: Global, run: &PlainRun<'_>, text: &[u8]) -> Result<Printout, Fault>
    ensures ok { IfOk result (λ printout. Prints (Plain run.now) text.now None
        (whole_text printout.parts.items) printout.status) }
    ensures err { IfErr result (IsFault (Plain run.now) text.now None) }
{
    let reading = read(alloc, text)?;
    let core = reading.text();
    let program = parse(alloc, core)?;
    let nodes = nodes_for(run.nodes_given, run.nodes, reading.nodes());
    Ok(in_rounds(alloc, nodes, run.steps, &program)?)
}

fn in_rounds(
    alloc: Global,
    nodes: Nodes,
    steps: Steps,
    program: &Program,
) -> Result<Printout, AllocError>
    ensures { IfOk result (λ printout. IsPrintoutOfRounds program.now nodes.count
        steps.count (whole_text printout.parts.items) printout.status) }
{
    let nodes = nodes.count as u8;
    let acts = plain_rounds(alloc, program, nodes, steps.count)?;
    let ends = ends(alloc, nodes, &acts)?;
    printout_of(alloc, &acts, &ends)
}

// What is printed of these acts and ends, where no race is looked for.
fn printout_of(alloc: Global, acts: &[Act], ends: &[End]) -> Result<Printout, AllocError>
    ensures text { IfOk result (λ printout.
        whole_text printout.parts.items ≡ report_text acts.now ends.now) }
    ensures status { IfOk result (λ printout. printout.status ≡ status_of ends.now) }
{
    Ok(Printout {
        parts: report_parts(alloc, acts, ends)?,
        status: status_after(ends),
    })
}
