// What is told of acts of a run that are asked of.

ghost use Rattle.std.specs.Prelude.{◌≡◌, ◌≢◌, ◌<◌, All, IfErr, IfOk, IfSome, length};
ghost use Rattle.lrc_cli_runs.specs.Reasoned.{IsUntold, asked_of};
ghost use Rattle.lrc_text.specs.Parts.{whole_text};
ghost use Rattle.lrc_why_run.specs.Answers.{AnswersRun};

use lrc_cli_answer::fault::Fault;
use lrc_cli_args::choice::{Asking, RunOptions};
use lrc_source::source::Source;
use lrc_trace::act::Act;
use lrc_why_run::why_run;
use lrc_why_text::asked::Asked;
use std::alloc::Global;

/// Returns the reasons for the acts of a run that the question names.
pub(crate) fn reasons_of_run(
    alloc: Global,
    source: &Source<'_>,
    options: &RunOptions<'_>,
    acts: &[Act],
    asking: &Asking,
) -> Result<Vec<Vec<u8>>, Fault>
    requires { All (λ act. act.node < 16) acts.now }
    ensures ok { IfOk result (λ parts. AnswersRun source.now.text source.now.program
        options.now.nodes.count options.now.size acts.now (asked_of asking.now)
        (whole_text parts.items)) }
    ensures err { IfErr result (IsUntold asking.now (length acts.now)) }
{
    let nodes = options.nodes.count as u8;
    let asked = asked_of(asking);
    let parts = why_run(alloc, source, nodes, options.size, acts, asked)?;
    Ok(parts)
}

/// Returns the question with its acts as places. If it names a second act, this differs from the first.
pub fn asked_of(asking: &Asking) -> Asked
    ensures value { result ≡ asked_of asking.now }
    ensures apart { IfSome result.and (λ other. other ≢ result.act) }
{
    let asking = *asking;
    let and = match asking.other {
        Some(other) => Some(other as usize),
        None => None,
    };
    Asked {
        act: asking.act as usize,
        and,
    }
}
