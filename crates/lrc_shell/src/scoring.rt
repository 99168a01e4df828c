// What is said of the claims of a report about a trace.

ghost use Rattle.lrc_races_stream.specs.Score.{IsScorePlayed};
ghost use Rattle.lrc_shell.specs.Plays.{form_of, sought_of};

use crate::races::{form_of, sought_of};
use lrc_cli_args::choice::Scoring;
use lrc_races_stream::play_score;
use lrc_shell_sources::sources::Sources;
use std::alloc::Global;
use std::io::Write;

/// Says of each claim of a report whether it is true of a trace, and what the report missed, and returns the exit status.
#[inline(never)]
pub(crate) fn tell_score<F: Sources, W: Write, E: Write>(
    alloc: Global,
    scoring: &Scoring<'_>,
    sources: &F,
    out: &mut W,
    err: &mut E,
) -> u8
    ensures { IsScorePlayed (F.known sources.now) scoring.now.file.now scoring.now.report.now
        (form_of scoring.now.form) scoring.now.strict (sought_of scoring.now.sure)
        (W.contents out.old) (W.contents out.new) (E.contents err.old) (E.contents err.new) result }
{
    play_score(
        alloc,
        scoring.file,
        scoring.report,
        form_of(scoring.form),
        scoring.strict,
        sought_of(scoring.sure),
        sources,
        out,
        err,
    )
}
