// From the start of the program to its exit status.

ghost use Rattle.std.specs.Prelude.{is_some, map};
ghost use Rattle.std.specs.IoError.{error_kind};
ghost use Rattle.std.specs.String.{string_bytes};
ghost use Rattle.std.specs.Result.{result_map_both};
ghost use Rattle.lrc_shell.specs.Plays.{Begins, Starts};

use crate::played::play;
use crate::progress::Late;
use crate::refusal::refuse_arguments;
use lrc_shell_more::more::tell_failure;
use lrc_shell_more::outlet::Outlet;
use lrc_shell_sources::sources::Sources;
use std::io;
use std::io::Write;
use std::sync::Wait;
use std::thread::Threads;
use std::time::Clock;

/// Carries out what the program's arguments ask for, as [`play`] does, and returns the exit status. If the arguments
/// cannot be read, a line on `err` says why, and nothing goes to `out`. If a write to `out` failed and `err` is a
/// terminal, a line on it says why, unless nobody reads the output any more.
pub fn start<R, F: Sources, L, W: Write + Outlet, E: Write>(
    rt: &R,
    arguments: io::Result<Vec<String>>,
    sources: &F,
    late: Option<L>,
    out: &mut W,
    err: &mut E,
) -> u8
where
    R: Threads + Wait + Sync + Clock + AllocGlobal,
    L: Late + Send + Drop,
    ensures { Starts (F.known sources.now) (is_some late)
        (result_map_both (λ given. map string_bytes given.items) error_kind arguments)
        (W.failure_of out.new)
        (W.contents out.old) (W.contents out.new) (E.contents err.old) (E.contents err.new) result }
{
    let terminal = late.is_some();
    let status = begin(rt, arguments, sources, late, out, err);
    tell_failure(rt.alloc(), terminal, out.failure(), err);
    status
}

// The same without what is said of the output.
fn begin<R, F: Sources, L, W: Write, E: Write>(
    rt: &R,
    arguments: io::Result<Vec<String>>,
    sources: &F,
    late: Option<L>,
    out: &mut W,
    err: &mut E,
) -> u8
where
    R: Threads + Wait + Sync + Clock + AllocGlobal,
    L: Late + Send + Drop,
    ensures { Begins (F.known sources.now) (is_some late)
        (result_map_both (λ given. map string_bytes given.items) error_kind arguments)
        (W.contents out.old) (W.contents out.new) (E.contents err.old) (E.contents err.new) result }
{
    match arguments {
        Ok(arguments) => play(rt, &arguments, sources, late, out, err),
        Err(error) => refuse_arguments(&error, err),
    }
}
