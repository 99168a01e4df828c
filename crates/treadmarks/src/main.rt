//! The program `treadmarks`. It passes its arguments, the system's files and both outputs to the library `lrc_shell`.
#![tactic(auto)]

use lrc_shell::{Kept, LateLine, System, start};
use std::io::IsTerminal;
use std::process::ExitCode;
use std::rt::Env;
use std::{env, io};

fn main(rt: HostRuntime) -> ExitCode {
    // Neither output has a buffer: what is written to it is with the system.
    let (mut out, mut err) = (Kept::new(rt.stdout()), rt.stderr());
    let late = err.is_terminal().then_some(LateLine { rt: &rt });
    let files = System { rt: &rt };
    ExitCode::from(start(&rt, arguments(&rt), &files, late, &mut out, &mut err))
}

/// Returns the program's arguments: its name, and the words that follow.
fn arguments(rt: &(impl Env + AllocGlobal)) -> io::Result<Vec<String>> {
    Ok(env::args(rt)?.collect(rt.alloc())?)
}
