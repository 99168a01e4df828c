// What the program says of itself, and the status after it.

ghost use Rattle.lrc_cli.specs.Performance.{IsWritten};
ghost use Rattle.lrc_shell.specs.Plays.{IsTopicTold};

use lrc_cli_args::about;
use lrc_cli_args::choice::Topic;
use lrc_report::output::{Output, put};
use lrc_shell_sources::refusal::refuse_memory;
use std::alloc::{AllocError, Global};
use std::io::Write;

/// Writes what the program says about a topic, and returns the exit status. The text is clap's answer to the words that
/// ask for the topic.
pub(crate) fn tell_topic<W: Write, E: Write>(
    alloc: Global,
    topic: &Topic<'_>,
    out: &mut W,
    err: &mut E,
) -> u8
    ensures { IsTopicTold (W.contents out.old) (W.contents out.new) (E.contents err.old)
        (E.contents err.new) result }
{
    match text_of(alloc, topic) {
        Ok(text) => write_text(text.as_bytes(), out),
        Err(_error) => refuse_memory(err),
    }
}

fn text_of(alloc: Global, topic: &Topic<'_>) -> Result<String, AllocError> {
    let answer = about(alloc, topic)?;
    format!(in alloc; "{answer}")
}

// Writes a text, after which the program ends with 0, or with 1 where a write fails.
fn write_text<W: Write>(text: &[u8], out: &mut W) -> u8
    ensures { IsWritten (W.contents out.old) (W.contents out.new) text.now 0 result }
{
    let mut output = Output::new(out);
    match put(&mut output, text) {
        Ok(()) => 0,
        Err(_error) => 1,
    }
}
