// What the program says of itself, by clap.

ghost use Rattle.std.specs.Prelude.{◌≡◌, ◌≢◌, [], IfOk, map};
ghost use Rattle.clap.specs.Words.{IsAmong, fault_of, kind_of};
ghost use Rattle.lrc_cli_words.specs.Commands.{treadmarks};
ghost use Rattle.lrc_cli_args.specs.Topics.{topic_kind, topic_words};

use crate::choice::{ChooseFault, Topic};
use crate::command_line::matches_of;
use std::alloc::{AllocError, Global};

/// Returns what the program says about a topic, as clap's answer to the words that ask for it. The answer's text is
/// what is printed.
pub fn about(alloc: Global, topic: &Topic<'_>) -> Result<clap::Error, AllocError>
    ensures asked { IfOk result (λ error. IsAmong (kind_of error)
        (fault_of treadmarks (topic_words topic.now))) }
    ensures kind { IfOk result (λ error. kind_of error ≡ topic_kind topic.now) }
{
    match topic {
        Topic::Commands => answer_to(alloc, ["--help"].as_slice()),
        Topic::Command(command) => answer_to(alloc, [command.name, "--help"].as_slice()),
        Topic::Version => answer_to(alloc, ["--version"].as_slice()),
    }
}

// What clap says of words that are no request.
fn answer_to(alloc: Global, words: &[&str]) -> Result<clap::Error, AllocError>
    requires { fault_of treadmarks (map (λ word. word.now) words.now) ≢ [] }
    ensures { IfOk result (λ error. IsAmong (kind_of error)
        (fault_of treadmarks (map (λ word. word.now) words.now))) }
{
    match matches_of(alloc, words) {
        Err(ChooseFault::Usage(error)) => Ok(error),
        Err(ChooseFault::NoMemory) => Err(AllocError),
        Err(ChooseFault::BadNumber) | Ok(_) => unreachable!(),
    }
}
