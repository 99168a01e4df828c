// What the program answers to the commands `check` and `core`.

ghost use Rattle.std.specs.Prelude.{◌≡◌, IfErr, IfOk};
ghost use Rattle.lrc_cli.specs.Answer.{IsChecked, IsCored};
ghost use Rattle.lrc_cli.specs.Reading.{HoldsAsRead, IsFaultAsRead};
ghost use Rattle.lrc_cli_answer.specs.Texts.{IsTextFault};
ghost use Rattle.lrc_text.specs.Parts.{whole_text};

use crate::reading::read;
use lrc_cli_answer::fault::Fault;
use lrc_cli_answer::printout::{Printout, in_one};
use lrc_lang::parse;
use std::alloc::Global;

/// Answers the command `check`: whether the text is a program's, of the core or named.
pub(crate) fn checked(alloc: Global, text: &[u8]) -> Result<Printout, Fault>
    ensures ok { IfOk result (λ printout. HoldsAsRead text.now
        (λ nodes read. IsChecked read.core (whole_text printout.parts.items) printout.status)) }
    ensures err { IfErr result (λ fault. IsFaultAsRead text.now fault
        (λ nodes read. IsTextFault read.core fault)) }
{
    let reading = read(alloc, text)?;
    let core = reading.text();
    let _program = parse(alloc, core)?;
    let part = Vec::from_slice(alloc, b"ok\n")?;
    let parts = in_one(alloc, part)?;
    Ok(Printout { parts, status: 0 })
}

/// Answers the command `core`: the text of the core of a named program, and a text of the core as it stands.
pub(crate) fn cored(alloc: Global, text: &[u8]) -> Result<Printout, Fault>
    ensures ok { IfOk result (λ printout. HoldsAsRead text.now
        (λ nodes read. IsCored read.core (whole_text printout.parts.items) printout.status)) }
    ensures err { IfErr result (λ fault. IsFaultAsRead text.now fault
        (λ nodes read. IsTextFault read.core fault)) }
{
    let reading = read(alloc, text)?;
    let core = reading.text();
    let _program = parse(alloc, core)?;
    let part = Vec::from_slice(alloc, core)?;
    let parts = in_one(alloc, part)?;
    Ok(Printout { parts, status: 0 })
}
