// What is asked of `why`, and the lines of what it prints.

ghost use Rattle.std.specs.Prelude.{◌≡◌, ◌++◌, IfOk, OnOk, length, map};
ghost use Rattle.lrc_text.specs.Parts.{texts_of};
ghost use Rattle.lrc_step.specs.ReasonLines.{asked_alone, whys_text};

use crate::given::Given;
use crate::push_why_line;
use crate::rivals::Rival;
use lrc_why_text::asked::Asked;
use std::alloc::{AllocError, Global};

/// Returns the question about the act at each position.
pub(crate) fn asked_of(alloc: Global, positions: &[usize]) -> Result<Vec<Asked>, AllocError>
    ensures { IfOk result (λ asked. asked.items ≡ map asked_alone positions.now) }
{
    let mut asked = Vec::new(alloc);
    for position in positions {
        asked.push(Asked {
            act: *position,
            and: None,
        })?;
    }
    Ok(asked)
}

/// Adds the lines with the output for the act at each position.
pub(crate) fn push_whys(
    alloc: Global,
    text: &mut Vec<u8>,
    positions: &[usize],
    printed: &[Vec<u8>],
    rivals: &[Vec<Option<Rival>>],
    given: &[Option<Given>],
) -> Result<(), AllocError>
    requires printed { length printed.now ≡ length positions.now }
    requires rivals { length rivals.now ≡ length positions.now }
    requires given { length given.now ≡ length positions.now }
    ensures { OnOk result (text.new.items ≡ text.old.items
        ++ whys_text positions.now (texts_of printed.now) (map (λ one. one.items) rivals.now)
        given.now) }
{
    for place in 0..positions.len() {
        push_why_line(
            alloc,
            text,
            positions[place],
            &printed[place],
            &rivals[place],
            &given[place],
        )?;
    }
    Ok(())
}
