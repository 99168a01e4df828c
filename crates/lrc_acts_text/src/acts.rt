// Acts in plain words.

ghost use Rattle.std.specs.Prelude.{◌≡◌, IfOk, length};
ghost use Rattle.lrc_acts_text.specs.ActsText.{acts_text};

use lrc_text::push_act_line;
use lrc_trace::act::Act;
use std::alloc::{AllocError, Global};

/// Returns a line for each act, in order: its node, its deed, and the line of the program's text that it belongs to.
pub fn acts_part(alloc: Global, acts: &[Act], lines: &[u32]) -> Result<Vec<u8>, AllocError>
    requires { length lines.now ≡ length acts.now }
    ensures { IfOk result (λ part. part.items ≡ acts_text acts.now lines.now) }
{
    let mut text = Vec::new(alloc);
    for (position, act) in acts.iter().enumerate() {
        push_act_line(&mut text, *act, lines[position])?;
    }
    Ok(text)
}
