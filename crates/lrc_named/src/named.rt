// Which texts are named programs.

ghost use Rattle.std.specs.Prelude.{◌↔◌, IfOk, IsTrue};
ghost use Rattle.lrc_named.specs.Named.{IsReadAsNamed};

use lrc_named_parse::{MOST_BYTES, is_named};
use lrc_named_tokens::tokens_of;
use std::alloc::{AllocError, Global};

/// Returns whether a text is read as a named program, and not as one of the core: whether it has at most 65,536 bytes, and
/// its first token is `nodes`, `const`, `shared`, `lock` or `fn`. It fails only if memory runs out.
pub fn is_read_as_named(alloc: Global, text: &[u8]) -> Result<bool, AllocError>
    ensures { IfOk result (λ named. IsTrue named ↔ IsReadAsNamed text.now) }
{
    if text.len() > MOST_BYTES {
        return Ok(false);
    }
    let tokens = tokens_of(alloc, text)?;
    Ok(is_named(&tokens))
}
