// The lines of tokens, where they stand, and what is told of statements.

ghost use Rattle.std.specs.Prelude.{◌≡◌, ◌∷◌, ◌++◌, [], IfOk, map, slice_index};
ghost use Rattle.lrc_named_tokens.specs.View.{located_of};
ghost use Rattle.lrc_named.specs.Lines.{last_of, lines_of, offsets_of};
ghost use Rattle.lrc_named_core.specs.View.{origin_of, trap_of};
ghost use Rattle.lrc_named_origins.specs.Origins.{lines_told, traps_told};

use lrc_named_core::tree::{Origin, Trap};
use lrc_named_tokens::token::Located;
use std::alloc::{AllocError, Global};

/// Returns the line of each token.
pub fn lines_of(alloc: Global, tokens: &[Located<'_>]) -> Result<Vec<u32>, AllocError>
    ensures { IfOk result (λ lines. lines.items ≡ lines_of (map located_of tokens.now)) }
{
    let mut lines = Vec::new(alloc);
    for token in tokens {
        lines.push(token.place.line)?;
    }
    Ok(lines)
}

/// Returns how many bytes of the text stand before each token.
pub fn offsets_of(alloc: Global, tokens: &[Located<'_>]) -> Result<Vec<u32>, AllocError>
    ensures { IfOk result (λ offsets. offsets.items ≡ offsets_of (map located_of tokens.now)) }
{
    let mut offsets = Vec::new(alloc);
    for token in tokens {
        offsets.push(token.place.offset)?;
    }
    Ok(offsets)
}

/// Returns the line of the token of this number, counted from 0; of no token, 0.
pub fn line_of(lines: &[u32], token: u64) -> u32
    ensures { result ≡ slice_index lines.now token }
{
    match lines.get(token as usize) {
        Some(line) => *line,
        None => 0,
    }
}

/// Returns on which lines the statements lie that come from these, and last the line of the last token; `lines` has the line
/// of each token.
pub fn told_lines(
    alloc: Global,
    lines: &[u32],
    origins: &[Origin<'_>],
) -> Result<Vec<u32>, AllocError>
    ensures { IfOk result (λ told. told.items ≡ lines_told lines.now (map origin_of origins.now)
        ++ last_of lines.now ∷ []) }
{
    let mut told = Vec::new(alloc);
    for origin in origins {
        told.push(line_of(lines, u64::from(origin.line)))?;
    }
    told.push(line_of(lines, (lines.len() as u64).saturating_sub(1)))?;
    Ok(told)
}

/// Returns what is said of a trap of each of the statements that come from these.
pub fn told_traps<'t>(alloc: Global, origins: &[Origin<'t>]) -> Result<Vec<Trap<'t>>, AllocError>
    ensures { IfOk result (λ traps. map trap_of traps.items ≡ traps_told (map origin_of origins.now)) }
{
    let mut traps = Vec::new(alloc);
    for origin in origins {
        traps.push(origin.trap)?;
    }
    Ok(traps)
}
