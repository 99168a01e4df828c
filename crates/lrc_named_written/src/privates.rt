// The private names of a named program.

ghost use Rattle.std.specs.Prelude.{◌≡◌, ◌++◌, [], ◌∷◌, List, ℕ, IfOk, MatchOption, OnOk, length, map, min};
ghost use Rattle.lrc_named_tree.specs.View.{block_of, named_of};
ghost use Rattle.lrc_named_names.specs.View.{declared_of};
ghost use Rattle.lrc_named_constants.specs.Well.{bytes_of};
ghost use Rattle.lrc_named_statement_faults.specs.Parts.{part_seen};
ghost use Rattle.lrc_named_statement_faults.specs.Statements.{set_in, set_names};
ghost use Rattle.lrc_named_written.specs.Privates.{AreSeen, is_undeclared, privates, undeclared};

use lrc_named_expression_faults::scope::is_one_of;
use lrc_named_names::names::Names;
use lrc_named_statement_faults::parts::{Part, push_parts};
use lrc_named_tree::tree::{Name, Statement};
use std::alloc::{AllocError, Global};

/// How many private names stand for any more.
const MANY: usize = 33;

// The name that a part sets, without an index or behind `for`.
fn name_set<'p>(part: Part<'_, 'p>) -> Option<Name<'p>>
    ensures { MatchOption result (bytes_of (set_in (part_seen part.entry)) ≡ [])
        (λ name. bytes_of (set_in (part_seen part.entry)) ≡ (named_of name).bytes ∷ []) }
{
    match part {
        Part::Target(place) => match place.indices.as_slice() {
            [] => Some(place.name),
            [_, ..] => None,
        },
        Part::Counter(name) => Some(name),
        Part::Lock(_) | Part::Value(_) => None,
    }
}

// Whether a name is declared nowhere.
fn is_undeclared(names: &Names<'_, '_>, name: &[u8]) -> bool
    ensures { result ≡ is_undeclared (declared_of names.now) name.now }
{
    names.meaning(names.place(name)).is_none()
}

// The private name that a part sets.
fn private_set<'p>(names: &Names<'_, '_>, part: Part<'_, 'p>) -> Option<Name<'p>>
    ensures { MatchOption result
        (undeclared (declared_of names.now) (bytes_of (set_in (part_seen part.entry))) ≡ [])
        (λ name. undeclared (declared_of names.now) (bytes_of (set_in (part_seen part.entry))) ≡ (named_of name).bytes ∷ []) }
{
    match name_set(part) {
        Some(name) => {
            if is_undeclared(names, name.bytes) {
                Some(name)
            } else {
                None
            }
        }
        None => None,
    }
}

// Notes the private name that a part sets, if it sets one and has not been seen.
fn note_private<'p>(
    names: &Names<'_, '_>,
    seen: &mut Vec<Name<'p>>,
    part: Part<'_, 'p>,
) -> Result<(), AllocError>
    ensures { OnOk result ((before : List (List ℕ)) → AreSeen (bytes_of (map named_of seen.old.items)) before
        → AreSeen (bytes_of (map named_of seen.new.items))
        (undeclared (declared_of names.now) (bytes_of (set_in (part_seen part.entry))) ++ before)) }
{
    match private_set(names, part) {
        Some(name) => {
            if is_one_of(seen, name.bytes) {
                Ok(())
            } else {
                seen.push(name)?;
                Ok(())
            }
        }
        None => Ok(()),
    }
}

// The private names that these parts set, each once.
fn private_names<'p>(
    alloc: Global,
    names: &Names<'_, '_>,
    parts: &[Part<'_, 'p>],
) -> Result<Vec<Name<'p>>, AllocError>
    ensures { IfOk result (λ seen. AreSeen (bytes_of (map named_of seen.items))
        (undeclared (declared_of names.now) (bytes_of (set_names (map part_seen parts.now))))) }
{
    let mut seen = Vec::new(alloc);
    for i in (0..parts.len()).rev() {
        note_private(names, &mut seen, parts[i])?;
    }
    Ok(seen)
}

// How many names these are, of which 33 stand for any more.
fn count_of(names: &[Name<'_>]) -> u32
    ensures { result ≡ min (length names.now) 33 }
{
    names.len().min(MANY) as u32
}

/// Returns how many different private names the statements have of a program that declares this; 33 stands for any more. It
/// fails only if memory runs out.
pub fn privates<'p>(
    alloc: Global,
    names: &Names<'_, 'p>,
    statements: &[Statement<'p>],
) -> Result<u32, AllocError>
    ensures { IfOk result (λ count. count ≡ privates (declared_of names.now) (block_of statements.now)) }
{
    let mut parts = Vec::new(alloc);
    push_parts(&mut parts, statements)?;
    let seen = private_names(alloc, names, &parts)?;
    Ok(count_of(&seen))
}
