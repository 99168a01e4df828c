// The lines of nodes that have trapped.

ghost use Rattle.std.specs.Prelude.{◌≡◌, ◌++◌, IfOk, None, OnOk, map};
ghost use Rattle.lrc_labels.specs.Reading.{label_seen};
ghost use Rattle.lrc_explain_waits.specs.Stand.{stands_of};
ghost use Rattle.lrc_explain_waits.specs.Traps.{traps_told, wording_of};
ghost use Rattle.lrc_named_core.specs.View.{trap_of};
ghost use Rattle.lrc_explore_text.specs.Trapped.{trapped_line, trapped_lines, trapped_text};

use lrc_exec::code::Code;
use lrc_explain_waits::{Fate, Stand, Wording, push_end, stands_of, trap_at, traps_told};
use lrc_labels::label::Label;
use lrc_lines::walks::follow_acts;
use lrc_named_core::tree::Trap;
use lrc_program::Program;
use lrc_trace::act::Act;
use std::alloc::{AllocError, Global};

// Adds the two lines of a node that has trapped.
fn push_trapped(
    alloc: Global,
    text: &mut Vec<u8>,
    labels: &[Label<'_>],
    trap: Trap<'_>,
    stands: &[Stand],
    me: usize,
    stand: Stand,
) -> Result<(), AllocError>
    ensures { OnOk result (text.new.items
        ≡ text.old.items
        ++ trapped_line (map label_seen labels.now) (trap_of trap.entry) stands.now me stand) }
{
    match stand.fate {
        Fate::Trapped(_) => push_end(alloc, text, labels, trap, stands, me, stand),
        _ => Ok(()),
    }
}

fn trapped_lines(
    alloc: Global,
    labels: &[Label<'_>],
    traps: &[Trap<'_>],
    stands: &[Stand],
) -> Result<Vec<u8>, AllocError>
    ensures { IfOk result (λ part. part.items
        ≡ trapped_lines (map label_seen labels.now) (map trap_of traps.now) stands.now) }
{
    let mut text = Vec::new(alloc);
    for me in 0..stands.len() {
        let trap = trap_at(traps, me);
        push_trapped(alloc, &mut text, labels, trap, stands, me, stands[me])?;
    }
    Ok(text)
}

// The same of the nodes of a program's code after acts.
fn trapped_after(
    alloc: Global,
    wording: &Wording<'_, '_>,
    code: &Code<'_>,
    lines: &[u32],
    nodes: u8,
    acts: &[Act],
) -> Result<Vec<u8>, AllocError>
    ensures { IfOk result (λ part. part.items
        ≡ trapped_lines (wording_of wording.now).labels
        (traps_told (wording_of wording.now).traps code.now nodes acts.now)
        (stands_of code.now nodes lines.now None acts.now)) }
{
    let followed = follow_acts(alloc, code, lines, nodes, acts)?;
    let stands = stands_of(alloc, &followed, nodes, None, acts)?;
    let traps = traps_told(alloc, code, wording.traps, nodes, acts)?;
    trapped_lines(alloc, wording.labels, &traps, &stands)
}

/// Returns what is printed of the nodes that have trapped after acts, ascending: two lines for each. `lines` has the
/// lines of the program's statements, and of the text's end behind them.
pub(crate) fn trapped_part(
    alloc: Global,
    wording: &Wording<'_, '_>,
    program: &Program,
    lines: &[u32],
    nodes: u8,
    acts: &[Act],
) -> Result<Vec<u8>, AllocError>
    ensures { IfOk result (λ text. text.items
        ≡ trapped_text (wording_of wording.now) program.now nodes lines.now acts.now) }
{
    let code = Code::new(alloc, program)?;
    trapped_after(alloc, wording, &code, lines, nodes, acts)
}
