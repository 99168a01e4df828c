// What a run prints.

ghost use Rattle.std.specs.Prelude.{◌≡◌, ◌++◌, [], IfOk, OnOk, replicate};
ghost use Rattle.lrc_text.specs.Parts.{texts_of, whole_text};
ghost use Rattle.lrc_trace.specs.declared.act.Deed.TheVariants.{Print};
ghost use Rattle.lrc_report.specs.ReportText.{deed_line, end_words, line_on, report_text, run_status_of, run_text, status_of};

use lrc_text::{first_race_part, push_number, races_part};
use lrc_trace::act::{Act, Deed};
use lrc_trace::end::End;
use lrc_trace::race::Race;
use std::alloc::{AllocError, Global};

/// Returns what a run prints: for each node one line for each value that it printed, in order, and a line on how it
/// ended. The text has one part for each node.
pub fn report_parts(alloc: Global, acts: &[Act], ends: &[End]) -> Result<Vec<Vec<u8>>, AllocError>
    ensures { IfOk result (λ parts. whole_text parts.items ≡ report_text acts.now ends.now) }
{
    let mut parts = empty_parts(alloc, ends.len())?;
    for act in acts {
        if let Deed::Print(value) = act.deed {
            let node = usize::from(act.node);
            if node < ends.len() {
                push_print(&mut parts[node], node, value)?;
            }
        }
    }
    for (node, end) in ends.iter().enumerate() {
        push_end(&mut parts[node], node, *end)?;
    }
    Ok(parts)
}

fn empty_parts(alloc: Global, count: usize) -> Result<Vec<Vec<u8>>, AllocError>
    ensures { IfOk result (λ parts. texts_of parts.items ≡ replicate count []) }
{
    let mut parts = Vec::new(alloc);
    for _node in 0..count {
        parts.push(Vec::new(alloc))?;
    }
    Ok(parts)
}

/// Returns what is printed of a run: the lines of its nodes, the lines of its races, and a last line that names the
/// first act that races with an earlier one.
pub fn run_parts(
    alloc: Global,
    acts: &[Act],
    ends: &[End],
    races: &[Race],
    first_race: Option<usize>,
) -> Result<Vec<Vec<u8>>, AllocError>
    ensures { IfOk result (λ parts. whole_text parts.items
        ≡ run_text acts.now ends.now races.now first_race) }
{
    let mut parts = report_parts(alloc, acts, ends)?;
    parts.push(races_part(alloc, races)?)?;
    parts.push(first_race_part(alloc, first_race)?)?;
    Ok(parts)
}

/// Returns the program's exit status after a run: 3 if there is a race, else as `status_after` says.
pub fn status_after_run(ends: &[End], first_race: Option<usize>) -> u8
    ensures { result ≡ run_status_of first_race ends.now }
{
    match first_race {
        Some(_) => 3,
        None => status_after(ends),
    }
}

/// Returns the program's exit status if no race is looked for: 0 if every node reached the end of the text, else 4.
pub fn status_after(ends: &[End]) -> u8
    ensures { result ≡ status_of ends.now }
{
    if ends.iter().all(|end| matches!(end, End::Ended)) {
        0
    } else {
        4
    }
}

fn push_print(text: &mut Vec<u8>, node: usize, value: u64) -> Result<(), AllocError>
    ensures { OnOk result (text.new.items ≡ text.old.items ++ deed_line node (Print value)) }
{
    push_number(text, b"node ", node as u64)?;
    push_number(text, b" prints ", value)?;
    text.extend_from_slice(b"\n")
}

fn push_end(text: &mut Vec<u8>, node: usize, end: End) -> Result<(), AllocError>
    ensures { OnOk result (text.new.items ≡ text.old.items ++ line_on node (end_words end)) }
{
    push_number(text, b"node ", node as u64)?;
    match end {
        End::Ended => text.extend_from_slice(b" ended")?,
        End::Trapped(cause) => push_number(text, b" trapped ", u64::from(cause as u8))?,
        End::Unfinished => text.extend_from_slice(b" unfinished")?,
    }
    text.extend_from_slice(b"\n")
}
