// What the label lines of a text say.

ghost use Rattle.std.specs.Prelude.{◌≡◌, ◌≤◌, ◌++◌, Err, IfOk, MatchResult, Ok, OnOk, false, map, true};
ghost use Rattle.std.specs.List.{list_all, list_any};
ghost use Rattle.std.specs.Str.{bytes_eq};
ghost use Rattle.lrc_labels.specs.declared.cut.Divider.TheVariants.{LineFeed};
ghost use Rattle.lrc_labels.specs.Cut.{cut, divides};
ghost use Rattle.lrc_labels.specs.Line.{fields_of, label_line_in, line_seen};
ghost use Rattle.lrc_labels.specs.Known.{IsKnown};
ghost use Rattle.lrc_labels.specs.Reading.{first_of, form_seen, idle_by, idle_in, idle_of, label_seen, labels_by, labels_of, labels_with, last_of, meets, said_of, size_fields};
ghost use Rattle.lrc_labels.specs.Sizes.{is_size, sizes_of};

use crate::cut::{Divider, cut};
use crate::form::{Form, reading_of};
use crate::known::{Known, taken};
use crate::label::{IdleLabel, Label, Labels, Reason};
use crate::line::{LabelLine, fields, label_line};
use crate::sizes::numbers_of;
use std::alloc::{AllocError, Global};

/// Reads the label lines of a text, for a program with this many words and locks. It fails only if memory runs out.
pub fn read_labels(
    alloc: Global,
    text: &[u8],
    words: u32,
    locks: u8,
) -> Result<Labels<'_>, AllocError>
    ensures said { IfOk result (λ labels. map label_seen labels.said.items
        ≡ labels_of words locks (cut (divides LineFeed) text.now)) }
    ensures idle { IfOk result (λ labels. labels.idle.items
        ≡ idle_of words locks (cut (divides LineFeed) text.now)) }
{
    let lines = cut(alloc, Divider::LineFeed, text)?;
    let mut known = Known::new(alloc);
    let mut idle = Vec::new(alloc);
    for (place, line) in lines.iter().enumerate() {
        read_line(&mut known, &mut idle, place + 1, line, words, locks)?;
    }
    Ok(Labels {
        said: known.said,
        idle,
    })
}

// Reads the line of this number, behind the lines before it.
fn read_line<'t>(
    known: &mut Known<'t>,
    idle: &mut Vec<IdleLabel>,
    number: usize,
    line: &'t [u8],
    words: u32,
    locks: u8,
) -> Result<(), AllocError>
    requires { IsKnown known.old }
    ensures known { OnOk result (IsKnown known.new) }
    ensures said { OnOk result (map label_seen known.new.said.items
        ≡ labels_with words locks (map label_seen known.old.said.items) line.entry.now) }
    ensures idle { OnOk result (idle.new.items
        ≡ idle.old.items ++ idle_in words locks (map label_seen known.old.said.items) number
        (label_line_in line.entry.now)) }
{
    match label_line(line) {
        Some(found) => read_label_line(known, idle, number, found, words, locks),
        None => Ok(()),
    }
}

// Reads a label line in the line of this number.
fn read_label_line<'t>(
    known: &mut Known<'t>,
    idle: &mut Vec<IdleLabel>,
    number: usize,
    found: LabelLine<'t>,
    words: u32,
    locks: u8,
) -> Result<(), AllocError>
    requires { IsKnown known.old }
    ensures known { OnOk result (IsKnown known.new) }
    ensures said { OnOk result (map label_seen known.new.said.items
        ≡ map label_seen known.old.said.items
        ++ labels_by (said_of words locks (map label_seen known.old.said.items)
        (fields_of found.entry.body.now))) }
    ensures idle { OnOk result (idle.new.items ≡ idle.old.items
        ++ idle_by number found.entry.column
        (said_of words locks (map label_seen known.old.said.items)
        (fields_of found.entry.body.now))) }
{
    let alloc = *idle.allocator();
    let fields = fields(alloc, found.body)?;
    match said_by(known, &fields, words, locks) {
        Ok(form) => known.push(label_of(alloc, form, &fields)?),
        Err(reason) => {
            idle.push(IdleLabel {
                line: number,
                column: found.column,
                reason,
            })?;
            Ok(())
        }
    }
}

// The label of this form, with the sizes among these fields.
fn label_of<'t>(alloc: Global, form: Form<'t>, fields: &[&[u8]]) -> Result<Label<'t>, AllocError>
    requires { list_all is_size (size_fields (map (λ field. field.now) fields.now)) ≡ true }
    ensures { IfOk result (λ label. label_seen label
        ≡ form_seen form.entry (sizes_of (size_fields (map (λ field. field.now) fields.now)))) }
{
    let sizes = sizes_among(alloc, fields)?;
    Ok(Label {
        target: form.target,
        name: form.name,
        sizes,
    })
}

// The sizes among the fields of a label line.
fn sizes_among(alloc: Global, fields: &[&[u8]]) -> Result<Vec<u32>, AllocError>
    requires { list_all is_size (size_fields (map (λ field. field.now) fields.now)) ≡ true }
    ensures { IfOk result (λ sizes. sizes.items
        ≡ sizes_of (size_fields (map (λ field. field.now) fields.now))) }
{
    match fields {
        [_, _, _, _, sizes @ ..] => numbers_of(alloc, sizes),
        [] | [_] | [_, _] | [_, _, _] => Ok(Vec::new(alloc)),
    }
}

// What the fields of a label line say behind these labels.
fn said_by<'t>(
    earlier: &Known<'t>,
    fields: &[&'t [u8]],
    words: u32,
    locks: u8,
) -> Result<Form<'t>, Reason>
    requires { IsKnown earlier.now }
    ensures is { let fields_are = map (λ field. field.now) fields.now in
        let said_is = said_of words locks (map label_seen earlier.now.said.items) fields_are in
        MatchResult result (λ form. said_is
        ≡ Ok (form_seen form (sizes_of (size_fields fields_are))))
        (λ reason. said_is ≡ Err reason) }
    ensures sizes { IfOk result (λ form.
        list_all is_size (size_fields (map (λ field. field.now) fields.now)) ≡ true) }
    ensures ends { IfOk result (λ form. first_of form.target ≤ last_of form.target) }
    ensures free { IfOk result (λ form. list_any (λ other. meets other.target form.target)
        (map label_seen earlier.now.said.items) ≡ false) }
{
    let form = reading_of(fields, words, locks)?;
    if earlier.has_target(form.target) {
        return Err(taken(form.target));
    }
    if earlier.has_name(form.name) {
        return Err(Reason::NameTaken);
    }
    Ok(form)
}

/// Returns whether one of these labels has this name.
pub fn has_name(labels: &[Label<'_>], name: &[u8]) -> bool
    ensures { result ≡ list_any (λ label. bytes_eq label.name name.now)
        (map label_seen labels.now) }
{
    labels.iter().any(|label| label.name == name)
}
