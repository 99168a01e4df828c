// The lines of warnings.

ghost use Rattle.std.specs.Prelude.{◌≡◌, ◌++◌, OnOk, length, map};
ghost use Rattle.std.specs.List.{flat_map};
ghost use Rattle.lrc_labels.specs.Reading.{label_seen};
ghost use Rattle.lrc_lint.specs.Linted.{warned_lines, warning_line};

use lrc_labels::label::Label;
use lrc_lint_lines::{push_count, push_place};
use lrc_lint_warnings::push_words;
use lrc_lint_warnings::warning::Warning;
use std::alloc::AllocError;

/// Adds a line for each of these warnings, then the line with their number.
pub fn push_warned(
    out: &mut Vec<u8>,
    file: &[u8],
    warnings: &[Warning],
    names: &[&[u8]],
    labels: &[Label<'_>],
) -> Result<(), AllocError>
    ensures { OnOk result (out.new.items ≡ out.old.items
        ++ warned_lines file.now (map (λ name. name.now) names.now)
        (map label_seen labels.now) warnings.now) }
{
    push_warnings(out, file, warnings, names, labels)?;
    push_count(out, warnings.len() as u64)
}

fn push_warnings(
    out: &mut Vec<u8>,
    file: &[u8],
    warnings: &[Warning],
    names: &[&[u8]],
    labels: &[Label<'_>],
) -> Result<(), AllocError>
    ensures { OnOk result (out.new.items ≡ out.old.items
        ++ flat_map (warning_line file.now (map (λ name. name.now) names.now)
        (map label_seen labels.now)) warnings.now) }
{
    for warning in warnings {
        push_warning(out, file, *warning, names, labels)?;
    }
    Ok(())
}

fn push_warning(
    out: &mut Vec<u8>,
    file: &[u8],
    warning: Warning,
    names: &[&[u8]],
    labels: &[Label<'_>],
) -> Result<(), AllocError>
    ensures { OnOk result (out.new.items ≡ out.old.items
        ++ warning_line file.now (map (λ name. name.now) names.now)
        (map label_seen labels.now) warning) }
{
    push_place(out, file, warning.line as u64, warning.column as u64)?;
    out.extend_from_slice(b"warning: ")?;
    push_words(out, warning.says, names, labels)?;
    out.extend_from_slice(b"\n")
}
