// The columns of nodes, and what a row shows in them.

ghost use Rattle.std.specs.Prelude.{◌≡◌, ◌<◌, ◌≤◌, ◌*◌, ◌++◌, IfOk, OnOk, replicate};
ghost use Rattle.std.specs.List.{flat_map, range_with_len};
ghost use Rattle.lrc_chart_text.specs.Columns.{arrow_sign, band_margin, bar, bars, bars_margin, between_sign, cell, cells, left_sign, middle_sign};
ghost use Rattle.lrc_chart_text.specs.Columns.{name_margin, number_text, passes_left, passes_right, right_sign, room_of, row_margin, rule_sign, sign_of, width_of};

use lrc_chart_model::Kind;
use lrc_text::push_number;
use std::alloc::{AllocError, Global};

/// The part of a row that stands in the columns: the sign of its turn, and an arrow between two columns. Without an
/// arrow, both columns are the same.
#[derive(Clone, Copy)]
pub(crate) struct Shape {
    pub column: u8,
    pub kind: Kind,
    pub closes: bool,
    pub from: u8,
    pub to: u8,
}

/// Returns the width of each column in characters, by the number of columns.
pub(crate) fn width_of(columns: usize) -> usize
    ensures is { result ≡ width_of columns }
    ensures some { 3 ≤ result }
    ensures few { result ≤ 8 }
    ensures all { columns ≤ 16 → columns * result ≤ 48 }
{
    match columns {
        0..=4 => 8,
        5..=8 => 5,
        _ => 3,
    }
}

/// Returns the width in characters that is left for words, by the number of columns.
pub(crate) fn room_of(columns: usize) -> usize
    ensures is { result ≡ room_of columns }
    ensures some { 0 < result }
    ensures few { result < 100 }
{
    if columns <= 16 {
        93 - columns * width_of(columns)
    } else {
        45
    }
}

fn sign_of(kind: Kind) -> u8
    ensures { result ≡ sign_of kind }
{
    match kind {
        Kind::Act => b'*',
        Kind::Wait => b'.',
        Kind::Message => b'o',
        Kind::Trap => b'!',
        Kind::Barrier => b'=',
    }
}

impl Shape {
    ghost use Rattle.std.specs.Prelude.{◌≡◌};
    ghost use Rattle.lrc_chart_text.specs.Columns.{arrow_sign, between_sign, left_sign, middle_sign, passes_left, passes_right, right_sign, rule_sign};

    fn passes_left(self, column: usize) -> bool
        ensures { result ≡ passes_left self.from self.to column }
    {
        let from = usize::from(self.from);
        let to = usize::from(self.to);
        (from < column && column <= to) || (to < column && column <= from)
    }

    fn passes_right(self, column: usize) -> bool
        ensures { result ≡ passes_right self.from self.to column }
    {
        let from = usize::from(self.from);
        let to = usize::from(self.to);
        (from <= column && column < to) || (to <= column && column < from)
    }

    // The line of an arrow, or its head.
    fn arrow_sign(self, head: u8, column: usize) -> u8
        ensures { result ≡ arrow_sign head self.to column }
    {
        if column == usize::from(self.to) {
            head
        } else {
            b'-'
        }
    }

    // The rule beside a turn that closes an interval.
    fn rule_sign(self, column: usize) -> u8
        ensures { result ≡ rule_sign self column }
    {
        if column == usize::from(self.column) && self.closes {
            b'-'
        } else {
            b' '
        }
    }

    fn left_sign(self, column: usize) -> u8
        ensures { result ≡ left_sign self column }
    {
        if self.passes_left(column) {
            self.arrow_sign(b'>', column)
        } else {
            self.rule_sign(column)
        }
    }

    fn middle_sign(self, column: usize) -> u8
        ensures { result ≡ middle_sign self column }
    {
        if column == usize::from(self.column) {
            sign_of(self.kind)
        } else if column == usize::from(self.from) {
            b'+'
        } else {
            b'|'
        }
    }

    fn right_sign(self, column: usize) -> u8
        ensures { result ≡ right_sign self column }
    {
        if self.passes_right(column) {
            self.arrow_sign(b'<', column)
        } else {
            self.rule_sign(column)
        }
    }

    fn between_sign(self, column: usize) -> u8
        ensures { result ≡ between_sign self column }
    {
        if self.passes_right(column) {
            b'-'
        } else {
            b' '
        }
    }
}

/// Adds a character so many times.
pub(crate) fn push_times(text: &mut Vec<u8>, sign: u8, times: usize) -> Result<(), AllocError>
    ensures { OnOk result (text.new.items ≡ text.old.items ++ replicate times sign) }
{
    for _time in 0..times {
        text.push(sign)?;
    }
    Ok(())
}

fn push_bar(text: &mut Vec<u8>, width: usize) -> Result<(), AllocError>
    ensures { OnOk result (text.new.items ≡ text.old.items ++ bar width) }
{
    text.extend_from_slice(b" |")?;
    push_times(text, b' ', width.saturating_sub(2))
}

// Adds columns in which nothing is shown.
fn push_bars(text: &mut Vec<u8>, width: usize, columns: usize) -> Result<(), AllocError>
    ensures { OnOk result (text.new.items ≡ text.old.items ++ bars width columns) }
{
    for _column in 0..columns {
        push_bar(text, width)?;
    }
    Ok(())
}

fn push_cell(
    text: &mut Vec<u8>,
    width: usize,
    shape: Shape,
    column: usize,
) -> Result<(), AllocError>
    ensures { OnOk result (text.new.items ≡ text.old.items ++ cell width shape column) }
{
    text.push(shape.left_sign(column))?;
    text.push(shape.middle_sign(column))?;
    text.push(shape.right_sign(column))?;
    push_times(text, shape.between_sign(column), width.saturating_sub(3))
}

// Adds what a row shows in its columns.
fn push_cells(
    text: &mut Vec<u8>,
    width: usize,
    columns: usize,
    shape: Shape,
) -> Result<(), AllocError>
    ensures { OnOk result (text.new.items ≡ text.old.items ++ cells width columns shape) }
{
    for column in 0..columns {
        push_cell(text, width, shape, column)?;
    }
    Ok(())
}

// Adds a number in four columns, or in as many as it needs, and two blanks.
fn push_place(alloc: Global, text: &mut Vec<u8>, number: usize) -> Result<(), AllocError>
    ensures { OnOk result (text.new.items ≡ text.old.items ++ number_text number) }
{
    let mut digits = Vec::new(alloc);
    push_number(&mut digits, b"", number as u64)?;
    push_times(text, b' ', 4usize.saturating_sub(digits.len()))?;
    text.extend_from_slice(&digits)?;
    text.extend_from_slice(b"  ")
}

/// Returns the margin of a row's first line: what precedes its words.
pub(crate) fn row_margin(
    alloc: Global,
    columns: usize,
    number: usize,
    shape: Shape,
) -> Result<Vec<u8>, AllocError>
    ensures { IfOk result (λ margin. margin.items ≡ row_margin columns number shape) }
{
    let mut margin = Vec::new(alloc);
    push_place(alloc, &mut margin, number)?;
    push_cells(&mut margin, width_of(columns), columns, shape)?;
    margin.extend_from_slice(b" ")?;
    Ok(margin)
}

/// Returns the margin of each further line of a row.
pub(crate) fn bars_margin(alloc: Global, columns: usize) -> Result<Vec<u8>, AllocError>
    ensures { IfOk result (λ margin. margin.items ≡ bars_margin columns) }
{
    name_margin(alloc, columns, columns)
}

/// Returns the margin before the name of a column.
pub(crate) fn name_margin(
    alloc: Global,
    columns: usize,
    column: usize,
) -> Result<Vec<u8>, AllocError>
    ensures { IfOk result (λ margin. margin.items ≡ name_margin columns column) }
{
    let mut margin = Vec::new(alloc);
    margin.extend_from_slice(b"      ")?;
    push_bars(&mut margin, width_of(columns), column)?;
    margin.extend_from_slice(b" ")?;
    Ok(margin)
}

// Adds a rule across all columns.
fn push_rules(text: &mut Vec<u8>, columns: usize) -> Result<(), AllocError>
    ensures { OnOk result (text.new.items
        ≡ text.old.items ++ flat_map (λ column. replicate (width_of columns) 61)
        (range_with_len 0 columns)) }
{
    for _column in 0..columns {
        push_times(text, b'=', width_of(columns))?;
    }
    Ok(())
}

/// Returns the margin before the name of a barrier.
pub(crate) fn band_margin(alloc: Global, columns: usize) -> Result<Vec<u8>, AllocError>
    ensures { IfOk result (λ margin. margin.items ≡ band_margin columns) }
{
    let mut margin = Vec::new(alloc);
    margin.extend_from_slice(b"      ")?;
    push_rules(&mut margin, columns)?;
    margin.extend_from_slice(b" ")?;
    Ok(margin)
}
