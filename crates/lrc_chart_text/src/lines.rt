// Phrases in lines.

ghost use Rattle.std.specs.Prelude.{◌≡◌, ◌<◌, ◌≤◌, ◌++◌, IfOk, List, OnOk, codes, if◌then◌else◌, length, ℕ};
ghost use Rattle.lrc_text.specs.Parts.{texts_of};
ghost use Rattle.lrc_chart_text.specs.Lines.{gap, headed, lines_text, paragraph, pieces_of, plain_sign, plain_signs};
ghost use Rattle.lrc_chart_text.specs.Written.{piece_joins, piece_text, used_behind, written};

use std::alloc::AllocError;

// A sign as a terminal shows it.
fn plain_sign(sign: u8) -> u8
    ensures { result ≡ plain_sign sign }
{
    match sign {
        b' '..=b'~' => sign,
        _ => b'?',
    }
}

fn push_plain(text: &mut Vec<u8>, words: &[u8]) -> Result<(), AllocError>
    ensures { OnOk result (text.new.items ≡ text.old.items ++ plain_signs words.now) }
{
    for sign in words {
        text.push(plain_sign(*sign))?;
    }
    Ok(())
}

// What stands between a line of so many signs and the piece that joins it.
fn gap_of(used: usize) -> &'static [u8]
    ensures is { result.now ≡ gap used }
    ensures short { length (gap used) ≤ 2 }
{
    if used == 0 { b"" } else { b"  " }
}

// Whether a piece of so many signs joins a line of so many.
fn piece_joins(room: usize, used: usize, size: usize) -> bool
    requires small { room < 1000 }
    requires used { used ≤ room }
    requires size { size ≤ room }
    ensures { result ≡ piece_joins room used size }
{
    used + gap_of(used).len() + size <= room
}

// How many signs a line has then.
fn used_behind(room: usize, used: usize, size: usize) -> usize
    requires small { room < 1000 }
    requires used { used ≤ room }
    requires size { size ≤ room }
    ensures is { result ≡ used_behind room used size }
    ensures short { result ≤ room }
{
    if piece_joins(room, used, size) {
        used + gap_of(used).len() + size
    } else {
        size
    }
}

// Adds what stands before a piece: a gap, or the margin of a line of its own.
fn push_break(text: &mut Vec<u8>, margin: &[u8], used: usize, joins: bool) -> Result<(), AllocError>
    ensures { OnOk result (text.new.items
        ≡ text.old.items ++ (if joins then gap used else codes "\n" ++ margin.now)) }
{
    if joins {
        text.extend_from_slice(gap_of(used))
    } else {
        text.extend_from_slice(b"\n")?;
        text.extend_from_slice(margin)
    }
}

// Adds a piece to a line of so many signs, or begins a line with it, and says how many signs the line has then.
fn push_piece(
    text: &mut Vec<u8>,
    margin: &[u8],
    room: usize,
    used: usize,
    piece: &[u8],
) -> Result<usize, AllocError>
    requires small { room < 1000 }
    requires used { used ≤ room }
    requires size { length piece.now ≤ room }
    ensures text { OnOk result (text.new.items
        ≡ text.old.items ++ piece_text room (codes "\n" ++ margin.now) used
        (plain_signs piece.now)) }
    ensures used { IfOk result (λ now. now ≡ used_behind room used (length piece.now)) }
    ensures short { IfOk result (λ now. now ≤ room) }
{
    push_break(text, margin, used, piece_joins(room, used, piece.len()))?;
    push_plain(text, piece)?;
    Ok(used_behind(room, used, piece.len()))
}

// Adds a phrase, in pieces of a line's room, and says how many signs the line has then.
fn push_phrase(
    text: &mut Vec<u8>,
    margin: &[u8],
    room: usize,
    used: usize,
    phrase: &[u8],
) -> Result<usize, AllocError>
    requires small { room < 1000 }
    requires some { 0 < room }
    requires used { used ≤ room }
    ensures text { IfOk result (λ now. (more : List (List ℕ))
        → text.new.items ++ written room (codes "\n" ++ margin.now) now more
        ≡ text.old.items ++ written room (codes "\n" ++ margin.now) used
        (pieces_of room phrase.now ++ more)) }
    ensures short { IfOk result (λ now. now ≤ room) }
{
    let mut now = used;
    for piece in phrase.chunks(room) {
        now = push_piece(text, margin, room, now, piece)?;
    }
    Ok(now)
}

fn push_end(text: &mut Vec<u8>) -> Result<(), AllocError>
    ensures { OnOk result (text.new.items ≡ text.old.items ++ codes "\n") }
{
    text.extend_from_slice(b"\n")
}

/// Adds phrases in lines of this width. The first line has one margin, and the others have another.
pub(crate) fn push_paragraph(
    text: &mut Vec<u8>,
    first: &[u8],
    rest: &[u8],
    room: usize,
    phrases: &[Vec<u8>],
) -> Result<(), AllocError>
    requires small { room < 1000 }
    requires some { 0 < room }
    ensures { OnOk result (text.new.items
        ≡ text.old.items ++ lines_text
        (headed first.now rest.now (paragraph room (texts_of phrases.now)))) }
{
    text.extend_from_slice(first)?;
    let mut used = 0;
    for phrase in phrases {
        used = push_phrase(text, rest, room, used, phrase.as_slice())?;
    }
    push_end(text)
}
