// Words that blanks part.

ghost use Rattle.std.specs.Prelude.{◌≡◌, ◌==◌, ◌≤◌, MatchOption, [], ◌∷◌, length, not};
ghost use Rattle.std.specs.List.{before_first, position_or_len};
ghost use Rattle.lrc_acts.specs.ActsText.{is_blank, words_between};

fn is_blank(byte: u8) -> bool
    ensures { result ≡ is_blank byte }
{
    byte == b' ' || (byte == b'\t' || byte == b'\r')
}

/// Returns what comes before the sign # that begins a comment.
pub fn before_comment(line: &[u8]) -> &[u8]
    ensures { result.now ≡ before_first (λ byte. byte == 35) line.now }
{
    &line[..place_of_comment(line)]
}

fn place_of_comment(text: &[u8]) -> usize
    ensures place { result ≡ position_or_len (λ byte. byte == 35) text.now }
    ensures bound { result ≤ length text.now }
{
    text.iter()
        .position(|byte| *byte == b'#')
        .unwrap_or(text.len())
}

/// Returns the first word of a text, and what follows it, or none if there is no word.
pub fn first_word(text: &[u8]) -> Option<(&[u8], &[u8])>
    ensures { MatchOption result (words_between text.now ≡ [])
        (λ parts. words_between text.now ≡ parts.0.now ∷ words_between parts.1.now) }
{
    let (_blanks, rest) = text.split_at(place_of_word(text));
    if rest.is_empty() {
        return None;
    }
    Some(rest.split_at(place_of_blank(rest)))
}

fn place_of_word(text: &[u8]) -> usize
    ensures place { result ≡ position_or_len (λ byte. not (is_blank byte)) text.now }
    ensures bound { result ≤ length text.now }
{
    text.iter()
        .position(|byte| !is_blank(*byte))
        .unwrap_or(text.len())
}

fn place_of_blank(text: &[u8]) -> usize
    ensures place { result ≡ position_or_len is_blank text.now }
    ensures bound { result ≤ length text.now }
{
    text.iter()
        .position(|byte| is_blank(*byte))
        .unwrap_or(text.len())
}
