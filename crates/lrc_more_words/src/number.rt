//! The options of the command line whose numbers have ranges, and which of them is out of its range.

ghost use Rattle.std.specs.Prelude.{◌≡◌, map, option_map};
ghost use Rattle.lrc_more_words.specs.Number.{assigned_of, behind, greatest_of, is_misfit, is_out, least_of, misfit, number_out, only_if, option_of, step, text_at, value_given, value_of};

use std::convert::AsStr;

/// An option whose number has a range.
#[derive(Clone, Copy)]
pub enum Numbered {
    /// How many nodes there are.
    Nodes,
    /// How many statements each node may begin.
    Steps,
    /// From how many stored intervals on a node asks for a collection.
    Collect,
    /// How many states a search may meet.
    Most,
    /// Which outcome is shown.
    Outcome,
    /// How many runs are played at random.
    Tries,
}

impl Numbered {
    /// Returns the option as the words name it.
    pub fn option(self) -> &'static [u8]
        ensures { result.now ≡ option_of self }
    {
        match self {
            Numbered::Nodes => b"--nodes",
            Numbered::Steps => b"--steps",
            Numbered::Collect => b"--collect",
            Numbered::Most => b"--most",
            Numbered::Outcome => b"--outcome",
            Numbered::Tries => b"--tries",
        }
    }

    // The same with the sign that stands before a number in the same word.
    fn assigned(self) -> &'static [u8]
        ensures { result.now ≡ assigned_of self }
    {
        match self {
            Numbered::Nodes => b"--nodes=",
            Numbered::Steps => b"--steps=",
            Numbered::Collect => b"--collect=",
            Numbered::Most => b"--most=",
            Numbered::Outcome => b"--outcome=",
            Numbered::Tries => b"--tries=",
        }
    }

    /// Returns the least number that the option takes.
    pub fn least(self) -> u64
        ensures { result ≡ least_of self }
    {
        match self {
            Numbered::Collect => 0,
            _ => 1,
        }
    }

    /// Returns the greatest number that the option takes.
    pub fn greatest(self) -> u64
        ensures { result ≡ greatest_of self }
    {
        match self {
            Numbered::Nodes => 16,
            Numbered::Steps => 1_000_000,
            Numbered::Collect => 1_000_000,
            Numbered::Most => 100_000_000,
            Numbered::Outcome => u64::MAX,
            Numbered::Tries => 1_000_000,
        }
    }

    // Whether a number is not in the range of the option.
    fn is_out(self, number: u64) -> bool
        ensures { result ≡ is_out self number }
    {
        number < self.least() || self.greatest() < number
    }

    // Whether a word, with the next one, gives the option a number that is out of its range.
    fn is_misfit(self, word: &[u8], next: Option<&[u8]>) -> bool
        ensures { result ≡ is_misfit self word.now (option_map (λ next. next.now) next.entry) }
    {
        match self.value_given(word, next) {
            Some(value) => self.is_out(value_of(value)),
            None => false,
        }
    }

    // What a word, with the next one, gives the option.
    fn value_given<'w>(self, word: &'w [u8], next: Option<&'w [u8]>) -> Option<&'w [u8]>
        ensures { option_map (λ value. value.now) result
            ≡ value_given self word.now (option_map (λ next. next.now) next.entry) }
    {
        if word == self.option() {
            next
        } else {
            behind(word, self.assigned())
        }
    }

    fn only_if(self, applies: bool) -> Option<Numbered>
        ensures { result ≡ only_if applies self }
    {
        if applies { Some(self) } else { None }
    }

    // The option where the word gives it a number that is out of its range.
    fn misfit_in(self, word: &[u8], next: Option<&[u8]>) -> Option<Numbered>
        ensures { result ≡ only_if
            (is_misfit self word.now (option_map (λ next. next.now) next.entry)) self }
    {
        self.only_if(self.is_misfit(word, next))
    }
}

// What stands in a word behind this front.
fn behind<'w>(word: &'w [u8], front: &[u8]) -> Option<&'w [u8]>
    ensures { option_map (λ rest. rest.now) result ≡ behind word.now front.now }
{
    word.strip_prefix(front)
}

// The number that digits write, or the greatest one where it is greater. A sign before them counts for nothing.
fn value_of(digits: &[u8]) -> u64
    ensures { result ≡ value_of digits.now }
{
    let mut value = 0;
    for digit in digits {
        value = step(value, *digit);
    }
    value
}

// The number with a digit more behind it.
fn step(value: u64, digit: u8) -> u64
    ensures { result ≡ step value digit }
{
    value
        .saturating_mul(10)
        .saturating_add(u64::from(digit.saturating_sub(b'0')))
}

// The option that a word, with the next one, gives a number out of its range.
fn misfit(word: &[u8], next: Option<&[u8]>) -> Option<Numbered>
    ensures { result ≡ misfit word.now (option_map (λ next. next.now) next.entry) }
{
    Numbered::Nodes
        .misfit_in(word, next)
        .or(Numbered::Steps.misfit_in(word, next))
        .or(Numbered::Collect.misfit_in(word, next))
        .or(Numbered::Most.misfit_in(word, next))
        .or(Numbered::Outcome.misfit_in(word, next))
        .or(Numbered::Tries.misfit_in(word, next))
}

/// Returns the option that these words first give a number out of its range. Behind a word `--` there are no options.
pub fn number_out<S: AsStr>(words: &[S]) -> Option<Numbered>
    ensures { result ≡ number_out (map S.text words.now) }
{
    let mut left = words;
    while let Some((word, others)) = left.split_first() {
        let word = word.as_str().as_bytes();
        if word == b"--".as_slice() {
            return None;
        }
        let found = misfit(word, text_at(others));
        if found.is_some() {
            return found;
        }
        left = others;
    }
    None
}

// The first of these words.
fn text_at<S: AsStr>(words: &[S]) -> Option<&[u8]>
    ensures { option_map (λ word. word.now) result ≡ text_at (map S.text words.now) }
{
    match words.split_first() {
        Some((word, _others)) => Some(word.as_str().as_bytes()),
        None => None,
    }
}
