// Numbers in words: added to a text, and read from digits.

ghost use Rattle.std.specs.Prelude.{◌≡◌, ◌≤◌, ◌++◌, ℕ, MatchOption, OnErr, OnOk, decimal};
ghost use Rattle.lrc_text.specs.Digits.{IsNumber};
ghost use Rattle.lrc_text.specs.Front.{BeginsWith};

use itoa::Buffer;
use std::alloc::AllocError;

/// Adds a word to a text, then a number in decimal digits. It fails if memory runs out. The text then keeps what it
/// had, perhaps with some of the new characters behind it.
pub fn push_number(text: &mut Vec<u8>, word: &[u8], number: u64) -> Result<(), AllocError>
    ensures ok { OnOk result (text.new.items ≡ text.old.items ++ word.now ++ decimal number) }
    ensures err { OnErr result (BeginsWith text.new.items text.old.items) }
{
    let mut digits = Buffer::new();
    text.extend_from_slice(word)?;
    text.extend_from_slice(digits.format(number).as_bytes())
}

/// The same of a number of up to 128 bits.
pub fn push_wide_number(text: &mut Vec<u8>, word: &[u8], number: u128) -> Result<(), AllocError>
    ensures ok { OnOk result (text.new.items ≡ text.old.items ++ word.now ++ decimal number) }
    ensures err { OnErr result (BeginsWith text.new.items text.old.items) }
{
    let mut digits = Buffer::new();
    text.extend_from_slice(word)?;
    text.extend_from_slice(digits.format(number).as_bytes())
}

#[tactic(auto, using(crate::proofs::Numbers::no_greater, crate::proofs::Numbers::too_great, crate::proofs::Numbers::no_number))]
/// Returns the number that decimal digits write; leading zeros are allowed. Returns none if there is no digit, if a
/// character is not a digit, or if the number is greater than `greatest`.
pub fn read_number(digits: &[u8], greatest: u64) -> Option<u64>
    ensures { MatchOption result ((number : ℕ) → ¬ IsNumber digits.now greatest number)
        (λ number. IsNumber digits.now greatest number) }
{
    let number = value_of(digits)?;
    if number <= greatest {
        Some(number)
    } else {
        None
    }
}

// The number that decimal digits write, where it has at most 64 bits.
fn value_of(digits: &[u8]) -> Option<u64>
    ensures { MatchOption result ((number : ℕ) → ¬ IsNumber digits.now 18446744073709551615 number)
        (λ number. IsNumber digits.now 18446744073709551615 number) }
{
    if digits.is_empty() {
        return None;
    }
    let mut number = 0u64;
    for digit in digits {
        if !digit.is_ascii_digit() {
            return None;
        }
        number = number
            .checked_mul(10)?
            .checked_add(u64::from(digit - b'0'))?;
    }
    Some(number)
}
