// What operators give of values in ranges.

ghost use Rattle.std.specs.Prelude.{◌≡◌, ◌<◌, ◌≤◌, ◌+◌, ◌-◌, ◌*◌, ◌/◌, ◌%◌, ◌^◌, ℕ, Some, not, nat_eq, nat_lt, nat_le, Bool};
ghost use Rattle.lrc_exec.specs.Meaning.{operated, one_if};
ghost use Rattle.lrc_ranges.specs.Ranges.{IsIn};

use crate::range::Range;
use lrc_program::Operator;

/// Returns a range that has what the operator gives of each value of the one range and each value of the other.
pub fn applied(operator: Operator, x: Range, y: Range) -> Range
    ensures { (a b value : ℕ) → IsIn x a → IsIn y b → operated operator a b ≡ Some value
        → IsIn result value }
{
    match operator {
        Operator::Add => sum(x, y),
        Operator::Subtract => difference(x, y),
        Operator::Multiply => product(x, y),
        Operator::Divide => quotient(x, y),
        Operator::Remainder => remainder(x, y),
        Operator::Equal => equal(x, y),
        Operator::NotEqual => opposite(equal(x, y)),
        Operator::Less => less(x, y),
        Operator::LessOrEqual => at_most(x, y),
        Operator::Greater => less(y, x),
        Operator::GreaterOrEqual => at_most(y, x),
    }
}

// The sums, if none of them wraps.
fn sum(x: Range, y: Range) -> Range
    ensures { (a b : ℕ) → IsIn x a → IsIn y b → IsIn result ((a + b) % 2 ^ 64) }
{
    if !x.is_bounded() || !y.is_bounded() {
        return Range::any();
    }
    match x.greatest.checked_add(y.greatest) {
        Some(greatest) => Range {
            least: x.least.saturating_add(y.least),
            greatest,
        },
        None => Range::any(),
    }
}

// The differences, if none of them wraps.
fn difference(x: Range, y: Range) -> Range
    ensures { (a b : ℕ) → IsIn x a → IsIn y b → IsIn result ((a + (2 ^ 64 - b)) % 2 ^ 64) }
{
    if !x.is_bounded() || !y.is_bounded() || x.least < y.greatest {
        return Range::any();
    }
    Range {
        least: x.least - y.greatest,
        greatest: x.greatest.saturating_sub(y.least),
    }
}

// The products, if none of them wraps.
fn product(x: Range, y: Range) -> Range
    ensures { (a b : ℕ) → IsIn x a → IsIn y b → IsIn result ((a * b) % 2 ^ 64) }
{
    if !x.is_bounded() || !y.is_bounded() {
        return Range::any();
    }
    match x.greatest.checked_mul(y.greatest) {
        Some(greatest) => Range {
            least: x.least.saturating_mul(y.least),
            greatest,
        },
        None => Range::any(),
    }
}

// The quotients.
fn quotient(x: Range, y: Range) -> Range
    ensures { (a b : ℕ) → IsIn x a → IsIn y b → 0 < b → IsIn result (a / b) }
{
    Range {
        least: least_quotient(x, y),
        greatest: greatest_quotient(x, y),
    }
}

// No quotient is less.
#[tactic(auto, using(crate::proofs::Quotients::quotients))]
fn least_quotient(x: Range, y: Range) -> u64
    ensures { (a b : ℕ) → IsIn x a → IsIn y b → 0 < b → result ≤ a / b }
{
    if y.greatest < u64::MAX && 0 < y.greatest {
        return x.least / y.greatest;
    }
    0
}

// No quotient is greater, if this is a bound.
#[tactic(auto, using(crate::proofs::Quotients::quotients))]
fn greatest_quotient(x: Range, y: Range) -> u64
    ensures { (a b : ℕ) → IsIn x a → IsIn y b → 0 < b → result < 2 ^ 64 - 1 → a / b ≤ result }
{
    if x.greatest < u64::MAX {
        return x.greatest / y.least.max(1);
    }
    u64::MAX
}

// The remainders.
fn remainder(x: Range, y: Range) -> Range
    ensures { (a b : ℕ) → IsIn x a → IsIn y b → 0 < b → IsIn result (a % b) }
{
    if x.is_bounded() && x.greatest < y.least {
        return x;
    }
    let greatest = if y.is_bounded() {
        x.greatest.min(y.greatest.saturating_sub(1))
    } else {
        x.greatest
    };
    Range { least: 0, greatest }
}

// Whether values of the two ranges are equal: 1 or 0, or both.
fn equal(x: Range, y: Range) -> Range
    ensures { (a b : ℕ) → IsIn x a → IsIn y b → IsIn result (one_if (nat_eq a b)) }
{
    if x.greatest < y.least || y.greatest < x.least {
        return Range::only(0);
    }
    if x.is_bounded() && y.is_bounded() && x.greatest <= y.least && y.greatest <= x.least {
        return Range::only(1);
    }
    truths()
}

// Whether values of the one range are less than those of the other: 1 or 0, or both.
fn less(x: Range, y: Range) -> Range
    ensures { (a b : ℕ) → IsIn x a → IsIn y b → IsIn result (one_if (nat_lt a b)) }
{
    if x.greatest < y.least {
        return Range::only(1);
    }
    if y.is_bounded() && y.greatest <= x.least {
        return Range::only(0);
    }
    truths()
}

// Whether values of the one range are at most those of the other: 1 or 0, or both.
fn at_most(x: Range, y: Range) -> Range
    ensures { (a b : ℕ) → IsIn x a → IsIn y b → IsIn result (one_if (nat_le a b)) }
{
    if x.is_bounded() && x.greatest <= y.least {
        return Range::only(1);
    }
    if y.is_bounded() && y.greatest < x.least {
        return Range::only(0);
    }
    truths()
}

// Both values that a comparison can give.
fn truths() -> Range
    ensures { (holds : Bool) → IsIn result (one_if holds) }
{
    Range {
        least: 0,
        greatest: 1,
    }
}

// The truths of the opposite of a comparison.
fn opposite(truths: Range) -> Range
    ensures { (holds : Bool) → IsIn truths (one_if holds) → IsIn result (one_if (not holds)) }
{
    Range {
        least: if truths.greatest == 0 { 1 } else { 0 },
        greatest: if truths.least == 0 { 1 } else { 0 },
    }
}
