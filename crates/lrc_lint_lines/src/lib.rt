//! The words of `lint`: the place of a finding, the line of the text with a caret below it, and the tokens that were
//! expected there.
#![tactic(auto)]

mod excerpt;
mod expected;
mod head;
pub mod kind;

pub use excerpt::push_excerpt;
pub use expected::{
    comparison_kinds, operand_kinds, operator_kinds, push_expected, push_joined, statement_kinds,
};
pub use head::{push_count, push_fault, push_place, push_unexpected, push_unexpected_end};
