//! The words for what may stand at a place in a named program: how kinds of tokens are called, and the line that lists
//! them, with groups of kinds such as `a statement`.
#![tactic(auto)]

mod expected;
pub mod kind;

pub use expected::{
    comparison_kinds, declaration_kinds, operand_kinds, operator_kinds, push_expected,
    statement_kinds,
};
