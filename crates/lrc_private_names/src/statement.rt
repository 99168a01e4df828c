// Which private names a statement reads and sets.

ghost use Rattle.std.specs.Prelude.{◌≡◌};
ghost use Rattle.lrc_private_names.specs.Statement.{has_name, name_set, reads_name};

use lrc_program::{Expression, Statement};

/// Returns whether the name occurs in an expression.
fn has_name(expression: &Expression, name: u8) -> bool
    ensures { result ≡ has_name name expression.now }
{
    match expression {
        Expression::Private(other) => *other == name,
        Expression::Binary(left, _, right) => has_name(left, name) || has_name(right, name),
        Expression::Number(_) | Expression::Me | Expression::Nodes => false,
    }
}

/// Returns whether a statement reads the name. For `if` and `while` only the condition counts.
pub fn reads_name(statement: &Statement, name: u8) -> bool
    ensures { result ≡ reads_name name statement.now }
{
    match statement {
        Statement::Write(word, value) => has_name(word, name) || has_name(value, name),
        Statement::Assign(_, value) | Statement::Read(_, value) => has_name(value, name),
        Statement::Acquire(value) | Statement::Release(value) | Statement::Print(value) => {
            has_name(value, name)
        }
        Statement::If(condition, ..) | Statement::While(condition, _) => has_name(condition, name),
        Statement::Barrier => false,
    }
}

/// Returns the name that a statement sets, if it is an assignment or a shared read.
pub(crate) fn name_set(statement: &Statement) -> Option<u8>
    ensures { result ≡ name_set statement.now }
{
    match statement {
        Statement::Assign(name, _) | Statement::Read(name, _) => Some(*name),
        _ => None,
    }
}
