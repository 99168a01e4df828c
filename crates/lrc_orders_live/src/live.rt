// Which private names are live at each place of flat code.

ghost use Rattle.std.specs.Prelude.{◌≡◌, ◌||◌, ◌&&◌, IfOk, nat_eq, not};
ghost use Rattle.lrc_exec.specs.Flat.{IsSoundFrom};
ghost use Rattle.lrc_orders_laws.specs.Names.{matters, uses};
ghost use Rattle.lrc_orders_live.specs.Live.{AreLive, AreNames, has, matters_among};

use lrc_exec::code::Instruction;
use lrc_program::{Expression, Statement};
use std::alloc::{AllocError, Global};

/// Returns, for each place of the code, the names that matter there: the rest of the code may use their values before
/// it sets them. Places count from 0, the end of the text. It fails if memory runs out.
pub fn live_names(alloc: Global, code: &[Instruction<'_>]) -> Result<Vec<[bool; 32]>, AllocError>
    requires { IsSoundFrom 0 code.now }
    ensures { IfOk result (λ table. AreLive code.now table.items) }
{
    let mut table: Vec<[bool; 32]> = Vec::new(alloc);
    table.push([false; 32])?;
    for instruction in code {
        let mut names = table[instruction.next];
        add_before(instruction.statement, &mut names);
        table.push(names)?;
    }
    Ok(table)
}

// From the names that matter behind a statement to those that matter in front of it.
#[cycle(live)]
fn add_before(statement: &Statement, names: &mut [bool; 32])
    ensures { AreNames names.new (matters statement.now (has names.old)) }
{
    match statement {
        Statement::Assign(name, value) => set_before(*name, value, names),
        Statement::Read(name, word) => set_before(*name, word, names),
        Statement::Write(word, value) => {
            add_used(value, names);
            add_used(word, names);
        }
        Statement::Acquire(lock) => add_used(lock, names),
        Statement::Release(lock) => add_used(lock, names),
        Statement::Print(value) => add_used(value, names),
        Statement::Barrier => {}
        Statement::If(condition, first, second) => {
            let mut other = *names;
            add_before_all(first, names);
            add_before_all(second, &mut other);
            join(names, &other);
            add_used(condition, names);
        }
        Statement::While(condition, body) => {
            let mut inside = [false; 32];
            add_before_all(body, &mut inside);
            join(names, &inside);
            add_used(condition, names);
        }
    }
}

// The same of several statements.
#[cycle(live)]
fn add_before_all(statements: &[Statement], names: &mut [bool; 32])
    ensures { AreNames names.new (matters_among statements.now (has names.old)) }
{
    for place in (0..statements.len()).rev() {
        add_before(&statements[place], names);
    }
}

// In front of a statement that sets a name to what an expression gives.
fn set_before(name: u8, expression: &Expression, names: &mut [bool; 32])
    ensures { AreNames names.new (λ n.
        uses expression.now n || (has names.old n && not (nat_eq name n))) }
{
    if name < 32 {
        names[name as usize] = false;
    }
    add_used(expression, names);
}

// Adds the names that an expression uses.
#[cycle(used)]
fn add_used(expression: &Expression, names: &mut [bool; 32])
    ensures { AreNames names.new (λ name. uses expression.now name || has names.old name) }
{
    match expression {
        Expression::Private(name) => add_name(*name, names),
        Expression::Binary(left, _, right) => {
            add_used(right, names);
            add_used(left, names);
        }
        Expression::Number(_) | Expression::Me | Expression::Nodes => {}
    }
}

// Adds a name.
fn add_name(name: u8, names: &mut [bool; 32])
    ensures { AreNames names.new (λ n. nat_eq name n || has names.old n) }
{
    if name < 32 {
        names[name as usize] = true;
    }
}

// Adds the names of another table.
fn join(names: &mut [bool; 32], more: &[bool; 32])
    ensures { AreNames names.new (λ name. has names.old name || has more.now name) }
{
    for name in 0..32 {
        if more[name] {
            names[name] = true;
        }
    }
}
