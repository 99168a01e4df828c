// The making of flat code.

ghost use Rattle.std.specs.Prelude.{◌≡◌, ◌+◌, ◌≤◌, [], ◌∷◌, ◌++◌, length, IfOk};
ghost use Rattle.lrc_exec.specs.Flat.{IsPut};

use crate::code::Instruction;
use lrc_program::Statement;
use std::alloc::AllocError;

// One more instruction: its place.
fn put<'p>(
    code: &mut Vec<Instruction<'p>>,
    instruction: Instruction<'p>,
) -> Result<usize, AllocError>
    ensures place { IfOk result (λ place. place ≡ length code.new.items) }
    ensures items { IfOk result (λ place. code.new.items
        ≡ code.old.items ++ instruction.entry ∷ []) }
{
    code.push(instruction)?;
    Ok(code.len())
}

// The instructions of a block, after which a thread goes on at `next`: the place of its beginning. The last statement
// comes first, so that the place after a statement is known when its instruction is made.
#[cycle(emit)]
pub(crate) fn put_block<'p>(
    code: &mut Vec<Instruction<'p>>,
    statements: &'p [Statement],
    next: usize,
) -> Result<usize, AllocError>
    requires { next ≤ length code.old.items }
    ensures { IfOk result (λ place. IsPut code.old.items code.new.items statements.now next place) }
{
    let mut place = next;
    for i in (0..statements.len()).rev() {
        place = put_statement(code, &statements[i], place)?;
    }
    Ok(place)
}

// The instructions of a statement, after which a thread goes on at `next`: the place of its beginning. The body of a
// loop leads back to the loop's own place, so that one is made first.
#[cycle(emit)]
fn put_statement<'p>(
    code: &mut Vec<Instruction<'p>>,
    statement: &'p Statement,
    next: usize,
) -> Result<usize, AllocError>
    requires { next ≤ length code.old.items }
    ensures { IfOk result (λ place. IsPut code.old.items code.new.items
        (statement.now ∷ []) next place) }
{
    match statement {
        Statement::If(_, first, second) => {
            let then = put_block(code, first, next)?;
            let otherwise = put_block(code, second, next)?;
            put(
                code,
                Instruction {
                    statement,
                    next,
                    then,
                    otherwise,
                },
            )
        }
        Statement::While(_, body) => {
            let place = put(code, straight(statement, next))?;
            let then = put_block(code, body, place)?;
            code[place - 1].then = then;
            Ok(place)
        }
        _ => put(code, straight(statement, next)),
    }
}

// An instruction that leads to one place alone.
fn straight(statement: &Statement, next: usize) -> Instruction<'_>
    ensures { result
        ≡ record { statement = statement.entry; next = next; then = next; otherwise = next } }
{
    Instruction {
        statement,
        next,
        then: next,
        otherwise: next,
    }
}
