// Flat code: instructions that name their successors.

ghost use Rattle.std.specs.Prelude.{◌≡◌, ◌+◌, ◌≤◌, [], ◌∷◌, ◌++◌, length, IfOk};
ghost use Rattle.lrc_exec.specs.Meaning.{chosen};

use crate::emit::put_block;
use lrc_program::{Program, Statement};
use std::alloc::{AllocError, Global};
use std::marker::Model;

/// One instruction of flat code: a statement of the program, and the places where a thread may continue. A place is the
/// number of an instruction, counted from 1 in the order of the code. Place 0 is the end of the text.
#[derive(Clone, Copy)]
pub struct Instruction<'p> {
    /// The statement that begins here.
    pub statement: &'p Statement,
    /// The place after the statement.
    pub next: usize,
    /// The place to which a true condition leads. For a statement without a condition it is the place after it.
    pub then: usize,
    /// The place to which a false condition leads.
    pub otherwise: usize,
}

impl Instruction<'_> {
    /// Returns the place to which a condition with this value leads.
    pub fn chosen(&self, value: u64) -> usize
        ensures { result ≡ chosen value self.now.then self.now.otherwise }
    {
        if value == 0 {
            self.otherwise
        } else {
            self.then
        }
    }
}

/// The flat code of a program, which it borrows. In a contract its value is that program.
#[derive(Drop)]
pub struct Code<'p> {
    program: &'p Program,
    instructions: Vec<Instruction<'p>>,
    start: usize,
}

impl<'p> Model for Code<'p> {
    ghost use Rattle.lrc_program.specs.declared.Program.{Program};
    ghost use Rattle.lrc_program.specs.contracts.Statement as statement;
    ghost use Rattle.std.specs.Coded.{codes};

    ghost Value = { Program };

    ghost coded = { Prim.hlevel (codes, statement.the_row.coded) };

    ghost use Rattle.lrc_exec.specs.Flat.{IsCodeOf};

    ghost view = { λ c. c.program.now };

    ghost invariant = { λ c. IsCodeOf c.instructions.items c.start c.program.now.statements.items };
}

impl<'p> Code<'p> {
    ghost use Rattle.lrc_exec.specs.Flat.{IsCodeOf};

    /// Translates a program to flat code. It fails only if memory runs out.
    pub fn new(alloc: Global, program: &'p Program) -> Result<Code<'p>, AllocError>
        ensures { IfOk result (λ code. code ≡ program.now) }
    {
        let mut instructions = Vec::new(alloc);
        let start = put_block(&mut instructions, &program.statements, 0)?;
        Ok(Code {
            program,
            instructions,
            start,
        })
    }

    /// Returns the number of words of the shared memory, 1 to 65,536.
    pub fn words(&self) -> u32
        ensures { result ≡ self.now.words }
    {
        self.program.words()
    }

    /// Returns the number of locks, 0 to 64.
    pub fn locks(&self) -> u8
        ensures { result ≡ self.now.locks }
    {
        self.program.locks()
    }

    /// Returns the program.
    pub fn program(&self) -> &'p Program
        ensures { result.now ≡ self.now }
    {
        self.program
    }

    /// Returns the instructions, and the place where the text begins.
    pub fn parts(&self) -> (&[Instruction<'p>], usize)
        ensures { IsCodeOf result.0.now result.1 self.now.statements.items }
    {
        (&self.instructions, self.start)
    }
}
