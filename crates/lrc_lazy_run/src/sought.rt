// What is searched.

ghost use Rattle.std.specs.Prelude.{◌≡◌};
ghost use Rattle.lrc_exec.specs.Nodes.{AreNodes};
ghost use Rattle.lrc_lazy_run.specs.Ways.{IsSought};

use lrc_exec::code::Code;
use lrc_exec::spot::Flat;
use lrc_program::Program;

/// The task of a search: a program, its code and the place where the code begins, and the limit on the number of
/// states.
#[derive(Clone, Copy)]
pub struct Sought<'c> {
    pub program: &'c Program,
    pub flat: Flat<'c>,
    pub start: usize,
    pub most: usize,
}

/// Returns the task for a program's code.
pub fn sought_in<'c>(code: &'c Code<'c>, nodes: u8, most: usize) -> Sought<'c>
    requires { AreNodes nodes }
    ensures sought { IsSought result }
    ensures program { result.program.now ≡ code.now }
    ensures nodes { result.flat.nodes ≡ nodes }
    ensures most { result.most ≡ most }
{
    let (flat, start) = Flat::of(code, nodes);
    Sought {
        program: code.program(),
        flat,
        start,
        most,
    }
}
