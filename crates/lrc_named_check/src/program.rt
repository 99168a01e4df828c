// What the names of a whole named program mean.

ghost use Rattle.std.specs.Prelude.{IfOk};
ghost use Rattle.lrc_named_tree.specs.View.{program_of};
ghost use Rattle.lrc_named_check.specs.Program.{AreNamesFound};

use lrc_named_faults::check;
use lrc_named_faults::layout::Layout;
use lrc_named_faults::values::Found;
use lrc_named_tree::tree::NamedProgram;
use std::alloc::{AllocError, Global};

/// Returns what the names of a named program mean, as its core is made by it, or the first fault of the program. It fails
/// only if memory runs out.
pub fn names_of<'n, 'p>(
    alloc: Global,
    program: &'n NamedProgram<'p>,
) -> Result<Found<Layout<'n, 'p>>, AllocError>
    ensures { IfOk result (λ found. AreNamesFound (program_of program.now) found) }
{
    check(alloc, program)
}
