// The first fault of a whole named program, or what it declares.

ghost use Rattle.std.specs.Prelude.{IfOk, map};
ghost use Rattle.lrc_named_tree.specs.View.{declaration_of, program_of};
ghost use Rattle.lrc_named_faults.specs.Checked.{AreDeclarationsTaken, IsChecked};
ghost use Rattle.lrc_named_faults.specs.Layout.{IsLaidOut};

use crate::layout::Layout;
use crate::values::Found;
use lrc_named_expression_faults::fault::Fault;
use lrc_named_statement_faults::first_fault;
use lrc_named_tree::tree::{Declaration, NamedProgram};
use std::alloc::{AllocError, Global};

impl<'n, 'p> Layout<'n, 'p> {
    // Declares what these declare, one behind the other, up to one that has a fault, and returns its first one.
    fn declarations(
        &mut self,
        alloc: Global,
        declarations: &'n [Declaration<'p>],
    ) -> Result<Option<Fault>, AllocError>
        requires { IsLaidOut self.old }
        ensures { IfOk result (λ found. AreDeclarationsTaken self.old self.new
            (map declaration_of declarations.now) found) }
    {
        for declaration in declarations {
            let found = self.declaration(alloc, declaration)?;
            if let Some(fault) = found {
                return Ok(Some(fault));
            }
        }
        Ok(None)
    }
}

/// Returns what a named program declares, where it has no fault, or its first fault. It fails only if memory runs out.
pub fn check<'n, 'p>(
    alloc: Global,
    program: &'n NamedProgram<'p>,
) -> Result<Found<Layout<'n, 'p>>, AllocError>
    ensures { IfOk result (λ found. IsChecked (program_of program.now) found) }
{
    let mut layout = Layout::new(alloc);
    let found = layout.declarations(alloc, &program.declarations)?;
    if let Some(fault) = found {
        return Ok(Found::Bad(fault));
    }
    let inside = first_fault(alloc, &layout.names, &layout.extents, &program.statements)?;
    match inside {
        Some(fault) => Ok(Found::Bad(fault)),
        None => Ok(Found::Good(layout)),
    }
}
