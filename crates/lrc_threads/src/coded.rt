// Flat code that threads share.

ghost use Rattle.std.specs.Prelude.{◌≡◌};
ghost use Rattle.lrc_program.specs.declared.Program.{Program as AnyProgram};

use lrc_exec::code::Code;

/// A value that holds the flat code of a program. Threads borrow it as a value of a type parameter, because the
/// toolchain gives no clause about a scope whose closure has a type that names a lifetime, as the type of a code does.
pub trait Coded {
    /// The program of this code.
    ghost program_of: { Self → AnyProgram };

    /// Returns the flat code.
    fn code(&self) -> &Code<'_>
        ensures { result.now ≡ program_of self.now };
}

impl<'p> Coded for Code<'p> {
    ghost program_of = { λ code. code };

    fn code(&self) -> &Code<'_> {
        self
    }
}
