//! Laws about the answers of `lint`.

ghost use Rattle.std.specs.Prelude.{◌≡◌, ◌⊎◌, ℕ, List};
ghost use Rattle.lrc_lang.specs.declared.fault.FaultKind.{FaultKind};
ghost use Rattle.lrc_lang.specs.Faults.{HasFirstFault};
ghost use Rattle.lrc_lint_fault.specs.Told.{TellsNoProgram};
ghost use Rattle.lrc_lint.specs.Linted.{LintsProgram};

/// A report of a fault is given only for a text that has a first fault, and a list of warnings only for a text that has
/// none.
pub fn faults_and_programs_are_told_apart()
    ensures faults { (file text printed : List ℕ) → TellsNoProgram file text printed
        → (line : ℕ) × (kind : FaultKind) × HasFirstFault text line kind }
    ensures programs { (file text printed : List ℕ) → LintsProgram file text printed
        → (line : ℕ) (kind : FaultKind) → HasFirstFault text line kind → ⊥ }
{}
