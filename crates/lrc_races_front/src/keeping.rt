// What is kept of the lines of a trace, one after another.
ghost use Rattle.std.specs.Prelude.{ℕ, List, IfErr, OnOk};
ghost use Rattle.lrc_races_text.specs.declared.asked.Sought.{Sought};
ghost use Rattle.lrc_races_text.specs.declared.form.Form.{Form as AnyForm};
ghost use Rattle.lrc_races_front.specs.Front.{HasTaken, IsBadLine};

use lrc_races_text::fault::Fault;
use lrc_races_text::form::Form;

/// What is kept of the lines of a trace.
pub trait Keep {
    /// That a value is kept of lines of a trace in a form, all of which are good, whatever races are sought.
    ghost has_kept: { Sought → AnyForm → List (List ℕ) → Self → Type 0 };

    /// Takes the next line, which has this number and comes without its line feed. A bad line changes nothing.
    fn take(&mut self, form: Form, line: &[u8], number: u64) -> Result<(), Fault>
        ensures ok { OnOk result (HasTaken has_kept form line.now number self.old self.new) }
        ensures bad { IfErr result (IsBadLine form line.now number self.old self.new) };
}
