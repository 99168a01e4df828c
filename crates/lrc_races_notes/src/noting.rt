// What is kept of the lines of a trace, and what is to be noted of them.
ghost use Rattle.std.specs.Prelude.{[]};
ghost use Rattle.lrc_races_text.specs.declared.asked.Sought.{Sought as AnySought};
ghost use Rattle.lrc_races_text.specs.declared.form.Form.{Form as AnyForm};
ghost use Rattle.lrc_races_notes.specs.Noting.{HasBoth};

use crate::noter::Noter;
use lrc_races_front::keeping::Keep;
use lrc_races_text::fault::Fault;
use lrc_races_text::form::Form;

/// What is kept of the first lines of a trace, and what is to be noted of them.
#[derive(Drop)]
pub struct Noting<K> {
    pub kept: K,
    pub noter: Noter,
}

impl<K: Keep> Noting<K> {
    /// Notes nothing yet, where `kept` is kept of no line.
    pub fn new(kept: K) -> Noting<K>
        ensures { (sought : AnySought) (form : AnyForm) → K.has_kept sought form [] kept
            → HasBoth K.has_kept sought form [] result }
    {
        Noting {
            kept,
            noter: Noter::new(),
        }
    }
}

impl<K: Keep> Keep for Noting<K> {
    ghost has_kept = { HasBoth K.has_kept };

    fn take(&mut self, form: Form, line: &[u8], number: u64) -> Result<(), Fault> {
        match self.kept.take(form, line, number) {
            Ok(()) => {
                self.noter.note(form, line, number);
                Ok(())
            }
            Err(fault) => Err(fault),
        }
    }
}
