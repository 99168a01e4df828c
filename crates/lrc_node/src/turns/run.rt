// How a node goes on by itself.

ghost use Rattle.std.specs.Prelude.{◌≡◌, ◌⊎◌, ◌+◌, ◌<◌, IfErr, IfOk, Some, None, option_map};
ghost use Rattle.lrc_exec.specs.Ask.{ask_of};
ghost use Rattle.lrc_protocol.specs.Traced.{with_act};
ghost use Rattle.lrc_protocol.specs.Turn.{begins, done, is_ready, run_turn};
ghost use Rattle.lrc_trace.specs.Trace.{TraceRecord};
ghost use Rattle.lrc_node.specs.Effects.{after_quiet, begun_node, effect_asked, quiet_turn, turn_asked, CanBegin, RefusesRun};
ghost use Rattle.lrc_node.specs.State.{seen_effect, AreFor};
ghost use Rattle.lrc_control.specs.Text.{asked_in, end_of};
ghost use Rattle.lrc_node.specs.declared.fault.NodeFault.TheVariants.{NoMemory, Worn};

use crate::fault::NodeFault;
use crate::state::NodeState;
use crate::turn::Effect;
use lrc_exec::machine::Ask;
use lrc_log::Turn;
use lrc_page::page_of;
use lrc_trace::act::{Act, Deed};
use lrc_trace::end::End;

impl NodeState<'_> {
    /// Returns whether the node would go on by itself.
    pub(crate) fn is_ready(&self) -> bool
        ensures { result ≡ is_ready self.now }
    {
        self.mail.wait().is_idle() && self.text.is_ready()
    }

    /// Returns how the node ended.
    pub(crate) fn end(&self) -> End
        ensures { result ≡ end_of self.now.course }
    {
        self.text.end()
    }

    /// Returns what the node would begin by itself, or none if it is not ready.
    #[inline(always)]
    pub(crate) fn wish(&self) -> Option<Ask>
        ensures { result ≡ option_map ask_of (begins self.now) }
    {
        if !self.mail.wait().is_idle() {
            return None;
        }
        self.text.begins()
    }

    /// Begins what comes next, and counts the step.
    #[inline(always)]
    pub(crate) fn count(&mut self, ask: Ask)
        requires { option_map ask_of (begins self.old) ≡ Some ask }
        ensures { self.new ≡ begun_node self.old }
    {
        self.text.begin(ask);
    }

    /// Makes a step that only its own thread sees. Most turns are such steps.
    #[inline(always)]
    pub(crate) fn run_quietly(&mut self) -> Turn
        requires { option_map ask_of (begins self.old) ≡ Some Ask.Quiet }
        ensures done { run_turn self.old ≡ done result self.new }
        ensures quiet { (trace : TraceRecord) → with_act self.new result.act trace ≡ trace }
    {
        self.count(Ask::Quiet);
        self.go_on_quietly()
    }

    // Makes a step that only its own thread sees, and that is counted.
    #[inline(always)]
    fn go_on_quietly(&mut self) -> Turn
        requires { asked_in self.old.course ≡ Some Ask.Quiet }
        ensures turn { result ≡ quiet_turn self.old }
        ensures node { self.new ≡ after_quiet self.old }
    {
        self.text.go_on_quietly();
        let act = Act {
            node: self.me,
            deed: Deed::Quiet,
        };
        Turn {
            act: Some(act),
            out: Vec::new(self.alloc),
        }
    }

    /// Goes on by what the node has begun. It fails with `Worn` if a number would be too large.
    pub(crate) fn run_begun(&mut self, ask: Ask) -> Result<Turn, NodeFault>
        requires next { asked_in self.old.course ≡ Some ask }
        requires can { CanBegin self.old ask }
        ensures done { IfOk result (λ turn. turn_asked self.old ask ≡ done turn self.new) }
        ensures refused { IfErr result (RefusesRun (turn_asked self.old ask)) }
    {
        let effect = self.begin(ask)?;
        self.send(effect)
    }

    // Begins what the text asks for. `Worn` where an interval's index would be too large.
    fn begin(&mut self, ask: Ask) -> Result<Effect, NodeFault>
        requires next { asked_in self.old.course ≡ Some ask }
        requires can { CanBegin self.old ask }
        ensures effect { IfOk result (λ effect. effect_asked self.old ask
            ≡ Some (seen_effect effect self.new)) }
        ensures refused { IfErr result (λ fault. ((fault ≡ Worn)
            × (effect_asked self.old ask ≡ None)) ⊎ (fault ≡ NoMemory)) }
        ensures to { IfOk result (λ effect. AreFor self.new.setting.nodes effect.letters.items) }
    {
        match ask {
            Ask::Read(word) | Ask::Write(word, _) => {
                Ok(self.reach(page_of(word, self.options.size))?)
            }
            Ask::Acquire(lock) => {
                self.close()?;
                Ok(self.acquire(lock)?)
            }
            Ask::Release(lock) => {
                self.close()?;
                Ok(self.release(lock)?)
            }
            Ask::Barrier => {
                self.close()?;
                Ok(self.arrive()?)
            }
            Ask::Quiet | Ask::Print(_) | Ask::Trap(_) | Ask::End => {
                Ok(self.act(Vec::new(self.alloc))?)
            }
        }
    }
}
