// How a node arrives at a barrier.

ghost use Rattle.std.specs.Prelude.{◌≡◌, ◌<◌, All, IfOk, Some, length, slice_set};
ghost use Rattle.lrc_exec.specs.declared.machine.Ask.TheVariants.{Barrier};
ghost use Rattle.lrc_protocol.specs.Times.{MOST_NUMBER};
ghost use Rattle.lrc_protocol.specs.Turn.{asks_for_collection, own_news, arrive_at};
ghost use Rattle.lrc_node.specs.State.{seen_effect, AreFor};
ghost use Rattle.lrc_control.specs.Text.{asked_in};

use crate::state::NodeState;
use crate::turn::Effect;
use lrc_envelope::{Arrive, Message, News};
use lrc_need::Wait;
use lrc_store::Intervals;
use lrc_time::Time;
use std::alloc::AllocError;

// The time with another entry of one node.
fn with_entry(time: &Time, node: u8, entry: u32) -> Time
    requires { node < length time.now }
    ensures { result ≡ slice_set time.now node entry }
{
    let mut other = Time::new(time.nodes());
    for at in 0..time.nodes() {
        let index = if at == node { entry } else { time.at(at) };
        if index > 0 {
            other.raise(at, index);
        }
    }
    other
}

impl NodeState<'_> {
    /// Returns whether the node stores so many intervals that it asks for a collection.
    pub(crate) fn asks_for_collection(&self) -> bool
        ensures { result ≡ asks_for_collection self.now }
    {
        1 <= self.options.collect && self.options.collect as usize <= self.memory.len()
    }

    /// Returns the node's own intervals that it has not sent with an arrival.
    pub(crate) fn own_news(&self) -> Result<Intervals, AllocError>
        ensures news { IfOk result (λ news. news ≡ own_news self.now) }
        ensures stamps { IfOk result (λ news. All
            (λ i. length i.stamp ≡ length self.now.locks.time) news) }
    {
        let since = with_entry(self.clock.time(), self.me, self.barrier.sent());
        self.memory.newer(&since, self.clock.time())
    }

    /// Arrives at the barrier: sends the arrival to the manager, and waits for the departure.
    pub(crate) fn arrive(&mut self) -> Result<Effect, AllocError>
        requires next { asked_in self.old.course ≡ Some Barrier }
        requires episode { self.old.barrier.episode < MOST_NUMBER }
        ensures effect { IfOk result (λ effect. arrive_at self.old ≡ seen_effect effect self.new) }
        ensures to { IfOk result (λ effect. AreFor self.new.setting.nodes effect.letters.items) }
    {
        let intervals = self.own_news()?;
        let time = self.clock.time().copy();
        let arrive = Message::Arrive(Arrive {
            episode: self.barrier.episode() + 1,
            ask: self.asks_for_collection(),
            news: News { time, intervals },
        });
        let letters = self.letter(0, arrive)?;
        self.barrier.arrive(self.clock.index());
        self.mail.wait_for(Wait::Departure);
        self.act(letters)
    }
}
