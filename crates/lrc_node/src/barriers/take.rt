// Arrivals and departures: when a node expects them, and what it does with them.

ghost use Rattle.std.specs.Prelude.{◌≡◌, ◌<◌, [], IfOk, IsTrue, Some, false, if◌then◌else◌, length, map, option_map, unwrap_or, ◌&&◌};
ghost use Rattle.std.specs.Prelude.{option_and_then};
ghost use Rattle.lrc_barrier.specs.Barrier.{IsArrival, is_accepted};
ghost use Rattle.lrc_exec.specs.declared.machine.Ask.TheVariants.{Barrier};
ghost use Rattle.lrc_memory.specs.Turns.{CanBeAdded};
ghost use Rattle.lrc_protocol.specs.Node.{nothing, acts, waiting};
ghost use Rattle.lrc_protocol.specs.Turn.{are_arriving, departure_of, arrive_by, collects, learns, take_departure};
ghost use Rattle.lrc_protocol.specs.Turn.{expects_departure};
ghost use Rattle.lrc_protocol.specs.Barriers.{arrival_in};
ghost use Rattle.lrc_control.specs.Barrier.{AreDepartures, arrive_step};
ghost use Rattle.lrc_node.specs.Keeping.{CanCollect};
ghost use Rattle.lrc_node.specs.State.{seen_effect, AreFor};
ghost use Rattle.lrc_control.specs.Text.{asked_in};

use crate::intervals::news::are_between;
use crate::intervals::ranges::{are_of, covers};
use crate::state::NodeState;
use crate::turn::Effect;
use lrc_barrier::{Arrival, Departures};
use lrc_envelope::{Arrive, Depart, Message, News};
use lrc_mail::Letter;
use lrc_need::Wait;
use lrc_time::Time;
use std::alloc::{AllocError, Global};

// What each node is told at its departure.
fn departs(alloc: Global, nodes: u8, departures: Departures) -> Result<Vec<Letter>, AllocError>
    requires { AreDepartures nodes departures }
    ensures letters { IfOk result (λ letters. letters.items ≡ map departure_of departures) }
    ensures to { IfOk result (λ letters. AreFor nodes letters.items) }
{
    let mut letters = Vec::with_capacity(alloc, usize::from(nodes))?;
    for departure in departures.into_vec() {
        let message = Message::Depart(Depart {
            episode: departure.episode,
            collect: departure.collect,
            news: News {
                time: departure.time,
                intervals: departure.intervals,
            },
        });
        let to = departure.to;
        letters.push(Letter { to, message })?;
    }
    Ok(letters)
}

impl NodeState<'_> {
    /// Returns whether an arrival is expected: the manager is here and accepts it, and it brings its sender's own
    /// intervals.
    pub(crate) fn expects_arrival(&self, from: u8, m: &Arrive) -> bool
        requires { from < self.now.setting.nodes }
        ensures { result ≡ (unwrap_or (option_map is_accepted
            (arrive_step self.now.barrier from (arrival_in m.now))) false
            && are_arriving self.now from m.now.time m.now.intervals) }
    {
        self.barrier.accepts(from, m.episode) && self.are_arriving(from, &m.news)
    }

    // Whether the news are the sender's own intervals, from one past the last that the manager has of it.
    fn are_arriving(&self, from: u8, news: &News) -> bool
        requires { from < self.now.setting.nodes }
        ensures { result ≡ are_arriving self.now from news.now.time news.now.intervals }
    {
        if !self.fits(news) || !are_of(from, news.intervals.as_slice()) {
            return false;
        }
        let last = self.barrier.last_from(from);
        are_between(news.intervals.as_slice(), from, last, news.time.at(from))
    }

    /// Takes a node's arrival. With the last one, every node is told to depart.
    pub(crate) fn take_arrival(&mut self, from: u8, arrive: &Arrive) -> Result<Effect, AllocError>
        requires from { from < self.old.setting.nodes }
        requires accepted { IsTrue (unwrap_or (option_map is_accepted
            (arrive_step self.old.barrier from (arrival_in arrive.now))) false) }
        requires own { IsArrival self.old.setting.nodes from (arrival_in arrive.now) }
        ensures effect { IfOk result (λ effect. option_and_then (arrive_by self.old)
            (arrive_step self.old.barrier from (arrival_in arrive.now))
            ≡ Some (seen_effect effect self.new)) }
        ensures to { IfOk result (λ effect. AreFor self.new.setting.nodes effect.letters.items) }
    {
        let arrival = Arrival {
            episode: arrive.episode,
            ask: arrive.ask,
            time: arrive.news.time.copy(),
            intervals: arrive.news.intervals.duplicate()?,
        };
        let letters = match self.barrier.take_arrival(from, arrival)? {
            Some(departures) => departs(self.alloc, self.nodes, departures)?,
            None => Vec::new(self.alloc),
        };
        Ok(Effect::sending(letters))
    }

    /// Returns whether a departure is expected. It must be from node 0, for the episode from which the node awaits to
    /// depart. Its time must cover the node's time, and the node must be able to learn the news.
    pub(crate) fn expects_departure(&self, from: u8, m: &Depart) -> bool
        ensures { result ≡ expects_departure self.now from m.now }
    {
        from == 0
            && self.mail.wait().awaits_departure()
            && m.episode == self.barrier.episode()
            && m.news.time.nodes() == self.nodes
            && covers(&m.news.time, self.clock.time())
            && self.can_learn(&m.news)
    }

    /// Takes a departure with its news. The node then makes the depart, or first begins a collection.
    pub(crate) fn take_departure(
        &mut self,
        collect: bool,
        news: &News,
    ) -> Result<Effect, AllocError>
        requires next { asked_in self.old.course ≡ Some Barrier }
        requires counted { length news.now.time ≡ self.old.setting.nodes }
        requires intervals { CanBeAdded self.old.memory.store news.now.intervals }
        requires can { CanCollect (learns news.now.time news.now.intervals self.old) }
        ensures effect { IfOk result (λ effect. take_departure self.old collect news.now.time
            news.now.intervals ≡ seen_effect effect self.new) }
        ensures to { IfOk result (λ effect. AreFor self.new.setting.nodes effect.letters.items) }
    {
        self.learn(news)?;
        self.leave(collect, &news.time)
    }

    // Makes the depart, or begins a collection first.
    fn leave(&mut self, collect: bool, time: &Time) -> Result<Effect, AllocError>
        requires next { asked_in self.old.course ≡ Some Barrier }
        requires can { CanCollect self.old }
        ensures effect { IfOk result (λ effect.
            (if collect then collects time.now self.old else acts [] (waiting nothing self.old))
            ≡ seen_effect effect self.new) }
        ensures to { IfOk result (λ effect. AreFor self.new.setting.nodes effect.letters.items) }
    {
        if collect {
            return self.collects(time);
        }
        self.mail.wait_for(Wait::Nothing);
        self.act(Vec::new(self.alloc))
    }
}
