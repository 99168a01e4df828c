// States of the machine that makes lazy runs.

ghost use Rattle.std.specs.Prelude.{◌≡◌, ◌<◌, ◌^◌, ◌*◌, ◌+◌, ◌-◌, ℕ, IfOk, OnOk, length, map, max};
ghost use Rattle.lrc_trace.specs.declared.act.Deed.TheVariants.{Read};
ghost use Rattle.lrc_lazy_known.specs.declared.word.Effect.TheVariants.{Writes};
ghost use Rattle.lrc_lazy_known.specs.Effect.{IsKnowledgeAfter, IsSmall, word_of};
ghost use Rattle.lrc_lazy_known.specs.Tidy.{IsTidy};
ghost use Rattle.lrc_lazy_search.specs.Fit.{effect_of_flat};

use lrc_exec::spot::{Flat, Spot};
use lrc_exec::state::State;
use lrc_lazy_known::known::{Knowledge, KnownWord};
use lrc_lazy_known::word::{Effect, copied, word_after};
use lrc_orders::notes::note;
use lrc_trace::act::{Act, Deed};
use std::alloc::{AllocError, Global};

/// How many acts are made one after another before it is looked for whether they come round.
pub const SHORT: usize = 64;

/// The most acts made one after another between two states that are told apart, as long as long ways are to spare.
pub const LONGEST: usize = 1 << 20;

/// How many ways of the most acts a search makes. Behind them states are told apart after a short way, so that those of a
/// program that counts for ever are soon too many.
pub const LONG_WAYS: u32 = 8;

/// A state of the search: where the nodes are, what they know of the writes, and what was noted on the way. The words
/// of the state are all 0: what a node knows says what a read gives. What they know is written in one way alone. It
/// counts no barriers that all nodes had left when it was renewed.
#[derive(PartialEq, Eq, Hash, Drop)]
pub struct LazyState {
    pub state: State,
    pub knowledge: Knowledge,
    pub notes: Vec<Act>,
}

/// Where a state was: without its words, which are 0, and without what was noted. Such a value comes from `seen` alone.
#[derive(Drop)]
pub struct Seen {
    holders: Vec<Option<usize>>,
    arrivals: Vec<u64>,
    spots: Vec<Spot>,
    knowledge: Knowledge,
}

impl LazyState {
    ghost use Rattle.std.specs.Prelude.{◌≡◌, ◌≤◌, ◌<◌, ◌^◌, ◌-◌, ℕ, IfOk, OnOk, Some, None, true, false, Contains, []};
    ghost use Rattle.std.specs.Prelude.{length, slice_get, slice_index};
    ghost use Rattle.lrc_trace.specs.declared.act.Deed.{Deed as DeedType};
    ghost use Rattle.lrc_exec.specs.Spots.{IsFlat};
    ghost use Rattle.lrc_exec.specs.States.{IsFirst, plain_at, IsStateOf};
    ghost use Rattle.lrc_lazy_known.specs.Effect.{word_of, IsKnowledgeAfter};
    ghost use Rattle.lrc_lazy_known.specs.Tidy.{IsTidy};
    ghost use Rattle.lrc_lazy.specs.Standing.{with_memory, departures_of, CanMake};
    ghost use Rattle.lrc_orders.specs.Kept.{Grows};
    ghost use Rattle.lrc_lazy_search.specs.Fit.{IsFit, IsSeen};
    ghost use Rattle.lrc_lazy_search.specs.Searching.{blanked, CanAct, ComesToTurn, GoesOn, HasAll, HasStep, AreEnough, AreNeat, AreNext, AreOnce, CountNoneGone, CountsNoneGone, IsAhead, IsBlank, IsFirstInFront, IsForced, IsFresh, IsInFront, IsNeat, Makes, Steps, IsPoked};

    /// Returns the beginning of a program whose text begins at this place of the code.
    pub fn start(alloc: Global, flat: &Flat, place: usize) -> Result<LazyState, AllocError>
        requires { place ≤ length flat.now.code.now }
        ensures first { IfOk result (λ key. IsFirst flat.now place key.state) }
        ensures state { IfOk result (λ key. IsStateOf flat.now key.state) }
        ensures nothing { IfOk result (λ key. (word : ℕ) → word_of key.knowledge word ≡ []) }
        ensures notes { IfOk result (λ key. key.notes.items ≡ []) }
        ensures neat { IfOk result (IsNeat flat.now) }
        ensures left { IfOk result (λ key. 0 < flat.now.nodes → CountsNoneGone flat.now key) }
    {
        Ok(LazyState {
            state: State::start(alloc, flat, place)?,
            knowledge: Knowledge::nothing(alloc),
            notes: Vec::new(alloc),
        })
    }

    /// Returns the deeds that a node can do now, with a read for each value that it may give.
    pub fn deeds(&self, alloc: Global, flat: &Flat, node: usize) -> Result<Vec<Deed>, AllocError>
        requires flat { IsFlat flat.now }
        requires fit { IsFit flat.now self.now }
        ensures sound { IfOk result (λ deeds. (k : ℕ) (deed : DeedType)
            → slice_get deeds.items k ≡ Some deed
            → CanMake flat.now.words (plain_at flat.now self.now.state) self.now.knowledge node
            deed) }
        ensures all { IfOk result (λ deeds. (deed : DeedType)
            → CanMake flat.now.words (plain_at flat.now self.now.state) self.now.knowledge node deed
            → (k : ℕ) × (slice_get deeds.items k ≡ Some deed)) }
        ensures once { IfOk result (λ deeds. IsNeat flat.now self.now → AreOnce deeds.items) }
    {
        let Some(deed) = self.state.next_deed(flat, node) else {
            return Ok(Vec::new(alloc));
        };
        match deed {
            Deed::Read(word, _) => {
                let values = self.knowledge.readable(alloc, word as usize, node)?;
                reads_of(alloc, word, &values)
            }
            _ => copied(alloc, &[deed]),
        }
    }

    // The same state, a read's word having the value that it gives.
    fn poked(&self, alloc: Global, flat: &Flat, deed: Deed) -> Result<State, AllocError>
        requires state { IsStateOf flat.now self.now.state }
        requires within { (w v : ℕ) → deed ≡ Deed.Read w v → w < flat.now.words }
        ensures { IfOk result (IsPoked flat.now self.now deed) }
    {
        let _nodes = flat.nodes;
        let mut state = self.state.copy(alloc)?;
        if let Deed::Read(word, value) = deed {
            state.memory[word as usize] = value;
        }
        Ok(state)
    }

    // Where the nodes stand after a deed.
    fn state_after(
        &self,
        alloc: Global,
        flat: &Flat,
        node: usize,
        deed: Deed,
    ) -> Result<State, AllocError>
        requires flat { IsFlat flat.now }
        requires fit { IsFit flat.now self.now }
        requires can { CanMake flat.now.words (plain_at flat.now self.now.state) self.now.knowledge
            node deed }
        requires room { slice_index self.now.state.arrivals.items node < 2 ^ 63 }
        ensures made { IfOk result (Makes flat.now self.now.state node deed) }
        ensures state { IfOk result (IsStateOf flat.now) }
        ensures blank { IfOk result (IsBlank flat.now) }
    {
        let mut state = self.poked(alloc, flat, deed)?;
        state.make(flat, node, deed);
        let memory = vec![in alloc; 0; flat.words as usize]?;
        Ok(State {
            memory,
            holders: state.holders,
            arrivals: state.arrivals,
            spots: state.spots,
        })
    }

    /// Returns the state after a deed that the node can do.
    pub fn after(
        &self,
        alloc: Global,
        flat: &Flat,
        node: usize,
        deed: Deed,
    ) -> Result<LazyState, AllocError>
        requires flat { IsFlat flat.now }
        requires fit { IsFit flat.now self.now }
        requires can { CanMake flat.now.words (plain_at flat.now self.now.state) self.now.knowledge
            node deed }
        requires room { slice_index self.now.state.arrivals.items node < 2 ^ 63 }
        requires node { node < flat.now.nodes }
        ensures steps { IfOk result (Steps flat.now self.now node deed) }
        ensures state { IfOk result (λ after. IsStateOf flat.now after.state) }
        ensures neat { IfOk result (λ after. IsNeat flat.now self.now → IsNeat flat.now after) }
    {
        let _nodes = flat.nodes;
        let arrived = self.state.arrivals[node];
        let effect = effect_of(flat, arrived, node, deed);
        let state = self.state_after(alloc, flat, node, deed)?;
        let knowledge = self.knowledge.after(alloc, effect)?;
        let mut notes = copied(alloc, &self.notes)?;
        let act = Act {
            node: node as u8,
            deed,
        };
        note(&mut notes, act)?;
        Ok(LazyState {
            state,
            knowledge,
            notes,
        })
    }

    // Whether a node can do something other than acquire a lock.
    fn is_in_front(&self, flat: &Flat, node: usize) -> bool
        requires flat { IsFlat flat.now }
        requires fit { IsFit flat.now self.now }
        ensures front { result ≡ true → IsInFront flat.now self.now node }
        ensures behind { result ≡ false → ¬ IsInFront flat.now self.now node }
    {
        let Some(deed) = self.state.next_deed(flat, node) else {
            return false;
        };
        match deed {
            Deed::Acquire(_) => false,
            _ => true,
        }
    }

    // The lowest node that can do something other than acquire a lock, if there is one.
    fn in_front(&self, flat: &Flat) -> Option<usize>
        requires flat { IsFlat flat.now }
        requires fit { IsFit flat.now self.now }
        ensures front { (node : ℕ) → result ≡ Some node → IsInFront flat.now self.now node }
        ensures first { (node : ℕ) → result ≡ Some node → IsFirstInFront flat.now self.now node }
        ensures none { result ≡ None → (node : ℕ) → ¬ IsInFront flat.now self.now node }
    {
        let count = self.state.spots.len();
        for node in 0..count {
            if self.is_in_front(flat, node) {
                return Some(node);
            }
        }
        None
    }

    // Puts the value that a read gives to where it is read.
    fn poke(&mut self, flat: &Flat, deed: Deed)
        requires state { IsStateOf flat.now self.old.state }
        requires within { (w v : ℕ) → deed ≡ Deed.Read w v → w < flat.now.words }
        ensures poked { IsPoked flat.now self.old deed self.new.state }
        ensures knowledge { self.new.knowledge ≡ self.old.knowledge }
        ensures notes { self.new.notes ≡ self.old.notes }
    {
        let _nodes = flat.nodes;
        if let Deed::Read(word, value) = deed {
            self.state.memory[word as usize] = value;
        }
    }

    // Makes the word of a deed 0 again.
    fn blank(&mut self, flat: &Flat, deed: Deed)
        requires state { IsStateOf flat.now self.old.state }
        ensures same { plain_at flat.now self.new.state
            ≡ with_memory (plain_at flat.now self.old.state) self.new.state.memory.items }
        ensures blanked { self.new.state.memory.items
            ≡ blanked deed self.old.state.memory.items }
        ensures state { IsStateOf flat.now self.new.state }
        ensures knowledge { self.new.knowledge ≡ self.old.knowledge }
        ensures notes { self.new.notes ≡ self.old.notes }
    {
        let _nodes = flat.nodes;
        let word = match deed {
            Deed::Read(word, _) | Deed::Write(word, _) => word as usize,
            _ => return,
        };
        if word < self.state.memory.len() {
            self.state.memory[word] = 0;
        }
    }

    // Goes on to where the nodes stand after a deed.
    fn move_on(&mut self, flat: &Flat, node: usize, deed: Deed)
        requires flat { IsFlat flat.now }
        requires fit { IsFit flat.now self.old }
        requires can { CanMake flat.now.words (plain_at flat.now self.old.state) self.old.knowledge
            node deed }
        requires room { slice_index self.old.state.arrivals.items node < 2 ^ 63 }
        ensures made { Makes flat.now self.old.state node deed self.new.state }
        ensures state { IsStateOf flat.now self.new.state }
        ensures blank { IsBlank flat.now self.old.state → IsBlank flat.now self.new.state }
        ensures knowledge { self.new.knowledge ≡ self.old.knowledge }
        ensures notes { self.new.notes ≡ self.old.notes }
    {
        self.poke(flat, deed);
        self.state.make(flat, node, deed);
        self.blank(flat, deed);
    }

    // Changes what is known as an act does.
    fn learn(&mut self, alloc: Global, effect: Effect) -> Result<(), AllocError>
        requires { IsSmall effect }
        ensures known { OnOk result (IsKnowledgeAfter effect self.old.knowledge
            self.new.knowledge) }
        ensures tidy { OnOk result (IsTidy self.old.knowledge → IsTidy self.new.knowledge) }
        ensures state { self.new.state ≡ self.old.state }
        ensures notes { self.new.notes ≡ self.old.notes }
    {
        match effect {
            Effect::Passes => {}
            Effect::Writes(writer, word, value) => {
                learn_write(alloc, &mut self.knowledge, writer, word, value)?
            }
            Effect::Learns(_, _) => self.knowledge = self.knowledge.after(alloc, effect)?,
        }
        Ok(())
    }

    /// Makes what a node can do. It fails if memory runs out.
    pub fn make(
        &mut self,
        alloc: Global,
        flat: &Flat,
        node: usize,
        deed: Deed,
    ) -> Result<(), AllocError>
        requires flat { IsFlat flat.now }
        requires fit { IsFit flat.now self.old }
        requires can { CanMake flat.now.words (plain_at flat.now self.old.state) self.old.knowledge
            node deed }
        requires room { slice_index self.old.state.arrivals.items node < 2 ^ 63 }
        requires node { node < flat.now.nodes }
        ensures steps { OnOk result (Steps flat.now self.old node deed self.new) }
        ensures state { OnOk result (IsStateOf flat.now self.new.state) }
        ensures neat { OnOk result (IsNeat flat.now self.old → IsNeat flat.now self.new) }
    {
        let _nodes = flat.nodes;
        let effect = effect_of(flat, self.state.arrivals[node], node, deed);
        self.move_on(flat, node, deed);
        self.learn(alloc, effect)?;
        let act = Act {
            node: node as u8,
            deed,
        };
        note(&mut self.notes, act)
    }

    // What the node can do, where that is one deed alone, and no arrive.
    fn forced(&self, alloc: Global, flat: &Flat, node: usize) -> Result<Option<Deed>, AllocError>
        requires flat { IsFlat flat.now }
        requires fit { IsFit flat.now self.now }
        requires front { IsInFront flat.now self.now node }
        ensures { IfOk result (λ found. (deed : DeedType) → found ≡ Some deed
            → IsForced flat.now self.now node deed) }
    {
        let Some(deed) = self.state.next_deed(flat, node) else {
            return Ok(None);
        };
        match deed {
            Deed::Arrive => Ok(None),
            Deed::Read(_, _) => self.forced_read(alloc, flat, node),
            deed => Ok(Some(deed)),
        }
    }

    // The same of a node that reads, maybe one of several values.
    fn forced_read(
        &self,
        alloc: Global,
        flat: &Flat,
        node: usize,
    ) -> Result<Option<Deed>, AllocError>
        requires flat { IsFlat flat.now }
        requires fit { IsFit flat.now self.now }
        requires front { IsInFront flat.now self.now node }
        ensures { IfOk result (λ found. (deed : DeedType) → found ≡ Some deed
            → IsForced flat.now self.now node deed) }
    {
        let deeds = self.deeds(alloc, flat, node)?;
        if deeds.len() != 1 {
            return Ok(None);
        }
        match deeds[0] {
            Deed::Arrive => Ok(None),
            deed => Ok(Some(deed)),
        }
    }

    // Makes what the lowest node in front can do, where that is one deed alone, and no arrive; and whether it was made.
    fn step_ahead(&mut self, alloc: Global, flat: &Flat) -> Result<bool, AllocError>
        requires flat { IsFlat flat.now }
        requires fit { IsFit flat.now self.old }
        requires room { (node : ℕ) → slice_index self.old.state.arrivals.items node < 2 ^ 63 }
        ensures ahead { OnOk result (IsAhead flat.now self.old self.new) }
        ensures neat { OnOk result (IsNeat flat.now self.old → IsNeat flat.now self.new) }
        ensures made { IfOk result (λ made. made ≡ true → GoesOn flat.now self.old self.new) }
    {
        let Some(node) = self.in_front(flat) else {
            return Ok(false);
        };
        let Some(deed) = self.forced(alloc, flat, node)? else {
            return Ok(false);
        };
        self.make(alloc, flat, node, deed)?;
        Ok(true)
    }

    /// Makes deeds as long as the lowest node that can do something other than acquire a lock can do only one deed,
    /// which is no arrive. It makes no more than `LONGEST` deeds, and no more than `SHORT` where no long ways are to
    /// spare. Then it leaves out the barriers that are gone. It returns whether the deeds turn for ever. It fails if
    /// memory runs out.
    pub fn go_ahead(
        &mut self,
        alloc: Global,
        flat: &Flat,
        spare: &mut u32,
    ) -> Result<bool, AllocError>
        requires flat { IsFlat flat.now }
        requires state { IsStateOf flat.now self.old.state }
        requires room { (node : ℕ) → slice_index self.old.state.arrivals.items node < 2 ^ 63 }
        ensures ahead { OnOk result (IsAhead flat.now self.old self.new) }
        ensures neat { OnOk result (IsNeat flat.now self.old → IsNeat flat.now self.new) }
        ensures left { OnOk result (0 < flat.now.nodes → CountsNoneGone flat.now self.new) }
        ensures turns { IfOk result (λ turns. turns ≡ true → ComesToTurn flat.now self.old) }
    {
        let turns = self.go_on(alloc, flat, spare)?;
        self.renew(alloc, flat)?;
        Ok(turns)
    }

    // Makes such deeds, and returns whether they turn for ever.
    fn go_on(&mut self, alloc: Global, flat: &Flat, spare: &mut u32) -> Result<bool, AllocError>
        requires flat { IsFlat flat.now }
        requires state { IsStateOf flat.now self.old.state }
        requires room { (node : ℕ) → slice_index self.old.state.arrivals.items node < 2 ^ 63 }
        ensures ahead { OnOk result (IsAhead flat.now self.old self.new) }
        ensures neat { OnOk result (IsNeat flat.now self.old → IsNeat flat.now self.new) }
        ensures turns { IfOk result (λ turns. turns ≡ true → ComesToTurn flat.now self.old) }
    {
        for _ in 0..SHORT {
            if !self.step_ahead(alloc, flat)? {
                return Ok(false);
            }
        }
        if *spare == 0 {
            return Ok(false);
        }
        self.go_far(alloc, flat, spare)
    }

    // Makes many such deeds. To see that they come round, it compares the state with an earlier one (Brent 1980); it takes
    // a new earlier state each time that twice as many deeds were made.
    fn go_far(&mut self, alloc: Global, flat: &Flat, spare: &mut u32) -> Result<bool, AllocError>
        requires flat { IsFlat flat.now }
        requires state { IsStateOf flat.now self.old.state }
        requires room { (node : ℕ) → slice_index self.old.state.arrivals.items node < 2 ^ 63 }
        ensures ahead { OnOk result (IsAhead flat.now self.old self.new) }
        ensures neat { OnOk result (IsNeat flat.now self.old → IsNeat flat.now self.new) }
        ensures turns { IfOk result (λ turns. turns ≡ true → ComesToTurn flat.now self.old) }
    {
        let mut earlier = self.seen(alloc)?;
        let mut again = SHORT;
        for step in 0..LONGEST {
            if !self.step_ahead(alloc, flat)? {
                return Ok(false);
            }
            if self.is_again(&earlier) {
                return Ok(true);
            }
            if step >= again {
                earlier = self.seen(alloc)?;
                again = step.saturating_add(step);
            }
        }
        *spare = spare.saturating_sub(1);
        Ok(false)
    }

    /// Returns where the state is, whatever was noted. It fails if memory runs out.
    pub fn seen(&self, alloc: Global) -> Result<Seen, AllocError>
        ensures { IfOk result (IsSeen self.now) }
    {
        Ok(Seen {
            holders: copied(alloc, &self.state.holders)?,
            arrivals: copied(alloc, &self.state.arrivals)?,
            spots: copied(alloc, &self.state.spots)?,
            knowledge: self.knowledge.after(alloc, Effect::Passes)?,
        })
    }

    /// Returns whether the state is where one was, whatever was noted.
    pub fn is_again(&self, earlier: &Seen) -> bool
        ensures { result ≡ true → IsSeen self.now earlier.now }
    {
        if self.state.spots != earlier.spots {
            return false;
        }
        if self.state.holders != earlier.holders || self.state.arrivals != earlier.arrivals {
            return false;
        }
        self.knowledge == earlier.knowledge
    }

    // How often a node has departed from a barrier.
    fn departures(&self, flat: &Flat, node: usize) -> u64
        requires state { IsStateOf flat.now self.now.state }
        requires node { node < flat.now.nodes }
        ensures { result ≡ departures_of (plain_at flat.now self.now.state) node }
    {
        let _nodes = flat.nodes;
        let arrived = self.state.arrivals[node];
        let spot = &self.state.spots[node];
        if spot.arrived && !spot.stopped {
            arrived.saturating_sub(1)
        } else {
            arrived
        }
    }

    // How often each node has departed at least. If there are nodes, one of them has departed no more often.
    fn gone(&self, flat: &Flat) -> u64
        requires { IsStateOf flat.now self.now.state }
        ensures most { (node : ℕ) → node < flat.now.nodes
            → result ≤ departures_of (plain_at flat.now self.now.state) node }
        ensures least { 0 < flat.now.nodes → (node : ℕ) × (node < flat.now.nodes)
            × (result ≡ departures_of (plain_at flat.now self.now.state) node) }
    {
        let mut gone = u64::MAX;
        for node in 0..flat.nodes {
            gone = gone.min(self.departures(flat, node as usize));
        }
        gone
    }

    /// Leaves out the barriers from which all nodes have departed, so that a state after a round of a loop may be one
    /// before it. It fails if memory runs out.
    pub fn renew(&mut self, alloc: Global, flat: &Flat) -> Result<(), AllocError>
        requires { IsStateOf flat.now self.old.state }
        ensures fresh { OnOk result (IsFresh flat.now self.old self.new) }
        ensures neat { OnOk result (IsNeat flat.now self.old → IsNeat flat.now self.new) }
        ensures left { OnOk result (0 < flat.now.nodes → CountsNoneGone flat.now self.new) }
    {
        let gone = self.gone(flat);
        if gone == 0 {
            return Ok(());
        }
        let barriers = flat.nodes as usize + flat.locks as usize;
        self.state.arrivals = lowered(alloc, &self.state.arrivals, gone)?;
        self.knowledge = self.knowledge.without(alloc, barriers, gone as usize)?;
        Ok(())
    }

    /// Returns whether a node can do something.
    pub fn can_act(&self, flat: &Flat) -> bool
        requires flat { IsFlat flat.now }
        requires fit { IsFit flat.now self.now }
        ensures can { result ≡ true → CanAct flat.now self.now }
        ensures still { result ≡ false → ¬ CanAct flat.now self.now }
    {
        for node in 0..flat.nodes as usize {
            if self.state.next_deed(flat, node).is_some() {
                return true;
            }
        }
        false
    }

    /// Returns the states to go on with: those to which the lowest node leads that can do something other than acquire
    /// a lock. If there is no such node, they are those to which any node leads. Those that turn for ever are left out.
    /// It fails if memory runs out.
    pub fn nexts(
        &self,
        alloc: Global,
        flat: &Flat,
        spare: &mut u32,
    ) -> Result<Vec<LazyState>, AllocError>
        requires flat { IsFlat flat.now }
        requires fit { IsFit flat.now self.now }
        requires room { (node : ℕ) → slice_index self.now.state.arrivals.items node < 2 ^ 63 - 1 }
        ensures sound { IfOk result (λ all. AreNext flat.now self.now all.items) }
        ensures enough { IfOk result (λ all. AreEnough flat.now self.now all.items) }
        ensures neat { IfOk result (λ all. IsNeat flat.now self.now → AreNeat flat.now all.items) }
        ensures left { IfOk result (λ all. 0 < flat.now.nodes
            → CountNoneGone flat.now all.items) }
    {
        match self.in_front(flat) {
            Some(node) => {
                let mut all = Vec::new(alloc);
                self.nexts_of(alloc, flat, node, spare, &mut all)?;
                Ok(all)
            }
            None => self.nexts_of_all(alloc, flat, spare),
        }
    }

    // Those that an act of any node leads to.
    fn nexts_of_all(
        &self,
        alloc: Global,
        flat: &Flat,
        spare: &mut u32,
    ) -> Result<Vec<LazyState>, AllocError>
        requires flat { IsFlat flat.now }
        requires fit { IsFit flat.now self.now }
        requires room { (node : ℕ) → slice_index self.now.state.arrivals.items node < 2 ^ 63 - 1 }
        ensures sound { IfOk result (λ all. AreNext flat.now self.now all.items) }
        ensures all { IfOk result (λ all. (node : ℕ) → HasAll flat.now self.now node all.items) }
        ensures neat { IfOk result (λ all. IsNeat flat.now self.now → AreNeat flat.now all.items) }
        ensures left { IfOk result (λ all. 0 < flat.now.nodes
            → CountNoneGone flat.now all.items) }
    {
        let mut all = Vec::new(alloc);
        for node in 0..self.state.spots.len() {
            self.nexts_of(alloc, flat, node, spare, &mut all)?;
        }
        Ok(all)
    }

    // Those that an act of a node leads to.
    fn nexts_of(
        &self,
        alloc: Global,
        flat: &Flat,
        node: usize,
        spare: &mut u32,
        all: &mut Vec<LazyState>,
    ) -> Result<(), AllocError>
        requires flat { IsFlat flat.now }
        requires fit { IsFit flat.now self.now }
        requires room { (node : ℕ) → slice_index self.now.state.arrivals.items node < 2 ^ 63 - 1 }
        requires sound { AreNext flat.now self.now all.old.items }
        ensures sound { OnOk result (AreNext flat.now self.now all.new.items) }
        ensures all { OnOk result (HasAll flat.now self.now node all.new.items) }
        ensures neat { OnOk result (IsNeat flat.now self.now → AreNeat flat.now all.old.items
            → AreNeat flat.now all.new.items) }
        ensures left { OnOk result (0 < flat.now.nodes → CountNoneGone flat.now all.old.items
            → CountNoneGone flat.now all.new.items) }
        ensures kept { OnOk result ((n : ℕ) → HasAll flat.now self.now n all.old.items
            → HasAll flat.now self.now n all.new.items) }
    {
        let deeds = self.deeds(alloc, flat, node)?;
        for place in 0..deeds.len() {
            self.add_next(alloc, flat, node, deeds[place], spare, all)?;
        }
        Ok(())
    }

    // Adds the one that a deed of a node leads to, if it does not turn for ever.
    fn add_next(
        &self,
        alloc: Global,
        flat: &Flat,
        node: usize,
        deed: Deed,
        spare: &mut u32,
        all: &mut Vec<LazyState>,
    ) -> Result<(), AllocError>
        requires flat { IsFlat flat.now }
        requires fit { IsFit flat.now self.now }
        requires can { CanMake flat.now.words (plain_at flat.now self.now.state) self.now.knowledge
            node deed }
        requires room { (node : ℕ) → slice_index self.now.state.arrivals.items node < 2 ^ 63 - 1 }
        requires node { node < flat.now.nodes }
        requires sound { AreNext flat.now self.now all.old.items }
        ensures sound { OnOk result (AreNext flat.now self.now all.new.items) }
        ensures grows { OnOk result (Grows all.old.items all.new.items) }
        ensures has { OnOk result (HasStep flat.now self.now node deed all.new.items) }
        ensures neat { OnOk result (IsNeat flat.now self.now → AreNeat flat.now all.old.items
            → AreNeat flat.now all.new.items) }
        ensures left { OnOk result (0 < flat.now.nodes → CountNoneGone flat.now all.old.items
            → CountNoneGone flat.now all.new.items) }
    {
        let mut next = self.after(alloc, flat, node, deed)?;
        if next.go_ahead(alloc, flat, spare)? {
            return Ok(());
        }
        all.push(next)?;
        Ok(())
    }
}

// Counts that are lower by so many.
fn lowered(alloc: Global, counts: &[u64], by: u64) -> Result<Vec<u64>, AllocError>
    ensures { IfOk result (λ left. left.items ≡ map (λ count. count - by) counts.now) }
{
    counts
        .iter()
        .map(|count| count.saturating_sub(by))
        .collect(alloc)
}

// Reads of a word, with these values.
fn reads_of(alloc: Global, word: u32, values: &[u64]) -> Result<Vec<Deed>, AllocError>
    ensures { IfOk result (λ deeds. deeds.items ≡ map (λ value. Read word value) values.now) }
{
    let mut deeds = Vec::new(alloc);
    for value in values {
        deeds.push(Deed::Read(word, *value))?;
    }
    Ok(deeds)
}

// What the deed of a node that has arrived so often changes of what is known.
fn effect_of(flat: &Flat, arrived: u64, node: usize, deed: Deed) -> Effect
    requires node { node < 2 ^ 63 }
    requires arrived { arrived < 2 ^ 63 }
    ensures effect { result ≡ effect_of_flat flat.now arrived node deed }
    ensures small { IsSmall result }
{
    let locks = flat.nodes as usize;
    let barriers = locks + flat.locks as usize;
    match deed {
        Deed::Write(word, value) => Effect::Writes(node, word as usize, value),
        Deed::Acquire(lock) => Effect::Learns(node, locks + lock as usize),
        Deed::Release(lock) => Effect::Learns(locks + lock as usize, node),
        Deed::Arrive => Effect::Learns(barriers + arrived as usize, node),
        Deed::Depart => Effect::Learns(node, barriers + arrived.saturating_sub(1) as usize),
        _ => Effect::Passes,
    }
}

// Has something kept of a word, be it nothing.
fn make_room(alloc: Global, knowledge: &mut Knowledge, word: usize) -> Result<(), AllocError>
    ensures room { OnOk result (word < length knowledge.new.words.items) }
    ensures size { OnOk result (length knowledge.new.words.items
        ≡ max (length knowledge.old.words.items) (word + 1)) }
    ensures same { OnOk result ((w : ℕ) → word_of knowledge.new w ≡ word_of knowledge.old w) }
{
    while knowledge.words.len() <= word {
        knowledge.words.push(KnownWord {
            knowers: Vec::new(alloc),
        })?;
    }
    Ok(())
}

// Changes what is known of the word that one writes.
fn learn_write(
    alloc: Global,
    knowledge: &mut Knowledge,
    writer: usize,
    word: usize,
    value: u64,
) -> Result<(), AllocError>
    requires { IsSmall (Writes writer word value) }
    ensures known { OnOk result (IsKnowledgeAfter
        (Writes writer word value) knowledge.old knowledge.new) }
    ensures tidy { OnOk result (IsTidy knowledge.old → IsTidy knowledge.new) }
{
    make_room(alloc, knowledge, word)?;
    let effect = Effect::Writes(writer, word, value);
    let knowers = word_after(alloc, knowledge.word(word), effect, word)?;
    knowledge.words[word] = KnownWord { knowers };
    Ok(())
}
