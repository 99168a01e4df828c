// The search through the states of the machine that makes lazy runs.

ghost use Rattle.std.specs.Prelude.{◌≡◌, ◌≢◌, ◌↔◌, List, IfOk, IfErr, MatchResult, Err};
ghost use Rattle.lrc_trace.specs.declared.act.Act.{Act as ActType};
ghost use Rattle.lrc_exec.specs.Nodes.{AreNodes};
ghost use Rattle.lrc_orders.specs.Outcome.{HasOutcome};
ghost use Rattle.lrc_lazy.specs.Lazy.{IsLazyOutcome};
ghost use Rattle.lrc_lazy_search.specs.Searching.{FitsLazily, MeetsMore};
ghost use Rattle.lrc_lazy_search.specs.Task.{IsTask};

use crate::found::Found;
use crate::state::{LONG_WAYS, LazyState};
use indexmap::IndexSet;
use lrc_exec::code::Code;
use lrc_exec::spot::Flat;
use lrc_lazy_known::word::copied;
use lrc_orders::outcomes::Outcome;
use lrc_orders::search::ExploreFault;
use lrc_program::Program;
use std::alloc::{AllocError, Global};
use std::collections::VecDeque;

/// Returns every outcome of the lazy runs of a program on this many nodes, after which no node can make an act. It
/// fails with `BadNodes` exactly if the number of nodes is not 1 to 16. It gives up with `TooMany` only if lazy runs
/// lead to more than `most` different states, and where it answers, no more than `most` states are enough. It fails if
/// memory runs out.
pub fn lazy_outcomes(
    alloc: Global,
    program: &Program,
    nodes: u32,
    most: usize,
) -> Result<IndexSet<Outcome>, ExploreFault>
    ensures exact { IfOk result (λ found. (notes : List ActType)
        → (IsLazyOutcome program.now nodes notes ↔ HasOutcome found.keys notes)) }
    ensures bad_nodes { (result ≡ Err ExploreFault.BadNodes) ↔ (¬ AreNodes nodes) }
    ensures too_many { IfErr result (λ fault. fault ≡ ExploreFault.TooMany
        → MeetsMore program.now nodes most) }
    ensures fits { IfOk result (λ found. FitsLazily program.now nodes most found.keys) }
{
    let count = count_of(nodes)?;
    let code = Code::new(alloc, program)?;
    lazy_outcomes_of(alloc, &code, count, most)
}

// The same of a program's flat code.
fn lazy_outcomes_of(
    alloc: Global,
    code: &Code<'_>,
    nodes: u8,
    most: usize,
) -> Result<IndexSet<Outcome>, ExploreFault>
    requires { AreNodes nodes }
    ensures exact { IfOk result (λ found. (notes : List ActType)
        → (IsLazyOutcome code.now nodes notes ↔ HasOutcome found.keys notes)) }
    ensures nodes { IfErr result (λ fault. fault ≢ ExploreFault.BadNodes) }
    ensures too_many { IfErr result (λ fault. fault ≡ ExploreFault.TooMany
        → MeetsMore code.now nodes most) }
    ensures fits { IfOk result (λ found. FitsLazily code.now nodes most found.keys) }
{
    let task = task_of(code, nodes, most);
    let mut searched = Searched::none(alloc);
    let all = searched.search(alloc, &task);
    let outcomes = searched.into_outcomes();
    match all {
        Ok(()) => Ok(outcomes),
        Err(fault) => Err(fault),
    }
}

// What is searched of a program's code.
fn task_of<'c>(code: &'c Code<'c>, nodes: u8, most: usize) -> Task<'c>
    requires { AreNodes nodes }
    ensures task { IsTask result }
    ensures program { result.program.now ≡ code.now }
    ensures nodes { result.flat.nodes ≡ nodes }
    ensures most { result.most ≡ most }
{
    let (flat, start) = Flat::of(code, nodes);
    Task {
        program: code.program(),
        flat,
        start,
        most,
    }
}

// How many nodes there are, where they are 1 to 16.
fn count_of(nodes: u32) -> Result<u8, ExploreFault>
    ensures { MatchResult result (λ count. (count ≡ nodes) × AreNodes nodes)
        (λ fault. (fault ≡ ExploreFault.BadNodes) × ¬ AreNodes nodes) }
{
    if nodes < 1 || nodes > 16 {
        return Err(ExploreFault::BadNodes);
    }
    Ok(nodes as u8)
}

/// The task of a search: a program, its code and the place where the code begins, and the limit on the number of
/// states.
#[derive(Clone, Copy)]
pub(crate) struct Task<'c> {
    program: &'c Program,
    flat: Flat<'c>,
    start: usize,
    most: usize,
}

// The states that were found, as rows, the last of them whole: those that wait for a visit, in this order. And the outcomes
// of those at which no node can make an act.
#[derive(Drop)]
pub(crate) struct Searched {
    found: Found,
    waiting: VecDeque<LazyState>,
    outcomes: IndexSet<Outcome>,
}

impl Searched {
    ghost use Rattle.std.specs.Prelude.{◌≡◌, ◌≢◌, ◌↔◌, ◌<◌, ◌≤◌, ◌+◌, ◌^◌, ◌∷◌, ℕ, List, IfErr, OnOk, Some, [], length, slice_get};
    ghost use Rattle.lrc_trace.specs.declared.act.Act.{Act as ActType};
    ghost use Rattle.lrc_exec.specs.States.{IsStateOf};
    ghost use Rattle.lrc_orders.specs.Kept.{Grows};
    ghost use Rattle.lrc_orders.specs.Outcome.{HasOutcome};
    ghost use Rattle.lrc_lazy.specs.Lazy.{IsLazyOutcome};
    ghost use Rattle.lrc_lazy_search.specs.declared.state.LazyState.{LazyState as StateType};
    ghost use Rattle.lrc_lazy_search.specs.Found.{AreDistinct, found_count};
    ghost use Rattle.lrc_lazy_search.specs.Searching.{AreSound, FitsLazily, IsNeat, IsReached, MeetsMore};
    ghost use Rattle.lrc_lazy_search.specs.Task.{Adds, IsAt, IsEmpty, IsTask};

    // No states, and no outcomes.
    fn none(alloc: Global) -> Searched
        ensures { IsEmpty result }
    {
        Searched {
            found: Found::none(alloc),
            waiting: VecDeque::new(alloc),
            outcomes: IndexSet::new(alloc),
        }
    }

    // The outcomes.
    fn into_outcomes(self) -> IndexSet<Outcome>
        ensures { result ≡ self.outcomes }
    {
        self.outcomes
    }

    // From the start on, where there is nothing yet, goes through all states.
    fn search(&mut self, alloc: Global, task: &Task<'_>) -> Result<(), ExploreFault>
        requires task { IsTask task.now }
        requires none { IsEmpty self.old }
        ensures exact { OnOk result ((notes : List ActType)
            → (IsLazyOutcome task.now.program.now task.now.flat.nodes notes
            ↔ HasOutcome self.new.outcomes.keys notes)) }
        ensures nodes { IfErr result (λ fault. fault ≢ ExploreFault.BadNodes) }
        ensures too_many { IfErr result (λ fault. fault ≡ ExploreFault.TooMany
            → MeetsMore task.now.program.now task.now.flat.nodes task.now.most) }
        ensures fits { OnOk result (FitsLazily task.now.program.now task.now.flat.nodes
            task.now.most self.new.outcomes.keys) }
    {
        let mut spare = LONG_WAYS;
        self.begin(alloc, task, &mut spare)?;
        self.go_through(alloc, task, &mut spare)
    }

    // Adds the start, or what it goes ahead to, where there are no states yet, unless that turns for ever.
    fn begin(&mut self, alloc: Global, task: &Task<'_>, spare: &mut u32) -> Result<(), AllocError>
        requires task { IsTask task.now }
        requires none { IsEmpty self.old }
        ensures at { OnOk result (IsAt task.now self.new self.new.waiting.items) }
        ensures all { OnOk result (found_count self.new.found
            ≡ length self.new.waiting.items) }
    {
        let mut first = LazyState::start(alloc, &task.flat, task.start)?;
        if first.go_ahead(alloc, &task.flat, spare)? {
            return Ok(());
        }
        self.add(alloc, task, first)
    }

    // Goes through the states, in the order in which they are found.
    fn go_through(
        &mut self,
        alloc: Global,
        task: &Task<'_>,
        spare: &mut u32,
    ) -> Result<(), ExploreFault>
        requires task { IsTask task.now }
        requires at { IsAt task.now self.old self.old.waiting.items }
        requires all { found_count self.old.found ≡ length self.old.waiting.items }
        ensures exact { OnOk result ((notes : List ActType)
            → (IsLazyOutcome task.now.program.now task.now.flat.nodes notes
            ↔ HasOutcome self.new.outcomes.keys notes)) }
        ensures nodes { IfErr result (λ fault. fault ≢ ExploreFault.BadNodes) }
        ensures too_many { IfErr result (λ fault. fault ≡ ExploreFault.TooMany
            → MeetsMore task.now.program.now task.now.flat.nodes task.now.most) }
        ensures fits { OnOk result (FitsLazily task.now.program.now task.now.flat.nodes
            task.now.most self.new.outcomes.keys) }
    {
        while let Some(state) = self.waiting.pop_front() {
            if self.found.len() > task.most {
                return Err(ExploreFault::TooMany);
            }
            self.visit(alloc, task, &state, spare)?;
        }
        Ok(())
    }

    // Looks at the first of the states that waited: finds those to go on with, and takes its outcome where no node can act.
    fn visit(
        &mut self,
        alloc: Global,
        task: &Task<'_>,
        state: &LazyState,
        spare: &mut u32,
    ) -> Result<(), AllocError>
        requires task { IsTask task.now }
        requires at { IsAt task.now self.old (state.now ∷ self.old.waiting.items) }
        requires small { found_count self.old.found < 2 ^ 63 }
        ensures at { OnOk result (IsAt task.now self.new self.new.waiting.items) }
        ensures even { OnOk result (found_count self.new.found + length self.old.waiting.items
            ≡ found_count self.old.found + length self.new.waiting.items) }
    {
        if state.can_act(&task.flat) {
            let nexts = state.nexts(alloc, &task.flat, spare)?;
            self.add_all(alloc, task, nexts)
        } else {
            self.take_outcome(alloc, task, state)
        }
    }

    // Takes the outcome of a state at which no node can make an act.
    fn take_outcome(
        &mut self,
        alloc: Global,
        task: &Task<'_>,
        state: &LazyState,
    ) -> Result<(), AllocError>
        requires sound { AreSound task.now.program.now task.now.flat self.old.outcomes.keys }
        requires over { IsLazyOutcome task.now.program.now task.now.flat.nodes
            state.now.notes.items }
        ensures found { self.new.found ≡ self.old.found }
        ensures waiting { self.new.waiting ≡ self.old.waiting }
        ensures more { OnOk result (Grows self.old.outcomes.keys self.new.outcomes.keys) }
        ensures sound { OnOk result (AreSound task.now.program.now task.now.flat
            self.new.outcomes.keys) }
        ensures has { OnOk result (HasOutcome self.new.outcomes.keys state.now.notes.items) }
    {
        let _task = task;
        let notes = copied(alloc, &state.notes)?;
        self.outcomes.insert_full(Outcome { notes })?;
        Ok(())
    }

    // Adds those of the states that are new.
    fn add_all(
        &mut self,
        alloc: Global,
        task: &Task<'_>,
        states: Vec<LazyState>,
    ) -> Result<(), AllocError>
        requires distinct { AreDistinct self.old.found }
        requires reached { (k : ℕ) (after : StateType) → slice_get states.items k ≡ Some after
            → IsReached task.now.program.now task.now.flat after (found_count self.old.found) }
        ensures { OnOk result (Adds task.now.flat self.old self.new states.items) }
    {
        let _task = task;
        let mut states = states;
        while let Some(state) = states.pop() {
            self.add(alloc, task, state)?;
        }
        Ok(())
    }

    // Adds a state, if it is new.
    fn add(&mut self, alloc: Global, task: &Task<'_>, state: LazyState) -> Result<(), AllocError>
        requires distinct { AreDistinct self.old.found }
        requires state { IsStateOf task.now.flat state.state }
        requires neat { IsNeat task.now.flat state }
        ensures { OnOk result (Adds task.now.flat self.old self.new (state ∷ [])) }
    {
        let (_place, added) = self.found.add(alloc, &task.flat, &state)?;
        if added {
            self.waiting.push_back(state)?;
        }
        Ok(())
    }
}
