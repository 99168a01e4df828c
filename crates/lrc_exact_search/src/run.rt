// An exact run so far: its acts, where they have led the nodes, and what the exact memory then is.

ghost use Rattle.std.specs.Prelude.{◌≡◌, IfOk, OnOk, true};
ghost use Rattle.lrc_exec.specs.Spots.{IsFlat};
ghost use Rattle.lrc_lazy.specs.Following.{IsFollowed, MayFollow};
ghost use Rattle.lrc_lazy.specs.Swapped.{IsNoAcquire};
ghost use Rattle.lrc_exact_laws.specs.Laws.{IsExactRun};
ghost use Rattle.lrc_exact_judge.specs.Shape.{shape_of};
ghost use Rattle.lrc_exact_search.specs.Run.{IsAt, IsLook, IsTask};

use lrc_exact_judge::layout::Layout;
use lrc_exact_judge::memory::Memory;
use lrc_exec::spot::Flat;
use lrc_exec::state::State;
use lrc_program::Program;
use lrc_trace::act::{Act, Deed};
use std::alloc::{AllocError, Global};

/// The most acts that are made one after another before a run is looked at again.
const LONGEST: usize = 1000;

/// The task of a search: a program, its code and the place where the code begins, how the memory is laid out, and the
/// limit on the number of runs.
#[derive(Clone, Copy)]
pub struct Task<'c> {
    pub program: &'c Program,
    pub flat: Flat<'c>,
    pub start: usize,
    pub layout: Layout,
    pub most: usize,
}

/// An exact run so far.
#[derive(Drop)]
pub struct ExactRun {
    pub acts: Vec<Act>,
    pub state: State,
    pub memory: Memory,
}

impl ExactRun {
    ghost use Rattle.std.specs.Prelude.{◌≡◌, ◌++◌, ◌∷◌, [], ◌<◌, IfOk, OnOk, Some, None, true, length, option_map};
    ghost use Rattle.lrc_trace.specs.declared.act.Act.{Act as ActType};
    ghost use Rattle.lrc_trace.specs.declared.act.Deed.{Deed as DeedType};
    ghost use Rattle.lrc_trace.specs.Run.{act_of};
    ghost use Rattle.lrc_exec.specs.Plain.{plain_step};
    ghost use Rattle.lrc_exec.specs.States.{plain_at};
    ghost use Rattle.lrc_lazy.specs.Lazy.{MayComeNext};
    ghost use Rattle.lrc_exact_laws.specs.Laws.{IsExactRun};
    ghost use Rattle.lrc_exact_judge.specs.Shape.{shape_of};
    ghost use Rattle.lrc_exact_search.specs.Run.{IsAhead, IsAt, IsEndless, IsFree, IsTask};
    ghost use Rattle.lrc_lazy.specs.Following.{IsFollowed};

    /// Returns the run without acts. It fails if memory runs out.
    pub fn start(alloc: Global, task: &Task<'_>) -> Result<ExactRun, AllocError>
        requires { IsTask task.now }
        ensures at { IfOk result (IsAt task.now) }
        ensures none { IfOk result (λ run. run.acts.items ≡ []) }
    {
        Ok(ExactRun {
            acts: Vec::new(alloc),
            state: State::start(alloc, &task.flat, task.start)?,
            memory: Memory::new(alloc, task.layout)?,
        })
    }

    /// Returns what a node can do next, or none if it can do nothing.
    pub fn deed(&self, task: &Task<'_>, node: u8) -> Option<Deed>
        requires task { IsTask task.now }
        requires at { IsAt task.now self.now }
        requires node { node < task.now.layout.nodes }
        ensures some { (deed : DeedType) → result ≡ Some deed
            → IsExactRun task.now.program.now (shape_of task.now.layout)
            (self.now.acts.items ++ act_of node deed ∷ []) }
        ensures none { result ≡ None → (deed : DeedType)
            → ¬ MayComeNext task.now.program.now task.now.layout.nodes self.now.acts.items
            (act_of node deed) }
    {
        match self.state.next_deed(&task.flat, node as usize) {
            Some(deed) => Some(self.valued(task, node, deed)),
            None => None,
        }
    }

    // What a node can do next, where a read gives what the memory has.
    fn valued(&self, task: &Task<'_>, node: u8, deed: Deed) -> Deed
        requires task { IsTask task.now }
        requires at { IsAt task.now self.now }
        requires node { node < task.now.layout.nodes }
        requires can { option_map (λ step. step.0)
            (plain_step (plain_at task.now.flat self.now.state) node) ≡ Some deed }
        ensures { IsExactRun task.now.program.now (shape_of task.now.layout)
            (self.now.acts.items ++ act_of node result ∷ []) }
    {
        let _task = task;
        match deed {
            Deed::Read(word, _) => {
                let value = self.memory.value(&self.acts, node, word);
                Deed::Read(word, value)
            }
            _ => deed,
        }
    }

    /// Makes what a node can do next. It fails if memory runs out; there is no memory for 2^32 acts.
    pub fn make(
        &mut self,
        alloc: Global,
        task: &Task<'_>,
        node: u8,
        deed: Deed,
    ) -> Result<(), AllocError>
        requires task { IsTask task.now }
        requires at { IsAt task.now self.old }
        requires next { IsExactRun task.now.program.now (shape_of task.now.layout)
            (self.old.acts.items ++ act_of node deed ∷ []) }
        ensures at { OnOk result (IsAt task.now self.new) }
        ensures acts { OnOk result (self.new.acts.items
            ≡ self.old.acts.items ++ act_of node deed ∷ []) }
        ensures followed { OnOk result (IsFollowed task.now.flat self.old.state (act_of node deed)
            self.new.state) }
    {
        if self.acts.len() >= u32::MAX as usize {
            return Err(AllocError);
        }
        let act = Act { node, deed };
        self.memory.step(alloc, &self.acts, act)?;
        follow(&mut self.state, &task.flat, act);
        self.acts.push(act)?;
        Ok(())
    }

    // What the lowest node can do next that is a depart, or else that neither departs nor acquires a lock.
    fn lowest(&self, task: &Task<'_>, departs: bool) -> Option<Act>
        requires task { IsTask task.now }
        requires at { IsAt task.now self.now }
        ensures { (act : ActType) → result ≡ Some act
            → IsFree task.now.program.now (shape_of task.now.layout) self.now.acts.items act }
    {
        for node in 0..task.layout.nodes {
            if let Some(deed) = self.deed(task, node) {
                if is_free(deed, departs) {
                    return Some(Act { node, deed });
                }
            }
        }
        None
    }

    /// Makes what the lowest node can do that can go on without acquiring a lock or departing, as long as it neither
    /// writes nor synchronizes. Returns whether it goes on so for ever. It fails if memory runs out.
    pub fn spins(&mut self, alloc: Global, task: &Task<'_>) -> Result<bool, AllocError>
        requires task { IsTask task.now }
        requires at { IsAt task.now self.old }
        ensures at { OnOk result (IsAt task.now self.new) }
        ensures ahead { OnOk result (IsAhead task.now.program.now (shape_of task.now.layout)
            self.old.acts.items self.new.acts.items) }
        ensures endless { IfOk result (λ endless. endless ≡ true
            → IsEndless task.now.program.now (shape_of task.now.layout) self.new.acts.items) }
    {
        match self.lowest(task, false) {
            Some(act) => self.goes_round(alloc, task, act.node),
            None => Ok(false),
        }
    }

    // Makes what a node does as long as that is a look, and says whether it comes back to where it began.
    fn goes_round(&mut self, alloc: Global, task: &Task<'_>, node: u8) -> Result<bool, AllocError>
        requires task { IsTask task.now }
        requires at { IsAt task.now self.old }
        requires node { node < task.now.layout.nodes }
        ensures at { OnOk result (IsAt task.now self.new) }
        ensures ahead { OnOk result (IsAhead task.now.program.now (shape_of task.now.layout)
            self.old.acts.items self.new.acts.items) }
        ensures endless { IfOk result (λ endless. endless ≡ true
            → IsEndless task.now.program.now (shape_of task.now.layout) self.new.acts.items) }
    {
        let begun = self.state.copy(alloc)?;
        for _ in 0..LONGEST {
            let Some(deed) = self.deed(task, node) else {
                return Ok(false);
            };
            if !is_look(deed) {
                return Ok(false);
            }
            self.make(alloc, task, node, deed)?;
            if self.state == begun {
                return Ok(true);
            }
        }
        Ok(false)
    }

    // Makes such deeds, one after another.
    fn go_ahead(&mut self, alloc: Global, task: &Task<'_>, departs: bool) -> Result<(), AllocError>
        requires task { IsTask task.now }
        requires at { IsAt task.now self.old }
        ensures at { OnOk result (IsAt task.now self.new) }
        ensures ahead { OnOk result (IsAhead task.now.program.now (shape_of task.now.layout)
            self.old.acts.items self.new.acts.items) }
    {
        for _ in 0..LONGEST {
            let Some(act) = self.lowest(task, departs) else {
                return Ok(());
            };
            self.make(alloc, task, act.node, act.deed)?;
        }
        Ok(())
    }

    /// Makes what the nodes can do without acquiring a lock; then, if all are at a barrier, their departs. Returns
    /// whether the run, which is longer then, is to be looked at again before it parts. It fails if memory runs out.
    pub fn settle(&mut self, alloc: Global, task: &Task<'_>) -> Result<bool, AllocError>
        requires task { IsTask task.now }
        requires at { IsAt task.now self.old }
        ensures at { OnOk result (IsAt task.now self.new) }
        ensures ahead { OnOk result (IsAhead task.now.program.now (shape_of task.now.layout)
            self.old.acts.items self.new.acts.items) }
        ensures longer { IfOk result (λ again. again ≡ true
            → length self.old.acts.items < length self.new.acts.items) }
    {
        let before = self.acts.len();
        self.go_ahead(alloc, task, false)?;
        let settled = self.acts.len();
        if self.lowest(task, false).is_some() {
            return Ok(before < settled);
        }
        self.go_ahead(alloc, task, true)?;
        Ok(before <= settled && settled < self.acts.len())
    }
}

/// Returns the exact run with these acts. It fails if memory runs out.
pub fn replayed(alloc: Global, task: &Task<'_>, acts: &[Act]) -> Result<ExactRun, AllocError>
    requires task { IsTask task.now }
    requires exact { IsExactRun task.now.program.now (shape_of task.now.layout) acts.now }
    ensures at { IfOk result (IsAt task.now) }
    ensures acts { IfOk result (λ run. run.acts.items ≡ acts.now) }
{
    let mut run = ExactRun::start(alloc, task)?;
    for act in acts {
        run.make(alloc, task, act.node, act.deed)?;
    }
    Ok(run)
}

// Whether a deed is a depart, where departs are asked for, or else neither a depart nor an acquire.
fn is_free(deed: Deed, departs: bool) -> bool
    ensures { result ≡ true → IsNoAcquire deed }
{
    match deed {
        Deed::Acquire(_) => false,
        Deed::Depart => departs,
        _ => !departs,
    }
}

// Whether a deed changes nothing but where its node stands.
fn is_look(deed: Deed) -> bool
    ensures { result ≡ true → IsLook deed }
{
    matches!(deed, Deed::Quiet | Deed::Print(_) | Deed::Read(_, _))
}

// Makes an act of the run: a read finds the value that it gave.
fn follow(state: &mut State, flat: &Flat<'_>, act: Act)
    requires flat { IsFlat flat.now }
    requires may { MayFollow flat.now state.old act }
    ensures { IsFollowed flat.now state.old act state.new }
{
    if let Deed::Read(word, value) = act.deed {
        state.memory[word as usize] = value;
    }
    state.make(flat, act.node as usize, act.deed);
}
