// States that were found, and how.

ghost use Rattle.std.specs.Prelude.{◌≡◌, ◌++◌, [], IfOk, IfErr, OnOk, MatchOption, MatchResult, true, false};
ghost use Rattle.lrc_orders.specs.declared.search.ExploreFault.TheVariants.{TooMany};
ghost use Rattle.lrc_exec.specs.States.{plain_at, IsStateOf};
ghost use Rattle.lrc_orders_laws.specs.Settling.{IsSettled};
ghost use Rattle.lrc_orders_settling.specs.declared.step.Step.TheVariants.{Alone, Together};
ghost use Rattle.lrc_orders_settling.specs.Taking.{IsCounted};
ghost use Rattle.lrc_explore.specs.Reached.{CannotTake, HasTakenTo, IsKeyOf, IsTask, SettlesStart};
ghost use Rattle.lrc_orders.specs.Notes.{notes_of};
ghost use Rattle.lrc_explore.specs.Answers.{IsFault, IsLongFault};
ghost use Rattle.lrc_explore.specs.Traps.{first_step};

use crate::notes::notes_of;
use crate::task::{Found, Origin, Stepped, Steps, Task};
use lrc_exec::state::State;
use lrc_orders::noted::Noted;
use lrc_orders::search::ExploreFault;
use lrc_orders::traps::has_trap;
use lrc_orders_live::forget_dead;
use lrc_orders_settling::settle::settle;
use lrc_orders_settling::step::{Step, all_wait, contended_deed, count, take_alone, take_together};
use lrc_orders_table::rows::Row;
use lrc_orders_table::table::{Led, Table};
use lrc_trace::act::Act;
use std::alloc::{AllocError, Global};

// Says no where more was to be looked at than may be.
fn or_too_many(done: bool) -> Result<(), ExploreFault>
    ensures { MatchResult result (λ _. done ≡ true)
        (λ fault. (fault ≡ ExploreFault.TooMany) × (done ≡ false)) }
{
    if done {
        Ok(())
    } else {
        Err(ExploreFault::TooMany)
    }
}

/// Returns the state that a step leads to, and appends the acts to `acts`. If the step cannot be taken, it returns none
/// and appends nothing. It fails if memory runs out, or if a node makes so many free acts that the limit is reached.
pub fn taken(
    alloc: Global,
    task: &Task<'_>,
    state: &State,
    step: Step,
    acts: &mut Vec<Act>,
) -> Result<Option<State>, ExploreFault>
    requires task { IsTask task.now }
    requires state { IsStateOf task.now.flat state.now }
    requires counted { IsCounted state.now }
    requires settled { IsSettled (plain_at task.now.flat state.now) }
    ensures taken { IfOk result (λ after. MatchOption after
        (CannotTake task.now state.now step × (acts.new.items ≡ acts.old.items))
        (HasTakenTo task.now state.now step acts.old.items acts.new.items)) }
    ensures faults { IfErr result (IsLongFault task.now state.now) }
{
    match step {
        Step::Alone(node) => taken_alone(alloc, task, state, node as usize, acts),
        Step::Together => taken_together(alloc, task, state, acts),
    }
}

// The same of the step of one node.
fn taken_alone(
    alloc: Global,
    task: &Task<'_>,
    state: &State,
    node: usize,
    acts: &mut Vec<Act>,
) -> Result<Option<State>, ExploreFault>
    requires task { IsTask task.now }
    requires state { IsStateOf task.now.flat state.now }
    requires counted { IsCounted state.now }
    requires settled { IsSettled (plain_at task.now.flat state.now) }
    ensures taken { IfOk result (λ after. MatchOption after
        (CannotTake task.now state.now (Alone node) × (acts.new.items ≡ acts.old.items))
        (HasTakenTo task.now state.now (Alone node) acts.old.items acts.new.items)) }
    ensures faults { IfErr result (IsLongFault task.now state.now) }
{
    let Some(deed) = contended_deed(&task.flat, state, node) else {
        return Ok(None);
    };
    let mut after = state.copy(alloc)?;
    let done = take_alone(alloc, &task.flat, &mut after, node, deed, task.looked, acts)?;
    or_too_many(done)?;
    Ok(Some(after))
}

// The same of the step of all nodes.
fn taken_together(
    alloc: Global,
    task: &Task<'_>,
    state: &State,
    acts: &mut Vec<Act>,
) -> Result<Option<State>, ExploreFault>
    requires task { IsTask task.now }
    requires state { IsStateOf task.now.flat state.now }
    requires counted { IsCounted state.now }
    ensures taken { IfOk result (λ after. MatchOption after
        (CannotTake task.now state.now Together × (acts.new.items ≡ acts.old.items))
        (HasTakenTo task.now state.now Together acts.old.items acts.new.items)) }
    ensures faults { IfErr result (IsLongFault task.now state.now) }
{
    if !all_wait(&task.flat, state) {
        return Ok(None);
    }
    let mut after = state.copy(alloc)?;
    let done = take_together(alloc, &task.flat, &mut after, task.looked, acts)?;
    or_too_many(done)?;
    Ok(Some(after))
}

/// Returns the settled start, and appends its acts to `acts`. It fails if memory runs out, or if a node makes so many
/// free acts that the limit is reached.
pub fn settled_start(
    alloc: Global,
    task: &Task<'_>,
    acts: &mut Vec<Act>,
) -> Result<State, ExploreFault>
    requires task { IsTask task.now }
    ensures valid { IfOk result (IsStateOf task.now.flat) }
    ensures start { IfOk result (SettlesStart task.now acts.old.items acts.new.items) }
    ensures faults { IfErr result (IsFault task.now) }
{
    let mut state = State::start(alloc, &task.flat, task.start)?;
    let nodes = state.spots.len();
    let done = settle(alloc, &task.flat, &mut state, 0, nodes, task.looked, acts)?;
    or_too_many(done)?;
    Ok(state)
}

/// Returns what is kept of the start, which settled by these acts.
#[tactic(auto, using(crate::proofs::Keys::bare_by))]
fn key_of(alloc: Global, task: &Task<'_>, state: State, acts: &[Act]) -> Result<Noted, AllocError>
    requires task { IsTask task.now }
    requires state { IsStateOf task.now.flat state }
    ensures { IfOk result (IsKeyOf task.now state acts.now) }
{
    let mut state = state;
    count(&task.flat, &mut state)?;
    forget_dead(&task.flat, &task.live, &mut state);
    let notes = notes_if_kept(alloc, task, acts)?;
    Ok(Noted { state, notes })
}

// The notes of acts, if notes are kept, and else none.
fn notes_if_kept(alloc: Global, task: &Task<'_>, acts: &[Act]) -> Result<Vec<Act>, AllocError>
    ensures noted { IfOk result (λ all. task.now.noting ≡ true
        → all.items ≡ notes_of task.now.flat.nodes acts.now) }
    ensures bare { IfOk result (λ all. task.now.noting ≡ false → all.items ≡ []) }
{
    if !task.noting {
        return Ok(Vec::new(alloc));
    }
    let all = notes_of(alloc, task.flat.nodes, acts)?;
    Ok(all)
}

// The first step in which a node traps, where this one is next.
fn first_step(trap: Option<Step>, traps: bool, step: Step) -> Option<Step>
    ensures { result ≡ first_step trap traps step }
{
    match trap {
        Some(first) => Some(first),
        None => { if traps { Some(step) } else { None } }
    }
}

impl Found {
    ghost use Rattle.std.specs.Prelude.{◌≡◌, ◌<◌, All, IfOk, IfErr, MatchOption, OnOk, false, is_some};
    ghost use Rattle.lrc_orders_live.specs.Live.{forgot};
    ghost use Rattle.lrc_orders.specs.declared.noted.Noted.{Noted as Key};
    ghost use Rattle.lrc_orders_table.specs.Rows.{IsRowAt, StandsFor, row_count};
    ghost use Rattle.lrc_explore.specs.declared.task.Task.{Task as TheTask};
    ghost use Rattle.lrc_explore.specs.Reached.{AreFound, CannotTakeAt, HasStart, IsFirstKey, IsKept, IsMore, IsNext, IsReached, IsStepOf, IsTask, LeadsTo};
    ghost use Rattle.lrc_explore.specs.Answers.{IsFault};
    ghost use Rattle.lrc_orders_table.specs.Tables.{KeepsRows};
    ghost use Rattle.lrc_explore.specs.Cut.{AreSteps, IsStepped, StaysLong, trap_among, traps_in};
    ghost use Rattle.lrc_explore.specs.Met.{IsOnlyNew};
    ghost use Rattle.lrc_explore.specs.Traps.{AreRowsTrapless, KeepsTrapless, ShowsStartTrap, ShowsTrapAt, led_traps};

    /// Makes a list without states, for this many nodes.
    pub fn none(alloc: Global, nodes: usize) -> Found
        ensures none { row_count result.table.rows ≡ 0 }
        ensures found { (task : TheTask) → task.flat.nodes ≡ nodes → AreFound task result }
    {
        Found {
            table: Table::new(alloc, nodes),
            origins: Vec::new(alloc),
        }
    }

    /// Adds the settled start. There must be no states yet. Returns whether a node traps as the start settles.
    pub fn begin(&mut self, alloc: Global, task: &Task<'_>) -> Result<bool, ExploreFault>
        requires task { IsTask task.now }
        requires found { AreFound task.now self.old }
        requires none { row_count self.old.table.rows ≡ 0 }
        ensures found { OnOk result (AreFound task.now self.new) }
        ensures start { OnOk result (HasStart task.now self.new.table.rows) }
        ensures some { OnOk result (0 < row_count self.new.table.rows) }
        ensures traps { IfOk result (ShowsStartTrap task.now) }
        ensures trapless { IfOk result (λ traps. traps ≡ false → AreRowsTrapless task.now self.new.table.rows) }
        ensures faults { IfErr result (IsFault task.now) }
    {
        let mut acts = Vec::new(alloc);
        let state = settled_start(alloc, task, &mut acts)?;
        let traps = has_trap(&acts);
        let key = key_of(alloc, task, state, &acts)?;
        self.add(task, key)?;
        Ok(traps)
    }

    // Adds the first state.
    fn add(&mut self, task: &Task<'_>, key: Noted) -> Result<(), AllocError>
        requires task { IsTask task.now }
        requires found { AreFound task.now self.old }
        requires none { row_count self.old.table.rows ≡ 0 }
        requires reached { IsReached task.now key }
        requires bare { All (λ spot. forgot task.now.live.items spot ≡ spot)
            key.state.spots.items }
        requires first { IsFirstKey task.now key }
        ensures found { OnOk result (AreFound task.now self.new) }
        ensures has { OnOk result (IsKept self.new.table.rows key) }
        ensures one { OnOk result (row_count self.new.table.rows ≡ 1) }
    {
        let (_place, added) = self.table.add(&task.means(), key)?;
        if added {
            self.origins.push(Origin {
                parent: 0,
                step: Step::Together,
            })?;
        }
        Ok(())
    }

    /// Adds the states that a step leads to from that at a place, up to the first step in which some node computes too
    /// long. Returns whether there is one, and the first step in which a node traps, if any. It fails if memory
    /// runs out.
    pub fn expand(
        &mut self,
        alloc: Global,
        task: &Task<'_>,
        place: usize,
    ) -> Result<Steps, ExploreFault>
        requires task { IsTask task.now }
        requires found { AreFound task.now self.old }
        requires within { place < row_count self.old.table.rows }
        ensures found { OnOk result (AreFound task.now self.new) }
        ensures more { OnOk result (IsMore self.old self.new) }
        ensures steps { IfOk result (AreSteps task.now self.new.table.rows place) }
        ensures trapless { IfOk result (λ steps. KeepsTrapless task.now self.old.table.rows
            self.new.table.rows (is_some (trap_among steps))) }
        ensures faults { IfErr result (λ fault. fault ≡ ExploreFault.NoMemory) }
    {
        let mut trap = None;
        match self.expand_step(alloc, task, place, Step::Together)? {
            Stepped::Past(together) => trap = first_step(None, together, Step::Together),
            Stepped::Long => return Ok(Steps::Cut(None)),
        }
        for node in 0..task.flat.nodes {
            match self.expand_step(alloc, task, place, Step::Alone(node))? {
                Stepped::Past(alone) => trap = first_step(trap, alone, Step::Alone(node)),
                Stepped::Long => return Ok(Steps::Cut(trap)),
            }
        }
        Ok(Steps::All(trap))
    }

    // Adds the state that a step leads to from that at a place, if it can be taken: whether a node traps in it, or
    // computes too long.
    fn expand_step(
        &mut self,
        alloc: Global,
        task: &Task<'_>,
        place: usize,
        step: Step,
    ) -> Result<Stepped, ExploreFault>
        requires task { IsTask task.now }
        requires found { AreFound task.now self.old }
        requires within { place < row_count self.old.table.rows }
        requires step { IsStepOf task.now step }
        ensures found { OnOk result (AreFound task.now self.new) }
        ensures more { OnOk result (IsMore self.old self.new) }
        ensures stepped { IfOk result (IsStepped task.now self.new.table.rows place step) }
        ensures trapless { IfOk result (λ stepped. KeepsTrapless task.now self.old.table.rows
            self.new.table.rows (traps_in stepped)) }
        ensures faults { IfErr result (λ fault. fault ≡ ExploreFault.NoMemory) }
    {
        let after = match self.row_after(alloc, task, place, step) {
            Ok(after) => after,
            Err(ExploreFault::TooMany) => return Ok(Stepped::Long),
            // The only other fault of a step.
            Err(_) => return Err(ExploreFault::NoMemory),
        };
        let Some(led) = after else {
            return Ok(Stepped::Past(false));
        };
        let origin = Origin {
            parent: place,
            step,
        };
        let _place = self.put(task, led.row, origin)?;
        Ok(Stepped::Past(led.traps))
    }

    /// Returns the row that a step leads to from that at a place, and whether a node traps in it, if it can be taken. It
    /// fails as `taken` does.
    pub fn row_after(
        &mut self,
        alloc: Global,
        task: &Task<'_>,
        place: usize,
        step: Step,
    ) -> Result<Option<Led>, ExploreFault>
        requires task { IsTask task.now }
        requires found { AreFound task.now self.old }
        requires within { place < row_count self.old.table.rows }
        requires step { IsStepOf task.now step }
        ensures found { OnOk result (AreFound task.now self.new) }
        ensures more { OnOk result (IsMore self.old self.new) }
        ensures keeps { OnOk result (KeepsRows self.old.table self.new.table) }
        ensures taken { IfOk result (λ after. MatchOption after
            (CannotTakeAt task.now self.new.table.rows place step)
            (λ led. LeadsTo task.now self.new.table.rows place step led.row)) }
        ensures traps { IfOk result (λ led. ShowsTrapAt task.now self.new.table.rows place step
            (led_traps led)) }
        ensures long { IfErr result (λ fault. fault ≡ ExploreFault.TooMany
            → StaysLong task.now self.old self.new place) }
        ensures faults { IfErr result (IsFault task.now) }
    {
        let row = self.table.rows.row(place);
        let means = task.means();
        match step {
            Step::Alone(node) => self.table.alone(alloc, &means, &row, node as usize),
            Step::Together => self.table.together(alloc, &means, &row),
        }
    }

    /// Adds a row to which a step leads, if it is new, and where it was found. Returns its place. It fails if memory runs
    /// out.
    pub fn put(&mut self, task: &Task<'_>, row: Row, origin: Origin) -> Result<usize, AllocError>
        requires found { AreFound task.now self.old }
        requires next { IsNext task.now self.old.table.rows origin row }
        ensures found { OnOk result (AreFound task.now self.new) }
        ensures more { OnOk result (IsMore self.old self.new) }
        ensures has { OnOk result ((key : Key) → StandsFor self.old.table.rows row key
            → IsKept self.new.table.rows key) }
        ensures there { IfOk result (λ place. (key : Key) → StandsFor self.old.table.rows row key
            → IsRowAt self.new.table.rows place key) }
        ensures only { IfOk result (IsOnlyNew (row_count self.old.table.rows)
            (row_count self.new.table.rows)) }
    {
        let _most = task.most;
        let (place, added) = self.table.put(row)?;
        if added {
            self.origins.push(origin)?;
        }
        Ok(place)
    }
}
