// States that are found where undisputed acts are made at once.

ghost use Rattle.std.specs.Prelude.{◌≡◌, ◌+◌, ◌<◌, ◌≤◌, [], IfErr, IfOk, MatchOption, OnOk};
ghost use Rattle.lrc_orders_table.specs.Rows.{row_count};
ghost use Rattle.lrc_orders_table.specs.Tables.{KeepsRows};
ghost use Rattle.lrc_explore.specs.Answers.{IsFault};
ghost use Rattle.lrc_explore.specs.Cut.{StaysLong};
ghost use Rattle.lrc_explore.specs.Reached.{AreFound, CannotTakeAt, IsMeansOf, IsStepOf, IsTask, LeadsTo};
ghost use Rattle.lrc_explore.specs.Traps.{ShowsTrapAt, led_traps, start_trap};
ghost use Rattle.lrc_explore_less.specs.Passing.{AreFirst, pass_of, trap_then};

use lrc_explore::task::{Found, Origin, Task, Trapping};
use lrc_orders::search::ExploreFault;
use lrc_orders_less::reaches::Reaches;
use lrc_orders_settling::step::Step;
use lrc_orders_table::known::Means;
use lrc_orders_table::rows::Row;
use lrc_orders_table::table::Led;
use std::alloc::{AllocError, Global};

/// The states found, those of them from which every step is taken, in the order of finding, what is known of pairs of
/// threads, and where a node traps first, if one does. From each other state the step of one undisputed act is taken.
#[derive(Drop)]
pub struct Less {
    pub found: Found,
    pub opens: Vec<usize>,
    pub reaches: Reaches,
    pub trap: Option<Trapping>,
}

/// Where the undisputed act of a state leads: nowhere, since none is known, or since it would lead back to a state that
/// was passed just now; to a state that was found earlier; or to a new one. Or some node computes too long in it.
#[derive(Clone, Copy)]
pub enum Pass {
    Open,
    Joined,
    On,
    Long,
}

// Where a node traps first, where one does in this step or not.
fn trap_then(trap: Option<Trapping>, traps: bool, origin: Origin) -> Option<Trapping>
    ensures { result ≡ trap_then trap traps origin }
{
    match trap {
        Some(first) => Some(first),
        None => {
            if traps {
                Some(Trapping::Step(origin))
            } else {
                None
            }
        }
    }
}

// Where a node traps first, if it does as the start settles.
fn start_trap(start: bool) -> Option<Trapping>
    ensures { result ≡ start_trap start }
{
    if start { Some(Trapping::Start) } else { None }
}

// What steps from rows are taken by.
fn means_of<'t>(task: &'t Task<'_>) -> Means<'t>
    ensures { IsMeansOf task.now result }
{
    Means {
        flat: task.flat,
        live: &task.live,
        looked: task.looked,
        noting: task.noting,
    }
}

/// How many states may be kept: those from which every step is taken, and those that are passed.
pub(crate) fn most_rows(task: &Task<'_>) -> usize
    ensures { task.now.most ≤ result }
{
    (task.looked as usize).saturating_add(task.most)
}

// Puts the first so many places into an empty list.
fn first_places(places: &mut Vec<usize>, count: usize) -> Result<(), AllocError>
    requires { places.old.items ≡ [] }
    ensures { OnOk result (AreFirst places.new.items count) }
{
    for place in 0..count {
        places.push(place)?;
    }
    Ok(())
}

// Returns the row that a step leads to from that at a place, and whether a node traps in it, if it can be taken. The rows
// stay as they are.
fn row_after(
    found: &mut Found,
    alloc: Global,
    task: &Task<'_>,
    place: usize,
    step: Step,
) -> Result<Option<Led>, ExploreFault>
    requires task { IsTask task.now }
    requires found { AreFound task.now found.old }
    requires within { place < row_count found.old.table.rows }
    requires step { IsStepOf task.now step }
    ensures found { OnOk result (AreFound task.now found.new) }
    ensures keeps { OnOk result (KeepsRows found.old.table found.new.table) }
    ensures origins { found.new.origins.items ≡ found.old.origins.items }
    ensures taken { IfOk result (λ after. MatchOption after
        (CannotTakeAt task.now found.new.table.rows place step)
        (λ led. LeadsTo task.now found.new.table.rows place step led.row)) }
    ensures traps { IfOk result (λ led. ShowsTrapAt task.now found.new.table.rows place step
        (led_traps led)) }
    ensures long { IfErr result (λ fault. fault ≡ ExploreFault.TooMany
        → StaysLong task.now found.old found.new place) }
    ensures faults { IfErr result (IsFault task.now) }
{
    let row = found.table.rows.row(place);
    let means = means_of(task);
    match step {
        Step::Alone(node) => found.table.alone(alloc, &means, &row, node as usize),
        Step::Together => found.table.together(alloc, &means, &row),
    }
}

impl Less {
    ghost use Rattle.std.specs.Prelude.{◌≡◌, ◌+◌, ◌-◌, ◌<◌, ◌++◌, ◌∷◌, IfErr, IfOk, IfSome, OnOk, [], false, is_none, true};
    ghost use Rattle.lrc_orders.specs.declared.noted.Noted.{Noted as Key};
    ghost use Rattle.lrc_orders.specs.Kept.{IsAddedAt};
    ghost use Rattle.lrc_orders_table.specs.Rows.{IsRowAt, StandsFor, row_count};
    ghost use Rattle.lrc_orders_less.specs.Reaches.{IsAlwaysUndisputed};
    ghost use Rattle.lrc_explore.specs.declared.task.Task.{Task as TheTask};
    ghost use Rattle.lrc_explore.specs.Answers.{IsFault};
    ghost use Rattle.lrc_explore.specs.Reached.{AreFound, HasAfterAt, IsMore, IsNext, IsStepOf, IsTask};
    ghost use Rattle.lrc_explore.specs.Traps.{ShowsTrapAt};
    ghost use Rattle.lrc_explore_less.specs.declared.less.Pass.TheVariants.{On};
    ghost use Rattle.lrc_explore_less.specs.Passing.{AreLess, ArePassing, HasPassed, HasStayed, IsCutLess, IsLongSome, IsNone, IsSound, IsTaken, Widens};
    ghost use Rattle.lrc_explore_less.specs.Enough.{HasBegun, IsDoneAt};

    /// Makes a list without states, for this many nodes.
    pub fn none(alloc: Global, nodes: usize) -> Less
        ensures { (task : TheTask) → task.flat.nodes ≡ nodes → IsNone task result }
    {
        Less {
            found: Found::none(alloc, nodes),
            opens: Vec::new(alloc),
            reaches: Reaches::new(alloc),
            trap: None,
        }
    }

    /// Finds the settled start, and passes on from it, up to an act after which a node makes so many free acts that the
    /// limit is reached: then it returns false. There must be no states yet. It fails if memory runs out, or if a node
    /// makes so many free acts as the start settles.
    pub fn begin(&mut self, alloc: Global, task: &Task<'_>) -> Result<bool, ExploreFault>
        requires task { IsTask task.now }
        requires none { IsNone task.now self.old }
        ensures less { OnOk result (AreLess task.now self.new) }
        ensures begun { OnOk result (HasBegun task.now self.new) }
        ensures long { IfOk result (λ passes. passes ≡ false → IsLongSome task.now self.new) }
        ensures faults { IfErr result (IsFault task.now) }
    {
        let traps = self.found.begin(alloc, task)?;
        self.trap = start_trap(traps);
        let last = self.found.table.rows.len() - 1;
        first_places(&mut self.opens, last)?;
        match self.advance(alloc, task, last) {
            Ok(()) => Ok(true),
            Err(ExploreFault::TooMany) => Ok(false),
            Err(fault) => Err(fault),
        }
    }

    /// Finds the states to which every step leads from that at a place. It fails if memory runs out, or if a node makes
    /// so many free acts that the limit is reached.
    pub fn expand(
        &mut self,
        alloc: Global,
        task: &Task<'_>,
        place: usize,
    ) -> Result<(), ExploreFault>
        requires task { IsTask task.now }
        requires less { AreLess task.now self.old }
        requires within { place < row_count self.old.found.table.rows }
        ensures less { OnOk result (AreLess task.now self.new) }
        ensures widens { OnOk result (Widens self.old self.new) }
        ensures done { OnOk result (IsDoneAt task.now self.new.found.table.rows (is_none self.new.trap) place) }
        ensures long { IfErr result (λ fault. fault ≡ ExploreFault.TooMany
            → IsCutLess task.now self.old self.new) }
        ensures faults { IfErr result (IsFault task.now) }
    {
        self.expand_step(alloc, task, place, Step::Together)?;
        for node in 0..task.flat.nodes {
            self.expand_step(alloc, task, place, Step::Alone(node))?;
        }
        Ok(())
    }

    // Finds the state to which a step leads from that at a place, if it can be taken, and passes on from it.
    fn expand_step(
        &mut self,
        alloc: Global,
        task: &Task<'_>,
        place: usize,
        step: Step,
    ) -> Result<(), ExploreFault>
        requires task { IsTask task.now }
        requires less { AreLess task.now self.old }
        requires within { place < row_count self.old.found.table.rows }
        requires step { IsStepOf task.now step }
        ensures less { OnOk result (AreLess task.now self.new) }
        ensures widens { OnOk result (Widens self.old self.new) }
        ensures after { OnOk result (HasAfterAt task.now self.new.found.table.rows place step) }
        ensures shows { OnOk result (is_none self.new.trap ≡ true
            → ShowsTrapAt task.now self.new.found.table.rows place step false) }
        ensures long { IfErr result (λ fault. fault ≡ ExploreFault.TooMany
            → IsCutLess task.now self.old self.new) }
        ensures faults { IfErr result (IsFault task.now) }
    {
        let Some((next, added)) = self.take(alloc, task, place, step)? else {
            return Ok(());
        };
        if added {
            self.advance(alloc, task, next)?;
        }
        Ok(())
    }

    // From the last state: makes undisputed acts, up to a state of which none is known, or which was found before, or
    // up to as many states as may be kept. The states from the first one on were passed just now. It fails if memory
    // runs out, or if a node makes so many free acts that the limit is reached.
    fn advance(&mut self, alloc: Global, task: &Task<'_>, first: usize) -> Result<(), ExploreFault>
        requires task { IsTask task.now }
        requires passing { ArePassing task.now self.old first }
        ensures less { OnOk result (AreLess task.now self.new) }
        ensures widens { OnOk result (Widens self.old self.new) }
        ensures long { IfErr result (λ fault. fault ≡ ExploreFault.TooMany
            → IsCutLess task.now self.old self.new) }
        ensures faults { IfErr result (IsFault task.now) }
    {
        let most = most_rows(task);
        while self.found.table.rows.len() <= most {
            match self.pass(alloc, task, first)? {
                Pass::On => {}
                Pass::Joined => return Ok(()),
                Pass::Open => return Ok(self.keep_open()?),
                Pass::Long => {
                    self.keep_open()?;
                    return Err(ExploreFault::TooMany);
                }
            }
        }
        Ok(self.keep_open()?)
    }

    // Makes an undisputed act of the last state, if one is known. The states from the first one on were passed just now.
    fn pass(&mut self, alloc: Global, task: &Task<'_>, first: usize) -> Result<Pass, ExploreFault>
        requires task { IsTask task.now }
        requires passing { ArePassing task.now self.old first }
        ensures passed { IfOk result (HasPassed task.now self.new first) }
        ensures on { IfOk result (λ pass. pass ≡ On
            → row_count self.new.found.table.rows ≡ row_count self.old.found.table.rows + 1) }
        ensures widens { OnOk result (Widens self.old self.new) }
        ensures faults { IfErr result (λ fault. fault ≡ ExploreFault.NoMemory) }
    {
        let last = self.found.table.rows.len() - 1;
        let Some(node) = self.undisputed(alloc, task, last)? else {
            return Ok(Pass::Open);
        };
        let pass = self.pass_by(alloc, task, first, last, node)?;
        Ok(pass)
    }

    // The same, by this node's act at the last state.
    fn pass_by(
        &mut self,
        alloc: Global,
        task: &Task<'_>,
        first: usize,
        last: usize,
        node: u8,
    ) -> Result<Pass, ExploreFault>
        requires task { IsTask task.now }
        requires passing { ArePassing task.now self.old first }
        requires last { last + 1 ≡ row_count self.old.found.table.rows }
        requires node { node < task.now.flat.nodes }
        requires known { (key : Key) → IsRowAt self.old.found.table.rows last key
            → IsAlwaysUndisputed task.now.flat key.state node }
        ensures passed { IfOk result (HasPassed task.now self.new first) }
        ensures on { IfOk result (λ pass. pass ≡ On
            → row_count self.new.found.table.rows ≡ row_count self.old.found.table.rows + 1) }
        ensures widens { OnOk result (Widens self.old self.new) }
        ensures faults { IfErr result (λ fault. fault ≡ ExploreFault.NoMemory) }
    {
        let taken = match self.take(alloc, task, last, Step::Alone(node)) {
            Ok(taken) => taken,
            Err(ExploreFault::TooMany) => return Ok(Pass::Long),
            // The only other fault of a step.
            Err(_) => return Err(ExploreFault::NoMemory),
        };
        let Some((next, added)) = taken else {
            return Ok(Pass::Open);
        };
        Ok(pass_of(next, added, first))
    }

    // The lowest node whose next act is known to be undisputed at the state at a place.
    fn undisputed(
        &mut self,
        alloc: Global,
        task: &Task<'_>,
        place: usize,
    ) -> Result<Option<u8>, AllocError>
        requires task { IsTask task.now }
        requires sound { IsSound task.now self.old }
        requires within { place < row_count self.old.found.table.rows }
        ensures sound { OnOk result (IsSound task.now self.new) }
        ensures others { self.new ≡ record self.old { reaches = self.new.reaches } }
        ensures node { IfOk result (λ found. IfSome found (λ node. node < task.now.flat.nodes)) }
        ensures known { IfOk result (λ found. IfSome found (λ node. (key : Key)
            → IsRowAt self.new.found.table.rows place key
            → IsAlwaysUndisputed task.now.flat key.state node)) }
    {
        // For the proof: the number of nodes is in range.
        let _nodes = task.flat.nodes;
        let row = self.found.table.rows.row(place);
        let means = means_of(task);
        let found = self
            .reaches
            .undisputed_node(alloc, &means, &self.found.table, &row)?;
        match found {
            Some(node) => Ok(Some(node as u8)),
            None => Ok(None),
        }
    }

    // Takes a step from the state at a place, if it can be taken: the place of the state that it leads to, and whether
    // that is new.
    fn take(
        &mut self,
        alloc: Global,
        task: &Task<'_>,
        place: usize,
        step: Step,
    ) -> Result<Option<(usize, bool)>, ExploreFault>
        requires task { IsTask task.now }
        requires sound { IsSound task.now self.old }
        requires within { place < row_count self.old.found.table.rows }
        requires step { IsStepOf task.now step }
        ensures sound { OnOk result (IsSound task.now self.new) }
        ensures widens { OnOk result (Widens self.old self.new) }
        ensures opens { OnOk result (self.new.opens.items ≡ self.old.opens.items) }
        ensures taken { IfOk result (IsTaken task.now self.old self.new place step) }
        ensures long { IfErr result (λ fault. fault ≡ ExploreFault.TooMany
            → HasStayed task.now self.old self.new place) }
        ensures faults { IfErr result (IsFault task.now) }
    {
        let Some(led) = row_after(&mut self.found, alloc, task, place, step)? else {
            return Ok(None);
        };
        let origin = Origin {
            parent: place,
            step,
        };
        self.trap = trap_then(self.trap, led.traps, origin);
        let put = self.put(task, led.row, origin)?;
        Ok(Some(put))
    }

    // Adds a row to which a step leads, if it is new, and where it was found. Returns its place, and whether it is new.
    fn put(
        &mut self,
        task: &Task<'_>,
        row: Row,
        origin: Origin,
    ) -> Result<(usize, bool), AllocError>
        requires found { AreFound task.now self.old.found }
        requires next { IsNext task.now self.old.found.table.rows origin row }
        ensures found { OnOk result (AreFound task.now self.new.found) }
        ensures more { OnOk result (IsMore self.old.found self.new.found) }
        ensures there { IfOk result (λ put. (key : Key)
            → StandsFor self.old.found.table.rows row key
            → IsRowAt self.new.found.table.rows put.0 key) }
        ensures added { IfOk result (λ put. IsAddedAt (row_count self.old.found.table.rows)
            (row_count self.new.found.table.rows) put.0 put.1) }
        ensures others { self.new ≡ record self.old { found = self.new.found } }
    {
        let _most = task.most;
        let (place, added) = self.found.table.put(row)?;
        if added {
            self.found.origins.push(origin)?;
        }
        Ok((place, added))
    }

    // From the last state every step is to be taken.
    fn keep_open(&mut self) -> Result<(), AllocError>
        requires { 0 < row_count self.old.found.table.rows }
        ensures opens { OnOk result (self.new.opens.items
            ≡ self.old.opens.items ++ (row_count self.old.found.table.rows - 1) ∷ []) }
        ensures others { self.new ≡ record self.old { opens = self.new.opens } }
    {
        let last = self.found.table.rows.len() - 1;
        self.opens.push(last)?;
        Ok(())
    }
}

// What becomes of passing on to the state at a place, which was added or not, where those from the first one on were
// passed just now.
fn pass_of(next: usize, added: bool, first: usize) -> Pass
    ensures { result ≡ pass_of next added first }
{
    if added {
        Pass::On
    } else if next < first {
        Pass::Joined
    } else {
        Pass::Open
    }
}
