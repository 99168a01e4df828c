// The search through the exact runs of a program.

ghost use Rattle.std.specs.Prelude.{◌≡◌, ◌≢◌, ◌↔◌, ◌++◌, ◌∷◌, ◌<◌, ◌≤◌, ◌+◌, ◌-◌, ◌*◌, ◌^◌, [], ℕ, List, IfOk, IfErr};
ghost use Rattle.lrc_trace.specs.declared.act.Act.{Act as ActType};
ghost use Rattle.lrc_trace.specs.declared.act.Deed.{Deed as DeedType};
ghost use Rattle.lrc_trace.specs.Run.{Does, act_of};
ghost use Rattle.lrc_orders.specs.Notes.{notes_of};
ghost use Rattle.lrc_orders.specs.Outcome.{HasOutcome};
ghost use Rattle.lrc_exact_judge.specs.Shape.{shape_of};
ghost use Rattle.lrc_exact_outcomes.specs.Outcome.{IsExactOutcome};
ghost use Rattle.lrc_exact_search.specs.Run.{IsTask};
ghost use Rattle.lrc_exact_search.specs.Searching.{AreRunsOf, FitsExactly, MeetsMore};

use crate::run::{ExactRun, Task, replayed};
use indexmap::IndexSet;
use lrc_exact_judge::layout::Layout;
use lrc_exec::code::Code;
use lrc_exec::spot::Flat;
use lrc_exec::state::copied;
use lrc_orders::notes::note;
use lrc_orders::outcomes::Outcome;
use lrc_orders::search::ExploreFault;
use lrc_program::Program;
use lrc_trace::act::{Act, Deed};
use std::alloc::{AllocError, Global};

/// A run that was met: its acts.
#[derive(PartialEq, Eq, Hash, Drop)]
pub struct Met {
    pub acts: Vec<Act>,
}

/// The outcomes of the exact runs of a program, and for each a run that has it: that which was met first.
#[derive(Drop)]
pub struct ExactOutcomes {
    pub outcomes: IndexSet<Outcome>,
    pub runs: Vec<Met>,
}

/// Returns every outcome of the exact runs of a program, after which no node can make an act, and for each a run that has
/// it. Gives up with `TooMany` only if there are more than `most` different exact runs, or some exact runs, no two of them
/// equal, that have more than 1,000,000 + 20 · `most` acts together; where it answers, no more than `most` runs are enough.
/// It fails if memory runs out.
pub fn exact_outcomes(
    alloc: Global,
    program: &Program,
    layout: Layout,
    most: usize,
) -> Result<ExactOutcomes, ExploreFault>
    ensures exact { IfOk result (λ found. (notes : List ActType)
        → (IsExactOutcome program.now (shape_of layout) notes
        ↔ HasOutcome found.outcomes.keys notes)) }
    ensures runs { IfOk result (λ found. AreRunsOf program.now (shape_of layout)
        found.outcomes.keys found.runs.items) }
    ensures nodes { IfErr result (λ fault. fault ≢ ExploreFault.BadNodes) }
    ensures too_many { IfErr result (λ fault. fault ≡ ExploreFault.TooMany
        → MeetsMore program.now (shape_of layout) most) }
    ensures fits { IfOk result (λ found. FitsExactly program.now (shape_of layout) most
        found.outcomes.keys) }
{
    let code = Code::new(alloc, program)?;
    exact_outcomes_of(alloc, &code, layout, most)
}

// The same of a program's flat code.
fn exact_outcomes_of(
    alloc: Global,
    code: &Code<'_>,
    layout: Layout,
    most: usize,
) -> Result<ExactOutcomes, ExploreFault>
    ensures exact { IfOk result (λ found. (notes : List ActType)
        → (IsExactOutcome code.now (shape_of layout) notes
        ↔ HasOutcome found.outcomes.keys notes)) }
    ensures runs { IfOk result (λ found. AreRunsOf code.now (shape_of layout)
        found.outcomes.keys found.runs.items) }
    ensures nodes { IfErr result (λ fault. fault ≢ ExploreFault.BadNodes) }
    ensures too_many { IfErr result (λ fault. fault ≡ ExploreFault.TooMany
        → MeetsMore code.now (shape_of layout) most) }
    ensures fits { IfOk result (λ found. FitsExactly code.now (shape_of layout) most
        found.outcomes.keys) }
{
    let task = task_of(code, layout, most);
    let mut searched = Searched::none(alloc);
    let all = searched.search(alloc, &task);
    let found = searched.found;
    match all {
        Ok(()) => Ok(found),
        Err(fault) => Err(fault),
    }
}

// What is searched of a program's code.
fn task_of<'c>(code: &'c Code<'c>, layout: Layout, most: usize) -> Task<'c>
    ensures task { IsTask result }
    ensures program { result.program.now ≡ code.now }
    ensures layout { result.layout ≡ layout }
    ensures most { result.most ≡ most }
{
    let (flat, start) = Flat::of(code, layout.nodes);
    Task {
        program: code.program(),
        flat,
        start,
        layout,
        most,
    }
}

// What is noted of acts.
fn notes_of(alloc: Global, nodes: u8, acts: &[Act]) -> Result<Vec<Act>, AllocError>
    requires { (j node : ℕ) (deed : DeedType) → Does acts.now j node deed → node < nodes }
    ensures { IfOk result (λ notes. notes.items ≡ notes_of nodes acts.now) }
{
    let mut notes = Vec::new(alloc);
    for act in acts {
        note(&mut notes, *act)?;
    }
    Ok(notes)
}

// Acts, and one more.
fn with_act(alloc: Global, acts: &[Act], node: u8, deed: Deed) -> Result<Vec<Act>, AllocError>
    ensures { IfOk result (λ longer. longer.items ≡ acts.now ++ act_of node deed ∷ []) }
{
    let mut longer = copied(alloc, acts)?;
    longer.push(Act { node, deed })?;
    Ok(longer)
}

// The most acts that the runs may have together.
fn most_acts(most: usize) -> usize
    ensures at_most { result ≤ 1000000 + 20 * most }
    ensures least { result < 2 ^ 64 - 1 → result ≡ 1000000 + 20 * most }
{
    most.saturating_mul(20).saturating_add(1_000_000)
}

// The runs that were met, each once, in the order in which they were, and what was found.
#[derive(Drop)]
struct Searched {
    runs: IndexSet<Met>,
    found: ExactOutcomes,
}

impl Searched {
    ghost use Rattle.std.specs.Prelude.{◌≡◌, ◌≢◌, ◌↔◌, ◌++◌, ◌∷◌, ◌<◌, ◌≤◌, ◌+◌, ◌*◌, ◌⊎◌, List, IfOk, IfErr, OnOk, Some, [], true, false, length, slice_get};
    ghost use Rattle.lrc_trace.specs.declared.act.Act.{Act as ActType};
    ghost use Rattle.lrc_orders.specs.Kept.{Grows};
    ghost use Rattle.lrc_orders.specs.Notes.{notes_of};
    ghost use Rattle.lrc_orders.specs.Outcome.{HasOutcome};
    ghost use Rattle.lrc_lazy.specs.Lazy.{IsOver};
    ghost use Rattle.lrc_exact_laws.specs.Laws.{IsExactRun};
    ghost use Rattle.lrc_exact_judge.specs.Shape.{shape_of};
    ghost use Rattle.lrc_exact_outcomes.specs.Outcome.{IsExactOutcome};
    ghost use Rattle.lrc_exact_search.specs.declared.search.Met.{Met as MetType};
    ghost use Rattle.lrc_exact_search.specs.Run.{IsAt, IsTask};
    ghost use Rattle.lrc_exact_search.specs.Searching.{acts_in, AreInOrder, AreRunsOf, FitsExactly, IsMet, IsSearched, MeetsMore, Parts};

    // No runs, and no outcomes.
    fn none(alloc: Global) -> Searched
        ensures runs { result.runs.keys ≡ [] }
        ensures outcomes { result.found.outcomes.keys ≡ [] }
        ensures found { result.found.runs.items ≡ [] }
    {
        Searched {
            runs: IndexSet::new(alloc),
            found: ExactOutcomes {
                outcomes: IndexSet::new(alloc),
                runs: Vec::new(alloc),
            },
        }
    }

    // From the run without acts on, where there is nothing yet, goes through all runs.
    fn search(&mut self, alloc: Global, task: &Task<'_>) -> Result<(), ExploreFault>
        requires task { IsTask task.now }
        requires runs { self.old.runs.keys ≡ [] }
        requires outcomes { self.old.found.outcomes.keys ≡ [] }
        requires found { self.old.found.runs.items ≡ [] }
        ensures exact { OnOk result ((notes : List ActType)
            → (IsExactOutcome task.now.program.now (shape_of task.now.layout) notes
            ↔ HasOutcome self.new.found.outcomes.keys notes)) }
        ensures runs { OnOk result (AreRunsOf task.now.program.now (shape_of task.now.layout)
            self.new.found.outcomes.keys self.new.found.runs.items) }
        ensures nodes { IfErr result (λ fault. fault ≢ ExploreFault.BadNodes) }
        ensures too_many { IfErr result (λ fault. fault ≡ ExploreFault.TooMany
            → MeetsMore task.now.program.now (shape_of task.now.layout) task.now.most) }
        ensures fits { OnOk result (FitsExactly task.now.program.now (shape_of task.now.layout)
            task.now.most self.new.found.outcomes.keys) }
    {
        self.begin(alloc, task)?;
        self.go_through(alloc, task)
    }

    // Meets the run without acts, where there are no runs yet.
    fn begin(&mut self, alloc: Global, task: &Task<'_>) -> Result<(), AllocError>
        requires { self.old.runs.keys ≡ [] }
        ensures order { OnOk result (AreInOrder task.now.program.now (shape_of task.now.layout)
            self.new.runs.keys) }
        ensures same { self.new.found ≡ self.old.found }
    {
        let _task = task;
        let acts = Vec::new(alloc);
        self.runs.insert_full(Met { acts })?;
        Ok(())
    }

    // Goes through the runs, in the order in which they are met.
    fn go_through(&mut self, alloc: Global, task: &Task<'_>) -> Result<(), ExploreFault>
        requires task { IsTask task.now }
        requires order { AreInOrder task.now.program.now (shape_of task.now.layout)
            self.old.runs.keys }
        requires outcomes { self.old.found.outcomes.keys ≡ [] }
        requires found { self.old.found.runs.items ≡ [] }
        ensures exact { OnOk result ((notes : List ActType)
            → (IsExactOutcome task.now.program.now (shape_of task.now.layout) notes
            ↔ HasOutcome self.new.found.outcomes.keys notes)) }
        ensures runs { OnOk result (AreRunsOf task.now.program.now (shape_of task.now.layout)
            self.new.found.outcomes.keys self.new.found.runs.items) }
        ensures nodes { IfErr result (λ fault. fault ≢ ExploreFault.BadNodes) }
        ensures too_many { IfErr result (λ fault. fault ≡ ExploreFault.TooMany
            → MeetsMore task.now.program.now (shape_of task.now.layout) task.now.most) }
        ensures fits { OnOk result (FitsExactly task.now.program.now (shape_of task.now.layout)
            task.now.most self.new.found.outcomes.keys) }
    {
        let mut place = 0;
        let mut acts = 0;
        while place < self.runs.len() {
            if self.is_too_much(task, acts) {
                return Err(ExploreFault::TooMany);
            }
            acts = self.acts_to(place, acts);
            self.visit(alloc, task, place)?;
            place += 1;
        }
        Ok(())
    }

    // Whether there are more runs than may be, or those looked at have more acts together than may be.
    fn is_too_much(&self, task: &Task<'_>, acts: usize) -> bool
        requires { acts ≤ acts_in self.now.runs.keys }
        ensures much { result ≡ true → (task.now.most < length self.now.runs.keys)
            ⊎ (1000000 + 20 * task.now.most < acts_in self.now.runs.keys) }
        ensures few { result ≡ false → length self.now.runs.keys ≤ task.now.most }
    {
        self.runs.len() > task.most || acts > most_acts(task.most)
    }

    // How many acts the runs up to this place have together, or fewer where the number has no room.
    fn acts_to(&self, place: usize, acts: usize) -> usize
        requires { place < length self.now.runs.keys }
        ensures { (met : MetType) → slice_get self.now.runs.keys place ≡ Some met
            → result ≤ acts + length met.acts.items }
    {
        acts.saturating_add(self.runs.as_slice()[place].acts.len())
    }

    // Looks at a run: goes ahead, and meets the run that lies there, or those to which it parts. A run that goes on for
    // ever without other nodes has no outcome.
    #[tactic(auto, using(crate::proofs::Complete::searched_endless, crate::proofs::Complete::searched_further, crate::proofs::Complete::searched_parts))]
    fn visit(&mut self, alloc: Global, task: &Task<'_>, place: usize) -> Result<(), AllocError>
        requires task { IsTask task.now }
        requires order { AreInOrder task.now.program.now (shape_of task.now.layout)
            self.old.runs.keys }
        requires sound { AreRunsOf task.now.program.now (shape_of task.now.layout)
            self.old.found.outcomes.keys self.old.found.runs.items }
        requires within { place < length self.old.runs.keys }
        ensures order { OnOk result (AreInOrder task.now.program.now (shape_of task.now.layout)
            self.new.runs.keys) }
        ensures grows { OnOk result (Grows self.old.runs.keys self.new.runs.keys) }
        ensures more { OnOk result (Grows self.old.found.outcomes.keys
            self.new.found.outcomes.keys) }
        ensures sound { OnOk result (AreRunsOf task.now.program.now (shape_of task.now.layout)
            self.new.found.outcomes.keys self.new.found.runs.items) }
        ensures done { OnOk result ((met : MetType) → slice_get self.old.runs.keys place ≡ Some met
            → IsSearched task.now.program.now (shape_of task.now.layout) self.new.runs.keys
            self.new.found.outcomes.keys met.acts.items) }
    {
        let mut run = replayed(alloc, task, &self.runs.as_slice()[place].acts)?;
        if run.spins(alloc, task)? {
            return Ok(());
        }
        if run.settle(alloc, task)? {
            self.meet(task, run.acts)
        } else {
            self.part(alloc, task, &run)
        }
    }

    // Meets a run.
    fn meet(&mut self, task: &Task<'_>, acts: Vec<Act>) -> Result<(), AllocError>
        requires order { AreInOrder task.now.program.now (shape_of task.now.layout)
            self.old.runs.keys }
        requires exact { IsExactRun task.now.program.now (shape_of task.now.layout) acts.items }
        ensures order { OnOk result (AreInOrder task.now.program.now (shape_of task.now.layout)
            self.new.runs.keys) }
        ensures grows { OnOk result (Grows self.old.runs.keys self.new.runs.keys) }
        ensures met { OnOk result (IsMet self.new.runs.keys acts.items) }
        ensures same { self.new.found ≡ self.old.found }
    {
        let _task = task;
        self.runs.insert_full(Met { acts })?;
        Ok(())
    }

    // Meets each run to which a run parts; where there is none, its outcome is taken.
    fn part(&mut self, alloc: Global, task: &Task<'_>, run: &ExactRun) -> Result<(), AllocError>
        requires task { IsTask task.now }
        requires at { IsAt task.now run.now }
        requires order { AreInOrder task.now.program.now (shape_of task.now.layout)
            self.old.runs.keys }
        requires sound { AreRunsOf task.now.program.now (shape_of task.now.layout)
            self.old.found.outcomes.keys self.old.found.runs.items }
        ensures order { OnOk result (AreInOrder task.now.program.now (shape_of task.now.layout)
            self.new.runs.keys) }
        ensures grows { OnOk result (Grows self.old.runs.keys self.new.runs.keys) }
        ensures more { OnOk result (Grows self.old.found.outcomes.keys
            self.new.found.outcomes.keys) }
        ensures sound { OnOk result (AreRunsOf task.now.program.now (shape_of task.now.layout)
            self.new.found.outcomes.keys self.new.found.runs.items) }
        ensures parts { OnOk result (Parts task.now.program.now (shape_of task.now.layout)
            self.new.runs.keys self.new.found.outcomes.keys run.now.acts.items) }
    {
        if self.meet_nexts(alloc, task, run)? {
            Ok(())
        } else {
            self.take_outcome(alloc, task, run)
        }
    }

    // Meets the runs with one act more, and says whether there is one.
    fn meet_nexts(
        &mut self,
        alloc: Global,
        task: &Task<'_>,
        run: &ExactRun,
    ) -> Result<bool, AllocError>
        requires task { IsTask task.now }
        requires at { IsAt task.now run.now }
        requires order { AreInOrder task.now.program.now (shape_of task.now.layout)
            self.old.runs.keys }
        ensures order { OnOk result (AreInOrder task.now.program.now (shape_of task.now.layout)
            self.new.runs.keys) }
        ensures grows { OnOk result (Grows self.old.runs.keys self.new.runs.keys) }
        ensures nexts { OnOk result ((act : ActType)
            → IsExactRun task.now.program.now (shape_of task.now.layout)
            (run.now.acts.items ++ act ∷ [])
            → IsMet self.new.runs.keys (run.now.acts.items ++ act ∷ [])) }
        ensures some { IfOk result (λ some. some ≡ true
            → ¬ IsOver task.now.program.now task.now.layout.nodes run.now.acts.items) }
        ensures none { IfOk result (λ some. some ≡ false
            → IsOver task.now.program.now task.now.layout.nodes run.now.acts.items) }
        ensures same { self.new.found ≡ self.old.found }
    {
        let mut some = false;
        for node in 0..task.layout.nodes {
            if let Some(deed) = run.deed(task, node) {
                let longer = with_act(alloc, &run.acts, node, deed)?;
                self.meet(task, longer)?;
                some = true;
            }
        }
        Ok(some)
    }

    // Takes the outcome of a run after which no node can act.
    fn take_outcome(
        &mut self,
        alloc: Global,
        task: &Task<'_>,
        run: &ExactRun,
    ) -> Result<(), AllocError>
        requires at { IsAt task.now run.now }
        requires over { IsOver task.now.program.now task.now.layout.nodes run.now.acts.items }
        requires sound { AreRunsOf task.now.program.now (shape_of task.now.layout)
            self.old.found.outcomes.keys self.old.found.runs.items }
        ensures more { OnOk result (Grows self.old.found.outcomes.keys
            self.new.found.outcomes.keys) }
        ensures sound { OnOk result (AreRunsOf task.now.program.now (shape_of task.now.layout)
            self.new.found.outcomes.keys self.new.found.runs.items) }
        ensures has { OnOk result (HasOutcome self.new.found.outcomes.keys
            (notes_of task.now.layout.nodes run.now.acts.items)) }
        ensures same { self.new.runs ≡ self.old.runs }
    {
        let notes = notes_of(alloc, task.layout.nodes, &run.acts)?;
        let (_, is_new) = self.found.outcomes.insert_full(Outcome { notes })?;
        if is_new {
            let acts = copied(alloc, &run.acts)?;
            self.found.runs.push(Met { acts })?;
        }
        Ok(())
    }
}
