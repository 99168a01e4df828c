// Judging the claims of a report.
ghost use Rattle.std.specs.Prelude.{◌≡◌, ℕ, ◌<◌, List, IfOk, IsSome, OnOk, length, slice_get, Some, vec_len};
ghost use Rattle.lrc_races_trace.specs.declared.event.Event.{Event as AnyEvent};
ghost use Rattle.lrc_races_text.specs.declared.asked.Sought.{Sought as AnySought};
ghost use Rattle.lrc_races_text.specs.Naming.{Naming};
ghost use Rattle.lrc_races_text.specs.Tables.{naming_of};
ghost use Rattle.lrc_races_witness.specs.Relations.{AreByLine};
ghost use Rattle.lrc_races_score.specs.Claims.{event, locations, pair, statement_of};
ghost use Rattle.lrc_races_claims.specs.Judge.{IsJudge, IsSomeJudge, StaysJudge};
ghost use Rattle.lrc_races_claims.specs.Judging.{IsFirstFound};
ghost use Rattle.lrc_races_claims.specs.Truth.{IsJudged};

use crate::asking::Asker;
use crate::judging::{
    Facts, FirstRacing, first_racing, judge_event, judge_first, judge_pair, judge_variable,
};
use crate::known::KnownNames;
use crate::places::{Places, judge_locations, places_of};
use crate::verdict::Verdict;
use lrc_races_lines::table::Table;
use lrc_races_score::claim::Claim;
use lrc_races_text::asked::Sought;
use lrc_races_text::naming::Names;
use lrc_races_trace::event::Event;
use std::alloc::{AllocError, Global};

/// What claims about a trace are judged by. What takes a pass over the trace is found out when a claim first needs it.
#[derive(Drop)]
pub struct Judge {
    alloc: Global,
    sought: Sought,
    last: u64,
    asker: Asker,
    /// The names of the trace, but those of its variables.
    pub names: Names,
    /// The names of its variables.
    pub variables: KnownNames,
    /// What is known of its events, if it was needed.
    pub facts: Option<Facts>,
    /// The places of its accesses, if they were needed.
    pub places: Option<Places>,
}

impl Judge {
    /// Returns the judge of claims about a trace: its names, and the number of its lines. It allocates nothing.
    pub fn new(alloc: Global, sought: Sought, names: Names, last: u64) -> Judge
        ensures { (events : List AnyEvent) → IsJudge sought (naming_of names) events last result }
    {
        let Names {
            threads,
            variables,
            locks,
            barriers,
            locations,
        } = names;
        let names = Names {
            threads,
            variables: Table::new(alloc),
            locks,
            barriers,
            locations,
        };
        Judge {
            alloc,
            sought,
            last,
            asker: Asker::new(alloc, sought),
            names,
            variables: KnownNames::new(variables),
            facts: None,
            places: None,
        }
    }

    /// Finds out what is known of the events of the trace. It fails if memory runs out.
    pub fn learn_facts(&mut self, events: &[Event]) -> Result<(), AllocError>
        ensures known { OnOk result (IsSome self.new.facts) }
        ensures stays { OnOk result (StaysJudge events.now self.old self.new) }
    {
        if self.facts.is_some() {
            return Ok(());
        }
        self.facts = Some(Facts::new(self.alloc, self.sought, events)?);
        Ok(())
    }

    /// Finds out the places of the accesses of the trace. It fails if memory runs out.
    pub fn learn_places(&mut self, events: &[Event]) -> Result<(), AllocError>
        ensures known { OnOk result (IsSome self.new.places) }
        ensures stays { OnOk result (StaysJudge events.now self.old self.new) }
    {
        if self.places.is_some() {
            return Ok(());
        }
        self.places = Some(places_of(self.alloc, self.sought, &self.names, events)?);
        Ok(())
    }

    // What is said of the claim that the access on a line races with an earlier one.
    fn event(&mut self, events: &[Event], line: u64) -> Result<Verdict, AllocError>
        requires by_line { AreByLine events.now }
        requires judge { IsSomeJudge events.now self.old }
        ensures judged { IfOk result (λ verdict. (sought : AnySought) (naming : Naming) (last : ℕ)
            → IsJudge sought naming events.now last self.old
            → IsJudged sought naming events.now last (event line) verdict) }
        ensures stays { OnOk result (StaysJudge events.now self.old self.new) }
    {
        self.learn_facts(events)?;
        match &self.facts {
            Some(facts) => Ok(judge_event(events, facts, self.last, line)),
            None => unreachable!(),
        }
    }

    // What is said of the claim that some two accesses at two places race.
    fn locations(
        &mut self,
        events: &[Event],
        place: &[u8],
        other: &[u8],
    ) -> Result<Verdict, AllocError>
        ensures judged { IfOk result (λ verdict. (sought : AnySought) (naming : Naming) (last : ℕ)
            → IsJudge sought naming events.now last self.old
            → IsJudged sought naming events.now last (locations place.now other.now) verdict) }
        ensures stays { OnOk result (StaysJudge events.now self.old self.new) }
    {
        self.learn_places(events)?;
        match &mut self.places {
            Some(places) => judge_locations(places, place, other),
            None => unreachable!(),
        }
    }

    // The first access of the variable of this name that races with an earlier one.
    fn first(&mut self, events: &[Event], name: &[u8]) -> Result<FirstRacing, AllocError>
        ensures found { IfOk result (λ found. (sought : AnySought) (naming : Naming) (last : ℕ)
            → IsJudge sought naming events.now last self.old
            → IsFirstFound sought naming events.now name.now found) }
        ensures stays { OnOk result (StaysJudge events.now self.old self.new) }
    {
        self.learn_facts(events)?;
        match &self.facts {
            Some(facts) => first_racing(facts, &mut self.variables, name),
            None => unreachable!(),
        }
    }

    // What is said of the claim that the accesses on two lines race.
    fn pair(&mut self, events: &[Event], line: u64, other: u64) -> Result<Verdict, AllocError>
        requires by_line { AreByLine events.now }
        requires judge { IsSomeJudge events.now self.old }
        ensures judged { IfOk result (λ verdict. (sought : AnySought) (naming : Naming) (last : ℕ)
            → IsJudge sought naming events.now last self.old
            → IsJudged sought naming events.now last (pair line other) verdict) }
        ensures stays { OnOk result (StaysJudge events.now self.old self.new) }
    {
        judge_pair(events, &mut self.asker, self.last, line, other)
    }

    /// Returns what is said of a claim about the trace. It fails if memory runs out, and then the judge is of no use.
    pub fn claim(&mut self, events: &[Event], claim: Claim<'_>) -> Result<Verdict, AllocError>
        requires by_line { AreByLine events.now }
        requires judge { IsSomeJudge events.now self.old }
        ensures judged { IfOk result (λ verdict. (sought : AnySought) (naming : Naming) (last : ℕ)
            → IsJudge sought naming events.now last self.old
            → IsJudged sought naming events.now last (statement_of claim.entry) verdict) }
        ensures stays { OnOk result (StaysJudge events.now self.old self.new) }
    {
        match claim {
            Claim::Event(line) => self.event(events, line),
            Claim::Pair(line, other) => self.pair(events, line, other),
            Claim::Locations(place, other) => self.locations(events, place, other),
            Claim::Variable(name) => {
                let found = self.first(events, name)?;
                Ok(judge_variable(found))
            }
            Claim::First(name, line) => {
                let found = self.first(events, name)?;
                Ok(judge_first(events, self.last, line, found))
            }
        }
    }
}
