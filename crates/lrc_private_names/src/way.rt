// A node on its way through the text, and which of its acts set its private names.

ghost use Rattle.std.specs.Prelude.{◌≡◌, ◌∷◌, ◌<◌, ◌≤◌, ℕ, [], IfOk, IfSome, List, MatchOption, None, length, slice_index_or};
ghost use Rattle.lrc_program.specs.Sizes.{names_in_statement};
ghost use Rattle.lrc_program.specs.Statements.{statement_of};
ghost use Rattle.lrc_program.specs.declared.Statement.{Statement as AnyStatement};
ghost use Rattle.lrc_exec.specs.Plain.{start_of};
ghost use Rattle.lrc_lines.specs.Walks.{goes_on, value_given};
ghost use Rattle.lrc_private_names.specs.Standing.{completes, first_set, passes, set_by};
ghost use Rattle.lrc_private_names.specs.Ways.{IsOnWay, IsWayTo, noted, thread_led, thread_of};

use crate::statement::name_set;
use lrc_exec::code::Code;
use lrc_exec::machine::Ask;
use lrc_exec::spot::{Flat, Spot};
use lrc_program::Statement;
use lrc_trace::act::{Act, Deed};
use std::alloc::{AllocError, Global};

/// Where a node is in the flat code of a program, and for each private name the act that last set it.
#[derive(Drop)]
pub struct Way<'c> {
    pub flat: Flat<'c>,
    pub spot: Spot,
    pub set: Vec<Option<usize>>,
}

// Whether a deed completes the statement that it is of.
fn completes(deed: Deed) -> bool
    ensures { result ≡ completes deed }
{
    !matches!(deed, Deed::Arrive | Deed::Trap(_) | Deed::End)
}

// Whether a thread goes on that asks for this.
fn goes_on(ask: Ask) -> bool
    ensures { result ≡ goes_on ask }
{
    !matches!(ask, Ask::Trap(_) | Ask::End)
}

// The value that a deed gives its thread.
fn value_given(deed: Deed) -> u64
    ensures { result ≡ value_given deed }
{
    match deed {
        Deed::Read(_, value) => value,
        _ => 0,
    }
}

impl<'c> Way<'c> {
    /// Places node `me` of `nodes` at the beginning of a program, with no name set. It fails if memory runs out.
    pub fn start(
        alloc: Global,
        code: &'c Code<'_>,
        nodes: u8,
        me: u8,
    ) -> Result<Way<'c>, AllocError>
        ensures on { IfOk result IsOnWay }
        ensures thread { IfOk result (λ way. thread_of way ≡ start_of code.now nodes me) }
        ensures unset { IfOk result (λ way. (name : ℕ)
            → slice_index_or way.set.items name None ≡ None) }
    {
        let (flat, place) = Flat::of(code, nodes);
        let set = vec![in alloc; None; 32]?;
        Ok(Way {
            flat,
            spot: Spot {
                me,
                place,
                privates: [0; 32],
                held: [false; 64],
                arrived: false,
                stopped: false,
            },
            set,
        })
    }

    /// Returns the statement that comes next, or none at the end of the text.
    pub fn statement(&self) -> Option<&'c Statement>
        requires { IsOnWay self.now }
        ensures next { MatchOption result ((thread_of self.now).rest ≡ [])
            (λ statement. (rest : List AnyStatement)
            × ((thread_of self.now).rest ≡ statement.now ∷ rest)) }
        ensures names { IfSome result (λ statement. names_in_statement (statement_of statement.now)
            ≤ 32) }
    {
        let Some(index) = self.spot.place.checked_sub(1) else {
            return None;
        };
        Some(self.flat.code[index].statement)
    }

    // The name that the statement sets that comes next.
    fn next_set(&self) -> Option<u8>
        requires { IsOnWay self.now }
        ensures name { result ≡ first_set (thread_of self.now).rest }
        ensures few { IfSome result (λ name. name < 32) }
    {
        name_set(self.statement()?)
    }

    // Whether the node goes on behind its statement by this deed.
    fn passes(&self, deed: Deed) -> bool
        requires { IsOnWay self.now }
        ensures { result ≡ passes (thread_of self.now) deed }
    {
        completes(deed) && goes_on(self.flat.ask(&self.spot))
    }

    /// Moves the node on by this deed, its act at this position, and records the private name that the act sets, if it
    /// sets one.
    pub fn follow(&mut self, at: usize, deed: Deed)
        requires { IsOnWay self.old }
        ensures on { IsOnWay self.new }
        ensures thread { thread_of self.new ≡ thread_led (thread_of self.old) deed }
        ensures set { self.new.set.items ≡ noted at
            (set_by (thread_of self.old) deed) self.old.set.items }
    {
        if !self.passes(deed) {
            return;
        }
        if let Some(name) = self.next_set() {
            self.set[usize::from(name)] = Some(at);
        }
        let flat = self.flat;
        flat.answer(&mut self.spot, value_given(deed));
    }

    /// Follows a node up to this position of a run of `nodes` nodes, the act at the position excluded. It fails if
    /// memory runs out.
    pub fn to(
        alloc: Global,
        code: &'c Code<'_>,
        nodes: u8,
        acts: &[Act],
        me: u8,
        position: usize,
    ) -> Result<Way<'c>, AllocError>
        requires { position ≤ length acts.now }
        ensures { IfOk result (λ way. (lines : List ℕ)
            → IsWayTo code.now nodes lines acts.now me position way) }
    {
        let mut way = Way::start(alloc, code, nodes, me)?;
        for at in 0..position {
            let act = acts[at];
            if act.node == me {
                way.follow(at, act.deed);
            }
        }
        Ok(way)
    }
}
