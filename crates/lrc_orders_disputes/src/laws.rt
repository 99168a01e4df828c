// Following texts finds undisputed acts. Each function is a theorem: its body is empty, and its clause is the law.

ghost use Rattle.std.specs.Prelude.{◌≡◌, ℕ, Bool, true, List, Some};
ghost use Rattle.lrc_program.specs.declared.Statement.{Statement};
ghost use Rattle.lrc_program.specs.declared.Program.{Program};
ghost use Rattle.lrc_trace.specs.declared.act.Act.{Act};
ghost use Rattle.lrc_trace.specs.declared.act.Deed.{Deed};
ghost use Rattle.lrc_exec.specs.Meaning.{Thread};
ghost use Rattle.lrc_exec.specs.Plain.{Plain, thread_in, plain_step};
ghost use Rattle.lrc_orders_laws.specs.Free.{is_contended};
ghost use Rattle.lrc_orders_laws.specs.Steps.{IsSettledState};
ghost use Rattle.lrc_orders_undisputed.specs.Undisputed.{IsUndisputed};
ghost use Rattle.lrc_orders_disputes.specs.Followed.{IsFollowed, NoneConflicts};
ghost use Rattle.lrc_orders_disputes.specs.Places.{ArePlacesFollowed, NoPlaceConflicts};

/// Let the texts of the other nodes be followed from a settled state up to their next barriers, through every branch
/// that some value leads to, and past no acquire of a lock that the node holds. If what is met there does not conflict
/// with the node's read, write or acquire, that act is undisputed. Any superset of threads and values will do.
pub fn acts_that_no_text_comes_to_dispute_are_undisputed()
    ensures { (program : Program) (nodes : ℕ) (acts : List Act) (machine after : Plain) (node : ℕ) (deed : Deed)
        (thread : Thread) (values : ℕ → ℕ → Bool) (threads : ℕ → Thread → Bool)
        → IsSettledState program nodes acts machine
        → thread_in machine node ≡ Some thread → plain_step machine node ≡ Some (deed, after)
        → is_contended deed ≡ true → IsFollowed machine node thread values threads
        → NoneConflicts node deed threads → IsUndisputed machine node deed after }
{}

/// The same by places of the text alone: let the other nodes' places be followed through both branches of each choice and
/// loop, up to the next barriers. If no thread at one of these places conflicts, whatever its names and locks, the
/// node's read, write or acquire is undisputed. Any superset of places will do.
pub fn acts_that_no_place_disputes_are_undisputed()
    ensures { (program : Program) (nodes : ℕ) (acts : List Act) (machine after : Plain) (node : ℕ) (deed : Deed)
        (places : ℕ → List Statement → Bool) → IsSettledState program nodes acts machine
        → plain_step machine node ≡ Some (deed, after) → is_contended deed ≡ true
        → ArePlacesFollowed machine node places → NoPlaceConflicts machine node deed places
        → IsUndisputed machine node deed after }
{}
