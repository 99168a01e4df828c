// What always holds of what is asked of makers. Each function is a law: its clauses are the statement, and there is nothing
// to do.

ghost use Rattle.std.specs.Prelude.{◌≡◌, ℕ, ◌<◌, List, All};
ghost use Rattle.lrc_store.specs.declared.key.Key.{Key};
ghost use Rattle.lrc_store.specs.Store.{StoreRecord, IsStore, IsMissing};
ghost use Rattle.lrc_protocol.specs.Pages.{asked_of};
ghost use Rattle.lrc_need.specs.Need.{AreAskable};

/// The notices of a page that a time does not know may be asked for.
pub fn missing_changes_may_be_asked_for()
    ensures { (store : StoreRecord) (page : ℕ) (since : List ℕ) (found : List Key)
        → IsStore store → IsMissing store page since found → AreAskable found }
{}

/// Changes are asked only of nodes of the run.
pub fn only_nodes_are_asked()
    ensures { (nodes : ℕ) (keys : List Key)
        → All (λ asked. asked.maker < nodes) (asked_of nodes keys) }
{}
