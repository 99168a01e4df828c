// What the nodes store and tell one another of intervals, in every run, and what the acts made in them. Each function is a theorem:
// its body is empty, and its clauses are the law.

ghost use Rattle.std.specs.Prelude.{◌≡◌, ◌⊎◌, ℕ, ◌<◌, List, Some, length, map, slice_get, Contains};
ghost use Rattle.lrc_program.specs.declared.Program.{Program};
ghost use Rattle.lrc_trace.specs.Conflict.{IsRaceFree};
ghost use Rattle.lrc_page.specs.declared.size.Size.{Size};
ghost use Rattle.lrc_page.specs.Page.{words_of};
ghost use Rattle.lrc_page.specs.Changes.{change_at};
ghost use Rattle.lrc_store.specs.Interval.{IntervalRecord};
ghost use Rattle.lrc_store.specs.Store.{StoredRecord, interval_of};
ghost use Rattle.lrc_copies.specs.Word.{Fits};
ghost use Rattle.lrc_copies.specs.Page.{at_word, page_below};
ghost use Rattle.lrc_copies.specs.Stamps.{stamp_index};
ghost use Rattle.lrc_copies.specs.Reading.{IsLastWriteIn};
ghost use Rattle.lrc_protocol.specs.declared.event.Event.{Event};
ghost use Rattle.lrc_protocol.specs.Node.{OptionsRecord};
ghost use Rattle.lrc_protocol.specs.Run.{Logged, World, run_of};
ghost use Rattle.lrc_reading_laws.specs.Made.{AreMade, StoresJust};
ghost use Rattle.lrc_reading_laws.specs.Known.{AreKnown};
ghost use Rattle.lrc_reading_laws.specs.Written.{made_stamps, word_on, changes_on, page_history};
ghost use Rattle.lrc_reading_laws.specs.Acted.{AreOfActs};

/// In every run there is a list that has, for each node, one interval for each index from 1 up to the node's own entry
/// in its time, in order. Each interval that a node stores, that a pending message tells of, or that the barrier
/// manager keeps is in the list, with its stamp and its pages. This law says no more of the other intervals;
/// `what_is_known_was_made` does. (Intervals and write notices: Keleher, Cox and Zwaenepoel 1992.)
pub fn what_is_told_was_made()
    ensures { (program : Program) (nodes : ℕ) (options : OptionsRecord) (events : List Event)
        (world : World)
        → run_of program nodes options events ≡ Some world
        → (made : List IntervalRecord) × AreMade made world }
{}

/// In every run, with such a list, each node stores exactly those of its intervals that the node's time covers and its
/// collected time does not.
pub fn what_is_stored_is_what_is_not_collected()
    ensures { (program : Program) (nodes : ℕ) (options : OptionsRecord) (events : List Event)
        (world : World) (made : List IntervalRecord)
        (n : ℕ) (l : Logged) → run_of program nodes options events ≡ Some world → AreMade made world
        → slice_get world.nodes n ≡ Some l
        → StoresJust made l.node }
{}

/// In every run there is one such list, of intervals with the changes of all pages that they name, with which the nodes
/// and the acts agree. The intervals that nodes store and tell of are in it. The changes that a node knows, or that a
/// reply on its way tells, are those of the list.
///
/// Each stamp is a cut of the list, and so is each time that a node has, has collected, or remembers of an invalid
/// copy: it covers the stamp of each interval that it covers.
///
/// Each interval, even one that all have collected, has the stamp at which its node closed it, and names exactly the
/// pages that its node wrote in it. For each page it has the words at which a page that fits the intervals below
/// differs from what the node's last writes in the interval made of it. (Intervals and diffs of multiple writers:
/// Keleher, Cox and Zwaenepoel 1992; Amza et al. 1996.)
pub fn what_is_known_was_made()
    ensures { (program : Program) (nodes : ℕ) (options : OptionsRecord) (events : List Event)
        (world : World)
        → run_of program nodes options events ≡ Some world
        → (made : List StoredRecord) × AreKnown nodes made world
        × AreOfActs options.size nodes made world }
{}

/// With such a list, for each word of each page: a value that the changes of an interval give is the last that the
/// interval's node wrote to the word in the interval. For a last write in an interval, either the changes give its
/// value, or the value may already have been there by the intervals below this one: a silent write.
pub fn changes_are_last_writes()
    ensures given { (size : Size) (nodes : ℕ) (made : List StoredRecord) (world : World)
        (x : StoredRecord) (page offset value : ℕ)
        → AreOfActs size nodes made world → Contains made x → offset < words_of size
        → change_at (changes_on page x) offset ≡ Some value
        → (i : ℕ) × IsLastWriteIn world.acts (length world.acts) (word_on size page offset) x.node
        (stamp_index made_stamps x) i value }
    ensures written { (size : Size) (nodes : ℕ) (made : List StoredRecord) (world : World)
        (x : StoredRecord) (page offset i value : ℕ)
        → AreOfActs size nodes made world → Contains made x → offset < words_of size
        → IsLastWriteIn world.acts (length world.acts) (word_on size page offset) x.node
        (stamp_index made_stamps x) i value
        → (change_at (changes_on page x) offset ≡ Some value)
        ⊎ Fits (at_word (page_history size world.acts page) offset) value
        (page_below (page_history size world.acts page) made x) }
{}

/// In every run the acts fix the intervals. Two such lists have the same intervals, with the same stamps and pages; if
/// no two conflicting accesses are unordered, they also have the same changes.
pub fn acts_fix_what_was_made()
    ensures intervals { (program : Program) (nodes : ℕ) (options : OptionsRecord)
        (events : List Event) (world : World)
        (made other : List StoredRecord) (x : StoredRecord)
        → run_of program nodes options events ≡ Some world
        → AreKnown nodes made world → AreOfActs options.size nodes made world
        → AreKnown nodes other world → AreOfActs options.size nodes other world
        → Contains made x → Contains (map interval_of other) (interval_of x) }
    ensures changes { (program : Program) (nodes : ℕ) (options : OptionsRecord)
        (events : List Event) (world : World)
        (made other : List StoredRecord) (x y : StoredRecord) (page : ℕ)
        → run_of program nodes options events ≡ Some world
        → AreKnown nodes made world → AreOfActs options.size nodes made world
        → AreKnown nodes other world → AreOfActs options.size nodes other world
        → IsRaceFree world.acts → Contains made x → Contains other y → interval_of x ≡ interval_of y
        → changes_on page x ≡ changes_on page y }
{}
