// What always holds of page tables. Each function is a law: its clauses are the statement, and there is nothing to do.

ghost use Rattle.std.specs.Prelude.{◌≡◌, ◌≢◌, ◌<◌, ◌↔◌, ℕ, List, Some, None, IsSome, true, false, length, Contains};
ghost use Rattle.lrc_page.specs.declared.size.Size.{Size};
ghost use Rattle.lrc_page.specs.Changes.{changes_between};
ghost use Rattle.lrc_page.specs.Pages.{IsRising};
ghost use Rattle.lrc_table.specs.PageCopy.{PageCopy, IsWhole, is_readable, is_pending, pending_changes, read_at, after_write, closed, settled};
ghost use Rattle.lrc_table.specs.PageCopy.{without_twin, invalidated, repaired, installed, dropped, with_base, without_base};
ghost use Rattle.lrc_table.specs.Table.{Table, copy_at, with_copy, with_each, written_pages};

use crate::slot::State;

/// A readable copy gives at each offset the value that was written there last.
pub fn reading_gives_what_was_written()
    ensures written { (copy : PageCopy) (offset value : ℕ) → is_readable copy.state ≡ true
        → offset < length copy.values
        → read_at (after_write copy offset value) offset ≡ Some value }
    ensures others { (copy : PageCopy) (offset value other : ℕ) → other ≢ offset
        → read_at (after_write copy offset value) other ≡ read_at copy other }
{}

/// A twin has the values from before the first write since the last close. That write makes the twin, and later writes
/// leave it unchanged.
pub fn the_first_write_makes_the_twin()
    ensures first { (copy : PageCopy) (offset value : ℕ) → copy.state ≡ State.Valid
        → (after_write copy offset value).twin ≡ Some copy.values }
    ensures later { (copy : PageCopy) (offset value : ℕ) → copy.state ≡ State.Written
        → (after_write copy offset value).twin ≡ copy.twin }
{}

/// A close names each written page once, in ascending order, and no other page. After the close no page is written.
/// Each page that was written is pending: its changes are still to be made, from its twin to its values at this close.
pub fn closing_names_the_written_pages()
    ensures exact { (table : Table) (page : ℕ) → Contains (written_pages table) page
        ↔ ((page < length table.copies) × ((copy_at table page).state ≡ State.Written)) }
    ensures rising { (table : Table) → IsRising (written_pages table) }
    ensures settled { (table : Table) (page : ℕ)
        → (copy_at (with_each table closed) page).state ≢ State.Written }
    ensures pending { (copy : PageCopy) (twin : List ℕ) → copy.state ≡ State.Written
        → copy.twin ≡ Some twin
        → pending_changes (closed copy) ≡ Some (changes_between twin copy.values) }
    ensures twins { (size : Size) (copy : PageCopy) → IsWhole size copy → copy.state ≡ State.Written
        → IsSome copy.twin }
{}

/// The changes of a pending page stay the same until they are settled or dropped. Calls on other pages do not change
/// them, nor does a close, a base copy that is kept or dropped, or the drop of invalid copies. A pending page is valid,
/// and the calls that would change its values or its state are not allowed.
pub fn pending_changes_stay()
    ensures named { (copy : PageCopy) → (is_pending copy ≡ true) ↔ IsSome (pending_changes copy) }
    ensures valid { (copy : PageCopy) → is_pending copy ≡ true → copy.state ≡ State.Valid }
    ensures elsewhere { (table : Table) (page other : ℕ) (copy : PageCopy) → other ≢ page
        → pending_changes (copy_at (with_copy table page copy) other)
        ≡ pending_changes (copy_at table other) }
    ensures closed { (copy : PageCopy) → is_pending copy ≡ true
        → pending_changes (closed copy) ≡ pending_changes copy }
    ensures based { (copy : PageCopy) → pending_changes (with_base copy) ≡ pending_changes copy }
    ensures unbased { (copy : PageCopy) → pending_changes (without_base copy)
        ≡ pending_changes copy }
    ensures dropped { (copy : PageCopy) → pending_changes (dropped copy) ≡ pending_changes copy }
    ensures settled { (copy : PageCopy) → pending_changes (settled copy) ≡ None }
    ensures untwinned { (copy : PageCopy) → pending_changes (without_twin copy) ≡ None }
{}

/// A base copy stays as it was kept, whatever happens to the copy of the page.
pub fn a_base_copy_stays()
    ensures kept { (copy : PageCopy) → (with_base copy).base ≡ Some copy.values }
    ensures written { (copy : PageCopy) (offset value : ℕ)
        → (after_write copy offset value).base ≡ copy.base }
    ensures closed { (copy : PageCopy) → (closed copy).base ≡ copy.base }
    ensures settled { (copy : PageCopy) → (settled copy).base ≡ copy.base }
    ensures invalidated { (copy : PageCopy) → (invalidated copy).base ≡ copy.base }
    ensures dropped { (copy : PageCopy) → (dropped copy).base ≡ copy.base }
{}
