// Copies of pages. Of a crate of laws the definitions are tested: on small histories each value fits or does not.

ghost use Rattle.std.specs.Prelude.{◌≡◌, [], ◌∷◌, true, false, fold, map};
ghost use Rattle.lrc_copies.specs.Decided.{fits_list};
ghost use Rattle.lrc_page.specs.Changes.{applied};
ghost use Rattle.lrc_copies.specs.Sound.{repaired_value};
ghost use Rattle.lrc_copies.specs.Reading.{ListsWrites};
ghost use Rattle.lrc_trace.specs.Reading.{MayRead};
ghost use Rattle.lrc_copies.specs.Page.{PageFits, IsPageSound};
ghost use Rattle.lrc_copies.specs.Stamps.{IsCut, AreStamped, AreLacking, covered};
ghost use Rattle.test_parts.specs.Copies.{two_and_a_silent_one, three_in_turn, a_lost_write, four, four_stamps, four_wrote, four_changes, four_page, four_run};

// Zero alone fits no interval; what one interval wrote is the one value that fits it.
fn one_writer_decides()
    ensures none { fits_list three_in_turn 0 [] ≡ true }
    ensures no_other { fits_list three_in_turn 5 [] ≡ false }
    ensures written { fits_list three_in_turn 5 (0 ∷ []) ≡ true }
    ensures lost { fits_list three_in_turn 0 (0 ∷ []) ≡ false }
{}

// Of two that know nothing of each other either value fits, and zero, but nothing that none wrote. In which order they stand
// makes no difference.
fn concurrent_writers_leave_a_choice()
    ensures first { fits_list two_and_a_silent_one 5 (0 ∷ 1 ∷ []) ≡ true }
    ensures second { fits_list two_and_a_silent_one 7 (0 ∷ 1 ∷ []) ≡ true }
    ensures reversed { fits_list two_and_a_silent_one 5 (1 ∷ 0 ∷ []) ≡ true }
    ensures zero { fits_list two_and_a_silent_one 0 (1 ∷ 0 ∷ []) ≡ true }
    ensures none { fits_list two_and_a_silent_one 9 (0 ∷ 1 ∷ []) ≡ false }
{}

// Of those in turn the last alone decides, also where it is silent, and in whichever order and however often they stand.
fn last_writer_decides()
    ensures last { fits_list three_in_turn 9 (0 ∷ 1 ∷ 2 ∷ []) ≡ true }
    ensures first { fits_list three_in_turn 5 (0 ∷ 1 ∷ 2 ∷ []) ≡ false }
    ensures shuffled { fits_list three_in_turn 9 (2 ∷ 0 ∷ 2 ∷ 1 ∷ []) ≡ true }
    ensures silent { fits_list two_and_a_silent_one 7 (1 ∷ 2 ∷ []) ≡ true }
    ensures zero { fits_list two_and_a_silent_one 0 (1 ∷ 2 ∷ []) ≡ false }
{}

// A repair by rising weight gives a value that fits, and one in the order of arrival another.
fn repairs_by_weight()
    ensures by_weight { repaired_value three_in_turn 0 (0 ∷ 1 ∷ 2 ∷ []) ≡ 9 }
    ensures on_arrival { repaired_value three_in_turn 0 (1 ∷ 0 ∷ 2 ∷ []) ≡ 5 }
    ensures concurrent { repaired_value two_and_a_silent_one 0 (0 ∷ 1 ∷ 2 ∷ []) ≡ 7 }
{}

// A write that the changes lose, and that was not what the word had before, is not silent: no repair fits.
fn lost_write_fits_nowhere()
    ensures repaired { repaired_value a_lost_write 0 (0 ∷ 1 ∷ 2 ∷ []) ≡ 9 }
    ensures wrong { fits_list a_lost_write 9 (0 ∷ 1 ∷ 2 ∷ []) ≡ false }
    ensures written { fits_list a_lost_write 4 (0 ∷ 1 ∷ 2 ∷ []) ≡ true }
{}

// A repair of a page: what the laws ask for can be met, and the copy that they promise is the one that the changes make.
fn repairs_a_page()
    ensures stamped { AreStamped four_stamps 3 four }
    ensures sound { IsPageSound four_page 2 four }
    ensures since { IsCut four_stamps four (0 ∷ 0 ∷ 1 ∷ []) }
    ensures upto { IsCut four_stamps four (4 ∷ 2 ∷ 1 ∷ []) }
    ensures lacking { AreLacking four_stamps four_wrote 2 four (0 ∷ 0 ∷ 1 ∷ []) (4 ∷ 2 ∷ 1 ∷ [])
        (0 ∷ 2 ∷ 3 ∷ []) }
    ensures before { PageFits four_page (0 ∷ 7 ∷ []) (covered four_stamps (0 ∷ 0 ∷ 1 ∷ []) four) }
    ensures changes { fold applied (0 ∷ 7 ∷ []) (map four_changes (0 ∷ 2 ∷ 3 ∷ [])) ≡ 9 ∷ 7 ∷ [] }
    ensures after { PageFits four_page (9 ∷ 7 ∷ []) (covered four_stamps (4 ∷ 2 ∷ 1 ∷ []) four) }
{}

// A read of a run with these intervals: what the laws ask for can be met, and the read may give what the repair made.
fn reads_a_repaired_page()
    ensures lists { ListsWrites four_run 11 2 0 four_stamps (λ a. four_wrote a 0)
        (4 ∷ 2 ∷ 1 ∷ []) four }
    ensures may_read { MayRead four_run 11 0 9 }
{}
