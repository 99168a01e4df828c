// What always holds of envelopes and their bytes. Each function is a law: its clauses are the statement, and there is
// nothing to do.

ghost use Rattle.std.specs.Prelude.{◌≡◌, ◌++◌, ◌<◌, ◌≤◌, List, ℕ, length, take, Ok, Err};
ghost use Rattle.lrc_page.specs.declared.changes.Change.{Change};
ghost use Rattle.lrc_page.specs.Changes.{IsAscending};
ghost use Rattle.lrc_envelope.specs.declared.limits.TheConstants.{MOST_LOCKS, MOST_NODES};
ghost use Rattle.lrc_wire.specs.declared.limits.TheConstants.{HEADER_BYTES, MOST_BODY_BYTES, MOST_RUNS};
ghost use Rattle.lrc_wire.specs.declared.version.Version.{Version};
ghost use Rattle.lrc_envelope.specs.Envelope.{EnvelopeRecord};
ghost use Rattle.lrc_wire.specs.Ranges.{IsFit};
ghost use Rattle.lrc_wire.specs.Runs.{Run, AreRuns, runs_of};
ghost use Rattle.lrc_wire.specs.Spelling.{◌·◌, Cut, IsMaximalCut, Spells, header, body};
ghost use Rattle.lrc_wire.specs.Reading.{envelope_of};

use crate::fault::WireFault;

/// The limits are 64 locks, 16 nodes, 128 runs of changes in a page, and bodies of 16,777,216 bytes after a header of
/// 12 bytes.
pub fn the_limits()
    ensures locks { MOST_LOCKS ≡ 64 }
    ensures nodes { MOST_NODES ≡ 16 }
    ensures runs { MOST_RUNS ≡ 128 }
    ensures body { MOST_BODY_BYTES ≡ 16777216 }
    ensures header { HEADER_BYTES ≡ 12 }
{}

/// Ascending changes can be cut into maximal runs in exactly one way, which `runs_of` gives.
pub fn changes_are_cut_in_one_way()
    ensures runs { (changes : List Change) → IsAscending changes
        → AreRuns changes (runs_of changes) }
    ensures no_others { (changes : List Change) (runs : List Run) → AreRuns changes runs
        → runs ≡ runs_of changes }
{}

/// An envelope has at most one spelling in each version.
pub fn a_spelling_is_unique()
    ensures { (version : Version) (envelope : EnvelopeRecord) (a b : List ℕ)
        → Spells version envelope a → Spells version envelope b → a ≡ b }
{}

/// No spelling of an envelope, in either version, is a proper prefix of another. If one list of bytes begins with both,
/// they are the same.
pub fn no_spelling_begins_another()
    ensures { (v w : Version) (m n : EnvelopeRecord) (a b x y : List ℕ) → Spells v m a
        → Spells w n b → a ++ x ≡ b ++ y → (v ≡ w) × (a ≡ b) × (m ≡ n) }
{}

/// Whatever was written in either version is read back unchanged.
pub fn what_is_written_is_read_again()
    ensures { (version : Version) (envelope : EnvelopeRecord) (bytes : List ℕ)
        → Spells version envelope bytes → envelope_of bytes ≡ Ok envelope }
{}

/// A spelling that is cut short is refused as `Short`, and one with more bytes behind it as `Long`.
pub fn a_part_is_short_and_more_is_long()
    ensures short { (version : Version) (envelope : EnvelopeRecord) (bytes : List ℕ) (n : ℕ)
        → Spells version envelope bytes
        → n < length bytes → envelope_of (take n bytes) ≡ Err WireFault.Short }
    ensures long { (version : Version) (envelope : EnvelopeRecord) (bytes : List ℕ) (more : List ℕ)
        → Spells version envelope bytes → 1 ≤ length more
        → envelope_of (bytes ++ more) ≡ Err WireFault.Long }
{}

/// Every envelope within the ranges of a version has a spelling in that version, unless its body is too long.
pub fn every_envelope_is_spelled()
    ensures { (version : Version) (envelope : EnvelopeRecord) (cut : Cut) → IsFit version envelope
        → IsMaximalCut cut
        → length (body version cut envelope.message) ≤ MOST_BODY_BYTES
        → Spells version envelope
        (header version cut envelope · body version cut envelope.message) }
{}
