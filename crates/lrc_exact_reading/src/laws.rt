// Laws of what reads of the exact memory give. Each function is a theorem: its body is empty, and its clauses are the law.

ghost use Rattle.lrc_exact_reading.specs.Laws.{ExactIsLast, ExactIsLazy, ExactIsSteady, ExactRunIsPlain, ExactStays};
ghost use Rattle.lrc_exact_reading.specs.Laws.{ReadsExactlyLazily, ReadsExactlySteadily};

/// What the exact memory has of a word for a node that reads it may be read lazily. It is the value of a write that happens
/// before the read and is the last of these in its interval, or 0 if no write of the word happens before.
pub fn the_exact_value_is_lazy_and_steady()
    ensures may_be_read { ExactIsLazy }
    ensures steady { ExactIsSteady }
{}

/// What the exact memory has of a word for a node does not change until the node writes the word, acquires or departs.
pub fn the_exact_value_stays()
    ensures { ExactStays }
{}

/// Acts that read exactly read lazily and steadily, racing or not, with collections or without.
pub fn reading_exactly_is_lazy_and_steady()
    ensures reads_lazily { ReadsExactlyLazily }
    ensures reads_steadily { ReadsExactlySteadily }
{}

/// If no two acts race, what the exact memory has for a read is the value of the last write to the word before it, or 0 if
/// there is none. So a run of a program that reads exactly and has no race is one of the plain machine.
pub fn without_a_race_the_exact_memory_is_one_memory()
    ensures last { ExactIsLast }
    ensures is_plain { ExactRunIsPlain }
{}
