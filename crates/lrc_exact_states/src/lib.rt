//! Exact runs that stand alike: what is still to come of one of them is still to come of the other, so a search looks at
//! one of them alone.
//!
//! Of each node only so much of its intervals is kept as decides what comes: in which order the numbers stand that the
//! nodes, the locks and the barriers know of it, the last change of each word between two such numbers, and weights above
//! a floor that all nodes know, up to a cap. So a node that spins comes back to a state that was met, though its intervals
//! are more. Where two weights at the cap are compared, that is not decided, and the cap has to be higher.
//!
//! This is the key of a run (`specs/Key.antt`), as it is seen from a base: from the beginning, or from a barrier behind which
//! all nodes stood.
//!
//! PLAN (goes when the work is done). Without collections alone.
//!
//! 1. Done: a search that joins runs that stand alike finds all (`joining_finds_all`), runs with equal keys stand alike
//!    (`equal_keys_stand_alike`), so a search that joins by keys finds all (`joining_by_keys_finds_all`). What a key keeps of numbers
//!    is capped; its threads, holders and counts are the plain machine's. A clause cannot be of `Type 1`. So `specs` has levels that
//!    are told apart (`Told`), and `proofs/By` those of any kind, which the proofs are about.
//! 2. To do: the search looks at runs and bases (`Seen`), so that it is an `IsKeyedSearch`: a run that acts lead to has the key of one
//!    that is met. After the departs from a barrier a run is level, and its base is there (`from_level`).
//! 3. To do: a key, computed of `ExactRun` of `lrc_exact_search`, equal only where `key_of` is. `gaps` has each two places; what is
//!    computed may have neighbours alone: of each node the numbers that are known at some place, in order, which place knows which,
//!    and the last changes between neighbours. `rows_same` of `proofs/Rows` joins them.
//!    `Memory` of `lrc_exact_judge` keeps what is needed private, and has learned already for a node that is still to depart: take
//!    the key where no node is between.
//! 4. Each acquire and depart is held against `IsDecidedDeed`. Where one is not decided, the search is made again with the
//!    next cap (4, 16, .., 4,096), then as it is today, without joining; so it is with collections.
//! 5. `FitsExactly` of `lrc_exact_search` says that what comes next is met. It has to say: is met, or stands as what is.
#![tactic(auto)]

pub mod laws;
