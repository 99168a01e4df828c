// The laws of a search that joins runs. Each function is a theorem: its body is empty, and its clause is the law.

ghost use Rattle.lrc_exact_states.specs.Laws.{EqualKeysStandAlike, JoiningByKeysFindsAll, JoiningFindsAll, KeysKeepNoMore, MachineHasPartOfKey};

/// A search that joins exact runs which stand alike finds each exact outcome, and no other, if no barrier collects. Of each
/// run it looks at each act that may come next, or at one that acquires no lock, or a node can look round for ever. Each run
/// that such an act leads to is looked at too, or one that stands as it does is, and what the act compares is below the cap.
pub fn joining_finds_all()
    ensures { JoiningFindsAll }
{}

/// Two exact runs whose keys are equal stand alike, if no barrier collects. A key is as much of what the nodes, the locks and
/// the barriers know as decides what is still to come, with numbers and weights up to a cap: it does not grow where nodes only
/// spin. Each run is seen from the beginning, or from a barrier behind which all nodes stood.
pub fn equal_keys_stand_alike()
    ensures { EqualKeysStandAlike }
{}

/// A search that joins exact runs with equal keys finds each exact outcome, and no other, if no barrier collects. Of each run it
/// looks at each act that may come next, or at one that acquires no lock, or a node can look round for ever. Each run that such
/// an act leads to has the key of one that is looked at, and what the act compares is below the cap.
pub fn joining_by_keys_finds_all()
    ensures { JoiningByKeysFindsAll }
{}

/// Of weights, and of how many intervals are known above the base, a key keeps no number above the cap, however long the run is.
pub fn keys_keep_no_more_than_the_cap()
    ensures { KeysKeepNoMore }
{}

/// What a key has of threads, locks and barriers is what the plain machine has after the acts.
pub fn the_machine_has_its_part_of_a_key()
    ensures { MachineHasPartOfKey }
{}
