// The protocol machine on worked runs: it is evaluated, and gives what was worked out by hand.

ghost use Rattle.std.specs.Prelude.{◌≡◌, ℕ, true, false, List, [], ◌∷◌, Some, None, length};
ghost use Rattle.lrc_trace.specs.declared.act.Deed.TheVariants.{Quiet, Print, Read, Write, Acquire, Release, Arrive, Depart, End};
ghost use Rattle.lrc_envelope.specs.declared.message.Message.TheVariants as message;
ghost use Rattle.lrc_protocol.specs.Pages.{is_readable, copy_at, missing_at};
ghost use Rattle.test_parts.specs.Protocol.{deeds, deeds_by, sent, messages, of_nodes, interval, key, part, change, barrier_run, late_grant_run};
ghost use Rattle.test_parts.specs.Protocol.{repeated_run, third_node_run, silent_run, repair_run, unread_run, collecting_run, collected_run, counted_run};
ghost use Rattle.test_parts.specs.Protocol.{uncollected_run, late_repeat_run, worn_run};

/// After a barrier each node reads what was written before it. The departure brings a node what its arrival lacked.
fn a_barrier_brings_what_was_written()
    ensures reads { deeds_by 2 barrier_run ≡ Some
        (Quiet ∷ Arrive ∷ Depart ∷ Read 0 7 ∷ Print 7 ∷ End ∷ []) }
    ensures messages { sent 0 1 barrier_run ≡ Some (
        message.Depart (record {
          episode = 1;
          collect = false;
          time = 1 ∷ 1 ∷ 1 ∷ [];
          intervals = interval 0 (1 ∷ 0 ∷ 0 ∷ []) (0 ∷ []) ∷ interval 2 (0 ∷ 0 ∷ 1 ∷ []) [] ∷ [];
        })
        ∷ message.ChangesReply (record { page = 0; parts = part 1 (change 0 7 ∷ []) ∷ [] })
        ∷ []) }
{}

/// A grant carries the time of the last release, and nothing of what its sender wrote since.
fn a_late_grant_carries_the_time_of_the_release()
    ensures reads { deeds_by 1 late_grant_run
        ≡ Some (Quiet ∷ Acquire 0 ∷ Read 0 1 ∷ Read 1 0 ∷ Release 0 ∷ Print 0 ∷ End ∷ []) }
    ensures messages { sent 0 1 late_grant_run ≡ Some (
        message.LockGrant (record {
          lock = 0;
          time = 2 ∷ 0 ∷ [];
          intervals = interval 0 (1 ∷ 0 ∷ []) [] ∷ interval 0 (2 ∷ 0 ∷ []) (0 ∷ []) ∷ [];
        })
        ∷ message.ChangesReply (record { page = 0; parts = part 2 (change 0 1 ∷ []) ∷ [] })
        ∷ []) }
{}

/// A message delivered twice makes the same run.
fn repeats_make_the_same_run()
    ensures { deeds repeated_run ≡ Some (
        (0, Quiet) ∷ (0, Acquire 0) ∷ (0, Write 0 1) ∷ (0, Release 0) ∷ (0, Write 1 2) ∷ (1, Quiet)
        ∷ (1, Acquire 0)
        ∷ (1, Read 0 1) ∷ (1, Read 1 0) ∷ (1, Release 0) ∷ (1, Print 0) ∷ (1, End) ∷ (0, End)
        ∷ []) }
{}

/// A grant that is repeated once the lock is elsewhere is not taken for a new one.
fn a_late_repeat_is_no_grant()
    ensures { deeds_by 1 late_repeat_run ≡ Some (
        Quiet ∷ Acquire 0 ∷ Read 0 0 ∷ Write 0 1 ∷ Release 0 ∷ Quiet ∷ Acquire 0 ∷ Read 0 2
        ∷ Release 0 ∷ Print 2 ∷ End ∷ []) }
{}

/// A third node is granted what the second learned of the first.
fn a_grant_hands_on_what_was_learned()
    ensures reads { deeds_by 2 third_node_run
        ≡ Some (Quiet ∷ Quiet ∷ Quiet ∷ Acquire 1 ∷ Read 0 3 ∷ Release 1 ∷ Print 3 ∷ End ∷ []) }
    ensures messages { sent 1 2 third_node_run ≡ Some (
        message.LockGrant (record {
          lock = 1;
          time = 2 ∷ 4 ∷ 0 ∷ [];
          intervals =
              interval 0 (1 ∷ 0 ∷ 0 ∷ []) []
              ∷ interval 0 (2 ∷ 0 ∷ 0 ∷ []) (0 ∷ [])
              ∷ interval 1 (0 ∷ 1 ∷ 0 ∷ []) []
              ∷ interval 1 (2 ∷ 2 ∷ 0 ∷ []) []
              ∷ interval 1 (2 ∷ 3 ∷ 0 ∷ []) []
              ∷ interval 1 (2 ∷ 4 ∷ 0 ∷ []) []
              ∷ [];
        })
        ∷ []) }
{}

/// A page that was written is named although nothing in it changed; its changes are empty.
fn a_silent_write_is_named()
    ensures { sent 0 1 silent_run ≡ Some (
        message.Depart (record {
          episode = 1;
          collect = false;
          time = 1 ∷ 1 ∷ [];
          intervals = interval 0 (1 ∷ 0 ∷ []) (0 ∷ []) ∷ [];
        })
        ∷ message.ChangesReply (record { page = 0; parts = part 1 [] ∷ [] })
        ∷ []) }
{}

/// Changes are applied by weight: node 3 lacks three intervals of weights 1, 5 and 9, and reads what the last one wrote,
/// although its changes come first.
fn changes_are_applied_by_weight()
    ensures order { of_nodes (λ node. missing_at node.memory 0) unread_run ≡ Some (
        []
        ∷ (key 0 3 ∷ [])
        ∷ (key 1 2 ∷ key 0 3 ∷ [])
        ∷ (key 2 1 ∷ key 1 2 ∷ key 0 3 ∷ [])
        ∷ []) }
    ensures reads { deeds_by 3 repair_run ≡ Some (
        Quiet ∷ Arrive ∷ Depart ∷ Quiet ∷ Arrive ∷ Depart ∷ Quiet ∷ Arrive ∷ Depart ∷ Read 0 10
        ∷ Print 10 ∷ End ∷ []) }
{}

/// At a collection the keeper fetches what its copy lacks, and keeps a base copy; other copies become absent, and all
/// intervals are dropped. Later misses are met from the base copy and the changes since.
fn a_collection_leaves_the_keeper_a_base_copy()
    ensures intervals { of_nodes (λ node. length node.memory.store.entries) collected_run
        ≡ Some (0 ∷ 0 ∷ 0 ∷ []) }
    ensures keepers { of_nodes (λ node. node.memory.keepers) collected_run
        ≡ Some ((1 ∷ []) ∷ (1 ∷ []) ∷ (1 ∷ []) ∷ []) }
    ensures readable { of_nodes (λ node. is_readable (copy_at node.memory 0)) collected_run
        ≡ Some (false ∷ true ∷ false ∷ []) }
    ensures reads { deeds_by 2 collecting_run ≡ Some (
        Quiet ∷ Quiet ∷ Write 2 8 ∷ Arrive ∷ Depart ∷ Quiet ∷ Arrive ∷ Depart ∷ Read 0 4 ∷ Read 1 6
        ∷ Read 2 8 ∷ Print 8 ∷ End ∷ []) }
{}

/// With a collection one barrier costs six messages more for three nodes, and two misses on absent pages the same as two
/// on invalid ones.
fn a_collection_costs_cleans_and_discards()
    ensures collected { messages counted_run ≡ Some 16 }
    ensures uncollected { messages uncollected_run ≡ Some 10 }
{}

/// No message gets a number too large: there is no such run.
fn numbers_stop_at_the_largest()
    ensures { deeds worn_run ≡ None }
{}

#[test]
fn worked_runs() {
    a_barrier_brings_what_was_written();
    a_late_grant_carries_the_time_of_the_release();
    repeats_make_the_same_run();
    a_late_repeat_is_no_grant();
    a_grant_hands_on_what_was_learned();
    a_silent_write_is_named();
    changes_are_applied_by_weight();
    a_collection_leaves_the_keeper_a_base_copy();
    a_collection_costs_cleans_and_discards();
    numbers_stop_at_the_largest();
}
