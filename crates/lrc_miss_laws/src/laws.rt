// What a node asks for is all that is missing. The function is a theorem: its body is empty, and its clauses are the law.

ghost use Rattle.std.specs.Prelude.{◌≡◌, ℕ, [], All, true};
ghost use Rattle.lrc_envelope.specs.Records.{DepartRecord};
ghost use Rattle.lrc_node_laws.specs.Reached.{IsReached};
ghost use Rattle.lrc_protocol.specs.Pages.{Need, asked_of, missing_at, unknown_of};
ghost use Rattle.lrc_protocol.specs.Node.{Node, needs_of, nothing};
ghost use Rattle.lrc_protocol.specs.Rules.{keeping, need_at, upkeep_at};
ghost use Rattle.lrc_protocol.specs.Turn.{expects_departure};

/// A node asks for all that is missing. If a reached node needs nothing of pages, it knows no changes of what a copy
/// lacks. The same holds when it has the news of a departure that it expects, before it asks for what the pages that it
/// keeps need. So at a miss, and at the start of a collection, it asks for all changes that a copy lacks. That the
/// machine asks for nothing that is known takes nothing away.
pub fn all_that_is_missing_is_asked_for()
    ensures access { (node : Node) (page : ℕ) → IsReached node → needs_of node.mail.wait ≡ []
        → unknown_of node.memory.store (missing_at node.memory page) ≡ missing_at node.memory page }
    ensures upkeep { (node : Node) (from page : ℕ) (m : DepartRecord) → IsReached node
        → expects_departure node from m ≡ true
        → unknown_of (keeping node m).memory.store (missing_at (keeping node m).memory page)
        ≡ missing_at (keeping node m).memory page }
    ensures at_miss { (node : Node) (page : ℕ) → IsReached node → node.mail.wait ≡ nothing
        → (need_at node page).asked ≡ asked_of node.setting.nodes (need_at node page).missing }
    ensures in_upkeep { (node : Node) (from : ℕ) (m : DepartRecord) → IsReached node
        → expects_departure node from m ≡ true
        → All (λ (need : Need). need.asked ≡ asked_of node.setting.nodes need.missing)
        (upkeep_at node m) }
{}
