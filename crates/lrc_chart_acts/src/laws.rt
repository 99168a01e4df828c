// What always holds of pictures of acts. Each function is a law: its clause is the statement, and there is nothing to do.

ghost use Rattle.std.specs.Prelude.{◌≡◌, ◌↔◌, ℕ, List, Some};
ghost use Rattle.lrc_judge.specs.Order.{IsOrderOf};
ghost use Rattle.lrc_judge.specs.declared.order.Order.{Order as OrderRecord};
ghost use Rattle.lrc_trace.specs.declared.act.Act.{Act};
ghost use Rattle.lrc_chart_acts.specs.Direct.{IsDirect, direct_lock};

/// In any list of acts, an arrow joins two acts exactly if the first releases a lock that the second, by another node,
/// acquires later, and no chain of other acts leads from the first to the second.
pub fn an_arrow_is_where_no_chain_is()
    ensures { (run : List Act) (order : OrderRecord) (i j : ℕ) → IsOrderOf run order
        → ((lock : ℕ) × (direct_lock order run i j ≡ Some lock)) ↔ IsDirect run i j }
{}
