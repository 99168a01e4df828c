// What always holds of texts of a run. Each function is a theorem: its body is empty, and its clause is the law.

ghost use Rattle.lrc_acts_text.specs.RapidOrder.{OrderIsHappensBefore};

/// Between two accesses of a well-synchronized run whose nodes wait at barriers, the acts' happens before is the order
/// of the RAPID trace: program order, and each release before later acquires of the same lock.
pub fn order_in_rapid_is_happens_before()
    ensures { OrderIsHappensBefore }
{}
