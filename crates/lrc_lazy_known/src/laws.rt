// What is kept is exact. Each function is a theorem: its body is empty, and its clause is the law.

ghost use Rattle.std.specs.Prelude.{◌≡◌, ◌↔◌, ◌<◌, ◌+◌, ◌++◌, ◌∷◌, [], ℕ, List, length, slice_index_or, true};
ghost use Rattle.lrc_trace.specs.declared.act.Act.{Act};
ghost use Rattle.lrc_trace.specs.declared.act.Deed.TheVariants.{Acquire, Read};
ghost use Rattle.lrc_trace.specs.Run.{act_of};
ghost use Rattle.lrc_trace.specs.Reading.{MayRead};
ghost use Rattle.lrc_lazy_known.specs.declared.known.Knowledge.{Knowledge};
ghost use Rattle.lrc_lazy_known.specs.contracts.known.KnowledgePartialEq.TheImpl.{eq-value};
ghost use Rattle.lrc_lazy_known.specs.Word.{Gives, IsSame};
ghost use Rattle.lrc_lazy_known.specs.Effect.{effect_of, word_of, AreCounts, AreOf, IsKnowledgeAfter, IsKnowledgeOf, IsKnowledgeWithout};
ghost use Rattle.lrc_lazy_known.specs.Tidy.{IsRising, IsTidy};

/// Before the first act nothing is known.
pub fn at_first_nothing_is_known()
    ensures { (nodes locks gone : ℕ) (knowledge : Knowledge)
        → ((word : ℕ) → word_of knowledge word ≡ []) → IsKnowledgeOf nodes locks gone [] knowledge }
{}

/// An act changes what is known exactly by its effect. A node gets to know its own writes; it learns at an acquire and
/// at a depart; a lock learns at a release, and a barrier at an arrive. Acts of other nodes do not matter for this. The
/// barriers that are gone are not counted, so the node may arrive at none of them, and depart from none.
pub fn an_act_changes_what_is_known_by_its_effect()
    ensures { (nodes locks gone arrived departed : ℕ) (run : List Act) (act : Act)
        (old new : Knowledge) → AreOf nodes locks run → act.node < nodes
        → ((l : ℕ) → act.deed ≡ Acquire l → l < locks)
        → AreCounts gone run act.node act.deed arrived departed
        → IsKnowledgeOf nodes locks gone run old
        → IsKnowledgeAfter (effect_of nodes locks arrived departed act.node act.deed) old new
        → IsKnowledgeOf nodes locks gone (run ++ act ∷ []) new }
{}

/// Where more barriers are gone, what is kept is the same without theirs.
pub fn barriers_that_are_gone_can_be_dropped()
    ensures { (nodes locks gone count : ℕ) (run : List Act) (old new : Knowledge)
        → AreOf nodes locks run → IsKnowledgeOf nodes locks gone run old
        → IsKnowledgeWithout (nodes + locks) count old new
        → IsKnowledgeOf nodes locks (gone + count) run new }
{}

/// What a read may give is told by what is kept for its node: 0 if no write is known, the value of the last one if they
/// are ordered, and else 0 or any of the values.
pub fn a_read_may_give_what_is_kept()
    ensures { (nodes locks gone : ℕ) (run : List Act) (node word value : ℕ)
        (knowledge : Knowledge) → AreOf nodes locks run → node < nodes
        → IsKnowledgeOf nodes locks gone run knowledge
        → (MayRead (run ++ act_of node (Read word value) ∷ []) (length run) word value
        ↔ Gives (word_of knowledge word) node value) }
{}

/// What is kept is written in one way: two that are tidy and say the same of every word compare equal.
pub fn knowledge_is_kept_in_one_way()
    ensures { (one other : Knowledge) → IsTidy one → IsTidy other
        → ((word : ℕ) → IsSame (word_of one word) (word_of other word))
        → eq-value.it one other ≡ true }
{}

/// Of values that rise each is less than all behind it, so none comes twice.
pub fn values_that_rise_come_once()
    ensures { (values : List ℕ) (i k d : ℕ) → IsRising values → i < k → k < length values
        → slice_index_or values i d < slice_index_or values k d }
{}
