// What a step leads to, where it is known to what each thread settles. Each function is a theorem: its body is empty,
// and its clause is the law.

ghost use Rattle.std.specs.Prelude.{◌≡◌, ℕ, ◌<◌, ◌∷◌, ◌++◌, List, Option, Some, true, length};
ghost use Rattle.std.specs.List.{range_with_len};
ghost use Rattle.lrc_trace.specs.declared.act.Act.{Act};
ghost use Rattle.lrc_trace.specs.declared.act.Deed.{Deed};
ghost use Rattle.lrc_trace.specs.Run.{act_of};
ghost use Rattle.lrc_exec.specs.Meaning.{Thread};
ghost use Rattle.lrc_exec.specs.Plain.{Plain, plain_from, plain_step, thread_in};
ghost use Rattle.lrc_orders_laws.specs.Free.{is_contended};
ghost use Rattle.lrc_orders_laws.specs.Settling.{IsSettled};
ghost use Rattle.lrc_orders_laws.specs.Steps.{AllWait};
ghost use Rattle.lrc_orders_laws.specs.Threads.{ThreadSettles};
ghost use Rattle.lrc_orders_settling.specs.declared.step.Step.TheVariants.{Alone, Together};
ghost use Rattle.lrc_orders_settling.specs.Gone.{acts_by, gone};
ghost use Rattle.lrc_orders_settling.specs.Taking.{TakesTo};
ghost use Rattle.lrc_orders_table.specs.All.{acts_of_all, gone_all};

/// After a read, a write or an acquire from a settled state that node alone settles, as its thread does by itself.
pub fn one_thread_settles_after_the_step_of_one_node()
    ensures { (machine mid : Plain) (node : ℕ) (deed : Deed) (deeds : List Deed)
        (there : Option Thread) → IsSettled machine
        → is_contended deed ≡ true → plain_step machine node ≡ Some (deed, mid)
        → ThreadSettles (thread_in mid node) deeds there
        → TakesTo machine (Alone node) (act_of node deed ∷ acts_by node deeds)
        (gone mid node deeds there) }
{}

/// After the departs of all nodes they settle one after another, each as its thread does by itself.
pub fn each_thread_settles_after_the_step_of_all()
    ensures { (machine mid : Plain) (departs : List Act) (deeds : ℕ → List Deed)
        (there : ℕ → Option Thread) → AllWait machine
        → plain_from machine (range_with_len 0 (length machine.threads)) ≡ Some (departs, mid)
        → length mid.threads ≡ length machine.threads
        → ((node : ℕ) → node < length machine.threads
        → ThreadSettles (thread_in mid node) (deeds node) (there node))
        → TakesTo machine Together (departs ++ acts_of_all deeds (length machine.threads))
        (gone_all mid deeds there (length machine.threads)) }
{}
