// Laws of the definitions that the judge computes. Each function is a theorem: its body is empty, and its clause is the
// law.
ghost use Rattle.std.specs.Prelude.{◌≡◌, ℕ, ◌↔◌, List};
ghost use Rattle.lrc_trace.specs.declared.act.Act.{Act};
ghost use Rattle.lrc_trace.specs.Reading.{ReadsLazily};
ghost use Rattle.lrc_trace.specs.Synchronization.{IsWellSynchronized};
ghost use Rattle.lrc_judge.specs.Reading.{Misreads};
ghost use Rattle.lrc_judge.specs.Synchronization.{Breaks};
ghost use Rattle.lrc_judge.specs.declared.TheConstants.{NODES};

/// The judge accepts runs of up to 16 nodes.
pub fn the_limits()
    ensures { NODES ≡ 16 }
{}

/// A run reads lazily exactly if no read of it gives a value that it may not give.
pub fn no_misread_is_lazy_reading()
    ensures { (run : List Act) → ((j : ℕ) → ¬ Misreads run j) ↔ ReadsLazily run }
{}

/// A run is well synchronized exactly if no position of it breaks well-synchronization.
pub fn no_break_is_well_synchronized()
    ensures { (nodes : ℕ) (run : List Act) → ((j : ℕ) → ¬ Breaks nodes run j)
        ↔ IsWellSynchronized nodes run }
{}
