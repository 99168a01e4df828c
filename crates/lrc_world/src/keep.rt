// What is kept of a run.

ghost use Rattle.std.specs.Prelude.{◌≡◌};
ghost use Rattle.lrc_world.specs.World.{with_turns};

/// What is kept of a run beside its result.
#[derive(Clone, Copy)]
pub enum Keep {
    /// Only the newest turn of each node.
    Newest,
    /// All turns of each node.
    Turns,
    /// All turns of each node, the events that made them, and where the acts come from.
    All,
}

impl Keep {
    /// Returns the same with all turns of each node.
    pub fn with_turns(self) -> Keep
        ensures { result ≡ with_turns self }
    {
        match self {
            Keep::Newest | Keep::Turns => Keep::Turns,
            Keep::All => Keep::All,
        }
    }
}
