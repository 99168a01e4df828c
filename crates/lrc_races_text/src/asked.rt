// What is asked of a trace.

/// Which races are reported.
#[derive(Clone, Copy, PartialEq, Eq)]
pub enum Sought {
    /// All races: two accesses that conflict, neither of which happens before the other.
    AllRaces,
    /// The sure races: those of which another trace of the same program shows the two accesses side by side.
    SureRaces,
}

/// How the lines of the report are written.
#[derive(Clone, Copy, PartialEq, Eq)]
pub enum Layout {
    /// In words.
    Words,
    /// Each as a JSON object.
    Objects,
}

/// What is asked of a trace.
#[derive(Clone, Copy, PartialEq, Eq)]
pub struct Asked {
    /// Which races are reported.
    pub sought: Sought,
    /// Whether they are reported by groups, after the trace has ended.
    pub group: bool,
    /// How the lines of the report are written.
    pub layout: Layout,
    /// Whether an event that no program would give is a fault of the trace.
    pub strict: bool,
}
