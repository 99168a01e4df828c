// How many nodes, how many steps, and how the nodes go.

ghost use Rattle.std.specs.Prelude.{◌≡◌, ◌≤◌, MatchOption};
ghost use Rattle.lrc_exec.specs.Nodes.{AreNodes};
ghost use Rattle.lrc_setting.specs.Ranges.{AreSteps};

use lrc_page::Size;

/// How many nodes a run has, 1 to 16.
#[derive(Clone, Copy)]
pub struct Nodes {
    pub count: u32,
    pub ghost some: { 1 ≤ count },
    pub ghost few: { count ≤ 16 },
}

/// How many steps each node may take, 1 to 1,000,000. Each condition that it evaluates and each other statement that it
/// begins is one step.
#[derive(Clone, Copy)]
pub struct Steps {
    pub count: u32,
    pub ghost some: { 1 ≤ count },
    pub ghost few: { count ≤ 1000000 },
}

/// The settings of a run, apart from its program.
#[derive(Clone, Copy)]
pub struct Setting {
    /// How many nodes run the program.
    pub nodes: Nodes,
    /// How many steps each node may take.
    pub steps: Steps,
    /// The number of stored intervals from which a node asks for a collection at a barrier, or 0 for never.
    pub collect: u32,
    /// The size of a page.
    pub size: Size,
    /// The number of the first message from each node to each node.
    pub first: u32,
}

impl Nodes {
    /// Returns a number of nodes, or none if it is not 1 to 16.
    pub fn new(count: u32) -> Option<Nodes>
        ensures { MatchOption result (¬ AreNodes count) (λ nodes. nodes.count ≡ count) }
    {
        if 1 <= count && count <= 16 {
            Some(Nodes { count })
        } else {
            None
        }
    }

    /// Returns the number, as 8 bits.
    pub fn number(self) -> u8
        ensures { result ≡ self.count }
    {
        self.count as u8
    }
}

impl Steps {
    /// Returns a number of steps, or none if it is not 1 to 1,000,000.
    pub fn new(count: u32) -> Option<Steps>
        ensures { MatchOption result (¬ AreSteps count) (λ steps. steps.count ≡ count) }
    {
        if 1 <= count && count <= 1_000_000 {
            Some(Steps { count })
        } else {
            None
        }
    }
}
