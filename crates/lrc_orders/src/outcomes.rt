// Outcomes of a program.

use lrc_trace::act::Act;

/// An outcome of a program: the prints, the traps and the ends, node by node. It says what each node prints, in order,
/// and how the node ends.
#[derive(PartialEq, Eq, Hash, Drop)]
pub struct Outcome {
    pub notes: Vec<Act>,
}
