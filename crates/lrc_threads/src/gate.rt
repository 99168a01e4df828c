// What a thread passes before it may make a turn.

/// What a node's thread passes before the node goes on by itself, and before it looks at a message that was taken. A
/// wait there changes only when that is done. Tests show that no turn is made without a pass; no contract says it.
pub trait Gate {
    /// Lets a node pass that may make a turn now. `turn` is the number of turns that it has made, and stays at
    /// 4,294,967,295 once it reaches that. The same number comes again after a message that makes no turn, because it
    /// cannot be read or the node does not expect it.
    fn pass(&self, node: usize, turn: u32);
}

/// A gate that never makes a node wait.
pub struct OpenGate;

impl Gate for OpenGate {
    fn pass(&self, _node: usize, _turn: u32) {}
}
