//! A hook that sees a node's answers before they are entered.

use wire::Messages;

/// Sees a node's answers before the step is entered. The node's lock is held, the journal's isn't. The step may still
/// be refused if the journal has no cell left.
pub trait StepGate {
    /// Sees the messages that the step will make.
    fn prepared(&self, answers: &Messages);
}
