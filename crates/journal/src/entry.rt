//! Entries of steps, notes of refusals, and receipts for callers.

use volume_model::Fault;
use wire::Messages;
use world::Event;

/// One entry of the journal: the event, its messages, the counts before it, and the durable point after it.
#[derive(Drop)]
pub struct Entry {
    /// The event.
    pub event: Event,
    /// The messages that the event made, in order.
    pub made: Messages,
    /// The number of messages made by earlier entries.
    pub first: u64,
    /// The number of earlier entries.
    pub cell: usize,
    /// The client's durable point after a step that may move it (an LSN), else 0.
    pub durable: u64,
}

/// A refused event, with its fault and the journal's length at the refusal.
#[derive(Drop)]
pub struct Note {
    /// The refused event.
    pub event: Event,
    /// Why it was refused.
    pub fault: Fault,
    /// The journal's length at the refusal. The actor refuses the event with this fault in its state after that many
    /// entries.
    pub number: usize,
}

/// The result of a step for its caller.
#[derive(Clone, Copy, PartialEq, Eq, Debug)]
pub struct Receipt {
    /// The step's number in the journal, from 1.
    pub number: usize,
    /// The number of its first message, or of the next message if it made none.
    pub first_message: u64,
    /// The number of messages that it made.
    pub made: usize,
    /// The client's durable point after a step that may move it (an LSN), else 0.
    pub durable: u64,
}
