//! What a handle may hold.

use crate::outbox::Outbox;
use crate::snapshot_bytes::SnapshotBytes;
use epochs::Authority;
use plan::CheckedPlan;
use segment_core::Segment;
use std::alloc::Global;
use std::sync::Arc;
use wire::Messages;
use world::Client;

/// A plan, an actor, or a snapshot.
#[derive(Drop)]
pub enum Actor {
    /// A plan without a fault.
    Plan(Arc<CheckedPlan>),
    /// A segment.
    Segment(Segment),
    /// A recovery, or the writer that it becomes.
    Client(Client),
    /// The authority.
    Authority(Authority),
    /// The bytes of a segment's snapshot.
    Snapshot(SnapshotBytes),
}

/// What a handle holds: an actor, and the messages that it made and that weren't taken yet.
#[derive(Drop)]
pub struct Held {
    pub actor: Actor,
    pub outbox: Outbox,
}

impl Held {
    ghost use Rattle.std.specs.Prelude.{◌≡◌, [], Some};
    ghost use Rattle.volume_c.specs.View.{unsent};

    /// Returns the contents of a handle for an actor that has made no message.
    pub fn of(alloc: Global, actor: Actor) -> Held
        ensures actor { result.actor ≡ actor }
        ensures nothing { unsent (Some result) ≡ [] }
    {
        Held {
            actor,
            outbox: Outbox::of(alloc, Messages::Empty),
        }
    }
}
