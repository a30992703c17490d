//! Views: the places of the groups, for a client.

ghost use Rattle.std.specs.Prelude.{◌≤◌};

use crate::label::Place;

/// The places of the groups, for the client of a volume epoch.
#[derive(Drop)]
pub struct View {
    /// The volume epoch, from 1 on.
    pub volume: u32,
    /// The place of each group, in order. Boxed, so that other messages aren't larger for it.
    pub places: Box<Vec<Place>>,
    pub ghost assigned: { 1 ≤ volume },
}
