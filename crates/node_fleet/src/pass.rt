//! What one caller did in a fleet.

ghost use Rattle.std.proofs.Props.{props};
ghost use Rattle.node_fleet.specs.Mails.{AreSeatsIn};
ghost use Rattle.node_fleet.specs.MailProps.{seats_prop};

use crate::mailboxes::MailSeats;
use crate::site::FleetSite;

/// What one caller did: its steps and notes in the journal, its seat at the board, and its seats at the mailboxes.
#[derive(Drop)]
pub struct Pass<'a, L: FleetSite> {
    pub(crate) entered: journal::Pass<'a, L>,
    pub(crate) mail: MailSeats,
    ghost seats_of: { AreSeatsIn L.mail mail } by { Prim.hlevel (props, seats_prop) },
}
