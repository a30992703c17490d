//! The name of a fleet.

use journal::Site;
use std::marker::Brand;

/// A name for a fleet: its journal and the mailboxes of its nodes. Each call of a program uses its own.
pub trait FleetSite: Site {
    ghost use Rattle.std.specs.Prelude.{List, Option};
    ghost use Rattle.node_fleet.specs.Seats.{MailboxId};

    // The identity of the mailbox in each node's slot.
    ghost mail: { List (Option MailboxId) };
}

impl FleetSite for Brand {
    ghost use Rattle.std.specs.Prelude.{[]};

    ghost mail = { [] };
}
