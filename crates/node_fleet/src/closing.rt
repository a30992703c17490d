//! Takes back the passes of a fleet.

ghost use Rattle.std.specs.Prelude.{length, map, sum_by, vec_len, ◌<◌, ◌≡◌, All};
ghost use Rattle.volume_model.specs.Common.{IsRefused};
ghost use Rattle.board.specs.Seats.{board_table, returned, AreReturnedTo};
ghost use Rattle.node_fleet.specs.Mails.{ids_of, AreBack};
ghost use Rattle.journal.specs.Passes.{journal_of};
ghost use Rattle.journal.specs.PassSteps.{Stands};
ghost use Rattle.node_fleet.specs.Passes.{notes_of, seat_of, steps_of};
ghost use Rattle.node_fleet.specs.Returned.{HasAll};

use crate::mailboxes::{MailSeats, Mailboxes};
use crate::pass::Pass;
use crate::site::FleetSite;
use board::{Board, ReturnedSeats};
use journal::Log;
use std::sync::ledger::Share;

/// What remains of passes that were taken back: their shares of the ledger, and their seats at the board and the
/// mailboxes.
#[derive(Drop)]
pub(crate) struct TakenBack<L: FleetSite> {
    pub(crate) share: Share<L>,
    pub(crate) seats: ReturnedSeats,
    pub(crate) mail: MailSeats,
}

/// Takes passes back: each of their steps is in the journal, and each of their notes is true of it.
pub(crate) fn take_back<'a, L: FleetSite>(
    log: &mut Log<'a, L>,
    board: &Board,
    mail: &Mailboxes,
    mut passes: Vec<Pass<'a, L>>,
) -> TakenBack<L>
    requires board { board_table board.now ≡ L.board }
    requires mail { ids_of mail.now ≡ L.mail }
    requires some { 0 < vec_len passes }
    ensures log { journal_of log.new ≡ journal_of log.old }
    ensures stands { All (λ p. All (Stands L.plan (journal_of log.old)) (steps_of p)) passes.entry.items }
    ensures refused { All (λ p. All (IsRefused L.plan L.slots (length L.cells) (journal_of log.old)) (notes_of p))
        passes.entry.items }
    ensures parts { result.share.parts ≡ vec_len passes.entry }
    ensures count { result.share.amount ≡ sum_by (λ p. length (steps_of p)) passes.entry.items }
    ensures of_board { AreReturnedTo L.board result.seats }
    ensures seats { returned result.seats ≡ map seat_of passes.entry.items }
    ensures back { AreBack mail.now result.mail }
    ensures mail { HasAll mail.now passes.entry.items result.mail }
{
    let Some(last) = passes.pop() else {
        unreachable!()
    };
    let Pass {
        entered,
        mail: mut back,
    } = last;
    let (mut share, seat) = log.take_back(entered);
    let mut seats = seat.into_returned();
    while let Some(pass) = passes.pop() {
        let Pass { entered, mail: own } = pass;
        let (part, seat) = log.take_back(entered);
        share.merge(part);
        board.take_back(&mut seats, seat);
        mail.take_back(&mut back, own);
    }
    TakenBack {
        share,
        seats,
        mail: back,
    }
}
