//! The parts of a fleet that exist before its site has a name.

ghost use Rattle.std.specs.Prelude.{length, vec_len, ◌<◌, ◌≡◌, All, IfOk};
ghost use Rattle.std.proofs.Props.{props};
ghost use Rattle.board.specs.Seats.{seats_of, steps_of, IsSeatOf};
ghost use Rattle.journal.specs.Fronts.{log_of};

use crate::mailboxes::{MailSeats, Mailboxes};
use board::{Board, BoardSeat};
use journal::Opened;
use plan::CheckedPlan;
use std::alloc::{AllocError, Global};
use std::sync::ledger::Blank;

/// The board, the mailboxes, the empty history and the ledger of a new fleet, with seats and a share of the ledger for
/// each pass.
#[derive(Drop)]
pub struct Base {
    pub(crate) board: Board,
    pub(crate) seats: Vec<BoardSeat>,
    pub(crate) mail: Mailboxes,
    pub(crate) callers: Vec<MailSeats>,
    pub(crate) opened: Opened,
    pub(crate) blank: Blank,
    ghost seats_are: { All (λ s. IsSeatOf board s × (length (steps_of s) ≡ 0)) seats.items } by { Prim.hlevel props },
    ghost all_seats: { seats_of board ≡ vec_len seats },
    ghost empty: { length (log_of opened) ≡ 0 },
    ghost parts: { blank.parts ≡ vec_len seats },
}

impl Base {
    ghost use Rattle.plan.specs.Common.{checked_model};
    ghost use Rattle.node_fleet.specs.Bases.{passes_of, HasMail};

    /// Makes the base of a fleet over a plan, with `passes` passes.
    ///
    /// # Errors
    /// `AllocError` if memory runs out.
    pub fn new(alloc: Global, plan: &CheckedPlan, passes: usize) -> Result<Base, AllocError>
        requires { 0 < passes }
        ensures count { IfOk result (λ base. passes_of base ≡ passes) }
        ensures mail { IfOk result (λ base. HasMail (checked_model plan.now) base) }
    {
        let (board, seats) = Board::new(alloc, passes)?;
        let (mail, callers) = Mailboxes::new(alloc, plan, passes)?;
        Ok(Base {
            board,
            seats,
            mail,
            callers,
            opened: Opened::new(alloc)?,
            blank: Blank::new(passes as u64),
        })
    }
}
