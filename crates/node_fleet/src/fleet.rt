//! The actors of a volume that threads share, and their journal.

ghost use Rattle.std.specs.Prelude.{vec_len, ◌+◌, ◌≡◌, length, map, sum_by, ◌<◌, All, ℕ};
ghost use Rattle.std.specs.Arc.{arc_value};
ghost use Rattle.std.specs.Coded.{Coded-set};
ghost use Rattle.atomic_table.specs.Seated.{table_id_coded};
ghost use Rattle.board.specs.Seats.{board_table, seats_of};
ghost use Rattle.node_fleet.specs.Mails.{ids_of, AreNew, HasNodes};
ghost use Rattle.node_fleet.specs.MailProps.{new_prop};
ghost use Rattle.plan.specs.Common.{checked_model};
ghost use Rattle.journal.proofs.Plans.{Plan-set};
ghost use Rattle.std.proofs.Props.{props};
ghost use Rattle.node_fleet.specs.Places.{HasEach};

use crate::authority::AuthorityActor;
use crate::client::ClientActor;
use crate::closed::Journal;
use crate::closing::{TakenBack, take_back};
use crate::mailboxes::Mailboxes;
use crate::node::NodeActor;
use crate::pass::Pass;
use crate::site::FleetSite;
use board::Board;
use journal::Log;
use plan::CheckedPlan;
use std::alloc::Global;
use std::sync::{Arc, Mutex};
use world::promised;

/// The authority, clients and nodes of a volume, each with a lock, and their journal with another. A step takes the
/// actor's lock and then the journal's.
#[derive(Drop)]
pub struct Fleet<'a, L: FleetSite> {
    pub(crate) alloc: Global,
    pub(crate) plan: Arc<CheckedPlan>,
    pub(crate) board: Board,
    pub(crate) mail: Mailboxes,
    pub(crate) authority: Mutex<AuthorityActor<L>>,
    /// The clients by volume epoch, from 0 on. No client has epoch 0.
    pub(crate) clients: Vec<Mutex<ClientActor<L>>>,
    /// 64 slots for each group: one for each member, used if the plan names the member.
    pub(crate) nodes: Vec<Option<Mutex<NodeActor<L>>>>,
    pub(crate) journal: Mutex<Log<'a, L>>,
    pub(crate) slots: u32,
    ghost plan_is: { checked_model (arc_value plan) ≡ L.plan } by { Prim.hlevel Plan-set },
    ghost board_table: { board_table board ≡ L.board } by { Coded-set table_id_coded (board_table board) L.board },
    ghost board_seats: { seats_of board ≡ L.parts },
    ghost mail_ids: { ids_of mail ≡ L.mail } by { Prim.hlevel props },
    ghost mail_nodes: { HasNodes L.plan mail } by { Prim.hlevel props },
    ghost mail_new: { AreNew L.parts mail } by { Prim.hlevel (props, new_prop) },
    ghost slots_are: { slots ≡ L.slots },
    ghost places: { vec_len clients ≡ slots + 1 },
    ghost each: { HasEach L.plan nodes.items } by { Prim.hlevel props },
}

impl<'a, L: FleetSite> Fleet<'a, L> {
    ghost use Rattle.volume_model.specs.Common.{events, IsRun, IsRefused};
    ghost use Rattle.world.specs.Outcomes.{KeepsPromises};
    ghost use Rattle.board.specs.Board.{IsBoard};
    ghost use Rattle.journal.specs.PassSteps.{NamesEarlier, Stands};
    ghost use Rattle.node_fleet.specs.Journals.{entries_in};
    ghost use Rattle.node_fleet.specs.Passes.{notes_of, seat_of, steps_of};
    ghost use Rattle.node_fleet.specs.Returned.{MailIsKept};

    /// Closes the fleet and returns its journal. It has all steps of all passes and no others; each of their notes is
    /// true of it; and every promise of the volume holds for its run. What these passes raised and read on the board
    /// follows the board's rule. What they posted and collected at each mailbox follows its rule: each place has one
    /// letter, which is collected at most once, and each pass collects in the order of places. Allocates nothing.
    pub fn close(self, passes: Vec<Pass<'a, L>>) -> Journal<'a, L>
        requires { (vec_len passes ≡ L.parts) × (0 < vec_len passes) }
        ensures run { IsRun L.plan (entries_in result) }
        ensures promises { KeepsPromises L.plan (events (entries_in result)) }
        ensures before { NamesEarlier L.plan (entries_in result) }
        ensures stands { All (λ p. All (Stands L.plan (entries_in result)) (steps_of p)) passes.entry.items }
        ensures refused { All (λ p. All (IsRefused L.plan L.slots (length L.cells) (entries_in result)) (notes_of p))
            passes.entry.items }
        ensures count { sum_by (λ p. length (steps_of p)) passes.entry.items ≡ length (entries_in result) }
        ensures board { (word : ℕ) × IsBoard word (map seat_of passes.entry.items) }
        ensures mail { MailIsKept L.plan passes.entry.items }
    {
        let Fleet {
            plan,
            journal,
            board,
            mail,
            ..
        } = self;
        let mut log = journal.into_inner();
        let TakenBack {
            mut share,
            seats,
            mail: back,
        } = take_back(&mut log, &board, &mail, passes);
        log.audit(&mut share);
        let _ = board.end(seats);
        mail.end(back);
        log.replays();
        promised(&plan);
        Journal::of(log)
    }
}
