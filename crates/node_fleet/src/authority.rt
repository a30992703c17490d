//! The authority of a fleet, and its steps under both locks.

ghost use Rattle.std.specs.Prelude.{◌≡◌, length, ◌≢◌, Err, OnErr, OnOk};
ghost use Rattle.std.proofs.Props.{props};
ghost use Rattle.volume_model.specs.Common.{TheAuthority, world_at};
ghost use Rattle.epochs.specs.Authority.{authority_of, authority_plan};
ghost use Rattle.journal.specs.Passes.{marked, seen_at, journal_of, seat_of, world_of};
ghost use Rattle.journal.proofs.Plans.{Plan-set};

use crate::authority_attempt::try_step;
use crate::halt::Halt;
use crate::step::{commit_or_note, reserve_step};
use epochs::Authority;
use journal::{ActorCursor, Log, Pass, Receipt, Site};
use std::alloc::Global;
use std::sync::Wait;
use world::{AuthorityAction, Event};

/// The authority and its cursor.
#[derive(Drop)]
pub struct AuthorityActor<L: Site> {
    cursor: ActorCursor<L>,
    authority: Authority,
    ghost who: { marked cursor ≡ TheAuthority } by { Prim.hlevel props },
    ghost plan: { authority_plan authority ≡ L.plan } by { Prim.hlevel (props, Plan-set) },
    ghost state: { authority_of authority ≡ (world_at L.plan (seen_at cursor)).authority } by { Prim.hlevel props },
}

impl<L: Site> AuthorityActor<L> {
    ghost use Rattle.volume_model.specs.declared.fault.Fault.TheVariants.{JournalFull, NoMessage, NoSlot};
    ghost use Rattle.node_fleet.specs.declared.halt.Halt.TheVariants.{Refused, StaleCursor};
    ghost use Rattle.world.specs.Actions.{authority_event};
    ghost use Rattle.node_fleet.specs.Actions.{IsLeft, IsSpent};
    ghost use Rattle.node_fleet.specs.Authorities.{actor_authority};
    ghost use Rattle.node_fleet.specs.RecordsAttempt.{Enters, IsExact, PassRecords};
    ghost use Rattle.node_fleet.specs.Ready.{IsStale};

    /// Makes the actor of a new volume's authority.
    pub fn new(cursor: ActorCursor<L>, authority: Authority) -> AuthorityActor<L>
        requires who { marked cursor ≡ TheAuthority }
        requires plan { authority_plan authority ≡ L.plan }
        requires state { authority_of authority ≡ (world_at L.plan (seen_at cursor)).authority }
    {
        AuthorityActor { cursor, authority }
    }

    /// Performs an action and enters the step. The caller holds the authority's lock and the journal's.
    ///
    /// # Errors
    /// The authority is unchanged. [`StaleCursor`](Halt::StaleCursor) if the cursor isn't at the authority's last
    /// entry; `NoMemory` if memory runs out. All others are noted: those of [`AuthorityAction::admitted_by`]
    /// (`EpochsSpent`, `NoGroup`, `NotInPlan`, `Superseded`, `AllGrown`); `NoSlot` if an assignment would pass the last
    /// slot; `JournalFull` if no cell is left.
    pub fn act<'a, R: Wait>(
        &mut self,
        rt: &R,
        alloc: Global,
        log: &mut Log<'a, L>,
        pass: &mut Pass<'a, L>,
        action: AuthorityAction,
        slots: u32,
    ) -> Result<Receipt, Halt>
        requires slots { slots ≡ L.slots }
        ensures recorded { PassRecords (authority_event action) result pass.old pass.new }
        ensures exact { IsExact L.plan L.slots (length L.cells) (journal_of log.old) (authority_event action) result }
        ensures left { OnOk result (IsLeft action (world_of log.old).authority slots) }
        ensures spent { result ≡ Err (Refused NoSlot) → IsSpent action (world_of log.old).authority slots }
        ensures full { result ≡ Err (Refused JournalFull) → IsLeft action (world_of log.old).authority slots }
        ensures entered { Enters (authority_event action) (journal_of log.old) (journal_of log.new) result }
        ensures stale { result ≡ Err StaleCursor → IsStale self.old.cursor log.old }
        ensures seat { seat_of pass.new ≡ seat_of pass.old }
        ensures found { result ≢ Err (Refused NoMessage) }
        ensures moved { OnOk result (actor_authority self.new ≡ (world_of log.new).authority) }
        ensures still { OnErr result (actor_authority self.new ≡ actor_authority self.old) }
    {
        let AuthorityActor { cursor, authority } = self;
        log.catch_up(pass);
        if let Err(halt) = reserve_step(log, pass, cursor) {
            return Err(halt);
        }
        let done = try_step(alloc, authority, log.is_full(), action, slots);
        commit_or_note(rt, log, cursor, pass, Event::of_authority(action), done, 0)
    }
}
