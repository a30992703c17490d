//! Makes a new fleet, with its passes.

ghost use Rattle.std.specs.Prelude.{[], is_some, length, vec_len, ◌+◌, ◌≡◌, ◌≤◌, All, IfErr, IfOk};
ghost use Rattle.std.specs.Arc.{arc_value};
ghost use Rattle.board.specs.Seats as board;
ghost use Rattle.board.specs.Seats.{IsSeatIn};
ghost use Rattle.volume_model.specs.declared.fault.Fault.TheVariants.{NoMemory};
ghost use Rattle.volume_model.specs.Common.{is_named};
ghost use Rattle.plan.specs.Common.{checked_model};
ghost use Rattle.journal.specs.Tokens.{ids_of};
ghost use Rattle.journal.specs.Fronts.{log_of};
ghost use Rattle.node_fleet.specs.Mails.{AreSeatsIn, HasNoSteps};
ghost use Rattle.node_fleet.specs.Passes.{IsFresh};
ghost use Rattle.node_fleet.specs.Places.{HasEach};

use crate::authority::AuthorityActor;
use crate::base::Base;
use crate::client::ClientActor;
use crate::fleet::Fleet;
use crate::mailboxes::MailSeats;
use crate::node::NodeActor;
use crate::pass::Pass;
use crate::site::FleetSite;
use board::BoardSeat;
use epochs::Authority;
use journal::{ActorCursor, ActorName, History, Log, Row, Site};
use plan::CheckedPlan;
use std::alloc::{AllocError, Global};
use std::sync::ledger::Share;
use std::sync::{Arc, Mutex};
use volume_model::Fault;
use world::{Client, MEMBERS};

// Makes an unused pass.
fn pass<'a, L: FleetSite>(
    alloc: Global,
    share: Share<L>,
    history: &mut History<L>,
    seat: BoardSeat,
    mail: MailSeats,
) -> Pass<'a, L>
    requires share { (share.parts ≡ 1) × (share.amount ≡ 0) }
    requires history { log_of history.old.opened ≡ [] }
    requires seat { IsSeatIn L.board seat × (length (board.steps_of seat) ≡ 0) }
    requires mail { AreSeatsIn L.mail mail × HasNoSteps mail }
    ensures history { log_of history.new.opened ≡ [] }
    ensures fresh { IsFresh result }
{
    let entered = journal::Pass::new(alloc, share, history, seat);
    Pass { entered, mail }
}

// Makes unused passes: one for each seat of the board, each with a share of the ledger.
fn passes<'a, L: FleetSite>(
    alloc: Global,
    mut rest: Share<L>,
    history: &mut History<L>,
    mut seats: Vec<BoardSeat>,
    mut callers: Vec<MailSeats>,
) -> Result<Vec<Pass<'a, L>>, AllocError>
    requires parts { (rest.parts ≡ vec_len seats) × (rest.amount ≡ 0) }
    requires history { log_of history.old.opened ≡ [] }
    requires seats { All (λ s. IsSeatIn L.board s × (length (board.steps_of s) ≡ 0)) seats.items }
    requires callers { All (λ s. AreSeatsIn L.mail s × HasNoSteps s) callers.items }
    requires many { vec_len callers ≡ vec_len seats }
    ensures history { log_of history.new.opened ≡ [] }
    ensures count { IfOk result (λ made. vec_len made ≡ vec_len seats) }
    ensures fresh { IfOk result (λ made. All IsFresh made.items) }
{
    let mut made = Vec::with_capacity(alloc, seats.len())?;
    while let Some(seat) = seats.pop() {
        let share = rest.split_off(1, 0);
        let Some(mail) = callers.pop() else {
            unreachable!()
        };
        made.push(pass(alloc, share, history, seat, mail))?;
    }
    Ok(made)
}

// Makes the client of a volume epoch: the first is a writer, the others are unborn.
fn client<L: Site>(
    alloc: Global,
    plan: &Arc<CheckedPlan>,
    volume: u32,
    history: &mut History<L>,
) -> Result<ClientActor<L>, Fault>
    requires plan { checked_model (arc_value plan.now) ≡ L.plan }
    requires history { log_of history.old.opened ≡ [] }
    ensures history { log_of history.new.opened ≡ [] }
    ensures memory { IfErr result (λ fault. fault ≡ NoMemory) }
{
    let client = if volume == 1 {
        Client::first(alloc, plan.clone()?)?
    } else {
        Client::unborn(plan.clone()?, volume)
    };
    let cursor = ActorCursor::new(ActorName::Client(volume), history);
    Ok(ClientActor::new(cursor, client))
}

// Makes the clients of volume epochs 0 to the last slot's. Epoch 0 has a client that is never born.
fn clients<L: Site>(
    alloc: Global,
    plan: &Arc<CheckedPlan>,
    slots: u32,
    history: &mut History<L>,
) -> Result<Vec<Mutex<ClientActor<L>>>, Fault>
    requires plan { checked_model (arc_value plan.now) ≡ L.plan }
    requires history { log_of history.old.opened ≡ [] }
    ensures history { log_of history.new.opened ≡ [] }
    ensures count { IfOk result (λ made. vec_len made ≡ slots + 1) }
    ensures memory { IfErr result (λ fault. fault ≡ NoMemory) }
{
    let mut made = Vec::with_capacity(alloc, slots as usize + 1)?;
    made.push(Mutex::new(client(alloc, plan, 0, history)?))?;
    for slot in 0..slots {
        made.push(Mutex::new(client(alloc, plan, slot + 1, history)?))?;
    }
    Ok(made)
}

// Makes the node of a member of a group, if the plan names the member.
fn node<L: Site>(
    alloc: Global,
    plan: &Arc<CheckedPlan>,
    group: u8,
    member: u8,
    history: &mut History<L>,
) -> Result<Option<Mutex<NodeActor<L>>>, Fault>
    requires plan { checked_model (arc_value plan.now) ≡ L.plan }
    requires history { log_of history.old.opened ≡ [] }
    ensures history { log_of history.new.opened ≡ [] }
    ensures there { IfOk result (λ made. is_some made ≡ is_named L.plan group member) }
    ensures memory { IfErr result (λ fault. fault ≡ NoMemory) }
{
    if !plan.names(group, member) {
        return Ok(None);
    }
    let actor = NodeActor::born(alloc, plan.clone()?, group, member, history)?;
    Ok(Some(Mutex::new(actor)))
}

// Makes the nodes that the plan names, each in its slot; there are 64 slots for each group.
fn nodes<L: Site>(
    alloc: Global,
    plan: &Arc<CheckedPlan>,
    history: &mut History<L>,
) -> Result<Vec<Option<Mutex<NodeActor<L>>>>, Fault>
    requires plan { checked_model (arc_value plan.now) ≡ L.plan }
    requires history { log_of history.old.opened ≡ [] }
    ensures history { log_of history.new.opened ≡ [] }
    ensures each { IfOk result (λ made. HasEach L.plan made.items) }
    ensures memory { IfErr result (λ fault. fault ≡ NoMemory) }
{
    let mut made = Vec::new(alloc);
    for slot in 0..usize::from(plan.groups()) * MEMBERS {
        let (group, member) = ((slot / MEMBERS) as u8, (slot % MEMBERS) as u8);
        made.push(node(alloc, plan, group, member, history)?)?;
    }
    Ok(made)
}

impl<'a, L: FleetSite> Fleet<'a, L> {
    ghost use Rattle.node_fleet.specs.Bases.{passes_of, IsBaseOf};

    /// Makes a fleet of a new volume, with an empty journal over a row of cells and clients of volume epochs up to
    /// `slots`, and the passes of its callers. `slots` is at least 1: without a slot for it, a call for the first
    /// client would block forever.
    ///
    /// # Errors
    /// `NoMemory` if memory runs out.
    pub fn new(
        alloc: Global,
        row: &'a mut Row,
        base: Base,
        plan: Arc<CheckedPlan>,
        slots: u32,
    ) -> Result<(Fleet<'a, L>, Vec<Pass<'a, L>>), Fault>
        requires plan { checked_model (arc_value plan) ≡ L.plan }
        requires cells { ids_of row.old ≡ L.cells }
        requires slots { slots ≡ L.slots }
        requires first { 1 ≤ slots }
        requires base { IsBaseOf L.plan L.board L.history L.mail L.name L.parts base }
        ensures count { IfOk result (λ f. vec_len f.1 ≡ passes_of base) }
        ensures fresh { IfOk result (λ f. All IsFresh f.1.items) }
        ensures memory { IfErr result (λ fault. fault ≡ NoMemory) }
    {
        let Base {
            board,
            seats,
            mail,
            callers,
            opened,
            blank,
        } = base;
        let (book, rest) = blank.open::<L>();
        let mut history = opened.named::<L>();
        let made = passes(alloc, rest, &mut history, seats, callers)?;
        let nodes = nodes(alloc, &plan, &mut history)?;
        let clients = clients(alloc, &plan, slots, &mut history)?;
        let authority = Authority::new(alloc, plan.clone()?)?;
        let authority = AuthorityActor::new(
            ActorCursor::new(ActorName::TheAuthority, &mut history),
            authority,
        );
        let born = u64::from(plan.born());
        let log = Log::new(alloc, row, slots, plan.groups(), born, book, history)?;
        let fleet = Fleet {
            alloc,
            plan,
            board,
            mail,
            authority: Mutex::new(authority),
            clients,
            nodes,
            journal: Mutex::new(log),
            slots,
        };
        Ok((fleet, made))
    }
}
