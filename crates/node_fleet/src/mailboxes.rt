//! A mailbox for each node of a volume, and the seats of its callers.

ghost use Rattle.std.specs.Prelude.{◌≡◌, ◌≢◌, ◌<◌, ◌++◌, [], ◌∷◌, ℕ, true, All, IfOk, Option, Some, None, is_some, slice_get, vec_len};
ghost use Rattle.volume_model.specs.Common.{is_named};
ghost use Rattle.plan.specs.Common.{checked_model};
ghost use Rattle.node_fleet.specs.Mail.{AddsPosted, AddsCollected, AreKept};
ghost use Rattle.world.specs.Slots.{slot_of};
ghost use Rattle.node_fleet.specs.Mails.{back_at, has_mailbox, ids_of, seat_steps, AreAllKept, AreBack, AreNew, AreNewSeats, AreSeatsOf, AreWhole, ChangesAt, Fits, Has, HasNodes, HasNoSteps, IsNew, TakesBack};
ghost use Rattle.node_fleet.specs.Seats.{MailboxId};

use crate::mailbox::{Letter, MailSeat, Mailbox};
use plan::CheckedPlan;
use std::alloc::{AllocError, Global};
use std::sync::Wait;
use world::MEMBERS;

/// The capacity of a node's mailbox.
const CAPACITY: usize = 1024;

/// A mailbox for each node that a plan names.
#[derive(Drop)]
pub struct Mailboxes {
    /// 64 slots for each group: one for each member, used if the plan names the member.
    boxes: Vec<Option<Mailbox>>,
}

/// A caller's seats, one at each mailbox, or those of several callers that were taken back. Contracts can name all
/// their steps.
#[derive(Drop)]
pub struct MailSeats {
    /// The seats, each at the place of its mailbox.
    seats: Vec<Option<MailSeat>>,
}

// Returns the slot of a node's mailbox.
fn slot(group: u8, member: u8) -> usize
    ensures { result ≡ slot_of group member }
{
    usize::from(group) * MEMBERS + usize::from(member)
}

// Makes the mailbox of a node and a seat for each caller, or neither if the plan doesn't name the node.
fn node_mailbox(
    alloc: Global,
    plan: &CheckedPlan,
    group: u8,
    member: u8,
    callers: usize,
) -> Result<(Option<Mailbox>, Vec<MailSeat>), AllocError>
    requires { 0 < callers }
    ensures named { IfOk result (λ m. is_some m.0 ≡ is_named (checked_model plan.now) group member) }
    ensures seats { IfOk result (λ m. AreNewSeats callers m.0 m.1.items) }
    ensures fresh { IfOk result (λ m. IsNew callers m.0) }
{
    if !plan.names(group, member) {
        return Ok((None, Vec::new(alloc)));
    }
    let (mailbox, seats) = Mailbox::new(alloc, CAPACITY, callers)?;
    Ok((Some(mailbox), seats))
}

// Makes the empty lists of seats of `callers` callers.
fn without_seats(alloc: Global, callers: usize) -> Result<Vec<MailSeats>, AllocError>
    ensures count { IfOk result (λ made. vec_len made ≡ callers) }
    ensures none { IfOk result (λ made. All (λ s. s.seats.items ≡ []) made.items) }
{
    let mut made = Vec::with_capacity(alloc, callers)?;
    for _ in 0..callers {
        let seats = Vec::new(alloc);
        made.push(MailSeats { seats })?;
    }
    Ok(made)
}

impl Mailboxes {
    // Adds a mailbox, if there is one, and gives each caller one of its seats.
    fn add(
        &mut self,
        alloc: Global,
        mut callers: Vec<MailSeats>,
        mailbox: Option<Mailbox>,
        mut seats: Vec<MailSeat>,
    ) -> Result<Vec<MailSeats>, AllocError>
        requires callers { All (λ s. AreSeatsOf self.old s × HasNoSteps s) callers.items }
        requires seats { AreNewSeats (vec_len callers) mailbox seats.items }
        ensures boxes { IfOk result (λ _. self.new.boxes.items ≡ self.old.boxes.items ++ mailbox ∷ []) }
        ensures count { IfOk result (λ given. vec_len given ≡ vec_len callers) }
        ensures given { IfOk result (λ given. All (λ s. AreSeatsOf self.new s × HasNoSteps s) given.items) }
    {
        self.boxes.push(mailbox)?;
        let mut given = Vec::with_capacity(alloc, callers.len())?;
        while let Some(mut caller) = callers.pop() {
            caller.seats.push(seats.pop())?;
            given.push(caller)?;
        }
        Ok(given)
    }

    /// Makes a mailbox for 1,024 letters for each node that the plan names, and the seats of `callers` callers, which
    /// have made no step.
    ///
    /// # Errors
    /// `AllocError` if memory runs out.
    pub fn new(
        alloc: Global,
        plan: &CheckedPlan,
        callers: usize,
    ) -> Result<(Mailboxes, Vec<MailSeats>), AllocError>
        requires { 0 < callers }
        ensures count { IfOk result (λ m. vec_len m.1 ≡ callers) }
        ensures nodes { IfOk result (λ m. HasNodes (checked_model plan.now) m.0) }
        ensures seats { IfOk result (λ m. All (λ s. AreSeatsOf m.0 s × HasNoSteps s) m.1.items) }
        ensures fresh { IfOk result (λ m. AreNew callers m.0) }
    {
        let mut seats = without_seats(alloc, callers)?;
        let boxes = Vec::new(alloc);
        let mut mailboxes = Mailboxes { boxes };
        for k in 0..usize::from(plan.groups()) * MEMBERS {
            let (group, member) = ((k / MEMBERS) as u8, (k % MEMBERS) as u8);
            let (mailbox, made) = node_mailbox(alloc, plan, group, member, callers)?;
            seats = mailboxes.add(alloc, seats, mailbox, made)?;
        }
        Ok((mailboxes, seats))
    }

    /// Posts a letter to a node. Blocks while the mailbox is full. Allocates nothing.
    pub fn send<R: Wait>(
        &self,
        rt: &R,
        seats: &mut MailSeats,
        group: u8,
        member: u8,
        letter: Letter,
    )
        requires node { has_mailbox self.now group member ≡ true }
        requires seats { AreSeatsOf self.now seats.old }
        ensures same { AreSeatsOf self.now seats.new }
        ensures step { ChangesAt (slot_of group member) (λ before after. AddsPosted before letter after) seats.old
            seats.new }
    {
        let slot = slot(group, member);
        let Some(mailbox) = &self.boxes[slot] else {
            unreachable!()
        };
        let Some(seat) = &mut seats.seats[slot] else {
            unreachable!()
        };
        mailbox.put(rt, seat, letter);
    }

    /// Takes a node's oldest letter. Blocks while there is none. The letter's place is above all that this caller has
    /// collected there. `None` is the closing letter. Allocates nothing.
    pub fn collect<R: Wait>(&self, rt: &R, seats: &mut MailSeats, group: u8, member: u8) -> Letter
        requires node { has_mailbox self.now group member ≡ true }
        requires seats { AreSeatsOf self.now seats.old }
        ensures same { AreSeatsOf self.now seats.new }
        ensures step { ChangesAt (slot_of group member) (λ before after. AddsCollected before result after) seats.old
            seats.new }
    {
        let slot = slot(group, member);
        let Some(mailbox) = &self.boxes[slot] else {
            unreachable!()
        };
        let Some(seat) = &mut seats.seats[slot] else {
            unreachable!()
        };
        mailbox.collect(rt, seat)
    }

    // Takes back the seat at the mailbox in a slot, if there is one.
    fn take_one(&self, slot: usize, all: &mut MailSeats, seat: Option<MailSeat>)
        requires seat { (id : Option MailboxId) × (slice_get (ids_of self.now) slot ≡ Some id) × Fits id seat }
        requires back { AreBack self.now all.old }
        ensures back { AreBack self.now all.new }
        ensures others { (k : ℕ) → k ≢ slot → back_at all.new k ≡ back_at all.old k }
        ensures here { (m : Mailbox) → Has self.now slot m → back_at all.new slot ≡ seat_steps (Some seat) ∷ back_at
            all.old slot }
    {
        let Some(mailbox) = &self.boxes[slot] else {
            return;
        };
        let Some(seat) = seat else { unreachable!() };
        let Some(back) = &mut all.seats[slot] else {
            unreachable!()
        };
        mailbox.take_back(back, seat);
    }

    /// Adds a caller's seats to those that were taken back. Allocates nothing.
    pub fn take_back(&self, all: &mut MailSeats, seats: MailSeats)
        requires seats { AreSeatsOf self.now seats }
        requires back { AreBack self.now all.old }
        ensures back { AreBack self.now all.new }
        ensures each { TakesBack self.now seats all.old all.new }
    {
        let MailSeats { mut seats } = seats;
        while let Some(seat) = seats.pop() {
            self.take_one(seats.len(), all, seat);
        }
    }

    // Shows that the steps at the mailbox in a slot follow its rule, if there is one.
    fn recall_one(&self, slot: usize, all: &mut MailSeats)
        requires slot { (m : Option Mailbox) × (slice_get self.now.boxes.items slot ≡ Some m) }
        requires back { AreBack self.now all.old }
        requires whole { AreWhole self.now all.old }
        ensures back { AreBack self.now all.new }
        ensures same { (k : ℕ) → back_at all.new k ≡ back_at all.old k }
        ensures kept { (m : Mailbox) → Has self.now slot m → AreKept (back_at all.old slot) }
    {
        let Some(mailbox) = &self.boxes[slot] else {
            return;
        };
        let Some(back) = &mut all.seats[slot] else {
            unreachable!()
        };
        mailbox.recall(back);
    }

    /// Closes mailboxes whose seats were all taken back. At each, the steps of exactly these seats follow its rule.
    /// Allocates nothing.
    pub fn end(self, mut all: MailSeats)
        requires back { AreBack self all }
        requires whole { AreWhole self all }
        ensures { AreAllKept self all }
    {
        for slot in 0..self.boxes.len() {
            self.recall_one(slot, &mut all);
        }
    }
}
