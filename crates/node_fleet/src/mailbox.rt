//! Mailboxes. Their letters have places in one order; any thread may post or collect.

ghost use Rattle.std.specs.Prelude.{◌≡◌, ◌<◌, length, [], ◌∷◌, ◌+◌, ◌-◌, ◌++◌, All, IfOk, vec_len, Some, None};
ghost use Rattle.crossbeam_channel.specs.Claims.{view, IsKeyed};
ghost use Rattle.crossbeam_channel.specs.Ends.{sends_on, receives_on};

use crossbeam_channel::protocol::{Join, Lesson, Outcome, Protocol, Split};
use crossbeam_channel::{Pass, RuledReceiver, RuledSender, bounded_with};
use std::alloc::{AllocError, Global};
use std::collections::LinkedList;
use std::sync::Wait;
use std::thread::yield_now;

/// The number of polls for a letter, with a yield after each, before the thread blocks.
const POLLS: u32 = 20;

/// A message's number, or `None`, the closing letter.
pub type Letter = Option<u64>;

/// A step of a seat at a mailbox.
#[derive(Clone, Copy)]
pub enum MailStep {
    /// This letter was posted at this place.
    Posted(u64, Letter),
    /// This letter was collected from this place.
    Collected(u64, Letter),
}

// The number of all seats, the number of seats that aren't dealt yet, and the steps of each seat that is here. Exists
// only in contracts: no value is made.
type Seats = (u64, (u64, LinkedList<LinkedList<MailStep>>));

/// The rule of the queued letters and the steps of all seats.
pub struct Places;

impl Protocol<Letter, Seats> for Places {
    ghost use Rattle.node_fleet.specs.Mail.{IsMailbox};

    ghost holds = { IsMailbox };

    ghost first = { (1, (0, [] ∷ [])) };
}

/// One more seat can be dealt. Before the first is dealt, one pass has all seats and knows their number; the pass that
/// is split off here has none.
pub struct OneMore;

impl Split<Seats> for OneMore {
    ghost left = { λ v. (v.0 + 1, (v.1.0 + 1, v.1.1)) };

    ghost right = { λ _. (0, (0, [])) };
}

/// Deals one more seat, which has made no step.
pub struct NewSeat;

impl Split<Seats> for NewSeat {
    ghost left = { λ v. (v.0, (v.1.0 - 1, v.1.1)) };

    ghost right = { λ v. (v.0, (0, [] ∷ [])) };
}

/// Takes a seat back.
pub struct Return;

impl Join<Seats> for Return {
    ghost both = { λ v w. (v.0, (v.1.0 + w.1.0, w.1.1 ++ v.1.1)) };

    ghost spent = { (0, (0, [])) };
}

/// A seat posts a letter.
pub struct Posts;

impl Outcome<Letter, Seats> for Posts {
    ghost use Rattle.node_fleet.specs.Mail.{Posts};

    ghost then = { Posts };
}

impl Lesson<Letter, Seats> for Posts {
    ghost fact = { λ _ _. Unit {0} };
}

/// A seat collects the oldest letter.
pub struct Collects;

impl Outcome<Letter, Seats> for Collects {
    ghost use Rattle.node_fleet.specs.Mail.{Collects};

    ghost then = { Collects };
}

impl Lesson<Letter, Seats> for Collects {
    ghost fact = { λ _ _. Unit {0} };
}

/// What the rule says about the steps of all seats, once they are taken back.
pub struct Record;

impl Lesson<Letter, Seats> for Record {
    ghost use Rattle.node_fleet.specs.Mail.{AreKept};

    ghost fact = { λ seats _. AreKept seats.1.1 };
}

/// Queued letters, oldest first, up to a capacity.
#[derive(Drop)]
pub struct Mailbox {
    to: RuledSender<Letter, Seats, Places>,
    from: RuledReceiver<Letter, Seats, Places>,
    /// The number of seats.
    seats: usize,
    ghost one_channel: { receives_on from ≡ sends_on to },
    ghost keyed: { IsKeyed (sends_on to) },
}

/// A holder's seat at a mailbox, or several seats that were taken back. Contracts can name all their steps.
#[derive(Drop)]
pub struct MailSeat {
    pass: Pass<Letter, Seats>,
    ghost dealt: { (view pass).1.0 ≡ 0 },
    ghost some: { 0 < length (view pass).1.1 },
}

impl Mailbox {
    ghost use Rattle.node_fleet.specs.Mail.{AddsPosted, AddsCollected, AreKept};
    ghost use Rattle.node_fleet.specs.Seats.{capacity_of, returned, seats_of, steps_of, AreSeatsOf, IsSeatOf};

    /// Makes an empty mailbox for `capacity` letters, and its `seats` seats, which have made no step.
    ///
    /// # Errors
    /// `AllocError` if memory runs out.
    pub fn new(
        alloc: Global,
        capacity: usize,
        seats: usize,
    ) -> Result<(Mailbox, Vec<MailSeat>), AllocError>
        requires { (0 < capacity) × (0 < seats) }
        ensures count { IfOk result (λ m. (vec_len m.1 ≡ seats) × (seats_of m.0 ≡ seats)) }
        ensures seats { IfOk result (λ m. All (λ s. IsSeatOf m.0 s × (steps_of s ≡ [])) m.1.items) }
        ensures room { IfOk result (λ m. capacity_of m.0 ≡ capacity) }
    {
        let mut made = Vec::with_capacity(alloc, seats)?;
        let (to, from, mut last) = bounded_with::<Letter, Seats, Places, Global>(alloc, capacity)?;
        for _ in 1..seats {
            drop(to.another::<OneMore>(&mut last));
        }
        for _ in 1..seats {
            let pass = to.another::<NewSeat>(&mut last);
            made.push(MailSeat { pass })?;
        }
        made.push(MailSeat { pass: last })?;
        Ok((Mailbox { to, from, seats }, made))
    }

    /// Puts a letter at the next place. Blocks while the mailbox is full.
    pub(crate) fn put<R: Wait>(&self, rt: &R, seat: &mut MailSeat, letter: Letter)
        requires { IsSeatOf self.now seat.old }
        ensures same { IsSeatOf self.now seat.new }
        ensures step { AddsPosted (steps_of seat.old) letter (steps_of seat.new) }
    {
        for _ in rt.forever() {
            if self
                .to
                .send_as::<Posts, R>(rt, &mut seat.pass, letter)
                .is_ok()
            {
                return;
            }
        }
        unreachable!()
    }

    /// Posts a message's number. Blocks while the mailbox is full. Allocates nothing.
    pub fn post<R: Wait>(&self, rt: &R, seat: &mut MailSeat, message: u64)
        requires { IsSeatOf self.now seat.old }
        ensures same { IsSeatOf self.now seat.new }
        ensures step { AddsPosted (steps_of seat.old) (Some message) (steps_of seat.new) }
    {
        self.put(rt, seat, Some(message));
    }

    /// Posts the closing letter. Blocks while the mailbox is full. Allocates nothing.
    pub fn close<R: Wait>(&self, rt: &R, seat: &mut MailSeat)
        requires { IsSeatOf self.now seat.old }
        ensures same { IsSeatOf self.now seat.new }
        ensures step { AddsPosted (steps_of seat.old) None (steps_of seat.new) }
    {
        self.put(rt, seat, None);
    }

    /// Takes the oldest letter. Blocks while there is none. The letter's place is above all that this seat has
    /// collected. `None` is the closing letter. Allocates nothing.
    pub fn collect<R: Wait>(&self, rt: &R, seat: &mut MailSeat) -> Letter
        requires { IsSeatOf self.now seat.old }
        ensures same { IsSeatOf self.now seat.new }
        ensures step { AddsCollected (steps_of seat.old) result (steps_of seat.new) }
    {
        for _ in 0..POLLS {
            if let Ok(found) = self.from.try_recv_as::<Collects, R>(rt, &mut seat.pass) {
                return found;
            }
            yield_now();
        }
        for _ in rt.forever() {
            if let Ok(letter) = self.from.recv_as::<Collects, R>(rt, &mut seat.pass) {
                return letter;
            }
        }
        unreachable!()
    }

    /// Adds a seat to those that were taken back. Allocates nothing.
    pub fn take_back(&self, all: &mut MailSeat, seat: MailSeat)
        requires { AreSeatsOf self.now all.old × IsSeatOf self.now seat }
        ensures same { AreSeatsOf self.now all.new }
        ensures returned { returned all.new ≡ steps_of seat ∷ returned all.old }
    {
        let MailSeat { pass } = seat;
        self.to.absorb::<Return>(&mut all.pass, pass);
    }

    /// Shows the mailbox's rule for exactly these seats, once all were taken back: each place has one letter, a letter
    /// is collected at most once, and each seat collects in the order of places. Allocates nothing.
    pub fn recall(&self, all: &mut MailSeat)
        requires of { AreSeatsOf self.now all.old }
        requires all { length (returned all.old) ≡ seats_of self.now }
        ensures same { AreSeatsOf self.now all.new × (returned all.new ≡ returned all.old) }
        ensures kept { AreKept (returned all.old) }
    {
        self.to.learn_as::<Record>(&mut all.pass);
    }
}
