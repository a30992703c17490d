//! Passes: what one caller did.

ghost use Rattle.std.specs.Prelude.{◌≡◌, ◌<◌, ◌≤◌, ℕ, length, All, vec_len, [], ◌++◌, ◌∷◌, IfOk};
ghost use Rattle.std.proofs.Props.{props};
ghost use Rattle.atomic_table.specs.Seated.{table_id_coded};
ghost use Rattle.std.specs.Coded.{Coded-set};
ghost use Rattle.journal.specs.Fronts.{front_book, front_log, log_of};
ghost use Rattle.board.specs.Seats.{seat_table, board_table, IsSeatIn};
ghost use Rattle.volume_model.specs.Common.{IsRefused};
ghost use Rattle.journal.specs.Entries.{entry_of, entries_of, note_of};
ghost use Rattle.journal.specs.PassSteps.{made, Stands};

use crate::entry::{Entry, Note};
use crate::history::{History, LogPrefix};
use crate::row::Site;
use board::{Board, BoardSeat, BoardStep};
use std::alloc::{AllocError, Global};
use std::marker::PhantomData;
use std::sync::ledger::Share;
use volume_model::Fault;
use world::Event;

/// A step of a pass: its entry.
#[derive(Drop)]
pub struct PassStep<'a, L: Site> {
    pub(crate) entry: &'a Entry,
    pub(crate) site: PhantomData<L>,
}

/// The steps, notes and board readings of one caller.
#[derive(Drop)]
pub struct Pass<'a, L: Site> {
    pub(crate) share: Share<L>,
    pub(crate) steps: Vec<PassStep<'a, L>>,
    pub(crate) notes: Vec<Note>,
    /// The place of the entry that made the last message looked up. The next search begins there.
    pub(crate) near: usize,
    pub(crate) seen: LogPrefix,
    pub(crate) seat: BoardSeat,
    ghost board: { seat_table seat ≡ L.board } by { Coded-set table_id_coded (seat_table seat) L.board },
    ghost no_slot: { seat.seat.me.1 ≡ [] },
    ghost history: { front_book seen ≡ L.history } by { Coded-set table_id_coded (front_book seen) L.history },
    ghost room: { length (front_log seen) ≤ length L.cells },
    ghost stand: { All (λ h. Stands L.plan (entries_of (front_log seen)) (made h.entry.now.cell (entry_of h.entry.now)
        h.entry.now.durable)) steps.items } by { Prim.hlevel props },
    ghost refused: { All (λ n. IsRefused L.plan L.slots (length L.cells) (entries_of (front_log seen)) (note_of n))
        notes.items } by { Prim.hlevel props },
    ghost part: { share.parts ≡ 1 },
    ghost counted: { share.amount ≡ vec_len steps },
}

impl<'a, L: Site> Pass<'a, L> {
    ghost use Rattle.world.specs.Events.{event_of};
    ghost use Rattle.board.specs.Board.{number_of, IsKept};
    ghost use Rattle.board.specs.Seats as board;
    ghost use Rattle.journal.specs.Passes.{steps_of, notes_of, seat_of, HasNoteRoom, HasStepRoom};

    /// Makes a pass without steps, over an empty journal.
    pub fn new(
        alloc: Global,
        share: Share<L>,
        history: &mut History<L>,
        seat: BoardSeat,
    ) -> Pass<'a, L>
        requires share { (share.parts ≡ 1) × (share.amount ≡ 0) }
        requires history { log_of history.old.opened ≡ [] }
        requires seat { IsSeatIn L.board seat }
        ensures history { log_of history.new.opened ≡ [] }
        ensures empty { (steps_of result ≡ []) × (notes_of result ≡ []) }
        ensures seat { seat_of result ≡ board.steps_of seat }
    {
        Pass {
            share,
            steps: Vec::new(alloc),
            notes: Vec::new(alloc),
            near: usize::MAX,
            seen: history.opened.front(),
            seat,
        }
    }

    /// Reserves room for a step and a note.
    ///
    /// # Errors
    /// `AllocError` if memory runs out. The pass is unchanged.
    #[inline(always)]
    pub fn reserve(&mut self) -> Result<(), AllocError>
        ensures same { (steps_of self.new ≡ steps_of self.old) × (notes_of self.new ≡ notes_of self.old)
            × (seat_of self.new ≡ seat_of self.old) × (front_log self.new.seen ≡ front_log self.old.seen) }
        ensures room { IfOk result (λ _. HasStepRoom self.new × HasNoteRoom self.new) }
    {
        if self.steps.len() < self.steps.capacity() && self.notes.len() < self.notes.capacity() {
            return Ok(());
        }
        self.grow()
    }

    // Reserves room in both lists. Out of line, since mostly both have room.
    #[inline(never)]
    fn grow(&mut self) -> Result<(), AllocError>
        ensures same { (steps_of self.new ≡ steps_of self.old) × (notes_of self.new ≡ notes_of self.old)
            × (seat_of self.new ≡ seat_of self.old) × (front_log self.new.seen ≡ front_log self.old.seen) }
        ensures room { IfOk result (λ _. HasStepRoom self.new × HasNoteRoom self.new) }
    {
        self.steps.reserve(1)?;
        self.notes.reserve(1)
    }

    // Remembers where the entry of the last looked-up message is.
    pub(crate) fn stay(&mut self, near: usize)
        ensures did { (self.new.steps ≡ self.old.steps) × (self.new.notes ≡ self.old.notes)
            × (seat_of self.new ≡ seat_of self.old) }
        ensures seen { front_log self.new.seen ≡ front_log self.old.seen }
    {
        self.near = near;
    }

    // Notes a refusal.
    pub(crate) fn note(&mut self, event: Event, fault: Fault, number: usize)
        requires room { HasNoteRoom self.old }
        requires refused { IsRefused L.plan L.slots (length L.cells) (entries_of (front_log self.old.seen))
            (record { event = event_of event; fault = fault; number = number }) }
        ensures same { (steps_of self.new ≡ steps_of self.old) × (seat_of self.new ≡ seat_of self.old)
            × (front_log self.new.seen ≡ front_log self.old.seen) }
        ensures note { notes_of self.new ≡ notes_of self.old ++ record {
          event = event_of event;
          fault = fault;
          number =
              number;
        } ∷ [] }
    {
        self.notes.push_reserved(Note {
            event,
            fault,
            number,
        });
    }

    /// Raises the board's number to `durable`, with the pass's seat.
    pub fn raise(&mut self, board: &Board, durable: u64)
        requires { board_table board.now ≡ L.board }
        ensures same { (steps_of self.new ≡ steps_of self.old) × (notes_of self.new ≡ notes_of self.old) }
        ensures raised { seat_of self.new ≡ seat_of self.old ++ BoardStep.Raised durable ∷ [] }
        ensures kept { (word : ℕ) × IsKept word (seat_of self.new) }
    {
        board.raise(&mut self.seat, durable);
    }

    /// Returns the board's number: the greatest that was raised (0 if none), and at least all that the pass raised or
    /// read.
    pub fn durable(&mut self, board: &Board) -> u64
        requires { board_table board.now ≡ L.board }
        ensures same { (steps_of self.new ≡ steps_of self.old) × (notes_of self.new ≡ notes_of self.old) }
        ensures read { seat_of self.new ≡ seat_of self.old ++ BoardStep.Read result ∷ [] }
        ensures at_least { All (λ s. number_of s ≤ result) (seat_of self.old) }
        ensures kept { IsKept result (seat_of self.new) }
    {
        board.durable(&mut self.seat)
    }
}
