//! A number that threads raise and read without a lock.
#![tactic(auto)]

ghost use Rattle.std.specs.Prelude.{◌≡◌, length, ◌-◌, [], ◌∷◌, ◌+◌, ◌++◌, ◌<◌, ◌≤◌, ℕ, All, IfOk, map, vec_len};

use atomic_table::{Join, Play, Seat, Split, Table, TableRule};
use std::alloc::{AllocError, Global};
use std::collections::LinkedList;

/// A step of a seat.
#[derive(Clone, Copy)]
pub enum BoardStep {
    /// The number was raised to this one, unless it was greater.
    Raised(u64),
    /// This number was read.
    Read(u64),
}

// The number of seats that aren't dealt yet, and the steps of each seat that is there. Exists only in contracts: no
// value is made.
type Seats = (u64, LinkedList<LinkedList<BoardStep>>);

/// The rule for the number and the steps of all seats. The key is the number of seats.
pub struct Durable;

impl TableRule<(), Seats, u64> for Durable {
    ghost use Rattle.board.specs.Board.{Stands};

    ghost holds = { λ seats s. Stands seats s.words s.views };

    ghost first = { λ seats. (seats - 1, [] ∷ []) };
}

/// Deals one more seat, which has made no step.
pub struct NewSeat;

impl Split<Seats> for NewSeat {
    ghost left = { λ v. (v.0 - 1, v.1) };

    ghost right = { λ _. (0, [] ∷ []) };
}

/// A seat is returned.
pub struct Return;

impl Join<Seats> for Return {
    ghost both = { λ v w. (v.0 + w.0, w.1 ++ v.1) };

    ghost spent = { (0, []) };
}

/// A seat raises the number.
pub struct Raise;

impl Play<(), Seats> for Raise {
    ghost use Rattle.board.specs.Board.{Raises};

    ghost then = { λ step before found after. Raises before.0 step.first after.0 × (after.1 ≡ before.1) };
}

/// A seat reads the number.
pub struct Look;

impl Play<(), Seats> for Look {
    ghost use Rattle.board.specs.Board.{Looks};

    ghost then = { λ step before found after. Looks before.0 found after.0 × (after.1 ≡ before.1) };
}

/// A number that only rises: the greatest that a seat has raised it to, 0 at first.
#[derive(Drop)]
pub struct Board {
    table: Table<(), Seats, u64, Durable, Global>,
    ghost one_word: { table.shared.table_id.words ≡ 1 },
    ghost no_slot: { table.shared.table_id.slots ≡ 0 },
}

/// A holder's access to the board. Contracts can name all its steps.
#[derive(Drop)]
pub struct BoardSeat {
    seat: Seat<(), Seats>,
    ghost one: { (seat.me.0.0 ≡ 0) × (length seat.me.0.1 ≡ 1) },
}

/// Returned seats of one board. Contracts can name the steps of each.
#[derive(Drop)]
pub struct ReturnedSeats {
    all: Seat<(), Seats>,
    ghost dealt: { all.me.0.0 ≡ 0 },
}

impl BoardSeat {
    ghost use Rattle.board.specs.Seats.{returned, steps_of, AreReturnedTo, IsSeatIn};

    /// Turns this seat into a collection of returned seats, which has it alone.
    pub fn into_returned(self) -> ReturnedSeats
        ensures same { IsSeatIn self.seat.table_id self → AreReturnedTo self.seat.table_id result }
        ensures returned { returned result ≡ steps_of self ∷ [] }
    {
        let BoardSeat { seat } = self;
        ReturnedSeats { all: seat }
    }
}

impl Board {
    ghost use Rattle.board.specs.Board.{number_of, IsBoard, IsKept};
    ghost use Rattle.board.specs.Seats.{board_table, returned, seats_of, AreReturnedTo, IsSeatOf, steps_of};

    /// Makes a board with the number 0, and its `seats` seats, which have made no step.
    ///
    /// # Errors
    /// `AllocError` if memory runs out.
    pub fn new(alloc: Global, seats: usize) -> Result<(Board, Vec<BoardSeat>), AllocError>
        requires { 0 < seats }
        ensures count { IfOk result (λ b. (vec_len b.1 ≡ seats) × (seats_of b.0 ≡ seats)) }
        ensures seats { IfOk result (λ b. All (λ s. IsSeatOf b.0 s) b.1.items) }
        ensures fresh { IfOk result (λ b. All (λ s. steps_of s ≡ []) b.1.items) }
    {
        let mut made = Vec::with_capacity(alloc, seats)?;
        let count = seats as u64;
        let (table, mut last) = Table::of_words(alloc, &[0], &count)?;
        for _ in 1..seats {
            let seat = table.shared.split_seat::<NewSeat>(&mut last);
            made.push(BoardSeat { seat })?;
        }
        made.push(BoardSeat { seat: last })?;
        Ok((Board { table }, made))
    }

    /// Raises the number to `lsn`, unless it is greater. Takes no lock and allocates nothing.
    pub fn raise(&self, seat: &mut BoardSeat, lsn: u64)
        requires { IsSeatOf self.now seat.old }
        ensures same { IsSeatOf self.now seat.new }
        ensures step { steps_of seat.new ≡ steps_of seat.old ++ BoardStep.Raised lsn ∷ [] }
        ensures kept { (word : ℕ) × IsKept word (steps_of seat.new) }
    {
        self.table.shared.fetch_max::<Raise>(&mut seat.seat, 0, lsn);
    }

    /// Returns the number: the greatest that was raised (0 if none), and at least all that this seat raised or read.
    /// Takes no lock and allocates nothing.
    pub fn durable(&self, seat: &mut BoardSeat) -> u64
        requires { IsSeatOf self.now seat.old }
        ensures same { IsSeatOf self.now seat.new }
        ensures step { steps_of seat.new ≡ steps_of seat.old ++ BoardStep.Read result ∷ [] }
        ensures at_least { All (λ s. number_of s ≤ result) (steps_of seat.old) }
        ensures kept { IsKept result (steps_of seat.new) }
    {
        self.table.shared.load::<Look>(&mut seat.seat, 0)
    }

    /// Adds a seat to the returned ones. Allocates nothing.
    pub fn take_back(&self, seats: &mut ReturnedSeats, seat: BoardSeat)
        requires { AreReturnedTo (board_table self.now) seats.old × IsSeatOf self.now seat }
        ensures same { AreReturnedTo (board_table self.now) seats.new }
        ensures returned { returned seats.new ≡ steps_of seat ∷ returned seats.old }
    {
        let BoardSeat { seat } = seat;
        self.table.shared.join_seat::<Return>(&mut seats.all, seat);
    }

    /// Closes a board whose seats were all returned. Returns its number, which is the greatest that these seats raised
    /// (0 if none). Each number that they read is 0 or was raised, and no seat's readings fall. Allocates nothing.
    pub fn end(self, seats: ReturnedSeats) -> u64
        requires seats { AreReturnedTo (board_table self) seats }
        requires all { length (returned seats) ≡ seats_of self }
        ensures { IsBoard result (returned seats) }
    {
        let ReturnedSeats { all } = seats;
        let closed = self.table.close_with(all);
        let number = closed.word(0);
        closed.free();
        number
    }

    /// Takes all seats back, closes the board and returns its number, as [`Board::end`] does. Allocates nothing.
    pub fn close(self, mut seats: Vec<BoardSeat>) -> u64
        requires of { All (λ s. IsSeatOf self s) seats.items }
        requires all { (vec_len seats ≡ seats_of self) × (0 < vec_len seats) }
        ensures { IsBoard result (map steps_of seats.items) }
    {
        let Some(last) = seats.pop() else {
            unreachable!()
        };
        let mut returned = last.into_returned();
        while let Some(seat) = seats.pop() {
            self.take_back(&mut returned, seat);
        }
        self.end(returned)
    }
}
