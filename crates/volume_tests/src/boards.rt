//! Tests of a board with one thread and with two.

ghost use Rattle.board.specs.Seats.{IsSeatOf};

use board::{Board, BoardSeat};
use std::test::*;
use std::thread;

// Raises the board to two numbers. Returns the number read after each.
fn raise_twice(board: &Board, seat: &mut BoardSeat, low: u64, high: u64) -> (u64, u64)
    requires { IsSeatOf board.now seat.old }
{
    board.raise(seat, low);
    let first = board.durable(seat);
    board.raise(seat, high);
    (first, board.durable(seat))
}

#[derive(Drop)]
struct Climb<'b> {
    board: &'b Board,
    seat: BoardSeat,
    ghost of: { IsSeatOf board.now seat },
}

impl<'b> Climb<'b> {
    // Returns whether each number read is at least what the seat has raised and read before.
    fn rises(self, low: u64, high: u64) -> bool {
        let Climb { board, mut seat } = self;
        let (first, second) = raise_twice(board, &mut seat, low, high);
        low <= first && first <= second && high <= second && second <= 9
    }
}

#[test]
fn all_seats_see_one_number(rt: HostRuntime) -> Result<(), Fail> {
    let (board, mut seats) = Board::new(rt.alloc(), 2)?;
    let mut second = seats.pop().ok_or("no seat")?;
    let mut first = seats.pop().ok_or("no seat")?;
    assert_eq!(rt; board.durable(&mut first), 0);
    board.raise(&mut first, 5);
    board.raise(&mut second, 3);
    assert_eq!(rt; board.durable(&mut second), 5);
    Ok(())
}

#[test]
fn readings_rise_on_each_thread(rt: HostRuntime) -> Result<(), Fail> {
    let (board, mut seats) = Board::new(rt.alloc(), 2)?;
    let second = seats.pop().ok_or("no seat")?;
    let first = seats.pop().ok_or("no seat")?;
    let (board, one, two) = (&board, first, second);
    let even = Climb { board, seat: one };
    let odd = Climb { board, seat: two };
    let rose = thread::join(&rt, move || even.rises(2, 8), move || odd.rises(3, 9));
    assert!(rt; rose.0 && rose.1);
    Ok(())
}

#[test]
fn a_closed_board_has_the_greatest_number(rt: HostRuntime) -> Result<(), Fail> {
    let (board, mut seats) = Board::new(rt.alloc(), 2)?;
    let mut second = seats.pop().ok_or("no seat")?;
    let mut first = seats.pop().ok_or("no seat")?;
    board.raise(&mut first, 5);
    board.raise(&mut second, 3);
    let mut returned = first.into_returned();
    board.take_back(&mut returned, second);
    assert_eq!(rt; board.end(returned), 5);
    Ok(())
}
