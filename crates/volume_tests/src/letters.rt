//! Tests of mailboxes with one thread and with two.

ghost use Rattle.node_fleet.specs.Seats.{IsSeatOf};

use node_fleet::{MailSeat, Mailbox};
use std::sync::Wait;
use std::test::*;
use std::thread;

// The holder of a seat.
#[derive(Drop)]
struct Replies<'m> {
    mail: &'m Mailbox,
    seat: MailSeat,
    ghost of: { IsSeatOf mail.now seat },
}

impl<'m> Replies<'m> {
    // Posts two letters, and the closing letter.
    fn post_two<R: Wait>(self, rt: &R, first: u64, second: u64) {
        let Replies { mail, mut seat } = self;
        mail.post(rt, &mut seat, first);
        mail.post(rt, &mut seat, second);
        mail.close(rt, &mut seat);
    }

    // Returns whether these two letters come in this order, and then the closing letter.
    fn collects_two<R: Wait>(self, rt: &R, first: u64, second: u64) -> bool {
        let Replies { mail, mut seat } = self;
        let one = mail.collect(rt, &mut seat);
        let other = mail.collect(rt, &mut seat);
        let last = mail.collect(rt, &mut seat);
        one == Some(first) && other == Some(second) && last.is_none()
    }
}

#[test]
fn letters_come_in_order_and_the_closing_letter_last(rt: HostRuntime) -> Result<(), Fail> {
    let (mail, mut seats) = Mailbox::new(rt.alloc(), 4, 2)?;
    let mut second = seats.pop().ok_or("no seat")?;
    let mut first = seats.pop().ok_or("no seat")?;
    assert!(rt; seats.is_empty());
    mail.post(&rt, &mut first, 7);
    mail.post(&rt, &mut second, 9);
    mail.post(&rt, &mut first, 8);
    mail.close(&rt, &mut first);
    assert_eq!(rt; mail.collect(&rt, &mut second), Some(7));
    assert_eq!(rt; mail.collect(&rt, &mut first), Some(9));
    assert_eq!(rt; mail.collect(&rt, &mut second), Some(8));
    assert_eq!(rt; mail.collect(&rt, &mut second), None);
    Ok(())
}

#[test]
fn a_letter_behind_the_closing_letter(rt: HostRuntime) -> Result<(), Fail> {
    let (mail, mut seats) = Mailbox::new(rt.alloc(), 4, 1)?;
    let mut seat = seats.pop().ok_or("no seat")?;
    mail.post(&rt, &mut seat, 5);
    mail.post(&rt, &mut seat, 6);
    mail.close(&rt, &mut seat);
    mail.post(&rt, &mut seat, 7);
    assert_eq!(rt; mail.collect(&rt, &mut seat), Some(5));
    assert_eq!(rt; mail.collect(&rt, &mut seat), Some(6));
    assert_eq!(rt; mail.collect(&rt, &mut seat), None);
    assert_eq!(rt; mail.collect(&rt, &mut seat), Some(7));
    Ok(())
}

#[test]
fn letters_reach_another_thread_in_order(rt: HostRuntime) -> Result<(), Fail> {
    let (mail, mut seats) = Mailbox::new(rt.alloc(), 1, 2)?;
    let second = seats.pop().ok_or("no seat")?;
    let first = seats.pop().ok_or("no seat")?;
    let (rt, mail) = (&rt, &mail);
    let poster = Replies { mail, seat: first };
    let reader = Replies { mail, seat: second };
    let ends = thread::join(
        rt,
        move || poster.post_two(rt, 7, 8),
        move || reader.collects_two(rt, 7, 8),
    );
    assert!(rt; ends.1);
    Ok(())
}
