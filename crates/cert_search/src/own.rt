//! A worker's own deque.
ghost use Rattle.std.specs.Prelude.{◌≡◌, true, ◌<◌, suc, false, IfOk, MatchOption, All};
ghost use Rattle.crossbeam_deque.specs.Handles.{worker_flavor, worker_port, worker_view};
ghost use Rattle.cert_search.specs.Deque.{is_owner};

use crate::deque::{Closes, Deals, Owner, Settled, Takes, Task, Thieves};
use crate::steal_handle::StealHandle;
use std::alloc::{AllocError, Global};
use std::sync::Wait;

/// The deque of worker `which`, for its owner.
#[derive(Drop)]
pub struct Own {
    which: usize,
    deque: Owner,
    ended: bool,
    ghost fifo: { worker_flavor deque ≡ 0 },
    ghost first: { worker_port deque ≡ 0 },
    ghost owner: { is_owner (worker_view deque).holder ≡ true },
    ghost at_end: { ended ≡ (worker_view deque).ended },
}

impl Own {
    ghost use Rattle.cert_search.specs.Deque.{first_view, guest_view, dealt_more, both_views, Settles};
    ghost use Rattle.cert_search.specs.NamedViews.{own_named, handle_named, Ends, Gets, SameDeque};
    ghost use Rattle.cert_search.specs.Dealing.{own_plain, own_out, GetsMarks};

    // Makes an empty deque.
    pub(crate) fn new(alloc: Global, which: usize, capacity: usize) -> Result<Own, AllocError>
        ensures { IfOk result (λ o. ((own_named o).0 ≡ which) × ((own_named o).1 ≡ first_view)) }
    {
        let deque = Owner::fifo_as(alloc, capacity)?;
        Ok(Own {
            which,
            deque,
            ended: false,
        })
    }

    // Deals a claim with a greater number than all that were dealt before.
    pub(crate) fn deal(&mut self, claim: usize) -> Result<(), AllocError>
        requires deals { (own_named self.old).1.deals ≡ true }
        requires unended { (own_named self.old).1.ended ≡ false }
        requires above { All (λ c. c < claim) (own_named self.old).1.dealt }
        ensures same { SameDeque (own_named self.old) (own_named self.new) }
        ensures dealt { IfOk result (λ _. (own_named self.new).1 ≡ dealt_more (own_named self.old).1 claim) }
    {
        match self.deque.push_as::<Deals>(Task::Claim(claim)) {
            Ok(()) => Ok(()),
            Err(_) => Err(AllocError),
        }
    }

    // Adds an end mark. From now on no claim is dealt.
    pub(crate) fn close(&mut self) -> Result<(), AllocError>
        ensures { IfOk result (λ _. GetsMarks 1 self.old self.new) }
    {
        match self.deque.push_as::<Closes>(Task::End) {
            Ok(()) => Ok(()),
            Err(_) => Err(AllocError),
        }
    }

    // Takes the first claim, or an end mark if no claim is left.
    pub(crate) fn take<R: Wait>(&mut self, rt: &R) -> Option<usize>
        ensures { MatchOption result (Ends (own_named self.old) (own_named self.new))
            (λ c. Gets (own_named self.old) c (own_named self.new)) }
    {
        if self.ended {
            return None;
        }
        for _ in rt.forever() {
            match self.deque.pop_as::<Takes>() {
                Some(Task::Claim(claim)) => return Some(claim),
                Some(Task::End) => {
                    self.ended = true;
                    return None;
                }
                None => {}
            }
        }
        unreachable!()
    }

    // Lends another worker a view of the deque, which has taken nothing. From now on no claim is dealt.
    pub(crate) fn steal_handle(&mut self) -> Result<StealHandle, AllocError>
        ensures plain { own_plain self.new ≡ own_plain self.old }
        ensures lent { IfOk result (λ _. own_out self.new ≡ suc (own_out self.old)) }
        ensures steal_handle { IfOk result (λ r. SameDeque (own_named self.old) (handle_named r)
            × ((handle_named r).1 ≡ guest_view (own_named self.old).1.dealt (own_named self.old).1.marks)) }
    {
        let stealer = self.deque.stealer()?;
        let pass = self.deque.another::<Thieves>();
        Ok(StealHandle {
            which: self.which,
            stealer,
            pass,
            ended: false,
        })
    }

    // Takes another worker's view back.
    pub(crate) fn take_back(&mut self, steal_handle: StealHandle)
        requires { (own_named self.old).2 ≡ (handle_named steal_handle).2 }
        ensures same { SameDeque (own_named self.old) (own_named self.new) }
        ensures both { (own_named self.new).1 ≡ both_views (own_named self.old).1 (handle_named steal_handle).1 }
    {
        let StealHandle {
            which: _,
            stealer: _,
            pass,
            ended,
        } = steal_handle;
        self.deque.absorb::<Thieves>(pass);
        self.ended = self.ended || ended;
    }

    // Learns from its view which claims were taken.
    pub(crate) fn learn(&mut self)
        ensures same { own_named self.new ≡ own_named self.old }
        ensures settles { Settles (own_named self.old).1 }
    {
        let _ = self.deque.len_as::<Settled>();
    }
}
