//! A worker's view of another worker's deque.
ghost use Rattle.std.specs.Prelude.{◌≡◌, MatchOption};
ghost use Rattle.crossbeam_deque.specs.Handles.{IsPassOf, view, stealer_deque, stealer_flavor};
ghost use Rattle.cert_search.specs.declared.deque.Holder.TheVariants.{Guest};

use crate::deque::{Entry, Takes, Task, Thief};
use crossbeam_deque::Steal;
use std::sync::Wait;

/// A view of the deque of worker `which`, for another worker to steal from.
#[derive(Drop)]
pub struct StealHandle {
    pub(crate) which: usize,
    pub(crate) stealer: Thief,
    pub(crate) pass: Entry,
    pub(crate) ended: bool,
    ghost of: { IsPassOf (stealer_deque stealer) pass },
    ghost fifo: { stealer_flavor stealer ≡ 0 },
    ghost guest: { (view pass).holder ≡ Guest },
    ghost at_end: { ended ≡ (view pass).ended },
}

impl StealHandle {
    ghost use Rattle.cert_search.specs.NamedViews.{handle_named, Ends, Gets};

    // Steals a claim, or takes an end mark if no claim is left.
    pub(crate) fn steal<R: Wait>(&mut self, rt: &R) -> Option<usize>
        ensures { MatchOption result (Ends (handle_named self.old) (handle_named self.new))
            (λ c. Gets (handle_named self.old) c (handle_named self.new)) }
    {
        if self.ended {
            return None;
        }
        for _ in rt.forever() {
            match self.stealer.steal_as::<Takes>(&mut self.pass) {
                Steal::Success(Task::Claim(claim)) => return Some(claim),
                Steal::Success(Task::End) => {
                    self.ended = true;
                    return None;
                }
                Steal::Empty => {}
                Steal::Retry => {}
            }
        }
        unreachable!()
    }
}
