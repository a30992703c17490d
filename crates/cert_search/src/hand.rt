//! A worker's hand: its access to the deques.
ghost use Rattle.std.specs.Prelude.{◌≡◌, map, true, IfSome, IfNone, All};
ghost use Rattle.cert_search.specs.NamedViews.{handle_named, handle_calm, GetsOne};

use crate::own::Own;
use crate::steal_handle::StealHandle;
use std::sync::Wait;

/// A worker's own deque and its views of the others, beginning after it and going round.
#[derive(Drop)]
pub struct Hand {
    own: Own,
    others: Vec<StealHandle>,
}

impl Hand {
    ghost use Rattle.cert_search.specs.Hands.{ComesAfterOwn, IsThrough, SameDeal, TakesClaim};

    // Makes the hand of a worker from its own deque and its views of the others.
    pub(crate) fn new(own: Own, others: Vec<StealHandle>) -> Hand
        ensures { (result.own ≡ own) × (result.others ≡ others) }
    {
        Hand { own, others }
    }

    // Returns the hand's own deque, and its views of the others.
    pub(crate) fn into_parts(self) -> (Own, Vec<StealHandle>)
        ensures { (result.0 ≡ self.own) × (result.1 ≡ self.others) }
    {
        let Hand { own, others } = self;
        (own, others)
    }

    /// Takes the next claim of its own deque, or steals one. Returns `None` once it has taken an end mark of each
    /// deque, which means that no claim is left; each later call returns `None` too. Allocates nothing.
    pub fn take<R: Wait>(&mut self, rt: &R) -> Option<usize>
        ensures some { IfSome result (λ c. TakesClaim self.old c self.new) }
        ensures own_first { IfSome result (λ c. ComesAfterOwn self.old c self.new) }
        ensures none { IfNone result (IsThrough self.old self.new) }
        ensures deal { SameDeal self.old self.new }
    {
        if let Some(claim) = self.own.take(rt) {
            return Some(claim);
        }
        steal_any(rt, &mut self.others)
    }
}

// Steals from the other deques in turn.
fn steal_any<R: Wait>(rt: &R, others: &mut Vec<StealHandle>) -> Option<usize>
    ensures some { IfSome result (λ c. GetsOne (map handle_calm others.old.items) c
        (map handle_calm others.new.items)) }
    ensures same { IfNone result (map handle_calm others.new.items ≡ map handle_calm others.old.items) }
    ensures none { IfNone result (All (λ s. s.1.ended ≡ true) (map handle_named others.new.items)) }
{
    for i in 0..others.len() {
        let other = &mut others[i];
        if let Some(claim) = other.steal(rt) {
            return Some(claim);
        }
    }
    None
}
