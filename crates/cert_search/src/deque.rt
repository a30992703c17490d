//! The protocol of a deque of claims.
ghost use Rattle.std.specs.Prelude.{◌≡◌, []};

use crossbeam_deque::protocol::{Join, Lesson, Outcome, Protocol, Split};
use crossbeam_deque::{Pass, Stealer, Worker};
use std::alloc::Global;
use std::collections::LinkedList;

/// An element of a deque: a claim, or an end mark. An end mark for each worker follows the claims.
#[derive(Drop)]
pub enum Task {
    Claim(usize),
    End,
}

/// The holder of a view of a deque: the deque's owner, with the number of views that it has lent; another worker; or
/// nobody, once the view was given back.
pub enum Holder {
    Owner(usize),
    Guest,
    Nobody,
}

/// A holder's view of a deque: whether it may still deal, the claims dealt, those that it took, the number of end
/// marks, and whether it took one. Exists only in contracts: no value is made.
pub struct DequeView {
    pub holder: Holder,
    pub deals: bool,
    pub dealt: LinkedList<usize>,
    pub got: LinkedList<usize>,
    pub marks: usize,
    pub ended: bool,
}

/// The protocol: no claim is in two views, or in a view and in the deque.
pub struct Once;

impl Protocol<Task, DequeView> for Once {
    ghost use Rattle.cert_search.specs.Deque.{first_view, guest_view, IsDeque};

    ghost holds = { IsDeque };

    ghost first = { first_view };

    ghost guest = { guest_view [] 0 };
}

/// A claim is pushed.
pub struct Deals;

impl Outcome<Task, DequeView> for Deals {
    ghost use Rattle.cert_search.specs.Deque.{Adds};

    ghost then = { Adds };
}

/// An end mark is pushed; no more claims are dealt.
pub struct Closes;

impl Outcome<Task, DequeView> for Closes {
    ghost use Rattle.cert_search.specs.Deque.{closed};

    ghost then = { λ v tasks w. w ≡ closed v };
}

/// The holder takes a claim or an end mark from the deque.
pub struct Takes;

impl Outcome<Task, DequeView> for Takes {
    ghost use Rattle.cert_search.specs.Deque.{Took};

    ghost then = { Took };
}

/// A view is lent. No more claims are dealt, and the new holder has taken none.
pub struct Thieves;

impl Split<DequeView> for Thieves {
    ghost use Rattle.cert_search.specs.Deque.{lent_view, guest_view};

    ghost left = { lent_view };

    ghost right = { λ v. guest_view v.dealt v.marks };
}

impl Join<DequeView> for Thieves {
    ghost use Rattle.cert_search.specs.Deque.{both_views, spent_view};

    ghost both = { both_views };

    ghost spent = { spent_view };
}

/// What the owner learns from its view.
pub struct Settled;

impl Lesson<Task, DequeView> for Settled {
    ghost use Rattle.cert_search.specs.Deque.{Settles};

    ghost fact = { λ v tasks. Settles v };
}

pub(crate) type Owner = Worker<Task, Global, DequeView, Once>;

pub(crate) type Thief = Stealer<Task, Global, DequeView, Once>;

pub(crate) type Entry = Pass<Task, DequeView>;
