//! The history of all steps, which exists only in proofs. Its one keeper appends to it; others have prefixes of it.

ghost use Rattle.std.specs.Prelude.{◌≡◌, true, [], false, ◌++◌, ◌∷◌, IfOk};
ghost use Rattle.std.specs.Coded.{Coded-set};
ghost use Rattle.atomic_table.specs.Seated.{table_id_coded};

use crate::entry::Entry;
use crate::row::Site;
use atomic_table::{Join, Play, Seat, Split, Table, TableRule};
use std::alloc::{AllocError, Global};
use std::collections::LinkedList;
use std::marker::{Brand, PhantomData};
use std::mem;

/// The view of a seat: whether it keeps the history, its prefix, and a prefix to compare. Exists only in contracts: no
/// value is made.
pub struct SeatView {
    pub keeps: bool,
    pub log: LinkedList<Entry>,
    pub claim: LinkedList<Entry>,
}

/// The rule: each seat's prefix is a prefix of the keeper's history.
pub struct PrefixRule;

impl TableRule<(), SeatView, ()> for PrefixRule {
    ghost use Rattle.journal.specs.History.{seat_view, Stands};

    ghost holds = { λ _ s. Stands s.views };

    ghost first = { λ _. seat_view true [] [] };
}

/// A new seat gets the prefix of the seat that made it.
pub struct NewSeat;

impl Split<SeatView> for NewSeat {
    ghost use Rattle.journal.specs.History.{seat_view};

    ghost left = { λ v. v };

    ghost right = { λ v. seat_view false v.log [] };
}

/// A seat borrows another's prefix to compare it, and gives it back.
pub struct Borrow;

impl Join<SeatView> for Borrow {
    ghost use Rattle.journal.specs.History.{seat_view};

    ghost both = { λ v w. seat_view v.keeps v.log w.log };

    ghost spent = { seat_view false [] [] };
}

impl Split<SeatView> for Borrow {
    ghost use Rattle.journal.specs.History.{seat_view};

    ghost left = { λ v. seat_view v.keeps v.log [] };

    ghost right = { λ v. seat_view false v.claim [] };
}

/// A name for an entry. Each call uses its own.
pub trait Named {
    ghost use Rattle.journal.specs.declared.entry.Entry.{Entry};

    // The entry.
    ghost entry: { Entry };
}

impl Named for Brand {
    ghost use Rattle.journal.specs.History.{no_entry};

    ghost entry = { no_entry };
}

/// The keeper appends an entry.
pub struct Extend<N: Named> {
    marker: PhantomData<N>,
}

impl<N: Named> Play<(), SeatView> for Extend<N> {
    ghost use Rattle.journal.specs.History.{seat_view};

    ghost then = { λ step before found after. (after.0 ≡ seat_view before.0.keeps (before.0.log ++ N.entry ∷ []) [])
        × (after.1 ≡ before.1) };
}

/// The keeper learns that the borrowed prefix is one of its history.
pub struct Compare;

impl Play<(), SeatView> for Compare {
    ghost use mathlib.Core.List.{IsPrefix};

    ghost then = { λ step before found after. IsPrefix before.0.claim before.0.log × (after.0 ≡ before.0)
        × (after.1 ≡ before.1) };
}

/// A prefix of the history.
#[derive(Drop)]
pub struct LogPrefix {
    seat: Seat<(), SeatView>,
    ghost no_slot: { seat.me.1 ≡ [] },
}

/// The history with its keeper's seat, before it has a name.
#[derive(Drop)]
pub struct Opened {
    table: Table<(), SeatView, (), PrefixRule, Global>,
    seat: Seat<(), SeatView>,
    ghost one_word: { table.shared.table_id.words ≡ 1 },
    ghost own: { seat.table_id ≡ table.shared.table_id },
    ghost keeps: { seat.me.0.keeps ≡ true },
    ghost no_slot: { seat.me.1 ≡ [] },
}

/// The history with its keeper's seat, under a name.
#[derive(Drop)]
pub struct History<L: Site> {
    pub(crate) opened: Opened,
    site: PhantomData<L>,
    ghost history: { opened.table.shared.table_id ≡ L.history } by { Coded-set table_id_coded opened.table.shared.table_id L.history },
}

impl Opened {
    ghost use mathlib.Core.List.{IsPrefix};
    ghost use Rattle.journal.specs.Fronts.{book_of, front_book, front_log, log_of};

    /// Makes an empty history.
    ///
    /// # Errors
    /// `AllocError` if memory runs out.
    pub fn new(alloc: Global) -> Result<Opened, AllocError>
        ensures { IfOk result (λ h. log_of h ≡ []) }
    {
        let (table, seat) = Table::of_words(alloc, &[0], &())?;
        Ok(Opened { table, seat })
    }

    // Appends the named entry.
    #[inline(always)]
    fn extend<N: Named>(&mut self, entry: &Entry)
        requires { entry.now ≡ N.entry }
        ensures { (log_of self.new ≡ log_of self.old ++ entry.now ∷ []) × (book_of self.new ≡ book_of self.old) }
    {
        let _ = entry;
        let Opened { table, seat } = self;
        table.shared.load::<Extend<N>>(seat, 0);
    }

    /// Appends an entry.
    #[inline(always)]
    pub(crate) fn add(&mut self, entry: &Entry)
        ensures { (log_of self.new ≡ log_of self.old ++ entry.now ∷ []) × (book_of self.new ≡ book_of self.old) }
    {
        self.extend::<Brand>(entry);
    }

    /// Returns the whole history as a prefix.
    #[inline(always)]
    pub(crate) fn front(&mut self) -> LogPrefix
        ensures same { (log_of self.new ≡ log_of self.old) × (book_of self.new ≡ book_of self.old) }
        ensures front { (front_log result ≡ log_of self.old) × (front_book result ≡ book_of self.old) }
    {
        let Opened { table, seat } = self;
        let seat = table.shared.split_seat::<NewSeat>(seat);
        LogPrefix { seat }
    }

    /// Shows that `front` is a prefix of the history.
    #[inline(always)]
    pub(crate) fn compare(&mut self, front: &mut LogPrefix)
        requires { front_book front.old ≡ book_of self.old }
        ensures same { (log_of self.new ≡ log_of self.old) × (book_of self.new ≡ book_of self.old) }
        ensures front { (front_log front.new ≡ front_log front.old) × (front_book front.new ≡ front_book front.old) }
        ensures begins { IsPrefix (front_log front.old) (log_of self.old) }
    {
        self.meet(front);
        let Opened { table, seat } = self;
        let seat = table.shared.split_seat::<Borrow>(seat);
        *front = LogPrefix { seat };
    }

    /// Shows that `front` is a prefix of the history, and extends it to the whole.
    #[inline(always)]
    pub(crate) fn meet(&mut self, front: &mut LogPrefix)
        requires { front_book front.old ≡ book_of self.old }
        ensures same { (log_of self.new ≡ log_of self.old) × (book_of self.new ≡ book_of self.old) }
        ensures front { (front_log front.new ≡ log_of self.old) × (front_book front.new ≡ front_book front.old) }
        ensures begins { IsPrefix (front_log front.old) (log_of self.old) }
        ensures claim { self.new.seat.me.0.claim ≡ front_log front.old }
    {
        let fresh = self.front();
        let LogPrefix { seat: other } = mem::replace(front, fresh);
        let Opened { table, seat } = self;
        table.shared.join_seat::<Borrow>(seat, other);
        table.shared.load::<Compare>(seat, 0);
    }

    /// Gives the history a name.
    pub fn named<L: Site>(self) -> History<L>
        requires { book_of self ≡ L.history }
        ensures { log_of result.opened ≡ log_of self }
    {
        History {
            opened: self,
            site: PhantomData,
        }
    }
}
