//! An actor's cursor in the history.

ghost use Rattle.std.specs.Prelude.{◌≡◌, length, []};
ghost use Rattle.std.specs.Coded.{Coded-set};
ghost use Rattle.atomic_table.specs.Seated.{table_id_coded};
ghost use Rattle.journal.specs.Fronts.{front_book, front_log, log_of};

use crate::actor_name::ActorName;
use crate::history::{History, LogPrefix};
use crate::row::Site;
use std::marker::PhantomData;

/// An actor's cursor: the prefix of the history up to the actor's last entry, `number` entries long. The actor's lock
/// protects it too.
#[derive(Drop)]
pub struct ActorCursor<L: Site> {
    pub(crate) who: ActorName,
    pub(crate) number: usize,
    pub(crate) seen: LogPrefix,
    site: PhantomData<L>,
    ghost history: { front_book seen ≡ L.history } by { Coded-set table_id_coded (front_book seen) L.history },
    ghost long: { length (front_log seen) ≡ number },
}

impl<L: Site> ActorCursor<L> {
    /// Makes the cursor of an actor that has made no step.
    pub fn new(who: ActorName, history: &mut History<L>) -> ActorCursor<L>
        requires { log_of history.old.opened ≡ [] }
        ensures history { log_of history.new.opened ≡ [] }
        ensures who { result.who ≡ who }
        ensures seen { front_log result.seen ≡ [] }
    {
        ActorCursor {
            who,
            number: 0,
            seen: history.opened.front(),
            site: PhantomData,
        }
    }

    // Records a step of the actor, which is the last one of the history.
    pub(crate) fn advance(&mut self, seen: LogPrefix, number: usize)
        requires { (front_book seen ≡ L.history) × (length (front_log seen) ≡ number) }
        ensures { (self.new.who ≡ self.old.who) × (self.new.number ≡ number)
            × (front_log self.new.seen ≡ front_log seen) }
    {
        self.number = number;
        self.seen = seen;
    }
}
