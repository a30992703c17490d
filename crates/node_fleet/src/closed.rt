//! The journal of a closed fleet.

use journal::{Log, Site};
use std::alloc::Global;
use volume_model::Fault;
use world::Event;

/// The steps of a closed fleet, in order.
#[derive(Drop)]
pub struct Journal<'a, L: Site> {
    log: Log<'a, L>,
}

impl<'a, L: Site> Journal<'a, L> {
    ghost use Rattle.std.specs.Prelude.{length, ◌≡◌, IfErr, IfOk};
    ghost use Rattle.volume_model.specs.Common.{events};
    ghost use Rattle.volume_model.specs.declared.fault.Fault.TheVariants.{NoMemory};
    ghost use Rattle.world.specs.Events.{events_of};
    ghost use Rattle.journal.specs.Passes.{journal_of};
    ghost use Rattle.node_fleet.specs.Journals.{entries_in};

    // Makes the journal of a closed fleet.
    pub(crate) fn of(log: Log<'a, L>) -> Journal<'a, L>
        ensures { entries_in result ≡ journal_of log.entry }
    {
        Journal { log }
    }

    /// Returns the number of steps.
    pub fn len(&self) -> usize
        ensures { result ≡ length (entries_in self.now) }
    {
        self.log.len()
    }

    /// Returns a copy of the events, in order.
    ///
    /// # Errors
    /// `NoMemory` if memory runs out.
    pub fn events(&self, alloc: Global) -> Result<Vec<Event>, Fault>
        ensures events { IfOk result (λ made. events_of made.items ≡ events (entries_in self.now)) }
        ensures memory { IfErr result (λ fault. fault ≡ NoMemory) }
    {
        Ok(self.log.events(alloc)?)
    }
}
