//! A client's state of one group.

use crate::count::Count;
use crate::counts::{add, best_from, reaching};
use hydration::{Copied, senders};
use plan::CheckedPlan;
use quorum_expr::holds;
use std::alloc::{AllocError, AllocFailed, Global};
use wire::{Place, Report};

/// A client's state of one group.
#[derive(Drop)]
pub struct GroupState {
    /// The group's configuration and membership epoch, as the client knows them.
    pub place: Place,
    /// The first report of each member. They aren't used after the recovery's cut.
    pub copies: Vec<Copied>,
    /// The acknowledgements counted.
    pub counts: Vec<Count>,
    /// The LSN up to which the group is acknowledged.
    pub point: u64,
    /// Whether the group has joined the writer: it existed at the volume's birth, or a write quorum has acknowledged
    /// its install since the writer opened.
    pub joined: bool,
}

impl GroupState {
    ghost use Rattle.std.specs.Prelude.{◌≡◌, ◌<◌, OnOk, OnErr};
    ghost use Rattle.volume_model.specs.Common.{sat, senders, born_group, newly_at, place_configuration, raised_group, counted_by, later_group, reread_group};
    ghost use Rattle.plan.specs.Common.{checked_model};
    ghost use Rattle.wire.specs.Common.{place_of};
    ghost use Rattle.writer_core.specs.GroupStates.{group_at, counted_group, report_of, reported_group};

    /// Makes the state of a group at this place, with no reports and acknowledgements.
    pub(crate) fn at(alloc: Global, place: Place) -> GroupState
        ensures { group_at result ≡ newly_at (place_of place) }
    {
        GroupState {
            place,
            copies: Vec::new(alloc),
            counts: Vec::new(alloc),
            point: 0,
            joined: false,
        }
    }

    /// Makes the first writer's state of a group that exists at birth.
    pub(crate) fn born(alloc: Global) -> GroupState
        ensures { group_at result ≡ born_group }
    {
        let root = Place {
            configuration: 0,
            epoch: 1,
        };
        let mut group_state = GroupState::at(alloc, root);
        group_state.joined = true;
        group_state
    }

    /// Counts an acknowledgement. On error the state is unchanged.
    pub(crate) fn count(&mut self, sender: u8, reached: u64) -> Result<(), AllocFailed<Count>>
        requires { sender < 64 }
        ensures counted { OnOk result (group_at self.new ≡ counted_group (group_at self.old) sender reached) }
        ensures same { OnErr result (group_at self.new ≡ group_at self.old) }
        ensures place { self.new.place ≡ self.old.place }
    {
        add(&mut self.counts, sender, reached)
    }

    /// Keeps a report if it is the member's first. On error the state is unchanged.
    pub(crate) fn keep(&mut self, report: &Report) -> Result<(), AllocError>
        requires { report.now.from < 64 }
        ensures kept { OnOk result (group_at self.new ≡ reported_group (group_at self.old) (report_of report.now)) }
        ensures same { OnErr result (group_at self.new ≡ group_at self.old) }
        ensures place { self.new.place ≡ self.old.place }
    {
        if senders(self.copies.as_slice()).contains(report.from) {
            return Ok(());
        }
        let contents = report.contents.clone()?;
        self.copies.push(Copied {
            from: report.from,
            contents,
        })?;
        Ok(())
    }

    /// Raises the point to what the counted acknowledgements satisfy now. The group joins if they satisfy the write
    /// expression.
    pub(crate) fn raise(&mut self, plan: &CheckedPlan, group: u8)
        requires group { group < (checked_model plan.now).groups }
        requires configuration { self.old.place.configuration < (checked_model plan.now).configurations group }
        ensures { group_at self.new ≡ raised_group (checked_model plan.now) group (group_at self.old) }
    {
        if let Some(configuration) = plan.configuration(group, self.place.configuration) {
            let least = self.point;
            self.point = best_from(&configuration.write, self.counts.as_slice(), least);
            self.joined = self.joined
                || holds(&configuration.write, reaching(self.counts.as_slice(), 0));
        }
    }

    /// Moves to a place if that is of a later epoch.
    pub(crate) fn follow(&mut self, place: Place)
        ensures { group_at self.new ≡ later_group (group_at self.old) (place_of place) }
    {
        if self.place.epoch < place.epoch {
            self.place = place;
        }
    }

    /// Moves to a place if that is of a later epoch, and drops the reports then.
    pub(crate) fn reread(&mut self, place: Place)
        ensures { group_at self.new ≡ reread_group (group_at self.old) (place_of place) }
    {
        if self.place.epoch < place.epoch {
            self.place = place;
            self.copies.clear();
        }
    }

    /// Returns whether the senders of the reports are a read quorum.
    pub(crate) fn has_read(&self, plan: &CheckedPlan, group: u8) -> bool
        requires group { group < (checked_model plan.now).groups }
        requires configuration { self.now.place.configuration < (checked_model plan.now).configurations group }
        ensures { result ≡ sat (place_configuration (checked_model plan.now) group (group_at self.now).place).read
            (senders (group_at self.now).reports) }
    {
        match plan.configuration(group, self.place.configuration) {
            Some(configuration) => { holds(&configuration.read, senders(self.copies.as_slice())) }
            None => false,
        }
    }

    /// Returns whether the members with a counted acknowledgement are a write quorum.
    pub(crate) fn has_installed(&self, plan: &CheckedPlan, group: u8) -> bool
        requires group { group < (checked_model plan.now).groups }
        requires configuration { self.now.place.configuration < (checked_model plan.now).configurations group }
        ensures { result ≡ sat (place_configuration (checked_model plan.now) group (group_at self.now).place).write
            (counted_by (group_at self.now).counts) }
    {
        match plan.configuration(group, self.place.configuration) {
            Some(configuration) => {
                holds(&configuration.write, reaching(self.counts.as_slice(), 0))
            }
            None => false,
        }
    }
}
