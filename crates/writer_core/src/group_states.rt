//! A client's state of the groups of its View.

ghost use Rattle.std.specs.Prelude.{◌≡◌, ◌≤◌, length, ◌<◌, true, IfOk, OnOk, OnErr, MatchOption, map, replicate};
ghost use Rattle.std.specs.Arc.{arc_value};
ghost use Rattle.plan.specs.Common.{checked_model};
ghost use Rattle.writer_core.specs.GroupStates.{groups_of, ArePlaced};

use crate::count::Count;
use crate::group_state::GroupState;
use crate::places::{are_places, extend, follow, raise, reread};
use plan::CheckedPlan;
use std::alloc::{AllocError, AllocFailed, Global};
use std::sync::Arc;
use wire::{Ack, Label, Place, Report};

/// A client's state of the groups of its View, which are the first ones of its plan.
#[derive(Drop)]
pub struct GroupStates {
    plan: Arc<CheckedPlan>,
    list: Vec<GroupState>,
    ghost within: { length list.items ≤ (checked_model (arc_value plan)).groups },
    ghost placed: { ArePlaced (checked_model (arc_value plan)) (groups_of list.items) },
}

impl GroupStates {
    ghost use Rattle.volume_model.specs.Common.{newly_at, born_group, group_of, group_point_of, raised, has_read, has_installed, with_places, later_group, reread_group, are_places};
    ghost use Rattle.volume_model.specs.Client as client;
    ghost use Rattle.wire.specs.Common.{place_of, label_of};
    ghost use Rattle.writer_core.specs.GroupStates.{group_at, counted_in, report_of, reported_in};
    ghost use Rattle.writer_core.specs.Raised.{raised_in};
    ghost use Rattle.writer_core.specs.Groups.{groups_in, group_states_plan, keeping};

    /// Makes the first writer's state: each group that exists at birth, at its root.
    ///
    /// # Errors
    /// `AllocError` if memory runs out.
    pub fn at_roots(alloc: Global, plan: Arc<CheckedPlan>) -> Result<GroupStates, AllocError>
        ensures groups { IfOk result (λ s. groups_in s ≡ replicate (checked_model (arc_value plan)).born born_group) }
        ensures plan { IfOk result (λ s. group_states_plan s ≡ checked_model (arc_value plan)) }
    {
        plan.certified();
        let mut list = Vec::new(alloc);
        'groups: for _ in 0..plan.born() {
            list.push(GroupState::born(alloc))?;
        }
        Ok(GroupStates { plan, list })
    }

    /// Makes the state of a client whose groups are at these places.
    ///
    /// # Errors
    /// `AllocError` if memory runs out.
    pub fn at_places(
        alloc: Global,
        plan: Arc<CheckedPlan>,
        places: &[Place],
    ) -> Result<GroupStates, AllocError>
        requires { are_places (checked_model (arc_value plan)) (map place_of places.now) ≡ true }
        ensures groups { IfOk result (λ s. groups_in s ≡ map newly_at (map place_of places.now)) }
        ensures plan { IfOk result (λ s. group_states_plan s ≡ checked_model (arc_value plan)) }
    {
        let mut list = Vec::with_capacity(alloc, places.len())?;
        for place in places {
            list.push(GroupState::at(alloc, *place))?;
        }
        Ok(GroupStates { plan, list })
    }

    /// Returns the plan.
    pub fn plan(&self) -> &CheckedPlan
        ensures { checked_model result.now ≡ group_states_plan self.now }
    {
        &self.plan
    }

    /// Returns the allocator of the lists.
    pub(crate) fn alloc(&self) -> Global {
        *self.list.allocator()
    }

    /// Returns the number of groups.
    pub fn groups(&self) -> u8
        ensures groups { result ≡ length (groups_in self.now) }
        ensures within { result ≤ (group_states_plan self.now).groups }
    {
        self.list.len() as u8
    }

    /// Returns the state of each group, in order.
    pub fn as_slice(&self) -> &[GroupState]
        ensures groups { groups_of result.now ≡ groups_in self.now }
        ensures many { length result.now ≤ (group_states_plan self.now).groups }
    {
        self.list.as_slice()
    }

    /// Returns the state of a group, or `None` if the View has no such group.
    pub fn get(&self, group: u8) -> Option<&GroupState>
        ensures { MatchOption result (length (groups_in self.now) ≤ group) (λ s. (group < length (groups_in self.now))
            × (group_of (groups_in self.now) group ≡ group_at s.now)) }
    {
        self.list.get(usize::from(group))
    }

    /// Returns the LSN up to which a group is acknowledged, 0 if the View has no such group.
    pub fn point(&self, group: u8) -> u64
        ensures { result ≡ group_point_of (groups_in self.now) group }
    {
        self.list
            .get(usize::from(group))
            .map_or(0, |group_state| group_state.point)
    }

    /// Returns the membership epoch of a group, as the client knows it, 0 if the View has no such group.
    pub fn epoch(&self, group: u8) -> u32
        ensures { result ≡ (client.place_of (groups_in self.now) group).epoch }
    {
        self.list
            .get(usize::from(group))
            .map_or(0, |group_state| group_state.place.epoch)
    }

    /// Returns whether a group has joined the writer: it existed at the volume's birth, or a write quorum has
    /// acknowledged its install since the writer opened. False for a group that the View doesn't have.
    pub fn has_joined(&self, group: u8) -> bool
        ensures { result ≡ (group_of (groups_in self.now) group).joined }
    {
        self.list
            .get(usize::from(group))
            .map_or(false, |group_state| group_state.joined)
    }

    /// Returns the label that a client of this volume epoch puts on messages to a group.
    pub fn label(&self, volume: u32, group: u8) -> Label
        ensures { label_of result ≡ client.label_of volume (client.place_of (groups_in self.now)) group }
    {
        Label {
            volume,
            member: self.epoch(group),
        }
    }

    /// Counts an acknowledgement; the greatest complete point of each sender is kept. Raises no point. Ignores a group
    /// that the View doesn't have. On error the states are unchanged.
    pub fn count(&mut self, ack: &Ack) -> Result<(), AllocFailed<Count>>
        requires sender { ack.now.from < 64 }
        ensures counted { OnOk result (groups_in self.new ≡ counted_in (groups_in self.old) ack.now.group ack.now.from
            ack.now.scl) }
        ensures same { OnErr result (groups_in self.new ≡ groups_in self.old) }
        ensures plan { group_states_plan self.new ≡ group_states_plan self.old }
    {
        match self.list.get_mut(usize::from(ack.group)) {
            Some(group_state) => group_state.count(ack.from, ack.scl),
            None => Ok(()),
        }
    }

    /// Keeps a member's report of a group if it is the member's first. Ignores a group that the View doesn't have. On
    /// error the states are unchanged.
    pub fn keep(&mut self, report: &Report) -> Result<(), AllocError>
        requires sender { report.now.from < 64 }
        ensures kept { OnOk result (groups_in self.new ≡ reported_in (groups_in self.old) report.now.group
            (report_of report.now)) }
        ensures same { OnErr result (groups_in self.new ≡ groups_in self.old) }
        ensures plan { group_states_plan self.new ≡ group_states_plan self.old }
    {
        match self.list.get_mut(usize::from(report.group)) {
            Some(group_state) => group_state.keep(report),
            None => Ok(()),
        }
    }

    /// Raises the points of all groups to what the counted acknowledgements satisfy now. A point never falls.
    pub fn raise(&mut self)
        ensures groups { groups_in self.new ≡ raised (group_states_plan self.old) (groups_in self.old) }
        ensures plan { group_states_plan self.new ≡ group_states_plan self.old }
    {
        raise(&self.plan, self.list.as_mut_slice());
    }

    /// Raises the point of one group to what its counted acknowledgements satisfy now. A point never falls.
    pub fn raise_group(&mut self, group: u8)
        ensures groups { groups_in self.new ≡ raised_in (group_states_plan self.old) (groups_in self.old) group }
        ensures plan { group_states_plan self.new ≡ group_states_plan self.old }
    {
        if let Some(group_state) = self.list.get_mut(usize::from(group)) {
            group_state.raise(&self.plan, group);
        }
    }

    /// Returns whether there is a place for each group of the birth, for no more groups than the plan has, and each
    /// place is a configuration of its group.
    pub fn are_places(&self, places: &[Place]) -> bool
        ensures { result ≡ are_places (group_states_plan self.now) (map place_of places.now) }
    {
        are_places(&self.plan, places)
    }

    /// Moves each group to its place if that is of a later epoch, and adds new groups. On error the states are
    /// unchanged.
    pub fn follow(&mut self, places: &[Place]) -> Result<(), AllocError>
        requires { are_places (group_states_plan self.old) (map place_of places.now) ≡ true }
        ensures groups { OnOk result (groups_in self.new ≡ with_places later_group (groups_in self.old)
            (map place_of places.now)) }
        ensures same { OnErr result (groups_in self.new ≡ groups_in self.old) }
        ensures plan { group_states_plan self.new ≡ group_states_plan self.old }
    {
        extend(&mut self.list, places.len())?;
        follow(self.list.as_mut_slice(), places);
        Ok(())
    }

    /// Moves each group to its place if that is of a later epoch, and drops its reports then; adds new groups. On error
    /// the states are unchanged.
    pub fn reread(&mut self, places: &[Place]) -> Result<(), AllocError>
        requires { are_places (group_states_plan self.old) (map place_of places.now) ≡ true }
        ensures groups { OnOk result (groups_in self.new ≡ with_places reread_group (groups_in self.old)
            (map place_of places.now)) }
        ensures same { OnErr result (groups_in self.new ≡ groups_in self.old) }
        ensures plan { group_states_plan self.new ≡ group_states_plan self.old }
    {
        extend(&mut self.list, places.len())?;
        reread(self.list.as_mut_slice(), places);
        Ok(())
    }

    /// Returns whether in each group the senders of the kept reports are a read quorum.
    pub fn has_read(&self) -> bool
        ensures { result ≡ has_read (group_states_plan self.now) (keeping (groups_in self.now)) }
    {
        for (group, group_state) in self.list.iter().enumerate() {
            if !group_state.has_read(&self.plan, group as u8) {
                return false;
            }
        }
        true
    }

    /// Returns whether in each group the members with a counted acknowledgement are a write quorum.
    pub fn has_installed(&self) -> bool
        ensures { result ≡ has_installed (group_states_plan self.now) (keeping (groups_in self.now)) }
    {
        for (group, group_state) in self.list.iter().enumerate() {
            if !group_state.has_installed(&self.plan, group as u8) {
                return false;
            }
        }
        true
    }
}
