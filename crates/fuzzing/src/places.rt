//! The configurations of the groups while a script is written, and their quorums.

use crate::numbers::Numbers;
use crate::schedule::Schedule;
use quorum_expr::{Expr, MEMBERS, MemberSet, holds};
use std::alloc::Global;

/// Returns how many of these members, taken in order and added to the given ones, satisfy an expression; all of them if
/// they don't.
fn enough(expr: &Expr<Global>, given: MemberSet, members: &[u8]) -> usize {
    let mut set = given;
    let mut count = 0usize;
    for member in members.iter() {
        if holds(expr, set) {
            return count;
        }
        if *member < MEMBERS {
            set = set.with(*member);
        }
        count = count.saturating_add(1);
    }
    count
}

impl Schedule {
    /// Returns the configuration of a group.
    pub fn place(&self, group: u8) -> u8 {
        self.places.get(usize::from(group)).copied().unwrap_or(0)
    }

    /// Notes the configuration of a group, and the line of its advance.
    pub fn set_place(&mut self, group: u8, configuration: u8, line: u64) {
        let group = usize::from(group);
        if group < self.places.len() && group < self.advances.len() {
            self.places[group] = configuration;
            self.advances[group] = line;
        }
    }

    /// Returns the line of a group's last advance, 0 if there is none.
    pub fn last_advance(&self, group: u8) -> u64 {
        self.advances.get(usize::from(group)).copied().unwrap_or(0)
    }

    /// Returns the members of a configuration of a group.
    pub fn set_of(&self, group: u8, configuration: u8) -> MemberSet {
        let found = self.plan.configuration(group, configuration);
        found.map_or(MemberSet::empty(), |found| found.members)
    }

    /// Returns the members of a group.
    pub fn members(&self, group: u8) -> Numbers {
        Numbers::of_set(self.set_of(group, self.place(group)))
    }

    /// Returns the configurations to which a group may step.
    pub fn children(&self, group: u8) -> Numbers {
        let place = self.place(group);
        let mut children = Numbers::new();
        for child in 0..self.plan.configurations(group) {
            if self.plan.is_child(group, child, place) {
                children.push(child);
            }
        }
        children
    }

    /// Returns the members that a configuration adds to those of its parent.
    pub fn fresh(&self, group: u8, configuration: u8) -> MemberSet {
        let found = self.plan.configuration(group, configuration);
        let parent = found.and_then(|found| found.parent).unwrap_or(0);
        let parent = u8::try_from(parent).unwrap_or(0);
        self.set_of(group, configuration)
            .difference(self.set_of(group, parent))
    }

    /// Returns how many of these members, in order, and the given ones are a read set of a configuration.
    pub fn readers_in(
        &self,
        group: u8,
        configuration: u8,
        given: MemberSet,
        members: &[u8],
    ) -> usize {
        match self.plan.configuration(group, configuration) {
            Some(configuration) => enough(&configuration.read, given, members),
            None => members.len(),
        }
    }

    /// Returns how many of these members, in order, are a write set of a group.
    fn writers_in(&self, group: u8, members: &[u8]) -> usize {
        match self.plan.configuration(group, self.place(group)) {
            Some(configuration) => enough(&configuration.write, MemberSet::empty(), members),
            None => members.len(),
        }
    }

    /// Returns members in a random order.
    pub fn shuffled(&mut self, mut members: Numbers) -> Numbers {
        self.rng.shuffle(members.as_mut_slice());
        members
    }

    /// Returns the members of a group in the order in which writes prefer them.
    fn preferred(&self, group: u8) -> Numbers {
        let set = self.set_of(group, self.place(group));
        let mut members = Numbers::new();
        for member in self.favourites.as_slice().iter() {
            if set.contains(*member) {
                members.push(*member);
            }
        }
        members
    }

    /// Returns at least so many of these members.
    fn some_of(&mut self, members: &Numbers, least: usize) -> Numbers {
        let more = members.len().saturating_sub(least);
        let count = self.rng.from(least, more.saturating_add(1));
        members.first(count)
    }

    /// Returns the members of a group that a write reaches.
    pub fn write_reach(&mut self, group: u8) -> Numbers {
        let members = self.shuffled(self.members(group));
        match self.rng.below(10) {
            0..=4 => members,
            5..=7 => {
                let members = self.preferred(group);
                let count = self.writers_in(group, members.as_slice());
                members.first(count)
            }
            _ => {
                let least = self.writers_in(group, members.as_slice());
                self.some_of(&members, least)
            }
        }
    }

    /// Returns the members of a group that a recovery reads.
    pub fn read_reach(&mut self, group: u8) -> Numbers {
        let members = self.shuffled(self.members(group));
        if self.loss > 0 && self.rng.chance(50) {
            return members;
        }
        let place = self.place(group);
        let least = self.readers_in(group, place, MemberSet::empty(), members.as_slice());
        self.some_of(&members, least)
    }

    /// Returns a group that has joined.
    pub fn joined_group(&mut self) -> u8 {
        self.rng.byte_below(usize::from(self.joined))
    }

    /// Returns a group.
    pub fn any_group(&mut self) -> u8 {
        self.rng.byte_below(usize::from(self.plan.groups()))
    }

    /// Returns a member of a group.
    pub fn any_member(&mut self, group: u8) -> u8 {
        let members = self.members(group);
        self.rng.one_of(members.as_slice()).unwrap_or(0)
    }
}
