//! A write that reaches its group late: after a step of the group, which its writer doesn't know yet.

use crate::numbers::Numbers;
use crate::schedule::Schedule;
use crate::tasks::{Stage, Task};
use crate::written::{Delivery, Named, Receiver};
use quorum_expr::MemberSet;
use std::alloc::Global;
use std::ops::Range;

/// The members of a group that learn of a step, and those that don't.
#[derive(Clone, Copy)]
struct Parties {
    group: u8,
    /// The configuration to which the step leads.
    child: u8,
    /// The members that the step adds.
    fresh: Numbers,
    /// The members that learn of the step: a read set of both configurations.
    stepped: Numbers,
    /// The members that don't learn of it; the last of them does later.
    behind: Numbers,
}

impl Schedule {
    /// Returns the members that both the first configuration and a child have, in a random order, and how many of them
    /// are a read set of both.
    fn stepping(&mut self, group: u8, child: u8) -> (Numbers, usize) {
        let both = self
            .set_of(group, 0)
            .intersection(self.set_of(group, child));
        let kept = self.shuffled(Numbers::of_set(both));
        let fresh = self.fresh(group, child);
        let of_child = self.readers_in(group, child, fresh, kept.as_slice());
        let of_root = self.readers_in(group, 0, MemberSet::empty(), kept.as_slice());
        (kept, of_child.max(of_root))
    }

    /// Returns the parties of a group's step from its first configuration, if there is one.
    fn parties(&mut self, group: u8) -> Option<Parties> {
        let children = self.children(group);
        let child = self.rng.one_of(children.as_slice())?;
        let leaving = self.set_of(group, 0).difference(self.set_of(group, child));
        let (kept, count) = self.stepping(group, child);
        let mut behind = Numbers::of_set(leaving);
        for member in kept.as_slice().iter().skip(count) {
            behind.push(*member);
        }
        Some(Parties {
            group,
            child,
            fresh: Numbers::of_set(self.fresh(group, child)),
            stepped: kept.first(count),
            behind,
        })
    }

    /// Lets the first writer issue a record of a group.
    fn issue_one(&mut self, group: u8) -> u64 {
        let line = self.issue_plain(1, group, 1);
        self.written.note(line, 1, Receiver::Nodes(group));
        line
    }

    /// Delivers a message to members of a group. Returns the lines.
    pub fn deliver_each(
        &mut self,
        named: Named,
        group: u8,
        members: &[u8],
        answer: Receiver,
    ) -> Range<u64> {
        let first = self.written.lines.saturating_add(1);
        for member in members.iter() {
            let delivery = Delivery::new(named, group, *member);
            self.written.deliver(delivery, answer);
        }
        first..self.written.lines.saturating_add(1)
    }

    /// Lets a client take the first message of each of these lines.
    pub fn take_all(&mut self, client: u32, lines: Range<u64>) {
        for line in lines {
            self.written.take(client, line, 1);
        }
    }

    /// Lets a group step, and the fresh members become whole. Returns the step's line.
    fn step_with(&mut self, parties: &Parties) -> u64 {
        let group = parties.group;
        let nodes = Receiver::Nodes(group);
        let line = self.written.of_node("advance", group, parties.child);
        self.written.note(line, 1, nodes);
        self.deliver_each((line, 1), group, parties.stepped.as_slice(), nodes);
        for fresh in parties.fresh.as_slice().iter() {
            let ask = self
                .written
                .deliver(Delivery::new((line, 1), group, *fresh), nodes);
            let copies = self.deliver_each((ask, 1), group, parties.stepped.as_slice(), nodes);
            self.hydrate_by(copies, group, *fresh);
        }
        self.set_place(group, parties.child, line);
        line
    }

    /// Lets the last member that is behind learn of a step, and offer a record to the first one that knew of it.
    /// Returns the lines that delivered the offer.
    fn pass_on(&mut self, parties: &Parties, step: u64, record: u64) -> Range<u64> {
        let group = parties.group;
        let nodes = Receiver::Nodes(group);
        let behind = parties.behind.as_slice();
        let stepped = parties.stepped.as_slice();
        let (Some(from), Some(to)) = (behind.last(), stepped.first()) else {
            return 0..0;
        };
        self.written
            .deliver(Delivery::new((step, 1), group, *from), nodes);
        let numbers = [u64::from(group), u64::from(*from), record];
        let offer = self.written.put("offer", &numbers);
        self.written.note(offer, 1, nodes);
        self.deliver_each((offer, 1), group, &[*to], Receiver::Client(1))
    }

    /// Delivers a record to the members that are behind, and through one of them to another. All their acknowledgements
    /// reach the writer, the last one with a membership epoch that it doesn't know.
    fn arrive_late(&mut self, parties: &Parties, issue: u64, step: u64, record: u64) {
        let client = Receiver::Client(1);
        let behind = parties.behind.as_slice();
        let acks = self.deliver_each((issue, 1), parties.group, behind, client);
        let early = self.pass_on(parties, step, record);
        self.take_all(1, acks);
        self.take_all(1, early);
    }

    /// Sends the Fences of a recovery to members that the late record hasn't reached, and to all of another group.
    fn fence_without(&mut self, task: &mut Task, parties: &Parties, fences: u64) {
        self.written.note_each(fences, self.joined);
        for group in 0..self.joined {
            let place = u64::from(group).saturating_add(1);
            if group == parties.group {
                for member in parties.stepped.as_slice().iter().skip(1) {
                    self.send(task, (fences, place), group, &[*member]);
                }
                self.send(task, (fences, place), group, parties.fresh.as_slice());
            } else {
                self.send_all(task, (fences, place), group);
            }
        }
    }

    /// Lets a recovery read members that the late record hasn't reached, and any members of another group.
    fn recover_without(&mut self, alloc: Global, parties: &Parties) {
        let (view, client) = self.assign();
        let fences = self.written.take(client, view, 1);
        let mut task = Task::new(alloc, Stage::Cut, client);
        self.fence_without(&mut task, parties, fences);
        self.keep(task);
    }

    /// Begins a script with such a write, if the plan has a step.
    pub fn straggle(&mut self, alloc: Global) {
        let group = self.joined_group();
        let Some(parties) = self.parties(group) else {
            return;
        };
        let before = self.rng.below(3);
        for _ in 0..before {
            let line = self.issue_one(group);
            self.exchange_all(1, (line, 1), group);
        }
        let line = self.issue_one(group);
        let step = self.step_with(&parties);
        let record = (before as u64).saturating_add(1);
        self.arrive_late(&parties, line, step, record);
        self.recover_without(alloc, &parties);
    }
}
