//! The end of a script: a last recovery, which is led on until its writer commits.

use crate::numbers::Numbers;
use crate::schedule::Schedule;
use crate::written::{Delivery, Named, Receiver};
use std::ops::Range;

impl Schedule {
    /// Delivers a message to members of a group, and lets a client take the answers.
    fn exchange(&mut self, client: u32, named: Named, group: u8, members: &[u8]) {
        let answers = self.deliver_each(named, group, members, Receiver::Client(client));
        self.take_all(client, answers);
    }

    /// Delivers a message to all members of a group, and lets a client take the answers.
    pub fn exchange_all(&mut self, client: u32, named: Named, group: u8) {
        let members = self.members(group);
        self.exchange(client, named, group, members.as_slice());
    }

    /// Sends the pieces of an install to members of a group, whose first piece has this place.
    fn install(&mut self, client: u32, cut: u64, first: u64, group: u8, members: &[u8]) {
        for piece in 0..self.pieces_of(group) {
            let place = first.saturating_add(piece);
            self.exchange(client, (cut, place), group, members);
        }
    }

    /// Lets a member become whole from the copies, with all their pieces, that these lines made.
    pub fn hydrate_by(&mut self, copies: Range<u64>, group: u8, member: u8) {
        for copy in copies {
            for piece in 0..self.pieces_of(group) {
                let delivery = Delivery::new((copy, piece.saturating_add(1)), group, member);
                self.written.deliver(delivery, Receiver::Nodes(group));
            }
        }
        self.written.of_node("hydrate", group, member);
    }

    /// Lets a member become whole from copies of all members, if it isn't.
    fn make_whole(&mut self, group: u8, member: u8) {
        let step = Delivery::new((self.last_advance(group), 1), group, member);
        let Some(ask) = self.written.first_delivery(step) else {
            return;
        };
        let nodes = Receiver::Nodes(group);
        let members = self.members(group);
        let copies = self.deliver_each((ask, 1), group, members.as_slice(), nodes);
        self.written.of_node("restart", group, member);
        self.hydrate_by(copies, group, member);
    }

    /// Installs a cut in all members of a group, whose first piece has this place.
    fn install_all(&mut self, client: u32, cut: u64, first: u64, group: u8) {
        let members = self.members(group);
        self.install(client, cut, first, group, members.as_slice());
        let own = self.set_of(group, self.place(group));
        let later = Numbers::of_set(own.difference(self.set_of(group, 0)));
        for member in later.as_slice().iter() {
            self.make_whole(group, *member);
            self.install(client, cut, first, group, &[*member]);
        }
    }

    /// Lets a recovery take its View, take the steps to all members, and take a report of each.
    fn read_all(&mut self, client: u32, view: u64) {
        let fences = self.written.take(client, view, 1);
        for group in 0..self.joined {
            let line = self.last_advance(group);
            if line > 0 {
                let members = self.members(group);
                let nodes = Receiver::Nodes(group);
                self.deliver_each((line, 1), group, members.as_slice(), nodes);
            }
            let place = u64::from(group).saturating_add(1);
            self.exchange_all(client, (fences, place), group);
        }
    }

    /// Ends a script: a last recovery reads all members of each group, installs its log in all, lets the members that
    /// steps have added become whole, opens and commits.
    pub fn finish(&mut self) {
        let (view, client) = self.assign();
        self.read_all(client, view);
        let cut = self.written.of_client("cut", client);
        let mut first = 1u64;
        for group in 0..self.joined {
            self.install_all(client, cut, first, group);
            first = first.saturating_add(self.pieces_of(group));
        }
        self.written.of_client("open", client);
        let line = self.issue_plain(client, 0, 1);
        self.exchange_all(client, (line, 1), 0);
    }
}
