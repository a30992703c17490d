//! Lines that belong to no task: repetitions, restarts, and mistakes.

use crate::schedule::Schedule;
use crate::tasks::{Stage, Task};
use crate::written::{Delivery, Receiver};
use std::alloc::Global;

impl Schedule {
    /// Returns a random LSN.
    fn any_record(&mut self) -> u64 {
        self.rng.from(1, 24) as u64
    }

    /// Writes a line that belongs to no task.
    pub fn stray(&mut self, alloc: Global) {
        match self.rng.below(20) {
            10..=11 if self.events.restarts => self.restart(),
            12..=13 => self.offer(),
            14..=15 => self.resend(alloc),
            16 => self.read(),
            17 => self.tell(alloc),
            18 => {
                self.written.put("wait", &[]);
            }
            19 => self.mistake(),
            _ => self.repeat(),
        }
    }

    /// Delivers a message, or lets a client take it, once more.
    fn repeat(&mut self) {
        let Some(message) = self.any_message() else {
            return;
        };
        match message.to {
            Receiver::Client(client) => {
                let (line, place) = message.named;
                self.written.take(client, line, place);
            }
            Receiver::Nodes(group) => {
                let delivery = Delivery::new(message.named, group, self.any_member(group));
                let client = self.newest();
                self.written.deliver(delivery, Receiver::Client(client));
            }
        }
    }

    fn restart(&mut self) {
        let group = self.any_group();
        let member = self.any_member(group);
        self.written.of_node("restart", group, member);
    }

    /// Lets a node offer a record to its peers.
    fn offer(&mut self) {
        let group = self.any_group();
        let member = self.any_member(group);
        let record = self.any_record();
        let numbers = [u64::from(group), u64::from(member), record];
        let line = self.written.put("offer", &numbers);
        self.written.note(line, 1, Receiver::Nodes(group));
    }

    /// Lets a writer send a record again, to all members of a group.
    fn resend(&mut self, alloc: Global) {
        let client = self.writer();
        let group = self.any_group();
        let record = self.any_record();
        let line = self.written.put("resend", &[u64::from(client), record]);
        self.written.note(line, 1, Receiver::Nodes(group));
        let mut task = Task::new(alloc, Stage::Finished, client);
        self.send_all(&mut task, (line, 1), group);
        self.keep(task);
    }

    /// Lets a writer request a block.
    fn read(&mut self) {
        let client = self.writer();
        let group = self.any_group();
        let block = self.rng.below(3) as u64;
        let numbers = [u64::from(client), u64::from(group), block];
        let line = self.written.put("read", &numbers);
        self.written.note(line, 1, Receiver::Nodes(group));
    }

    /// Sends a client a View of the groups' places.
    fn tell(&mut self, alloc: Global) {
        let client = self.clients;
        let line = self.written.of_client("refresh", client);
        self.keep(Task::new(alloc, Stage::Learn(line), client));
    }

    /// Writes a line that is wrong on purpose.
    fn mistake(&mut self) {
        let client = self.writer();
        let line: &str = match self.rng.below(8) {
            0 => "issue 1 250:0:0:61",
            1 => "issue 1 0:0:511:6162",
            2 => "advance 0 250",
            3 => "advance 250 1",
            4 => "restart 250 1",
            5 => "hydrate 250 1",
            6 => "read 1 0 4294967295",
            _ => {
                self.written.of_client("open", client);
                return;
            }
        };
        self.written.put(line, &[]);
    }
}
