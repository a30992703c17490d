//! The stages of tasks.

use crate::numbers::Numbers;
use crate::schedule::Schedule;
use crate::tasks::{Stage, Task};
use crate::written::{Receiver, keep};
use std::alloc::Global;

impl Schedule {
    /// Adds a random change to an Issue's line.
    fn add_change(&mut self, group: u8) {
        let block = self.rng.below(3);
        let offset = self.rng.below(500);
        for number in [u64::from(group), block as u64, offset as u64] {
            self.written.add_number(number);
            self.written.add(":");
        }
        let bytes = self.rng.from(1, 8);
        for _ in 0..bytes {
            self.add_random_byte();
        }
    }

    /// Adds a random byte to a line.
    pub fn add_random_byte(&mut self) {
        let byte = self.rng.byte_below(256);
        self.written.add_byte(byte);
    }

    /// Lets a writer issue a transaction of this many records of a group, each of one byte. Returns the line.
    pub fn issue_plain(&mut self, client: u32, group: u8, changes: u64) -> u64 {
        self.written.begin("issue", &[u64::from(client)]);
        for _ in 0..changes {
            self.written.begin("", &[u64::from(group)]);
            self.written.add(":0:0:");
            self.add_random_byte();
        }
        let line = self.written.end();
        self.written.note_issue(line, client, changes);
        line
    }

    /// Returns the groups of a transaction's changes.
    fn groups_of_changes(&mut self) -> Numbers {
        let mut groups = Numbers::new();
        let changes = self.rng.from(1, 4);
        for _ in 0..changes {
            groups.push(self.rng.byte_below(usize::from(self.viewed)));
        }
        groups
    }

    /// Begins a task in which a writer issues a transaction and sends its records.
    pub fn begin_write(&mut self, alloc: Global) {
        let client = self.writer();
        let groups = self.groups_of_changes();
        let groups = groups.as_slice();
        self.written.begin("issue", &[u64::from(client)]);
        for group in groups.iter() {
            self.written.add(" ");
            self.add_change(*group);
        }
        let line = self.written.end();
        self.written.note_issue(line, client, groups.len() as u64);
        let mut task = Task::new(alloc, Stage::Finished, client);
        self.send_records(&mut task, line, groups);
        self.keep(task);
    }

    /// Assigns a volume epoch to a recovery. Returns the line, which makes its View, and the epoch.
    pub fn assign(&mut self) -> (u64, u32) {
        let line = self.written.put("assign", &[]);
        self.clients = self.clients.saturating_add(1);
        self.written.note(line, 1, Receiver::Client(self.clients));
        (line, self.clients)
    }

    /// Begins a task in which the authority assigns a volume epoch to a recovery.
    pub fn begin_recovery(&mut self, alloc: Global) {
        let (view, client) = self.assign();
        self.keep(Task::new(alloc, Stage::View(view), client));
    }

    /// Begins a task in which a group steps to a child of its configuration.
    pub fn begin_step(&mut self, alloc: Global) {
        let group = self.joined_group();
        let children = self.children(group);
        let Some(child) = self.rng.one_of(children.as_slice()) else {
            self.begin_write(alloc);
            return;
        };
        let line = self.written.of_node("advance", group, child);
        self.written.note(line, 1, Receiver::Nodes(group));
        self.set_place(group, child, line);
        let mut task = Task::new(alloc, Stage::Ask, self.clients);
        task.group = group;
        self.send_all(&mut task, (line, 1), group);
        self.keep(task);
    }

    /// Moves a task that has delivered and taken all to its next stage.
    pub fn next_stage(&mut self, alloc: Global, task: &mut Task) {
        match task.stage {
            Stage::View(line) => self.be_born(task, line),
            Stage::Cut => self.cut(task),
            Stage::Open => self.open(task),
            Stage::Ask => self.ask(alloc, task),
            Stage::Send => self.copy(task),
            Stage::Hydrate => self.hydrate(task),
            Stage::Refresh => self.refresh(task),
            Stage::Learn(line) => self.learn(task, line),
            Stage::Tell => self.announce(task),
            Stage::Join(line) => self.join(task, line),
            Stage::Finished => {}
        }
    }

    /// Lets a recovery take its View, and sends its Fences to a read quorum.
    fn be_born(&mut self, task: &mut Task, view: u64) {
        let line = self.written.take(task.client, view, 1);
        task.stage = Stage::Cut;
        self.send_fences(task, line);
    }

    /// Lets a recovery cut, and sends its Installs.
    fn cut(&mut self, task: &mut Task) {
        let line = self.written.of_client("cut", task.client);
        task.stage = Stage::Open;
        self.send_installs(task, line);
    }

    /// Lets a recovery open.
    fn open(&mut self, task: &mut Task) {
        self.written.of_client("open", task.client);
        keep(&mut self.written.failed, &mut self.open, task.client);
        task.stage = Stage::Finished;
    }

    /// Begins a task for each member that a step adds: it asks the members of the group for copies.
    fn ask(&mut self, alloc: Global, task: &mut Task) {
        let group = task.group;
        let fresh = self.fresh(group, self.place(group));
        for _ in 0..task.answers.len() {
            let Some(answer) = task.answers.pop() else {
                break;
            };
            if fresh.contains(answer.member) {
                let mut copying = Task::new(alloc, Stage::Send, task.client);
                copying.group = group;
                copying.fresh = answer.member;
                self.send_all(&mut copying, (answer.line, 1), group);
                self.keep(copying);
            }
        }
        task.stage = Stage::Refresh;
    }

    /// Sends the copies to the new member.
    fn copy(&mut self, task: &mut Task) {
        let (group, fresh) = (task.group, task.fresh);
        task.stage = Stage::Hydrate;
        for _ in 0..task.answers.len() {
            let Some(copy) = task.answers.pop() else {
                break;
            };
            for piece in 0..self.pieces_of(group) {
                let place = piece.saturating_add(1);
                self.send(task, (copy.line, place), group, &[fresh]);
            }
        }
    }

    /// Lets the new member become whole.
    fn hydrate(&mut self, task: &mut Task) {
        task.answers.clear();
        task.stage = Stage::Finished;
        self.written.of_node("hydrate", task.group, task.fresh);
    }

    /// Sends the newest client a View of the places.
    fn refresh(&mut self, task: &mut Task) {
        task.client = self.clients;
        let line = self.written.of_client("refresh", task.client);
        self.written.note(line, 1, Receiver::Client(task.client));
        task.stage = Stage::Learn(line);
    }

    /// Lets the newest client take its View.
    fn learn(&mut self, task: &mut Task, view: u64) {
        let line = self.written.take(task.client, view, 1);
        task.stage = Stage::Finished;
        self.written.note_each(line, self.joined);
    }

    /// Begins a task in which the next group joins.
    pub fn begin_growth(&mut self, alloc: Global) {
        self.written.put("grow", &[]);
        let mut task = Task::new(alloc, Stage::Tell, self.clients);
        task.group = self.joined;
        self.joined = self.joined.saturating_add(1);
        self.keep(task);
    }

    /// Sends the newest client a View with a group that has joined.
    fn announce(&mut self, task: &mut Task) {
        self.refresh(task);
        if let Stage::Learn(line) = task.stage {
            task.stage = Stage::Join(line);
        }
    }

    /// Lets the newest client take its View, and sends the messages that it makes to members of the group.
    fn join(&mut self, task: &mut Task, view: u64) {
        let line = self.written.take(task.client, view, 1);
        let group = task.group;
        self.viewed = self.joined;
        self.written.note(line, 1, Receiver::Nodes(group));
        task.stage = Stage::Finished;
        self.send_all(task, (line, 1), group);
    }
}
