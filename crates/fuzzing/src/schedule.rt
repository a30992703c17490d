//! A random script: tasks that take turns, and lines that belong to no task.

use crate::numbers::Numbers;
use crate::rng::Rng;
use crate::tasks::{Answered, Stage, Task};
use crate::written::{Delivery, Message, Named, Receiver, Written, keep};
use plan::CheckedPlan;
use quorum_expr::MemberSet;
use std::alloc::{AllocError, Global};
use std::sync::Arc;

/// The most clients of a script.
const MOST_CLIENTS: u32 = 24;

/// The most groups of a plan.
const GROUPS: usize = 16;

/// The most tasks at a time.
const MOST_TASKS: usize = 3;

/// The least LAL of a plan whose scripts may begin with a long log.
const LONG_LAL: u64 = 32;

/// The most members of a group whose log may be long.
const LONG_MEMBERS: usize = 8;

/// What happens in a script beside writes, reads, recoveries, losses and repetitions.
#[derive(Clone, Copy, Debug, PartialEq, Eq)]
pub struct Events {
    /// Nodes restart.
    pub restarts: bool,
    /// Groups step along the plan.
    pub steps: bool,
}

/// A script under construction.
#[derive(Drop)]
pub struct Schedule {
    pub plan: Arc<CheckedPlan>,
    pub events: Events,
    pub rng: Rng,
    pub written: Written,
    /// The number of clients.
    pub clients: u32,
    /// The clients but the first that may be open, in the order in which they opened.
    pub open: Vec<u32>,
    /// The configuration of each group.
    pub places: [u8; GROUPS],
    /// The line of each group's last advance, 0 if there is none.
    pub advances: [u64; GROUPS],
    /// The number of groups that have joined.
    pub joined: u8,
    /// The number of groups in the last View that the newest client took.
    pub viewed: u8,
    /// Members in the order in which writes prefer them.
    pub favourites: Numbers,
    /// Messages that weren't delivered in time.
    late: Vec<Delivery>,
    tasks: Vec<Task>,
    /// How many of 100 messages are lost.
    pub loss: usize,
    /// The number of messages of a copy or an install of the first group.
    pub pieces: u64,
}

impl Schedule {
    /// Returns the beginning of a script over this plan.
    pub fn new(alloc: Global, plan: Arc<CheckedPlan>, mut rng: Rng, events: Events) -> Schedule {
        let mut favourites = Numbers::of_set(MemberSet::empty().complement());
        rng.shuffle(favourites.as_mut_slice());
        let loss = rng.one_of(&[0, 0, 10, 40]).unwrap_or(0);
        let born = plan.born();
        Schedule {
            plan,
            events,
            rng,
            written: Written::new(alloc),
            clients: 1,
            open: Vec::new(alloc),
            places: [0; GROUPS],
            advances: [0; GROUPS],
            joined: born,
            viewed: born,
            favourites,
            late: Vec::new(alloc),
            tasks: Vec::new(alloc),
            loss,
            pieces: 1,
        }
    }

    /// Returns the newest writer.
    pub fn newest(&self) -> u32 {
        self.open.last().copied().unwrap_or(1)
    }

    /// Returns a writer, mostly the newest.
    pub fn writer(&mut self) -> u32 {
        if self.rng.chance(85) {
            return self.newest();
        }
        let chosen = self.rng.below(self.open.len().saturating_add(1));
        match chosen.checked_sub(1) {
            Some(later) => self.open.get(later).copied().unwrap_or(1),
            None => 1,
        }
    }

    /// Lets a task deliver a message.
    fn add_delivery(&mut self, task: &mut Task, delivery: Delivery) {
        keep(&mut self.written.failed, &mut task.deliveries, delivery);
    }

    /// Lets a task send a message to members of a group.
    pub fn send(&mut self, task: &mut Task, named: Named, group: u8, members: &[u8]) {
        for member in members.iter() {
            self.add_delivery(task, Delivery::new(named, group, *member));
        }
    }

    /// Lets a task send a message to all members of a group.
    pub fn send_all(&mut self, task: &mut Task, named: Named, group: u8) {
        let members = self.members(group);
        self.send(task, named, group, members.as_slice());
    }

    /// Returns the number of messages of a copy or an install of a group.
    pub fn pieces_of(&self, group: u8) -> u64 {
        if group == 0 { self.pieces } else { 1 }
    }

    /// Lets a recovery send the Fences that a line made to a read quorum.
    pub fn send_fences(&mut self, task: &mut Task, line: u64) {
        self.written.note_each(line, self.joined);
        for group in 0..self.joined {
            let members = self.read_reach(group);
            let place = u64::from(group).saturating_add(1);
            self.send(task, (line, place), group, members.as_slice());
        }
    }

    /// Lets a recovery send the Installs that a line made, with all their pieces, to a write quorum.
    pub fn send_installs(&mut self, task: &mut Task, line: u64) {
        let mut place = 0u64;
        for group in 0..self.joined {
            let members = self.write_reach(group);
            for _ in 0..self.pieces_of(group) {
                place = place.saturating_add(1);
                self.written.note(line, place, Receiver::Nodes(group));
                self.send(task, (line, place), group, members.as_slice());
            }
        }
    }

    /// Lets a writer send its records, which are in these groups.
    pub fn send_records(&mut self, task: &mut Task, line: u64, groups: &[u8]) {
        for group in 0..self.joined {
            let members = self.write_reach(group);
            let mut place = 0u64;
            for other in groups.iter() {
                place = place.saturating_add(1);
                if *other == group {
                    self.written.note(line, place, Receiver::Nodes(group));
                    self.send(task, (line, place), group, members.as_slice());
                }
            }
        }
    }

    /// Loses a message of a task. Three in four lost messages are sent again, the others may arrive late.
    fn lose(&mut self, task: &mut Task, delivery: Delivery) {
        if self.rng.chance(75) {
            self.add_delivery(task, delivery);
            return;
        }
        keep(&mut self.written.failed, &mut self.late, delivery);
    }

    /// Delivers a message of a task, unless it is lost.
    fn deliver(&mut self, task: &mut Task, delivery: Delivery) {
        if self.rng.chance(self.loss) {
            self.lose(task, delivery);
            return;
        }
        let Delivery { group, member, .. } = delivery;
        let answer = if task.takes() {
            Receiver::Client(task.client)
        } else {
            Receiver::Nodes(group)
        };
        let line = self.written.deliver(delivery, answer);
        if self.rng.chance(70) {
            task.forget(group, member);
        }
        let answered = Answered {
            line,
            group,
            member,
        };
        keep(&mut self.written.failed, &mut task.answers, answered);
    }

    /// Writes the next line of a task.
    fn go_on(&mut self, alloc: Global, task: &mut Task) {
        let chosen = self.rng.below(task.deliveries.len());
        if chosen < task.deliveries.len() {
            let delivery = task.deliveries.swap_remove(chosen);
            self.deliver(task, delivery);
            return;
        }
        let chosen = self.rng.below(task.answers.len());
        if task.takes() && chosen < task.answers.len() {
            let answer = task.answers.swap_remove(chosen);
            if !self.rng.chance(self.loss / 2) {
                self.written.take(task.client, answer.line, 1);
            }
            return;
        }
        self.next_stage(alloc, task);
    }

    /// Continues a task, or begins a new one.
    fn take_turn(&mut self, alloc: Global) {
        let chosen = self.rng.below(self.tasks.len());
        if chosen < self.tasks.len() {
            let mut task = self.tasks.swap_remove(chosen);
            self.go_on(alloc, &mut task);
            self.keep(task);
            return;
        }
        self.begin(alloc);
    }

    /// Keeps a task unless it is done.
    pub fn keep(&mut self, task: Task) {
        if !task.is_done() && self.tasks.push(task).is_err() {
            self.written.failed = true;
        }
    }

    fn begin(&mut self, alloc: Global) {
        match self.rng.below(20) {
            0 if self.clients < MOST_CLIENTS => self.begin_recovery(alloc),
            1 if self.events.steps => self.begin_step(alloc),
            2..=3 => self.begin_late(alloc),
            4 if self.joined < self.plan.groups() => self.begin_growth(alloc),
            _ => self.begin_write(alloc),
        }
    }

    /// Begins a task that delivers the messages that are late.
    fn begin_late(&mut self, alloc: Global) {
        let client = self.newest();
        let mut task = Task::new(alloc, Stage::Finished, client);
        for _ in 0..8 {
            let chosen = self.rng.below(self.late.len());
            if chosen < self.late.len() {
                let delivery = self.late.swap_remove(chosen);
                self.add_delivery(&mut task, delivery);
            }
        }
        self.keep(task);
    }

    /// Writes a line, or loses one.
    fn turn(&mut self, alloc: Global) {
        match self.rng.below(100) {
            0..=9 if self.tasks.len() < MOST_TASKS => self.begin(alloc),
            10..=19 => self.stray(alloc),
            _ => self.take_turn(alloc),
        }
    }

    /// Returns a message, mostly a recent one.
    pub fn any_message(&mut self) -> Option<Message> {
        let all = self.written.messages.as_slice();
        let count = all.len();
        let recent = count.saturating_sub(24);
        let first = if self.rng.chance(70) { recent } else { 0 };
        let chosen = self.rng.from(first, count.saturating_sub(first));
        all.get(chosen).copied()
    }

    /// Returns whether the script may begin with a long log.
    fn may_be_long(&self) -> bool {
        self.plan.lal() >= LONG_LAL && self.members(0).len() <= LONG_MEMBERS
    }

    /// Returns a random script. It depends on the plan, on the numbers that the generator returns and on the events
    /// that are asked for, and on nothing else. One in four begins with a long log, if the plan's LAL is great enough
    /// for it; else one in three begins with a write that arrives late, if the plan has a step. Then come its turns, of
    /// at most one line each; their number is the greater of two draws between 60 and 700.
    ///
    /// # Errors
    /// `AllocError` if memory runs out.
    pub fn filled(mut self, alloc: Global) -> Result<Written, AllocError> {
        if self.may_be_long() && self.rng.chance(25) {
            self.lengthen();
        } else if self.events.steps && self.rng.chance(33) {
            self.straggle(alloc);
        }
        let turns = self.rng.from(60, 641).max(self.rng.from(60, 641));
        for _ in 0..turns {
            self.turn(alloc);
        }
        self.finish();
        self.written.finished()
    }
}
