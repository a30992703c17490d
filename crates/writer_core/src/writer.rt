//! The writer of a volume epoch.

ghost use Rattle.std.specs.Prelude.{◌≡◌, ◌≤◌, true, length, ◌<◌, ◌≢◌, map, Ok, OnOk, IfOk, IfErr, MatchResult};
ghost use Rattle.writer_core.specs.Logs.{log_of_set, is_growing};
ghost use Rattle.writer_core.specs.Log.{log_in, packets_in};
ghost use Rattle.writer_core.specs.LastLsns.{AreLastsOf};
ghost use Rattle.writer_core.specs.DurabilityTracker.{CoversLog};
ghost use Rattle.writer_core.specs.Groups.{groups_in, group_states_plan};
ghost use Rattle.writer_core.specs.Raised.{AreRaised, HaveJoined};
ghost use Rattle.volume_model.specs.Common.{group_point_of, Answers, AnswersAlways, AnswersNew, refusal_of, first_writer, acknowledged, complete_point, durable_point, has_installed, writing, issue_step, issued, resent, page_asked, are_places, is_for, taken, last_start};

use crate::change::Change;
use crate::durability::DurabilityTracker;
use crate::group_states::GroupStates;
use crate::installs::unjoined_installs;
use crate::issuing::{Span, append, carry, room_for};
use crate::last_lsns::LastLsns;
use crate::log::Log;
use crate::transaction::{have_joined, is_transaction};
use lineage::Lineage;
use plan::CheckedPlan;
use redo_record::{LAST_LSN, RecordSet};
use std::alloc::Global;
use std::mem;
use std::sync::Arc;
use volume_model::Fault;
use wire::{Ack, Carried, Message, Messages, PageAsk, View};

/// The writer of a volume epoch: the log with which it began, and the records issued since.
#[derive(Drop)]
pub struct Writer {
    group_states: GroupStates,
    volume: u32,
    lineage: Lineage,
    log: Log,
    /// The last LSN of each group and block.
    last_lsns: LastLsns,
    /// How much of the log is covered by the points of its groups.
    durability: DurabilityTracker,
    ghost assigned: { 1 ≤ volume },
    ghost raised: { AreRaised (group_states_plan group_states) (groups_in group_states) },
    ghost joined: { HaveJoined (group_states_plan group_states) (groups_in group_states) },
    ghost lasts: { AreLastsOf last_lsns (packets_in log) },
    ghost covers: { CoversLog durability (group_point_of (groups_in group_states)) (packets_in log) },
}

impl Writer {
    ghost use Rattle.std.specs.Arc.{arc_value};
    ghost use Rattle.plan.specs.Common.{checked_model};
    ghost use Rattle.volume_model.specs.declared.fault.Fault.TheVariants.{NoGroup, NoMemory};
    ghost use Rattle.wire.specs.Common.{message_of, place_of};
    ghost use Rattle.writer_core.specs.Changes.{changes_of};
    ghost use Rattle.writer_core.specs.Groups.{keeping};
    ghost use Rattle.writer_core.specs.Writers.{client_of, writer_plan, writer_volume, installing, CanIssue, acted, answered, silent, asked, sent};
    ghost use Rattle.lineage.specs.Lineage.{lineage_of};

    /// Returns the writer with which a volume is born: volume epoch 1, each group of the birth at its root, no record.
    /// Fails only with `NoMemory`.
    pub fn first(alloc: Global, plan: Arc<CheckedPlan>) -> Result<Writer, Fault>
        ensures client { AnswersNew client_of (Ok (first_writer (checked_model (arc_value plan)))) result }
        ensures plan { IfOk result (λ w. writer_plan w ≡ checked_model (arc_value plan)) }
        ensures volume { IfOk result (λ w. writer_volume w ≡ 1) }
    {
        Ok(Writer {
            group_states: GroupStates::at_roots(alloc, plan)?,
            volume: 1,
            lineage: Lineage::birth(alloc)?,
            log: Log::begin(alloc, RecordSet::new(alloc)),
            last_lsns: LastLsns::new(alloc, 0),
            durability: DurabilityTracker::none(),
        })
    }

    /// Returns the writer of a later volume epoch, with its recovery's groups, lineage and log found. In each group a
    /// write quorum must have acknowledged the recovery's install
    /// ([`GroupStates::has_installed`](crate::GroupStates::has_installed)). Allocates nothing.
    pub fn opened(
        group_states: GroupStates,
        volume: u32,
        lineage: Lineage,
        found: RecordSet,
    ) -> Writer
        requires assigned { 1 ≤ volume }
        requires installed { has_installed (group_states_plan group_states) (keeping (groups_in group_states)) ≡ true }
        requires growing { is_growing (log_of_set found) ≡ true }
        ensures client { client_of result ≡ writing (group_states_plan group_states)
            (installing (groups_in group_states) (lineage_of lineage) (log_of_set found)) }
        ensures plan { writer_plan result ≡ group_states_plan group_states }
        ensures volume { writer_volume result ≡ volume }
    {
        let mut group_states = group_states;
        group_states.raise();
        let alloc = group_states.alloc();
        let log = Log::begin(alloc, found);
        let last_lsns = LastLsns::new(alloc, log.len());
        let mut durability = DurabilityTracker::none();
        durability.follow(&log, &group_states);
        Writer {
            group_states,
            volume,
            lineage,
            log,
            last_lsns,
            durability,
        }
    }

    /// Returns the volume epoch.
    pub fn volume(&self) -> u32
        ensures { result ≡ writer_volume self.now }
    {
        self.volume
    }

    /// Returns the number of groups.
    pub fn groups(&self) -> u8
        ensures { result ≡ (writer_plan self.now).groups }
    {
        self.group_states.plan().groups()
    }

    /// Returns the writer's lineage.
    pub fn lineage(&self) -> &Lineage
        ensures { lineage_of result.now ≡ (client_of self.now).lineage }
    {
        &self.lineage
    }

    /// Returns the log that its recovery found, in order of LSN; no records for the first writer.
    pub fn found(&self) -> &RecordSet
        ensures { log_of_set result.now ≡ (client_of self.now).found }
    {
        self.log.found()
    }

    /// Returns the LSN after which its own records begin.
    pub fn start(&self) -> u64
        ensures { result ≡ last_start (client_of self.now).lineage }
    {
        self.lineage.last_start()
    }

    /// Returns the log, in order of LSN.
    pub fn log(&self) -> &Log
        ensures { log_in result.now ≡ (client_of self.now).log }
    {
        &self.log
    }

    /// Takes the log, in order of LSN, out of a writer at the end of a run. The writer is left without a record, so it
    /// must not act again.
    pub fn take_log(&mut self) -> Log
        ensures log { log_in result ≡ (client_of self.old).log }
        ensures plan { writer_plan self.new ≡ writer_plan self.old }
        ensures volume { writer_volume self.new ≡ writer_volume self.old }
    {
        let alloc = self.group_states.alloc();
        self.last_lsns = LastLsns::new(alloc, 0);
        self.durability = DurabilityTracker::none();
        mem::replace(&mut self.log, Log::begin(alloc, RecordSet::new(alloc)))
    }

    /// Returns the greatest LSN of the log up to which each record is covered by its group's point, else 0.
    pub fn complete_point(&self) -> u64
        ensures { result ≡ complete_point (client_of self.now) }
    {
        self.durability.complete
    }

    /// Returns the greatest consistency point up to the complete point, else 0. Commits up to it are durable.
    pub fn durable_point(&self) -> u64
        ensures { result ≡ durable_point (client_of self.now) }
    {
        self.durability.durable
    }

    /// Checks whether an acknowledgement can be taken. Allocates nothing.
    ///
    /// # Errors
    /// `NotAddressed` if it isn't for this writer, for one of its groups, or from a member.
    pub fn admits_ack(&self, ack: &Ack) -> Result<(), Fault>
        ensures refusal { result ≡ refusal_of (taken (writer_plan self.now) (writer_volume self.now)
            (client_of self.now) (message_of (Message.Ack ack.now))) }
        ensures can { OnOk result (is_for (writer_volume self.now) (writer_plan self.now).groups
            (message_of (Message.Ack ack.now)) ≡ true) }
        ensures own { IfErr result (λ fault. fault ≢ NoMemory) }
    {
        if !ack.is_to(self.volume, self.groups()) {
            return Err(Fault::NotAddressed);
        }
        Ok(())
    }

    /// Takes an acknowledgement. It counts if its membership epoch is at most the one that the writer knows of the
    /// group. Only this group's point may rise, and only this group may join.
    ///
    /// # Errors
    /// Those of [`Writer::admits_ack`]; `NoMemory` if memory runs out. The writer is unchanged.
    pub fn take_ack(&mut self, ack: &Ack) -> Result<(), Fault>
        ensures answers { Answers silent (taken (writer_plan self.old) (writer_volume self.old) (client_of self.old)
            (message_of (Message.Ack ack.now))) (client_of self.old) result (client_of self.new) }
        ensures plan { writer_plan self.new ≡ writer_plan self.old }
        ensures volume { writer_volume self.new ≡ writer_volume self.old }
    {
        self.admits_ack(ack)?;
        if ack.label.member > self.group_states.epoch(ack.group) {
            return Ok(());
        }
        self.group_states.count(ack)?;
        if ack.scl <= self.group_states.point(ack.group)
            && self.group_states.has_joined(ack.group)
        {
            return Ok(());
        }
        self.group_states.raise_group(ack.group);
        self.durability.follow(&self.log, &self.group_states);
        Ok(())
    }

    /// Checks whether a View can be taken. Allocates nothing.
    ///
    /// # Errors
    /// `NotAddressed` if it is of another volume epoch; `NotInPlan` if it lacks a group of the birth, has more groups
    /// than the plan, or has a place that isn't a configuration of its group.
    pub fn admits_view(&self, view: &View) -> Result<(), Fault>
        ensures refusal { result ≡ refusal_of (taken (writer_plan self.now) (writer_volume self.now)
            (client_of self.now) (message_of (Message.View view.now))) }
        ensures epoch { OnOk result (view.now.volume ≡ writer_volume self.now) }
        ensures places { OnOk result (are_places (writer_plan self.now) (map place_of view.now.places.value.items)
            ≡ true) }
        ensures own { IfErr result (λ fault. fault ≢ NoMemory) }
    {
        if view.volume != self.volume {
            return Err(Fault::NotAddressed);
        }
        if !self.group_states.are_places(view.places.as_slice()) {
            return Err(Fault::NotInPlan);
        }
        Ok(())
    }

    /// Takes a View. Each group moves to its place if that is of a later epoch, new groups are added, and the points of
    /// all groups are raised. Returns an Install without records for each group that moved or is new and hasn't joined,
    /// in order of group.
    ///
    /// # Errors
    /// Those of [`Writer::admits_view`]; `NoMemory` if memory runs out. The writer is unchanged.
    pub fn view(&mut self, alloc: Global, view: &View) -> Result<Vec<Message>, Fault>
        ensures answers { Answers acted (taken (writer_plan self.old) (writer_volume self.old) (client_of self.old)
            (message_of (Message.View view.now))) (client_of self.old) result (client_of self.new) }
        ensures plan { writer_plan self.new ≡ writer_plan self.old }
        ensures volume { writer_volume self.new ≡ writer_volume self.old }
    {
        self.admits_view(view)?;
        let places = view.places.as_slice();
        let messages = unjoined_installs(
            alloc,
            self.volume,
            &self.group_states,
            &self.lineage,
            places,
        )?;
        self.group_states.follow(places)?;
        self.group_states.raise();
        self.durability.follow(&self.log, &self.group_states);
        Ok(messages)
    }

    /// Returns a record of the log, to be sent again. Allocates nothing.
    ///
    /// # Errors
    /// `NoLogRecord` if the log has no record with this LSN.
    pub fn resend(&self, lsn: u64) -> Result<Carried<'_>, Fault>
        ensures answers { AnswersAlways sent (resent (writer_volume self.now) (client_of self.now) lsn)
            (client_of self.now) result (client_of self.now) }
        ensures own { IfErr result (λ fault. fault ≢ NoMemory) }
    {
        match self.log.record_at(lsn) {
            Some(packet) => Ok(carry(self.volume, &self.group_states, packet)),
            None => Err(Fault::NoLogRecord),
        }
    }

    /// Returns a request for a block's page at the durable point. Allocates nothing.
    ///
    /// # Errors
    /// `NoGroup` if the View has no such group.
    pub fn read(&self, group: u8, block: u32) -> Result<Message, Fault>
        ensures answers { AnswersAlways asked (page_asked (writer_volume self.now) (client_of self.now) group block)
            (client_of self.now) result (client_of self.now) }
        ensures own { IfErr result (λ fault. fault ≢ NoMemory) }
    {
        if group >= self.group_states.groups() {
            return Err(Fault::NoGroup);
        }
        Ok(Message::PageAsk(PageAsk {
            group,
            label: self.group_states.label(self.volume, group),
            block,
            point: self.durability.durable_last(group),
        }))
    }

    /// Returns the LSN up to which a write quorum has acknowledged a group.
    ///
    /// # Errors
    /// `NoGroup` if the View has no such group.
    pub fn group_point(&self, group: u8) -> Result<u64, Fault>
        ensures { MatchResult result (λ point. (group < length (client_of self.now).groups)
            × (group_point_of (client_of self.now).groups group ≡ point))
            (λ fault. (length (client_of self.now).groups ≤ group) × (fault ≡ NoGroup)) }
    {
        match self.group_states.get(group) {
            Some(group_state) => Ok(group_state.point),
            None => Err(Fault::NoGroup),
        }
    }

    /// Returns whether the LSN is that of a consistency point of the log up to the durable point.
    pub fn acknowledged(&self, lsn: u64) -> bool
        ensures { result ≡ acknowledged (client_of self.now) lsn }
    {
        self.log.is_point(lsn) && lsn <= self.durable_point()
    }

    /// Checks whether a transaction can be issued. Allocates nothing.
    ///
    /// # Errors
    /// `BadTransaction` if it doesn't have 1 to 32 valid changes of the View's groups; `NotJoined` if a change is to a
    /// group that hasn't joined; `LsnSpent` if there are no LSNs left for it; `LimitReached` if its last LSN would be
    /// further above the durable point and the start than the plan allows.
    pub fn admits(&self, changes: &[Change]) -> Result<(), Fault>
        ensures refusal { result ≡ refusal_of (issued (writer_plan self.now) (writer_volume self.now)
            (client_of self.now) (changes_of changes.now)) }
        ensures ok { OnOk result (issued (writer_plan self.now) (writer_volume self.now) (client_of self.now)
            (changes_of changes.now) ≡ Ok (issue_step (writer_volume self.now) (client_of self.now)
            (changes_of changes.now))) }
        ensures can { OnOk result (CanIssue (writer_plan self.now) (client_of self.now) (changes_of changes.now)) }
        ensures own { IfErr result (λ fault. fault ≢ NoMemory) }
    {
        if !is_transaction(usize::from(self.group_states.groups()), changes) {
            return Err(Fault::BadTransaction);
        }
        if !have_joined(&self.group_states, changes) {
            return Err(Fault::NotJoined);
        }
        let start = self.start();
        let last = self
            .log
            .last_lsn()
            .max(start)
            .saturating_add(changes.len() as u64);
        if last > LAST_LSN {
            return Err(Fault::LsnSpent);
        }
        let limit = self
            .durable_point()
            .max(start)
            .saturating_add(self.group_states.plan().lal());
        if limit < last {
            return Err(Fault::LimitReached);
        }
        Ok(())
    }

    /// Issues a transaction: appends a record for each change, all or none. Returns their Writes, in order. The last
    /// record is a consistency point.
    ///
    /// # Errors
    /// Those of [`Writer::admits`]; `NoMemory` if memory runs out. The writer is unchanged.
    pub fn issue(&mut self, alloc: Global, changes: &[Change]) -> Result<Messages, Fault>
        ensures answers { Answers answered (issued (writer_plan self.old) (writer_volume self.old) (client_of self.old)
            (changes_of changes.now)) (client_of self.old) result (client_of self.new) }
        ensures plan { writer_plan self.new ≡ writer_plan self.old }
        ensures volume { writer_volume self.new ≡ writer_volume self.old }
    {
        self.admits(changes)?;
        let span = Span {
            volume: self.volume,
            start: self.lineage.last_start(),
        };
        let mut messages = room_for(alloc, changes.len())?;
        let length = self.log.len();
        match append(
            alloc,
            span,
            &self.group_states,
            &mut self.log,
            &mut self.last_lsns,
            changes,
            &mut messages,
        ) {
            Ok(()) => {
                self.durability.follow(&self.log, &self.group_states);
                Ok(messages)
            }
            Err(fault) => {
                self.log.truncate(length);
                self.last_lsns = LastLsns::new(alloc, length);
                Err(fault)
            }
        }
    }
}
