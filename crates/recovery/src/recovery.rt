//! Recoveries.

ghost use Rattle.std.specs.Prelude.{◌≡◌, ◌≤◌, true, ◌≢◌, false, length, map, IfErr, IfOk, MatchOption, OnOk};
ghost use Rattle.writer_core.specs.Groups.{groups_in};
ghost use Rattle.recovery.specs.Cuts.{are_older};

use crate::finding::find;
use crate::found::Found;
use crate::messages::{fences, installs, later_fences, later_installs};
use crate::reported::records_said;
use plan::CheckedPlan;
use std::alloc::Global;
use std::sync::Arc;
use volume_model::{Fault, steps_are_few};
use wire::{Ack, Message, Report, View};
use writer_core::{GroupStates, Writer, are_places};

/// The recovery of a volume epoch. It collects reports until it cuts, and then installs the log found.
#[derive(Drop)]
pub struct Recovery {
    group_states: GroupStates,
    volume: u32,
    /// The result of its cut, once it has cut.
    found: Option<Found>,
    ghost assigned: { 1 ≤ volume },
    ghost older: { are_older volume (groups_in group_states) ≡ true },
}

impl Recovery {
    ghost use Rattle.std.specs.Arc.{arc_value};
    ghost use Rattle.volume_model.specs.Common.{Answers, AnswersAfterGrowth, AnswersNew, refusal_of, has_cut, cut_client, log_reported, opened, are_places, is_for, taken};
    ghost use Rattle.volume_model.specs.declared.fault.Fault.TheVariants.{NoMemory};
    ghost use Rattle.plan.specs.Common.{checked_model};
    ghost use Rattle.wire.specs.Common.{message_of, place_of};
    ghost use Rattle.writer_core.specs.Writers.{writer_plan, writer_volume, acted, silent};
    ghost use Rattle.recovery.specs.Recoveries.{client_of, recovery_groups, recovery_plan, recovery_volume, admitted, begun, birth_of, found_step, view_volume, HasInstalled, Opens};
    ghost use Rattle.recovery.specs.Finds.{is_spent, IsFindOf};

    /// Returns the View that makes a recovery, with the refusals of [`Recovery::admits_birth`].
    fn first_view<'a>(plan: &CheckedPlan, message: &'a Message) -> Result<&'a View, Fault>
        ensures refusal { refusal_of result ≡ refusal_of (birth_of (checked_model plan.now) (message_of message.now)) }
        ensures view { IfOk result (λ view. message.now ≡ Message.View view.now) }
        ensures places { IfOk result
            (λ view. are_places (checked_model plan.now) (map place_of view.now.places.value.items) ≡ true) }
        ensures own { IfErr result (λ fault. fault ≢ NoMemory) }
    {
        let Message::View(view) = message else {
            return Err(Fault::NotAddressed);
        };
        if !are_places(plan, view.places.as_slice()) {
            return Err(Fault::NotInPlan);
        }
        Ok(view)
    }

    /// Checks whether a message makes a recovery. Allocates nothing.
    ///
    /// # Errors
    /// `NotAddressed` if it isn't a View; `NotInPlan` if it lacks a group of the birth, has more groups than the plan,
    /// or has a place that isn't a configuration of its group.
    pub fn admits_birth(plan: &CheckedPlan, message: &Message) -> Result<(), Fault>
        ensures refusal { result ≡ refusal_of (birth_of (checked_model plan.now) (message_of message.now)) }
        ensures own { IfErr result (λ fault. fault ≢ NoMemory) }
    {
        match Recovery::first_view(plan, message) {
            Ok(_) => Ok(()),
            Err(fault) => Err(fault),
        }
    }

    /// Makes a recovery from its first View. Returns it with one Fence for each group of the View.
    ///
    /// # Errors
    /// Those of [`Recovery::admits_birth`]; `NoMemory` if memory runs out.
    pub fn new(
        alloc: Global,
        plan: Arc<CheckedPlan>,
        message: &Message,
    ) -> Result<(Recovery, Vec<Message>), Fault>
        ensures birth { AnswersNew begun (birth_of (checked_model (arc_value plan)) (message_of message.now)) result }
        ensures plan { IfOk result (λ made. recovery_plan made.0 ≡ checked_model (arc_value plan)) }
        ensures volume { IfOk result (λ made. recovery_volume made.0 ≡ view_volume (message_of message.now)) }
    {
        let view = match Recovery::first_view(&plan, message) {
            Ok(view) => view,
            Err(fault) => return Err(fault),
        };
        let group_states = GroupStates::at_places(alloc, plan, view.places.as_slice())?;
        let messages = fences(alloc, view.volume, &group_states)?;
        let recovery = Recovery {
            group_states,
            volume: view.volume,
            found: None,
        };
        Ok((recovery, messages))
    }

    /// Returns the volume epoch.
    pub fn volume(&self) -> u32
        ensures { result ≡ recovery_volume self.now }
    {
        self.volume
    }

    /// Returns the number of groups.
    pub fn groups(&self) -> u8
        ensures all { result ≡ (recovery_plan self.now).groups }
        ensures view { length (client_of self.now).groups ≤ result }
    {
        self.group_states.plan().groups()
    }

    /// Checks whether a later View can be taken. Allocates nothing.
    ///
    /// # Errors
    /// `NotAddressed` if it is of another volume epoch; `NotInPlan` if it lacks a group of the birth, has more groups
    /// than the plan, or has a place that isn't a configuration of its group.
    pub fn admits_view(&self, view: &View) -> Result<(), Fault>
        ensures refusal { result ≡ refusal_of (taken (recovery_plan self.now) (recovery_volume self.now)
            (client_of self.now) (message_of (Message.View view.now))) }
        ensures epoch { OnOk result (view.now.volume ≡ recovery_volume self.now) }
        ensures places { OnOk result (are_places (recovery_plan self.now) (map place_of view.now.places.value.items)
            ≡ true) }
        ensures own { IfErr result (λ fault. fault ≢ NoMemory) }
    {
        if view.volume != self.volume {
            return Err(Fault::NotAddressed);
        }
        if !self.group_states.are_places(view.places.as_slice()) {
            return Err(Fault::NotInPlan);
        }
        Ok(())
    }

    /// Takes a later View. Each group moves to its place if that is of a later epoch, and new groups are added. Before
    /// the cut, each of these groups drops its reports, and a Fence is returned for it. After the cut, its Installs are
    /// returned.
    ///
    /// # Errors
    /// Those of [`Recovery::admits_view`]; `NoMemory` if memory runs out. The recovery is unchanged.
    pub fn view(&mut self, alloc: Global, view: &View) -> Result<Vec<Message>, Fault>
        ensures answers { Answers acted (taken (recovery_plan self.old) (recovery_volume self.old) (client_of self.old)
            (message_of (Message.View view.now))) (client_of self.old) result (client_of self.new) }
        ensures plan { recovery_plan self.new ≡ recovery_plan self.old }
        ensures volume { recovery_volume self.new ≡ recovery_volume self.old }
    {
        self.admits_view(view)?;
        let places = view.places.as_slice();
        match &self.found {
            None => {
                let messages = later_fences(alloc, self.volume, &self.group_states, places)?;
                self.group_states.reread(places)?;
                Ok(messages)
            }
            Some(found) => {
                let messages = later_installs(
                    alloc,
                    self.volume,
                    &self.group_states,
                    found,
                    places,
                )?;
                self.group_states.follow(places)?;
                Ok(messages)
            }
        }
    }

    /// Checks whether a report can be taken. Allocates nothing.
    ///
    /// # Errors
    /// `NotAddressed` if it isn't for this recovery, for one of its groups with that group's records, or from a member.
    pub fn admits_report(&self, report: &Report) -> Result<(), Fault>
        ensures refusal { result ≡ refusal_of (taken (recovery_plan self.now) (recovery_volume self.now)
            (client_of self.now) (message_of (Message.Report report.now))) }
        ensures can { OnOk result (is_for (recovery_volume self.now) (recovery_plan self.now).groups
            (message_of (Message.Report report.now)) ≡ true) }
        ensures own { IfErr result (λ fault. fault ≢ NoMemory) }
    {
        if !report.is_to(self.volume, self.groups()) {
            return Err(Fault::NotAddressed);
        }
        Ok(())
    }

    /// Takes a report. It counts before the cut, if it is the member's first, its membership epoch is the group's, and
    /// its lineage is older than the recovery. Else it is ignored.
    ///
    /// # Errors
    /// Those of [`Recovery::admits_report`]; `NoMemory` if memory runs out. The recovery is unchanged.
    pub fn take_report(&mut self, report: &Report) -> Result<(), Fault>
        ensures answers { Answers silent (taken (recovery_plan self.old) (recovery_volume self.old) (client_of self.old)
            (message_of (Message.Report report.now))) (client_of self.old) result (client_of self.new) }
        ensures plan { recovery_plan self.new ≡ recovery_plan self.old }
        ensures volume { recovery_volume self.new ≡ recovery_volume self.old }
    {
        self.admits_report(report)?;
        if self.found.is_some()
            || report.label.member != self.group_states.epoch(report.group)
            || report.contents.lineage.last_epoch() >= self.volume
        {
            return Ok(());
        }
        self.group_states.keep(report)?;
        Ok(())
    }

    /// Checks whether an acknowledgement can be taken. Allocates nothing.
    ///
    /// # Errors
    /// `NotAddressed` if it isn't for this recovery, for one of its groups, or from a member.
    pub fn admits_ack(&self, ack: &Ack) -> Result<(), Fault>
        ensures refusal { result ≡ refusal_of (taken (recovery_plan self.now) (recovery_volume self.now)
            (client_of self.now) (message_of (Message.Ack ack.now))) }
        ensures can { OnOk result (is_for (recovery_volume self.now) (recovery_plan self.now).groups
            (message_of (Message.Ack ack.now)) ≡ true) }
        ensures own { IfErr result (λ fault. fault ≢ NoMemory) }
    {
        if !ack.is_to(self.volume, self.groups()) {
            return Err(Fault::NotAddressed);
        }
        Ok(())
    }

    /// Takes an acknowledgement. It counts after the cut, if its membership epoch is at most the group's. Else it is
    /// ignored.
    ///
    /// # Errors
    /// Those of [`Recovery::admits_ack`]; `NoMemory` if memory runs out. The recovery is unchanged.
    pub fn take_ack(&mut self, ack: &Ack) -> Result<(), Fault>
        ensures answers { Answers silent (taken (recovery_plan self.old) (recovery_volume self.old) (client_of self.old)
            (message_of (Message.Ack ack.now))) (client_of self.old) result (client_of self.new) }
        ensures plan { recovery_plan self.new ≡ recovery_plan self.old }
        ensures volume { recovery_volume self.new ≡ recovery_volume self.old }
    {
        self.admits_ack(ack)?;
        if self.found.is_none() || ack.label.member > self.group_states.epoch(ack.group) {
            return Ok(());
        }
        self.group_states.count(ack)?;
        Ok(())
    }

    /// Finds the log for a cut, with the refusals of [`Recovery::admits_cut`].
    fn find_cut(&self, alloc: Global) -> Result<Found, Fault>
        ensures { AnswersAfterGrowth is_spent (found_step (recovery_volume self.now))
            (cut_client (recovery_plan self.now) (recovery_volume self.now) (client_of self.now))
            (recovery_groups self.now) result (recovery_groups self.now) }
    {
        if self.found.is_some() {
            return Err(Fault::AlreadyDone);
        }
        if !self.group_states.has_read() {
            return Err(Fault::NotReady);
        }
        find(alloc, self.volume, &self.group_states)
    }

    /// Checks whether the recovery can cut the log of its reports.
    ///
    /// # Errors
    /// `AlreadyDone` if it has cut; `NotReady` if in some group the senders of its reports aren't a read quorum;
    /// `LsnSpent` if its own LSNs would begin above the greatest LSN; `NoMemory` if memory runs out, which may come
    /// before `LsnSpent`, since the log is found first.
    pub fn admits_cut(&self, alloc: Global) -> Result<(), Fault>
        ensures { AnswersAfterGrowth is_spent admitted
            (refusal_of (cut_client (recovery_plan self.now) (recovery_volume self.now) (client_of self.now))) tt result
            tt }
    {
        match self.find_cut(alloc) {
            Ok(_) => Ok(()),
            Err(fault) => Err(fault),
        }
    }

    /// Cuts the log of its reports. Returns the Installs, one for each piece of a group: the newest lineage with the
    /// recovery's own entry, and the log up to the cut.
    ///
    /// # Errors
    /// Those of [`Recovery::admits_cut`]. The recovery is unchanged.
    pub fn cut(&mut self, alloc: Global) -> Result<Vec<Message>, Fault>
        ensures answers { AnswersAfterGrowth is_spent acted (cut_client (recovery_plan self.old)
            (recovery_volume self.old) (client_of self.old)) (client_of self.old) result (client_of self.new) }
        ensures plan { recovery_plan self.new ≡ recovery_plan self.old }
        ensures volume { recovery_volume self.new ≡ recovery_volume self.old }
    {
        let found = match self.find_cut(alloc) {
            Ok(found) => found,
            Err(fault) => return Err(fault),
        };
        let messages = installs(alloc, self.volume, &self.group_states, &found)?;
        self.found = Some(found);
        Ok(messages)
    }

    /// Returns an upper bound on the number of records of the log in its reports.
    pub fn reported(&self) -> usize
        ensures { length (log_reported (client_of self.now)) ≤ result }
    {
        steps_are_few();
        records_said(self.group_states.as_slice())
    }

    /// Returns the number of records of the log found, 0 before the cut.
    pub fn found_len(&self) -> usize
        ensures { result ≡ length (client_of self.now).found }
    {
        match &self.found {
            Some(found) => found.log.len(),
            None => 0,
        }
    }

    /// Returns the result of its cut, or `None` before the cut.
    pub fn found(&self) -> Option<&Found>
        ensures { MatchOption result (has_cut (client_of self.now).stage ≡ false)
            (λ found. (has_cut (client_of self.now).stage ≡ true) × IsFindOf (client_of self.now) found.now) }
    {
        self.found.as_ref()
    }

    /// Returns the refusal of [`Recovery::open`], if any, without acting. Allocates nothing.
    ///
    /// # Errors
    /// `NotReady` before the cut, and until a write quorum of each group has acknowledged its install.
    pub fn admits_open(&self) -> Result<(), Fault>
        ensures refusal { result ≡ refusal_of (opened (recovery_plan self.now) (client_of self.now)) }
        ensures cut { OnOk result (has_cut (client_of self.now).stage ≡ true) }
        ensures installed { OnOk result (HasInstalled self.now) }
        ensures own { IfErr result (λ fault. fault ≢ NoMemory) }
    {
        if self.found.is_none() || !self.group_states.has_installed() {
            return Err(Fault::NotReady);
        }
        Ok(())
    }

    /// Returns the writer that the recovery becomes once a write quorum of each group has acknowledged its install.
    /// Allocates nothing.
    ///
    /// # Errors
    /// Those of [`Recovery::admits_open`]. The recovery is returned unchanged.
    pub fn open(self) -> Result<Writer, (Fault, Recovery)>
        ensures opens { Opens (opened (recovery_plan self) (client_of self)) self result }
        ensures plan { IfOk result (λ w. writer_plan w ≡ recovery_plan self) }
        ensures volume { IfOk result (λ w. writer_volume w ≡ recovery_volume self) }
    {
        if let Err(fault) = self.admits_open() {
            return Err((fault, self));
        }
        let Recovery {
            group_states,
            volume,
            found,
        } = self;
        match found {
            Some(found) => {
                let Found { log, lineage, .. } = found;
                Ok(Writer::opened(group_states, volume, lineage, log))
            }
            None => unreachable!(),
        }
    }
}
