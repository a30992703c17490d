//! A segment of a protection group, on one node.

mod copying;
mod hydrating;
mod paging;
mod saving;

ghost use Rattle.std.specs.Prelude.{◌≡◌, true, IfOk, false, [], ◌∷◌, Ok, Err, IfErr, MatchResult, ◌≢◌};
ghost use Rattle.std.specs.Arc.{arc_value};
ghost use Rattle.volume_model.specs.Common.{is_named, Answers, AnswersAlways, AnswersAfterGrowth, AnswersNew, scl, NodeAnswer, installed, label_checks, offered, restarted, take_record, is_bad_piece};
ghost use Rattle.plan.specs.Common.{checked_model};

use crate::action::NodeAction;
use crate::assembly::Assembly;
use crate::prepared::{Effect, Prepared};
use crate::records::Records;
use crate::segment_state::SegmentState;
use crate::status::SegmentStatus;
use hydration::Hydration;
use lineage::Lineage;
use plan::CheckedPlan;
use redo_record::{RecordSet, SharedRecord};
use std::alloc::{AllocError, Global};
use std::sync::Arc;
use volume_model::Fault;
use wire::{
    Ack, Carried, CopyAsk, Fence, Install, Label, MOST_PIECES, Message, Messages, Report, StepTo,
    Write,
};

/// The most records that a segment holds.
const MOST_RECORDS: usize = 1_048_576;

/// A segment of a protection group, on one node.
#[derive(Drop)]
pub struct Segment {
    plan: Arc<CheckedPlan>,
    group: u8,
    member: u8,
    /// The promised volume epoch.
    volume: u32,
    /// The configuration of the last membership step that it took.
    configuration: u8,
    /// The membership epoch of that configuration, 0 before its first step.
    epoch: u32,
    whole: bool,
    held: SegmentState,
    /// The copies that it received while it wasn't whole: of each sender the pieces of one copy.
    copies: Hydration,
    /// The pieces that it received of an install that isn't complete.
    assembly: Assembly,
    /// The number of copies that it has made.
    copied: u64,
    ghost named: { is_named (checked_model (arc_value plan)) group member ≡ true },
}

impl Segment {
    ghost use Rattle.volume_model.specs.declared.fault.Fault.TheVariants.{NoMemory};
    ghost use Rattle.redo_record.specs.Common.{shared_redo};
    ghost use Rattle.redo_record.specs.RecordSet.{records_of as set_records};
    ghost use Rattle.volume_model.specs.Message as model;
    ghost use Rattle.wire.specs.Common.{contents_of, piece_in, listed, label_of, message_of, messages_of};
    ghost use Rattle.segment_core.specs.Actions.{action_after_growth};
    ghost use Rattle.segment_core.specs.Prepared.{answers_of, effected, step_of};
    ghost use Rattle.segment_core.specs.Status.{status_of};
    ghost use Rattle.segment_core.specs.Segment.{node_of, segment_group, segment_member, action_of, answered, born, offered_step, reaction_of, replaced, CanTake, IsSegmentOf, IsSameActor, IsReady, Prepares};

    /// Makes the segment of a member of a group at the volume's birth.
    ///
    /// # Errors
    /// `NoActor` if the plan doesn't name such a member; `NoMemory` if memory runs out.
    pub fn new(
        alloc: Global,
        plan: Arc<CheckedPlan>,
        group: u8,
        member: u8,
    ) -> Result<Segment, Fault>
        ensures born { AnswersNew node_of (born (checked_model (arc_value plan)) group member) result }
        ensures actor { IfOk result (λ segment. IsSegmentOf (checked_model (arc_value plan)) group member segment) }
    {
        if !plan.names(group, member) {
            return Err(Fault::NoActor);
        }
        if plan.is_root_member(group, member) {
            let lineage = Lineage::birth(alloc)?;
            Ok(Segment {
                plan,
                group,
                member,
                volume: 1,
                configuration: 0,
                epoch: 1,
                whole: true,
                held: SegmentState::new(lineage, Records::new(alloc)),
                copies: Hydration::new(alloc),
                assembly: Assembly::new(),
                copied: 0,
            })
        } else {
            Ok(Segment {
                plan,
                group,
                member,
                volume: 0,
                configuration: 0,
                epoch: 0,
                whole: false,
                held: SegmentState::new(Lineage::empty(alloc), Records::new(alloc)),
                copies: Hydration::new(alloc),
                assembly: Assembly::new(),
                copied: 0,
            })
        }
    }

    /// Returns the segment complete point (SCL): the greatest LSN up to which it holds all records of its group.
    pub fn scl(&self) -> u64
        ensures { result ≡ scl (node_of self.now).contents.records }
    {
        self.held.records.complete_point()
    }

    /// Returns its epochs, whether it is whole, its complete point and the number of its records. Takes no memory.
    pub fn status(&self) -> SegmentStatus
        ensures { result ≡ status_of (node_of self.now) }
    {
        SegmentStatus {
            volume_epoch: self.volume,
            membership_epoch: self.epoch,
            configuration: self.configuration,
            is_whole: self.whole,
            complete_point: self.held.records.complete_point(),
            records: self.held.records.len(),
        }
    }

    /// Drops the pieces of copies and of an install, and keeps all else.
    pub fn restart(&mut self)
        ensures node { node_of self.new ≡ restarted (node_of self.old) }
        ensures actor { IsSameActor self.old self.new }
    {
        self.copies.clear();
        self.assembly = Assembly::new();
    }

    /// Checks a message's label.
    fn check_label(&self, label: Label) -> Result<(), Fault>
        ensures own { IfErr result (λ fault. fault ≢ NoMemory) }
        ensures checks { MatchResult result (λ _. (rest : NodeAnswer) → label_checks (node_of self.now) (label_of label)
            rest ≡ rest) (λ fault. (rest : NodeAnswer) → label_checks (node_of self.now) (label_of label) rest
            ≡ Err fault) }
    {
        if label.member < self.epoch {
            return Err(Fault::StaleMember);
        }
        if self.epoch < label.member {
            return Err(Fault::AheadMember);
        }
        if !self.whole {
            return Err(Fault::NotWhole);
        }
        if label.volume < self.volume {
            return Err(Fault::StaleVolume);
        }
        Ok(())
    }

    /// Returns a step with this effect that makes an Ack.
    #[inline(always)]
    fn acknowledged(&self, label: Label, scl: u64, effect: Effect) -> Prepared
        ensures made { messages_of (answers_of result) ≡ model.Message.Ack (segment_group self.now) (label_of label)
            (segment_member self.now) scl ∷ [] }
        ensures effect { result.effect ≡ effect }
    {
        let from = self.member;
        let ack = Ack {
            group: self.group,
            label,
            from,
            scl,
        };
        Prepared {
            answers: Messages::One(Message::Ack(ack)),
            effect,
        }
    }

    /// Prepares the reaction to a `Fence`.
    #[inline(always)]
    fn fenced(&mut self, alloc: Global, fence: &Fence) -> Result<Prepared, Fault>
        ensures step { Prepares (message_of (Message.Fence fence.now)) self.old result }
        ensures ready { IfOk result (λ prepared. CanTake self.new prepared.effect) }
        ensures node { node_of self.new ≡ node_of self.old }
        ensures actor { IsSameActor self.old self.new }
    {
        if fence.group != self.group {
            return Err(Fault::NotAddressed);
        }
        self.check_label(fence.label)?;
        let report = Report {
            group: self.group,
            label: fence.label,
            from: self.member,
            contents: self.held.contents(alloc)?,
        };
        Ok(Prepared {
            answers: Messages::One(Message::Report(report)),
            effect: Effect::Promise(fence.label.volume),
        })
    }

    /// Returns the step that replaces lineage and records by those of a complete install.
    fn replaced(
        &self,
        alloc: Global,
        install: &Install,
        found: &RecordSet,
    ) -> Result<Prepared, AllocError>
        ensures step { IfOk result (λ prepared. step_of prepared (node_of self.now) ≡ replaced (segment_group self.now)
            (segment_member self.now) (node_of self.now) (label_of install.now.label)
            (contents_of install.now.contents.value).lineage (set_records found.now)) }
        ensures ready { IfOk result (λ prepared. CanTake self.now prepared.effect) }
    {
        let lineage = install.contents.lineage.clone()?;
        let records = Records::boxed(alloc, found)?;
        let scl = records.complete_point();
        let effect = Effect::Replace {
            volume: install.label.volume,
            lineage,
            records,
        };
        Ok(self.acknowledged(install.label, scl, effect))
    }

    /// Prepares the reaction to a valid piece of an install: keeps it, or replaces lineage and records if no other
    /// piece is missing.
    fn prepare_piece(&mut self, alloc: Global, install: &Install) -> Result<Prepared, AllocError>
        requires { is_bad_piece (node_of self.old).install install.now.label.volume
            (piece_in install.now.piece install.now.of) (contents_of install.now.contents.value) ≡ false }
        ensures step { IfOk result (λ prepared. step_of prepared (node_of self.old) ≡ installed (segment_group self.old)
            (segment_member self.old) (node_of self.old) (label_of install.now.label)
            (piece_in install.now.piece install.now.of) (contents_of install.now.contents.value)) }
        ensures ready { IfOk result (λ prepared. CanTake self.new prepared.effect) }
        ensures node { node_of self.new ≡ node_of self.old }
        ensures actor { IsSameActor self.old self.new }
    {
        let volume = install.label.volume;
        if self.held.lineage.last_epoch() == volume {
            let scl = self.held.records.complete_point();
            return Ok(self.acknowledged(install.label, scl, Effect::Promise(volume)));
        }
        // Most installs have one piece, which needn't be kept.
        if install.of == 1 && self.assembly.has_none_of(volume) {
            return self.replaced(alloc, install, &install.contents.records);
        }
        let change = self.assembly.prepare(alloc, install)?;
        match self.assembly.whole_with(alloc, &change)? {
            Some(found) => self.replaced(alloc, install, &found),
            None => {
                let change = Box::new(alloc, change)?;
                Ok(Prepared {
                    answers: Messages::Empty,
                    effect: Effect::Gather { volume, change },
                })
            }
        }
    }

    /// Prepares the reaction to an `Install`.
    #[inline(always)]
    fn installed(&mut self, alloc: Global, install: &Install) -> Result<Prepared, Fault>
        ensures step { Prepares (message_of (Message.Install install.now)) self.old result }
        ensures ready { IfOk result (λ prepared. CanTake self.new prepared.effect) }
        ensures node { node_of self.new ≡ node_of self.old }
        ensures actor { IsSameActor self.old self.new }
    {
        if !install.is_for(self.group) {
            return Err(Fault::NotAddressed);
        }
        self.check_label(install.label)?;
        if install.of > MOST_PIECES {
            return Err(Fault::Full);
        }
        if self.assembly.is_bad(install) {
            return Err(Fault::BadPiece);
        }
        Ok(self.prepare_piece(alloc, install)?)
    }

    /// Prepares to take a record of its group.
    #[inline(always)]
    fn prepare_record(
        &mut self,
        alloc: Global,
        label: Label,
        packet: &SharedRecord,
    ) -> Result<Prepared, Fault>
        ensures step { Answers step_of (take_record (segment_group self.old) (segment_member self.old)
            (node_of self.old) (label_of label) (shared_redo packet.now)) (node_of self.old) result (node_of self.old) }
        ensures ready { IfOk result (λ prepared. CanTake self.new prepared.effect) }
        ensures node { node_of self.new ≡ node_of self.old }
        ensures actor { IsSameActor self.old self.new }
    {
        self.check_label(label)?;
        if self.held.lineage.last_epoch() != label.volume {
            return Err(Fault::NotInstalled);
        }
        let Some(place) = self.held.records.place_for(packet) else {
            let scl = self.held.records.complete_point();
            return Ok(self.acknowledged(label, scl, Effect::Nothing));
        };
        if self.held.records.len() >= MOST_RECORDS {
            return Err(Fault::Full);
        }
        let pending_insert = self.held.prepare(alloc, place, packet)?;
        let scl = pending_insert.chains.point();
        Ok(self.acknowledged(label, scl, Effect::Enter(pending_insert)))
    }

    /// Prepares to take a membership step.
    fn prepare_step(&self, step: &StepTo) -> Result<Prepared, Fault>
        ensures step { Prepares (message_of (Message.StepTo step.now)) self.now result }
        ensures ready { IfOk result (λ prepared. CanTake self.now prepared.effect) }
    {
        if step.group != self.group {
            return Err(Fault::NotAddressed);
        }
        let place = step.place;
        if place.epoch <= self.epoch {
            return Err(Fault::StaleMember);
        }
        if !self
            .plan
            .is_configuration(self.group, place.configuration, place.epoch)
        {
            return Err(Fault::NotInPlan);
        }
        let ask = CopyAsk {
            group: self.group,
            epoch: place.epoch,
        };
        Ok(Prepared {
            answers: if self.whole {
                Messages::Empty
            } else {
                Messages::One(Message::CopyAsk(ask))
            },
            effect: Effect::Move(place),
        })
    }

    /// Returns a record for the other nodes of the group; of several with this LSN, the first in the order of their
    /// bytes. Allocates nothing.
    ///
    /// # Errors
    /// `NotWhole` before the segment is whole, `NotInstalled` if its lineage isn't that of the volume epoch that it has
    /// promised, `NoRecord` if it holds no such record.
    pub fn offer(&self, lsn: u64) -> Result<Carried<'_>, Fault>
        ensures own { IfErr result (λ fault. fault ≢ NoMemory) }
        ensures answers { AnswersAlways offered_step (offered (segment_group self.now) (node_of self.now) lsn)
            (node_of self.now) result (node_of self.now) }
    {
        if !self.whole {
            return Err(Fault::NotWhole);
        }
        if self.volume != self.held.lineage.last_epoch() {
            return Err(Fault::NotInstalled);
        }
        let Some(packet) = self.held.records.record_at(lsn) else {
            return Err(Fault::NoRecord);
        };
        let label = Label {
            volume: self.volume,
            member: self.epoch,
        };
        Ok(Carried {
            group: self.group,
            label,
            packet,
        })
    }

    /// The general case of [`Segment::prepare`], out of line so that the write path keeps a small stack frame.
    #[inline(never)]
    fn prepare_any(&mut self, alloc: Global, message: &Message) -> Result<Prepared, Fault>
        ensures step { Prepares (message_of message.now) self.old result }
        ensures ready { IfOk result (λ prepared. CanTake self.new prepared.effect) }
        ensures node { node_of self.new ≡ node_of self.old }
        ensures actor { IsSameActor self.old self.new }
    {
        match message {
            Message::Fence(fence) => self.fenced(alloc, fence),
            Message::Install(install) => self.installed(alloc, install),
            Message::Write(write) => self.prepare_write(alloc, write),
            Message::Gossip(gossip) if gossip.is_for(self.group) => {
                self.prepare_record(alloc, gossip.label, &gossip.packet)
            }
            Message::StepTo(step) => self.prepare_step(step),
            Message::CopyAsk(ask) => self.prepare_copy(alloc, ask),
            Message::CopyReport(report) => self.prepare_copied(alloc, report),
            Message::PageAsk(ask) => self.prepare_page(alloc, ask),
            _ => Err(Fault::NotAddressed),
        }
    }

    /// Prepares the reaction to a message: finds every refusal, allocates, and computes the answers. The segment is
    /// unchanged. Apply the step before anything else changes the segment.
    ///
    /// # Errors
    /// The first refusal that applies: from `StaleVolume` to `SeriesSpent`, `NotAddressed` for a message that isn't for
    /// this segment, `NotInPlan` for a step that isn't in the plan; else `NoMemory` if memory runs out.
    #[inline(always)]
    pub fn prepare(&mut self, alloc: Global, message: &Message) -> Result<Prepared, Fault>
        ensures step { Prepares (message_of message.now) self.old result }
        ensures ready { IfOk result (λ prepared. IsReady self.new prepared) }
        ensures node { node_of self.new ≡ node_of self.old }
        ensures actor { IsSameActor self.old self.new }
    {
        if let Message::Write(write) = message {
            return self.prepare_write(alloc, write);
        }
        self.prepare_any(alloc, message)
    }

    /// Prepares the reaction to a `Write`, as [`Segment::prepare`] does.
    ///
    /// # Errors
    /// Those of [`Segment::prepare`].
    #[inline(always)]
    pub fn prepare_write(&mut self, alloc: Global, write: &Write) -> Result<Prepared, Fault>
        ensures step { Prepares (message_of (Message.Write write.now)) self.old result }
        ensures ready { IfOk result (λ prepared. IsReady self.new prepared) }
        ensures node { node_of self.new ≡ node_of self.old }
        ensures actor { IsSameActor self.old self.new }
    {
        if !write.is_for(self.group) {
            return Err(Fault::NotAddressed);
        }
        self.prepare_record(alloc, write.label, &write.packet)
    }

    /// Prepares to offer a record, as [`Segment::offer`] does.
    fn prepare_offer(&self, alloc: Global, lsn: u64) -> Result<Prepared, Fault>
        ensures step { Answers step_of (offered (segment_group self.now) (node_of self.now) lsn) (node_of self.now)
            result (node_of self.now) }
        ensures ready { IfOk result (λ prepared. CanTake self.now prepared.effect) }
    {
        let carried = self.offer(lsn)?;
        Ok(Prepared {
            answers: Messages::One(carried.gossip()?),
            effect: Effect::Nothing,
        })
    }

    /// Prepares an action: finds every refusal, allocates, and computes the messages. The segment is unchanged. Apply
    /// the step before anything else changes the segment.
    ///
    /// # Errors
    /// Those of [`Segment::hydrate`] for [`NodeAction::Hydrate`], of [`Segment::offer`] for [`NodeAction::Offer`]; else
    /// `NoMemory` if memory runs out.
    pub fn prepare_action(&self, alloc: Global, action: NodeAction) -> Result<Prepared, Fault>
        ensures step { AnswersAfterGrowth (action_after_growth action) step_of (action_of self.now action)
            (node_of self.now) result (node_of self.now) }
        ensures ready { IfOk result (λ prepared. IsReady self.now prepared) }
    {
        match action {
            NodeAction::Hydrate => self.prepare_hydration(alloc),
            NodeAction::Restart => Ok(Prepared {
                answers: Messages::Empty,
                effect: Effect::Restart,
            }),
            NodeAction::Offer { lsn } => self.prepare_offer(alloc, lsn),
        }
    }

    /// Applies the effect of a step.
    #[inline(always)]
    fn take(&mut self, effect: Effect)
        requires { CanTake self.old effect }
        ensures node { node_of self.new ≡ effected effect (node_of self.old) }
        ensures actor { IsSameActor self.old self.new }
    {
        match effect {
            Effect::Nothing => {}
            Effect::Enter(pending_insert) => self.held.enter(pending_insert),
            Effect::Promise(volume) => self.volume = volume,
            Effect::Move(place) => {
                self.configuration = place.configuration;
                self.epoch = place.epoch;
                self.restart();
            }
            Effect::Count => self.copied += 1,
            Effect::Gather { volume, change } => {
                self.volume = volume;
                self.assembly.apply(Box::into_inner(change));
            }
            Effect::Replace {
                volume,
                lineage,
                records,
            } => {
                self.volume = volume;
                self.held = SegmentState::new(lineage, Box::into_inner(records));
                self.assembly = Assembly::new();
            }
            Effect::Keep(keeping) => self.copies.keep(Box::into_inner(keeping)),
            Effect::Restart => self.restart(),
            Effect::Hydrate {
                volume,
                lineage,
                records,
            } => {
                self.volume = volume;
                self.held = SegmentState::new(lineage, Box::into_inner(records));
                self.whole = true;
            }
        }
    }

    /// Applies a prepared step. Returns its messages. Allocates nothing.
    #[inline(always)]
    pub fn apply(&mut self, prepared: Prepared) -> Messages
        requires { IsReady self.old prepared }
        ensures answers { listed result ≡ answers_of prepared }
        ensures node { node_of self.new ≡ (step_of prepared (node_of self.old)).node }
        ensures actor { IsSameActor self.old self.new }
    {
        let Prepared { answers, effect } = prepared;
        self.take(effect);
        answers
    }

    /// Delivers a message: applies its effect and returns the answers.
    ///
    /// # Errors
    /// Those of [`Segment::prepare`]. The segment is unchanged.
    pub fn deliver(&mut self, alloc: Global, message: &Message) -> Result<Messages, Fault>
        ensures answers { Answers answered (reaction_of self.old (message_of message.now)) (node_of self.old) result
            (node_of self.new) }
        ensures actor { IsSameActor self.old self.new }
    {
        let prepared = self.prepare(alloc, message)?;
        Ok(self.apply(prepared))
    }
}
