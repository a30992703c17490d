//! A client of the volume.

use crate::actions::ClientAction;
use crate::{birth, recovering, writing};
use plan::CheckedPlan;
use recovery::Recovery;
use redo_record::MOST_IN_PIECE;
use std::alloc::Global;
use std::mem;
use std::sync::Arc;
use volume_model::{Fault, steps_are_few};
use wire::{Message, Messages};
use writer_core::Writer;

/// The stage of a client.
#[derive(Drop)]
pub enum ClientState {
    /// It has taken no View.
    Unborn,
    /// It is a recovery.
    Recovery(Recovery),
    /// It is an open writer.
    Writer(Writer),
}

/// The client of a volume epoch over a plan: unborn, then a recovery, and then the writer that the recovery becomes.
#[derive(Drop)]
pub struct Client {
    /// The plan over which it is born.
    plan: Arc<CheckedPlan>,
    /// The volume epoch with which it is born.
    volume: u32,
    pub(crate) state: ClientState,
}

impl Client {
    ghost use Rattle.std.specs.Prelude.{◌≡◌, IfOk, Ok};
    ghost use Rattle.std.specs.Arc.{arc_value};
    ghost use Rattle.volume_model.specs.Common.{never_after_growth, refusal_of, AnswersAfterGrowth, AnswersAlways, AnswersNew, first_writer, unborn, taken, cut_client, opened, Few};
    ghost use Rattle.volume_model.specs.Message as model;
    ghost use Rattle.plan.specs.Common.{checked_model};
    ghost use Rattle.writer_core.specs.Writers.{answered};
    ghost use Rattle.recovery.specs.Recoveries.{admitted};
    ghost use Rattle.world.specs.Actions.{client_acted, client_after_growth, message_found, ButForCut, OfOpening};
    ghost use Rattle.world.specs.Clients.{client_plan, client_volume, seen_client, seen_state, IsClientOf, IsSameClient};

    /// Makes the unborn client of a volume epoch.
    pub fn unborn(plan: Arc<CheckedPlan>, volume: u32) -> Client
        ensures client { seen_client result ≡ unborn }
        ensures own { IsClientOf (checked_model (arc_value plan)) volume result }
    {
        Client {
            plan,
            volume,
            state: ClientState::Unborn,
        }
    }

    /// Makes the client of volume epoch 1, which is the writer with which a volume is born. Fails only with `NoMemory`.
    pub fn first(alloc: Global, plan: Arc<CheckedPlan>) -> Result<Client, Fault>
        ensures client { AnswersNew seen_client (Ok (first_writer (checked_model (arc_value plan)))) result }
        ensures own { IfOk result (IsClientOf (checked_model (arc_value plan)) 1) }
    {
        let writer = Writer::first(alloc, plan.clone()?)?;
        Ok(Client {
            plan,
            volume: 1,
            state: ClientState::Writer(writer),
        })
    }

    /// Returns the stage of the client.
    pub fn state(&self) -> &ClientState
        ensures { seen_state result.now ≡ seen_client self.now }
    {
        &self.state
    }

    /// Returns the client's volume epoch.
    pub fn volume(&self) -> u32
        ensures { result ≡ client_volume self.now }
    {
        match &self.state {
            ClientState::Unborn => self.volume,
            ClientState::Recovery(recovery) => recovery.volume(),
            ClientState::Writer(writer) => writer.volume(),
        }
    }

    /// Returns the number of groups of its volume.
    pub fn groups(&self) -> u8
        ensures { result ≡ (client_plan self.now).groups }
    {
        match &self.state {
            ClientState::Unborn => self.plan.groups(),
            ClientState::Recovery(recovery) => recovery.groups(),
            ClientState::Writer(writer) => writer.groups(),
        }
    }

    /// Returns the most messages that taking a message makes: one a group, and one for each 256 records of the log
    /// found.
    pub(crate) fn most_taken(&self) -> usize
        ensures { (message : model.Message) → Few result (taken (client_plan self.now) (client_volume self.now)
            (seen_client self.now) message) }
    {
        steps_are_few();
        match &self.state {
            ClientState::Unborn => usize::from(self.plan.groups()),
            ClientState::Recovery(recovery) => {
                usize::from(recovery.groups()) + recovery.found_len() / MOST_IN_PIECE
            }
            ClientState::Writer(writer) => {
                usize::from(writer.groups()) + writer.found().len() / MOST_IN_PIECE
            }
        }
    }

    /// Returns the most messages that its cut makes: one a group, and one for each 256 records of its reports.
    pub(crate) fn most_cut(&self) -> usize
        ensures { Few result (cut_client (client_plan self.now) (client_volume self.now) (seen_client self.now)) }
    {
        steps_are_few();
        match &self.state {
            ClientState::Unborn => 0,
            ClientState::Recovery(recovery) => {
                usize::from(recovery.groups()) + recovery.reported() / MOST_IN_PIECE
            }
            ClientState::Writer(_) => 0,
        }
    }

    /// Returns the refusal of [`Client::act`], if any, without acting. `found` is the message that was looked up for
    /// `Take`. Only `Cut` allocates, since its refusal depends on the log found.
    ///
    /// # Errors
    /// `NoMessage` if the message wasn't found. An unborn client: `NotAddressed` for a message that isn't for it,
    /// `NotInPlan` for a View with places that aren't the plan's, `NoActor` for all but a View. A recovery:
    /// `NotAddressed` and `NotInPlan` for messages; `NotOpen` for the actions of writers; for `Cut` `AlreadyDone`,
    /// `NotReady` until the reports are a read quorum of each group, or `LsnSpent`; for `Open` `NotReady` until a write
    /// quorum of each group has acknowledged the install. A writer: `AlreadyDone` for `Cut` and `Open`, else those of
    /// [`Writer`].
    pub fn admits(
        &self,
        alloc: Global,
        action: ClientAction<'_>,
        found: Option<&Message>,
    ) -> Result<(), Fault>
        ensures answers { AnswersAfterGrowth (client_after_growth action.entry) admitted
            (refusal_of (client_acted (message_found found.entry) action.entry (client_plan self.now)
            (client_volume self.now) (seen_client self.now))) tt result tt }
        ensures sure { ButForCut action.entry (result ≡ refusal_of (client_acted (message_found found.entry)
            action.entry (client_plan self.now) (client_volume self.now) (seen_client self.now))) }
    {
        match &self.state {
            ClientState::Unborn => birth::admits(&self.plan, self.volume, action, found),
            ClientState::Recovery(recovery) => recovering::admits(alloc, recovery, action, found),
            ClientState::Writer(writer) => writing::admits(writer, action, found),
        }
    }

    /// Performs an action. Returns its messages. `found` is the message that was looked up for `Take`. `Open` turns the
    /// recovery into a writer. On error the client is unchanged.
    ///
    /// # Errors
    /// Those of [`Client::admits`]; `NoMemory` if memory runs out, except for `Open`, which allocates nothing.
    #[inline(always)]
    pub fn act(
        &mut self,
        alloc: Global,
        action: ClientAction<'_>,
        found: Option<&Message>,
    ) -> Result<Messages, Fault>
        ensures answers { AnswersAfterGrowth (client_after_growth action.entry) answered
            (client_acted (message_found found.entry) action.entry (client_plan self.old) (client_volume self.old)
            (seen_client self.old)) (seen_client self.old) result (seen_client self.new) }
        ensures always { OfOpening action.entry (AnswersAlways answered (opened (client_plan self.old)
            (seen_client self.old)) (seen_client self.old) result (seen_client self.new)) }
        ensures same { IsSameClient self.old self.new }
    {
        if let ClientState::Writer(writer) = &mut self.state {
            return writing::act(alloc, writer, action, found);
        }
        self.act_early(alloc, action, found)
    }

    /// Performs an action of a client that isn't a writer yet. Out of line, since recoveries take much more stack than
    /// writers.
    #[inline(never)]
    fn act_early(
        &mut self,
        alloc: Global,
        action: ClientAction<'_>,
        found: Option<&Message>,
    ) -> Result<Messages, Fault>
        ensures answers { AnswersAfterGrowth (client_after_growth action.entry) answered
            (client_acted (message_found found.entry) action.entry (client_plan self.old) (client_volume self.old)
            (seen_client self.old)) (seen_client self.old) result (seen_client self.new) }
        ensures always { OfOpening action.entry (AnswersAlways answered (opened (client_plan self.old)
            (seen_client self.old)) (seen_client self.old) result (seen_client self.new)) }
        ensures same { IsSameClient self.old self.new }
    {
        if let ClientAction::Open = action {
            return self.open();
        }
        match &mut self.state {
            ClientState::Unborn => match birth::act(alloc, &self.plan, self.volume, action, found) {
                Ok((recovery, made)) => {
                    self.state = ClientState::Recovery(recovery);
                    Ok(Messages::of(made))
                }
                Err(fault) => Err(fault),
            },
            ClientState::Recovery(recovery) => {
                match recovering::act(alloc, recovery, action, found) {
                    Ok(made) => Ok(Messages::of(made)),
                    Err(fault) => Err(fault),
                }
            }
            ClientState::Writer(writer) => writing::act(alloc, writer, action, found),
        }
    }

    /// Turns the recovery into a writer. Allocates nothing, and makes no message.
    fn open(&mut self) -> Result<Messages, Fault>
        ensures answers { AnswersAfterGrowth never_after_growth answered
            (opened (client_plan self.old) (seen_client self.old)) (seen_client self.old) result
            (seen_client self.new) }
        ensures always { AnswersAlways answered (opened (client_plan self.old) (seen_client self.old))
            (seen_client self.old) result (seen_client self.new) }
        ensures same { IsSameClient self.old self.new }
    {
        match mem::replace(&mut self.state, ClientState::Unborn) {
            ClientState::Unborn => Err(Fault::NoActor),
            ClientState::Recovery(recovery) => match recovery.open() {
                Ok(writer) => {
                    self.state = ClientState::Writer(writer);
                    Ok(Messages::Empty)
                }
                Err((fault, recovery)) => {
                    self.state = ClientState::Recovery(recovery);
                    Err(fault)
                }
            },
            ClientState::Writer(writer) => {
                self.state = ClientState::Writer(writer);
                Err(Fault::AlreadyDone)
            }
        }
    }
}
