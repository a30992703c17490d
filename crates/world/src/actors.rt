//! All actors, and all messages ever made.

use crate::actions::{ActorAction, AuthorityAction, ClientAction};
use crate::client::Client;
use crate::clients::keep;
use crate::event::Event;
use crate::nodes::{all_born, slot};
use crate::numbering::enter;
use crate::{authority_step, birth, client_step, node_step};
use epochs::Authority;
use plan::CheckedPlan;
use segment_core::{NodeAction, Segment};
use std::alloc::{AllocError, Global};
use std::sync::Arc;
use volume_model::Fault;
use wire::Message;

/// All actors, and all messages ever made, oldest first.
#[derive(Drop)]
pub struct Actors {
    pub(crate) plan: Arc<CheckedPlan>,
    pub(crate) authority: Authority,
    pub(crate) nodes: Vec<Option<Segment>>,
    /// The client of each volume epoch at its place; none until the client takes a View. The authority assigns volume
    /// epochs one by one, from 1 on, and a client is born only of a View of its own epoch. So the table has at most two
    /// more places than there were events.
    pub(crate) clients: Vec<Option<Box<Client>>>,
    messages: Vec<Message>,
}

impl Actors {
    ghost use Rattle.std.specs.Prelude.{◌≡◌, IfOk, IfErr, length, None};
    ghost use Rattle.std.specs.Arc.{arc_value};
    ghost use Rattle.volume_model.specs.declared.fault.Fault.TheVariants.{NoMemory};
    ghost use Rattle.volume_model.specs.Common.{unborn, groups_joined, if_there, of_authority, of_client, of_node, opening, step, never_after_growth};
    ghost use Rattle.volume_model.specs.World as model;
    ghost use Rattle.plan.specs.Common.{checked_model};
    ghost use Rattle.world.specs.Actors.{event_after_growth, plan_of, world_of, messages_in, AreActors, Steps};
    ghost use Rattle.segment_core.specs.Actions.{acted, action_after_growth};
    ghost use Rattle.world.specs.Actions.{authority_acted, client_after_growth, client_does};
    ghost use Rattle.world.specs.Clients.{client_in};
    ghost use Rattle.world.specs.Events.{event_of};

    /// Makes all actors as they are before any event.
    pub fn open(alloc: Global, plan: &Arc<CheckedPlan>) -> Result<Actors, Fault>
        ensures world { IfOk result (λ a. world_of a ≡ opening (checked_model (arc_value plan.now))) }
        ensures plan { IfOk result (λ a. plan_of a ≡ checked_model (arc_value plan.now)) }
        ensures good { IfOk result AreActors }
        ensures memory { IfErr result (λ e. e ≡ NoMemory) }
    {
        let first = Client::first(alloc, plan.clone()?)?;
        let mut clients = Vec::new(alloc);
        keep(&mut clients, 1, Box::new(alloc, first)?)?;
        Ok(Actors {
            plan: plan.clone()?,
            authority: Authority::new(alloc, plan.clone()?)?,
            nodes: all_born(alloc, plan)?,
            clients,
            messages: Vec::new(alloc),
        })
    }

    /// Performs an action of the authority.
    fn authority_step(&mut self, alloc: Global, action: AuthorityAction) -> Result<u64, Fault>
        requires { AreActors self.old }
        ensures steps { Steps never_after_growth (of_authority (world_of self.old) (authority_acted (plan_of self.old)
            (world_of self.old).authority action)) (world_of self.old) result (world_of self.new) }
        ensures good { AreActors self.new }
        ensures plan { plan_of self.new ≡ plan_of self.old }
    {
        authority_step::act(alloc, &mut self.authority, &mut self.messages, action)
    }

    /// Performs a node's action. `NoActor` if its group hasn't joined, or the plan doesn't name the member.
    fn node_step(
        &mut self,
        alloc: Global,
        group: u8,
        member: u8,
        action: NodeAction,
    ) -> Result<u64, Fault>
        requires { AreActors self.old }
        ensures steps { Steps (action_after_growth action) (of_node (world_of self.old) group member
            (if_there (plan_of self.old) (groups_joined (world_of self.old).authority) group member
            (acted action (plan_of self.old) group member ((world_of self.old).nodes group member))))
            (world_of self.old) result (world_of self.new) }
        ensures good { AreActors self.new }
        ensures plan { plan_of self.new ≡ plan_of self.old }
    {
        if group >= self.authority.joined() {
            return Err(Fault::NoActor);
        }
        let Some(slot) = slot(self.nodes.len(), group, member) else {
            return Err(Fault::NoActor);
        };
        match &mut self.nodes[slot] {
            None => Err(Fault::NoActor),
            Some(segment) => node_step::act(alloc, segment, &mut self.messages, action),
        }
    }

    /// Delivers the message with this number to a node. `NoActor` if its group hasn't joined, or the plan doesn't name
    /// the member.
    pub(crate) fn deliver(
        &mut self,
        alloc: Global,
        group: u8,
        member: u8,
        message: u64,
    ) -> Result<u64, Fault>
        requires { AreActors self.old }
        ensures steps { Steps never_after_growth (step (plan_of self.old) (world_of self.old)
            (model.Event.Deliver group member message)) (world_of self.old) result (world_of self.new) }
        ensures good { AreActors self.new }
        ensures plan { plan_of self.new ≡ plan_of self.old }
    {
        if group >= self.authority.joined() {
            return Err(Fault::NoActor);
        }
        let Some(slot) = slot(self.nodes.len(), group, member) else {
            return Err(Fault::NoActor);
        };
        match &mut self.nodes[slot] {
            None => Err(Fault::NoActor),
            Some(segment) => node_step::deliver(alloc, segment, &mut self.messages, message),
        }
    }

    /// Performs a client's action. An unborn client is refused as `NoActor` unless it takes a View.
    fn client_step(
        &mut self,
        alloc: Global,
        volume: u32,
        action: ClientAction<'_>,
    ) -> Result<u64, Fault>
        requires { AreActors self.old }
        ensures steps { Steps (client_after_growth action.entry) (of_client (world_of self.old) volume
            (client_does (messages_in self.old) action.entry (plan_of self.old) volume
            ((world_of self.old).clients volume))) (world_of self.old) result (world_of self.new) }
        ensures good { AreActors self.new }
        ensures plan { plan_of self.new ≡ plan_of self.old }
    {
        let place = volume as usize;
        if place >= self.clients.len() {
            return self.absent_step(alloc, volume, action);
        }
        match &mut self.clients[place] {
            None => self.absent_step(alloc, volume, action),
            Some(client) => client_step::act(alloc, client, &mut self.messages, action),
        }
    }

    /// Performs an action of an unborn client: a View makes it a recovery, anything else is refused.
    fn absent_step(
        &mut self,
        alloc: Global,
        volume: u32,
        action: ClientAction<'_>,
    ) -> Result<u64, Fault>
        requires actors { AreActors self.old }
        requires absent { client_in self.old.clients.items volume ≡ None }
        ensures steps { Steps (client_after_growth action.entry) (of_client (world_of self.old) volume
            (client_does (messages_in self.old) action.entry (plan_of self.old) volume unborn)) (world_of self.old)
            result (world_of self.new) }
        ensures good { AreActors self.new }
        ensures plan { plan_of self.new ≡ plan_of self.old }
    {
        let found = client_step::named(action, self.messages.as_slice());
        birth::admits(&self.plan, volume, action, found)?;
        let mut client = Client::unborn(self.plan.clone()?, volume);
        let made = client.act(alloc, action, found)?;
        self.messages.reserve(made.len())?;
        keep(&mut self.clients, volume, Box::new(alloc, client)?)?;
        Ok(enter(&mut self.messages, made))
    }

    /// Lets a client take the message with this number.
    #[inline(always)]
    pub(crate) fn take(&mut self, alloc: Global, volume: u32, message: u64) -> Result<u64, Fault>
        requires { AreActors self.old }
        ensures steps { Steps never_after_growth (step (plan_of self.old) (world_of self.old)
            (model.Event.Take volume message)) (world_of self.old) result (world_of self.new) }
        ensures good { AreActors self.new }
        ensures plan { plan_of self.new ≡ plan_of self.old }
    {
        self.client_step(alloc, volume, ClientAction::Take { message })
    }

    /// Performs an event. Returns the number of messages that it made, or its refusal; then nothing has changed.
    pub fn step(&mut self, alloc: Global, event: &Event) -> Result<u64, Fault>
        requires { AreActors self.old }
        ensures steps { Steps (event_after_growth (event_of event.now)) (step (plan_of self.old) (world_of self.old)
            (event_of event.now)) (world_of self.old) result (world_of self.new) }
        ensures good { AreActors self.new }
        ensures plan { plan_of self.new ≡ plan_of self.old }
    {
        match event.split() {
            ActorAction::Authority(action) => self.authority_step(alloc, action),
            ActorAction::Client(volume, action) => self.client_step(alloc, volume, action),
            ActorAction::Node(group, member, action) => {
                self.node_step(alloc, group, member, action)
            }
            ActorAction::Deliver {
                group,
                member,
                message,
            } => self.deliver(alloc, group, member, message),
        }
    }

    /// Reserves room for this many more messages.
    ///
    /// # Errors
    /// `AllocError` if memory runs out. Nothing has changed.
    pub(crate) fn reserve(&mut self, messages: usize) -> Result<(), AllocError>
        ensures world { world_of self.new ≡ world_of self.old }
        ensures good { AreActors self.old → AreActors self.new }
        ensures plan { plan_of self.new ≡ plan_of self.old }
    {
        self.messages.reserve(messages)
    }

    /// Returns the number of messages made so far.
    pub fn made(&self) -> u64
        ensures { result ≡ length (messages_in self.now) }
    {
        self.messages.len() as u64
    }
}
