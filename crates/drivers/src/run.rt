//! What all threads of a run share.

use crate::assignments::Assignment;
use crate::completion::Completion;
use crate::completion_table::CompletionTable;
use crate::nodes::{Node, receiver};
use node_fleet::{Fleet, FleetSite, Pass, Receipt, StepGate};
use std::sync::Wait;
use volume_model::Fault;
use wire::Messages;
use world::{ActorAction, ClientAction, Event, Order};

/// A gate that does nothing.
struct Open;

impl StepGate for Open {
    fn prepared(&self, _answers: &Messages) {}
}

/// What all threads of a run share.
#[derive(Drop)]
pub struct Run<'f, 'a, L: FleetSite> {
    pub fleet: &'f Fleet<'a, L>,
    pub orders: &'f Vec<Order>,
    /// The assignment of each order.
    pub assignments: &'f Vec<Assignment>,
    pub completions: &'f CompletionTable,
}

impl<'f, 'a, L: FleetSite> Run<'f, 'a, L> {
    /// Returns a copy of these references.
    pub fn again(&self) -> Run<'f, 'a, L> {
        Run {
            fleet: self.fleet,
            orders: self.orders,
            assignments: self.assignments,
            completions: self.completions,
        }
    }

    /// Returns the number of the message that order `index` delivers.
    fn message<R: Wait>(&self, rt: &R, index: usize, order: &Order) -> u64 {
        match order {
            Order::DeliverFrom { event, place, .. } | Order::TakeFrom { event, place, .. } => {
                self.completions.message(rt, index, *event as usize, *place)
            }
            Order::Event(event) => match &**event {
                Event::Deliver { message, .. } => *message,
                _ => 0,
            },
        }
    }

    /// Delivers the message of order `index` to a node, and sets the order's completion.
    pub fn deliver<R: Wait>(&self, rt: &R, pass: &mut Pass<'a, L>, index: usize, node: Node) {
        let Some(order) = self.orders.get(index) else {
            return;
        };
        let message = self.message(rt, index, order);
        let call = self
            .fleet
            .deliver(rt, pass, node.group, node.member, message, &Open);
        self.completions.set(index, Completion::of(call));
    }

    /// Posts order `index` to a node's thread, and waits for its completion. If the plan doesn't name the node, calls
    /// the fleet, which refuses it.
    fn send<R: Wait>(&self, rt: &R, pass: &mut Pass<'a, L>, index: usize, node: Node) {
        let Node { group, member } = node;
        if self.fleet.names(group, member) {
            self.fleet.post(rt, pass, group, member, index as u64);
            let _ = self.completions.wait(rt, index);
        } else {
            self.deliver(rt, pass, index, node);
        }
    }

    /// Returns the index of the oldest order that was posted to a node. Blocks while there is none. Returns `None` at
    /// the closing letter, or if the plan doesn't name the node.
    pub fn collect<R: Wait>(&self, rt: &R, pass: &mut Pass<'a, L>, node: Node) -> Option<usize> {
        let Node { group, member } = node;
        if !self.fleet.names(group, member) {
            return None;
        }
        let letter = self.fleet.collect(rt, pass, group, member)?;
        Some(letter as usize)
    }

    /// Posts the closing letter to each of these nodes.
    pub fn close_all<R: Wait>(&self, rt: &R, pass: &mut Pass<'a, L>, nodes: &[Node]) {
        for node in nodes {
            if self.fleet.names(node.group, node.member) {
                self.fleet.close_mailbox(rt, pass, node.group, node.member);
            }
        }
    }

    /// Makes the step of an event that isn't a delivery.
    ///
    /// # Errors
    /// The actor's refusal; `NoMemory` if memory runs out; `NoMessage` if the event is a delivery.
    fn step<R: Wait>(
        &self,
        rt: &R,
        pass: &mut Pass<'a, L>,
        event: &Event,
    ) -> Result<Receipt, Fault> {
        match event.split() {
            ActorAction::Authority(action) => self.fleet.advance(rt, pass, action),
            ActorAction::Client(volume, action) => self.fleet.client_step(rt, pass, volume, action),
            ActorAction::Node(group, member, action) => {
                self.fleet.node_step(rt, pass, group, member, action)
            }
            ActorAction::Deliver { .. } => Err(Fault::NoMessage),
        }
    }

    /// Follows order `index`, and sets its completion. First waits for the order whose message it names.
    pub fn follow<R: Wait>(&self, rt: &R, pass: &mut Pass<'a, L>, index: usize) {
        let Some(order) = self.orders.get(index) else {
            return;
        };
        let message = self.message(rt, index, order);
        if let Some(node) = receiver(order) {
            self.send(rt, pass, index, node);
            return;
        }
        let call = match order {
            Order::TakeFrom { volume, .. } => {
                let action = ClientAction::Take { message };
                self.fleet.client_step(rt, pass, *volume, action)
            }
            Order::Event(event) => self.step(rt, pass, event),
            Order::DeliverFrom { .. } => return,
        };
        self.completions.set(index, Completion::of(call));
    }
}
