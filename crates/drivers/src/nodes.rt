//! The nodes that a script delivers to.

use plan::CheckedPlan;
use std::alloc::{AllocError, Global};
use world::{Event, MEMBERS, Order};

/// A member of a group.
#[derive(Clone, Copy)]
pub struct Node {
    pub group: u8,
    pub member: u8,
}

/// Returns the node that an order delivers to.
pub fn receiver(order: &Order) -> Option<Node> {
    let (group, member) = match order {
        Order::DeliverFrom { group, member, .. } => (*group, *member),
        Order::Event(event) => match &**event {
            Event::Deliver { group, member, .. } => (*group, *member),
            _ => return None,
        },
        Order::TakeFrom { .. } => return None,
    };
    Some(Node { group, member })
}

/// Returns for each member of each group (64 a group) whether an order delivers to it.
fn marks(alloc: Global, groups: u8, orders: &[Order]) -> Result<Vec<bool>, AllocError> {
    let mut marks = vec![in alloc; false; usize::from(groups) * MEMBERS]?;
    for order in orders {
        if let Some(node) = receiver(order) {
            let place = usize::from(node.group) * MEMBERS + usize::from(node.member);
            if let Some(mark) = marks.get_mut(place) {
                *mark = true;
            }
        }
    }
    Ok(marks)
}

/// Returns the nodes that the plan names and these orders deliver to, each once.
///
/// # Errors
/// `AllocError` if memory runs out.
pub fn receivers(
    alloc: Global,
    plan: &CheckedPlan,
    orders: &[Order],
) -> Result<Vec<Node>, AllocError> {
    let marks = marks(alloc, plan.groups(), orders)?;
    let mut nodes = Vec::new(alloc);
    for (place, marked) in marks.iter().enumerate() {
        let group = u8::try_from(place / MEMBERS).unwrap_or(0);
        let member = (place % MEMBERS) as u8;
        if *marked && plan.names(group, member) {
            nodes.push(Node { group, member })?;
        }
    }
    Ok(nodes)
}
