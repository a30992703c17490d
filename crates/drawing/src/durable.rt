//! The events at which a writer's durable point grows.

use crate::actor::Actor;
use crate::run_rows::Row;
use plan::CheckedPlan;
use std::alloc::{AllocError, Global};
use std::sync::Arc;
use volume_model::Fault;
use world::{Event, Order, Outcome, WriterOutcome, run, run_orders};

/// Returns a copy of an order.
fn copy_of(alloc: Global, order: &Order) -> Result<Order, AllocError> {
    Ok(match order {
        Order::Event(event) => {
            let event: &Event = event;
            Order::Event(Box::new(alloc, event.clone()?)?)
        }
        Order::DeliverFrom {
            group,
            member,
            event,
            place,
        } => Order::DeliverFrom {
            group: *group,
            member: *member,
            event: *event,
            place: *place,
        },
        Order::TakeFrom {
            volume,
            event,
            place,
        } => Order::TakeFrom {
            volume: *volume,
            event: *event,
            place: *place,
        },
    })
}

/// Returns the durable point of a writer.
fn point_of(writers: &[WriterOutcome], volume: u32) -> u64 {
    let writer = writers.iter().find(|writer| writer.volume == volume);
    writer.map_or(0, |writer| writer.durable)
}

/// Returns the durable point of a writer before a row, as far as rows show it.
fn known_point(rows: &[Row], volume: u32) -> u64 {
    let mut known = 0u64;
    for row in rows {
        if let Some(point) = row.durable
            && row.actor == Actor::Client(volume)
        {
            known = point;
        }
    }
    known
}

/// Returns the outcome of a run of orders.
pub(crate) fn outcome_of(
    alloc: Global,
    plan: &Arc<CheckedPlan>,
    orders: &[Order],
) -> Result<Outcome, Fault> {
    let mut copies = Vec::new(alloc);
    for order in orders {
        copies.push(copy_of(alloc, order)?)?;
    }
    run_orders(alloc, plan, copies)
}

/// Notes in each row of a run whether its writer's durable point has grown. Runs the events again up to each row at
/// which it may have.
pub(crate) fn note_growth(
    alloc: Global,
    plan: &Arc<CheckedPlan>,
    events: &[Event],
    rows: &mut [Row],
) -> Result<(), Fault> {
    for place in 0..rows.len() {
        if let Actor::Client(volume) = rows[place].actor
            && rows[place].may_commit
        {
            let (begun, _) = events.split_at(events.len().min(place + 1));
            let outcome = run(alloc, plan, begun)?;
            let point = point_of(outcome.writers.as_slice(), volume);
            if point > known_point(rows, volume) {
                rows[place].durable = Some(point);
            }
        }
    }
    Ok(())
}
