//! Runs of events.

ghost use Rattle.std.specs.Prelude.{◌≡◌, ◌≢◌, IfOk, IfErr};
ghost use Rattle.std.specs.Arc.{arc_value};
ghost use Rattle.volume_model.specs.declared.fault.Fault.TheVariants.{NoMemory};
ghost use Rattle.plan.specs.Common.{checked_model};
ghost use Rattle.world.specs.Events.{events_of, ordered_events};
ghost use Rattle.world.specs.Outcomes.{KeepsPromises, KeepsReturned, PromisesRuns, IsOutcomeOfRun};

use crate::actors::Actors;
use crate::event::{Event, Order};
use crate::orders::follow;
use crate::outcome::Outcome;
use crate::progress::volumes_go_on;
use plan::CheckedPlan;
use std::alloc::Global;
use std::sync::Arc;
use volume_model::{
    Fault, acknowledgements_last, finds_last, one_lineage_an_epoch, opens_at_its_cut,
    pages_are_true, runs_are_orderly, volume_keeps_commits,
};
use writer_core::MOST_CHANGES;

/// Returns a number of messages as a `u32`. Reports a greater one as out of memory: so many messages wouldn't fit.
fn count_of(messages: u64) -> Result<u32, Fault>
    ensures same { IfOk result (λ count. count ≡ messages) }
    ensures memory { IfErr result (λ e. e ≡ NoMemory) }
{
    if messages > u64::from(u32::MAX) {
        return Err(Fault::NoMemory);
    }
    Ok(messages as u32)
}

/// Returns the result of an event. Running out of memory ends the run.
fn event_result(step: Result<u64, Fault>) -> Result<Result<u32, Fault>, Fault>
    ensures same { IfOk result (λ event_result. event_result ≡ step) }
    ensures some { IfOk result (λ event_result. event_result ≢ Err NoMemory) }
    ensures memory { IfErr result (λ e. e ≡ NoMemory) }
{
    match step {
        Ok(made) => Ok(Ok(count_of(made)?)),
        Err(Fault::NoMemory) => Err(Fault::NoMemory),
        Err(fault) => Ok(Err(fault)),
    }
}

/// Proves every promise of the volume for the runs of all lists of events over the plan. It does nothing.
pub fn promised(plan: &CheckedPlan)
    ensures { PromisesRuns (checked_model plan.now) }
{
    plan.certified();
    volume_keeps_commits();
    pages_are_true();
    acknowledgements_last();
    finds_last();
    one_lineage_an_epoch();
    opens_at_its_cut();
    runs_are_orderly();
    volumes_go_on(plan);
}

/// Returns the number of messages that an event usually makes.
fn usual_messages(event: &Event) -> usize {
    match event {
        Event::Issue { changes, .. } if changes.len() <= MOST_CHANGES => changes.len(),
        _ => 1,
    }
}

/// Performs events one after the other. Returns the outcome.
fn outcome_of(alloc: Global, plan: &Arc<CheckedPlan>, events: &[Event]) -> Result<Outcome, Fault>
    ensures is_run { IfOk result (IsOutcomeOfRun (checked_model (arc_value plan.now)) (events_of events.now)) }
    ensures memory { IfErr result (λ e. e ≡ NoMemory) }
{
    let mut actors = Actors::open(alloc, plan)?;
    actors.reserve(events.len())?;
    let mut results = Vec::with_capacity(alloc, events.len())?;
    for event in events {
        let result = event_result(actors.step(alloc, event))?;
        results.push(result)?;
    }
    Ok(Outcome::of(alloc, results, actors)?)
}

/// Returns the number of messages that orders usually make together.
fn usual_messages_of(orders: &[Order]) -> usize {
    let mut count = 0usize;
    for order in orders {
        let made = match order {
            Order::Event(event) => usual_messages(event),
            _ => 1,
        };
        count = count.saturating_add(made);
    }
    count
}

/// Performs orders one after the other. Returns the outcome. Frees each order's memory once it was performed.
fn outcome_of_orders(
    alloc: Global,
    plan: &Arc<CheckedPlan>,
    orders: Vec<Order>,
) -> Result<Outcome, Fault>
    ensures is_run { IfOk result (IsOutcomeOfRun (checked_model (arc_value plan.now))
        (ordered_events (checked_model (arc_value plan.now)) orders.items)) }
    ensures memory { IfErr result (λ e. e ≡ NoMemory) }
{
    let mut actors = Actors::open(alloc, plan)?;
    actors.reserve(usual_messages_of(orders.as_slice()))?;
    let mut firsts = Vec::with_capacity(alloc, orders.len())?;
    let mut results = Vec::with_capacity(alloc, orders.len())?;
    for order in orders {
        let made = count_of(actors.made())?;
        let step = follow(
            alloc,
            &mut actors,
            order,
            firsts.as_slice(),
            results.as_slice(),
        );
        let result = event_result(step)?;
        firsts.push(made)?;
        results.push(result)?;
    }
    Ok(Outcome::of(alloc, results, actors)?)
}

/// Runs events one after the other over a new volume of a checked plan. A refused event changes nothing.
///
/// # Errors
/// `NoMemory` ends the run.
pub fn run(alloc: Global, plan: &Arc<CheckedPlan>, events: &[Event]) -> Result<Outcome, Fault>
    // The outcome is that of the model's run.
    ensures is_run { IfOk result (IsOutcomeOfRun (checked_model (arc_value plan.now)) (events_of events.now)) }

    // For any events: each commit that a returned writer has acknowledged, and the whole log before it, is in the log
    // found by each returned recovery of a later volume epoch, and no two different records are acknowledged under one
    // LSN.
    ensures returned { IfOk result KeepsReturned }

    // The same holds for all clients in the world of the run, and so does every other promise of the volume.
    ensures promises { KeepsPromises (checked_model (arc_value plan.now)) (events_of events.now) }
    ensures memory { IfErr result (λ e. e ≡ NoMemory) }
{
    promised(plan);
    outcome_of(alloc, plan, events)
}

/// Runs orders, which may name a message by the event that made it, as [`run`] runs events. Frees each order's memory
/// once it was performed.
///
/// # Errors
/// `NoMemory` ends the run.
pub fn run_orders(
    alloc: Global,
    plan: &Arc<CheckedPlan>,
    orders: Vec<Order>,
) -> Result<Outcome, Fault>
    ensures is_run { IfOk result (IsOutcomeOfRun (checked_model (arc_value plan.now))
        (ordered_events (checked_model (arc_value plan.now)) orders.items)) }
    ensures returned { IfOk result KeepsReturned }
    ensures promises { KeepsPromises (checked_model (arc_value plan.now))
        (ordered_events (checked_model (arc_value plan.now)) orders.items) }
    ensures memory { IfErr result (λ e. e ≡ NoMemory) }
{
    promised(plan);
    outcome_of_orders(alloc, plan, orders)
}
