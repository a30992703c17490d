//! Orders: events that may name a message by the event that made it.

ghost use Rattle.std.specs.Prelude.{◌≡◌};
ghost use Rattle.volume_model.specs.Common.{step};
ghost use Rattle.world.specs.Actors.{event_after_growth, plan_of, world_of, AreActors, Steps};
ghost use Rattle.world.specs.Events.{made_by, firsts_of, number_from, ordered};

use crate::actors::Actors;
use crate::event::Order;
use std::alloc::Global;
use volume_model::Fault;

/// Returns the number of messages that an event made, 0 if it was refused.
fn made_by(event_result: &Result<u32, Fault>) -> u32
    ensures { result ≡ made_by event_result.now }
{
    match event_result {
        Ok(made) => *made,
        Err(_) => 0,
    }
}

/// Returns the number of the `place`-th message (from 1) that an event made, or 0, which no message has, if it made
/// fewer. `firsts` has the number of messages made before each event.
fn number_of(firsts: &[u32], results: &[Result<u32, Fault>], event: usize, place: u64) -> u64
    requires { firsts.now ≡ firsts_of 0 results.now }
    ensures { result ≡ number_from 0 results.now event place }
{
    if event >= results.len() {
        return 0;
    }
    let made = u64::from(made_by(&results[event]));
    if place == 0 || place > made {
        return 0;
    }
    u64::from(firsts[event]) + place
}

/// Performs the event of an order, after these results. Frees the order's memory.
pub fn follow(
    alloc: Global,
    actors: &mut Actors,
    order: Order,
    firsts: &[u32],
    results: &[Result<u32, Fault>],
) -> Result<u64, Fault>
    requires actors { AreActors actors.old }
    requires firsts { firsts.now ≡ firsts_of 0 results.now }
    ensures steps { Steps (event_after_growth (ordered results.now order))
        (step (plan_of actors.old) (world_of actors.old) (ordered results.now order)) (world_of actors.old) result
        (world_of actors.new) }
    ensures good { AreActors actors.new }
    ensures plan { plan_of actors.new ≡ plan_of actors.old }
{
    match order {
        Order::Event(event) => actors.step(alloc, &event),
        Order::DeliverFrom {
            group,
            member,
            event,
            place,
        } => {
            let message = number_of(firsts, results, event as usize, place);
            actors.deliver(alloc, group, member, message)
        }
        Order::TakeFrom {
            volume,
            event,
            place,
        } => {
            let message = number_of(firsts, results, event as usize, place);
            actors.take(alloc, volume, message)
        }
    }
}
