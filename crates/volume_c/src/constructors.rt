//! Fills handles.

ghost use Rattle.std.specs.Prelude.{◌≡◌, ◌≢◌, ◌⊎◌, None, Some, IfOk, IfErr};
ghost use Rattle.std.specs.Arc.{arc_value};
ghost use Rattle.plan.specs.Common.{checked_model};
ghost use Rattle.volume_c.specs.declared.actor.Held.{Held};
ghost use Rattle.volume_c.specs.View.{APlan, seen};

use crate::actor::{Actor, Held};
use crate::handle::Handle;
use crate::status::WRONG_HANDLE;
use plan::CheckedPlan;
use std::alloc::Global;
use std::sync::Arc;
use volume_model::Fault;

/// Fills an empty handle. Fails only with the number of `NoMemory`.
pub fn hold(alloc: Global, held: Held, out: &mut Handle) -> u8
    requires { out.old.seal.held ≡ None }
    ensures ok { result ≡ 0 → out.new.seal.held ≡ Some held }
    ensures err { result ≢ 0 → (result ≡ 9) × (out.new.seal.held ≡ out.old.seal.held) }
{
    match Box::new(alloc, held) {
        Ok(room) => {
            out.put(room);
            0
        }
        Err(_) => Fault::NoMemory.number(),
    }
}

/// Returns the plan of what is held, or a status.
fn plan_of_held(held: &Held) -> Result<Arc<CheckedPlan>, u8>
    ensures plan { IfOk result (λ plan. seen (Some held.now) ≡ APlan (checked_model (arc_value plan))) }
    ensures err { IfErr result (λ status. (status ≡ 90) ⊎ (status ≡ 9)) }
{
    match &held.actor {
        Actor::Plan(plan) => match plan.clone() {
            Ok(plan) => Ok(plan),
            Err(_) => Err(Fault::NoMemory.number()),
        },
        _ => Err(WRONG_HANDLE),
    }
}

/// Returns the plan of a handle, or a status: that of a wrong handle, or of `NoMemory`.
pub fn plan_in(alloc: Global, handle: &mut Handle) -> Result<Arc<CheckedPlan>, u8>
    ensures same { handle.new.seal.held ≡ handle.old.seal.held }
    ensures plan { IfOk result (λ plan. seen handle.old.seal.held ≡ APlan (checked_model (arc_value plan))) }
    ensures err { IfErr result (λ status. (status ≡ 90) ⊎ (status ≡ 9)) }
{
    let Some(held) = handle.take(alloc) else {
        return Err(WRONG_HANDLE);
    };
    let plan = plan_of_held(&held);
    handle.put(held);
    plan
}
