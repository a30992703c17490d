//! Plans.

ghost use Rattle.std.specs.Prelude.{◌≡◌, ◌≢◌, None, Ok, IfOk};
ghost use Rattle.plan.specs.Common.{checked_model, plan_of, plan_fault, plan_data};
ghost use Rattle.volume_c.specs.View.{View, seen};
ghost use Rattle.volume_c.specs.Plans.{ReadsPlan};

use crate::actor::{Actor, Held};
use crate::constructors::hold;
use crate::handle::Handle;
use crate::status::WRONG_HANDLE;
use plan::{CheckedPlan, PlanFault, check_plan, read_plan};
use std::alloc::Global;
use std::sync::Arc;
use volume_model::Fault;

/// Reads and checks the plan of a text.
fn checked(alloc: Global, text: &[u8]) -> Result<CheckedPlan, PlanFault>
    ensures spelled { IfOk result (λ checked. plan_of text.now ≡ Ok (plan_data checked.plan)) }
    ensures faultless { IfOk result (λ checked. plan_fault (plan_data checked.plan) ≡ None) }
{
    let plan = read_plan(alloc, text)?;
    match check_plan(alloc, plan) {
        Ok(plan) => Ok(plan),
        Err(refused) => Err(refused.0),
    }
}

/// Copies as much of a text as fits. Returns the text's length.
fn copy_line(text: &str, line: &mut [u8]) -> usize {
    let bytes = text.as_bytes();
    let count = bytes.len().min(line.len());
    let (front, _) = line.split_at_mut(count);
    front.copy_from_slice(&bytes[..count]);
    bytes.len()
}

/// Writes the line of a fault, as much of it as fits. Returns the fault's number.
fn refuse(alloc: Global, fault: &PlanFault, line: &mut [u8], needed: &mut usize) -> u8
    ensures { result ≢ 0 }
{
    if let Ok(text) = format!(in alloc; "{fault}") {
        *needed = copy_line(text.as_str(), line);
    }
    fault.kind().number()
}

/// Fills an empty handle with a checked plan.
fn hold_plan(alloc: Global, plan: CheckedPlan, out: &mut Handle) -> u8
    requires { out.old.seal.held ≡ None }
    ensures ok { result ≡ 0 → seen out.new.seal.held ≡ View.APlan (checked_model plan) }
    ensures err { result ≢ 0 → out.new.seal.held ≡ out.old.seal.held }
{
    match Arc::new(alloc, plan) {
        Ok(plan) => hold(alloc, Held::of(alloc, Actor::Plan(plan)), out),
        Err(_) => Fault::NoMemory.number(),
    }
}

/// Reads a plan and checks it. `out` must be empty. On success it holds the plan. A plan may be closed as soon as each
/// actor over it was made.
///
/// If the plan has a fault, returns its number (docs/FAULTS.md) and writes to `line` as much as fits of a line with its
/// name and place. `needed` is the length of the whole line.
#[unsafe(no_mangle)]
pub extern "C" fn volume_plan_read(
    alloc: Global,
    text: &[u8],
    out: &mut Handle,
    line: &mut [u8],
    needed: &mut usize,
) -> u8
    ensures { ReadsPlan text.now result out.old.seal.held out.new.seal.held }
{
    *needed = 0;
    if out.is_live() {
        return WRONG_HANDLE;
    }
    match checked(alloc, text) {
        Ok(plan) => hold_plan(alloc, plan, out),
        Err(fault) => refuse(alloc, &fault, line, needed),
    }
}
