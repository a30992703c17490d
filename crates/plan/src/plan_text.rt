//! Reads plans from text, and writes them.

ghost use Rattle.std.specs.Prelude.{◌≡◌, IfErr, IfOk, length, map, option_map};
ghost use Rattle.volume_model.specs.declared.fault.Fault.TheVariants.{NoMemory};
ghost use Rattle.refutation.specs.Common.{certificate_rule};
ghost use Rattle.plan.specs.Plan.{plan_data};
ghost use Rattle.plan.specs.FaultKinds.{kind_of};
ghost use Rattle.plan.specs.Kept.{KeepsValues};
ghost use Rattle.plan.specs.PlanText.{Reads, IsWithinSize, plan_of};
ghost use Rattle.plan.specs.Written.{rewritten, HasPlaces, Writes, IsCompact};

use crate::configurations::Plan;
use crate::fault::PlanFault;
use crate::listing::claims;
use crate::taped::TapedPlan;
use json::Scratch;
use refutation::Certificate;
use std::alloc::Global;

/// Reads the plan of a text.
///
/// # Errors
/// The first fault in reading order: the text's size, its JSON, the keys and the format, `lal`, the number of groups,
/// `born`; then for each group the number of its configurations, and for each configuration its keys, parent, members,
/// full members, read and write expression, and the certificates of its claims. `Malformed` is a value of another shape
/// than a plan's, `OverLimit` more than a limit. A text that is too long never gives `NoMemory`.
pub fn read_plan(alloc: Global, text: &[u8]) -> Result<Plan, PlanFault>
    ensures read { Reads plan_data result (plan_of text.now) }
    ensures memory { IfErr result (λ e. kind_of e ≡ NoMemory → IsWithinSize text.now) }
{
    let mut scratch = Scratch::new(alloc);
    let taped = TapedPlan::parse(alloc, text, &mut scratch)?;
    taped.plan(alloc)
}

/// Returns a plan's text as compact JSON with other certificates: `certificates` has one place for each claim, in the
/// claims' order, and a claim without one gets null. All other values are as they were read.
///
/// # Errors
/// The fault of the text, as from [`read_plan`], then that of its claims, as from [`claims`](crate::claims()).
#[tactic(auto, unfolding(crate::specs::Written::rewritten))]
pub fn write_plan(
    alloc: Global,
    text: &[u8],
    certificates: &[Option<Certificate<Global>>],
) -> Result<Vec<u8>, PlanFault>
    requires { HasPlaces text.now (length certificates.now) }
    ensures written { Writes result (rewritten text.now (map (option_map certificate_rule) certificates.now)) }
    ensures compact { IfOk result (λ bytes. IsCompact bytes.items) }
    // Weights and names of lists are kept as they are written.
    ensures kept { IfOk result (λ bytes. KeepsValues text.now bytes.items) }
    ensures memory { IfErr result (λ e. kind_of e ≡ NoMemory → IsWithinSize text.now) }
{
    let mut scratch = Scratch::new(alloc);
    let taped = TapedPlan::parse(alloc, text, &mut scratch)?;
    let plan = taped.plan(alloc)?;
    claims(alloc, &plan)?;
    Ok(taped.write(alloc, certificates)?)
}
