//! The birth of a client.

ghost use Rattle.std.specs.Prelude.{◌≡◌, ◌≢◌, IfErr, IfOk};
ghost use Rattle.std.specs.Arc.{arc_value};
ghost use Rattle.volume_model.specs.Common.{refusal_of, AnswersAfterGrowth, AnswersNew, AnswersNewAfterGrowth, unborn, take};
ghost use Rattle.volume_model.specs.declared.fault.Fault.TheVariants.{NoMemory};
ghost use Rattle.plan.specs.Common.{checked_model};
ghost use Rattle.wire.specs.Common.{message_of};
ghost use Rattle.recovery.specs.Recoveries.{admitted, begun, birth_of, recovery_plan, recovery_volume, view_volume};
ghost use Rattle.world.specs.Actions.{client_acted, client_after_growth, message_found, ButForCut};

use crate::actions::ClientAction;
use crate::addressed::addressed;
use plan::CheckedPlan;
use recovery::Recovery;
use std::alloc::Global;
use std::sync::Arc;
use volume_model::Fault;
use wire::Message;

/// Checks whether an unborn client would become a recovery by a message. `NoMessage` if there is no message,
/// `NotAddressed` if it isn't for the client, `NotInPlan` for a View with places that aren't the plan's, `NoActor` for
/// any other message than a View.
fn admits_birth(plan: &CheckedPlan, volume: u32, found: Option<&Message>) -> Result<(), Fault>
    ensures refusal { result ≡ refusal_of (take (checked_model plan.now) volume unborn (message_found found.entry)) }
    ensures own { IfErr result (λ fault. fault ≢ NoMemory) }
{
    let Some(message) = found else {
        return Err(Fault::NoMessage);
    };
    addressed(volume, plan.groups(), message)?;
    match message {
        Message::View(_) => Recovery::admits_birth(plan, message),
        _ => Err(Fault::NoActor),
    }
}

/// Returns the refusal of an unborn client's action, if any. Only a View isn't refused.
pub fn admits(
    plan: &CheckedPlan,
    volume: u32,
    action: ClientAction<'_>,
    found: Option<&Message>,
) -> Result<(), Fault>
    ensures answers { AnswersAfterGrowth (client_after_growth action.entry) admitted
        (refusal_of (client_acted (message_found found.entry) action.entry (checked_model plan.now) volume unborn)) tt
        result tt }
    ensures sure { ButForCut action.entry (result ≡ refusal_of (client_acted (message_found found.entry) action.entry
        (checked_model plan.now) volume unborn)) }
    ensures own { IfErr result (λ fault. fault ≢ NoMemory) }
{
    match action {
        ClientAction::Take { .. } => admits_birth(plan, volume, found),
        _ => Err(Fault::NoActor),
    }
}

/// Makes the recovery of a View, and its messages.
fn begin_by_view(
    alloc: Global,
    plan: &Arc<CheckedPlan>,
    message: &Message,
) -> Result<(Recovery, Vec<Message>), Fault>
    ensures step { AnswersNew begun (birth_of (checked_model (arc_value plan.now)) (message_of message.now)) result }
    ensures plan { IfOk result (λ r. recovery_plan r.0 ≡ checked_model (arc_value plan.now)) }
    ensures volume { IfOk result (λ r. recovery_volume r.0 ≡ view_volume (message_of message.now)) }
{
    Recovery::admits_birth(plan, message)?;
    Recovery::new(alloc, plan.clone()?, message)
}

/// Makes the recovery that an unborn client becomes by a View, and its messages. Refused as in [`admits_birth`].
fn begin(
    alloc: Global,
    plan: &Arc<CheckedPlan>,
    volume: u32,
    found: Option<&Message>,
) -> Result<(Recovery, Vec<Message>), Fault>
    ensures step { AnswersNew begun (take (checked_model (arc_value plan.now)) volume unborn
        (message_found found.entry)) result }
    ensures plan { IfOk result (λ r. recovery_plan r.0 ≡ checked_model (arc_value plan.now)) }
    ensures volume { IfOk result (λ r. recovery_volume r.0 ≡ volume) }
{
    let Some(message) = found else {
        return Err(Fault::NoMessage);
    };
    addressed(volume, plan.groups(), message)?;
    match message {
        Message::View(_) => begin_by_view(alloc, plan, message),
        _ => Err(Fault::NoActor),
    }
}

/// Performs an action of an unborn client: a View makes it a recovery, anything else is refused.
pub fn act(
    alloc: Global,
    plan: &Arc<CheckedPlan>,
    volume: u32,
    action: ClientAction<'_>,
    found: Option<&Message>,
) -> Result<(Recovery, Vec<Message>), Fault>
    ensures step { AnswersNewAfterGrowth (client_after_growth action.entry) begun
        (client_acted (message_found found.entry) action.entry (checked_model (arc_value plan.now)) volume unborn)
        result }
    ensures plan { IfOk result (λ r. recovery_plan r.0 ≡ checked_model (arc_value plan.now)) }
    ensures volume { IfOk result (λ r. recovery_volume r.0 ≡ volume) }
{
    match action {
        ClientAction::Take { .. } => begin(alloc, plan, volume, found),
        _ => Err(Fault::NoActor),
    }
}
