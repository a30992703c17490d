//! Steps of recoveries.

ghost use Rattle.std.specs.Prelude.{◌≡◌, ◌≢◌, Err};
ghost use Rattle.volume_model.specs.Common.{refusal_of, Answers, AnswersAfterGrowth, take};
ghost use Rattle.volume_model.specs.declared.fault.Fault.TheVariants.{NotOpen};
ghost use Rattle.writer_core.specs.Writers.{acted};
ghost use Rattle.recovery.specs.Recoveries.{client_of, admitted, recovery_plan, recovery_volume};
ghost use Rattle.world.specs.declared.actions.ClientAction.TheVariants.{Open};
ghost use Rattle.world.specs.Actions.{client_acted, client_after_growth, message_found, ButForCut};

use crate::actions::ClientAction;
use crate::addressed::addressed;
use recovery::Recovery;
use std::alloc::Global;
use volume_model::Fault;
use wire::Message;

/// Checks whether a recovery would take a message. `NoMessage` if there is none, `NotAddressed` if it isn't for the
/// recovery, `NotInPlan` for a View with places that aren't the plan's.
fn admits_message(recovery: &Recovery, found: Option<&Message>) -> Result<(), Fault>
    ensures { result ≡ refusal_of (take (recovery_plan recovery.now) (recovery_volume recovery.now)
        (client_of recovery.now) (message_found found.entry)) }
{
    let Some(message) = found else {
        return Err(Fault::NoMessage);
    };
    match message {
        Message::View(view) => recovery.admits_view(view),
        _ => addressed(recovery.volume(), recovery.groups(), message),
    }
}

/// Returns the refusal of a recovery to an action of writers.
fn not_open<T>() -> Result<T, Fault>
    ensures { result ≡ Err NotOpen }
{
    Err(Fault::NotOpen)
}

/// Returns the refusal of a recovery's action, if any. `NotOpen` for an action of writers.
pub fn admits(
    alloc: Global,
    recovery: &Recovery,
    action: ClientAction<'_>,
    found: Option<&Message>,
) -> Result<(), Fault>
    ensures answers { AnswersAfterGrowth (client_after_growth action.entry) admitted
        (refusal_of (client_acted (message_found found.entry) action.entry (recovery_plan recovery.now)
        (recovery_volume recovery.now) (client_of recovery.now))) tt result tt }
    ensures sure { ButForCut action.entry (result ≡ refusal_of (client_acted (message_found found.entry) action.entry
        (recovery_plan recovery.now) (recovery_volume recovery.now) (client_of recovery.now))) }
{
    match action {
        ClientAction::Take { .. } => admits_message(recovery, found),
        ClientAction::Cut => recovery.admits_cut(alloc),
        ClientAction::Open => recovery.admits_open(),
        ClientAction::Issue(_) | ClientAction::Resend { .. } | ClientAction::Read { .. } => {
            not_open()
        }
    }
}

/// Takes a message. Returns the messages that the recovery makes.
fn take(
    alloc: Global,
    recovery: &mut Recovery,
    found: Option<&Message>,
) -> Result<Vec<Message>, Fault>
    ensures answers { Answers acted (take (recovery_plan recovery.old) (recovery_volume recovery.old)
        (client_of recovery.old) (message_found found.entry)) (client_of recovery.old) result (client_of recovery.new) }
    ensures plan { recovery_plan recovery.new ≡ recovery_plan recovery.old }
    ensures volume { recovery_volume recovery.new ≡ recovery_volume recovery.old }
{
    let Some(message) = found else {
        return Err(Fault::NoMessage);
    };
    match message {
        Message::View(view) => return recovery.view(alloc, view),
        Message::Report(report) => recovery.take_report(report)?,
        Message::Ack(ack) => recovery.take_ack(ack)?,
        _ => addressed(recovery.volume(), recovery.groups(), message)?,
    }
    Ok(Vec::new(alloc))
}

/// Performs a recovery's action except `Open`, which makes it a writer. `NotOpen` for an action of writers.
pub fn act(
    alloc: Global,
    recovery: &mut Recovery,
    action: ClientAction<'_>,
    found: Option<&Message>,
) -> Result<Vec<Message>, Fault>
    requires { action ≢ Open }
    ensures answers { AnswersAfterGrowth (client_after_growth action.entry) acted
        (client_acted (message_found found.entry) action.entry (recovery_plan recovery.old)
        (recovery_volume recovery.old) (client_of recovery.old)) (client_of recovery.old) result
        (client_of recovery.new) }
    ensures plan { recovery_plan recovery.new ≡ recovery_plan recovery.old }
    ensures volume { recovery_volume recovery.new ≡ recovery_volume recovery.old }
{
    match action {
        ClientAction::Take { .. } => take(alloc, recovery, found),
        ClientAction::Cut => recovery.cut(alloc),
        ClientAction::Open
        | ClientAction::Issue(_)
        | ClientAction::Resend { .. }
        | ClientAction::Read { .. } => not_open(),
    }
}
