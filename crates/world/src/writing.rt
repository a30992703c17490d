//! Steps of writers.

ghost use Rattle.std.specs.Prelude.{◌≡◌};
ghost use Rattle.volume_model.specs.Common.{refusal_of, Answers, AnswersAfterGrowth, take};
ghost use Rattle.writer_core.specs.Writers.{answered, client_of, writer_plan, writer_volume};
ghost use Rattle.recovery.specs.Recoveries.{admitted};
ghost use Rattle.world.specs.Actions.{client_acted, client_after_growth, message_found, ButForCut};

use crate::actions::ClientAction;
use crate::addressed::addressed;
use std::alloc::Global;
use volume_model::Fault;
use wire::{Message, Messages};
use writer_core::Writer;

/// Checks whether a writer would take a message. `NoMessage` if there is none, `NotAddressed` if it isn't for the
/// writer, `NotInPlan` for a View with places that aren't the plan's.
fn admits_message(writer: &Writer, found: Option<&Message>) -> Result<(), Fault>
    ensures { result ≡ refusal_of (take (writer_plan writer.now) (writer_volume writer.now) (client_of writer.now)
        (message_found found.entry)) }
{
    let Some(message) = found else {
        return Err(Fault::NoMessage);
    };
    match message {
        Message::View(view) => writer.admits_view(view),
        _ => addressed(writer.volume(), writer.groups(), message),
    }
}

/// Returns the refusal of a writer's action, if any. `AlreadyDone` for `Cut` and `Open`.
pub fn admits(
    writer: &Writer,
    action: ClientAction<'_>,
    found: Option<&Message>,
) -> Result<(), Fault>
    ensures answers { AnswersAfterGrowth (client_after_growth action.entry) admitted
        (refusal_of (client_acted (message_found found.entry) action.entry (writer_plan writer.now)
        (writer_volume writer.now) (client_of writer.now))) tt result tt }
    ensures sure { ButForCut action.entry (result ≡ refusal_of (client_acted (message_found found.entry) action.entry
        (writer_plan writer.now) (writer_volume writer.now) (client_of writer.now))) }
{
    match action {
        ClientAction::Issue(changes) => writer.admits(changes),
        ClientAction::Take { .. } => admits_message(writer, found),
        ClientAction::Cut | ClientAction::Open => Err(Fault::AlreadyDone),
        ClientAction::Resend { lsn } => match writer.resend(lsn) {
            Ok(_) => Ok(()),
            Err(fault) => Err(fault),
        },
        ClientAction::Read { group, block } => match writer.read(group, block) {
            Ok(_) => Ok(()),
            Err(fault) => Err(fault),
        },
    }
}

/// Takes a message. Returns the messages that the writer makes.
fn take(alloc: Global, writer: &mut Writer, found: Option<&Message>) -> Result<Messages, Fault>
    ensures answers { Answers answered (take (writer_plan writer.old) (writer_volume writer.old) (client_of writer.old)
        (message_found found.entry)) (client_of writer.old) result (client_of writer.new) }
    ensures plan { writer_plan writer.new ≡ writer_plan writer.old }
    ensures volume { writer_volume writer.new ≡ writer_volume writer.old }
{
    let Some(message) = found else {
        return Err(Fault::NoMessage);
    };
    match message {
        Message::View(view) => {
            return match writer.view(alloc, view) {
                Ok(made) => Ok(Messages::of(made)),
                Err(fault) => Err(fault),
            };
        }
        Message::Ack(ack) => writer.take_ack(ack)?,
        _ => addressed(writer.volume(), writer.groups(), message)?,
    }
    Ok(Messages::Empty)
}

/// Performs a writer's action. `AlreadyDone` for `Cut` and `Open`.
pub fn act(
    alloc: Global,
    writer: &mut Writer,
    action: ClientAction<'_>,
    found: Option<&Message>,
) -> Result<Messages, Fault>
    ensures answers { AnswersAfterGrowth (client_after_growth action.entry) answered
        (client_acted (message_found found.entry) action.entry (writer_plan writer.old) (writer_volume writer.old)
        (client_of writer.old)) (client_of writer.old) result (client_of writer.new) }
    ensures plan { writer_plan writer.new ≡ writer_plan writer.old }
    ensures volume { writer_volume writer.new ≡ writer_volume writer.old }
{
    match action {
        ClientAction::Issue(changes) => writer.issue(alloc, changes),
        ClientAction::Take { .. } => take(alloc, writer, found),
        ClientAction::Cut | ClientAction::Open => Err(Fault::AlreadyDone),
        ClientAction::Resend { lsn } => Ok(Messages::One(writer.resend(lsn)?.write()?)),
        ClientAction::Read { group, block } => Ok(Messages::One(writer.read(group, block)?)),
    }
}
