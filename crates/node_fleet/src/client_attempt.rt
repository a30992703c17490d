//! Attempts of clients' actions. They aren't entered into the journal yet.

ghost use Rattle.std.specs.Prelude.{false, ◌≡◌, IfErr, IfOk, Ok, OnErr, OnOk};
ghost use Rattle.writer_core.specs.Writers.{answered};
ghost use Rattle.world.specs.Actions.{client_acted, message_found};
ghost use Rattle.world.specs.Clients.{client_plan, client_volume, seen_client, IsSameClient};
ghost use Rattle.node_fleet.specs.Actions.{action_durable, HasFound};
ghost use Rattle.node_fleet.specs.Attempts.{JudgedOf};

use std::alloc::Global;
use volume_model::Fault;
use wire::{Message, Messages};
use world::{Client, ClientAction, ClientState};

/// Attempts an action of a client.
///
/// # Errors
/// The client is unchanged. The first of: the model's refusal; `JournalFull` if `full`; `NoMemory` if memory runs out.
#[inline(always)]
pub fn try_step(
    alloc: Global,
    client: &mut Client,
    full: bool,
    action: ClientAction<'_>,
    found: Option<&Message>,
) -> Result<Messages, Fault>
    requires found { HasFound action (message_found found) }
    ensures done { IfOk result (λ made. client_acted (message_found found.entry) action.entry
        (client_plan client.old) (client_volume client.old) (seen_client client.old)
        ≡ Ok (answered made (seen_client client.new))) }
    ensures room { OnOk result (full ≡ false) }
    ensures refused { IfErr result
        (λ fault. JudgedOf full (client_acted (message_found found.entry) action.entry
        (client_plan client.old) (client_volume client.old) (seen_client client.old)) fault) }
    ensures still { OnErr result (seen_client client.new ≡ seen_client client.old) }
    ensures same { IsSameClient client.old client.new }
{
    if full {
        if let Err(fault) = client.admits(alloc, action, found) {
            return Err(fault);
        }
        return Err(Fault::JournalFull);
    }
    client.act(alloc, action, found)
}

/// Returns the durable point for a step's entry: the client's if the action may move it, else 0. A client that hasn't
/// opened has durable point 0.
#[inline(always)]
pub(crate) fn shown(client: &Client, action: ClientAction<'_>) -> u64
    ensures { result ≡ action_durable action.entry (seen_client client.now) }
{
    match action {
        ClientAction::Take { .. } | ClientAction::Open => match client.state() {
            ClientState::Unborn | ClientState::Recovery(_) => 0,
            ClientState::Writer(writer) => writer.durable_point(),
        },
        ClientAction::Issue(_)
        | ClientAction::Cut
        | ClientAction::Resend { .. }
        | ClientAction::Read { .. } => 0,
    }
}
