//! The clients of a world, by volume epoch.

ghost use Rattle.std.specs.Prelude.{◌≡◌, ℕ, ◌<◌, length, IfErr, IfOk};
ghost use Rattle.world.specs.Clients.{client_in, HasSameClients, IsPut};

use crate::client::Client;
use std::alloc::AllocError;

/// Extends the table to the place of a volume epoch. The clients are unchanged, even on error.
fn fill_up(clients: &mut Vec<Option<Box<Client>>>, volume: u32) -> Result<(), AllocError>
    ensures same { HasSameClients clients.old.items clients.new.items }
    ensures room { IfOk result (λ _. volume < length clients.new.items) }
{
    let place = volume as usize;
    if place < clients.len() {
        return Ok(());
    }
    clients.reserve(place + 1 - clients.len())?;
    while clients.len() <= place {
        clients.push(None)?;
    }
    Ok(())
}

/// Puts a client at the place of its volume epoch.
///
/// # Errors
/// `AllocError` if memory runs out. The clients are unchanged.
pub fn keep(
    clients: &mut Vec<Option<Box<Client>>>,
    volume: u32,
    client: Box<Client>,
) -> Result<(), AllocError>
    ensures kept { IfOk result (λ _. IsPut clients.old.items volume client clients.new.items) }
    ensures same { IfErr result (λ _. HasSameClients clients.old.items clients.new.items) }
{
    fill_up(clients, volume)?;
    clients[volume as usize] = Some(client);
    Ok(())
}

/// Takes the client of a volume epoch out of the table, if it is born.
pub fn take(clients: &mut Vec<Option<Box<Client>>>, volume: u32) -> Option<Box<Client>>
    ensures client { result ≡ client_in clients.old.items volume }
    ensures later { (other : ℕ) → volume < other → client_in clients.new.items other
        ≡ client_in clients.old.items other }
{
    let place = volume as usize;
    if place >= clients.len() {
        return None;
    }
    clients[place].take()
}
