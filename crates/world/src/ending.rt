//! Makes the outcome of a run from its actors.

ghost use Rattle.std.specs.Prelude.{◌≡◌, map, IfOk};
ghost use Rattle.volume_model.specs.Common.{writers_in, finds_in};
ghost use Rattle.writer_core.specs.Writers.{client_of};
ghost use Rattle.world.specs.Actors.{plan_of, world_of, AreActors};
ghost use Rattle.world.specs.Clients.{client_or_unborn, seen_client};
ghost use Rattle.world.specs.Outcomes.{opened_of, find_of, readers_in, HasAdded, HasAddedFound};

use crate::actors::Actors;
use crate::client::{Client, ClientState};
use crate::clients::take;
use crate::outcome::{Outcome, RecoveryOutcome, WriterOutcome};
use recovery::Found;
use std::alloc::{AllocError, Global};
use std::mem;
use volume_model::Fault;
use writer_core::Writer;

impl Outcome {
    /// Adds a recovery that has cut. Writer 1 was never a recovery.
    fn add_found(&mut self, volume: u32, found: Found) -> Result<(), AllocError>
        ensures { IfOk result (λ _. HasAddedFound volume found self.old self.new) }
    {
        if volume <= 1 {
            return Ok(());
        }
        self.finds.push(RecoveryOutcome { volume, found })?;
        Ok(())
    }

    /// Adds a writer, whose log it takes, and what the writer found as a recovery.
    fn add_writer(&mut self, volume: u32, writer: &mut Writer) -> Result<(), AllocError>
        ensures { IfOk result (λ _. HasAdded volume (client_of writer.old) self.old self.new) }
    {
        let found = Found::of_writer(writer)?;
        self.writers.push(WriterOutcome {
            volume,
            start: writer.start(),
            durable: writer.durable_point(),
            log: writer.take_log(),
        })?;
        self.add_found(volume, found)?;
        Ok(())
    }

    /// Adds the outcome of the client of a volume epoch.
    fn add_client(&mut self, volume: u32, client: &mut Client) -> Result<(), AllocError>
        ensures { IfOk result (λ _. HasAdded volume (seen_client client.old) self.old self.new) }
    {
        match &mut client.state {
            ClientState::Unborn => Ok(()),
            ClientState::Writer(writer) => self.add_writer(volume, writer),
            ClientState::Recovery(recovery) => match recovery.found() {
                Some(found) => self.add_found(volume, found.clone()?),
                None => Ok(self.readers.push(volume)?),
            },
        }
    }

    /// Adds the outcome of the client of a volume epoch, if it is born, and keeps the client.
    fn add(&mut self, volume: u32, client: Option<Box<Client>>) -> Result<(), AllocError>
        ensures { IfOk result (λ _. HasAdded volume (client_or_unborn client) self.old self.new) }
    {
        let Some(mut client) = client else {
            return Ok(());
        };
        self.add_client(volume, &mut client)?;
        self.clients.push(client)?;
        Ok(())
    }

    /// Returns the outcome of a run, from the results of its events and from its actors, whose clients it takes.
    pub fn of(
        alloc: Global,
        results: Vec<Result<u32, Fault>>,
        mut actors: Actors,
    ) -> Result<Outcome, AllocError>
        requires { AreActors actors }
        ensures results { IfOk result (λ outcome. outcome.results ≡ results) }
        ensures writers { IfOk result (λ outcome. map opened_of outcome.writers.items ≡ writers_in (world_of actors)) }
        ensures finds { IfOk result (λ outcome. map find_of outcome.finds.items ≡ finds_in (world_of actors)) }
        ensures readers { IfOk result (λ outcome. outcome.readers.items ≡ readers_in (world_of actors)) }
        ensures good { IfOk result (λ outcome. AreActors outcome.actors) }
        ensures plan { IfOk result (λ outcome. plan_of outcome.actors ≡ plan_of actors) }
        ensures nodes { IfOk result (λ outcome. (world_of outcome.actors).nodes ≡ (world_of actors).nodes) }
    {
        let last = actors.authority.last_volume();
        let mut clients = mem::replace(&mut actors.clients, Vec::new(alloc));
        let mut outcome = Outcome {
            results,
            writers: Vec::new(alloc),
            finds: Vec::new(alloc),
            readers: Vec::new(alloc),
            clients: Vec::new(alloc),
            actors,
        };
        for volume in 0..last {
            outcome.add(volume, take(&mut clients, volume))?;
        }
        outcome.add(last, take(&mut clients, last))?;
        Ok(outcome)
    }
}
