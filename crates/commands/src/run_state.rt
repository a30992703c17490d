//! What is known of a script's run: the refused lines, and the nodes and clients at its end.

ghost use Rattle.std.specs.Prelude.{◌≡◌, IfOk};
ghost use Rattle.world.specs.Actors.{plan_of, world_of, AreActors};
ghost use Rattle.world.specs.NodeStates.{nodes_in};

use crate::run_text::next_lsn;
use drivers::Step;
use serde::Serialize;
use std::alloc::{AllocError, Global};
use std::collections::BTreeMap;
use volume_model::Fault;
use world::{NodeState, Outcome, RecoveryOutcome, WriterOutcome};

/// A line whose event was refused.
#[derive(Clone, Copy, Debug, PartialEq, Eq, Serialize)]
pub struct RefusalFacts {
    /// The line's number, from 1.
    pub line: u32,
    /// The refusal's number.
    #[serde(rename = "refusal")]
    pub number: u8,
    /// The refusal.
    #[serde(skip)]
    pub fault: Fault,
}

/// How far a client has come.
#[derive(Clone, Copy, Debug, PartialEq, Eq, Serialize)]
#[serde(rename_all = "snake_case")]
pub enum ClientStage {
    /// It is a recovery that hasn't cut.
    Recovering,
    /// It is a recovery that has cut.
    Cut,
    /// It is a writer.
    Writer,
}

/// A client at the end of a run.
#[derive(Clone, Copy, Debug, PartialEq, Eq, Serialize)]
pub struct ClientFacts {
    /// Its volume epoch.
    pub volume_epoch: u32,
    /// How far it has come.
    pub stage: ClientStage,
    /// The durable point of a writer.
    pub durable_point: Option<u64>,
    /// The LSN of a writer's next record.
    pub next_lsn: Option<u64>,
    /// The LSN up to which a recovery has found the log.
    pub cut: Option<u64>,
    /// The LSN after which a recovery's own records begin.
    pub start: Option<u64>,
}

/// What is known of a script's run.
#[derive(Drop)]
pub struct RunFacts {
    /// The lines whose events were refused, in order.
    pub refused: Vec<RefusalFacts>,
    /// The nodes that the plan names, by group and member.
    pub nodes: Vec<NodeState>,
    /// The clients that a View has reached, in growing volume epoch.
    pub clients: Vec<ClientFacts>,
}

/// Returns the lines of a script that have an event.
pub fn event_lines(alloc: Global, steps: &[Step]) -> Result<Vec<u32>, AllocError> {
    let mut lines = Vec::new(alloc);
    for step in steps {
        if step.has_event {
            lines.push(step.line)?;
        }
    }
    Ok(lines)
}

/// Returns the lines whose events were refused.
fn refusals(
    alloc: Global,
    steps: &[Step],
    results: &[Result<u32, Fault>],
) -> Result<Vec<RefusalFacts>, AllocError> {
    let lines = event_lines(alloc, steps)?;
    let mut refused = Vec::new(alloc);
    for (line, result) in lines.iter().zip(results) {
        if let Err(fault) = result {
            refused.push(RefusalFacts {
                line: *line,
                number: fault.number(),
                fault: *fault,
            })?;
        }
    }
    Ok(refused)
}

impl ClientFacts {
    /// Returns the facts of a client that has no more than a volume epoch.
    fn new(volume_epoch: u32) -> ClientFacts {
        ClientFacts {
            volume_epoch,
            stage: ClientStage::Recovering,
            durable_point: None,
            next_lsn: None,
            cut: None,
            start: None,
        }
    }

    /// Adds what a recovery has found.
    fn add_cut(&mut self, find: &RecoveryOutcome) {
        self.stage = ClientStage::Cut;
        self.cut = Some(find.found.cut);
        self.start = Some(find.found.lineage.last_start());
    }

    /// Adds the points of an opened writer.
    fn add_log(&mut self, writer: &WriterOutcome) {
        self.stage = ClientStage::Writer;
        self.durable_point = Some(writer.durable);
        self.next_lsn = Some(next_lsn(writer));
    }
}

/// Returns the clients of a run that a View has reached, in growing volume epoch.
fn clients_of(alloc: Global, outcome: &Outcome) -> Result<Vec<ClientFacts>, AllocError> {
    let mut clients = BTreeMap::new(alloc);
    for volume in &outcome.readers {
        let _ = clients.insert(*volume, ClientFacts::new(*volume))?;
    }
    for find in &outcome.finds {
        let facts = clients.entry(find.volume)?;
        facts.or_insert(ClientFacts::new(find.volume)).add_cut(find);
    }
    for writer in &outcome.writers {
        let facts = clients.entry(writer.volume)?;
        facts
            .or_insert(ClientFacts::new(writer.volume))
            .add_log(writer);
    }
    let mut list = Vec::with_capacity(alloc, clients.len())?;
    for facts in clients.values() {
        list.push(*facts)?;
    }
    Ok(list)
}

/// Returns what is known of a run, whose script has these steps.
///
/// # Errors
/// Memory ran out.
pub fn run_facts(alloc: Global, steps: &[Step], outcome: Outcome) -> Result<RunFacts, AllocError>
    requires { AreActors outcome.actors }
    ensures nodes { IfOk result (λ facts. facts.nodes.items ≡ nodes_in (plan_of outcome.actors)
        (world_of outcome.actors)) }
{
    let refused = refusals(alloc, steps, outcome.results.as_slice())?;
    let clients = clients_of(alloc, &outcome)?;
    let nodes = outcome.into_nodes(alloc)?;
    Ok(RunFacts {
        refused,
        nodes,
        clients,
    })
}
