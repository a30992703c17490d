//! Runs a script on threads, from the fleet's opening to its end.

ghost use Rattle.std.specs.Prelude.{◌≡◌, ◌==◌, ◌&&◌, ◌≤◌, ◌<◌, ◌+◌, IfErr, IfOk, is_err, not, vec_len};
ghost use Rattle.std.specs.Arc.{arc_value};
ghost use Rattle.std.specs.List.{list_any};
ghost use Rattle.volume_model.specs.declared.fault.Fault.TheVariants.{NoMemory};
ghost use Rattle.plan.specs.Common.{checked_model};
ghost use Rattle.journal.specs.Tokens.{ids_of};
ghost use Rattle.node_fleet.specs.Bases.{passes_of, IsBaseOf};
ghost use Rattle.drivers.specs.Driven.{IsDriven};

use crate::assignments::assignments;
use crate::completion_table::{CompletionTable, RunCounts};
use crate::nodes::{Node, receivers};
use crate::reading::Script;
use crate::run::Run;
use crate::threads::run_all;
use crate::worker::{Part, WorkerContext};
use node_fleet::{Base, Fleet, FleetSite, Pass, Row};
use plan::CheckedPlan;
use std::alloc::{AllocError, Global};
use std::marker::Brand;
use std::sync::{Arc, Wait};
use std::thread::Threads;
use volume_model::Fault;
use world::{Event, Outcome, run};

/// The number of client slots.
const SLOTS: u32 = 64;

/// The result of a script's run on threads.
#[derive(Drop)]
pub struct Driven {
    /// The number of events that were made.
    pub steps: usize,
    /// The number of events that were refused.
    pub refused: usize,
    /// Whether the world's run of the journal refuses nothing and has `steps` steps.
    pub agrees: bool,
    /// The outcome of that run.
    pub outcome: Outcome,
}

/// Returns the part of each thread, those of the drivers first.
fn parts(alloc: Global, workers: u8, nodes: &[Node]) -> Result<Vec<Part>, AllocError> {
    let mut parts = Vec::new(alloc);
    for number in 0..workers {
        parts.push(Part::Driver(number))?;
    }
    for node in nodes {
        parts.push(Part::Node(*node))?;
    }
    Ok(parts)
}

/// Gives each part a pass.
fn contexts<'f, 'a, L: FleetSite>(
    alloc: Global,
    run: &Run<'f, 'a, L>,
    parts: Vec<Part>,
    passes: &mut Vec<Pass<'a, L>>,
) -> Result<Vec<WorkerContext<'f, 'a, L>>, AllocError> {
    let mut contexts = Vec::with_capacity(alloc, parts.len())?;
    for part in parts {
        let Some(pass) = passes.pop() else {
            return Err(AllocError);
        };
        let run = run.again();
        contexts.push(WorkerContext { run, part, pass })?;
    }
    Ok(contexts)
}

/// Runs drivers and nodes on threads and takes their passes back.
fn ran<'f, 'a, L: FleetSite + Send + Sync, R: Threads + Wait + Sync>(
    rt: &'f R,
    alloc: Global,
    run: Run<'f, 'a, L>,
    workers: u8,
    nodes: &'f [Node],
    mut passes: Vec<Pass<'a, L>>,
) -> Result<Vec<Pass<'a, L>>, AllocError> {
    let parts = parts(alloc, workers, nodes)?;
    let contexts = contexts(alloc, &run, parts, &mut passes)?;
    run_all(rt, alloc, run, contexts, usize::from(workers), nodes)
}

/// Returns whether any event was refused.
fn refuses(results: &[Result<u32, Fault>]) -> bool
    ensures { result ≡ list_any (λ completion. is_err completion) results.now }
{
    results.iter().any(|completion| completion.is_err())
}

/// Returns whether a run refused nothing and had `steps` events.
pub fn agrees(outcome: &Outcome, events: &Vec<Event>, steps: usize) -> bool
    ensures { result ≡ (not (list_any (λ completion. is_err completion) outcome.now.results.items) &&
        (vec_len events.now == steps)) }
{
    !refuses(outcome.results.as_slice()) && events.len() == steps
}

/// Closes the fleet. Returns the result of a run with these counts.
fn ended<'a, L: FleetSite>(
    alloc: Global,
    fleet: Fleet<'a, L>,
    passes: Vec<Pass<'a, L>>,
    plan: &Arc<CheckedPlan>,
    counts: RunCounts,
) -> Result<Driven, Fault>
    requires plan { checked_model (arc_value plan.now) ≡ L.plan }
    requires passes { (vec_len passes ≡ L.parts) × (0 < vec_len passes) }
    ensures driven { IfOk result (IsDriven (checked_model (arc_value plan.now)) (counts.made + counts.refused)) }
    ensures steps { IfOk result (λ driven. driven.steps ≡ counts.made) }
    ensures refused { IfOk result (λ driven. driven.refused ≡ counts.refused) }
    ensures memory { IfErr result (λ fault. fault ≡ NoMemory) }
{
    let journal = fleet.close(passes);
    let events = journal.events(alloc)?;
    let outcome = run(alloc, plan, events.as_slice())?;
    let agrees = agrees(&outcome, &events, counts.made);
    Ok(Driven {
        steps: counts.made,
        refused: counts.refused,
        agrees,
        outcome,
    })
}

/// Runs a script on a new fleet, with a pass for each driver and each of these nodes, and closes it.
fn drive_fleet<L: FleetSite + Send + Sync, R: Threads + Wait + Sync>(
    rt: &R,
    alloc: Global,
    row: &mut Row,
    base: Base,
    plan: &Arc<CheckedPlan>,
    script: &Script,
    workers: u8,
    nodes: &[Node],
) -> Result<Driven, Fault>
    requires workers { 1 ≤ workers }
    requires plan { checked_model (arc_value plan.now) ≡ L.plan }
    requires cells { ids_of row.old ≡ L.cells }
    requires slots { L.slots ≡ 64 }
    requires base { IsBaseOf L.plan L.board L.history L.mail L.name L.parts base }
    requires passes { 0 < passes_of base }
    ensures driven { IfOk result (IsDriven (checked_model (arc_value plan.now)) (vec_len script.now.orders)) }
    ensures memory { IfErr result (λ fault. fault ≡ NoMemory) }
{
    let (fleet, passes) = Fleet::<L>::new(alloc, row, base, plan.clone()?, SLOTS)?;
    let assignments = assignments(alloc, script, workers)?;
    let completions = CompletionTable::new(alloc, script.orders.len())?;
    let run = Run {
        fleet: &fleet,
        orders: &script.orders,
        assignments: &assignments,
        completions: &completions,
    };
    let count = passes.len();
    let passes = ran(rt, alloc, run, workers, nodes, passes)?;
    if passes.len() != count {
        return Err(Fault::NoMemory);
    }
    let counts = completions.counts(rt)?;
    ended(alloc, fleet, passes, plan, counts)
}

/// Runs a script over a checked plan on a fleet with 64 client slots. `workers` drivers take the lines in turn, and
/// each node that a line delivers to has a thread. A line that names a message waits for the line that made it; no line
/// after a `wait` starts before all lines before it have ended.
///
/// # Errors
/// `NoMemory` if memory ran out or a thread couldn't be started.
pub fn drive<H: Threads + Wait + Sync>(
    rt: &H,
    alloc: Global,
    plan: &Arc<CheckedPlan>,
    script: &Script,
    workers: u8,
) -> Result<Driven, Fault>
    requires { (1 ≤ workers) × (workers ≤ 16) }
    ensures driven { IfOk result (IsDriven (checked_model (arc_value plan.now)) (vec_len script.now.orders)) }
    ensures memory { IfErr result (λ fault. fault ≡ NoMemory) }
{
    let nodes = receivers(alloc, plan, script.orders.as_slice())?;
    let mut row = Row::new(alloc, script.orders.len().max(1))?;
    let base = Base::new(alloc, plan, usize::from(workers) + nodes.len())?;
    drive_fleet::<Brand, H>(
        rt,
        alloc,
        &mut row,
        base,
        plan,
        script,
        workers,
        nodes.as_slice(),
    )
}
