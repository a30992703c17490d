//! Starts and joins the threads of a run.

use crate::nodes::Node;
use crate::run::Run;
use crate::worker::WorkerContext;
use node_fleet::{FleetSite, Pass};
use std::alloc::{AllocError, Global};
use std::sync::Wait;
use std::thread;
use std::thread::{JoinHandle, Scope, Threads};

/// Starts a thread for each of these. They wait until all are started.
fn start<'s, 'f: 's, 'a: 's, E, L: FleetSite + Send + Sync + 's, R: Wait + Sync>(
    scope: &Scope<'s, E>,
    rt: &'f R,
    alloc: Global,
    contexts: Vec<WorkerContext<'f, 'a, L>>,
) -> Result<Vec<JoinHandle<Pass<'a, L>>>, AllocError> {
    let mut threads = Vec::with_capacity(alloc, contexts.len())?;
    for worker in contexts {
        threads.push(scope.spawn(move || worker.work(rt))?)?;
    }
    Ok(threads)
}

/// Starts all threads in a scope and lets them run. Joins the drivers, which are the first `drivers` of them, closes
/// the nodes' mailboxes, and joins the nodes. Returns all passes. If a thread couldn't be started, none runs.
fn run_in<'s, 'f: 's, 'a: 's, E, L: FleetSite + Send + Sync + 's, R: Threads + Wait + Sync>(
    scope: &Scope<'s, E>,
    rt: &'f R,
    alloc: Global,
    run: Run<'f, 'a, L>,
    contexts: Vec<WorkerContext<'f, 'a, L>>,
    drivers: usize,
    nodes: &[Node],
) -> Result<Vec<Pass<'a, L>>, AllocError> {
    let mut passes = Vec::with_capacity(alloc, contexts.len())?;
    let threads = start(scope, rt, alloc, contexts);
    let _ = run.completions.go.set(rt, threads.is_ok());
    let mut all = true;
    for thread in threads? {
        if passes.len() == drivers {
            if let Some(pass) = passes.as_mut_slice().first_mut() {
                run.close_all(rt, pass, nodes);
            }
        }
        all = passes.push(thread.join(rt)).is_ok() && all;
    }
    if all { Ok(passes) } else { Err(AllocError) }
}

/// Runs all threads, those of the `drivers` drivers first, and takes their passes back.
///
/// # Errors
/// `AllocError` if memory ran out or a thread couldn't be started. Then no thread has made a step.
pub fn run_all<'f, 'a, L: FleetSite + Send + Sync, R: Threads + Wait + Sync>(
    rt: &'f R,
    alloc: Global,
    run: Run<'f, 'a, L>,
    contexts: Vec<WorkerContext<'f, 'a, L>>,
    drivers: usize,
    nodes: &'f [Node],
) -> Result<Vec<Pass<'a, L>>, AllocError> {
    thread::scope(thread::scope_env(), rt, move |scope| {
        run_in(scope, rt, alloc, run, contexts, drivers, nodes)
    })
}
