//! Runs fleets from their opening to their end.

ghost use Rattle.std.specs.Prelude.{◌≡◌, ◌<◌, ◌≤◌, vec_len};
ghost use Rattle.std.specs.Arc.{arc_value};
ghost use Rattle.plan.specs.Common.{checked_model};
ghost use Rattle.journal.specs.Tokens.{ids_of};
ghost use Rattle.node_fleet.specs.Bases.{passes_of, IsBaseOf};

use super::calls::{Step, first_wrong};
use super::looks::Look;
use crate::thread_plans::checked;
use node_fleet::{Base, Fleet, FleetSite, Pass, Row};
use plan::CheckedPlan;
use std::alloc::Global;
use std::marker::Brand;
use std::sync::{Arc, Wait};
use volume_model::Fault;
use world::{Outcome, run};

/// The result of a fleet: the index of the first call with another result than the table's, the number of steps of the
/// closed journal, and how many of these a run of the world refuses; at the end of that run the first writer's volume
/// epoch, durable point and last LSN; and the volume epoch and the cut of the first recovery that has cut.
pub type Ending = (
    Option<usize>,
    usize,
    usize,
    Option<(u32, u64, u64)>,
    Option<(u32, u64)>,
);

/// Returns the first writer's volume epoch, durable point and last LSN.
fn writer_of(outcome: &Outcome) -> Option<(u32, u64, u64)> {
    let writer = outcome.writers.first()?;
    let last = writer.log.record_at(writer.log.last_lsn())?;
    Some((writer.volume, writer.durable, last.lsn()))
}

/// Returns the volume epoch and the cut of the first recovery that has cut.
fn find_of(outcome: &Outcome) -> Option<(u32, u64)> {
    let find = outcome.finds.first()?;
    Some((find.volume, find.found.cut))
}

/// Closes a fleet and returns its result; `wrong` is the index of the first wrong call.
pub fn ended<'a, L: FleetSite>(
    alloc: Global,
    fleet: Fleet<'a, L>,
    passes: Vec<Pass<'a, L>>,
    plan: &Arc<CheckedPlan>,
    wrong: Option<usize>,
) -> Result<Ending, Fault>
    requires { (vec_len passes ≡ L.parts) × (0 < vec_len passes) }
{
    let journal = fleet.close(passes);
    let events = journal.events(alloc)?;
    let outcome = run(alloc, plan, events.as_slice())?;
    let mut refused = 0usize;
    for expected in &outcome.results {
        refused = refused.saturating_add(usize::from(expected.is_err()));
    }
    Ok((
        wrong,
        journal.len(),
        refused,
        writer_of(&outcome),
        find_of(&outcome),
    ))
}

/// Returns the result of a fleet after the calls of a table, which its passes make in turn.
fn drive<L: FleetSite, R: Wait>(
    rt: &R,
    alloc: Global,
    row: &mut Row,
    base: Base,
    plan: Arc<CheckedPlan>,
    slots: u32,
    steps: &[Step],
    look: &Look,
) -> Result<Ending, Fault>
    requires plan { checked_model (arc_value plan) ≡ L.plan }
    requires cells { ids_of row.old ≡ L.cells }
    requires slots { slots ≡ L.slots }
    requires first { 1 ≤ slots }
    requires base { IsBaseOf L.plan L.board L.history L.mail L.name L.parts base }
    requires passes { 0 < passes_of base }
{
    let copy = plan.clone()?;
    let (fleet, mut passes) = Fleet::<L>::new(alloc, row, base, copy, slots)?;
    let wrong = first_wrong(rt, alloc, &fleet, passes.as_mut_slice(), steps, look);
    ended(alloc, fleet, passes, &plan, wrong)
}

/// Returns the result of a fleet over the plan of a text after the calls of a table; `NoActor` if it has no pass or no
/// slot.
pub fn run_table<R: Wait>(
    rt: &R,
    alloc: Global,
    text: &str,
    passes: usize,
    slots: u32,
    cells: usize,
    steps: &[Step],
    look: &Look,
) -> Result<Ending, Fault> {
    if passes == 0 || slots == 0 {
        return Err(Fault::NoActor);
    }
    let plan = checked(alloc, text)?;
    let mut row = Row::new(alloc, cells)?;
    let base = Base::new(alloc, &plan, passes)?;
    drive::<Brand, R>(rt, alloc, &mut row, base, plan, slots, steps, look)
}
