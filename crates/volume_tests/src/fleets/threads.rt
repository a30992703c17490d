//! Tests of fleets with a thread for each pass.

ghost use Rattle.std.specs.Prelude.{◌≡◌, ◌<◌};
ghost use Rattle.std.specs.Arc.{arc_value};
ghost use Rattle.plan.specs.Common.{checked_model};
ghost use Rattle.journal.specs.Tokens.{ids_of};
ghost use Rattle.node_fleet.specs.Bases.{passes_of, IsBaseOf};

use super::calls::{Call, Step, first_wrong};
use super::drive::{Ending, ended};
use super::looks::Look;
use crate::gates::Flag;
use crate::thread_plans::{SIX, checked};
use node_fleet::{Base, Fleet, FleetSite, Pass, Row, StepGate};
use plan::CheckedPlan;
use segment_core::NodeAction;
use std::alloc::{AllocError, Global};
use std::marker::Brand;
use std::sync::{Arc, Wait};
use std::test::*;
use std::thread;
use std::thread::{JoinHandle, Scope, Threads};
use volume_model::Fault;
use wire::{Message, Messages};
use world::ClientAction;

/// One record is issued.
const ISSUED: &[Step] = &[(Call::Issue(1, "a"), Ok((1, 0)))];

/// A gate that holds members 0 and 1 when they acknowledge the first record, until both do.
#[derive(Drop)]
struct Meeting {
    first: Flag,
    second: Flag,
}

impl StepGate for Meeting {
    fn prepared(&self, answers: &Messages) {
        let Messages::One(Message::Ack(ack)) = answers else {
            return;
        };
        if ack.scl == 1 && ack.from == 0 {
            self.first.raise();
            self.second.wait();
        } else if ack.scl == 1 && ack.from == 1 {
            self.second.raise();
            self.first.wait();
        }
    }
}

/// What all threads share, and the number of rounds of each.
#[derive(Drop)]
struct Scene<'f, 'a, L: FleetSite> {
    fleet: &'f Fleet<'a, L>,
    gate: &'f Meeting,
    rounds: u32,
}

impl<'f, 'a, L: FleetSite> Scene<'f, 'a, L> {
    /// Returns a copy of these references.
    fn again(&self) -> Scene<'f, 'a, L> {
        Scene {
            fleet: self.fleet,
            gate: self.gate,
            rounds: self.rounds,
        }
    }

    /// Delivers the first message to a member. Returns the number of its answer, 0 if it refuses.
    fn deliver<R: Wait>(&self, rt: &R, pass: &mut Pass<'a, L>, member: u8) -> u64 {
        match self.fleet.deliver(rt, pass, 0, member, 1, self.gate) {
            Ok(receipt) => receipt.first_message,
            Err(_) => 0,
        }
    }

    /// Delivers the first message to a member, has the writer take the answer, and restarts the member.
    fn go_round<R: Wait>(&self, rt: &R, pass: &mut Pass<'a, L>, member: u8) {
        let message = self.deliver(rt, pass, member);
        let action = ClientAction::Take { message };
        let _ = self.fleet.client_step(rt, pass, 1, action);
        let _ = self
            .fleet
            .node_step(rt, pass, 0, member, NodeAction::Restart);
    }
}

/// A thread's part of the work, with its pass.
#[derive(Drop)]
struct Hand<'f, 'a, L: FleetSite> {
    scene: Scene<'f, 'a, L>,
    pass: Pass<'a, L>,
    number: u8,
}

impl<'f, 'a, L: FleetSite> Hand<'f, 'a, L> {
    /// Delivers the first message to the member with its own number, goes round all six, and returns its pass.
    fn work<R: Wait>(self, rt: &R) -> Pass<'a, L> {
        let Hand {
            scene,
            mut pass,
            number,
        } = self;
        scene.deliver(rt, &mut pass, number);
        for round in 0..scene.rounds {
            let member = (u64::from(number) + u64::from(round)) % 6;
            scene.go_round(rt, &mut pass, member as u8);
        }
        pass
    }
}

/// Returns a part for each pass.
fn hands<'f, 'a, L: FleetSite>(
    alloc: Global,
    scene: &Scene<'f, 'a, L>,
    passes: Vec<Pass<'a, L>>,
) -> Result<Vec<Hand<'f, 'a, L>>, AllocError> {
    let mut hands = Vec::with_capacity(alloc, passes.len())?;
    for pass in passes {
        let number = u8::try_from(hands.len()).unwrap_or(0);
        hands.push(Hand {
            scene: scene.again(),
            pass,
            number,
        })?;
    }
    Ok(hands)
}

/// Starts a thread for each part, and returns the passes.
fn work_in<'s, 'f: 's, 'a: 's, E, L: FleetSite + Send + Sync + 's, R: Threads + Wait + Sync>(
    scope: &Scope<'s, E>,
    rt: &'f R,
    alloc: Global,
    hands: Vec<Hand<'f, 'a, L>>,
) -> Result<Vec<Pass<'a, L>>, AllocError> {
    let mut threads: Vec<JoinHandle<Pass<'a, L>>> = Vec::with_capacity(alloc, hands.len())?;
    for hand in hands {
        threads.push(scope.spawn(move || hand.work(rt))?)?;
    }
    let mut passes = Vec::with_capacity(alloc, threads.len())?;
    for thread in threads {
        passes.push(thread.join(rt))?;
    }
    Ok(passes)
}

/// Does all parts on threads, and returns the passes.
fn work_all<'f, 'a, L: FleetSite + Send + Sync, R: Threads + Wait + Sync>(
    rt: &'f R,
    alloc: Global,
    hands: Vec<Hand<'f, 'a, L>>,
) -> Result<Vec<Pass<'a, L>>, AllocError> {
    thread::scope(thread::scope_env(), rt, move |scope| {
        work_in(scope, rt, alloc, hands)
    })
}

/// Lets the passes work on threads, and returns them.
fn worked<'f, 'a, L: FleetSite + Send + Sync, R: Threads + Wait + Sync>(
    rt: &'f R,
    alloc: Global,
    fleet: &'f Fleet<'a, L>,
    gate: &'f Meeting,
    rounds: u32,
    passes: Vec<Pass<'a, L>>,
) -> Result<Vec<Pass<'a, L>>, AllocError> {
    let scene = Scene {
        fleet,
        gate,
        rounds,
    };
    let hands = hands(alloc, &scene, passes)?;
    work_all(rt, alloc, hands)
}

/// Returns the result of a fleet in which one record was issued and the passes worked on threads.
fn work_over<L: FleetSite + Send + Sync, R: Threads + Wait + Sync>(
    rt: &R,
    alloc: Global,
    row: &mut Row,
    base: Base,
    plan: Arc<CheckedPlan>,
    gate: &Meeting,
    rounds: u32,
) -> Result<Ending, Fault>
    requires plan { checked_model (arc_value plan) ≡ L.plan }
    requires cells { ids_of row.old ≡ L.cells }
    requires slots { L.slots ≡ 1 }
    requires base { IsBaseOf L.plan L.board L.history L.mail L.name L.parts base }
    requires passes { 0 < passes_of base }
{
    let copy = plan.clone()?;
    let (fleet, mut passes) = Fleet::<L>::new(alloc, row, base, copy, 1)?;
    let look = Look::new();
    let wrong = first_wrong(rt, alloc, &fleet, passes.as_mut_slice(), ISSUED, &look);
    let count = passes.len();
    let passes = worked(rt, alloc, &fleet, gate, rounds, passes)?;
    if passes.len() != count {
        return Err(Fault::NoActor);
    }
    ended(alloc, fleet, passes, &plan, wrong)
}

/// Returns the result of a fleet of six nodes after this many passes worked on threads.
fn run_threads<R: Threads + Wait + Sync>(
    rt: &R,
    alloc: Global,
    passes: usize,
    cells: usize,
    gate: &Meeting,
    rounds: u32,
) -> Result<Ending, Fault>
    requires { 0 < passes }
{
    let plan = checked(alloc, SIX)?;
    let mut row = Row::new(alloc, cells)?;
    let base = Base::new(alloc, &plan, passes)?;
    work_over::<Brand, R>(rt, alloc, &mut row, base, plan, gate, rounds)
}

/// Two of four threads deliver at the same time: each is held in its gate until the other is in its own. Then each of the
/// four makes 9,999 steps more.
#[test]
fn four_threads(rt: HostRuntime) {
    let gate = Meeting {
        first: Flag::new(),
        second: Flag::new(),
    };
    let ending = run_threads(&rt, rt.alloc(), 4, 40_001, &gate, 3_333);
    let have_met = gate.first.was_seen() && gate.second.was_seen();
    let expected = Ok((None, 40_001, 0, Some((1, 1, 1)), None));
    assert_eq!(rt; (ending, have_met), (expected, true));
}
