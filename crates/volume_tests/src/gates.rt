//! Tests of searches whose workers wait for each other.

use crate::thread_plans::{WIDE, plan_of};
use cert_search::{Gate, search_all};
use std::alloc::Global;
use std::sync::Wait;
use std::sync::atomic::{AtomicBool, Ordering};
use std::test::*;
use std::thread;
use std::thread::Threads;
use volume_model::Fault;

/// How often a worker checks whether it may continue.
const TURNS: u32 = 1_000_000;

/// A flag, and whether the worker that waits for it saw it.
#[derive(Drop)]
pub struct Flag {
    raised: AtomicBool,
    seen: AtomicBool,
}

impl Flag {
    /// Returns a flag that isn't raised.
    pub fn new() -> Flag {
        Flag {
            raised: AtomicBool::new(false),
            seen: AtomicBool::new(false),
        }
    }

    /// Raises the flag.
    pub fn raise(&self) {
        self.raised.store(true, Ordering::SeqCst);
    }

    /// Waits until the flag is raised, for at most `TURNS` turns.
    pub fn wait(&self) {
        for _ in 0..TURNS {
            if self.raised.load(Ordering::SeqCst) {
                self.seen.store(true, Ordering::SeqCst);
                return;
            }
            thread::yield_now();
        }
    }

    /// Returns whether the flag was seen raised.
    pub fn was_seen(&self) -> bool {
        self.seen.load(Ordering::SeqCst)
    }
}

/// Holds claims 0 and 1 until both were started.
#[derive(Drop)]
struct Meeting {
    first: Flag,
    second: Flag,
}

impl Gate for Meeting {
    fn started(&self, claim: usize) {
        if claim == 0 {
            self.first.raise();
            self.second.wait();
        } else if claim == 1 {
            self.second.raise();
            self.first.wait();
        }
    }

    fn finished(&self, _claim: usize) {}
}

/// Holds claim 0 until claim 1 is finished.
#[derive(Drop)]
struct Later {
    finished: Flag,
}

impl Gate for Later {
    fn started(&self, claim: usize) {
        if claim == 0 {
            self.finished.wait();
        }
    }

    fn finished(&self, claim: usize) {
        if claim == 1 {
            self.finished.raise();
        }
    }
}

/// Returns how many of five claims have a certificate that two workers find.
fn found<R: Threads + Wait + Sync, G: Gate + Sync>(
    rt: &R,
    alloc: Global,
    gate: &G,
) -> Result<usize, Fault> {
    let plan = plan_of(alloc, WIDE)?;
    let answers = search_all(rt, alloc, &plan, 2, 100_000, gate)?;
    let mut found = 0usize;
    for answer in &answers {
        if answer.is_some() {
            found = found.saturating_add(1);
        }
    }
    Ok(found)
}

#[test]
fn two_claims_at_a_time(rt: HostRuntime) {
    let gate = Meeting {
        first: Flag::new(),
        second: Flag::new(),
    };
    let found = found(&rt, rt.alloc(), &gate);
    let have_met = gate.first.was_seen() && gate.second.was_seen();
    assert_eq!(rt; (found, have_met), (Ok(5), true));
}

#[test]
fn a_held_claim_keeps_no_other(rt: HostRuntime) {
    let gate = Later {
        finished: Flag::new(),
    };
    let found = found(&rt, rt.alloc(), &gate);
    assert_eq!(rt; (found, gate.finished.was_seen()), (Ok(5), true));
}
