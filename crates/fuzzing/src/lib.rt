//! Random runs of a volume: scripts over a plan from a seed, and verdicts over what a run of them prints.
#![tactic(auto)]

mod broken;
mod finish;
mod judge;
mod long_log;
mod numbers;
mod outcome;
mod places;
mod rng;
mod schedule;
mod shortening;
mod simulation;
mod stages;
mod stragglers;
mod strays;
mod tasks;
mod verdicts;
mod written;

pub use broken::Broken;
pub use schedule::Events;
pub use simulation::{ScriptRun, ScriptRunner, Simulation, Verdict, simulate};
