//! What is known of a plan's text, as JSON.

use crate::configurations::plan_facts;
use crate::facts::ConfigurationFacts;
use crate::placing::repeated_key;
use crate::text_place::{FaultPlace, Position, fault_place};
use plan::{Plan, PlanFault};
use serde::Serialize;
use std::alloc::{AllocError, Global};

/// What is known of a plan's text.
#[derive(Drop, Serialize)]
struct Report<'a> {
    /// The exit status of `check`.
    status: u8,
    /// The line of `check`.
    verdict: &'a str,
    /// The first key that its object has already.
    repeated_key: Option<Position>,
    /// The first fault of the text, if it isn't a plan's.
    fault: Option<FaultPlace>,
    /// The configurations of all groups. There is none if the plan has a fault of its text, its parents or its fresh
    /// members.
    configurations: Vec<ConfigurationFacts>,
}

/// Returns what is known of the configurations of a plan, nothing if its parents or fresh members have a fault.
///
/// # Errors
/// Memory ran out.
pub fn known_configurations(
    alloc: Global,
    plan: &Plan,
) -> Result<Vec<ConfigurationFacts>, AllocError> {
    match plan_facts(alloc, plan) {
        Ok(configurations) => Ok(configurations),
        Err(PlanFault::Text(_)) => Err(AllocError),
        Err(_) => Ok(Vec::new(alloc)),
    }
}

/// Returns one line of JSON about a text: the status and the line of `check`, and the configurations of its plan or the
/// place of its fault.
///
/// # Errors
/// Memory ran out.
pub fn json_report(
    alloc: Global,
    text: &[u8],
    configurations: Option<Vec<ConfigurationFacts>>,
    status: u8,
    verdict: &str,
) -> Result<String, AllocError> {
    let (fault, configurations) = match configurations {
        Some(configurations) => (None, configurations),
        None => (fault_place(alloc, text)?, Vec::new(alloc)),
    };
    let report = Report {
        status,
        verdict: verdict.trim_end(),
        repeated_key: repeated_key(alloc, text)?,
        fault,
        configurations,
    };
    let Ok(mut line) = serde_json::to_string(alloc, &report) else {
        return Err(AllocError);
    };
    line.push_str("\n")?;
    Ok(line)
}
