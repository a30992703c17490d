//! The claims of a plan.

use quorum_checker::Claim;
use std::alloc::Global;

/// A claim of a configuration with its place: its `step` claim, or its `meets` claim.
#[derive(Drop)]
pub struct NamedClaim {
    /// The number of the configuration's group, from 0.
    pub group: u8,
    /// The number of the configuration in its group, from 0.
    pub configuration: u8,
    /// Whether it is the `step` claim.
    pub step: bool,
    /// The claim that a certificate has to refute.
    pub claim: Claim<Global>,
}
