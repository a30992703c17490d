//! Why an edit is refused.

use plan::PlanFault;
use std::alloc::{AllocError, AllocFailed};
use std::error::Error;
use std::fmt;
use volume_model::Fault;

/// Why a plan isn't edited.
#[derive(Debug, Drop)]
pub enum EditRefusal {
    /// The plan has no such group, or the group no such configuration.
    NotInPlan,
    /// The member that is to go isn't one of the configuration.
    NotAMember,
    /// The member that is to come isn't 0 to 63.
    NotANumber,
    /// The member that is to come is in a configuration on the way from the root already.
    MemberReused,
    /// The group would have more than 64 configurations.
    NoPlace,
    /// The given plan has this fault, or the new one would have it.
    Plan(PlanFault),
    /// The text that was written isn't that of the wanted plan.
    Defect,
    /// Memory ran out.
    NoMemory,
}

impl fmt::Display for EditRefusal {
    fn fmt<W: fmt::Write>(&self, f: &mut fmt::Formatter<W>) -> fmt::Result {
        match self {
            EditRefusal::NotInPlan => f.write_str("the plan has no such configuration"),
            EditRefusal::NotAMember => f.write_str(
                "the configuration has no such member to replace",
            ),
            EditRefusal::NotANumber => f.write_str("a member's number is 0 to 63"),
            EditRefusal::MemberReused => {
                f.write_str("a configuration on the way from the root has the new member already")
            }
            EditRefusal::NoPlace => f.write_str("the group would have more than 64 configurations"),
            EditRefusal::Plan(fault) => write!(f, "{fault}"),
            EditRefusal::Defect => f.write_str("the new plan isn't the wanted one"),
            EditRefusal::NoMemory => f.write_str("input: 9 NoMemory"),
        }
    }
}

impl Error for EditRefusal {}

impl From<AllocError> for EditRefusal {
    fn from(_error: AllocError) -> Self {
        EditRefusal::NoMemory
    }
}

impl<T: Drop> From<AllocFailed<T>> for EditRefusal {
    fn from(_error: AllocFailed<T>) -> Self {
        EditRefusal::NoMemory
    }
}

impl From<PlanFault> for EditRefusal {
    fn from(fault: PlanFault) -> Self {
        match fault {
            PlanFault::Text(Fault::NoMemory) => EditRefusal::NoMemory,
            fault => EditRefusal::Plan(fault),
        }
    }
}

impl From<Fault> for EditRefusal {
    fn from(fault: Fault) -> Self {
        EditRefusal::from(PlanFault::Text(fault))
    }
}
