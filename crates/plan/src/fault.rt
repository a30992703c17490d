//! Why a plan is refused.

ghost use Rattle.std.specs.Prelude.{◌≡◌, Some};
ghost use Rattle.plan.specs.FaultText.{claim_text, verdict_text};

use quorum_checker::FaultAt;
use std::alloc::{AllocError, AllocFailed};
use std::error::Error;
use std::fmt;
use volume_model::Fault;

/// One of a configuration's two expressions.
#[derive(Clone, Copy, Debug, PartialEq, Eq)]
pub enum Quorum {
    /// The read quorums.
    Read,
    /// The write quorums.
    Write,
}

/// The first fault of a plan or of its text, and its place.
#[derive(Debug, Drop)]
pub enum PlanFault {
    /// Memory ran out, the text isn't a plan's, or it passes a limit.
    Text(Fault),
    /// An expression has a bad count, too many levels, or names a number that isn't a member of the configuration.
    Expression {
        fault: Fault,
        group: u8,
        configuration: u8,
        quorum: Quorum,
    },
    /// The parent's number isn't smaller than the configuration's, or configuration 0 has a parent.
    BadParent {
        group: u8,
        configuration: u8,
    },
    /// An ancestor has a fresh member.
    MemberReused {
        group: u8,
        configuration: u8,
        member: u8,
    },
    /// A claim has no certificate.
    NoCertificate {
        group: u8,
        configuration: u8,
        step: bool,
    },
    /// A certificate doesn't refute its claim.
    Certificate {
        group: u8,
        configuration: u8,
        step: bool,
        at: FaultAt,
    },
}

impl PlanFault {
    ghost use Rattle.plan.specs.FaultKinds.{is_input, kind_of};

    /// Returns the fault without its place.
    pub fn kind(&self) -> Fault
        ensures { result ≡ kind_of self.now }
    {
        match self {
            PlanFault::Text(fault) => *fault,
            PlanFault::Expression { fault, .. } => *fault,
            PlanFault::BadParent { .. } => Fault::BadParent,
            PlanFault::MemberReused { .. } => Fault::MemberReused,
            PlanFault::NoCertificate { .. } => Fault::NoCertificate,
            PlanFault::Certificate { .. } => Fault::Certificate,
        }
    }

    /// Returns whether the text isn't a plan's at all, or memory ran out.
    pub fn is_input(&self) -> bool
        ensures { result ≡ is_input self.now }
    {
        matches!(self, PlanFault::Text(Fault::NoMemory | Fault::Malformed))
    }
}

impl fmt::Display for Quorum {
    ghost use Rattle.plan.specs.FaultText.{quorum_text};

    ghost output = { λ quorum. Some (quorum_text quorum) };

    fn fmt<W: fmt::Write>(&self, f: &mut fmt::Formatter<W>) -> fmt::Result {
        match self {
            Quorum::Read => f.write_str("read"),
            Quorum::Write => f.write_str("write"),
        }
    }
}

/// A configuration's group and number.
#[derive(Clone, Copy)]
struct Place {
    group: u8,
    configuration: u8,
}

impl fmt::Display for Place {
    ghost use Rattle.plan.specs.FaultText.{place_text};

    ghost output = { λ place. Some (place_text place.group place.configuration) };

    fn fmt<W: fmt::Write>(&self, f: &mut fmt::Formatter<W>) -> fmt::Result {
        let group = self.group;
        let configuration = self.configuration;
        write!(f, "group {group} configuration {configuration}")
    }
}

/// Returns the name of a claim: `step` or `meets`.
pub fn claim_name(step: bool) -> &'static str
    ensures { result.now ≡ claim_text step }
{
    if step { "step" } else { "meets" }
}

/// Returns the beginning of a fault's line: `input` or `no`.
fn verdict_name(input: bool) -> &'static str
    ensures { result.now ≡ verdict_text input }
{
    if input { "input" } else { "no" }
}

/// Writes the line that `check` prints.
impl fmt::Display for PlanFault {
    ghost use Rattle.plan.specs.PlanFaultText.{plan_fault_text};

    ghost output = { λ fault. Some (plan_fault_text fault) };

    fn fmt<W: fmt::Write>(&self, f: &mut fmt::Formatter<W>) -> fmt::Result {
        match self {
            PlanFault::Text(fault) => {
                let verdict = verdict_name(self.is_input());
                write!(f, "{verdict}: {fault}")
            }
            PlanFault::Expression {
                fault,
                group,
                configuration,
                quorum,
            } => {
                let place = Place {
                    group: *group,
                    configuration: *configuration,
                };
                write!(f, "no: {fault} {place} {quorum}")
            }
            PlanFault::BadParent {
                group,
                configuration,
            } => {
                let fault = Fault::BadParent;
                let place = Place {
                    group: *group,
                    configuration: *configuration,
                };
                write!(f, "no: {fault} {place}")
            }
            PlanFault::MemberReused {
                group,
                configuration,
                member,
            } => {
                let fault = Fault::MemberReused;
                let place = Place {
                    group: *group,
                    configuration: *configuration,
                };
                write!(f, "no: {fault} {place} member {member}")
            }
            PlanFault::NoCertificate {
                group,
                configuration,
                step,
            } => {
                let fault = Fault::NoCertificate;
                let place = Place {
                    group: *group,
                    configuration: *configuration,
                };
                let claim = claim_name(*step);
                write!(f, "no: {fault} {place} {claim}")
            }
            PlanFault::Certificate {
                group,
                configuration,
                step,
                at,
            } => {
                let number = Fault::Certificate.number();
                let place = Place {
                    group: *group,
                    configuration: *configuration,
                };
                let claim = claim_name(*step);
                write!(f, "no: {number} {place} {claim}: {at}")
            }
        }
    }
}

impl Error for PlanFault {}

impl From<Fault> for PlanFault {
    ghost use Rattle.plan.specs.declared.fault.PlanFault.TheVariants.{Text};

    ghost from_gives = { λ f e. e ≡ Text f };

    fn from(fault: Fault) -> PlanFault {
        PlanFault::Text(fault)
    }
}

impl From<AllocError> for PlanFault {
    ghost use Rattle.volume_model.specs.declared.fault.Fault.TheVariants.{NoMemory};
    ghost use Rattle.plan.specs.declared.fault.PlanFault.TheVariants.{Text};

    ghost from_gives = { λ _ e. e ≡ Text NoMemory };

    fn from(_e: AllocError) -> PlanFault {
        PlanFault::Text(Fault::NoMemory)
    }
}

impl<T: Drop> From<AllocFailed<T>> for PlanFault {
    ghost use Rattle.volume_model.specs.declared.fault.Fault.TheVariants.{NoMemory};
    ghost use Rattle.plan.specs.declared.fault.PlanFault.TheVariants.{Text};

    ghost from_gives = { λ _ e. e ≡ Text NoMemory };

    fn from(_e: AllocFailed<T>) -> PlanFault {
        PlanFault::Text(Fault::NoMemory)
    }
}
