//! Decides whether an advance has to wait.

ghost use Rattle.std.specs.Prelude.{◌≡◌, MatchResult, Err, Ok};
ghost use Rattle.std.specs.FinSet as set;
ghost use Rattle.epochs.specs.Authority.{authority_of, authority_plan};

use super::Authority;
use quorum_expr::{MemberSet, holds};
use volume_model::Fault;

/// What the whole members of a group allow after an advance to a configuration.
#[derive(Clone, Copy, Debug, PartialEq, Eq)]
pub struct Readiness {
    /// Whether they satisfy the read expression. If not, the advance must wait: a recovery needs the reports of a read
    /// quorum, and only whole members report.
    pub can_read: bool,
    /// Whether they satisfy the write expression. If not, commits wait until more members have hydrated.
    pub can_write: bool,
}

impl Authority {
    ghost use Rattle.epochs.specs.Waiting.{allowed, ready_to_advance};

    /// Returns what the whole members of a group allow after [`Authority::advance`] to a configuration. Allocates
    /// nothing.
    ///
    /// Advance only if `can_read` is true. A whole member stays whole, so an older list of whole members may be used.
    ///
    /// # Errors
    /// Those of [`Authority::admits_advance`].
    pub fn may_advance(
        &self,
        group: u8,
        configuration: u32,
        whole: MemberSet,
    ) -> Result<Readiness, Fault>
        ensures { MatchResult result
            (λ readiness. ready_to_advance (authority_plan self.now) (authority_of self.now) group configuration
            (set.contains whole) ≡ Ok (allowed readiness))
            (λ fault. ready_to_advance (authority_plan self.now) (authority_of self.now) group configuration
            (set.contains whole) ≡ Err fault) }
    {
        let child = self.child(group, configuration)?;
        match self.plan.configuration(group, child) {
            Some(configuration) => Ok(Readiness {
                can_read: holds(&configuration.read, whole),
                can_write: holds(&configuration.write, whole),
            }),
            None => Err(Fault::NotInPlan),
        }
    }
}
