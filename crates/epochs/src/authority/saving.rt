//! Saves an authority's state, and resumes an authority from it.

ghost use Rattle.std.specs.Prelude.{◌≡◌, Ok, IfOk};
ghost use Rattle.std.specs.Arc.{arc_value};
ghost use Rattle.plan.specs.Common.{checked_model};

use super::Authority;
use crate::snapshot::AuthoritySnapshot;
use plan::CheckedPlan;
use std::alloc::{AllocError, Global};
use std::sync::Arc;
use volume_model::Fault;

impl Authority {
    ghost use Rattle.volume_model.specs.Common.{AnswersNew};
    ghost use Rattle.epochs.specs.Authority.{authority_of, authority_plan};
    ghost use Rattle.epochs.specs.Snapshot.{authority_in, resumed};

    /// Returns the state that survives a restart.
    ///
    /// # Errors
    /// Fails only if memory runs out.
    pub fn snapshot(&self, alloc: Global) -> Result<AuthoritySnapshot, AllocError>
        ensures kept { IfOk result (λ snapshot. authority_in snapshot ≡ authority_of self.now) }
        ensures resumes { IfOk result (λ snapshot. resumed (authority_plan self.now) (authority_in snapshot)
            ≡ Ok (authority_of self.now)) }
    {
        Ok(AuthoritySnapshot {
            last_volume: self.last_volume,
            configurations: Vec::from_slice(alloc, &self.configurations)?,
        })
    }

    /// Resumes an authority over a plan from a snapshot. Allocates nothing.
    ///
    /// # Errors
    /// `BadField` if the snapshot's last volume epoch is 0; `NoGroup` if it has fewer groups than the plan has at
    /// birth, or more than the plan has.
    pub fn resumed(plan: Arc<CheckedPlan>, snapshot: AuthoritySnapshot) -> Result<Authority, Fault>
        ensures authority { AnswersNew authority_of (resumed (checked_model (arc_value plan)) (authority_in snapshot))
            result }
        ensures plan { IfOk result (λ a. authority_plan a ≡ checked_model (arc_value plan)) }
    {
        if snapshot.last_volume == 0 {
            return Err(Fault::BadField);
        }
        let joined = snapshot.configurations.len();
        if joined < usize::from(plan.born()) || joined > usize::from(plan.groups()) {
            return Err(Fault::NoGroup);
        }
        Ok(Authority {
            plan,
            last_volume: snapshot.last_volume,
            configurations: snapshot.configurations,
        })
    }
}
