//! Plans that were checked.

ghost use Rattle.std.specs.Prelude.{◌≡◌, None, [], ◌&&◌, ◌≤◌, MatchOption, nat_lt};
ghost use Rattle.plan.specs.PlanFaults.{plan_fault};
ghost use Rattle.plan.specs.Plan.{plan_data};

use crate::configurations::{Configuration, Group, Plan};
use quorum_checker::{no_fault_refutes, refuted_claim_meets};
use volume_model::claims_certify;

/// A plan that [`check_plan`](crate::check_plan) accepted. It has no other constructor.
#[derive(Drop)]
pub struct CheckedPlan {
    plan: Plan,
    ghost checked: { plan_fault (plan_data plan) ≡ None },
}

impl CheckedPlan {
    ghost use Rattle.plan.specs.Plan.{group_data};
    ghost use Rattle.plan.specs.PlanData.{group_at};
    ghost use Rattle.volume_model.specs.Common.{IsCertified, has_member, is_full, is_named, KeepsClaims};
    ghost use Rattle.plan.specs.CheckedModel.{checked_model, HasWriteSets, ShowsConfiguration};

    /// Wraps a plan that was found to have no fault.
    pub(crate) fn trusted(plan: Plan) -> CheckedPlan
        requires { plan_fault (plan_data plan) ≡ None }
        ensures { result.plan ≡ plan }
    {
        CheckedPlan { plan }
    }

    /// Returns a group by its number.
    pub(crate) fn group(&self, number: u8) -> Option<&Group>
        ensures { MatchOption result (group_at (plan_data self.now.plan) number ≡ [])
            (λ group. group_at (plan_data self.now.plan) number ≡ group_data group.now) }
    {
        self.plan.groups.get(usize::from(number))
    }

    /// Returns how far LSNs may run ahead of the durable point.
    pub fn lal(&self) -> u64
        ensures { result ≡ (checked_model self.now).lal }
    {
        self.plan.lal
    }

    /// Returns the number of groups.
    pub fn groups(&self) -> u8
        ensures groups { result ≡ (checked_model self.now).groups }
        ensures few { result ≤ 16 }
    {
        self.plan.groups.len() as u8
    }

    /// Returns the number of groups at birth: the first ones. The others join the volume later, in order.
    pub fn born(&self) -> u8
        ensures born { result ≡ (checked_model self.now).born }
        ensures some { 1 ≤ result }
        ensures within { result ≤ (checked_model self.now).groups }
    {
        self.plan.born
    }

    /// Returns the number of configurations of a group, 0 if there is no such group.
    pub fn configurations(&self, group: u8) -> u8
        ensures { result ≡ (checked_model self.now).configurations group }
    {
        match self.plan.groups.get(usize::from(group)) {
            Some(group) => group.configurations.len() as u8,
            None => 0,
        }
    }

    /// Returns a configuration of a group.
    pub fn configuration(&self, group: u8, configuration: u8) -> Option<&Configuration>
        ensures { ShowsConfiguration result (checked_model self.now) group configuration }
    {
        let group = self.plan.groups.get(usize::from(group))?;
        group.configurations.get(usize::from(configuration))
    }

    /// Returns whether a configuration of the group has the member.
    pub fn names(&self, group: u8, member: u8) -> bool
        ensures { result ≡ is_named (checked_model self.now) group member }
    {
        match self.plan.groups.get(usize::from(group)) {
            Some(group) => group.names(member),
            None => false,
        }
    }

    /// Returns whether a configuration of a group has the member.
    pub fn has_member(&self, group: u8, configuration: u8, member: u8) -> bool
        ensures { result ≡ has_member ((checked_model self.now).configuration group configuration) member }
    {
        match self.configuration(group, configuration) {
            Some(configuration) => configuration.members.contains(member),
            None => false,
        }
    }

    /// Returns whether a configuration of a group has the member, and the member keeps whole pages there.
    pub fn is_full(&self, group: u8, configuration: u8, member: u8) -> bool
        ensures { result ≡ is_full ((checked_model self.now).configuration group configuration) member }
    {
        match self.configuration(group, configuration) {
            Some(configuration) => configuration.full.contains(member),
            None => false,
        }
    }

    /// Returns whether the root of the group has the member.
    pub fn is_root_member(&self, group: u8, member: u8) -> bool
        ensures { result ≡ (nat_lt group (checked_model self.now).groups && has_member
            ((checked_model self.now).configuration group 0) member) }
    {
        match self.configuration(group, 0) {
            Some(root) => root.members.contains(member),
            None => false,
        }
    }

    /// Proves that all claims of a checked plan hold, and that the members of each configuration satisfy its write
    /// expression.
    pub fn keeps_claims(&self)
        ensures claims { KeepsClaims (checked_model self.now) }
        ensures write_sets { HasWriteSets (checked_model self.now) }
    {
        claims_certify();
        no_fault_refutes();
        refuted_claim_meets();
    }

    /// Proves that a checked plan is certified: in each configuration each read set shares a member with each write
    /// set, and each step is safe.
    pub fn certified(&self)
        ensures { IsCertified (checked_model self.now) }
    {
        claims_certify();
        no_fault_refutes();
        refuted_claim_meets();
    }
}
