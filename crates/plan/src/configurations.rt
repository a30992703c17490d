//! Plans, their groups and configurations.

ghost use Rattle.std.specs.Prelude.{◌≡◌, ◌≤◌, true, None, length, ◌&&◌, nat_lt};
ghost use Rattle.quorum_expr.specs.Common.{formula_of, expression_fault};
ghost use Rattle.plan.specs.PlanData.{names_only};

use crate::formats::Format;
use quorum_expr::{Expr, MemberSet};
use refutation::Certificate;
use std::alloc::Global;

/// A configuration of a group. Both expressions are valid and name only its members.
#[derive(Drop)]
pub struct Configuration {
    /// The number of the parent, if it has one.
    pub parent: Option<u64>,
    /// Its members.
    pub members: MemberSet,
    /// The members that keep whole pages.
    pub full: MemberSet,
    /// The read quorums.
    pub read: Expr<Global>,
    /// The write quorums.
    pub write: Expr<Global>,
    /// The certificate that each read set shares a member with each write set.
    pub meets: Option<Certificate<Global>>,
    /// The certificate that each read set without fresh members is a read set of the parent.
    pub step: Option<Certificate<Global>>,
    ghost read_valid: { expression_fault (formula_of read) ≡ None },
    ghost write_valid: { expression_fault (formula_of write) ≡ None },
    ghost read_own: { names_only (formula_of read) members ≡ true },
    ghost write_own: { names_only (formula_of write) members ≡ true },
}

/// A group's 1 to 64 configurations. Number 0 is the root.
#[derive(Drop)]
pub struct Group {
    /// The configurations by number, each after its parent.
    pub configurations: Vec<Configuration>,
    ghost some: { 1 ≤ length configurations.items },
    ghost few: { length configurations.items ≤ 64 },
}

/// A plan. LSNs may run 1 to 10,000,000 ahead of the durable point. There are 1 to 16 groups; the first `born` of them
/// (1 at least) exist when the volume is born, the others join it one by one, in order.
#[derive(Drop)]
pub struct Plan {
    /// The format of the plan's text.
    pub format: Format,
    /// How far LSNs may run ahead of the durable point.
    pub lal: u64,
    /// The number of groups at birth.
    pub born: u8,
    /// The groups by number.
    pub groups: Vec<Group>,
    ghost lal_some: { 1 ≤ lal },
    ghost lal_few: { lal ≤ 10000000 },
    ghost born_some: { 1 ≤ born },
    ghost born_within: { born ≤ length groups.items },
    ghost some: { 1 ≤ length groups.items },
    ghost few: { length groups.items ≤ 16 },
}

impl Group {
    ghost use Rattle.std.specs.FinSet.{contains};
    ghost use Rattle.volume_model.specs.Common.{some_below};
    ghost use Rattle.plan.specs.PlanData.{configuration_at};
    ghost use Rattle.plan.specs.Plan.{group_data};

    /// Returns whether one of the group's configurations has the member.
    pub fn names(&self, member: u8) -> bool
        ensures { result ≡ some_below (length (group_data self.now))
            (λ c. nat_lt member 64 && contains (configuration_at (group_data self.now) c).members member) }
    {
        for configuration in &self.configurations {
            if configuration.members.contains(member) {
                return true;
            }
        }
        false
    }
}
