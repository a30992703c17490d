//! What a new plan is, in words.

use quorum_expr::MemberSet;

/// A new plan: each group has the same members and one configuration.
#[derive(Clone, Copy, Debug)]
pub struct PlanWords<'w> {
    /// The members of each group.
    pub members: MemberSet,
    /// The members that keep the log alone.
    pub tail: MemberSet,
    /// The sets of members that read and that write.
    pub quorums: Quorums<'w>,
    /// The number of groups, 1 to 16.
    pub groups: u8,
    /// The number of groups at birth, 1 to all.
    pub born: u8,
    /// How far LSNs may run ahead of the durable point, 1 to 10,000,000.
    pub lal: u64,
}

/// What the read sets and the write sets of a new plan are, or what they must survive.
#[derive(Clone, Copy, Debug)]
pub enum Quorums<'w> {
    /// Members that weigh this much together.
    Counted {
        /// The weight of a read set.
        read: u16,
        /// The weight of a write set.
        write: u16,
        /// The weight of each member by its number; 1 for a number that has none.
        weights: &'w [u8],
    },
    /// Aurora's full and tail form: a set reads that has `read` of all members and one full member. A set writes that
    /// has `write` of all members, or all full members.
    FullAndTail {
        /// The members of a read set.
        read: u16,
        /// The members of a write set, unless it has all full members.
        write: u16,
    },
    /// Read sets and write sets survive the loss of this many members, whichever they are.
    Surviving(u8),
    /// Read sets and write sets survive the loss of a zone.
    Zones {
        /// The zones: disjoint sets of members, which have all members together.
        zones: &'w [MemberSet],
        /// Whether read sets survive the loss of one more member.
        is_one_more: bool,
    },
}
