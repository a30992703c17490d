//! What is known of a plan, before it is printed: in words by `pages`, as JSON by `serde_json`.

use quorum_expr::{MEMBERS, MemberSet};
use serde::{Described, Serialize, Serializer};

/// Members, in JSON an array of their numbers.
#[derive(Clone, Copy)]
pub struct Members(pub MemberSet);

impl Described for Members {}

impl Serialize for Members {
    fn serialize<S: Serializer>(&self, out: &mut S) -> Result<(), S::Error> {
        let set = self.0;
        out.begin_seq(Some(usize::from(set.len())))?;
        for member in 0..MEMBERS {
            if set.contains(member) {
                member.serialize(out)?;
            }
        }
        out.end_seq()
    }
}

/// A list among the children of an expression, such as a zone.
#[derive(Clone, Copy, Serialize)]
pub struct BlockFacts {
    /// The members that it names.
    pub members: Members,
    /// Whether the expression survives the loss of all of them.
    pub survived: bool,
}

/// What is known of an expression.
#[derive(Drop, Serialize)]
pub struct QuorumFacts {
    /// What it asks for, in words.
    pub expression: String,
    /// The number of members that it survives the loss of, whichever they are, if that is known.
    pub survives: Option<u8>,
    /// A smallest set whose loss stops it, if one is known.
    pub stopped_by: Option<Members>,
    /// The members whose loss alone stops it.
    pub single: Members,
    /// Each list among its children.
    pub blocks: Vec<BlockFacts>,
}

/// Whether a claim holds.
#[derive(Clone, Copy, PartialEq, Eq, Serialize)]
#[serde(rename_all = "snake_case")]
pub enum ClaimState {
    /// Its certificate shows it.
    Certified,
    /// It holds, but no certificate shows it.
    Holds,
    /// It fails.
    Fails,
    /// No certificate shows it, and it isn't known whether it holds.
    Unknown,
}

/// Two sets that show that a claim fails.
#[derive(Clone, Copy, Serialize)]
pub struct WitnessFacts {
    /// A read set, without a fresh member.
    pub read: Members,
    /// For `meets` a write set; for a step a set of members that has one of each read set of the parent.
    pub other: Members,
}

/// What is known of a claim.
#[derive(Clone, Copy, Serialize)]
pub struct ClaimFacts {
    /// Whether it holds.
    pub state: ClaimState,
    /// Why it fails, if it does.
    pub witness: Option<WitnessFacts>,
}

/// What is known of the step from a parent.
#[derive(Clone, Copy, Serialize)]
pub struct StepFacts {
    /// The number of the parent.
    pub parent: Option<u64>,
    /// The fresh members.
    pub adds: Members,
    /// The members that only the parent has.
    pub drops: Members,
    /// Whether the members that the parent has too satisfy the read expression. Otherwise an advance can't wait for it.
    pub kept_can_read: bool,
    /// Whether the step is safe.
    pub claim: ClaimFacts,
}

/// What is known of a configuration.
#[derive(Drop, Serialize)]
pub struct ConfigurationFacts {
    /// The group's number.
    pub group: u8,
    /// Its own number.
    pub configuration: u8,
    /// Its members.
    pub members: Members,
    /// The members that keep whole pages.
    pub full: Members,
    /// The members that keep only the log.
    pub tail: Members,
    /// What a read needs.
    pub read: QuorumFacts,
    /// What a write needs.
    pub write: QuorumFacts,
    /// Whether each read set meets each write set.
    pub meets: ClaimFacts,
    /// The step from its parent, if it has one.
    pub step: Option<StepFacts>,
}
