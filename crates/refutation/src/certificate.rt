//! Refutations within the limits.

ghost use Rattle.std.specs.Prelude.{◌≡◌, ◌≤◌, true, false, OnOk, IfErr, IfOk, Ok};
ghost use Rattle.refutation.specs.Rule.{depth_of, HasLimits};
ghost use Rattle.refutation.specs.Refutation.{rule_of};
ghost use Rattle.refutation.specs.Limits.{is_certificate};

use crate::Refutation;
use crate::copying::copy_tree;
use crate::limits::{is_shallow, keep_lists, room_after};
use std::alloc::Allocator;
use volume_model::Fault;

/// The most levels that a certificate may have.
pub const MAX_DEPTH: u8 = 40;

/// The most rules that a certificate may have.
pub const MAX_NODES: u32 = 100_000;

/// A refutation of at most 40 levels and 100,000 rules, whose lists have at most 255 entries and whose members are
/// below 64.
#[derive(Drop)]
pub struct Certificate<A: Allocator> {
    tree: Refutation<A>,
    ghost within: { is_certificate (rule_of tree) ≡ true },
}

impl<A: Allocator> Certificate<A> {
    ghost use Rattle.volume_model.specs.Common.{Gives};
    ghost use Rattle.refutation.specs.Certificate.{certificate_rule};

    /// Returns a refutation as a certificate. Returns it with `OverLimit` if it passes a limit.
    pub fn new(tree: Refutation<A>) -> Result<Certificate<A>, (Fault, Refutation<A>)>
        ensures made { IfOk result (λ c. certificate_rule c ≡ rule_of tree) }
        ensures within { OnOk result (is_certificate (rule_of tree) ≡ true) }
        ensures over { IfErr result (λ e. (e.0 ≡ Fault.OverLimit) × (e.1 ≡ tree)
            × (is_certificate (rule_of tree) ≡ false)) }
    {
        // Starts at one more than the limit: room is left exactly if the limit isn't passed.
        if !is_shallow(&tree, MAX_DEPTH)
            || !keep_lists(&tree)
            || room_after(&tree, MAX_NODES + 1) == 0
        {
            return Err((Fault::OverLimit, tree));
        }
        Ok(Certificate { tree })
    }

    /// Returns the refutation.
    pub fn tree(&self) -> &Refutation<A>
        ensures rule { rule_of result.now ≡ certificate_rule self.now }
        ensures depth { depth_of (certificate_rule self.now) ≤ 40 }
        ensures limits { HasLimits (certificate_rule self.now) }
        ensures within { is_certificate (certificate_rule self.now) ≡ true }
    {
        &self.tree
    }

    /// Copies the certificate into another allocator.
    ///
    /// # Errors
    /// `NoMemory` if memory runs out.
    pub fn copy_in<B: Allocator + Clone>(&self, alloc: B) -> Result<Certificate<B>, Fault>
        ensures { Gives certificate_rule result (Ok (certificate_rule self.now)) }
    {
        let tree = copy_tree(&self.tree, &alloc)?;
        Ok(Certificate { tree })
    }
}
