//! The newest of several lineages.

ghost use Rattle.std.specs.Prelude.{◌<◌, ◌≤◌, ℕ, length, slice_index};
ghost use Rattle.lineage.specs.Newest.{last_epochs};

use crate::lineage::Lineage;

/// Returns the index of the newest lineage, the first with the greatest last epoch. Allocates nothing.
pub fn newest(lineages: &[Lineage]) -> usize
    requires { 0 < length lineages.now }
    ensures there { result < length lineages.now }
    ensures greatest { (k : ℕ) → k < length lineages.now → slice_index (last_epochs lineages.now) k ≤ slice_index
        (last_epochs lineages.now) result }
    ensures first { (k : ℕ) → k < result → slice_index (last_epochs lineages.now) k < slice_index
        (last_epochs lineages.now) result }
{
    let mut newest = 0;
    for place in 1..lineages.len() {
        if lineages[newest].last_epoch() < lineages[place].last_epoch() {
            newest = place;
        }
    }
    newest
}
