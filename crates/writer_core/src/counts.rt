//! The acknowledgements of a group that a client counts.

ghost use Rattle.std.specs.Prelude.{◌≡◌, ◌<◌, max, OnOk, OnErr, MatchOption};
ghost use Rattle.std.specs.FinSet as set;
ghost use Rattle.volume_model.specs.Common.{best, reaching, with_count};
ghost use Rattle.quorum_expr.specs.Common.{formula_of};
ghost use Rattle.writer_core.specs.Counts.{counts_of, IsNew, IsPlaceOf};

use crate::count::Count;
use quorum_expr::{Expr, MemberSet, holds};
use std::alloc::{AllocFailed, Global};

/// Returns the members whose counted complete point is at least `limit`.
pub fn reaching(counts: &[Count], limit: u64) -> MemberSet
    ensures { set.contains result ≡ reaching (counts_of counts.now) limit }
{
    let mut members = MemberSet::empty();
    for count in counts {
        if limit <= count.reached {
            members = members.with(count.sender);
        }
    }
    members
}

/// Returns the greatest counted number that a set of members satisfying the expression has reached, or `least` if that
/// is greater.
pub fn best_from(write: &Expr<Global>, counts: &[Count], least: u64) -> u64
    ensures { result ≡ max least (best (formula_of write.now) (counts_of counts.now) (counts_of counts.now)) }
{
    let (mut best, mut most) = (least, u64::MAX);
    for count in counts {
        let reached = count.reached;
        if best < reached && reached <= most {
            if holds(write, reaching(counts, reached)) {
                best = reached;
            } else {
                // Fewer members have reached more.
                most = reached - 1;
            }
        }
    }
    best
}

/// Returns the place of a sender's count, if there is one.
fn place_of(counts: &[Count], sender: u8) -> Option<usize>
    ensures { MatchOption result (IsNew sender counts.now) (IsPlaceOf sender counts.now) }
{
    for place in 0..counts.len() {
        if counts[place].sender == sender {
            return Some(place);
        }
    }
    None
}

/// Counts an acknowledgement. The greatest complete point of each sender is kept.
pub fn add(counts: &mut Vec<Count>, sender: u8, reached: u64) -> Result<(), AllocFailed<Count>>
    requires { sender < 64 }
    ensures counted { OnOk result (counts_of counts.new.items ≡ with_count sender reached
        (counts_of counts.old.items)) }
    ensures same { OnErr result (counts.new.items ≡ counts.old.items) }
{
    match place_of(counts.as_slice(), sender) {
        Some(place) => {
            let kept = counts[place].reached;
            counts[place].reached = kept.max(reached);
            Ok(())
        }
        None => counts.push(Count { sender, reached }),
    }
}
