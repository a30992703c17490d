//! Picks thresholds for a new plan. What is picked is checked again in the plan that is read back.
//!
//! Read sets and write sets that survive given losses can meet exactly if the members that stay after a loss always
//! share a member with those that stay after another one. Then these meet:
//!
//! - Any `n` of `m` members may be lost: a set writes with `m - n` members, and reads with `n + 1`.
//! - A zone may be lost: the same, with the size of the largest zone as `n`, if read sets survive what is asked then.
//! - Else a set writes that has a part of all zones but one, and a set reads that has a part of two zones. The parts of
//!   a zone of `z` members are `z / 2 + 1` of them for writes, and for reads as many as meet these. With three zones,
//!   of which read sets survive one and one more member, a part is the whole zone for writes, and one member for reads.

use crate::new_refusal::NewRefusal;
use quorum_expr::{MEMBERS, MemberSet};

/// Thresholds over all members.
#[derive(Clone, Copy)]
pub struct Counts {
    /// The members of a read set.
    pub read: u16,
    /// The members of a write set.
    pub write: u16,
}

/// Returns the thresholds of sets that survive the loss of `lost` of `count` members, if read sets survive the loss of
/// `more` others too.
pub fn counts_for(count: u8, lost: u8, more: u8) -> Option<Counts> {
    let (count, lost, more) = (u16::from(count), u16::from(lost), u16::from(more));
    if 2 * lost + more >= count {
        return None;
    }
    Some(Counts {
        read: lost + 1,
        write: count - lost,
    })
}

/// Returns the size of the largest zone.
pub fn largest(zones: &[MemberSet]) -> u8 {
    zones.iter().map(|zone| zone.len()).max().unwrap_or(0)
}

/// Returns how many members of a zone of `size` members are a part of it: for a read set, and for a write set.
pub fn part_of(size: u8, zones: usize, is_one_more: bool) -> Counts {
    let size = u16::from(size);
    if is_one_more && zones == 3 {
        return Counts {
            read: 1,
            write: size,
        };
    }
    Counts {
        read: size.saturating_sub(size / 2),
        write: size / 2 + 1,
    }
}

/// Returns the first `count` members of a set.
fn first_of(members: MemberSet, count: u8) -> MemberSet {
    let mut first = MemberSet::empty();
    for member in 0..MEMBERS {
        if members.contains(member) && first.len() < count {
            first = first.with(member);
        }
    }
    first
}

/// Returns two disjoint sets of which one has to read and the other to write if any `lost` members may be lost.
pub fn apart_after_losses(members: MemberSet, lost: u8) -> NewRefusal {
    let write = first_of(members, lost);
    NewRefusal::Apart {
        read: members.difference(write),
        write,
    }
}

/// Returns members of which `left` has none but one at most.
fn one_more(left: MemberSet, is_one_more: bool) -> MemberSet {
    match left.first() {
        Some(member) if is_one_more && member < MEMBERS => MemberSet::empty().with(member),
        _ => MemberSet::empty(),
    }
}

/// Checks that what is left after the loss of a zone, and of one more member if read sets survive that, always shares a
/// member with what is left after the loss of another zone.
///
/// # Errors
/// Two disjoint sets, of which one has to read and the other to write.
pub fn check_zones(
    members: MemberSet,
    zones: &[MemberSet],
    is_one_more: bool,
) -> Result<(), NewRefusal> {
    for zone in zones {
        for other in zones {
            let write = members.difference(*other);
            let both = write.difference(*zone);
            let gone = one_more(both, is_one_more);
            if both.difference(gone).is_empty() {
                return Err(NewRefusal::Apart {
                    read: members.difference(*zone).difference(gone),
                    write,
                });
            }
        }
    }
    Ok(())
}
