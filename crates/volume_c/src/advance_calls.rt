//! Decides whether an advance has to wait.

ghost use Rattle.std.specs.Prelude.{◌≡◌, ◌≢◌, Some};
ghost use Rattle.std.specs.FinSet as set;
ghost use Rattle.volume_c.specs.View.{seen};
ghost use Rattle.volume_c.specs.Calls.{Reads};
ghost use Rattle.volume_c.specs.Advances.{among, readiness_value, readiness_of};

use crate::actor::{Actor, Held};
use crate::handle::Handle;
use crate::status::WRONG_HANDLE;
use quorum_expr::MemberSet;
use std::alloc::Global;

/// What the whole members of a group can do after an advance.
#[repr(C)]
#[derive(Clone, Copy)]
pub struct VolumeReadiness {
    /// Whether they satisfy the configuration's read expression. Advance only if they do.
    pub can_read: bool,
    /// Whether they satisfy its write expression. If not, commits wait until more members have hydrated.
    pub can_write: bool,
}

/// Returns the set of these members. Numbers above 63 are ignored.
fn set_of(members: &[u8]) -> MemberSet
    ensures { set.contains result ≡ among members.now }
{
    let mut found = MemberSet::empty();
    for member in members {
        if *member < 64 {
            found = found.with(*member);
        }
    }
    found
}

/// Reads what whole members allow after an advance of the authority that is held.
fn readiness_of_held(
    held: &Held,
    group: u8,
    configuration: u32,
    whole: &[u8],
    readiness: &mut VolumeReadiness,
) -> u8
    ensures reads { Reads (readiness_value group configuration whole.now (seen (Some held.now)))
        (readiness_of readiness.new) result (Some held.now) (Some held.now) }
    ensures readiness { result ≢ 0 → readiness.new ≡ readiness.old }
{
    match &held.actor {
        Actor::Authority(authority) => {
            match authority.may_advance(group, configuration, set_of(whole)) {
                Ok(found) => {
                    *readiness = VolumeReadiness {
                        can_read: found.can_read,
                        can_write: found.can_write,
                    };
                    0
                }
                Err(fault) => fault.number(),
            }
        }
        _ => WRONG_HANDLE,
    }
}

/// Sets `readiness` to what the whole members of a group can do after `volume_authority_advance` to a configuration.
/// `whole` has their numbers, from 0 to 63. Advance only if `can_read` is true: a recovery needs the reports of a read
/// quorum, and only whole members report. A whole member stays whole, so an older list is correct too.
///
/// Refused 42 where no such group has joined, 41 where the group's configuration has no such child.
#[unsafe(no_mangle)]
pub extern "C" fn volume_authority_may_advance(
    alloc: Global,
    authority: &mut Handle,
    group: u8,
    configuration: u32,
    whole: &[u8],
    readiness: &mut VolumeReadiness,
) -> u8
    ensures reads { Reads (readiness_value group configuration whole.now (seen authority.old.seal.held))
        (readiness_of readiness.new) result authority.old.seal.held authority.new.seal.held }
    ensures readiness { result ≢ 0 → readiness.new ≡ readiness.old }
{
    let Some(held) = authority.take(alloc) else {
        return WRONG_HANDLE;
    };
    let status = readiness_of_held(&held, group, configuration, whole, readiness);
    authority.put(held);
    status
}
