//! The authority.

ghost use Rattle.std.specs.Prelude.{◌≡◌, ◌≢◌, Some, take};
ghost use Rattle.volume_model.specs.Common.{assigned, advanced, refreshed, grown};
ghost use Rattle.volume_c.specs.View.{seen};
ghost use Rattle.volume_c.specs.Calls.{authority_does, Does, Makes, Reads};
ghost use Rattle.volume_c.specs.Authorities.{opening_step, resumed_step, snapshot_value};

use crate::actor::{Actor, Held};
use crate::acts::authority_step;
use crate::buffer::copy_out;
use crate::constructors::{hold, plan_in};
use crate::handle::Handle;
use crate::saved::{authority_bytes, read_authority};
use crate::status::WRONG_HANDLE;
use epochs::Authority;
use std::alloc::Global;
use world::AuthorityAction;

/// Makes the authority of a new volume: volume epoch 1 is assigned, and each group of the volume's birth is at its
/// first configuration. A volume has one authority; call it once in the life of the volume. `out` must be empty. On
/// success it holds the authority.
#[unsafe(no_mangle)]
pub extern "C" fn volume_authority_new(alloc: Global, plan: &mut Handle, out: &mut Handle) -> u8
    ensures plan { plan.new.seal.held ≡ plan.old.seal.held }
    ensures makes { Makes (opening_step (seen plan.old.seal.held)) result out.old.seal.held out.new.seal.held }
{
    if out.is_live() {
        return WRONG_HANDLE;
    }
    let plan = match plan_in(alloc, plan) {
        Ok(plan) => plan,
        Err(status) => return status,
    };
    match Authority::new(alloc, plan) {
        Ok(authority) => hold(alloc, Held::of(alloc, Actor::Authority(authority)), out),
        Err(fault) => fault.number(),
    }
}

/// Makes an authority from the bytes that `volume_authority_snapshot` wrote. `out` must be empty. On success it holds
/// the authority.
///
/// Refused 1 or 2 where the bytes aren't an authority's snapshot, and 2 where its last volume epoch is 0; 42 where it
/// has fewer groups than the plan has at birth, or more groups than the plan has.
#[unsafe(no_mangle)]
pub extern "C" fn volume_authority_resume(
    alloc: Global,
    plan: &mut Handle,
    bytes: &[u8],
    out: &mut Handle,
) -> u8
    ensures plan { plan.new.seal.held ≡ plan.old.seal.held }
    ensures makes { Makes (resumed_step bytes.now (seen plan.old.seal.held)) result out.old.seal.held
        out.new.seal.held }
{
    if out.is_live() {
        return WRONG_HANDLE;
    }
    let snapshot = match read_authority(alloc, bytes) {
        Ok(snapshot) => snapshot,
        Err(fault) => return fault.number(),
    };
    let plan = match plan_in(alloc, plan) {
        Ok(plan) => plan,
        Err(status) => return status,
    };
    match Authority::resumed(plan, snapshot) {
        Ok(authority) => hold(alloc, Held::of(alloc, Actor::Authority(authority)), out),
        Err(fault) => fault.number(),
    }
}

/// Assigns the next volume epoch, and makes the `View` for its recovery. Put a snapshot of the authority on the disk
/// before the View leaves. If the snapshot can't be written, close the handle and resume the authority from the disk.
///
/// Refused 43 where no volume epoch is left.
#[unsafe(no_mangle)]
pub extern "C" fn volume_authority_assign(alloc: Global, authority: &mut Handle) -> u8
    ensures { Does (authority_does assigned (seen authority.old.seal.held)) result authority.old.seal.held
        authority.new.seal.held }
{
    authority_step(alloc, authority, AuthorityAction::Assign)
}

/// Advances a group to a child of its configuration. `configuration` is the child's number in the group's list. Makes
/// the `StepTo` for the nodes of the old and of the new configuration. Put a snapshot of the authority on the disk
/// before the message leaves.
///
/// Refused 42 where no such group has joined, 41 where the group's configuration has no such child.
#[unsafe(no_mangle)]
pub extern "C" fn volume_authority_advance(
    alloc: Global,
    authority: &mut Handle,
    group: u8,
    configuration: u32,
) -> u8
    ensures { Does (authority_does (λ plan authority. advanced plan authority group configuration)
        (seen authority.old.seal.held)) result authority.old.seal.held authority.new.seal.held }
{
    authority_step(
        alloc,
        authority,
        AuthorityAction::Advance {
            group,
            configuration,
        },
    )
}

/// Makes a `View` of the groups' places for the client of the last volume epoch, which takes it by
/// `volume_client_take`.
///
/// Refused 40 for any other volume epoch.
#[unsafe(no_mangle)]
pub extern "C" fn volume_authority_refresh(alloc: Global, authority: &mut Handle, volume: u32) -> u8
    ensures { Does (authority_does (λ plan authority. refreshed plan authority volume) (seen authority.old.seal.held))
        result authority.old.seal.held authority.new.seal.held }
{
    authority_step(alloc, authority, AuthorityAction::Refresh { volume })
}

/// Lets the plan's next group join, at its first configuration. Put a snapshot of the authority on the disk before the
/// next `View` leaves.
///
/// Refused 44 where every group of the plan has joined.
#[unsafe(no_mangle)]
pub extern "C" fn volume_authority_grow(alloc: Global, authority: &mut Handle) -> u8
    ensures { Does (authority_does grown (seen authority.old.seal.held)) result authority.old.seal.held
        authority.new.seal.held }
{
    authority_step(alloc, authority, AuthorityAction::Grow)
}

/// Writes the snapshot of what is held.
fn snapshot_of_held(alloc: Global, held: &Held, out: &mut [u8], needed: &mut usize) -> u8
    ensures reads { Reads (snapshot_value (seen (Some held.now))) (take needed.new out.new) result (Some held.now)
        (Some held.now) }
    ensures out { result ≢ 0 → out.new ≡ out.old }
{
    match &held.actor {
        Actor::Authority(authority) => match authority_bytes(alloc, authority) {
            Ok(bytes) => copy_out(bytes.as_slice(), out, needed),
            Err(fault) => fault.number(),
        },
        _ => WRONG_HANDLE,
    }
}

/// Writes the state of an authority, as docs/WIRE.md lays it out: 23 bytes at most. `needed` is the length; 92 where
/// `out` is shorter.
#[unsafe(no_mangle)]
pub extern "C" fn volume_authority_snapshot(
    alloc: Global,
    authority: &mut Handle,
    out: &mut [u8],
    needed: &mut usize,
) -> u8
    ensures reads { Reads (snapshot_value (seen authority.old.seal.held)) (take needed.new out.new) result
        authority.old.seal.held authority.new.seal.held }
    ensures out { result ≢ 0 → out.new ≡ out.old }
{
    *needed = 0;
    let Some(held) = authority.take(alloc) else {
        return WRONG_HANDLE;
    };
    let status = snapshot_of_held(alloc, &held, out, needed);
    authority.put(held);
    status
}
