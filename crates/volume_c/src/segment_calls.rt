//! Segments.

ghost use Rattle.std.specs.Prelude.{◌≡◌, ◌≢◌, Some, take};
ghost use Rattle.volume_model.specs.Common.{hydrated, offered, reaction};
ghost use Rattle.volume_c.specs.View.{seen};
ghost use Rattle.volume_c.specs.Calls.{node_does, with_message, Does, Makes, Reads};
ghost use Rattle.volume_c.specs.Segments.{born_step, page_value, resumed_step, scl_value, state_of, state_value};

use crate::actor::{Actor, Held};
use crate::acts::{deliver_step, segment_step};
use crate::buffer::copy_out;
use crate::constructors::{hold, plan_in};
use crate::handle::Handle;
use crate::saved::read_segment;
use crate::status::{TOO_SMALL, WRONG_HANDLE};
use message_bytes::decode;
use segment_core::{NodeAction, Segment};
use std::alloc::Global;

/// The bytes of a block.
const BLOCK: usize = 512;

/// The state of a segment.
#[repr(C)]
#[derive(Clone, Copy)]
pub struct VolumeSegmentState {
    /// The segment complete point: the greatest LSN up to which it holds all records of its group.
    pub complete_point: u64,
    /// How many records it holds.
    pub records: u64,
    /// The volume epoch that it has promised.
    pub volume_epoch: u32,
    /// The membership epoch of the last step that it took; 0 before the first step of a member that isn't whole.
    pub membership_epoch: u32,
    /// The configuration of that step.
    pub configuration: u32,
    /// 1 if it is whole, else 0.
    pub is_whole: u32,
}

/// Makes the segment of a member of a group as it is when the volume is born: a member of the group's first
/// configuration is whole and empty, any other member waits to be made whole. Call it once in the life of a node; after
/// a restart call `volume_segment_resume`. `out` must be empty. On success it holds the segment.
///
/// Refused 82 where the plan names no such member.
#[unsafe(no_mangle)]
pub extern "C" fn volume_segment_new(
    alloc: Global,
    plan: &mut Handle,
    group: u8,
    member: u8,
    out: &mut Handle,
) -> u8
    ensures plan { plan.new.seal.held ≡ plan.old.seal.held }
    ensures makes { Makes (born_step group member (seen plan.old.seal.held)) result out.old.seal.held
        out.new.seal.held }
{
    if out.is_live() {
        return WRONG_HANDLE;
    }
    let plan = match plan_in(alloc, plan) {
        Ok(plan) => plan,
        Err(status) => return status,
    };
    match Segment::new(alloc, plan, group, member) {
        Ok(segment) => hold(alloc, Held::of(alloc, Actor::Segment(segment)), out),
        Err(fault) => fault.number(),
    }
}

/// Makes a segment from the bytes of a snapshot, all that `volume_snapshot_read` wrote: the segment that was saved,
/// after a restart. Then pass it, by `volume_segment_take`, each message that was logged since, in the order of the
/// log, and drop the answers. `out` must be empty. On success it holds the segment.
///
/// Refused 1, 2 or 3 where the bytes aren't a snapshot's, and 82 where the plan names no such member.
#[unsafe(no_mangle)]
pub extern "C" fn volume_segment_resume(
    alloc: Global,
    plan: &mut Handle,
    group: u8,
    member: u8,
    bytes: &[u8],
    out: &mut Handle,
) -> u8
    ensures plan { plan.new.seal.held ≡ plan.old.seal.held }
    ensures makes { Makes (resumed_step bytes.now group member (seen plan.old.seal.held)) result out.old.seal.held
        out.new.seal.held }
{
    if out.is_live() {
        return WRONG_HANDLE;
    }
    let snapshot = match read_segment(alloc, bytes) {
        Ok(snapshot) => snapshot,
        Err(fault) => return fault.number(),
    };
    let plan = match plan_in(alloc, plan) {
        Ok(plan) => plan,
        Err(status) => return status,
    };
    match Segment::resumed(alloc, plan, group, member, snapshot) {
        Ok(segment) => hold(alloc, Held::of(alloc, Actor::Segment(segment)), out),
        Err(fault) => fault.number(),
    }
}

/// Passes a segment a message: a `StepTo`, `Fence`, `Install`, `Write`, `Gossip`, `CopyAsk`, `CopyReport` or `PageAsk`.
/// Its answers are handed out by `volume_next_message`. Log the message before an answer leaves the node: if it can't
/// be logged, close the handle and resume the segment from the disk. A message that is refused changes nothing, and
/// isn't logged.
///
/// Refused 1, 2 or 3 where the bytes aren't a message's, 9, 50 to 62, 81 and 41 as docs/FAULTS.md says; 91 while there
/// are messages to hand out.
#[unsafe(no_mangle)]
pub extern "C" fn volume_segment_take(alloc: Global, segment: &mut Handle, bytes: &[u8]) -> u8
    ensures { Does (with_message bytes.now (λ m. node_does (λ plan group member node.
        reaction plan group member node m) (seen segment.old.seal.held))) result segment.old.seal.held
        segment.new.seal.held }
{
    let message = match decode(alloc, bytes) {
        Ok(message) => message,
        Err(fault) => return fault.number(),
    };
    deliver_step(alloc, segment, &message)
}

/// Makes a segment whole from the copies that it took. Take a snapshot and put it on the disk before the segment takes
/// another message: copies don't survive a restart.
///
/// Refused 56 where it is whole, 57 where the copies aren't those of a read quorum, 55 where they hold more records
/// than a segment may.
#[unsafe(no_mangle)]
pub extern "C" fn volume_segment_hydrate(alloc: Global, segment: &mut Handle) -> u8
    ensures { Does (node_does hydrated (seen segment.old.seal.held)) result segment.old.seal.held
        segment.new.seal.held }
{
    segment_step(alloc, segment, NodeAction::Hydrate)
}

/// Makes a `Gossip` of the record with this LSN, for the other nodes of the group.
///
/// Refused 54 before the segment is whole, 53 where it has promised a later volume epoch than that of its log, 58
/// where it holds no such record.
#[unsafe(no_mangle)]
pub extern "C" fn volume_segment_offer(alloc: Global, segment: &mut Handle, lsn: u64) -> u8
    ensures { Does (node_does (λ plan group member node. offered group node lsn) (seen segment.old.seal.held)) result
        segment.old.seal.held segment.new.seal.held }
{
    segment_step(alloc, segment, NodeAction::Offer { lsn })
}

/// Reads the page of a block from what is held.
fn page_of_held(
    alloc: Global,
    held: &mut Held,
    block: u32,
    point: u64,
    page: &mut [u8],
    needed: &mut usize,
) -> u8
    ensures reads { Reads (page_value block point (seen (Some held.old))) (take 512 page.new) result (Some held.old)
        (Some held.new) }
    ensures page { result ≢ 0 → page.new ≡ page.old }
{
    match &mut held.actor {
        Actor::Segment(segment) => match segment.page_at(alloc, block, point) {
            Ok(bytes) => copy_out(&bytes, page, needed),
            Err(fault) => fault.number(),
        },
        _ => WRONG_HANDLE,
    }
}

/// Writes the 512 bytes of a block as its records up to an LSN make it. The segment's node calls it for a reader that
/// knows the durable point; a writer asks by `volume_writer_read`.
///
/// Refused 54 before the segment is whole, 60 where the member keeps no pages, 61 where the segment isn't complete up
/// to `point`; 92 where `page` has fewer than 512 bytes.
#[unsafe(no_mangle)]
pub extern "C" fn volume_segment_page(
    alloc: Global,
    segment: &mut Handle,
    block: u32,
    point: u64,
    page: &mut [u8],
) -> u8
    ensures reads { Reads (page_value block point (seen segment.old.seal.held)) (take 512 page.new) result
        segment.old.seal.held segment.new.seal.held }
    ensures page { result ≢ 0 → page.new ≡ page.old }
{
    if page.len() < BLOCK {
        return TOO_SMALL;
    }
    let Some(mut held) = segment.take(alloc) else {
        return WRONG_HANDLE;
    };
    let mut needed = 0;
    let status = page_of_held(alloc, &mut held, block, point, page, &mut needed);
    segment.put(held);
    status
}

/// Reads the complete point of what is held.
fn scl_of_held(held: &Held, scl: &mut u64) -> u8
    ensures reads { Reads (scl_value (seen (Some held.now))) scl.new result (Some held.now) (Some held.now) }
    ensures scl { result ≢ 0 → scl.new ≡ scl.old }
{
    match &held.actor {
        Actor::Segment(segment) => {
            *scl = segment.scl();
            0
        }
        _ => WRONG_HANDLE,
    }
}

/// Returns the segment complete point (SCL) in `scl`: the greatest LSN up to which the segment holds all records of its
/// group.
#[unsafe(no_mangle)]
pub extern "C" fn volume_segment_scl(alloc: Global, segment: &mut Handle, scl: &mut u64) -> u8
    ensures reads { Reads (scl_value (seen segment.old.seal.held)) scl.new result segment.old.seal.held
        segment.new.seal.held }
    ensures scl { result ≢ 0 → scl.new ≡ scl.old }
{
    let Some(held) = segment.take(alloc) else {
        return WRONG_HANDLE;
    };
    let status = scl_of_held(&held, scl);
    segment.put(held);
    status
}

/// Reads the state of the segment that is held.
fn state_of_held(held: &Held, out: &mut VolumeSegmentState) -> u8
    ensures reads { Reads (state_value (seen (Some held.now))) (state_of out.new) result (Some held.now)
        (Some held.now) }
    ensures out { result ≢ 0 → out.new ≡ out.old }
{
    match &held.actor {
        Actor::Segment(segment) => {
            let status = segment.status();
            *out = VolumeSegmentState {
                complete_point: status.complete_point,
                records: status.records as u64,
                volume_epoch: status.volume_epoch,
                membership_epoch: status.membership_epoch,
                configuration: u32::from(status.configuration),
                is_whole: u32::from(status.is_whole),
            };
            0
        }
        _ => WRONG_HANDLE,
    }
}

/// Returns a segment's epochs, its complete point and the number of its records in `state`. A node has taken a step
/// once `membership_epoch` is that of the step.
#[unsafe(no_mangle)]
pub extern "C" fn volume_segment_state(
    alloc: Global,
    segment: &mut Handle,
    state: &mut VolumeSegmentState,
) -> u8
    ensures reads { Reads (state_value (seen segment.old.seal.held)) (state_of state.new) result
        segment.old.seal.held segment.new.seal.held }
    ensures state { result ≢ 0 → state.new ≡ state.old }
{
    let Some(held) = segment.take(alloc) else {
        return WRONG_HANDLE;
    };
    let status = state_of_held(&held, state);
    segment.put(held);
    status
}
