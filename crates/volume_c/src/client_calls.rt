//! Recoveries and writers.

ghost use Rattle.std.specs.Prelude.{◌≡◌, ◌≢◌, Some, map, IfErr, IfOk};
ghost use Rattle.std.specs.Arc.{arc_value};
ghost use Rattle.volume_model.specs.Common.{Gives, taken, cut_client, opened, issued, page_asked, resent};
ghost use Rattle.plan.specs.Common.{checked_model};
ghost use Rattle.wire.specs.Common.{message_of};
ghost use Rattle.writer_core.specs.Writers.{client_of};
ghost use Rattle.volume_c.specs.View.{client_in, held_now, seen};
ghost use Rattle.volume_c.specs.Calls.{client_does, with_message, Does, Makes, Reads};
ghost use Rattle.volume_c.specs.Changes.{given_change};
ghost use Rattle.volume_c.specs.Clients.{acknowledged_value, birth_in, birth_step, first_step, point_value, points_of, points_value, IsNoWriter};

use crate::actor::{Actor, Held};
use crate::acts::client_step;
use crate::changes::{VolumeChange, changes};
use crate::constructors::{hold, plan_in};
use crate::handle::Handle;
use crate::status::WRONG_HANDLE;
use message_bytes::decode;
use plan::CheckedPlan;
use std::alloc::Global;
use std::sync::Arc;
use volume_model::Fault;
use wire::Message;
use world::{Client, ClientAction, ClientState};
use writer_core::Writer;

/// Takes a message, which is passed along: it has no number here.
const TAKE: ClientAction<'static> = ClientAction::Take { message: 0 };

/// The points of a writer's log.
#[repr(C)]
#[derive(Clone, Copy)]
pub struct VolumePoints {
    /// The greatest LSN up to which each record is acknowledged by a write quorum of its group.
    pub complete: u64,
    /// The greatest consistency point up to `complete`. A commit at or below it is durable.
    pub durable: u64,
    /// The LSN after which the writer's own records begin.
    pub start: u64,
    /// The greatest LSN of the log. After an issue it is the commit's.
    pub last: u64,
}

/// Makes the first writer of a new volume, with volume epoch 1 and no record. Call it once in the life of the volume;
/// each later writer comes from a recovery. `out` must be empty. On success it holds the writer.
#[unsafe(no_mangle)]
pub extern "C" fn volume_writer_first(alloc: Global, plan: &mut Handle, out: &mut Handle) -> u8
    ensures plan { plan.new.seal.held ≡ plan.old.seal.held }
    ensures makes { Makes (first_step (seen plan.old.seal.held)) result out.old.seal.held out.new.seal.held }
{
    if out.is_live() {
        return WRONG_HANDLE;
    }
    let plan = match plan_in(alloc, plan) {
        Ok(plan) => plan,
        Err(status) => return status,
    };
    match Client::first(alloc, plan) {
        Ok(client) => hold(alloc, Held::of(alloc, Actor::Client(client)), out),
        Err(fault) => fault.number(),
    }
}

/// Returns a recovery and its Fences from the View that makes it.
fn born(alloc: Global, plan: Arc<CheckedPlan>, message: &Message) -> Result<Held, Fault>
    ensures { Gives held_now result (birth_in (checked_model (arc_value plan)) (message_of message.now)) }
{
    let Message::View(view) = message else {
        return Err(Fault::NotAddressed);
    };
    let mut client = Client::unborn(plan, view.volume);
    let made = client.act(alloc, TAKE, Some(message))?;
    let mut held = Held::of(alloc, Actor::Client(client));
    held.outbox.fill(made);
    Ok(held)
}

/// Makes a recovery from a `View` message of the authority, as `volume_authority_assign` makes it. Its `Fence`
/// messages, one a group, are handed out by `volume_next_message`. `out` must be empty. On success it holds the
/// recovery.
///
/// Refused 1, 2 or 3 where the bytes aren't a message's; 81 where the message isn't a View; 41 where the View hasn't a
/// place for each group of the volume's birth, has one for a group that the plan lacks, or has one that is no
/// configuration of its group.
#[unsafe(no_mangle)]
pub extern "C" fn volume_recovery_new(
    alloc: Global,
    plan: &mut Handle,
    view: &[u8],
    out: &mut Handle,
) -> u8
    ensures plan { plan.new.seal.held ≡ plan.old.seal.held }
    ensures makes { Makes (birth_step view.now (seen plan.old.seal.held)) result out.old.seal.held out.new.seal.held }
{
    if out.is_live() {
        return WRONG_HANDLE;
    }
    let message = match decode(alloc, view) {
        Ok(message) => message,
        Err(fault) => return fault.number(),
    };
    let plan = match plan_in(alloc, plan) {
        Ok(plan) => plan,
        Err(status) => return status,
    };
    match born(alloc, plan, &message) {
        Ok(held) => hold(alloc, held, out),
        Err(fault) => fault.number(),
    }
}

/// Passes a recovery or a writer a message that is for it: a `View`, `Report`, `Ack` or `Page`. What it makes is handed
/// out by `volume_next_message`. A later `View` makes Fences before a recovery's cut, and Installs after it. Of a
/// `Page` the writer only checks that it is for this writer. It keeps nothing: the engine reads the page from the
/// message's last 512 bytes.
///
/// Refused 1, 2 or 3 where the bytes aren't a message's, 81 where the message isn't for this client, 41 where a View's
/// places aren't the plan's; 91 while there are messages to hand out.
#[unsafe(no_mangle)]
pub extern "C" fn volume_client_take(alloc: Global, client: &mut Handle, bytes: &[u8]) -> u8
    ensures { Does (with_message bytes.now (λ m. client_does (λ plan volume client. taken plan volume client m)
        (seen client.old.seal.held))) result client.old.seal.held client.new.seal.held }
{
    let message = match decode(alloc, bytes) {
        Ok(message) => message,
        Err(fault) => return fault.number(),
    };
    client_step(alloc, client, TAKE, Some(&message))
}

/// Finds the log in a recovery's reports, cuts it, and makes its `Install` messages.
///
/// Refused 74 until the senders of the reports are a read quorum of each group, 75 after the cut and of a writer, 73
/// where no LSNs are left.
#[unsafe(no_mangle)]
pub extern "C" fn volume_recovery_cut(alloc: Global, recovery: &mut Handle) -> u8
    ensures { Does (client_does cut_client (seen recovery.old.seal.held)) result recovery.old.seal.held
        recovery.new.seal.held }
{
    client_step(alloc, recovery, ClientAction::Cut, None)
}

/// Opens a recovery. On success the handle holds the writer of its volume epoch.
///
/// Refused 74 before the cut, and until a write quorum of each group has acknowledged its install; 75 of a writer.
#[unsafe(no_mangle)]
pub extern "C" fn volume_recovery_open(alloc: Global, recovery: &mut Handle) -> u8
    ensures { Does (client_does (λ plan volume client. opened plan client) (seen recovery.old.seal.held)) result
        recovery.old.seal.held recovery.new.seal.held }
{
    client_step(alloc, recovery, ClientAction::Open, None)
}

/// Issues a transaction of 1 to 32 changes. Makes one record for each change; the last record is a consistency point.
/// On a refusal it makes none. The `Write` messages are handed out by `volume_next_message`, in the order of the
/// changes; send each to all members of its group. The commit is durable once `volume_writer_acknowledged` says so of
/// the last record's LSN.
///
/// Refused 70 of a recovery, 72 where it isn't a transaction of good changes, 77 where a group hasn't joined, 73 where
/// no LSNs are left, 71 where the log would run further ahead of the durable point than the plan allows; 94 where a
/// change hasn't 1 to 64 bytes; 91 while there are messages to hand out.
#[unsafe(no_mangle)]
pub extern "C" fn volume_writer_issue(
    alloc: Global,
    writer: &mut Handle,
    given: &[VolumeChange],
) -> u8
    ensures { Does (client_does (λ plan volume client. issued plan volume client (map given_change given.now))
        (seen writer.old.seal.held)) result writer.old.seal.held writer.new.seal.held }
{
    let changes = match changes(alloc, given) {
        Ok(changes) => changes,
        Err(status) => return status,
    };
    client_step(alloc, writer, ClientAction::Issue(changes.as_slice()), None)
}

/// Makes the `Write` of a record of the log again, for members that may not have got it.
///
/// Refused 70 of a recovery, 76 where the log has no record with this LSN.
#[unsafe(no_mangle)]
pub extern "C" fn volume_writer_resend(alloc: Global, writer: &mut Handle, lsn: u64) -> u8
    ensures { Does (client_does (λ plan volume client. resent volume client lsn) (seen writer.old.seal.held)) result
        writer.old.seal.held writer.new.seal.held }
{
    client_step(alloc, writer, ClientAction::Resend { lsn }, None)
}

/// Makes a `PageAsk` for a block as of the durable point. Send it to a full member of the group.
///
/// Refused 70 of a recovery, 42 where the writer knows no such group.
#[unsafe(no_mangle)]
pub extern "C" fn volume_writer_read(
    alloc: Global,
    writer: &mut Handle,
    group: u8,
    block: u32,
) -> u8
    ensures { Does (client_does (λ plan volume client. page_asked volume client group block)
        (seen writer.old.seal.held)) result writer.old.seal.held writer.new.seal.held }
{
    client_step(alloc, writer, ClientAction::Read { group, block }, None)
}

/// Returns the writer that is held, or a status.
fn writer_of(held: &Held) -> Result<&Writer, u8>
    ensures writer { IfOk result (λ writer. client_in (seen (Some held.now)) ≡ Some (client_of writer.now)) }
    ensures status { IfErr result (λ status. IsNoWriter status (seen (Some held.now))) }
{
    match &held.actor {
        Actor::Client(client) => match client.state() {
            ClientState::Writer(writer) => Ok(writer),
            _ => Err(Fault::NotOpen.number()),
        },
        _ => Err(WRONG_HANDLE),
    }
}

/// Reads the points of the writer that is held.
fn points_of_held(held: &Held, points: &mut VolumePoints) -> u8
    ensures reads { Reads (points_value (seen (Some held.now))) (points_of points.new) result (Some held.now)
        (Some held.now) }
    ensures points { result ≢ 0 → points.new ≡ points.old }
{
    match writer_of(held) {
        Ok(writer) => {
            *points = VolumePoints {
                complete: writer.complete_point(),
                durable: writer.durable_point(),
                start: writer.start(),
                last: writer.log().last_lsn(),
            };
            0
        }
        Err(status) => status,
    }
}

/// Sets `points` to the points of a writer's log.
///
/// Refused 70 of a recovery.
#[unsafe(no_mangle)]
pub extern "C" fn volume_writer_points(
    alloc: Global,
    writer: &mut Handle,
    points: &mut VolumePoints,
) -> u8
    ensures reads { Reads (points_value (seen writer.old.seal.held)) (points_of points.new) result writer.old.seal.held
        writer.new.seal.held }
    ensures points { result ≢ 0 → points.new ≡ points.old }
{
    let Some(held) = writer.take(alloc) else {
        return WRONG_HANDLE;
    };
    let status = points_of_held(&held, points);
    writer.put(held);
    status
}

/// Reads the point of a group of the writer that is held.
fn point_of_held(held: &Held, group: u8, point: &mut u64) -> u8
    ensures reads { Reads (point_value group (seen (Some held.now))) point.new result (Some held.now) (Some held.now) }
    ensures point { result ≢ 0 → point.new ≡ point.old }
{
    match writer_of(held) {
        Ok(writer) => match writer.group_point(group) {
            Ok(found) => {
                *point = found;
                0
            }
            Err(fault) => fault.number(),
        },
        Err(status) => status,
    }
}

/// Sets `point` to the LSN up to which a write quorum has acknowledged a group's records.
///
/// Refused 70 of a recovery, 42 where the writer knows no such group.
#[unsafe(no_mangle)]
pub extern "C" fn volume_writer_group_point(
    alloc: Global,
    writer: &mut Handle,
    group: u8,
    point: &mut u64,
) -> u8
    ensures reads { Reads (point_value group (seen writer.old.seal.held)) point.new result writer.old.seal.held
        writer.new.seal.held }
    ensures point { result ≢ 0 → point.new ≡ point.old }
{
    let Some(held) = writer.take(alloc) else {
        return WRONG_HANDLE;
    };
    let status = point_of_held(&held, group, point);
    writer.put(held);
    status
}

/// Reads whether the commit at an LSN is acknowledged.
fn acknowledged_of_held(held: &Held, lsn: u64, acknowledged: &mut bool) -> u8
    ensures reads { Reads (acknowledged_value lsn (seen (Some held.now))) acknowledged.new result (Some held.now)
        (Some held.now) }
    ensures acknowledged { result ≢ 0 → acknowledged.new ≡ acknowledged.old }
{
    match writer_of(held) {
        Ok(writer) => {
            *acknowledged = writer.acknowledged(lsn);
            0
        }
        Err(status) => status,
    }
}

/// Sets `acknowledged` to whether `lsn` is a consistency point of the log at or below the durable point. No recovery
/// loses such a commit.
///
/// Refused 70 of a recovery.
#[unsafe(no_mangle)]
pub extern "C" fn volume_writer_acknowledged(
    alloc: Global,
    writer: &mut Handle,
    lsn: u64,
    acknowledged: &mut bool,
) -> u8
    ensures reads { Reads (acknowledged_value lsn (seen writer.old.seal.held)) acknowledged.new result
        writer.old.seal.held writer.new.seal.held }
    ensures acknowledged { result ≢ 0 → acknowledged.new ≡ acknowledged.old }
{
    let Some(held) = writer.take(alloc) else {
        return WRONG_HANDLE;
    };
    let status = acknowledged_of_held(&held, lsn, acknowledged);
    writer.put(held);
    status
}
