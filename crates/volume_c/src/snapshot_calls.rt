//! Snapshots of segments.

ghost use Rattle.std.specs.Prelude.{◌≡◌, ◌≢◌, ◌⊎◌, [], None, Some, Ok};
ghost use Rattle.volume_model.specs.Common.{restarted};
ghost use Rattle.segment_core.specs.Segment.{node_of, IsSameActor};
ghost use Rattle.volume_c.specs.View.{ASnapshot, seen, unsent};
ghost use Rattle.volume_c.specs.Calls.{node_does, Does, Makes};
ghost use Rattle.volume_c.specs.Saved.{segment_in, segment_spelled};
ghost use Rattle.volume_c.specs.Segments.{dropped, snapshot_step, saved_in, IsSaved};
ghost use Rattle.volume_c.specs.Snapshots.{ReadsNext};

use crate::actor::{Actor, Held};
use crate::constructors::hold;
use crate::handle::Handle;
use crate::snapshot_bytes::SnapshotBytes;
use crate::status::{BAD_LENGTH, NO_MORE, TOO_SMALL, UNSENT, WRONG_HANDLE};
use segment_core::Segment;
use std::alloc::Global;
use volume_model::Fault;

/// Saves a segment: fills an empty handle with its snapshot, and drops its pieces.
fn save(alloc: Global, segment: &mut Segment, out: &mut Handle) -> u8
    requires { out.old.seal.held ≡ None }
    ensures node { result ≡ 0 → node_of segment.new ≡ restarted (node_of segment.old) }
    ensures bytes { result ≡ 0 → seen out.new.seal.held
        ≡ ASnapshot (segment_spelled (restarted (node_of segment.old))) }
    ensures nothing { result ≡ 0 → unsent out.new.seal.held ≡ [] }
    ensures reads { result ≡ 0 → segment_in (segment_spelled (restarted (node_of segment.old)))
        ≡ Ok (restarted (node_of segment.old)) }
    ensures unchanged { result ≢ 0 → (node_of segment.new ≡ node_of segment.old)
        × (out.new.seal.held ≡ out.old.seal.held) }
    ensures own { result ≢ 0 → (result ≡ 94) ⊎ (result ≡ 9) }
    ensures actor { IsSameActor segment.old segment.new }
{
    let bytes = match SnapshotBytes::of(alloc, segment) {
        Ok(bytes) => bytes,
        Err(Fault::NoMemory) => return Fault::NoMemory.number(),
        Err(_) => return BAD_LENGTH,
    };
    let status = hold(alloc, Held::of(alloc, Actor::Snapshot(bytes)), out);
    if status != 0 {
        return status;
    }
    segment.restart();
    0
}

/// Saves the segment that is held.
fn save_held(alloc: Global, held: &mut Held, out: &mut Handle) -> u8
    requires { out.old.seal.held ≡ None }
    ensures does { Does (node_does dropped (seen (Some held.old))) result (Some held.old) (Some held.new) }
    ensures makes { Makes (snapshot_step (seen (Some held.old))) result out.old.seal.held out.new.seal.held }
    ensures saved { result ≡ 0 → IsSaved (saved_in (seen out.new.seal.held)) (seen (Some held.new)) }
{
    if !held.outbox.is_empty() {
        return UNSENT;
    }
    match &mut held.actor {
        Actor::Segment(segment) => save(alloc, segment, out),
        _ => WRONG_HANDLE,
    }
}

/// Takes a snapshot of a segment, and drops the pieces of copies and installs that are under way, as a restart does.
/// `out` must be empty. On success it holds the snapshot, whose bytes `volume_snapshot_read` hands out, and the
/// segment's handle holds exactly what the bytes are resumed to. A resumed segment that takes the messages logged
/// since, in order, reaches the same state.
///
/// The snapshot shares the segment's records: it takes some 8 bytes for each of them, and stays as it is whatever the
/// segment does meanwhile. It may be read in another thread.
///
/// Refused 91 while there are messages to hand out.
#[unsafe(no_mangle)]
pub extern "C" fn volume_segment_snapshot(
    alloc: Global,
    segment: &mut Handle,
    out: &mut Handle,
) -> u8
    ensures does { Does (node_does dropped (seen segment.old.seal.held)) result segment.old.seal.held
        segment.new.seal.held }
    ensures makes { Makes (snapshot_step (seen segment.old.seal.held)) result out.old.seal.held out.new.seal.held }
    ensures saved { result ≡ 0 → IsSaved (saved_in (seen out.new.seal.held)) (seen segment.new.seal.held) }
{
    if out.is_live() {
        return WRONG_HANDLE;
    }
    let Some(mut held) = segment.take(alloc) else {
        return WRONG_HANDLE;
    };
    let status = save_held(alloc, &mut held, out);
    segment.put(held);
    status
}

/// Hands out the next bytes of the snapshot that is held.
fn read_held(held: &mut Held, out: &mut [u8], written: &mut usize) -> u8
    ensures { ReadsNext result (Some held.old) (Some held.new) written.new out.old out.new }
{
    match &mut held.actor {
        Actor::Snapshot(bytes) => {
            if bytes.is_empty() {
                return NO_MORE;
            }
            let count = bytes.read(out);
            if count == 0 {
                return TOO_SMALL;
            }
            *written = count;
            0
        }
        _ => WRONG_HANDLE,
    }
}

/// Writes the next bytes of a snapshot to the front of `out`, as docs/WIRE.md lays them out: of its records as many as
/// fit whole. `written` is their number. What the calls write, one after the other, is what `volume_segment_resume`
/// takes. A snapshot has some 50 to 109 bytes for each record; a buffer that is large enough gets all bytes at once.
///
/// Returns 93 where all bytes were written before, 92 where `out` is too short for the next record: 109 bytes suffice.
#[unsafe(no_mangle)]
pub extern "C" fn volume_snapshot_read(
    alloc: Global,
    snapshot: &mut Handle,
    out: &mut [u8],
    written: &mut usize,
) -> u8
    ensures { ReadsNext result snapshot.old.seal.held snapshot.new.seal.held written.new out.old out.new }
{
    *written = 0;
    let Some(mut held) = snapshot.take(alloc) else {
        return WRONG_HANDLE;
    };
    let status = read_held(&mut held, out, written);
    snapshot.put(held);
    status
}
