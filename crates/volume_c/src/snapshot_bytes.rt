//! The bytes of a segment's snapshot, handed out piece by piece.

ghost use Rattle.std.specs.Prelude.{◌≡◌, ◌≤◌, ◌++◌, [], true, Ok, IfOk, drop, length, take};
ghost use Rattle.volume_model.specs.Common.{restarted};
ghost use Rattle.segment_core.specs.Segment.{node_of, IsSameActor};
ghost use Rattle.volume_c.specs.Saved.{segment_in, segment_spelled};

use crate::saved::snapshot_head;
use message_bytes::{put_at, write_records};
use segment_core::Segment;
use std::alloc::Global;
use std::sync::Arc;
use volume_model::Fault;
use wire::Contents;

/// The bytes of a segment's snapshot that weren't handed out yet. It shares the records with the segment.
#[derive(Drop)]
pub struct SnapshotBytes {
    /// What stands before the records, of which the first `taken` bytes were handed out.
    head: Vec<u8>,
    taken: usize,
    /// The records, of which the first `next` were handed out.
    contents: Arc<Contents>,
    next: usize,
}

impl SnapshotBytes {
    ghost use Rattle.volume_c.specs.SnapshotBytes.{bytes_left};

    /// Returns the bytes of a segment's snapshot, which are read back as the segment after a restart.
    ///
    /// # Errors
    /// `Full` if a list is longer than four bytes can count; `NoMemory`.
    pub fn of(alloc: Global, segment: &mut Segment) -> Result<SnapshotBytes, Fault>
        ensures bytes { IfOk result (λ bytes. bytes_left bytes ≡ segment_spelled (restarted (node_of segment.old))) }
        ensures reads { IfOk result (λ _. segment_in (segment_spelled (restarted (node_of segment.old)))
            ≡ Ok (restarted (node_of segment.old))) }
        ensures node { node_of segment.new ≡ node_of segment.old }
        ensures actor { IsSameActor segment.old segment.new }
    {
        let snapshot = segment.snapshot(alloc)?;
        let head = snapshot_head(alloc, &snapshot)?;
        Ok(SnapshotBytes {
            head,
            taken: 0,
            contents: snapshot.contents,
            next: 0,
        })
    }

    /// Returns whether all bytes were handed out.
    #[tactic(auto, using(crate::proofs::Pieces::empty_left))]
    pub fn is_empty(&self) -> bool
        ensures { result ≡ true → bytes_left self.now ≡ [] }
    {
        if self.taken < self.head.len() {
            return false;
        }
        if self.next < self.contents.records.len() {
            return false;
        }
        true
    }

    /// Hands out bytes that stand before the records.
    fn read_head(&mut self, out: &mut [u8]) -> usize
        ensures moves { bytes_left self.old ≡ take result out.new ++ bytes_left self.new }
        ensures back { drop result out.new ≡ drop result out.old }
        ensures within { result ≤ length out.old }
    {
        if self.taken >= self.head.len() {
            return 0;
        }
        let (_, left) = self.head.as_slice().split_at(self.taken);
        let count = if left.len() < out.len() {
            left.len()
        } else {
            out.len()
        };
        let (bytes, _) = left.split_at(count);
        put_at(out, 0, bytes);
        self.taken += count;
        count
    }

    /// Hands out as many whole records as fit, once all before them was handed out.
    fn read_records(&mut self, out: &mut [u8]) -> usize
        ensures moves { bytes_left self.old ≡ take result out.new ++ bytes_left self.new }
        ensures back { drop result out.new ≡ drop result out.old }
        ensures within { result ≤ length out.old }
    {
        if self.taken < self.head.len() || self.next > self.contents.records.len() {
            return 0;
        }
        let left = self.contents.records.records_from(self.next);
        let (records, bytes) = write_records(out, left);
        self.next += records;
        bytes
    }

    /// Hands out the next bytes to the front of a buffer, of the records as many as fit whole. Returns their number.
    pub fn read(&mut self, out: &mut [u8]) -> usize
        ensures moves { bytes_left self.old ≡ take result out.new ++ bytes_left self.new }
        ensures back { drop result out.new ≡ drop result out.old }
        ensures within { result ≤ length out.old }
    {
        let count = self.read_head(out);
        let (_, rest) = out.split_at_mut(count);
        count + self.read_records(rest)
    }
}
