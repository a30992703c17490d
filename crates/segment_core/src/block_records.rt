//! The records of one block: a list while they come in order, else a set.

ghost use Rattle.std.specs.Prelude.{◌≡◌, List, IfOk, IsTrue, [], All, length};
ghost use Rattle.volume_model.specs.Common.{Redo, page_of, with_record};
ghost use Rattle.redo_record.specs.Common.{ComesAfter, IsInOrder, records_of, shared_redo};
ghost use Rattle.segment_core.specs.BlockRecords.{IsLastOf, IsReadyIn};

use pages::{BLOCK, page_of, page_of_set};
use redo_record::{RecordSet, RunPlace, SharedRecord};
use std::alloc::{AllocError, Global};

/// Returns whether a record comes after the records of which this is the last.
pub fn is_after(packet: &SharedRecord, last: Option<&SharedRecord>) -> bool
    ensures { (records : List Redo) → IsInOrder records → IsLastOf records last.entry → IsTrue result
        → ComesAfter records (shared_redo packet.now) }
{
    match last {
        Some(last) => last.is_before(packet),
        None => true,
    }
}

/// The place of a record to be added. It takes as much memory as an `Option<RunPlace>`.
#[derive(Drop)]
pub enum RecordPlace {
    /// The set has the record.
    Held,
    /// The record comes after all records of the list.
    Last,
    InSet(RunPlace),
}

/// Reserves room for a record in a set. Returns its place.
fn room_in(set: &mut RecordSet, packet: &SharedRecord) -> Result<RecordPlace, AllocError>
    ensures ready { IfOk result (λ place. IsReadyIn place (shared_redo packet.now) set.new) }
    ensures same { records_of set.new ≡ records_of set.old }
{
    match set.place_for(packet) {
        Some(place) => Ok(RecordPlace::InSet(set.make_room(place)?)),
        None => Ok(RecordPlace::Held),
    }
}

/// The records of one block in the order of their bytes, without duplicates.
#[derive(Drop)]
pub enum BlockRecords {
    /// Records each of which came after all earlier ones. Most blocks have few records, which mostly come in order, and
    /// a set's first record takes two allocations and some 340 instructions more.
    AsList(Vec<SharedRecord>),
    /// Other records: a list would take time with the square of those that come out of order.
    AsSet(Box<RecordSet>),
}

impl BlockRecords {
    ghost use Rattle.segment_core.specs.BlockRecords.{records_in, IsReadyAt};

    /// Makes an empty list.
    pub fn new(alloc: Global) -> BlockRecords
        ensures { records_in result ≡ [] }
    {
        BlockRecords::AsList(Vec::new(alloc))
    }

    /// Returns the number of records.
    pub fn len(&self) -> usize
        ensures { result ≡ length (records_in self.now) }
    {
        match self {
            BlockRecords::AsList(list) => list.len(),
            BlockRecords::AsSet(set) => set.len(),
        }
    }

    /// Returns the last record.
    pub fn last(&self) -> Option<&SharedRecord>
        ensures { IsLastOf (records_in self.now) result }
    {
        match self {
            BlockRecords::AsList(list) => list.last(),
            BlockRecords::AsSet(set) => set.last(),
        }
    }

    /// Returns the page of the records' block at a point.
    pub fn page(&self, block: u32, point: u64) -> [u8; BLOCK]
        requires { All (λ r. r.block ≡ block) (records_in self.now) }
        ensures { result ≡ page_of (records_in self.now) block point }
    {
        match self {
            BlockRecords::AsList(list) => page_of(list, block, point),
            BlockRecords::AsSet(set) => page_of_set(set, block, point),
        }
    }

    /// Reserves room for a record. Returns its place.
    ///
    /// # Errors
    /// `AllocError` if memory runs out. No record has changed.
    pub fn make_room(
        &mut self,
        alloc: Global,
        packet: &SharedRecord,
    ) -> Result<RecordPlace, AllocError>
        requires { IsInOrder (records_in self.old) }
        ensures ready { IfOk result (λ place. IsReadyAt place (shared_redo packet.now) self.new) }
        ensures same { records_in self.new ≡ records_in self.old }
    {
        match self {
            BlockRecords::AsList(list) => {
                let packets = list.as_slice();
                if is_after(packet, packets.last()) {
                    list.reserve(1)?;
                    return Ok(RecordPlace::Last);
                }
                let mut set = RecordSet::from_slice(alloc, packets)?;
                let place = room_in(&mut set, packet)?;
                *self = BlockRecords::AsSet(Box::new(alloc, set)?);
                Ok(place)
            }
            BlockRecords::AsSet(set) => room_in(set, packet),
        }
    }

    /// Adds a record at its place.
    pub fn add(&mut self, place: RecordPlace, packet: SharedRecord)
        requires { IsReadyAt place (shared_redo packet) self.old }
        ensures { records_in self.new ≡ with_record (shared_redo packet) (records_in self.old) }
    {
        match self {
            BlockRecords::AsList(list) => match place {
                RecordPlace::Last => list.push_reserved(packet),
                _ => unreachable!(),
            },
            BlockRecords::AsSet(set) => match place {
                RecordPlace::Held => {}
                RecordPlace::Last => unreachable!(),
                RecordPlace::InSet(place) => set.insert_at(place, packet),
            },
        }
    }
}
