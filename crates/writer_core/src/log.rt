//! A log, in order of LSN.

ghost use Rattle.std.specs.Prelude.{◌≡◌, ◌<◌, ◌++◌, true, length, ◌≤◌, ◌+◌, [], ◌∷◌, drop, map, take, slice_index_or, option_copied, option_map, OnOk, MatchOption};
ghost use Rattle.redo_record.specs.Common.{packets_of, shared_redo};
ghost use Rattle.writer_core.specs.Logs.{log_of, is_growing};

use crate::lookup::{record_at, run_before};
use redo_record::{RecordSet, Records, SharedRecord};
use std::alloc::{AllocError, Global};

/// A log in order of LSN: the records found, which clones share, followed by those issued since.
#[derive(Drop)]
pub struct Log {
    found: RecordSet,
    /// The number of records found.
    begun: usize,
    issued: Vec<SharedRecord>,
    ghost counted: { begun ≡ length (packets_of found) },
    ghost growing: { is_growing (log_of (packets_of found ++ issued.items)) ≡ true },
}

impl Log {
    ghost use Rattle.volume_model.specs.Common.{last_lsn, record_at, is_consistency_point};
    ghost use Rattle.writer_core.specs.Ending.{EndsWith};
    ghost use Rattle.writer_core.specs.Logs.{log_of_set};
    ghost use Rattle.writer_core.specs.Log.{found_of, packets_in, log_in, log_left, room_in};

    /// Makes a log of the records found. Allocates nothing.
    pub fn begin(alloc: Global, found: RecordSet) -> Log
        requires { is_growing (log_of_set found) ≡ true }
        ensures packets { packets_in result ≡ packets_of found }
        ensures found { found_of result ≡ found }
    {
        let begun = found.len();
        Log {
            found,
            begun,
            issued: Vec::new(alloc),
        }
    }

    /// Returns the number of records.
    pub fn len(&self) -> usize
        ensures { result ≡ length (packets_in self.now) }
    {
        self.begun + self.issued.len()
    }

    /// Returns the records that were found.
    pub fn found(&self) -> &RecordSet
        ensures { result.now ≡ found_of self.now }
    {
        &self.found
    }

    /// Returns the record at this index.
    pub fn packet(&self, place: usize) -> &SharedRecord
        requires { place < length (packets_in self.now) }
        ensures { result.now ≡ slice_index_or (packets_in self.now) place result.now }
    {
        if place < self.begun {
            match self.found.records_from(place).next() {
                Some(packet) => packet,
                None => unreachable!(),
            }
        } else {
            &self.issued[place - self.begun]
        }
    }

    /// Returns the records that are right before an index: those of one run, or those that were issued.
    pub(crate) fn before(&self, place: usize) -> &[SharedRecord]
        requires within { place ≤ length (packets_in self.now) }
        ensures some { 0 < place → 0 < length result.now }
        ensures before { EndsWith result.now place (map shared_redo (packets_in self.now)) }
    {
        if place > self.begun {
            &self.issued[..place - self.begun]
        } else {
            run_before(self.found.runs(), place)
        }
    }

    /// Reads the records from this index on.
    #[inline(always)]
    pub fn records_from(&self, place: usize) -> LogRecords<'_>
        ensures { log_left result ≡ drop place (packets_in self.now) }
    {
        if place < self.begun {
            LogRecords {
                found: self.found.records_from(place),
                issued: &self.issued,
            }
        } else {
            let place = (place - self.begun).min(self.issued.len());
            LogRecords {
                found: Records::none(),
                issued: &self.issued[place..],
            }
        }
    }

    /// Returns the last LSN, 0 if there is none.
    pub fn last_lsn(&self) -> u64
        ensures { result ≡ last_lsn (log_in self.now) }
    {
        match self.issued.last() {
            Some(packet) => packet.lsn(),
            None => match self.found.last() {
                Some(packet) => packet.lsn(),
                None => 0,
            },
        }
    }

    /// Returns the record with this LSN, if there is one.
    pub fn record_at(&self, lsn: u64) -> Option<&SharedRecord>
        ensures { option_map shared_redo (option_copied result) ≡ record_at (log_in self.now) lsn }
    {
        match self.found.record_at(lsn) {
            Some(packet) => Some(packet),
            None => record_at(self.issued.as_slice(), lsn),
        }
    }

    /// Returns whether the record with this LSN is a consistency point.
    pub fn is_point(&self, lsn: u64) -> bool
        ensures { result ≡ is_consistency_point lsn (log_in self.now) }
    {
        match self.record_at(lsn) {
            Some(packet) => packet.record().point,
            None => false,
        }
    }

    /// Reserves room for `more` records. The log is unchanged.
    pub(crate) fn reserve(&mut self, more: usize) -> Result<(), AllocError>
        ensures packets { packets_in self.new ≡ packets_in self.old }
        ensures found { found_of self.new ≡ found_of self.old }
        ensures room { OnOk result (more ≤ room_in self.new) }
    {
        self.issued.reserve(more)
    }

    /// Appends a record for which there is room.
    pub(crate) fn push_reserved(&mut self, packet: SharedRecord)
        requires room { 0 < room_in self.old }
        requires above { last_lsn (log_in self.old) < (shared_redo packet).lsn }
        ensures packets { packets_in self.new ≡ packets_in self.old ++ packet ∷ [] }
        ensures found { found_of self.new ≡ found_of self.old }
        ensures room { room_in self.old ≡ room_in self.new + 1 }
    {
        self.issued.push_reserved(packet);
    }

    /// Keeps the first `records` records. Removes none of those found.
    pub(crate) fn truncate(&mut self, records: usize)
        requires { length (packets_of (found_of self.old)) ≤ records }
        ensures packets { packets_in self.new ≡ take records (packets_in self.old) }
        ensures found { found_of self.new ≡ found_of self.old }
    {
        self.issued.truncate(records - self.begun);
    }
}

/// The records of a log that weren't read yet, in order.
#[derive(Clone, Copy)]
pub struct LogRecords<'a> {
    found: Records<'a>,
    issued: &'a [SharedRecord],
}

impl<'a> LogRecords<'a> {
    ghost use Rattle.writer_core.specs.Log.{log_left};

    /// Reads the next record; `None` at the end.
    #[inline(always)]
    pub fn next(&mut self) -> Option<&'a SharedRecord>
        ensures { MatchOption result (log_left self.old ≡ [])
            (λ packet. log_left self.old ≡ packet.now ∷ log_left self.new) }
    {
        if let Some(packet) = self.found.next() {
            return Some(packet);
        }
        match self.issued {
            [] => None,
            [packet, rest @ ..] => {
                self.issued = rest;
                Some(packet)
            }
        }
    }
}

impl Clone for Log {
    ghost use Rattle.writer_core.specs.Log.{log_in};

    ghost is_clone = { λ log copy. log_in copy ≡ log_in log };

    fn clone(&self) -> Result<Log, AllocError> {
        Ok(Log {
            found: self.found.clone()?,
            begun: self.begun,
            issued: self.issued.clone()?,
        })
    }
}
