//! Tracks how much of a log is covered by the points of its groups.

ghost use Rattle.std.specs.Prelude.{◌≡◌, length, ◌+◌, ◌^◌, ◌<◌, slice_index};

use crate::group_states::GroupStates;
use crate::last_lsns::GROUPS;
use crate::log::Log;
use redo_record::Record;

/// Tracks how much of a log is covered. A record is covered if its LSN is at most the point of its group.
#[derive(Clone, Copy)]
pub struct DurabilityTracker {
    /// The number of covered records, which are the first ones of the log.
    pub records: usize,
    /// The LSN of the last covered record, 0 if there is none.
    pub complete: u64,
    /// The LSN of the last covered consistency point, 0 if there is none.
    pub durable: u64,
    /// By group, the LSN of its last covered record, 0 if it has none.
    last_lsns: [u64; GROUPS],
    /// By group, the LSN of its last record up to `durable`, 0 if it has none.
    durable_lasts: [u64; GROUPS],
    ghost each_last: { length last_lsns ≡ 16 },
    ghost each_durable_last: { length durable_lasts ≡ 16 },
}

impl DurabilityTracker {
    ghost use Rattle.volume_model.specs.Common.{group_point_of};
    ghost use Rattle.redo_record.specs.Common.{redo_of};
    ghost use Rattle.writer_core.specs.Log.{packets_in};
    ghost use Rattle.writer_core.specs.Groups.{groups_in};
    ghost use Rattle.writer_core.specs.DurabilityTracker.{CoversNone, Covers, CoversPrefix, CoversLog};

    /// Makes a tracker that covers no record.
    pub fn none() -> DurabilityTracker
        ensures { CoversNone result }
    {
        DurabilityTracker {
            records: 0,
            complete: 0,
            durable: 0,
            last_lsns: [0; GROUPS],
            durable_lasts: [0; GROUPS],
        }
    }

    /// Returns the LSN of a group's last record up to the last covered consistency point, 0 if it has none.
    pub fn durable_last(&self, group: u8) -> u64
        requires { group < 16 }
        ensures { result ≡ slice_index self.now.durable_lasts group }
    {
        self.durable_lasts[usize::from(group)]
    }

    /// Covers more records, up to the first that isn't covered.
    pub fn follow(&mut self, log: &Log, group_states: &GroupStates)
        requires { CoversPrefix self.old (group_point_of (groups_in group_states.now)) (packets_in log.now) }
        ensures { CoversLog self.new (group_point_of (groups_in group_states.now)) (packets_in log.now) }
    {
        let mut left = log.records_from(self.records);
        while let Some(packet) = left.next() {
            let record = packet.record();
            if group_states.point(record.group) < record.lsn {
                return;
            }
            self.cover(record);
        }
    }

    /// Covers the next record.
    fn cover(&mut self, record: &Record)
        requires { self.old.records + 1 < 2 ^ 64 }
        ensures { Covers self.old self.new (redo_of «record».now) }
    {
        self.records += 1;
        self.complete = record.lsn;
        self.last_lsns[usize::from(record.group)] = record.lsn;
        if record.point {
            self.durable = record.lsn;
            self.durable_lasts = self.last_lsns;
        }
    }
}
