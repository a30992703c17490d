//! The last LSN of each group and of each block of a log.

ghost use Rattle.std.specs.Prelude.{◌≡◌, length, List, IfOk, OnOk, ◌≤◌, ◌<◌, ◌++◌, ◌∷◌, []};
ghost use Rattle.writer_core.specs.Kept.{first_known};

use crate::block_lsns::BlockLsns;
use crate::log::Log;
use redo_record::Record;
use std::alloc::{AllocError, Global};

/// The most groups that a volume has.
pub const GROUPS: usize = 16;

/// Returns the LSN that is known, or else this one.
fn known_or(known: u64, lsn: u64) -> u64
    ensures { result ≡ first_known known lsn }
{
    if known == 0 { lsn } else { known }
}

/// The last LSN of each group and of each block in a log. The log's records are read from the newest on, and only as
/// far as needed: a writer that opens after a recovery mostly asks for blocks that were written lately.
///
/// After running out of memory a table is of no use.
#[derive(Drop)]
pub struct LastLsns {
    /// The number of the log's first records that weren't read yet.
    unread: usize,
    /// By group, 0 if none is known.
    groups: [u64; GROUPS],
    blocks: BlockLsns,
    ghost each_group: { length groups ≡ 16 },
}

impl LastLsns {
    ghost use Rattle.volume_model.specs.Common.{Redo, last_of_group, last_of_block};
    ghost use Rattle.redo_record.specs.Common.{redo_of, shared_redo};
    ghost use Rattle.redo_record.specs.declared.shared_record.SharedRecord.{SharedRecord};
    ghost use Rattle.writer_core.specs.Log.{log_in, packets_in};
    ghost use Rattle.writer_core.specs.LastLsns.{AreLasts, AreLastsOf};

    /// Makes the table of a log of `records` records, of which none was read. Allocates nothing.
    pub fn new(alloc: Global, records: usize) -> LastLsns
        ensures { (packets : List SharedRecord) → length packets ≡ records → AreLastsOf result packets }
    {
        LastLsns {
            unread: records,
            groups: [0; GROUPS],
            blocks: BlockLsns::new(alloc),
        }
    }

    /// Reads a record that is older than all that were read.
    fn read(&mut self, record: &Record) -> Result<(), AllocError>
        ensures lasts { OnOk result ((log older : List Redo) → AreLasts self.old log (redo_of «record».now ∷ older)
            → AreLasts self.new log older) }
        ensures unread { OnOk result (self.new.unread ≡ self.old.unread) }
    {
        self.blocks.keep((record.block, record.group), record.lsn)?;
        let group = usize::from(record.group);
        self.groups[group] = known_or(self.groups[group], record.lsn);
        Ok(())
    }

    /// Reads the next older records of the log: those of a run.
    #[inline(never)]
    fn read_older(&mut self, log: &Log) -> Result<(), AllocError>
        requires some { 0 < self.old.unread }
        requires lasts { AreLastsOf self.old (packets_in log.now) }
        ensures lasts { OnOk result (AreLastsOf self.new (packets_in log.now)) }
        ensures fewer { OnOk result (self.new.unread < self.old.unread) }
    {
        let packets = log.before(self.unread);
        let mut left = packets.len();
        self.unread -= left;
        while left > 0 {
            left -= 1;
            self.read(packets[left].record())?;
        }
        Ok(())
    }

    /// Returns the last LSN of a group in the log, 0 if there is none.
    pub fn of_group(&mut self, log: &Log, group: u8) -> Result<u64, AllocError>
        requires group { group < 16 }
        requires lasts { AreLastsOf self.old (packets_in log.now) }
        ensures last { IfOk result (λ last. last ≡ last_of_group group (log_in log.now)) }
        ensures lasts { OnOk result (AreLastsOf self.new (packets_in log.now)) }
    {
        while self.groups[usize::from(group)] == 0 && self.unread > 0 {
            self.read_older(log)?;
        }
        Ok(self.groups[usize::from(group)])
    }

    /// Enters the record that is to be appended to the log, with this LSN, on a block of a group. Returns the last LSN
    /// on the block before it, 0 if there is none.
    #[inline(always)]
    pub fn enter(&mut self, log: &Log, group: u8, block: u32, lsn: u64) -> Result<u64, AllocError>
        requires group { group < 16 }
        requires some { 1 ≤ lsn }
        requires lasts { AreLastsOf self.old (packets_in log.now) }
        ensures before { IfOk result (λ before. before ≡ last_of_block group block (log_in log.now)) }
        ensures entered { OnOk result ((packet : SharedRecord) → (shared_redo packet).group ≡ group
            → (shared_redo packet).block ≡ block → (shared_redo packet).lsn ≡ lsn
            → AreLastsOf self.new (packets_in log.now ++ packet ∷ [])) }
    {
        let place = (block, group);
        while self.unread > 0 && self.blocks.known(place) == 0 {
            self.read_older(log)?;
        }
        let before = self.blocks.put(place, lsn)?;
        self.groups[usize::from(group)] = lsn;
        Ok(before)
    }
}
