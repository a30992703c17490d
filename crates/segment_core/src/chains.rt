//! Tracks the complete point of a group's records while they arrive in any order.

use crate::complete_point::complete_point;
use crate::line::{chain_end, is_line, keeps_line};
use crate::one_chain::end_of_chain;
use redo_record::{RecordSet, RunPlace, SharedRecord};
use std::alloc::{AllocError, Global};

/// The complete point of a group's records, and whether they are known to form a line. The records of a group are part
/// of one log, so they form a line in whatever order they arrive; only forged messages break it.
#[derive(Clone, Copy)]
pub struct Chains {
    is_line: bool,
    point: u64,
}

impl Chains {
    ghost use Rattle.std.specs.Prelude.{◌≡◌, [], IfOk};
    ghost use Rattle.volume_model.specs.Common.{with_record};
    ghost use Rattle.redo_record.specs.Common.{records_of, StandsAt, shared_redo};
    ghost use Rattle.segment_core.specs.Chains.{AreChainsOf};

    /// Makes the chains of no records.
    pub fn new() -> Chains
        ensures { AreChainsOf [] result }
    {
        Chains {
            is_line: true,
            point: 0,
        }
    }

    /// Makes the chains of a set. A set that is one chain, as a log is, is taken at once. Fails only with `NoMemory`.
    pub fn of_set(alloc: Global, set: &RecordSet) -> Result<Chains, AllocError>
        ensures { IfOk result (AreChainsOf (records_of set.now)) }
    {
        if let Some(point) = end_of_chain(set) {
            return Ok(Chains {
                is_line: true,
                point,
            });
        }
        Ok(Chains {
            is_line: is_line(set),
            point: complete_point(alloc, set)?,
        })
    }

    /// Returns the complete point: the greatest LSN with a chain of records down to 0, else 0.
    #[inline(always)]
    pub fn point(&self) -> u64
        ensures { result ≡ self.now.point }
    {
        self.point
    }

    /// Returns the chains after a record is added to the set at its place. A record that links above the complete point
    /// leaves that where it is. One that links to it, in a line, begins the rest of the chain. Only forged messages
    /// lead to any other record, and each costs a pass over the set.
    ///
    /// # Errors
    /// `AllocError` if memory runs out.
    #[inline(always)]
    pub fn with_record(
        &self,
        alloc: Global,
        set: &RecordSet,
        place: RunPlace,
        packet: &SharedRecord,
    ) -> Result<Chains, AllocError>
        requires { StandsAt place set.now (shared_redo packet.now) }
        ensures { IfOk result (λ chains. AreChainsOf (records_of set.now) self.now
            → AreChainsOf (with_record (shared_redo packet.now) (records_of set.now)) chains) }
    {
        let before = packet.prev_group();
        let found = set.get(place);
        let is_line = self.is_line && keeps_line(set, place, found, packet);
        if before > self.point {
            return Ok(Chains {
                is_line,
                point: self.point,
            });
        }
        if is_line && before == self.point {
            return Ok(Chains {
                is_line,
                point: chain_end(set, place, found, packet.lsn()),
            });
        }
        Chains::recounted(alloc, set, packet)
    }

    /// Makes the chains of a set with one more record, by a pass over all records. Out of line, since only forged
    /// messages lead to it. Fails only with `NoMemory`.
    #[inline(never)]
    fn recounted(
        alloc: Global,
        set: &RecordSet,
        packet: &SharedRecord,
    ) -> Result<Chains, AllocError>
        ensures { IfOk result (AreChainsOf (with_record (shared_redo packet.now) (records_of set.now))) }
    {
        let mut all = set.clone()?;
        all.insert(packet.clone()?)?;
        Chains::of_set(alloc, &all)
    }
}
