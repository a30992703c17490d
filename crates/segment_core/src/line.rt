//! Lines of records. In a line no record links to an LSN below that of the record before it in order.

ghost use Rattle.std.specs.Prelude.{◌≡◌, true, drop, IsTrue};
ghost use Rattle.volume_model.specs.Common.{with_record};
ghost use Rattle.redo_record.specs.Common.{records_of, runs_of, StandsAt, index_of, IsPlaceIn, shared_redo};
ghost use Rattle.segment_core.specs.Chains as chains;
ghost use Rattle.segment_core.specs.Chains.{IsFoundAt};

use redo_record::{RecordSet, RunPlace, SharedRecord};

/// Returns whether the records form a line.
pub fn is_line(set: &RecordSet) -> bool
    ensures { result ≡ chains.is_line 0 (records_of set.now) }
{
    let mut last = 0;
    let mut left = set.records();
    while let Some(packet) = left.next() {
        if packet.prev_group() < last {
            return false;
        }
        last = packet.lsn();
    }
    true
}

/// Returns the LSN of the record before this place, 0 at the beginning.
#[inline(always)]
fn lsn_before(set: &RecordSet, place: RunPlace) -> u64
    requires { IsPlaceIn (runs_of set.now) place }
    ensures { result ≡ chains.lsn_before 0 (records_of set.now) (index_of (runs_of set.now) place) }
{
    match set.before(place) {
        Some(packet) => packet.lsn(),
        None => 0,
    }
}

/// Returns whether a line remains one when a record is inserted at its place: between the record before the place and
/// the one found at it.
#[inline(always)]
pub fn keeps_line(
    set: &RecordSet,
    place: RunPlace,
    found: Option<&SharedRecord>,
    packet: &SharedRecord,
) -> bool
    requires stands { StandsAt place set.now (shared_redo packet.now) }
    requires found { IsFoundAt set.now place found }
    ensures { IsTrue result → chains.is_line 0 (records_of set.now) ≡ true
        → chains.is_line 0 (with_record (shared_redo packet.now) (records_of set.now)) ≡ true }
{
    if lsn_before(set, place) > packet.prev_group() {
        return false;
    }
    match found {
        Some(next) => packet.lsn() <= next.prev_group(),
        None => true,
    }
}

/// Returns the end of the chain that begins with an LSN and goes on with the record found at a place and those after
/// it, up to the first one that doesn't link to the one before it.
#[inline(always)]
pub fn chain_end<'a>(
    set: &'a RecordSet,
    place: RunPlace,
    found: Option<&'a SharedRecord>,
    lsn: u64,
) -> u64
    requires within { IsPlaceIn (runs_of set.now) place }
    requires found { IsFoundAt set.now place found }
    ensures { result ≡ chains.chain_end lsn (drop (index_of (runs_of set.now) place) (records_of set.now)) }
{
    let mut last = lsn;
    let mut at = place;
    let mut next = found;
    while let Some(packet) = next {
        if packet.prev_group() != last {
            return last;
        }
        last = packet.lsn();
        at = set.next(at);
        next = set.get(at);
    }
    last
}
