//! Pages: the bytes of a block, computed from redo records.
#![tactic(auto)]

ghost use Rattle.std.specs.Prelude.{◌≡◌, ◌+◌, ◌≤◌, ◌++◌, nat_le, if◌then◌else◌, length, map, take, drop, All};
ghost use Rattle.volume_model.specs.Common.{written, page_from, page_of};
ghost use Rattle.redo_record.specs.Common.{redo_of, records_of, shared_redo};

use redo_record::{Record, RecordSet, SharedRecord};

/// The bytes of a block.
pub const BLOCK: usize = 512;

/// The number of records that are loaded before the first is written. Each is at another address; a loop that only
/// loads them overlaps the cache misses, one that also writes waits for each.
const AHEAD: usize = 16;

fn write_at(page: &mut [u8], offset: usize, bytes: &[u8])
    requires { offset + length bytes.now ≤ length page.old }
    ensures { page.new ≡ take offset page.old ++ bytes.now ++ drop (offset + length bytes.now) page.old }
{
    let end = offset + bytes.len();
    page[offset..end].copy_from_slice(bytes);
}

fn apply(page: &mut [u8], entry: &Record)
    requires { length page.old ≡ 512 }
    ensures { page.new ≡ written (redo_of entry.now) page.old }
{
    write_at(page, usize::from(entry.offset), entry.bytes.as_slice());
}

/// Applies a shared record to a page.
pub fn write_packet(page: &mut [u8; BLOCK], packet: &SharedRecord)
    ensures { page.new ≡ written (shared_redo packet.now) page.old }
{
    apply(page, packet.record());
}

/// Applies a record if its LSN is at most `point`.
fn write_packet_up_to(page: &mut [u8; BLOCK], packet: &SharedRecord, point: u64)
    ensures { page.new ≡ (if nat_le (shared_redo packet.now).lsn point then written (shared_redo packet.now) page.old
        else page.old) }
{
    if packet.lsn() <= point {
        write_packet(page, packet);
    }
}

/// Applies the records up to `point`; tests each LSN.
fn write_up_to(page: &mut [u8; BLOCK], packets: &[SharedRecord], block: u32, point: u64)
    requires { All (λ packet. (shared_redo packet).block ≡ block) packets.now }
    ensures { page.new ≡ page_from page.old block point (map shared_redo packets.now) }
{
    for packet in packets {
        write_packet_up_to(page, packet, point);
    }
}

/// Applies records that are all up to `point`.
fn write_all(page: &mut [u8; BLOCK], packets: &[SharedRecord], block: u32, point: u64)
    requires own { All (λ packet. (shared_redo packet).block ≡ block) packets.now }
    requires up_to { All (λ packet. (shared_redo packet).lsn ≤ point) packets.now }
    ensures { page.new ≡ page_from page.old block point (map shared_redo packets.now) }
{
    for packet in packets {
        write_packet(page, packet);
    }
}

/// Returns a number that is at least each record's LSN. Doesn't branch on what it loads.
fn greatest_of(packets: &[SharedRecord]) -> u64
    ensures { All (λ packet. (shared_redo packet).lsn ≤ result) packets.now }
{
    let mut greatest = 0;
    for packet in packets {
        greatest = greatest.max(packet.lsn());
    }
    greatest
}

/// Applies the records up to `point`; looks at all LSNs first.
fn write_ahead(page: &mut [u8; BLOCK], packets: &[SharedRecord], block: u32, point: u64)
    requires { All (λ packet. (shared_redo packet).block ≡ block) packets.now }
    ensures { page.new ≡ page_from page.old block point (map shared_redo packets.now) }
{
    if greatest_of(packets) <= point {
        write_all(page, packets, block, point);
    } else {
        write_up_to(page, packets, block, point);
    }
}

/// Applies the records up to `point`, in order.
fn write_run(page: &mut [u8; BLOCK], packets: &[SharedRecord], block: u32, point: u64)
    requires { All (λ packet. (shared_redo packet).block ≡ block) packets.now }
    ensures { page.new ≡ page_from page.old block point (map shared_redo packets.now) }
{
    let mut rest = packets;
    while rest.len() >= AHEAD {
        let (some, more) = rest.split_at(AHEAD);
        write_ahead(page, some, block, point);
        rest = more;
    }
    write_up_to(page, rest, block, point);
}

/// Returns the page of a block at `point`: the writes of the records up to `point`, applied in order to zeros. The
/// records are all those of the block, of one group, in order of LSN.
pub fn page_of(packets: &[SharedRecord], block: u32, point: u64) -> [u8; BLOCK]
    requires { All (λ packet. (shared_redo packet).block ≡ block) packets.now }
    ensures { result ≡ page_of (map shared_redo packets.now) block point }
{
    let mut page = [0; BLOCK];
    write_run(&mut page, packets, block, point);
    page
}

/// Returns the page of a block at `point`, as [`page_of`] does, from a set of records.
pub fn page_of_set(records: &RecordSet, block: u32, point: u64) -> [u8; BLOCK]
    requires { All (λ r. r.block ≡ block) (records_of records.now) }
    ensures { result ≡ page_of (records_of records.now) block point }
{
    let mut page = [0; BLOCK];
    for run in records.runs() {
        write_run(&mut page, run.as_slice(), block, point);
    }
    page
}
