//! Encodes records as bytes.

ghost use Rattle.std.specs.Prelude.{◌≡◌, Ok, IfOk, IfErr};
ghost use Rattle.volume_model.specs.declared.fault.Fault.TheVariants.{NoMemory};
ghost use Rattle.redo_record.specs.Record.{redo_of};
ghost use Rattle.redo_record.specs.RecordBuffer.{buffer_bytes};
ghost use Rattle.redo_record.specs.Ranges.{IsSpellable};
ghost use Rattle.redo_record.specs.Spelling.{spelled, decoded};

use crate::packet::Packet;
use crate::record::Record;
use crate::record_buffer::RecordBuffer;
use std::alloc::Global;
use volume_model::Fault;

/// Returns the canonical bytes of a record, on the stack.
pub fn spell(record: &Record) -> RecordBuffer
    ensures spelled { buffer_bytes result ≡ spelled (redo_of «record».now) }
    ensures spellable { IsSpellable (redo_of «record».now) }
{
    let written = record.bytes.as_slice();
    let mut text = RecordBuffer::new();
    text.write(&record.lsn.to_be_bytes());
    text.write(&record.volume_epoch.to_be_bytes());
    text.write(&record.prev_volume.to_be_bytes());
    text.write(&record.prev_group.to_be_bytes());
    text.write(&record.prev_block.to_be_bytes());
    text.write(&[record.group]);
    text.write(&record.block.to_be_bytes());
    text.write(&record.offset.to_be_bytes());
    text.write(&[u8::from(record.point), written.len() as u8]);
    text.write(written);
    text
}

/// Returns the canonical bytes of a record.
///
/// # Errors
/// `NoMemory` if memory runs out.
pub fn encode(alloc: Global, record: &Record) -> Result<Vec<u8>, Fault>
    ensures spelled { IfOk result (λ v. v.items ≡ spelled (redo_of «record».now)) }
    ensures decoded { IfOk result (λ v. decoded v.items ≡ Ok (redo_of «record».now)) }
    ensures err { IfErr result (λ fault. fault ≡ NoMemory) }
{
    let packet = Packet::pack(record);
    let bytes = Vec::from_slice(alloc, packet.as_bytes())?;
    Ok(bytes)
}
