//! Packets: records as canonical bytes.

ghost use Rattle.std.specs.Prelude.{◌≡◌, IsTrue, is_ok, Ok, Err, MatchResult};
ghost use Rattle.redo_record.specs.Head.{redo_in};
ghost use Rattle.redo_record.specs.Spelling.{spelled, decoded};
ghost use Rattle.redo_record.specs.RecordBuffer.{buffer_bytes};

use crate::decoding::{checked_head, record_from};
use crate::encoding::spell;
use crate::head::{HEAD_BYTES, head_of};
use crate::record::Record;
use crate::record_buffer::RecordBuffer;
use volume_model::Fault;

/// The canonical bytes of a record, as they are sent or stored.
///
/// A packet allocates nothing, and its bytes always encode a record.
#[derive(Clone, Copy)]
pub struct Packet {
    text: RecordBuffer,
    ghost allowed: { IsTrue (is_ok (decoded (buffer_bytes text))) },
    ghost canonical: { spelled (redo_in (buffer_bytes text)) ≡ buffer_bytes text },
}

impl Packet {
    ghost use Rattle.redo_record.specs.Packet.{packet_redo};
    ghost use Rattle.redo_record.specs.Record.{redo_of};

    /// Encodes a record. Allocates nothing.
    pub fn pack(record: &Record) -> Packet
        ensures { packet_redo result ≡ redo_of «record».now }
    {
        Packet {
            text: spell(record),
        }
    }

    /// Returns the packet with these bytes. Allocates nothing.
    ///
    /// # Errors
    /// `Short` if there are too few bytes, `BadField` if a field isn't allowed, `Trailing` if there are too many.
    pub fn from_bytes(bytes: &[u8]) -> Result<Packet, Fault>
        ensures { MatchResult result (λ packet. decoded bytes.now ≡ Ok (packet_redo packet))
            (λ fault. decoded bytes.now ≡ Err fault) }
    {
        let _head = checked_head(bytes)?;
        let mut text = RecordBuffer::new();
        text.write(bytes);
        Ok(Packet { text })
    }

    /// Decodes the record. Allocates nothing.
    pub fn record(&self) -> Record
        ensures { redo_of result ≡ packet_redo self.now }
    {
        let bytes = self.text.as_slice();
        let (_, written) = bytes.split_at(HEAD_BYTES);
        record_from(&head_of(bytes), written)
    }

    /// Returns the bytes.
    pub fn as_bytes(&self) -> &[u8]
        ensures spelled { result.now ≡ spelled (packet_redo self.now) }
        ensures decoded { decoded result.now ≡ Ok (packet_redo self.now) }
    {
        self.text.as_slice()
    }
}
