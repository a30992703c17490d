//! A byte buffer on the stack, which is appended to.

ghost use Rattle.std.specs.Prelude.{◌≤◌, ◌≡◌, ◌+◌, [], ◌++◌, length};

/// The most bytes of an encoded record.
pub const MOST_RECORD_BYTES: usize = 109;

/// A buffer of 109 bytes, filled from the front.
#[derive(Clone, Copy)]
pub struct RecordBuffer {
    place: [u8; MOST_RECORD_BYTES],
    length: usize,
    ghost in_place: { length ≤ 109 },
}

impl RecordBuffer {
    ghost use Rattle.redo_record.specs.RecordBuffer.{buffer_bytes};

    /// Makes an empty buffer.
    pub fn new() -> RecordBuffer
        ensures { buffer_bytes result ≡ [] }
    {
        RecordBuffer {
            place: [0; MOST_RECORD_BYTES],
            length: 0,
        }
    }

    /// Appends these bytes.
    pub fn write(&mut self, bytes: &[u8])
        requires { length (buffer_bytes self.old) + length bytes.now ≤ 109 }
        ensures { buffer_bytes self.new ≡ buffer_bytes self.old ++ bytes.now }
    {
        let end = self.length + bytes.len();
        self.place[self.length..end].copy_from_slice(bytes);
        self.length = end;
    }

    /// Returns the bytes.
    pub fn as_slice(&self) -> &[u8]
        ensures { result.now ≡ buffer_bytes self.now }
    {
        &self.place[..self.length]
    }
}
