//! Changes, of which a transaction consists.

use crate::inline_bytes::InlineBytes;
use redo_record::{FEW_BYTES, Payload};
use std::alloc::{AllocError, Global};

/// A change. Short bytes are inline, longer ones are boxed.
#[derive(Drop)]
enum Form {
    Few {
        group: u8,
        offset: u16,
        block: u32,
        bytes: InlineBytes,
    },
    Many {
        group: u8,
        offset: u16,
        block: u32,
        bytes: Box<Payload>,
    },
}

/// A change that a transaction makes: 1 to 64 bytes, written from an offset of a block on. Kept small, since there may
/// be many.
#[derive(Drop)]
pub struct Change {
    form: Form,
}

const _: () = prove!(size_of::<Change>() <= 16);

impl Change {
    ghost use Rattle.std.specs.Prelude.{◌≡◌, IfOk, length};
    ghost use Rattle.redo_record.specs.Common.{payload_bytes, HasRoom};
    ghost use Rattle.writer_core.specs.Changes.{change_of};

    /// Returns a change that writes these bytes from the offset on. Fails only with `NoMemory`.
    #[inline(always)]
    pub fn new(
        alloc: Global,
        group: u8,
        block: u32,
        offset: u16,
        bytes: &[u8],
    ) -> Result<Change, AllocError>
        requires room { HasRoom (length bytes.now) }
        ensures { IfOk result (λ change. change_of change ≡ record {
          group = group;
          block = block;
          offset = offset;
          bytes = bytes.now;
        }) }
    {
        if bytes.len() <= FEW_BYTES {
            let bytes = InlineBytes::new(bytes);
            return Ok(Change {
                form: Form::Few {
                    group,
                    offset,
                    block,
                    bytes,
                },
            });
        }
        let bytes = match Payload::new(bytes) {
            Some(payload) => Box::new(alloc, payload)?,
            None => unreachable!(),
        };
        Ok(Change {
            form: Form::Many {
                group,
                offset,
                block,
                bytes,
            },
        })
    }

    /// Returns the protection group.
    #[inline(always)]
    pub fn group(&self) -> u8
        ensures { result ≡ (change_of self.now).group }
    {
        match &self.form {
            Form::Few { group, .. } => *group,
            Form::Many { group, .. } => *group,
        }
    }

    /// Returns the block of the group.
    #[inline(always)]
    pub fn block(&self) -> u32
        ensures { result ≡ (change_of self.now).block }
    {
        match &self.form {
            Form::Few { block, .. } => *block,
            Form::Many { block, .. } => *block,
        }
    }

    /// Returns the offset of the first byte that is written.
    #[inline(always)]
    pub fn offset(&self) -> u16
        ensures { result ≡ (change_of self.now).offset }
    {
        match &self.form {
            Form::Few { offset, .. } => *offset,
            Form::Many { offset, .. } => *offset,
        }
    }

    /// Returns the bytes that are written.
    #[inline(always)]
    pub fn bytes(&self) -> &[u8]
        ensures value { result.now ≡ (change_of self.now).bytes }
        ensures room { HasRoom (length result.now) }
    {
        match &self.form {
            Form::Few { bytes, .. } => bytes.as_slice(),
            Form::Many { bytes, .. } => bytes.as_slice(),
        }
    }

    /// Returns the bytes as a record's payload.
    #[inline(always)]
    pub fn payload(&self) -> Payload
        ensures { payload_bytes result ≡ (change_of self.now).bytes }
    {
        match &self.form {
            Form::Few { bytes, .. } => bytes.payload(),
            Form::Many { bytes, .. } => **bytes,
        }
    }
}

impl Clone for Change {
    ghost use Rattle.std.specs.Prelude.{◌≡◌};
    ghost use Rattle.writer_core.specs.Changes.{change_of};

    ghost is_clone = { λ change copy. change_of copy ≡ change_of change };

    fn clone(&self) -> Result<Change, AllocError> {
        let form = match &self.form {
            Form::Few {
                group,
                offset,
                block,
                bytes,
            } => Form::Few {
                group: *group,
                offset: *offset,
                block: *block,
                bytes: *bytes,
            },
            Form::Many {
                group,
                offset,
                block,
                bytes,
            } => Form::Many {
                group: *group,
                offset: *offset,
                block: *block,
                bytes: bytes.clone()?,
            },
        };
        Ok(Change { form })
    }
}
