//! Files that are read whole.

ghost use Rattle.std.specs.Prelude.{◌≡◌, ◌⊎◌, ◌<◌, ◌≤◌, Err, IfOk, IfSome, IsErr, OnErr, OnOk, Ok, false, length, take, true, vec_len};
ghost use Rattle.std.specs.Io.{ReadsAtMost};
ghost use Rattle.std.specs.Io.KnownBytes.{IsAtEnd, ReadConsumes};
ghost use Rattle.commands.specs.Failures.{GrowsBy, ReadFails};
ghost use Rattle.commands.specs.Streams.{is_unread, left_in, left_of};
ghost use Rattle.commands.specs.declared.files.ReadFault.TheVariants.{Unreadable};

use crate::fallible::{FallibleRead, is_interrupted};
use std::alloc::{AllocError, Global};
use std::io;
use std::io::{ErrorKind, Read};

/// The number of bytes asked of a reader at a time.
const CHUNK: usize = 16_384;

/// A file to be read, or why it can't be opened; and whether a read of it has failed.
#[derive(Drop)]
pub struct Source<R> {
    file: io::Result<R>,
    failed: bool,
}

/// Why a file isn't read.
#[derive(Clone, Copy)]
pub enum ReadFault {
    /// It can't be opened, or a read of it has failed.
    Unreadable,
    /// Memory ran out.
    NoMemory,
}

impl From<AllocError> for ReadFault {
    ghost use Rattle.commands.specs.declared.files.ReadFault.TheVariants.{NoMemory};

    ghost from_gives = { λ _ fault. fault ≡ NoMemory };

    fn from(_error: AllocError) -> ReadFault {
        ReadFault::NoMemory
    }
}

/// Returns the fault of a file whose open or read gave this error: the kind OutOfMemory is `NoMemory`.
fn fault_of(error: &io::Error) -> ReadFault {
    if error.kind() == ErrorKind::OutOfMemory {
        return ReadFault::NoMemory;
    }
    ReadFault::Unreadable
}

impl<R: Read> Source<R> {
    /// Makes the source of a file as it was opened, of which nothing was read.
    pub fn new(file: io::Result<R>) -> Source<R>
        ensures left { left_of R.remaining result ≡ left_in R.remaining file }
        ensures whole { is_unread result ≡ false }
    {
        Source {
            file,
            failed: false,
        }
    }
}

impl<R: FallibleRead> Source<R> {
    ghost use Rattle.commands.specs.Streams.{FailsByRead};

    /// Reads the rest of the file, `most` bytes at most.
    ///
    /// # Errors
    /// [`Unreadable`](ReadFault::Unreadable) once the file couldn't be opened or a read of it failed;
    /// [`NoMemory`](ReadFault::NoMemory) if memory ran out, also in a read.
    pub fn read_all(&mut self, alloc: Global, most: u64) -> Result<Vec<u8>, ReadFault>
        ensures bytes { IfOk result (λ v. IfSome (left_of R.remaining self.old) (λ bytes. v.items ≡ take most bytes)) }
        ensures whole { OnOk result (is_unread self.new ≡ false) }
        ensures failed { result ≡ Err Unreadable → is_unread self.new ≡ true }

        // It is Unreadable only where the file couldn't be opened, or a read of it has failed.
        ensures reason { FailsByRead R.answers self.old self.new }
    {
        if self.failed {
            return Err(ReadFault::Unreadable);
        }
        let bytes = read_file(alloc, &mut self.file, most as usize);
        if let Err(ReadFault::Unreadable) = &bytes {
            self.failed = true;
        }
        bytes
    }
}

/// Makes one read, again if it is interrupted.
fn read_on<R: FallibleRead>(reader: &mut R, buf: &mut [u8]) -> io::Result<usize>
    ensures bound { ReadsAtMost result buf.new }
    ensures bytes { ReadConsumes (R.remaining reader.old) (R.remaining reader.new) result buf.new }
    ensures failed { OnErr result (ReadFails R.answers) }
{
    let mut last = reader.read_some(buf);
    for _ in 0..u64::MAX {
        if !is_interrupted(&last) {
            return last;
        }
        last = reader.read_some(buf);
    }
    last
}

/// Reads on into `all`. Returns whether there may be more: false at the reader's end, or once `most` bytes are there.
fn read_more<R: FallibleRead>(
    reader: &mut R,
    chunk: &mut [u8],
    all: &mut Vec<u8>,
    most: usize,
) -> Result<bool, ReadFault>
    requires chunk { 0 < length chunk.old }
    requires within { vec_len all.old ≤ most }
    ensures grows { OnOk result (GrowsBy (R.remaining reader.old) (R.remaining reader.new) all.old.items
        all.new.items) }
    ensures within { OnOk result (vec_len all.new ≤ most) }
    ensures more { result ≡ Ok true → vec_len all.old < vec_len all.new }
    ensures end { result ≡ Ok false → IsAtEnd (R.remaining reader.new) ⊎ (vec_len all.new ≡ most) }
    ensures failed { result ≡ Err Unreadable → ReadFails R.answers }
{
    let room = (most - all.len()).min(chunk.len());
    if room == 0 {
        return Ok(false);
    }
    let front = &mut chunk[..room];
    let count = read_on(reader, front).map_err(|error| fault_of(&error))?;
    all.extend_from_slice(&front[..count])?;
    Ok(count > 0)
}

/// Makes a buffer of `size` bytes.
fn buffer(alloc: Global, size: usize) -> Result<Vec<u8>, AllocError>
    ensures { IfOk result (λ v. vec_len v ≡ size) }
{
    vec![in alloc; 0; size]
}

/// Reads the rest of a reader, `most` bytes at most.
fn read_front<R: FallibleRead>(
    alloc: Global,
    reader: &mut R,
    most: usize,
) -> Result<Vec<u8>, ReadFault>
    ensures bytes { IfOk result (λ v. IfSome (R.remaining reader.old) (λ bytes. v.items ≡ take most bytes)) }
    ensures failed { result ≡ Err Unreadable → ReadFails R.answers }
{
    let mut all = Vec::new(alloc);
    let mut chunk = buffer(alloc, CHUNK)?;
    loop {
        if !read_more(reader, chunk.as_mut_slice(), &mut all, most)? {
            return Ok(all);
        }
    }
}

/// Reads the rest of a file, if it was opened.
fn read_file<R: FallibleRead>(
    alloc: Global,
    file: &mut io::Result<R>,
    most: usize,
) -> Result<Vec<u8>, ReadFault>
    ensures bytes { IfOk result (λ v. IfSome (left_in R.remaining file.old) (λ bytes. v.items ≡ take most bytes)) }
    ensures failed { result ≡ Err Unreadable → IsErr file.old ⊎ ReadFails R.answers }
{
    match file {
        Ok(reader) => read_front(alloc, reader, most),
        Err(error) => Err(fault_of(error)),
    }
}
