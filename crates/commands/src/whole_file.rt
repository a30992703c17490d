//! Files that are written whole or not at all.

ghost use Rattle.std.specs.Prelude.{◌≡◌, ℕ, IfSome, List, None, OnErr, OnOk, Option};

use crate::outputs::WriteFailed;
use std::alloc::Global;
use std::fs::{OpenFile, OpenOptions, Permissions};
use std::io::{ErrorKind, Write};
use std::rt::Files;
use std::{fs, io};

/// The most names that are tried for a new file.
const TRIES: u32 = 100;

/// A file that is written whole or not at all.
pub trait WholeFile {
    // What the file holds, if that is known.
    ghost holds: { Self → Option (List ℕ) };

    /// Writes the file, in place of what it holds.
    ///
    /// # Errors
    /// [`WriteFailed`] if it can't be written. It then holds what it held.
    fn write_whole(&mut self, text: &[u8]) -> Result<(), WriteFailed>
        ensures written { OnOk result (IfSome (holds self.new) (λ bytes. bytes ≡ text.now)) }
        ensures kept { OnErr result (holds self.new ≡ holds self.old) };
}

/// A file of the system. It is written as a new file in the same folder, which is then renamed.
#[derive(Drop)]
pub struct RenamedFile<'a, R: Files> {
    rt: &'a R,
    alloc: Global,
    name: &'a str,
}

impl<'a, R: Files> RenamedFile<'a, R> {
    /// Names a file, which may be one that isn't there. It isn't touched before it is written.
    pub fn new(rt: &'a R, alloc: Global, name: &'a str) -> RenamedFile<'a, R> {
        RenamedFile { rt, alloc, name }
    }
}

impl<R: Files> WholeFile for RenamedFile<'_, R> {
    ghost holds = { λ _. None };

    fn write_whole(&mut self, text: &[u8]) -> Result<(), WriteFailed> {
        replace_file(self.rt, self.alloc, self.name, text).map_err(|_| WriteFailed)
    }
}

/// What a new file is to replace.
#[derive(Drop)]
struct Place {
    /// Where the file is, or is to be, behind all symbolic links.
    path: String,
    /// Its permissions if it is there.
    permissions: Option<Permissions>,
}

/// Finds the file with a name. Fails if something other than a file has the name.
fn place_of<R: Files>(rt: &R, alloc: Global, name: &str) -> io::Result<Place> {
    match fs::metadata(rt, name) {
        Ok(found) if found.is_file() => Ok(Place {
            path: rt.canonicalize(alloc, name)?.into_string(),
            permissions: Some(found.permissions()),
        }),
        Ok(_) => Err(io::Error::from(ErrorKind::InvalidInput)),
        Err(error) if error.kind() == ErrorKind::NotFound => Ok(Place {
            path: String::from_str(alloc, name)?,
            permissions: None,
        }),
        Err(error) => Err(error),
    }
}

/// Makes a new file beside a path. Returns its path, and the file.
fn new_beside<R: Files>(rt: &R, alloc: Global, path: &str) -> io::Result<(String, R::File)> {
    let mut how = OpenOptions::new();
    how.write(true).create_new(true);
    for number in 0..TRIES {
        let beside = format!(in alloc; "{path}.new{number}")?;
        match how.open(rt, beside.as_str()) {
            Ok(file) => return Ok((beside, file)),
            Err(error) if error.kind() == ErrorKind::AlreadyExists => {}
            Err(error) => return Err(error),
        }
    }
    Err(io::Error::from(ErrorKind::AlreadyExists))
}

/// Writes a new file, so that it is on the disk.
fn fill<F: Write + OpenFile>(
    file: &mut F,
    permissions: Option<Permissions>,
    text: &[u8],
) -> io::Result<()> {
    if let Some(permissions) = permissions {
        file.set_permissions(permissions)?;
    }
    file.write_all(text)?;
    file.sync_all()
}

/// Writes a new file beside a path, and renames it to the path. Removes it if that fails.
fn put<R: Files>(rt: &R, alloc: Global, place: Place, text: &[u8]) -> io::Result<()> {
    let Place { path, permissions } = place;
    let (beside, mut file) = new_beside(rt, alloc, path.as_str())?;
    let mut written = fill(&mut file, permissions, text);
    if written.is_ok() {
        written = fs::rename(rt, beside.as_str(), path.as_str());
    }
    if written.is_err() {
        let _ = fs::remove_file(rt, beside.as_str());
    }
    written
}

/// Replaces the file with a name, or makes it.
fn replace_file<R: Files>(rt: &R, alloc: Global, name: &str, text: &[u8]) -> io::Result<()> {
    let place = place_of(rt, alloc, name)?;
    put(rt, alloc, place, text)
}
