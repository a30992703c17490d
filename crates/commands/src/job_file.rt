//! The files of a job, which are opened by their first read.

ghost use Rattle.std.specs.Prelude.{◌≡◌, false};
ghost use Rattle.commands.specs.Streams.{is_unread};

use crate::files::Source;
use std::io::{ErrorKind, Read, Stdin};
use std::rt::Files;
use std::{fs, io};

/// The name of standard input.
const STDIN: &str = "-";

/// A file that its first read opens, or standard input. A read fails with the error of the open, and the next one opens
/// the file again.
#[derive(Drop)]
pub struct JobFile<'a, R: Files> {
    rt: &'a R,
    stdin: Stdin,
    name: &'a str,
    file: Option<R::File>,
}

impl<R: Files> Read for JobFile<'_, R> {
    fn read(&mut self, buf: &mut [u8]) -> io::Result<usize> {
        if self.name == STDIN {
            return self.stdin.read(buf);
        }
        if let Some(file) = &mut self.file {
            return file.read(buf);
        }
        let mut file = fs::open(self.rt, self.name)?;
        let count = file.read(buf);
        self.file = Some(file);
        count
    }
}

/// Returns the file with a name, or standard input for `-`. It isn't opened before it is read. If the job has no such
/// file, it is one that can't be opened.
pub fn opened<'a, R: Files>(
    rt: &'a R,
    stdin: Stdin,
    name: Option<&'a str>,
) -> Source<JobFile<'a, R>>
    ensures whole { is_unread result ≡ false }
{
    Source::new(match name {
        Some(name) => Ok(JobFile {
            rt,
            stdin,
            name,
            file: None,
        }),
        None => Err(io::Error::from(ErrorKind::NotFound)),
    })
}
