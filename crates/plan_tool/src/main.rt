//! Checks plans of a quorum log volume, certifies them, and runs scripts over them.
#![tactic(auto)]

ghost use Rattle.std.specs.Prelude.{◌≤◌};

use commands::{
    Job, NO_MEMORY, Output, RenamedFile, TerminalProgress, deliver, job, opened, perform,
    perform_placed, print_usage,
};
use std::alloc::{AllocError, Global};
use std::io::{ErrorKind, Write};
use std::process::ExitCode;
use std::sync::Wait;
use std::thread::Threads;
use std::{env, io};

/// Returns the words of the command line, or the line to print if they can't be read.
fn words(rt: &HostRuntime, alloc: Global) -> Result<Vec<String>, &'static str> {
    let words = match env::args(rt) {
        Ok(words) => words,
        Err(error) if error.kind() == ErrorKind::InvalidData => {
            return Err("error: a word of the command line isn't UTF-8\n");
        }
        Err(_) => return Err(NO_MEMORY),
    };
    words.collect(alloc).map_err(|_| NO_MEMORY)
}

/// Returns the words as string slices.
fn texts<'a>(alloc: Global, words: &'a [String]) -> Result<Vec<&'a str>, AllocError> {
    words.iter().map(|word| word.as_str()).collect(alloc)
}

/// Performs a job. A search, a replacement, a new plan and a fleet start their threads with the second handle. A file
/// is opened when it is read, a script after the plan was checked: opening a named pipe waits for its writer.
fn perform_job<H: Threads + Wait + Sync, O: Write, E: Write>(
    rt: &HostRuntime,
    threads: &H,
    job: &Job<'_>,
    out: &mut Output<O>,
    err: &mut Output<E>,
) -> u8
    ensures { result ≤ 2 }
{
    let alloc = rt.alloc();
    let mut plan = opened(rt, rt.stdin(), job.plan_file());
    let mut script = opened(rt, rt.stdin(), job.script);
    if job.is_placed() {
        let mut file = RenamedFile::new(rt, alloc, job.output.unwrap_or(""));
        return perform_placed(
            threads,
            alloc,
            job,
            &mut plan,
            &mut script,
            &mut file,
            out,
            err,
        );
    }
    let progress = TerminalProgress::new(alloc, rt.stderr());
    perform(
        threads,
        alloc,
        job,
        &mut plan,
        &mut script,
        &progress,
        out,
        err,
    )
}

/// Reads the words of the command line and performs the job.
fn run<H: Threads + Wait + Sync>(rt: &HostRuntime, threads: &H) -> u8
    ensures { result ≤ 2 }
{
    let alloc = rt.alloc();
    let mut out = Output::new(io::writer(rt));
    let mut err = Output::new(rt.stderr());
    let words = match words(rt, alloc) {
        Ok(words) => words,
        Err(line) => return deliver(2, b"", line.as_bytes(), &mut out, &mut err),
    };
    let Ok(words) = texts(alloc, words.as_slice()) else {
        return deliver(2, b"", NO_MEMORY.as_bytes(), &mut out, &mut err);
    };
    match job(alloc, words.as_slice()) {
        Ok(job) => perform_job(rt, threads, &job, &mut out, &mut err),
        Err(usage) => print_usage(alloc, &usage, &mut out, &mut err),
    }
}

fn main(rt: HostRuntime) -> ExitCode {
    ExitCode::from(run(&rt, &rt))
}
