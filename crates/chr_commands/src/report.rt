//! What the program prints, and what it says of a failure.
ghost use Rattle.std.specs.Prelude.{◌≡◌, ◌⊎◌};

use crate::ending::Status;
use crate::message::{Detail, Fault, Source, message, no_memory_message};
use crate::words::first_not_text;
use chr_command_line::Masked;
use clap::error::ErrorKind;
use std::alloc::AllocError;
use std::io::{self, Write};
use std::rt::Env;

/// Whether a write failed as its reader has gone away, which is no failure of the program.
fn is_closed(error: &io::Error) -> bool {
    error.kind() == io::ErrorKind::BrokenPipe
}

/// Writes to standard output, as much as its reader takes.
fn put(rt: &impl Print, bytes: &[u8]) -> io::Result<()> {
    match io::writer(rt).write_all(bytes) {
        Err(error) if !is_closed(&error) => Err(error),
        _ => Ok(()),
    }
}

/// Writes E01 to standard error.
pub fn report_no_memory(rt: &impl Eprint, detail: Detail) -> Status
    ensures { result ≡ Status.NoMemory }
{
    let _ = eprint!(rt; "{}", no_memory_message(detail));
    Status::NoMemory
}

/// Writes to standard error what failed, as the path of a file, and the system's error.
pub fn report_failure(rt: &impl Eprint, detail: Detail, what: &str, error: &io::Error) -> Status
    ensures { (result ≡ Status.Usage) ⊎ (result ≡ Status.NoMemory) }
{
    if error.kind() == io::ErrorKind::OutOfMemory {
        return report_no_memory(rt, detail);
    }
    let _ = eprintln!(rt; "chr: {}: {error}", Masked(what));
    Status::Usage
}

/// Writes to standard error why the words of the command line can't be read.
pub fn report_words(
    rt: &(impl Env + Eprint + AllocGlobal),
    detail: Detail,
    error: &io::Error,
) -> Status
    ensures { (result ≡ Status.Usage) ⊎ (result ≡ Status.NoMemory) }
{
    if error.kind() == io::ErrorKind::InvalidData {
        if let Some(place) = first_not_text(rt) {
            let _ = eprintln!(rt;
                "chr: the command line: word {place} isn't UTF-8, as each option and each path must be"
            );
            return Status::Usage;
        }
    }
    report_failure(rt, detail, "the command line", error)
}

/// Writes a result to standard output.
pub fn print(rt: &(impl Print + Eprint), detail: Detail, bytes: &[u8]) -> Status
    ensures { (result ≡ Status.Done) ⊎ (result ≡ Status.Usage) ⊎ (result ≡ Status.NoMemory) }
{
    match put(rt, bytes) {
        Ok(()) => Status::Done,
        Err(error) => report_failure(rt, detail, "standard output", &error),
    }
}

/// Writes a text's fault to standard error.
pub fn report_fault<R: Eprint + AllocGlobal>(
    rt: &R,
    detail: Detail,
    source: Source<'_>,
    fault: Fault,
) -> Status
    ensures { (result ≡ Status.Fault) ⊎ (result ≡ Status.NoMemory) }
{
    match message(rt.alloc(), detail, source, fault) {
        Ok(message) => {
            let _ = eprint!(rt; "{message}");
            Status::Fault
        }
        Err(AllocError) => report_no_memory(rt, detail),
    }
}

/// Prints the help that was asked for to standard output, or what is wrong with the command line to standard error.
pub fn print_usage(rt: &(impl Print + Eprint), detail: Detail, error: &clap::Error) -> Status {
    if error.kind() == ErrorKind::OutOfMemory {
        return report_no_memory(rt, detail);
    }
    match error.print(rt) {
        _ if error.use_stderr() => Status::Usage,
        Err(failure) if !is_closed(&failure) => {
            report_failure(rt, detail, "standard output", &failure)
        }
        _ => Status::Done,
    }
}
