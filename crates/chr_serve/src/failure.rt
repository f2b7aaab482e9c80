//! What a failure of a listener says of its next call.
ghost use Rattle.std.specs.IoError.{error_kind, raw_os_error};
ghost use Rattle.chr_serve.specs.Outlooks.{IsOutlook};

use std::io::{self, ErrorKind};

/// The system's error where it has no memory.
const ENOMEM: i32 = 12;

/// The system's error where no process may open another descriptor.
const ENFILE: i32 = 23;

/// The system's error where this process may not open another descriptor.
const EMFILE: i32 = 24;

/// The system's error where it has no memory for sockets.
const ENOBUFS: i32 = 105;

/// What can be hoped of the next call of a listener that has failed.
#[derive(Clone, Copy, Debug, PartialEq, Eq)]
pub enum Outlook {
    /// Only this call failed, since a signal came or the connection was cut before it was taken.
    Passed,
    /// The system lacks descriptors or memory, which others may give back.
    Shortage,
    /// Nothing says that the next call will not fail.
    Lasting,
}

impl Outlook {
    /// Returns what can be hoped of the next call after this failure.
    pub fn after(failure: &io::Error) -> Outlook
        ensures { IsOutlook (error_kind failure.now) (raw_os_error failure.now) result }
    {
        match (failure.kind(), failure.raw_os_error()) {
            (ErrorKind::Interrupted | ErrorKind::ConnectionAborted, _) => Outlook::Passed,
            (_, Some(ENOMEM | ENFILE | EMFILE | ENOBUFS)) => Outlook::Shortage,
            _ => Outlook::Lasting,
        }
    }
}
