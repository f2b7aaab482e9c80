//! How the program ends.
ghost use Rattle.std.specs.Prelude.{◌≡◌};
ghost use Rattle.std.specs.Process.{exit_status};
ghost use Rattle.chr_commands.specs.Endings.{status_number, status_at};

use chr_solo::End;
use std::process::ExitCode;

/// How the program ends.
#[derive(Clone, Copy, Debug, PartialEq, Eq)]
pub enum Status {
    /// No goal is open at the end of the run, the log is a run, the session has ended between commands, all connections
    /// have been served, or help was asked for.
    Done,
    /// A text has a fault, the log is no run that ends in the store, or the input of the session is cut.
    Fault,
    /// The command line is wrong, or a file, a socket, standard input or standard output failed.
    Usage,
    /// Goals are open at the end of the run.
    Open,
    /// The system refused memory (E01).
    NoMemory,
}

impl Status {
    /// Returns the exit status.
    pub fn code(self) -> ExitCode
        ensures { exit_status result ≡ status_number self }
    {
        ExitCode::from(match self {
            Status::Done => 0,
            Status::Fault => 1,
            Status::Usage => 2,
            Status::Open => 3,
            Status::NoMemory => 5,
        })
    }
}

/// Returns the status of a run that ended so, where what it gives was written with the status `written`.
pub fn status_at(end: End, written: Status) -> Status
    ensures { result ≡ status_at end written }
{
    match (written, end) {
        (Status::Done, End::Open) => Status::Open,
        _ => written,
    }
}
