//! `chr serve`.
ghost use Rattle.std.specs.Prelude.{◌≡◌, ◌≤◌};

use chr_command_line::Masked;
use chr_commands::{Detail, Node, Status, report_failure, report_no_memory};
use chr_serve::{Ready, ServerFault, serve_on};
use std::fmt::{Display, Formatter};
use std::net::Net;
use std::os::unix::fs::FileTypeExt;
use std::os::unix::net::UnixListener;
use std::rt::{Clock, Files};
use std::sync::Wait;
use std::thread::Threads;
use std::{fmt, fs, io};

/// Returns the socket at a path. None where no socket is there, or the system doesn't say.
fn socket_at(rt: &impl Files, path: &str) -> Option<Node> {
    let found = fs::symlink_metadata(rt, path).ok()?;
    if !found.file_type().is_socket() {
        return None;
    }
    Some(Node::of(&found))
}

/// Removes the file of a socket, unless another file has its path by now.
fn remove(rt: &impl Files, path: &str, made: Option<Node>) -> io::Result<()> {
    if made.is_none() || socket_at(rt, path) != made {
        return Ok(());
    }
    fs::remove_file(rt, path)
}

/// What is told of a path that is taken.
#[derive(Clone, Copy)]
pub struct Taken<'p> {
    pub path: &'p str,
    /// Whether a socket is there.
    pub by_socket: bool,
}

impl Display for Taken<'_> {
    fn fmt<W: fmt::Write>(&self, f: &mut Formatter<W>) -> fmt::Result {
        let path = Masked(self.path);
        if self.by_socket {
            write!(
                f,
                "chr: {path}: a socket is there; remove it if no server uses it, or name another path"
            )
        } else {
            write!(
                f,
                "chr: {path}: a file is there that isn't a socket; name another path"
            )
        }
    }
}

/// What is told once a server can serve: where it listens, and how many workers were started.
#[derive(Clone, Copy)]
pub struct Listening<'p> {
    pub path: &'p str,
    pub workers: usize,
}

impl Display for Listening<'_> {
    fn fmt<W: fmt::Write>(&self, f: &mut Formatter<W>) -> fmt::Result {
        let path = Masked(self.path);
        let workers = self.workers;
        let noun = if workers == 1 { "worker" } else { "workers" };
        write!(f, "chr: listening on {path} with {workers} {noun}")
    }
}

/// Writes to standard error that a server can serve, once it can.
#[derive(Clone, Copy)]
struct Announcer<'a, R: Eprint> {
    rt: &'a R,
    path: &'a str,
    /// How many workers were asked for.
    workers: usize,
}

impl<R: Eprint> Ready for Announcer<'_, R> {
    ghost expected = { λ announcer. announcer.workers };

    fn tell(&self, workers: usize) {
        let path = self.path;
        let _ = eprintln!(self.rt; "{}", Listening { path, workers });
    }
}

/// Returns how many workers are started where so many are asked for: at least 1, and at most 16.
fn worker_count(asked: u32) -> usize
    ensures range { (1 ≤ result) × (result ≤ 16) }
    ensures asked { 1 ≤ asked → asked ≤ 16 → result ≡ asked }
{
    asked.clamp(1, 16) as usize
}

/// Writes to standard error why no socket could be made at a path.
fn report_refusal<R: Files + Eprint>(
    rt: &R,
    detail: Detail,
    path: &str,
    error: &io::Error,
) -> Status {
    if error.kind() != io::ErrorKind::AddrInUse {
        return report_failure(rt, detail, path, error);
    }
    let by_socket = socket_at(rt, path).is_some();
    let _ = eprintln!(rt; "{}", Taken { path, by_socket });
    Status::Usage
}

/// Makes a socket at the path, serves sessions over it with 1 to 16 workers (another number is brought into this range),
/// and removes the socket's file at the end. With `sessions` the end comes after so many connections. That it listens is
/// written to standard error once all threads run and the memory of all sessions is taken; where one of these is refused,
/// that is E01, and nothing else is written.
pub fn serve<R: Files + Net + Threads + Wait + Sync + Clock + Eprint + AllocGlobal>(
    rt: &R,
    detail: Detail,
    path: &str,
    workers: u32,
    sessions: Option<u32>,
) -> Status {
    let workers = worker_count(workers);
    let listener = match UnixListener::bind(rt, path) {
        Ok(listener) => listener,
        Err(error) => return report_refusal(rt, detail, path, &error),
    };
    let made = socket_at(rt, path);
    let announcer = Announcer { rt, path, workers };
    let served = serve_on(
        rt,
        rt.alloc(),
        rt.alloc(),
        &listener,
        &announcer,
        workers,
        sessions,
    );
    let removed = remove(rt, path, made);
    match (served, removed) {
        (Ok(()), Ok(())) => Status::Done,
        (Err(ServerFault::NoMemory), _) => report_no_memory(rt, detail),
        (Err(ServerFault::Listener(error)), _) | (Ok(()), Err(error)) => {
            report_failure(rt, detail, path, &error)
        }
    }
}
