//! The socket of a server: its file, and what is said of it.
use crate::tests::client::Client;
use crate::tests::workers::work_at_once;
use chr_commands::{Detail, Status};
use chr_socket::serve::{Listening, Taken, serve};
use std::alloc::{AllocGlobal, Global};
use std::fmt::Display;
use std::fs::Files;
use std::net::Net;
use std::os::unix::net::{UnixListener, UnixStream};
use std::rt::Clock;
use std::sync::Wait;
use std::test::*;
use std::thread::Threads;
use std::{env, fs, io, process, thread};

/// How a server of one worker and one session ends.
fn served<R: Files + Net + Threads + Wait + Sync + Clock + Eprint + AllocGlobal>(
    rt: &R,
    path: &str,
) -> Status {
    serve(rt, Detail::Line, path, 1, Some(1))
}

#[test]
fn paths_where_no_socket_can_be_made(rt: HostRuntime) {
    for path in [
        ".",
        "there-is-no-such-folder/chr.sock",
        "a-path-of-more-than-one-hundred-and-seven-bytes-which-no-socket-of-the-system-can-have-since-its-address-ends-there",
    ] {
        assert!(rt; served(&rt, path) == Status::Usage, "{path}");
    }
}

/// A path for a socket of this process, in the folder for files that don't last.
fn socket_path(rt: &HostRuntime, name: &str) -> io::Result<String> {
    let folder = env::temp_dir(rt)?;
    let number = process::id(rt.process());
    Ok(format!(in rt.alloc(); "{}/chr-server-{number}-{name}.sock", folder.display())?)
}

/// Whether a client ends its session, and can put a file in the place of the socket before, where it is to.
fn leaves<R: Files + Net + AllocGlobal>(rt: &R, path: &str, replaces: bool) -> bool {
    match Client::connect_at(rt, path) {
        Some(mut client) => {
            let replaced = !replaces
                || client.replies("store\n", "fault E24 NoProgram\n")
                    && fs::remove_file(rt, path).is_ok()
                    && fs::write(rt, path, b"kept").is_ok();
            replaced && client.takes_leave()
        }
        None => false,
    }
}

#[test]
fn a_socket_is_removed_at_the_end(rt: HostRuntime) -> Result<(), Fail> {
    let path = socket_path(&rt, "removed")?;
    let path = path.as_str();
    let (status, left) = thread::join(&rt, || served(&rt, path), || leaves(&rt, path, false));
    assert!(rt; status == Status::Done && left);
    assert!(rt; matches!(fs::exists(&rt, path), Ok(false)));
    Ok(())
}

#[test]
fn sixteen_workers_work_at_once(rt: HostRuntime) -> Result<(), Fail> {
    let path = socket_path(&rt, "sixteen")?;
    let path = path.as_str();
    let (status, at_once) = thread::join(
        &rt,
        || serve(&rt, Detail::Line, path, 16, Some(1)),
        || work_at_once(Client::connect_at(&rt, path), 16),
    );
    // It ends, though the long goals don't.
    assert!(rt; status == Status::Done && at_once);
    Ok(())
}

/// Whether this file is as it was written. It is removed then.
fn was_kept<R: Files + AllocGlobal>(rt: &R, path: &str) -> io::Result<bool> {
    let kept = fs::read_to_string(rt, path)?.as_str() == "kept";
    fs::remove_file(rt, path)?;
    Ok(kept)
}

#[test]
fn another_file_is_left_at_the_end(rt: HostRuntime) -> Result<(), Fail> {
    let path = socket_path(&rt, "replaced")?;
    let path = path.as_str();
    let (status, left) = thread::join(&rt, || served(&rt, path), || leaves(&rt, path, true));
    assert!(rt; status == Status::Done && left);
    assert!(rt; matches!(was_kept(&rt, path), Ok(true)));
    Ok(())
}

/// Whether a server leaves a file that is at its path.
fn leaves_file<R: Files + Net + Threads + Wait + Sync + Clock + Eprint + AllocGlobal>(
    rt: &R,
    path: &str,
) -> io::Result<bool> {
    fs::write(rt, path, b"kept")?;
    let refused = served(rt, path) == Status::Usage;
    Ok(was_kept(rt, path)? && refused)
}

/// Whether a server leaves a socket that another listens at, and one that none does.
fn leaves_socket<R: Files + Net + Threads + Wait + Sync + Clock + Eprint + AllocGlobal>(
    rt: &R,
    path: &str,
) -> io::Result<bool> {
    let refused = match UnixListener::bind(rt, path) {
        Ok(_listener) => served(rt, path) == Status::Usage && UnixStream::connect(rt, path).is_ok(),
        Err(_) => false,
    };
    let left = served(rt, path) == Status::Usage && fs::exists(rt, path)?;
    fs::remove_file(rt, path)?;
    Ok(refused && left)
}

#[test]
fn what_is_at_the_path_is_left(rt: HostRuntime) -> Result<(), Fail> {
    let path = socket_path(&rt, "taken")?;
    assert!(rt; matches!(leaves_file(&rt, path.as_str()), Ok(true)));
    assert!(rt; matches!(leaves_socket(&rt, path.as_str()), Ok(true)));
    Ok(())
}

/// How many workers there are, and what is told once clients can connect.
static LISTENING: [(usize, &str); 2] = [
    (1, "chr: listening on chr.sock with 1 worker"),
    (4, "chr: listening on chr.sock with 4 workers"),
];

/// Whether a socket is at a path, and what is told of it.
static TAKEN: [(bool, &str); 2] = [
    (
        true,
        "chr: chr.sock: a socket is there; remove it if no server uses it, or name another path",
    ),
    (
        false,
        "chr: chr.sock: a file is there that isn't a socket; name another path",
    ),
];

/// Whether this is how a sentence is displayed.
fn is_displayed<D: Display + Drop>(alloc: Global, sentence: D, wanted: &str) -> bool {
    match format!(in alloc; "{sentence}") {
        Ok(told) => told.as_str() == wanted,
        Err(_) => false,
    }
}

#[test]
fn sentences_on_listening(rt: HostRuntime) {
    let path = "chr.sock";
    for (workers, wanted) in LISTENING {
        let told = is_displayed(rt.alloc(), Listening { path, workers }, wanted);
        assert!(rt; told, "{workers}");
    }
}

/// A path with control characters and one letter outside ASCII, and how it is told.
const STRANGE: &str = "a\u{1b}[2J\tb\nc\u{9b}\u{7f}\u{e9}.sock";

const STRANGE_IS_TOLD: &str = "a?[2J b?c??\u{e9}.sock";

#[test]
fn control_characters_of_paths_are_masked(rt: HostRuntime) -> Result<(), Fail> {
    let path = STRANGE;
    let listening = format!(in rt.alloc(); "chr: listening on {STRANGE_IS_TOLD} with 2 workers")?;
    assert!(rt;
        is_displayed(
            rt.alloc(),
            Listening { path, workers: 2 },
            listening.as_str()
        )
    );
    for (by_socket, _) in TAKEN {
        let told = format!(in rt.alloc(); "{}", Taken { path, by_socket })?;
        let starts = format!(in rt.alloc(); "chr: {STRANGE_IS_TOLD}: a ")?;
        assert!(rt; told.starts_with(starts.as_str()), "{by_socket}");
    }
    Ok(())
}

#[test]
fn sentences_on_paths_that_are_taken(rt: HostRuntime) {
    let path = "chr.sock";
    for (by_socket, wanted) in TAKEN {
        let told = is_displayed(rt.alloc(), Taken { path, by_socket }, wanted);
        assert!(rt; told, "{by_socket}");
    }
}
