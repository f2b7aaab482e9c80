//! Lines of progress.
use chr_commands::Detail;
use chr_commands::progress::Progress;
use chr_watch::Watch;
use std::alloc::Global;
use std::cell::{Cell, RefCell};
use std::fmt::{Display, Write};
use std::io;
use std::rt::Clock;
use std::test::*;
use std::time::Duration;

/// A standard error that keeps what is written, and a clock that goes on by so many milliseconds after each look, or
/// can't be read from a time on.
#[derive(Drop)]
struct Screen {
    written: RefCell<String>,
    now: Cell<u64>,
    passes: u64,
    fails_at: u64,
}

impl Clock for Screen {
    fn monotonic(&self) -> io::Result<Duration> {
        let now = self.now.get();
        self.now.set(now.saturating_add(self.passes));
        if now < self.fails_at {
            Ok(Duration::from_millis(now))
        } else {
            Err(io::ErrorKind::Other.into())
        }
    }

    fn since_1970(&self) -> io::Result<Duration> {
        self.monotonic()
    }
}

impl Eprint for Screen {
    fn eprint<D: Display + Drop>(&self, value: D) -> io::Result<()> {
        match self.written.try_borrow_mut() {
            Ok(mut written) => write!(written, "{value}").map_err(io::Error::from),
            Err(_) => Err(io::ErrorKind::Other.into()),
        }
    }

    fn eprintln<D: Display + Drop>(&self, value: D) -> io::Result<()> {
        self.eprint(value)?;
        self.eprint("\n")
    }
}

/// How much is said, how many milliseconds pass after a look at the clock, from when on it can't be read, and what is
/// written for the counts from 0 to 99.
type Row = (Detail, u64, u64, &'static str);

static LINES: [Row; 6] = [
    (Detail::Explained, 30, u64::MAX, ""),
    (
        Detail::Explained,
        400,
        u64::MAX,
        "chr: 32 calls made\nchr: 80 calls made\n",
    ),
    (
        Detail::Explained,
        500,
        u64::MAX,
        "chr: 16 calls made\nchr: 48 calls made\nchr: 80 calls made\n",
    ),
    (
        Detail::Explained,
        60_000,
        150_000,
        "chr: 0 calls made\nchr: 16 calls made\n",
    ),
    (Detail::Explained, 500, 0, ""),
    (Detail::Line, 500, u64::MAX, ""),
];

/// Tells of the counts from 0 to 99.
fn count(screen: &Screen, detail: Detail) {
    let mut progress = Progress::new(screen, detail, "calls made");
    for count in 0..100 {
        progress.done(count);
    }
}

/// Whether this is written.
fn writes(alloc: Global, row: &Row) -> bool {
    let (detail, passes, fails_at, wanted) = *row;
    let screen = Screen {
        written: RefCell::new(String::new(alloc)),
        now: Cell::new(0),
        passes,
        fails_at,
    };
    count(&screen, detail);
    screen
        .written
        .try_borrow()
        .is_ok_and(|written| written.as_str() == wanted)
}

#[test]
fn a_line_a_second(rt: HostRuntime) {
    for (i, row) in LINES.iter().enumerate() {
        assert!(rt; writes(rt.alloc(), row), "row {i}");
    }
}
