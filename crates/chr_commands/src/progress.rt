//! Progress at a terminal.
use crate::message::Detail;
use chr_watch::{Pace, Watch};
use std::rt::Clock;

/// The least number of calls or entries between two looks at the clock.
const BETWEEN_LOOKS: u64 = 16;

/// Writes to standard error how far a run or a check is, a line a second, where that is a terminal.
#[derive(Drop)]
pub struct Progress<'r, R> {
    rt: &'r R,
    /// What is counted, as `calls made`.
    what: &'static str,
    /// None where nothing is written: standard error is no terminal, or the clock can't be read.
    pace: Option<Pace>,
    /// The least count at which the clock is looked at again.
    look: u64,
}

impl<'r, R: Clock> Progress<'r, R> {
    /// Progress from now on of what is counted, as `calls made`. With [`Detail::Line`] nothing is written.
    pub fn new(rt: &'r R, detail: Detail, what: &'static str) -> Progress<'r, R> {
        let pace = match detail {
            Detail::Line => None,
            Detail::Explained => match rt.monotonic() {
                Ok(now) => Some(Pace { before: now }),
                Err(_) => None,
            },
        };
        Progress {
            rt,
            what,
            pace,
            look: 0,
        }
    }
}

impl<'r, R: Clock + Eprint> Watch for Progress<'r, R> {
    #[inline(always)]
    fn done(&mut self, count: u64) {
        let Some(pace) = &mut self.pace else {
            return;
        };
        if count < self.look {
            return;
        }
        self.look = count.saturating_add(BETWEEN_LOOKS);
        let Ok(now) = self.rt.monotonic() else {
            return;
        };
        if pace.is_due(now) {
            let what = self.what;
            let _ = eprintln!(self.rt; "chr: {count} {what}");
        }
    }
}
