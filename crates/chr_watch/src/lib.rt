//! Who is told how far a run or a check is, and when that is shown.
//!
//! A long run, or the check of a long log, tells a [`Watch`] how many calls it has made, or how many entries it has checked;
//! [`Unwatched`] passes over that. What a watch does with it changes nothing of the run or the check, whose contracts hold
//! for every watch. A [`Pace`] tells a watch that writes lines when the next one is due: a second after the one before.
#![tactic(auto)]

ghost use Rattle.std.specs.Prelude.{◌≡◌, ◌↔◌, ◌+◌, ◌≤◌, IsTrue, IsFalse};
ghost use Rattle.std.specs.Duration.{as_nanos};

use std::time::Duration;

/// Is told how far something is.
pub trait Watch {
    /// So many calls have been made, or entries checked. Each count is told, from 0 on, before the next call or entry; but of
    /// several calls that are made at once only how many came before the last of them, once they are made. The counts rise, and
    /// of 2,048 in a row at least one is told.
    fn done(&mut self, count: u64);
}

/// Passes over what it is told.
#[derive(Clone, Copy, Debug)]
pub struct Unwatched;

impl Watch for Unwatched {
    fn done(&mut self, _count: u64) {}
}

/// When the next line is due.
#[derive(Clone, Copy, Debug)]
pub struct Pace {
    /// The time of the line before, or the one from which the first is counted.
    pub before: Duration,
}

impl Pace {
    /// Whether a line is due at a time: a second or more after the one before. The next is then counted from this time.
    pub fn is_due(&mut self, now: Duration) -> bool
        ensures due { IsTrue result ↔ (as_nanos self.old.before + 1_000_000_000 ≤ as_nanos now) }
        ensures counted { IsTrue result → self.new.before ≡ now }
        ensures passed_over { IsFalse result → self.new ≡ self.old }
    {
        match now.checked_sub(self.before) {
            Some(passed) if 1 <= passed.as_secs() => {
                self.before = now;
                true
            }
            _ => false,
        }
    }
}
