//! Who works, and who sleeps.
ghost use Rattle.std.specs.Prelude.{◌≡◌, ◌↔◌, ◌⊎◌, ◌+◌, ◌-◌, ◌*◌, ◌<◌, ◌≤◌, min, IsTrue};
ghost use Rattle.chr_shared.specs.Sleepers.{one_hold_more, one_begins, one_less_awake, told_so_many, one_rests, one_rests_together, one_wakes, one_wakes_together, holds_since};

use std::sync::Condvar;

/// The least number of holds through which a session that waits sleeps while a worker is awake.
pub const HOLDS_A_LOOK: u64 = 512;

/// How many work, and how many sleep for what. It is kept under the lock.
#[derive(Default, Drop)]
pub struct Sleepers {
    /// How many holds there were by seats, modulo 2^64.
    pub holds: u64,
    /// How many there were since the sessions that sleep were last told to look, or since any sleeps.
    pub unseen: u64,
    /// Whether a worker has begun to work.
    pub begun: bool,
    /// How many workers work, including those that were told to and still sleep.
    pub awake: u32,
    /// How many workers sleep and were not told to work.
    pub resting: u32,
    /// How many workers were told to work and still sleep.
    pub told: u32,
    /// How many of those that sleep end where no worker is awake.
    pub together: u32,
    /// How many sessions sleep.
    pub watching: u32,
}

impl Sleepers {
    /// Counts a hold. Returns whether sessions that sleep are to look: the more there are, the more holds lie between, so that all
    /// together look about once in [`HOLDS_A_LOOK`] holds.
    pub fn count_hold(&mut self) -> bool
        ensures due { IsTrue result ↔ ((0 < self.old.watching) × (HOLDS_A_LOOK * self.old.watching ≤ min (self.old.unseen + 1) u64.MAX)) }
        ensures counted { self.new ≡ one_hold_more HOLDS_A_LOOK self.old }
    {
        self.holds = self.holds.wrapping_add(1);
        self.unseen = self.unseen.saturating_add(1);
        let is_due = self.unseen >= HOLDS_A_LOOK * u64::from(self.watching);
        if is_due {
            self.unseen = 0;
        }
        is_due && self.watching > 0
    }

    /// Counts a worker that begins to work.
    pub fn begin(&mut self)
        ensures { self.new ≡ one_begins self.old }
    {
        self.begun = true;
        self.awake = self.awake.saturating_add(1);
    }

    /// Tells those that may wait for it that no worker is awake, where that is so.
    fn tell_last(&self, rested: &Condvar, watched: &Condvar) {
        if self.awake != 0 {
            return;
        }
        if self.together > 0 {
            rested.notify_all();
        }
        if self.watching > 0 {
            watched.notify_all();
        }
    }

    /// Counts a worker that works and ends. Where none is awake then, tells those that wait for that.
    pub fn end(&mut self, rested: &Condvar, watched: &Condvar)
        ensures { self.new ≡ one_less_awake self.old }
    {
        self.awake = self.awake.saturating_sub(1);
        self.tell_last(rested, watched);
    }

    /// Counts as many of the workers that rest as told and awake from now on, or all of them where fewer rest. Returns how many.
    pub fn tell(&mut self, most: usize) -> u32
        ensures told { result ≡ min most self.old.resting }
        ensures counted { self.new ≡ told_so_many result self.old }
    {
        let told = u32::try_from(most).unwrap_or(u32::MAX).min(self.resting);
        self.resting = self.resting.saturating_sub(told);
        self.awake = self.awake.saturating_add(told);
        self.told = self.told.saturating_add(told);
        told
    }

    /// Counts a worker that works and goes to sleep. Where none is awake then, tells those that wait for that.
    pub fn rest(&mut self, rested: &Condvar, watched: &Condvar)
        ensures { self.new ≡ one_rests self.old }
    {
        self.awake = self.awake.saturating_sub(1);
        self.resting = self.resting.saturating_add(1);
        self.tell_last(rested, watched);
    }

    /// Counts the same of a worker that ends where no worker is awake.
    pub fn rest_together(&mut self, rested: &Condvar, watched: &Condvar)
        ensures { self.new ≡ one_rests_together self.old }
    {
        self.rest(rested, watched);
        self.together = self.together.saturating_add(1);
    }

    /// Counts a worker that sleeps and wakes up, and works.
    pub fn wake(&mut self)
        ensures { self.new ≡ one_wakes self.old }
    {
        if self.told > 0 {
            self.told -= 1;
        } else {
            self.resting = self.resting.saturating_sub(1);
            self.awake = self.awake.saturating_add(1);
        }
    }

    /// Returns whether a rest together with others is over: a worker that rests was told to work, or none is awake.
    pub fn is_rest_over(&self) -> bool
        ensures { IsTrue result ↔ ((0 < self.now.told) ⊎ (self.now.awake ≡ 0)) }
    {
        self.told > 0 || self.awake == 0
    }

    /// Counts a worker that rested together with others and wakes up. Returns whether it was told to, and works; else it has ended.
    pub fn wake_together(&mut self) -> bool
        ensures told { IsTrue result ↔ (0 < self.old.told) }
        ensures counted { self.new ≡ one_wakes_together self.old }
    {
        self.together = self.together.saturating_sub(1);
        let told = self.told > 0;
        if told {
            self.told -= 1;
        } else {
            self.resting = self.resting.saturating_sub(1);
        }
        told
    }

    /// Returns whether the sleep of a session that saw the book after `seen` holds is over: no worker is awake, or there have been
    /// [`HOLDS_A_LOOK`] holds since.
    pub fn is_watch_over(&self, seen: u64) -> bool
        ensures { IsTrue result ↔ ((self.now.awake ≡ 0) ⊎ (HOLDS_A_LOOK ≤ holds_since seen self.now)) }
    {
        self.awake == 0 || self.holds.wrapping_sub(seen) >= HOLDS_A_LOOK
    }
}
