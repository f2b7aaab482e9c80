//! How workers rest, and sessions wait for them.
use crate::shared::Shared;
use chr_seats::PostLedger;
use std::alloc::Allocator;
use std::sync::atomic::Ordering;
use std::sync::ledger::Ledger;
use std::sync::{Condvar, Wait};
use std::thread;

/// How a rest ended.
#[derive(Clone, Copy, Debug, PartialEq, Eq)]
pub enum Rest {
    /// There may be something new to take.
    News,
    /// There is nothing to take any more: the crew is closed, or all its workers rest.
    Over,
}

/// Tells so many of those that sleep there.
fn notify(condvar: &Condvar, count: u32) {
    for _ in 0..count {
        condvar.notify_one();
    }
}

impl<L1: PostLedger, L2: Ledger, A: Allocator + Copy> Shared<L1, L2, A> {
    /// A worker begins to work.
    pub fn begin<R: Wait>(&self, rt: &R) {
        self.locked.lock(rt).sleepers.begin();
    }

    /// A worker that works ends.
    pub fn end<R: Wait>(&self, rt: &R) {
        let mut locked = self.locked.lock(rt);
        locked.sleepers.end(&self.rested, &self.watched);
    }

    /// There is something new to take: all workers that rest look again.
    pub fn announce<R: Wait>(&self, rt: &R) {
        self.announce_some(rt, usize::MAX);
    }

    /// There is something new to take, for so many workers: as many of those that rest look again, or all of them. A worker
    /// that is told is awake from then on.
    pub fn announce_some<R: Wait>(&self, rt: &R, most: usize) {
        let mut locked = self.locked.lock(rt);
        self.news.fetch_add(1, Ordering::SeqCst);
        let told = locked.sleepers.tell(most);
        drop(locked);
        notify(&self.rested, told);
    }

    /// How often there was something new to take. What was announced before this call is found by looking after it; what
    /// comes later ends a rest since this number. It doesn't take the lock.
    pub fn news(&self) -> u64 {
        self.news.load(Ordering::SeqCst)
    }

    /// How many workers rest, of which none is told yet that there is something new.
    pub fn resting<R: Wait>(&self, rt: &R) -> u32 {
        self.locked.lock(rt).sleepers.resting
    }

    /// A worker that found nothing to take since `seen` sleeps until it is told of something new, or the crew is closed. It
    /// is over where the crew is closed; else the worker works again.
    pub fn rest<R: Wait>(&self, rt: &R, seen: u64) -> Rest {
        let mut locked = self.locked.lock(rt);
        if self.news() == seen {
            locked.sleepers.rest(&self.rested, &self.watched);
            for _ in rt.forever() {
                if locked.sleepers.told > 0 || self.is_closed() {
                    break;
                }
                locked = self.rested.wait(rt, locked);
            }
            locked.sleepers.wake();
        }
        if self.is_closed() {
            locked.sleepers.end(&self.rested, &self.watched);
            return Rest::Over;
        }
        Rest::News
    }

    /// A worker that found nothing to take since `seen` sleeps until it is told of something new, or no worker works any
    /// more. Then it is over; else the worker works again.
    pub fn rest_together<R: Wait>(&self, rt: &R, seen: u64) -> Rest {
        let mut locked = self.locked.lock(rt);
        if self.news() != seen {
            return Rest::News;
        }
        locked.sleepers.rest_together(&self.rested, &self.watched);
        for _ in rt.forever() {
            if locked.sleepers.is_rest_over() {
                break;
            }
            locked = self.rested.wait(rt, locked);
        }
        if locked.sleepers.wake_together() {
            Rest::News
        } else {
            Rest::Over
        }
    }

    /// How many holds seats have made, modulo 2^64. What is seen after this call tells of all of them.
    pub fn holds<R: Wait>(&self, rt: &R) -> u64 {
        self.locked.lock(rt).sleepers.holds
    }

    /// Has a session that saw the book after `seen` holds sleep while a worker is awake, until at least
    /// [`HOLDS_A_LOOK`](crate::HOLDS_A_LOOK) holds have been made since: while `n` sessions sleep, fewer than `n + 1` times as
    /// many. Where no worker is awake it doesn't sleep. Returns whether there may be something new: false only once a worker has
    /// begun, none is awake and there was no hold since.
    pub fn watch<R: Wait>(&self, rt: &R, seen: u64) -> bool {
        let mut locked = self.locked.lock(rt);
        let sleepers = &mut locked.sleepers;
        if sleepers.awake == 0 {
            let more = !sleepers.begun || sleepers.holds != seen;
            drop(locked);
            if more {
                thread::yield_now();
            }
            return more;
        }
        sleepers.watching = sleepers.watching.saturating_add(1);
        for _ in rt.forever() {
            if locked.sleepers.is_watch_over(seen) {
                break;
            }
            locked = self.watched.wait(rt, locked);
        }
        let sleepers = &mut locked.sleepers;
        sleepers.watching = sleepers.watching.saturating_sub(1);
        true
    }

    /// Closes the crew: ends the rest of all its workers.
    pub fn close<R: Wait>(&self, rt: &R) {
        let locked = self.locked.lock(rt);
        self.closed.store(true, Ordering::SeqCst);
        drop(locked);
        self.rested.notify_all();
    }

    /// Whether the crew is closed. It doesn't take the lock.
    pub fn is_closed(&self) -> bool {
        self.closed.load(Ordering::SeqCst)
    }
}
