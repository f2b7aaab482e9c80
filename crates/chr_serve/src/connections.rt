//! Live connections, from when they are taken until they are closed.
ghost use Rattle.std.specs.Prelude.{◌≡◌, ◌≤◌, ◌+◌, Some, None, vec_len, IfSome, IfNone, OnSome, IfErr, IfOk, OnOk, OnErr};
ghost use Rattle.slab.specs.Slab.{get, slab_len};
ghost use Rattle.chr_serve.specs.declared.connections.Slot.TheVariants.{Waiting, Served};

use chr_seats::SESSION_SEATS;
use slab::Slab;
use std::alloc::{AllocError, Allocator};
use std::os::unix::net::UnixStream;
use std::rt::Clock;
use std::sync::{Condvar, Mutex, Wait};
use std::time::Duration;

/// The most milliseconds between a failure of a listener and the next call of it.
const PAUSE: u64 = 100;

/// A live connection, and whether a thread has it.
#[derive(Drop)]
enum Slot {
    /// It waits for a thread.
    Waiting(UnixStream),
    /// A thread has it.
    Served,
}

/// The live connections, at most sixteen.
#[derive(Drop)]
struct Live<A: Allocator> {
    slots: Slab<Slot, A>,
    /// No connection comes any more.
    closed: bool,
    ghost few: { slab_len slots ≤ 16 },
    ghost room: { 16 ≤ slots.capacity },
}

impl<A: Allocator> Live<A> {
    /// No connection. An `Err` is E01.
    fn new(alloc: A) -> Result<Live<A>, AllocError>
        ensures { IfOk result (λ live. slab_len live.slots ≡ 0) }
    {
        Ok(Live {
            slots: Slab::with_capacity(alloc, SESSION_SEATS)?,
            closed: false,
        })
    }

    /// Adds a connection that waits. It comes back where sixteen live.
    fn add(&mut self, stream: UnixStream) -> Result<(), UnixStream>
        ensures added { OnOk result (slab_len self.new.slots ≡ slab_len self.old.slots + 1) }
        ensures most { OnOk result (slab_len self.new.slots ≤ 16) }
        ensures full { OnErr result ((slab_len self.old.slots ≡ 16) × (self.new ≡ self.old)) }
        ensures back { IfErr result (λ s. s ≡ stream) }
    {
        if self.slots.len() >= SESSION_SEATS {
            return Err(stream);
        }
        self.slots.insert_reserved(Slot::Waiting(stream));
        Ok(())
    }

    /// Hands out a connection that waits, with its key.
    fn take_waiting(&mut self) -> Option<(usize, UnixStream)>
        ensures live { slab_len self.new.slots ≡ slab_len self.old.slots }
        ensures waited { IfSome result (λ r. get self.old.slots r.0 ≡ Some (Waiting r.1)) }
    {
        for key in 0..self.slots.capacity() {
            if let Some(stream) = self.call(key) {
                return Some((key, stream));
            }
        }
        None
    }

    /// Hands out the connection of a key, if it waits.
    fn call(&mut self, key: usize) -> Option<UnixStream>
        ensures live { slab_len self.new.slots ≡ slab_len self.old.slots }
        ensures waited { IfSome result (λ stream. get self.old.slots key ≡ Some (Waiting stream)) }
        ensures served { OnSome result (get self.new.slots key ≡ Some Served) }
        ensures none { IfNone result (self.new ≡ self.old) }
    {
        if !matches!(self.slots.get(key), Some(Slot::Waiting(_))) {
            return None;
        }
        let Some(Slot::Waiting(stream)) = self.slots.try_remove(key) else {
            unreachable!();
        };
        self.slots.insert_reserved(Slot::Served);
        Some(stream)
    }

    /// Takes a connection out that was closed.
    fn remove(&mut self, key: usize)
        ensures gone { get self.new.slots key ≡ None }
        ensures live { slab_len self.new.slots ≤ slab_len self.old.slots }
    {
        self.slots.try_remove(key);
    }
}

/// The live connections under a lock.
#[derive(Drop)]
pub struct Connections<A: Allocator> {
    live: Mutex<Live<A>>,
    came: Condvar,
    left: Condvar,
}

impl<A: Allocator> Connections<A> {
    /// No connection yet. An `Err` is E01.
    pub fn new(alloc: A) -> Result<Connections<A>, AllocError> {
        Ok(Connections {
            live: Mutex::new(Live::new(alloc)?),
            came: Condvar::new(),
            left: Condvar::new(),
        })
    }

    /// Adds a connection that waits. It comes back where no seat is free.
    pub fn admit<R: Wait>(&self, rt: &R, stream: UnixStream) -> Result<(), UnixStream> {
        self.live.lock(rt).add(stream)?;
        self.came.notify_one();
        Ok(())
    }

    /// Waits for a connection that waits, and hands it out with its key. None once they are closed and none waits.
    pub fn next<R: Wait>(&self, rt: &R) -> Option<(usize, UnixStream)> {
        let mut live = self.live.lock(rt);
        for _ in rt.forever() {
            if let Some(called) = live.take_waiting() {
                return Some(called);
            }
            if live.closed {
                return None;
            }
            live = self.came.wait(rt, live);
        }
        unreachable!()
    }

    /// Closes a connection whose session has ended. Its seat is free before its client can see the end.
    pub fn leave<R: Wait>(&self, rt: &R, key: usize, stream: UnixStream) {
        self.live.lock(rt).remove(key);
        drop(stream);
        self.left.notify_all();
    }

    /// Sleeps until a connection is closed, but not for longer than a tenth of a second.
    pub fn pause<R: Wait + Clock>(&self, rt: &R) {
        let live = self.live.lock(rt);
        let _ = self
            .left
            .wait_timeout(rt, live, Duration::from_millis(PAUSE));
    }

    /// Returns whether no connection lives.
    pub fn is_empty<R: Wait>(&self, rt: &R) -> bool {
        self.live.lock(rt).slots.is_empty()
    }

    /// No connection comes any more: threads that wait for one end. Sleeps until none lives.
    pub fn close<R: Wait>(&self, rt: &R) {
        let mut live = self.live.lock(rt);
        live.closed = true;
        self.came.notify_all();
        let _ = self
            .left
            .wait_while(rt, live, |live| !live.slots.is_empty());
    }
}
