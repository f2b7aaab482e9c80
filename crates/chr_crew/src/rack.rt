//! The rack: places of sessions, which are lent and come back.
ghost use Rattle.std.specs.Prelude.{◌≡◌, ◌≤◌, ◌<◌, ◌+◌, vec_len, vec_capacity, OnErr, OnOk};

use chr_pool::Inlet;
use chr_seats::{PostLedger, SESSION_SEATS, Seat};
use std::alloc::{AllocError, Allocator};
use std::sync::ledger::Ledger;
use std::sync::{Mutex, Wait};

/// What a session works by: a seat, and an inlet of the pool.
#[derive(Drop)]
pub struct Place<L1: PostLedger, L2: Ledger> {
    pub seat: Seat<L1, L2>,
    pub inlet: Inlet<u64>,
}

/// E18: all places are out.
#[derive(Clone, Copy, Debug, PartialEq, Eq)]
pub struct NoSeat;

/// The places that are free, at most sixteen.
#[derive(Drop)]
struct Free<L1: PostLedger, L2: Ledger, A: Allocator> {
    places: Vec<Place<L1, L2>, A>,
    ghost few: { vec_len places ≤ 16 },
    ghost room: { 16 ≤ vec_capacity places },
}

impl<L1: PostLedger, L2: Ledger, A: Allocator> Free<L1, L2, A> {
    /// Lends a place. E18 only where none is free.
    fn take(&mut self) -> Result<Place<L1, L2>, NoSeat>
        ensures ok { OnOk result (vec_len self.new.places + 1 ≡ vec_len self.old.places) }
        ensures err { OnErr result (vec_len self.old.places ≡ 0) }
    {
        match self.places.pop() {
            Some(place) => Ok(place),
            None => Err(NoSeat),
        }
    }

    /// Takes a place back. A seventeenth is no place of this rack, and is dropped.
    fn give_back(&mut self, place: Place<L1, L2>)
        ensures { vec_len self.old.places < 16 → vec_len self.new.places ≡ vec_len self.old.places + 1 }
    {
        if self.places.len() < SESSION_SEATS {
            self.places.push_reserved(place);
        }
    }
}

/// The sixteen places of sessions, under a lock.
#[derive(Drop)]
pub struct Rack<L1: PostLedger, L2: Ledger, A: Allocator> {
    free: Mutex<Free<L1, L2, A>>,
}

impl<L1: PostLedger, L2: Ledger, A: Allocator> Rack<L1, L2, A> {
    /// A rack of sixteen places, each of one of these seats and one of these inlets. An `Err` is E01.
    pub fn new(
        alloc: A,
        sessions: Vec<Seat<L1, L2>, A>,
        inlets: Vec<Inlet<u64>>,
    ) -> Result<Rack<L1, L2, A>, AllocError>
        requires sessions { vec_len sessions ≡ 16 }
        requires inlets { vec_len inlets ≡ 16 }
    {
        let mut places = Vec::with_capacity(alloc, SESSION_SEATS)?;
        let mut inlets = inlets.into_iter();
        for seat in sessions {
            let Some(inlet) = inlets.next() else {
                unreachable!();
            };
            places.push_reserved(Place { seat, inlet });
        }
        Ok(Rack {
            free: Mutex::new(Free { places }),
        })
    }

    /// Lends a place. E18 only where all sixteen are out. It may wait for the lock.
    pub fn take<R: Wait>(&self, rt: &R) -> Result<Place<L1, L2>, NoSeat> {
        self.free.lock(rt).take()
    }

    /// Takes a place back. It may wait for the lock.
    pub fn give_back<R: Wait>(&self, rt: &R, place: Place<L1, L2>) {
        self.free.lock(rt).give_back(place);
    }
}
