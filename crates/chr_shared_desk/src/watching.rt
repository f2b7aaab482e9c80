//! Looks at a book, and the sleep between two of them.
ghost use Rattle.std.specs.Prelude.{◌≡◌, ◌+◌, ◌<◌, ◌^◌};
ghost use Rattle.chr_session.specs.Commands.{reply_of};
ghost use Rattle.chr_shared_desk.specs.SharedReplies.{WaitReplies};

use chr_seats::{HoldFault, PostLedger, Seat};
use chr_session::{Fault, Reply};
use chr_shared::Shared;
use std::alloc::Allocator;
use std::marker::Model;
use std::sync::Wait;
use std::sync::ledger::Ledger;

/// What a session looks at a book by, whether a ticket is open. Each look is a hold of the lock, and is counted. Contracts see
/// the seat by which it looks, and how often it has looked.
#[derive(Drop)]
pub(crate) struct Watch<'a, R: Wait, L1: PostLedger, L2: Ledger, A: Allocator> {
    rt: &'a R,
    shared: &'a Shared<L1, L2, A>,
    seat: &'a Seat<L1, L2>,
    looks: u64,
    /// How many holds there were before the last look.
    seen: u64,
    /// Whether the workers were told to look again.
    told: bool,
}

impl<'a, R: Wait, L1: PostLedger, L2: Ledger, A: Allocator> Model for Watch<'a, R, L1, L2, A> {
    ghost use Rattle.std.specs.Prelude.{ℕ};
    ghost use Rattle.chr_seats.specs.Accounts.{SeatState};

    ghost Value = { SeatState × ℕ };

    ghost view = { λ w. (w.seat.now, w.looks) };
}

impl<'a, R: Wait, L1: PostLedger, L2: Ledger, A: Allocator + Copy> Watch<'a, R, L1, L2, A> {
    /// Returns a watch that has not looked yet.
    pub(crate) fn new(
        rt: &'a R,
        shared: &'a Shared<L1, L2, A>,
        seat: &'a Seat<L1, L2>,
    ) -> Watch<'a, R, L1, L2, A>
        ensures { result ≡ (seat.now, 0) }
    {
        Watch {
            rt,
            shared,
            seat,
            looks: 0,
            seen: 0,
            told: false,
        }
    }

    /// Returns how often it has looked.
    pub(crate) fn looks(&self) -> u64
        ensures { result ≡ self.now.1 }
    {
        self.looks
    }

    /// Looks once whether a ticket is open.
    pub(crate) fn look(&mut self) -> Reply<A>
        requires { self.old.1 + 1 < 2 ^ 64 }
        ensures replies { WaitReplies self.old.0 (reply_of result) }
        ensures count { self.new ≡ (self.old.0, self.old.1 + 1) }
    {
        self.seen = self.shared.holds(self.rt);
        self.looks += 1;
        match self.shared.quiet(self.rt, self.seat) {
            Ok(true) => Reply::Quiet,
            Ok(false) => Reply::Open,
            Err(HoldFault::WrongSeat) => Reply::Fault(Fault::WrongSeat),
            Err(HoldFault::NoBook) => Reply::Fault(Fault::NoProgram),
        }
    }

    /// Sleeps until there may be something new to see since the last look. Where no worker is awake they are told once to look
    /// again, since a goal may be left that a worker had no memory for. Returns false where that is done, and no worker is awake.
    pub(crate) fn sleep(&mut self) -> bool
        ensures { self.new ≡ self.old }
    {
        if self.shared.watch(self.rt, self.seen) {
            return true;
        }
        if self.told {
            return false;
        }
        self.told = true;
        self.shared.announce(self.rt);
        self.shared.watch(self.rt, self.seen)
    }
}
