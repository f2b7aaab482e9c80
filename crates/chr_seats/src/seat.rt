//! Seats.
ghost use Rattle.std.specs.Prelude.{◌≡◌, ◌≤◌, Bool, true};

use crate::counts::Counts;
use chr_book::Book;
use chr_versions::{Naming, Opened};
use std::alloc::Allocator;
use std::marker::{Brand, Model};
use std::sync::ledger::{Blank, Ledger, Share};

/// How many seats workers have, from the number 1 on.
pub const WORKER_SEATS: usize = 16;

/// How many seats sessions have, from the number 17 on.
pub const SESSION_SEATS: usize = 16;

/// How many seats there are.
pub const SEATS: usize = WORKER_SEATS + SESSION_SEATS;

/// The ledger of the posts, which names the history of the book's versions too, and says whether a book is there from the start.
pub trait PostLedger: Ledger + Naming {
    ghost loaded: { Bool };
}

impl PostLedger for Brand {
    ghost loaded = { true };
}

/// Two ledgers, and a history of a book's versions, which no types name yet.
#[derive(Drop)]
pub struct Blanks<A: Allocator> {
    pub posts: Blank,
    pub others: Blank,
    pub versions: Opened<Book<A>>,
}

impl<A: Allocator> Blanks<A> {
    /// Ledgers with a part for each seat, and an empty history.
    pub fn new() -> Blanks<A>
        ensures { (result.posts.parts ≡ 32) × (result.others.parts ≡ 32) }
    {
        Blanks {
            posts: Blank::new(SEATS as u64),
            others: Blank::new(SEATS as u64),
            versions: Opened::new(),
        }
    }
}

/// One of the 32 seats. Contracts see its number and its counts, which are the amounts of its shares of both ledgers.
#[derive(Drop)]
pub struct Seat<L1: PostLedger, L2: Ledger> {
    pub(crate) number: u32,
    pub(crate) counts: Counts,
    pub(crate) posts: Share<L1>,
    pub(crate) others: Share<L2>,
}

impl<L1: PostLedger, L2: Ledger> Model for Seat<L1, L2> {
    ghost use Rattle.std.specs.Prelude.{◌≡◌, ◌≤◌};
    ghost use Rattle.chr_seats.specs.Accounts.{SeatState};

    ghost Value = { SeatState };

    ghost view = { λ s. record { number = s.number; counts = s.counts } };

    ghost invariant = { λ s. (1 ≤ s.number) × (s.number ≤ 32) × (s.posts.parts ≡ 1) × (s.others.parts ≡ 1) × (s.posts.amount ≡ s.counts.posts) × (s.others.amount ≡ s.counts.others) };
}

impl<L1: PostLedger, L2: Ledger> Seat<L1, L2> {
    /// Its number, from 1 to 32.
    pub fn number(&self) -> u32
        ensures same { result ≡ self.now.number }
        ensures range { (1 ≤ result) × (result ≤ 32) }
    {
        self.number
    }

    /// How many entries it has made.
    pub fn counts(&self) -> Counts
        ensures { result ≡ self.now.counts }
    {
        self.counts
    }
}

/// All seats: the numbers 1 to 16 for workers, and 17 to 32 for sessions.
#[derive(Drop)]
pub struct Seats<L1: PostLedger, L2: Ledger, A: Allocator> {
    pub workers: Vec<Seat<L1, L2>, A>,
    pub sessions: Vec<Seat<L1, L2>, A>,
}
