//! A lock over no book, with two workers and the places of sessions, and what is done there.
ghost use Rattle.std.specs.Prelude.{◌≡◌, false};
ghost use Rattle.chr_seats.specs.Accounts.{AreNamed};

use chr_crew::work::work;
use chr_crew::{Open, Rack, Stop};
use chr_pool::{Hand, make};
use chr_seats::{Blanks, PostLedger, Seat, Seats};
use chr_shared::Shared;
use std::alloc::{Allocator, Global};
use std::marker::Brand;
use std::sync::Wait;
use std::sync::ledger::Ledger;

/// A worker's hand and seat.
#[derive(Drop)]
pub struct Worker<L1: PostLedger, L2: Ledger> {
    pub hand: Hand<u64>,
    pub seat: Seat<L1, L2>,
}

/// The memory of a lock, the lock, the places of its sessions, and two workers.
#[derive(Drop)]
pub struct Hall<L1: PostLedger, L2: Ledger, A: Allocator> {
    pub alloc: A,
    pub shared: Shared<L1, L2, A>,
    pub rack: Rack<L1, L2, A>,
    pub workers: (Worker<L1, L2>, Worker<L1, L2>),
}

/// What is done in a hall by one thread.
pub trait Visit<A: Allocator> {
    /// What is seen there.
    type Seen: Drop;

    /// What is seen. None where memory ran out.
    fn visit<L1: PostLedger, L2: Ledger, R: Wait>(
        &self,
        rt: &R,
        hall: &mut Hall<L1, L2, A>,
    ) -> Option<Self::Seen>;
}

/// Makes these. None where memory ran out.
pub fn hall_of<L1: PostLedger, L2: Ledger, A: Allocator + Copy>(
    alloc: A,
    pool: Global,
    blanks: Blanks<A>,
) -> Option<Hall<L1, L2, A>>
    requires named { AreNamed blanks L1.name L1.parts L2.name L2.parts L1.history }
    requires none { L1.loaded ≡ false }
{
    let (Ok((shared, seats)), Ok((mut hands, inlets))) = (
        Shared::empty(alloc, blanks),
        make(pool, 2, 16, 16),
    ) else {
        return None;
    };
    let Seats {
        mut workers,
        sessions,
    } = seats;
    match (
        Rack::new(alloc, sessions, inlets),
        hands.pop(),
        hands.pop(),
        workers.pop(),
        workers.pop(),
    ) {
        (Ok(rack), Some(hand), Some(other_hand), Some(seat), Some(other_seat)) => Some(Hall {
            alloc,
            shared,
            rack,
            workers: (
                Worker { hand, seat },
                Worker {
                    hand: other_hand,
                    seat: other_seat,
                },
            ),
        }),
        _ => None,
    }
}

/// Visits a new hall.
fn visit_hall<L1: PostLedger, L2: Ledger, A: Allocator + Copy, R: Wait, V: Visit<A>>(
    rt: &R,
    alloc: A,
    pool: Global,
    visit: &V,
    blanks: Blanks<A>,
) -> Option<V::Seen>
    requires named { AreNamed blanks L1.name L1.parts L2.name L2.parts L1.history }
    requires none { L1.loaded ≡ false }
{
    let mut hall = hall_of::<L1, L2, A>(alloc, pool, blanks)?;
    visit.visit(rt, &mut hall)
}

/// The same with seats of its own.
pub fn visited<A: Allocator + Copy, R: Wait, V: Visit<A>>(
    rt: &R,
    alloc: A,
    pool: Global,
    visit: &V,
) -> Option<V::Seen> {
    visit_hall::<Brand, Brand, A, R, V>(rt, alloc, pool, visit, Blanks::new())
}

/// Has a worker work.
pub fn work_until<L1: PostLedger, L2: Ledger, A: Allocator + Copy, R: Wait>(
    rt: &R,
    shared: &Shared<L1, L2, A>,
    worker: &mut Worker<L1, L2>,
    stop: Stop,
) {
    let Worker { hand, seat } = worker;
    work(rt, shared, hand, seat, &Open, stop);
}
