//! A worker.
ghost use Rattle.std.specs.Prelude.{◌≡◌};
ghost use Rattle.chr_pool.specs.Hands.{hand_id, hand_pushed};
ghost use Rattle.chr_crew.specs.Pools.{HasPushedOn};

use crate::gate::{Gate, Stop};
use crate::goal::{Left, tell, work_on_ticket};
use crate::record::{FirstLook, Record};
use chr_pool::Hand;
use chr_seats::{PostLedger, Seat};
use chr_shared::{Rest, Shared};
use std::alloc::Allocator;
use std::sync::Wait;
use std::sync::ledger::Ledger;

/// What a worker does next.
#[derive(Clone, Copy)]
enum Next {
    /// It looks for a ticket.
    Look,
    /// It ends, and the others look for what it leaves.
    Leave,
    /// It has ended.
    Ended,
}

/// A ticket of the pool, else the least stray one, or in another order where it is time to look elsewhere first.
fn find<L1: PostLedger, L2: Ledger, A: Allocator + Copy, R: Wait>(
    rt: &R,
    shared: &Shared<L1, L2, A>,
    hand: &mut Hand<u64>,
    first_look: FirstLook,
) -> Option<u64>
    ensures hand { hand_id hand.new ≡ hand_id hand.old }
    ensures pushed { hand_pushed hand.new ≡ hand_pushed hand.old }
{
    let first = match first_look {
        FirstLook::Own => None,
        FirstLook::Posted => hand.take_fed(rt),
        FirstLook::Stray => shared.take_stray(rt),
    };
    if first.is_some() {
        return first;
    }
    let taken = hand.take(rt);
    if taken.is_some() {
        return taken;
    }
    shared.take_stray(rt)
}

/// Sleeps where there was no ticket to take since the news was `seen`.
fn rest<L1: PostLedger, L2: Ledger, A: Allocator + Copy, R: Wait>(
    rt: &R,
    shared: &Shared<L1, L2, A>,
    stop: Stop,
    seen: u64,
) -> Next {
    let rested = match stop {
        Stop::Turns(_) => shared.rest_together(rt, seen),
        Stop::Closed => shared.rest(rt, seen),
    };
    match rested {
        Rest::News => Next::Look,
        Rest::Over => Next::Ended,
    }
}

/// Looks for a ticket and works on it, or sleeps where it finds none. Before it works on one that it looked elsewhere for, and
/// before it sleeps while it has others, it tells of those that it has left.
fn look_once<L1: PostLedger, L2: Ledger, A: Allocator + Copy, R: Wait, G: Gate>(
    rt: &R,
    shared: &Shared<L1, L2, A>,
    hand: &mut Hand<u64>,
    seat: &mut Seat<L1, L2>,
    gate: &G,
    stop: &mut Stop,
    record: &mut Record,
) -> Next
    ensures hand { hand_id hand.new ≡ hand_id hand.old }
    ensures pushed { HasPushedOn hand.old hand.new }
    ensures number { seat.new.number ≡ seat.old.number }
    ensures posts { seat.new.counts.posts ≡ seat.old.counts.posts }
{
    if stop.is_over(shared.is_closed()) {
        return Next::Leave;
    }
    // What was announced before this is found now, and what is announced later ends the rest.
    let seen = shared.news();
    let first_look = record.first_look();
    let Some(ticket) = find(rt, shared, hand, first_look) else {
        // All that it left is taken.
        record.tell_all();
        return rest(rt, shared, *stop, seen);
    };
    record.count_ticket();
    if first_look != FirstLook::Own {
        tell(rt, shared, record.tell_all());
    }
    let left = work_on_ticket(rt, shared, hand, seat, gate, stop, record, ticket);
    match (left, *stop) {
        (Left::Free, _) => Next::Look,
        // What it looked elsewhere for may want memory that its own tickets don't want.
        (Left::Want, _) if first_look != FirstLook::Own => Next::Look,
        // What came since may be the memory that it wants.
        (Left::Want, Stop::Closed) => {
            tell(rt, shared, record.tell_all());
            rest(rt, shared, *stop, seen)
        }
        _ => Next::Leave,
    }
}

/// Works by a seat: takes a ticket of the pool, or else a stray one, claims it, and goes through its trials until its goal
/// has ended; then it takes another. Trials are judged while the lock is free, the gate before each. The tickets of a
/// firing are pushed on the hand, and one that the hand refuses is marked stray. After each 32 tickets it looks first for the
/// first ticket of the pool's queue and for the least stray one, in turn, whatever the hand's own deque has.
///
/// A ticket that another seat has meanwhile, or that has ended, is left alone. Where memory (E01) or labels (E10) run out,
/// and where no turn is left or the crew is closed, the ticket is put down or marked stray. Whether the crew is closed is
/// looked at before each call. It ends as `stop` says, and on E26.
///
/// By its contract the seat's entries are no posts, and the hand is still of the same pool and has taken back nothing that it
/// had pushed.
pub fn work<L1: PostLedger, L2: Ledger, A: Allocator + Copy, R: Wait, G: Gate>(
    rt: &R,
    shared: &Shared<L1, L2, A>,
    hand: &mut Hand<u64>,
    seat: &mut Seat<L1, L2>,
    gate: &G,
    stop: Stop,
)
    ensures hand { hand_id hand.new ≡ hand_id hand.old }
    ensures pushed { HasPushedOn hand.old hand.new }
    ensures number { seat.new.number ≡ seat.old.number }
    ensures posts { seat.new.counts.posts ≡ seat.old.counts.posts }
{
    let mut stop = stop;
    let mut record = Record::new();
    shared.begin(rt);
    for _ in rt.forever() {
        match look_once(rt, shared, hand, seat, gate, &mut stop, &mut record) {
            Next::Look => {}
            Next::Leave => {
                shared.announce(rt);
                shared.end(rt);
                return;
            }
            Next::Ended => return,
        }
    }
}
