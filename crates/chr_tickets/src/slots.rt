//! The slots of the tickets that may be open.
ghost use Rattle.std.specs.Prelude.{◌≡◌, ◌+◌, ◌%◌, ◌^◌, ◌<◌, ◌≤◌, ℕ, None, Some, length, drop, IsSome, OnOk, OnErr, IfOk, slice_index_or, vec_len, vec_capacity, ◌-◌};
ghost use Rattle.std.specs.Borrow.{sem};
ghost use Rattle.chr_tickets.specs.Lending.{lends_slot, lends_last, lends_open};
ghost use Rattle.chr_tickets.specs.Listed.{listed, StartsOpen, HasTicket};

use crate::ticket::Ticket;
use std::alloc::{AllocError, Allocator};

/// Slots of tickets by their numbers. The slot of a ticket that has ended is empty, or comes before that of the first open
/// one. There it may hold anything.
pub(crate) type Slots<A> = Vec<Option<Ticket<A>>, A>;

/// How many slots of ended tickets are let go at once, at least. To let few go at a time would cost more than it frees, since
/// the open tickets are moved each time.
const LEAST_GONE: usize = 32;

/// The place of a ticket among the slots, by the number of the first one. A ticket before that has a place beyond the last.
pub(crate) fn place_of(first: u64, ticket: u64) -> usize
    ensures { (first + result) % 2 ^ 64 ≡ ticket }
{
    ticket.wrapping_sub(first) as usize
}

/// The place of the first slot that is not empty, from the place `gone` on, or how many slots there are where all are empty.
#[inline(always)]
pub(crate) fn next_open<A: Allocator + Copy>(slots: &Slots<A>, mut gone: usize) -> usize
    requires { gone ≤ length slots.now.items }
    ensures listed { (first : ℕ) → listed (first + result) (drop result slots.now.items) ≡ listed (first + gone) (drop gone slots.now.items) }
    ensures within { (gone ≤ result) × (result ≤ length slots.now.items) }
    ensures open { StartsOpen (drop result slots.now.items) }
{
    while gone < slots.len() && slots[gone].is_none() {
        gone += 1;
    }
    gone
}

/// Lets the first slots go.
fn let_go<A: Allocator + Copy>(slots: &mut Slots<A>, gone: usize)
    requires { gone ≤ length slots.old.items }
    ensures slots { slots.new.items ≡ drop gone slots.old.items }
    ensures capacity { vec_capacity slots.new ≡ vec_capacity slots.old }
{
    let open = slots.len() - gone;
    for at in 0..open {
        slots.swap(at, gone + at);
    }
    slots.truncate(open);
}

/// Makes room for one slot more, and gives how many went: the first `gone` do where they are at least [`LEAST_GONE`] and at
/// least half of all, and else memory is taken. E01 where memory ran out; the slots have not changed then.
#[inline(never)]
pub(crate) fn make_room<A: Allocator + Copy>(
    slots: &mut Slots<A>,
    gone: usize,
) -> Result<usize, AllocError>
    requires { gone ≤ length slots.old.items }
    ensures room { OnOk result (vec_len slots.new < vec_capacity slots.new) }
    ensures ok { IfOk result (λ went. (went ≤ gone) × (slots.new.items ≡ drop went slots.old.items)) }
    ensures err { OnErr result (slots.new.items ≡ slots.old.items) }
{
    if gone >= LEAST_GONE && gone >= slots.len() - gone {
        let_go(slots, gone);
        return Ok(gone);
    }
    slots.reserve(1)?;
    Ok(0)
}

/// The ticket in a slot.
fn open_in<A: Allocator>(slot: &mut Option<Ticket<A>>) -> &mut Ticket<A>
    requires { IsSome slot.old }
    ensures* lends { sem 𝓛 (lends_slot A.row A.Allocator slot.entry result) }
    ensures value { slot.old ≡ Some result.now }
{
    match slot {
        Some(ticket) => ticket,
        None => unreachable!(),
    }
}

/// The ticket in the last slot.
pub(crate) fn open_last<A: Allocator>(slots: &mut Slots<A>) -> &mut Ticket<A>
    requires any { 0 < vec_len slots.old }
    requires some { IsSome (slice_index_or slots.old.items (vec_len slots.old - 1) None) }
    ensures* lends { sem 𝓛 (lends_last A.row A.Allocator slots.entry result) }
    ensures value { Some result.now ≡ slice_index_or slots.old.items (vec_len slots.old - 1) (Some result.now) }
{
    let last = slots.len() - 1;
    open_in(&mut slots[last])
}

/// The ticket of a number, by the number of the first slot.
pub(crate) fn open_at<A: Allocator>(slots: &mut Slots<A>, first: u64, ticket: u64) -> &mut Ticket<A>
    requires { HasTicket first slots.old.items ticket }
    ensures* lends { sem 𝓛 (lends_open A.row A.Allocator slots.entry first ticket result) }
    ensures value { Some result.now ≡ slice_index_or slots.old.items (ticket - first) (Some result.now) }
{
    open_in(&mut slots[place_of(first, ticket)])
}
