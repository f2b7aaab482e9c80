//! Runs of a crew on a book.
ghost use Rattle.std.specs.Prelude.{◌≡◌, ◌≢◌, ◌↔◌, ◌≤◌, ◌<◌, ◌+◌, ◌++◌, [], ℕ, List, map, length, get_or, sum_by, vec_len, vec_capacity, true, Some, IfOk, IfErr, IsTrue, OnOk, IsPermutation};
ghost use Rattle.std.specs.List.{flat_map};
ghost use Rattle.chr_log.specs.Events.{Entry};
ghost use Rattle.chr_calls.specs.Tickets.{AreQuiet, IsNotHeld, state_of};
ghost use Rattle.chr_calls.specs.Books.{BookState};
ghost use Rattle.chr_pool.specs.Hands.{hand_id, hand_pushed};
ghost use Rattle.chr_pool.specs.Inlets.{inlet_id, inlet_pushed};
ghost use Rattle.chr_pool.specs.Pools.{OfOneMake, pool_pushed};
ghost use Rattle.chr_seats.specs.Accounts.{AreNamed, log_of, counts_in, made_upto, AreSeats};
ghost use Rattle.chr_seats.specs.Holds.{HasHeadline};
ghost use Rattle.chr_crew.specs.Pools.{AreFree, HaveRoom, HavePushed, IsTallyOf, IsTallied};
ghost use Rattle.chr_crew.specs.Runs.{IsKeptOf, IsWorkedOn, NoneHeld};
ghost use Rattle.chr_crew.specs.declared.crew.End.TheVariants.{Quiet};
ghost use Rattle.chr_crew.specs.declared.crew.Cause.TheVariants.{NoMemory};

use crate::before::Before;
use crate::gate::{Gate, Stop};
use crate::worker::{Worker, join_all, part_all, work_all};
use chr_book::Book;
use chr_calls::TicketState;
use chr_pool::{Hand, Inlet, Tally, gather, make};
use chr_seats::{Blanks, Counts, Kept, PostLedger, Seats, WORKER_SEATS};
use chr_shared::Shared;
use std::alloc::{AllocError, Allocator, Global};
use std::sync::Wait;
use std::sync::ledger::Ledger;
use std::thread::Threads;

/// How many tickets each hand takes at least before it takes memory.
const LEAST_CAPACITY: u64 = 64;

/// For how many tickets a hand has room at most before it takes memory.
const MOST_CAPACITY: u64 = (1 << 32) - 1;

/// How a run ended.
#[derive(Clone, Copy, Debug, PartialEq, Eq)]
pub enum End {
    /// No ticket is open.
    Quiet,
    /// A ticket is open.
    Stopped,
}

/// What a run leaves.
#[derive(Drop)]
pub struct Finished<A: Allocator> {
    /// The book. No worker holds a ticket of it.
    pub book: Book<A>,
    /// What the pool counted, and the tickets left in it.
    pub tally: Tally<u64>,
    /// What the workers' seats have made, in order.
    pub counts: Vec<Counts, A>,
    /// Whether it is quiet.
    pub end: End,
}

/// Why a run was given up.
#[derive(Clone, Copy, Debug, PartialEq, Eq)]
pub enum Cause {
    /// E01: a growth was refused.
    NoMemory,
    /// E26: a seat's counts aren't those under the lock, or the book doesn't go on from the one handed in, or has other names or
    /// another limit.
    WrongSeat,
}

/// A run that was given up.
#[derive(Drop)]
pub struct CrewFault<A: Allocator> {
    /// Why.
    pub cause: Cause,
    /// The book as it came, or as the workers left it.
    pub book: Book<A>,
}

/// All that a run takes of memory before its workers start, besides the seats.
#[derive(Drop)]
struct Room<L1: PostLedger, L2: Ledger, A: Allocator> {
    before: Before<A>,
    /// Those that wait or rest.
    tickets: Vec<u64, A>,
    hands: Vec<Hand<u64>>,
    inlets: Vec<Inlet<u64>>,
    /// None yet, and room for sixteen.
    workers: Vec<Worker<L1, L2>, A>,
    /// None yet, and room for those of sixteen.
    counts: Vec<Counts, A>,
}

/// Lists the tickets of a book that wait or rest. An `Err` is E01, also where there are tickets of all numbers.
fn free_tickets<A: Allocator + Copy>(alloc: A, book: &Book<A>) -> Result<Vec<u64, A>, AllocError>
    ensures { IfOk result (λ free. AreFree book.now.tickets free.items) }
{
    let mut free = Vec::new(alloc);
    for ticket in 1..u64::MAX {
        match book.state(ticket) {
            TicketState::Unknown => return Ok(free),
            TicketState::Waiting | TicketState::Resting => free.push(ticket)?,
            TicketState::Held(_) => {}
            TicketState::Ended => {}
        }
    }
    Err(AllocError)
}

/// Makes a pool of `n` hands and one inlet, in which nothing was pushed yet, with room for so many tickets, dealt in turn. An `Err`
/// is E01, also where a hand is dealt more than [`MOST_CAPACITY`].
fn make_pool(
    pool: Global,
    n: usize,
    tickets: usize,
) -> Result<(Vec<Hand<u64>>, Vec<Inlet<u64>>), AllocError>
    requires { (1 ≤ n) × (n ≤ 16) }
    ensures one { IfOk result (λ r. OfOneMake (map hand_id r.0.items) (map inlet_id r.1.items)) }
    ensures count { IfOk result (λ r. length r.0.items ≡ n) }
    ensures empty { IfOk result (λ r. pool_pushed r.0.items r.1.items ≡ []) }
    ensures room { IfOk result (λ r. HaveRoom tickets r.0.items) }
{
    let before = (tickets / n) as u64;
    if before >= MOST_CAPACITY {
        return Err(AllocError);
    }
    make(pool, n, 1, LEAST_CAPACITY.max(before + 1))
}

/// Makes room for a run of `n` workers. An `Err` is E01.
fn make_room<L1: PostLedger, L2: Ledger, A: Allocator + Copy>(
    alloc: A,
    pool: Global,
    book: &Book<A>,
    n: usize,
) -> Result<Room<L1, L2, A>, AllocError>
    requires { (1 ≤ n) × (n ≤ 16) }
    ensures before { IfOk result (λ r. IsKeptOf book.now r.before) }
    ensures free { IfOk result (λ r. AreFree book.now.tickets r.tickets.items) }
    ensures pool { IfOk result (λ r. OfOneMake (map hand_id r.hands.items) (map inlet_id r.inlets.items)) }
    ensures hands { IfOk result (λ r. length r.hands.items ≡ n) }
    ensures empty { IfOk result (λ r. (flat_map hand_pushed r.hands.items ≡ []) × (flat_map inlet_pushed r.inlets.items ≡ [])) }
    ensures room { IfOk result (λ r. HaveRoom (length r.tickets.items) r.hands.items) }
    ensures workers { IfOk result (λ r. (vec_len r.workers ≡ 0) × (16 ≤ vec_capacity r.workers)) }
    ensures counts { IfOk result (λ r. (vec_len r.counts ≡ 0) × (16 ≤ vec_capacity r.counts)) }
{
    let workers = Vec::with_capacity(alloc, WORKER_SEATS)?;
    let counts = Vec::with_capacity(alloc, WORKER_SEATS)?;
    let before = Before::of(alloc, book)?;
    let tickets = free_tickets(alloc, book)?;
    let (hands, inlets) = make_pool(pool, n, tickets.len())?;
    Ok(Room {
        before,
        tickets,
        hands,
        inlets,
        workers,
        counts,
    })
}

/// Pushes tickets on the hands in turn, on which nothing was pushed yet. Each hand has room for its part of them.
fn deal(hands: &mut Vec<Hand<u64>>, tickets: &[u64])
    requires some { 0 < length hands.old.items }
    requires empty { flat_map hand_pushed hands.old.items ≡ [] }
    requires room { HaveRoom (length tickets.now) hands.old.items }
    ensures same { map hand_id hands.new.items ≡ map hand_id hands.old.items }
    ensures count { length hands.new.items ≡ length hands.old.items }
    ensures dealt { IsPermutation tickets.now (flat_map hand_pushed hands.new.items) }
{
    for k in 0..tickets.len() {
        let hand = k % hands.len();
        if hands[hand].push(tickets[k]).is_err() {
            unreachable!();
        }
    }
}

/// Adds the counts of the workers' seats, which have the numbers from 1 on, to an empty list. Whether they are those under
/// the lock.
fn count<L1: PostLedger, L2: Ledger, A: Allocator + Copy>(
    kept: &Kept<L1, L2, A>,
    workers: &[Worker<L1, L2>],
    counts: &mut Vec<Counts, A>,
) -> bool
    requires empty { vec_len counts.old ≡ 0 }
    requires room { length workers.now ≤ vec_capacity counts.old }
    requires numbers { (k : ℕ) (d : _) → k < length workers.now → (get_or workers.now k d).seat.number ≡ k + 1 }
    ensures all { IsTrue result → vec_len counts.new ≡ length workers.now }
    ensures each { IsTrue result → (k : ℕ) (d : _) → k < length workers.now → get_or counts.new.items k d ≡ counts_in (log_of kept.now) (k + 1) }
{
    for k in 0..workers.len() {
        let seat = &workers[k].seat;
        if !kept.knows(seat) {
            return false;
        }
        counts.push_reserved(seat.counts());
    }
    true
}

/// Takes the book from under the lock, and the hands from workers that have worked. All 32 seats are audited before they are
/// let go.
fn let_go<L1: PostLedger, L2: Ledger, A: Allocator + Copy>(
    kept: Kept<L1, L2, A>,
    seats: Seats<L1, L2, A>,
    workers: &mut Vec<Worker<L1, L2>, A>,
    hands: &mut Vec<Hand<u64>>,
) -> Book<A>
    requires there { L1.loaded ≡ true }
    requires parts { (L1.parts ≡ 32) × (L2.parts ≡ 32) }
    requires all { (vec_len seats.workers + vec_len workers.old ≡ 16) × (vec_len seats.sessions ≡ 16) }
    requires back { 16 ≤ vec_capacity seats.workers }
    requires empty { vec_len hands.old ≡ 0 }
    requires room { vec_len workers.old ≤ vec_capacity hands.old }
    requires worked { (k : ℕ) (d : _) → k < length workers.old.items → IsTrue (get_or workers.old.items k d).has_worked }
    ensures book { kept ≡ Some result }
    ensures hands { hands.new.items ≡ map (λ w. w.hand) workers.old.items }
    ensures posts { sum_by (λ s. s.counts.posts) (seats.workers.items ++ map (λ w. w.seat) workers.old.items) + sum_by (λ s. s.counts.posts) seats.sessions.items ≡ (made_upto 32 result.log).posts }
    ensures others { sum_by (λ s. s.counts.others) (seats.workers.items ++ map (λ w. w.seat) workers.old.items) + sum_by (λ s. s.counts.others) seats.sessions.items ≡ (made_upto 32 result.log).others }
{
    let mut kept = kept;
    let mut seats = seats;
    part_all(workers, &mut seats.workers, hands);
    kept.audit(seats.workers, seats.sessions);
    let Some(book) = kept.into_book() else {
        unreachable!();
    };
    book
}

/// Deals the tickets, has the workers work by the first of the seats, and lets them go. Returns the book, and whether the
/// counts of the workers' seats are those under the lock.
fn work_together<
    L1: PostLedger + Send + Sync,
    L2: Ledger + Send + Sync,
    A: Allocator + Copy + Send + Sync,
    R: Threads + Wait + Sync,
    G: Gate + Sync,
>(
    rt: &R,
    shared: Shared<L1, L2, A>,
    seats: Seats<L1, L2, A>,
    room: &mut Room<L1, L2, A>,
    gate: &G,
    turns: u64,
) -> (Book<A>, bool)
    requires there { L1.loaded ≡ true }
    requires parts { (L1.parts ≡ 32) × (L2.parts ≡ 32) }
    requires some { (0 < length room.old.hands.items) × (length room.old.hands.items ≤ 16) }
    requires empty { (vec_len room.old.workers ≡ 0) × (vec_len room.old.counts ≡ 0) }
    requires room { (16 ≤ vec_capacity room.old.workers) × (16 ≤ vec_capacity room.old.counts) }
    requires workers { (log : List (Entry ℕ)) × AreSeats log 0 seats.workers.items }
    requires sessions { vec_len seats.sessions ≡ 16 }
    requires empty_pool { flat_map hand_pushed room.old.hands.items ≡ [] }
    requires room_for_all { HaveRoom (length room.old.tickets.items) room.old.hands.items }
    ensures all { IsTrue result.1 → vec_len room.new.counts ≡ length room.old.hands.items }
    ensures each { IsTrue result.1 → (k : ℕ) (d : _) → k < length room.old.hands.items → get_or room.new.counts.items k d ≡ counts_in result.0.log (k + 1) }
    ensures hands { map hand_id room.new.hands.items ≡ map hand_id room.old.hands.items }
    ensures pushed { HavePushed room.old.tickets.items room.new.hands.items }
    ensures same { (room.new.before ≡ room.old.before) × (room.new.inlets ≡ room.old.inlets) }
{
    let mut seats = seats;
    deal(&mut room.hands, &room.tickets);
    join_all(&mut room.hands, &mut seats.workers, &mut room.workers);
    work_all(rt, &shared, &mut room.workers, gate, Stop::Turns(turns));
    let kept = shared.into_kept();
    let right = count(&kept, &room.workers, &mut room.counts);
    let book = let_go(kept, seats, &mut room.workers, &mut room.hands);
    (book, right)
}

/// How a run ended that left this book.
fn end_of<A: Allocator + Copy>(book: &Book<A>) -> End
    ensures end { (result ≡ Quiet) ↔ AreQuiet book.now.tickets }
    ensures headline { HasHeadline book.now }
{
    if book.quiet() {
        End::Quiet
    } else {
        End::Stopped
    }
}

/// Takes a ticket from a seat from 1 to `workers` that holds it. It is marked stray then.
fn put_down_ticket<A: Allocator + Copy>(book: &mut Book<A>, ticket: u64, workers: u32)
    ensures none { (seat : ℕ) → 1 ≤ seat → seat ≤ workers → IsNotHeld book.new.tickets seat ticket }
    ensures others { (t : ℕ) → t ≢ ticket → state_of book.new.tickets t ≡ state_of book.old.tickets t }
    ensures count { length book.new.tickets ≡ length book.old.tickets }
    ensures log { book.new.log ≡ book.old.log }
{
    let TicketState::Held(seat) = book.state(ticket) else {
        return;
    };
    if seat == 0 || workers < seat {
        return;
    }
    let _ = book.put_down(seat, ticket);
}

/// Takes all tickets from the seats from 1 to `workers`.
fn put_all_down<A: Allocator + Copy>(book: &mut Book<A>, workers: u32)
    ensures none { NoneHeld workers book.new.tickets }
    ensures log { book.new.log ≡ book.old.log }
{
    let quiet = book.quiet();
    if quiet {
        return;
    }
    for ticket in 1..book.next_ticket() {
        put_down_ticket(book, ticket, workers);
    }
}

/// Ends a run that has left the book, with the counts of its workers' seats. Takes all tickets from these first. E26 where the
/// counts aren't right, and where the book doesn't go on from the one before; then E01.
fn conclude<L1: PostLedger, L2: Ledger, A: Allocator + Copy, R: Wait>(
    rt: &R,
    pool: Global,
    n: usize,
    room: Room<L1, L2, A>,
    book: Book<A>,
    right: bool,
) -> Result<Finished<A>, CrewFault<A>>
    requires n { n ≤ 16 }
    requires pool { OfOneMake (map hand_id room.hands.items) (map inlet_id room.inlets.items) }
    ensures counts { IfOk result (λ f. (f.book.log ≡ book.log) × (f.counts ≡ room.counts)) }
    ensures right { OnOk result (IsTrue right) }
    ensures worked_on { (b : BookState) → IsKeptOf b room.before → IfOk result (λ f. IsWorkedOn n b f.book) }
    ensures none_held { IfOk result (λ f. NoneHeld n f.book.tickets) }
    ensures headline { IfOk result (λ f. HasHeadline f.book) }
    ensures end { IfOk result (λ f. (f.end ≡ Quiet) ↔ AreQuiet f.book.tickets) }
    ensures tally { IfOk result (λ f. f.tally.taken + vec_len f.tally.left ≡ f.tally.pushed) }
    ensures tallied { IfOk result (λ f. IsTallyOf (pool_pushed room.hands.items room.inlets.items) f.tally) }
    ensures memory { (b : BookState) → IsKeptOf b room.before → IfErr result (λ e. e.cause ≡ NoMemory → IsWorkedOn n b e.book) }
{
    let Room {
        before,
        tickets: _,
        hands,
        inlets,
        workers: _,
        counts,
    } = room;
    let mut book = book;
    put_all_down(&mut book, n as u32);
    let right = right && before.leads_to(&book, n as u32);
    let end = end_of(&book);
    let cause = if right {
        Cause::NoMemory
    } else {
        Cause::WrongSeat
    };
    match gather(rt, pool, hands, inlets) {
        Ok(tally) if right => Ok(Finished {
            book,
            tally,
            counts,
            end,
        }),
        _ => Err(CrewFault { cause, book }),
    }
}

/// Runs `n` workers on a book, by the seats 1 to `n`, until each has made `turns` calls on goals or no worker finds a
/// ticket to take. Each ticket that waits or rests is pushed on a hand first. A ticket that a worker holds at the end is taken
/// from it, and marked stray. The memory of the pool is of `pool`.
///
/// E01 comes where memory runs out before the workers start, with the book as it came, and at the end of the pool, with the
/// book as the workers left it. A worker that runs out of memory ends, and its ticket is marked stray. Where no thread can
/// be made for a worker, it works after another. E26 comes where a seat's counts aren't those under the lock, and where the
/// book doesn't go on from the one handed in, or has other names or another limit.
pub fn run_crew<
    L1: PostLedger + Send + Sync,
    L2: Ledger + Send + Sync,
    A: Allocator + Copy + Send + Sync,
    R: Threads + Wait + Sync,
    G: Gate + Sync,
>(
    rt: &R,
    alloc: A,
    pool: Global,
    book: Book<A>,
    n: usize,
    gate: &G,
    turns: u64,
    blanks: Blanks<A>,
) -> Result<Finished<A>, CrewFault<A>>
    requires n { (1 ≤ n) × (n ≤ 16) }
    requires there { L1.loaded ≡ true }
    requires named { AreNamed blanks L1.name L1.parts L2.name L2.parts L1.history }
    ensures worked_on { IfOk result (λ f. IsWorkedOn n book f.book) }
    ensures none_held { IfOk result (λ f. NoneHeld n f.book.tickets) }
    ensures headline { IfOk result (λ f. HasHeadline f.book) }
    ensures all { IfOk result (λ f. vec_len f.counts ≡ n) }
    ensures counts { IfOk result (λ f. (k : ℕ) (d : _) → k < n → get_or f.counts.items k d ≡ counts_in f.book.log (k + 1)) }
    ensures end { IfOk result (λ f. (f.end ≡ Quiet) ↔ AreQuiet f.book.tickets) }
    ensures tally { IfOk result (λ f. f.tally.taken + vec_len f.tally.left ≡ f.tally.pushed) }
    ensures tallied { IfOk result (λ f. IsTallied book.tickets f.tally) }
    ensures memory { IfErr result (λ e. e.cause ≡ NoMemory → IsWorkedOn n book e.book) }
{
    let cause = Cause::NoMemory;
    let Ok(mut room) = make_room::<L1, L2, A>(alloc, pool, &book, n) else {
        return Err(CrewFault { cause, book });
    };
    match Shared::with(alloc, book, blanks) {
        Ok((shared, seats)) => {
            let (book, right) = work_together(rt, shared, seats, &mut room, gate, turns);
            conclude(rt, pool, n, room, book, right)
        }
        Err(book) => Err(CrewFault { cause, book }),
    }
}
