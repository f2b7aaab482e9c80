//! A session on a book under a lock, with workers beside it.
ghost use Rattle.std.specs.Prelude.{◌≡◌, ◌≤◌};
ghost use Rattle.chr_seats.specs.Accounts.{AreNamed};

use crate::tests::play::{
    Before, Looks, Play, Refuses, Signs, Step, becomes_quiet, comes, is_quiet, looks_twice, posts,
    stores, yields,
};
use crate::tests::runs::{MANY, open};
use chr_book::Book;
use chr_crew::work::work;
use chr_crew::{Gate, Place, Stop};
use chr_pool::{Hand, make};
use chr_seats::{Blanks, PostLedger, Seat, Seats};
use chr_session::Reply;
use chr_shared::Shared;
use chr_shared_desk::SharedDesk;
use std::alloc::{Allocator, Global};
use std::marker::Brand;
use std::sync::Wait;
use std::sync::atomic::Ordering;
use std::sync::ledger::Ledger;
use std::thread;
use std::thread::Threads;

/// A gate at which workers do what a play has them do before a judgement.
#[derive(Drop)]
struct Door<'a, L1: PostLedger, L2: Ledger, A: Allocator, R: Wait> {
    rt: &'a R,
    shared: &'a Shared<L1, L2, A>,
    signs: &'a Signs,
}

impl<L1: PostLedger, L2: Ledger, A: Allocator + Copy, R: Wait> Gate for Door<'_, L1, L2, A, R> {
    fn before_judging(&self, ticket: u64) {
        match self.signs.before {
            Before::Closes(one) if ticket == one => self.shared.close(self.rt),
            Before::WaitsForASleeper => {
                if self.signs.first.fetch_add(1, Ordering::SeqCst) == 0 {
                    let _ = come_to_rest(self.rt, self.shared, 1);
                }
            }
            _ => self.signs.before_judging(ticket),
        }
    }
}

/// Waits until so many workers sleep. False where it waited long and they didn't.
fn come_to_rest<L1: PostLedger, L2: Ledger, A: Allocator + Copy, R: Wait>(
    rt: &R,
    shared: &Shared<L1, L2, A>,
    count: u32,
) -> bool {
    for _ in 0..MANY {
        if shared.resting(rt) == count {
            return true;
        }
        thread::yield_now();
    }
    false
}

/// A worker's hand and seat.
#[derive(Drop)]
struct Worker<L1: PostLedger, L2: Ledger> {
    hand: Hand<u64>,
    seat: Seat<L1, L2>,
}

/// A session at its desk, and a worker.
#[derive(Drop)]
struct Seated<'a, L1: PostLedger, L2: Ledger, A: Allocator, R: Wait> {
    alloc: A,
    door: Door<'a, L1, L2, A, R>,
    desk: SharedDesk<'a, R, L1, L2, A>,
    worker: Worker<L1, L2>,
    /// How often something new was announced before the first step.
    news: u64,
}

impl<L1: PostLedger, L2: Ledger, A: Allocator + Copy + Refuses, R: Wait> Seated<'_, L1, L2, A, R> {
    /// Has the worker work.
    fn work(&mut self, stop: Stop) {
        let Worker { hand, seat } = &mut self.worker;
        work(self.door.rt, self.door.shared, hand, seat, &self.door, stop);
    }

    /// Whether a post is told this, once more where memory ran out. The worker works after each.
    fn posts_and_works(&mut self, text: &[u8], ticket: u64, count: usize) -> bool {
        let mut posted = false;
        for _ in 0..2u64 {
            posted = posted || posts(&mut self.desk, text, ticket, count);
            self.work(Stop::Turns(MANY));
        }
        posted
    }

    /// Whether a `wait` of so many looks finds a ticket open, and has looked at most so often.
    fn finds_open(&mut self, looks: u32, most: u64) -> bool {
        let signs = self.door.signs;
        let mut patience = Looks { signs };
        let open = matches!(self.desk.wait(looks, &mut patience), Reply::Open);
        open && signs.look() <= most
    }

    /// Does what nothing is found by.
    fn acts(&mut self, step: Step) {
        match step {
            Step::Tells => {
                self.door.signs.second.fetch_add(1, Ordering::SeqCst);
            }
            Step::Works(stop) => self.work(stop),
            Step::Announces => self.door.shared.announce(self.door.rt),
            Step::Refuses => self.alloc.refuse_next(),
            _ => yields(),
        }
    }

    /// Whether a step goes as it is to.
    fn is_done(&mut self, step: Step) -> bool {
        let (rt, shared, signs) = (self.door.rt, self.door.shared, self.door.signs);
        match step {
            Step::Sleep(count) => come_to_rest(rt, shared, count),
            Step::Judges => comes(&signs.first),
            Step::HaveMet => signs.have_met(),
            Step::Posts(text, ticket, count) => posts(&mut self.desk, text, ticket, count),
            Step::PostsAndWorks(text, ticket, count) => self.posts_and_works(text, ticket, count),
            Step::LooksTwice(times) => looks_twice(&mut self.desk, times),
            Step::Waits(looks) => is_quiet(&mut self.desk, looks),
            Step::BecomesQuiet => becomes_quiet(&mut self.desk),
            Step::Open(looks, most) => self.finds_open(looks, most),
            Step::News(times) => shared.news().wrapping_sub(self.news) == times,
            Step::Stray(ticket) => shared.take_stray(rt) == Some(ticket),
            Step::Stores(line) => stores(&mut self.desk, line),
            _ => {
                self.acts(step);
                true
            }
        }
    }

    /// Whether all steps go as they are to. At their end the crew is closed.
    fn is_right(&mut self, steps: &[Step]) -> bool {
        let mut right = true;
        for step in steps {
            right = right && self.is_done(*step);
        }
        self.door.shared.close(self.door.rt);
        right
    }
}

/// Has workers work at once, each in a thread of its own.
fn work_all<
    L1: PostLedger + Send + Sync,
    L2: Ledger + Send + Sync,
    A: Allocator + Copy + Send + Sync,
    R: Threads + Wait + Sync,
    G: Gate + Sync,
>(rt: &R, shared: &Shared<L1, L2, A>, workers: &mut [Worker<L1, L2>], gate: &G, stop: Stop) {
    thread::for_each_mut(
        rt,
        workers,
        16,
        &|_, worker| work(rt, shared, &mut worker.hand, &mut worker.seat, gate, stop),
    );
}

/// Workers beside a session, and the session's place and worker.
#[derive(Drop)]
struct Members<L1: PostLedger, L2: Ledger> {
    workers: Vec<Worker<L1, L2>>,
    place: Place<L1, L2>,
    worker: Worker<L1, L2>,
}

/// The last hand and the last seat. None where there is none.
fn worker_of<L1: PostLedger, L2: Ledger, A: Allocator>(
    hands: &mut Vec<Hand<u64>>,
    seats: &mut Vec<Seat<L1, L2>, A>,
) -> Option<Worker<L1, L2>> {
    match (hands.pop(), seats.pop()) {
        (Some(hand), Some(seat)) => Some(Worker { hand, seat }),
        _ => None,
    }
}

/// As many of these as are asked for. None where there aren't as many, or where memory ran out.
fn workers_of<L1: PostLedger, L2: Ledger, A: Allocator>(
    pool: Global,
    hands: &mut Vec<Hand<u64>>,
    seats: &mut Vec<Seat<L1, L2>, A>,
    count: usize,
) -> Option<Vec<Worker<L1, L2>>> {
    let mut workers = Vec::new(pool);
    for _ in 0..count {
        workers.push(worker_of(hands, seats)?).ok()?;
    }
    Some(workers)
}

/// Pushes the tickets from 1 on, as many as are asked for, on the first hand.
fn deal(hands: &mut [Hand<u64>], count: u64) -> bool {
    let Some(hand) = hands.first_mut() else {
        return false;
    };
    for k in 0..count {
        if hand.push(k.wrapping_add(1)).is_err() {
            return false;
        }
    }
    true
}

/// Members by some seats and a new pool that has so many tickets. None where memory ran out.
fn members_of<L1: PostLedger, L2: Ledger, A: Allocator>(
    pool: Global,
    seats: Seats<L1, L2, A>,
    count: usize,
    tickets: u64,
) -> Option<Members<L1, L2>>
    requires { count ≤ 15 }
{
    let (mut hands, mut inlets) = make(pool, count + 1, 1, 64).ok()?;
    let Seats {
        workers: mut seats,
        mut sessions,
    } = seats;
    match (
        deal(hands.as_mut_slice(), tickets),
        worker_of(&mut hands, &mut seats),
        workers_of(pool, &mut hands, &mut seats, count),
        sessions.pop(),
        inlets.pop(),
    ) {
        (true, Some(worker), Some(workers), Some(seat), Some(inlet)) => Some(Members {
            workers,
            place: Place { seat, inlet },
            worker,
        }),
        _ => None,
    }
}

/// Whether the steps of a session go as they are to while workers work.
fn is_right_beside<
    L1: PostLedger + Send + Sync,
    L2: Ledger + Send + Sync,
    A: Allocator + Copy + Refuses + Send + Sync,
    R: Threads + Wait + Sync,
    G: Gate + Sync,
>(
    rt: &R,
    shared: &Shared<L1, L2, A>,
    workers: &mut [Worker<L1, L2>],
    gate: &G,
    seated: &mut Seated<'_, L1, L2, A, R>,
    play: &Play,
) -> bool {
    let stop = play.stop;
    let (_, right) = thread::join(
        rt,
        || work_all(rt, shared, workers, gate, stop),
        || seated.is_right(play.steps),
    );
    right
}

/// The same of such members.
fn is_right_of<
    'a,
    L1: PostLedger + Send + Sync,
    L2: Ledger + Send + Sync,
    A: Allocator + Copy + Refuses + Send + Sync,
    R: Threads + Wait + Sync,
>(
    rt: &'a R,
    alloc: A,
    shared: &'a Shared<L1, L2, A>,
    signs: &'a Signs,
    members: Members<L1, L2>,
    play: &Play,
) -> bool {
    let Members {
        mut workers,
        place,
        worker,
    } = members;
    let door = Door { rt, shared, signs };
    let mut seated = Seated {
        alloc,
        door: Door { rt, shared, signs },
        desk: SharedDesk::new(rt, alloc, shared, place.seat, place.inlet),
        worker,
        news: shared.news(),
    };
    is_right_beside(rt, shared, workers.as_mut_slice(), &door, &mut seated, play)
}

/// The same on a book. None where memory ran out before.
fn is_right_by<
    L1: PostLedger + Send + Sync,
    L2: Ledger + Send + Sync,
    A: Allocator + Copy + Refuses + Send + Sync,
    R: Threads + Wait + Sync,
>(rt: &R, alloc: A, pool: Global, book: Book<A>, play: Play<'_>, blanks: Blanks<A>) -> Option<bool>
    requires workers { play.workers ≤ 15 }
    requires named { AreNamed blanks L1.name L1.parts L2.name L2.parts L1.history }
{
    let (shared, seats) = Shared::<L1, L2, A>::with(alloc, book, blanks).ok()?;
    let members = members_of(pool, seats, play.workers, play.tickets)?;
    let signs = Signs::new(play.before);
    Some(is_right_of(rt, alloc, &shared, &signs, members, &play))
}

/// Whether a play goes as it is to on a book. None where memory ran out before, and where a play has too many workers.
pub fn is_right_on<A: Allocator + Copy + Refuses + Send + Sync, R: Threads + Wait + Sync>(
    rt: &R,
    alloc: A,
    pool: Global,
    book: Book<A>,
    play: &Play,
) -> Option<bool> {
    if 15 < play.workers {
        return None;
    }
    let blanks = Blanks::new();
    is_right_by::<Brand, Brand, A, R>(rt, alloc, pool, book, *play, blanks)
}

/// The same on a book of its own task.
pub fn is_right<R: Threads + Wait + Sync>(rt: &R, alloc: Global, play: &Play) -> Option<bool> {
    let (program, posts) = play.task;
    is_right_on(rt, alloc, alloc, open(alloc, program, posts)?, play)
}
