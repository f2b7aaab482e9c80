//! Long replies, whose texts are made while the lock is free.
ghost use Rattle.std.specs.Prelude.{◌≡◌, false};
ghost use Rattle.chr_seats.specs.Accounts.{AreNamed};

use crate::tests::hall::{Hall, Worker, hall_of, work_until};
use chr_crew::{Place, Stop};
use chr_seats::{Blanks, PostLedger};
use chr_session::{Command, Desk, Reply};
use chr_shared::Shared;
use chr_shared_desk::SharedDesk;
use refusing::Refusing;
use std::alloc::{AllocError, Allocator, Global};
use std::marker::Brand;
use std::sync::Wait;
use std::sync::atomic::{AtomicU64, Ordering};
use std::sync::ledger::Ledger;
use std::test::*;
use std::thread;
use std::thread::Threads;

type Memory<'m> = &'m Refusing<Global>;

/// How many constraints the store has.
const CONSTRAINTS: u64 = 2000;

/// How often a reply is asked for at most.
const MANY: u64 = 100_000;

/// How often another thread looks.
const LOOKS: u64 = 10_000_000;

/// A reply that is long.
#[derive(Clone, Copy, Debug)]
enum Reads {
    Log,
    Store,
}

/// Whether a desk gives a long reply.
fn is_read<A: Allocator, D: Desk<A>>(desk: &mut D, reads: Reads) -> bool {
    match reads {
        Reads::Log => matches!(desk.ask(Command::Log(1)), Reply::Log(6000, _)),
        Reads::Store => matches!(desk.ask(Command::Store), Reply::Store(2000, _)),
    }
}

/// The post of `n(0)`, `n(1)` and so on.
fn numbers(alloc: Global) -> Result<String<Global>, AllocError> {
    let mut text = String::new(alloc);
    text.push_str("n(0)")?;
    for k in 1..CONSTRAINTS {
        text.push_str(format!(in alloc; ",n({k})")?.as_str())?;
    }
    text.push_str(".")?;
    Ok(text)
}

/// Asks for a reply again and again until another thread has seen enough. Whether it came each time.
fn read_until<A: Allocator, D: Desk<A>>(
    desk: &mut D,
    reads: Reads,
    seen: &AtomicU64,
    ended: &AtomicU64,
) -> bool {
    let mut right = true;
    for _ in 0..MANY {
        if !right || seen.load(Ordering::SeqCst) != 0 {
            break;
        }
        right = is_read(desk, reads);
    }
    ended.fetch_add(1, Ordering::SeqCst);
    right
}

/// What counts requests for memory.
trait Requests {
    /// How many came.
    fn count(&self) -> u64;
}

impl Requests for Refusing<Global> {
    fn count(&self) -> u64 {
        self.requests()
    }
}

/// Replies that follow one another, of which each makes as many requests for memory.
#[derive(Clone, Copy, Debug)]
struct Span {
    /// How many came before.
    before: u64,
    each: u64,
}

/// How many requests a reply makes, and how many came before the next one. None where it isn't the expected one.
fn span_of<A: Allocator, D: Desk<A>, N: Requests>(
    desk: &mut D,
    requests: &N,
    reads: Reads,
) -> Option<Span> {
    let begin = requests.count();
    let right = is_read(desk, reads);
    let before = requests.count();
    let each = before.wrapping_sub(begin);
    (right && each != 0).then_some(Span { before, each })
}

/// Whether this thread gets the lock between two requests of one reply. Where replies are made under the lock it never does.
fn gets_between<L1: PostLedger, L2: Ledger, A: Allocator + Copy, N: Requests, R: Wait>(
    rt: &R,
    shared: &Shared<L1, L2, A>,
    requests: &N,
    span: Span,
    seen: &AtomicU64,
    ended: &AtomicU64,
) -> bool {
    for _ in 0..LOOKS {
        let before = requests.count().wrapping_sub(span.before);
        let _ = shared.resting(rt);
        let after = requests.count().wrapping_sub(span.before);
        let is_within = before.checked_rem(span.each) != Some(0);
        if is_within && before.checked_div(span.each) == after.checked_div(span.each) {
            seen.fetch_add(1, Ordering::SeqCst);
            return true;
        }
        if ended.load(Ordering::SeqCst) != 0 {
            return false;
        }
        thread::yield_now();
    }
    false
}

/// Whether a store and a log are filled.
fn is_filled<L1: PostLedger, L2: Ledger, A: Allocator + Copy, D: Desk<A>, R: Wait>(
    rt: &R,
    pool: Global,
    shared: &Shared<L1, L2, A>,
    desk: &mut D,
    worker: &mut Worker<L1, L2>,
) -> bool {
    let Ok(text) = numbers(pool) else {
        return false;
    };
    let posted = matches!(desk.ask(Command::Load(b"")), Reply::Loaded(0))
        && matches!(
            desk.ask(Command::Post(text.as_bytes())),
            Reply::Posted(1, 2000)
        );
    work_until(rt, shared, worker, Stop::Turns(MANY));
    posted
}

/// Fills a store and a log at a place of the rack, and reads a long reply once.
fn fill<L1: PostLedger, L2: Ledger, A: Allocator + Copy, N: Requests, R: Wait>(
    rt: &R,
    pool: Global,
    hall: &mut Hall<L1, L2, A>,
    requests: &N,
    reads: Reads,
) -> Option<Span> {
    let Place { seat, inlet } = hall.rack.take(rt).ok()?;
    let mut desk = SharedDesk::new(rt, hall.alloc, &hall.shared, seat, inlet);
    let filled = is_filled(rt, pool, &hall.shared, &mut desk, &mut hall.workers.0);
    let span = span_of(&mut desk, requests, reads);
    if filled { span } else { None }
}

/// Asks for a long reply at a place of the rack.
fn read_at<L1: PostLedger, L2: Ledger, A: Allocator + Copy, R: Wait>(
    rt: &R,
    hall: &Hall<L1, L2, A>,
    reads: Reads,
    seen: &AtomicU64,
    ended: &AtomicU64,
) -> bool {
    let Ok(Place { seat, inlet }) = hall.rack.take(rt) else {
        return false;
    };
    let mut desk = SharedDesk::new(rt, hall.alloc, &hall.shared, seat, inlet);
    read_until(&mut desk, reads, seen, ended)
}

/// Whether another thread gets the lock while a long reply is made.
fn gets_beside<
    L1: PostLedger + Send + Sync,
    L2: Ledger + Send + Sync,
    A: Allocator + Copy + Send + Sync,
    N: Requests + Sync,
    R: Threads + Wait + Sync,
>(rt: &R, hall: &Hall<L1, L2, A>, requests: &N, span: Span, reads: Reads) -> bool {
    let shared = &hall.shared;
    let (seen, ended) = (AtomicU64::new(0), AtomicU64::new(0));
    let (between, right) = thread::join(
        rt,
        || gets_between(rt, shared, requests, span, &seen, &ended),
        || read_at(rt, hall, reads, &seen, &ended),
    );
    between && right
}

/// The same in a new hall, whose store and log are filled first. None where memory ran out before.
fn read_beside<
    L1: PostLedger + Send + Sync,
    L2: Ledger + Send + Sync,
    A: Allocator + Copy + Send + Sync,
    N: Requests + Sync,
    R: Threads + Wait + Sync,
>(rt: &R, alloc: A, pool: Global, blanks: Blanks<A>, requests: &N, reads: Reads) -> Option<bool>
    requires named { AreNamed blanks L1.name L1.parts L2.name L2.parts L1.history }
    requires none { L1.loaded ≡ false }
{
    let mut hall = hall_of::<L1, L2, A>(alloc, pool, blanks)?;
    let span = fill(rt, pool, &mut hall, requests, reads)?;
    Some(gets_beside(rt, &hall, requests, span, reads))
}

/// The same on seats of its own.
fn is_made_outside<R: Threads + Wait + Sync>(
    rt: &R,
    memory: Memory,
    pool: Global,
    reads: Reads,
) -> Option<bool> {
    let blanks = Blanks::new();
    read_beside::<Brand, Brand, Memory, Refusing<Global>, R>(
        rt, memory, pool, blanks, memory, reads,
    )
}

#[test]
fn long_replies_are_made_outside_the_lock(rt: HostRuntime) {
    for reads in [Reads::Log, Reads::Store] {
        let memory = Refusing::new(rt.alloc(), 0);
        let outside = is_made_outside(&rt, &memory, rt.alloc(), reads);
        assert_eq!(rt; outside, Some(true), "{reads:?}");
    }
}
