//! The threads of a server.
ghost use Rattle.std.specs.Prelude.{◌≡◌, ◌≤◌, ◌<◌, ◌+◌, false, length, vec_len, vec_capacity, IfOk};
ghost use denote.Param.Send.{IsSend, IsSync, Frees};
ghost use Rattle.chr_seats.specs.Accounts.{AreNamed};

use crate::connections::Connections;
use crate::failure::Outlook;
use crate::listener::Listener;
use crate::members::{Member, Part, dismiss, muster};
use crate::ready::Ready;
use crate::refusal::refuse;
use crate::session::serve_stream;
use crate::unread::discard_unread;
use chr_crew::work::work;
use chr_crew::{Open, Stop};
use chr_pool::{Inlet, make};
use chr_seats::{Blanks, PostLedger, SEATS, SESSION_SEATS, Seat};
use chr_session::Rooms;
use chr_shared::Shared;
use std::alloc::{AllocError, Allocator, Global};
use std::marker::Brand;
use std::os::unix::net::UnixStream;
use std::rt::Clock;
use std::sync::Wait;
use std::sync::ledger::Ledger;
use std::thread::Threads;
use std::{io, thread};

/// How many tickets each hand takes before it takes memory.
const CAPACITY: u64 = 64;

/// Why a server ended before it had taken all its connections.
#[derive(Debug, Drop)]
pub enum ServerFault {
    /// E01: memory or a thread was refused before the server could serve.
    NoMemory,
    /// The listener failed for good, and no session lived.
    Listener(io::Error),
}

/// What a server starts with. It is no value that is let go: the lock is ended with its seats.
struct Parts<L1: PostLedger, L2: Ledger, A: Allocator> {
    shared: Shared<L1, L2, A>,
    members: Vec<Member<L1, L2, A>, A>,
    /// The workers' seats that no thread has.
    spare: Vec<Seat<L1, L2>, A>,
    /// Room for the seats of the members.
    room: Vec<Seat<L1, L2>, A>,
    connections: Connections<A>,
}

/// Takes the memory of sixteen sessions. An `Err` is E01.
fn make_memory<A: Allocator + Copy>(alloc: A) -> Result<Vec<Rooms<A>, A>, AllocError>
    ensures { IfOk result (λ memory. vec_len memory ≡ 16) }
{
    let mut memory = Vec::with_capacity(alloc, SESSION_SEATS)?;
    for _ in 0..SESSION_SEATS {
        memory.push_reserved(Rooms::new(alloc)?);
    }
    Ok(memory)
}

/// Makes the parts of a server with so many workers and sixteen sessions. An `Err` is E01.
fn make_parts<L1: PostLedger, L2: Ledger, A: Allocator + Copy>(
    alloc: A,
    pool: Global,
    workers: usize,
    blanks: Blanks<A>,
) -> Result<Parts<L1, L2, A>, AllocError>
    requires workers { (1 ≤ workers) × (workers ≤ 16) }
    requires named { AreNamed blanks L1.name L1.parts L2.name L2.parts L1.history }
    requires none { L1.loaded ≡ false }
    ensures all { IfOk result (λ p. vec_len p.members + vec_len p.spare ≡ 32) }
    ensures workers { IfOk result (λ p. vec_len p.members ≡ workers + 16) }
    ensures room { IfOk result (λ p. (vec_len p.room ≡ 0) × (vec_len p.members ≤ vec_capacity p.room)) }
{
    match (
        Connections::new(alloc),
        Vec::with_capacity(alloc, SEATS),
        Vec::with_capacity(alloc, SEATS),
        make(pool, workers, SESSION_SEATS, CAPACITY),
        make_memory(alloc),
        Shared::empty(alloc, blanks),
    ) {
        (
            Ok(connections),
            Ok(members),
            Ok(room),
            Ok((hands, inlets)),
            Ok(memory),
            Ok((shared, seats)),
        ) => {
            let mut spare = seats.workers;
            let members = muster(hands, inlets, memory, &mut spare, seats.sessions, members);
            Ok(Parts {
                shared,
                members,
                spare,
                room,
                connections,
            })
        }
        _ => Err(AllocError),
    }
}

/// What the thread of a session runs: it serves one connection after another until they are closed.
fn serve_connections<L1: PostLedger, L2: Ledger, A: Allocator + Copy, R: Wait>(
    rt: &R,
    alloc: A,
    shared: &Shared<L1, L2, A>,
    connections: &Connections<A>,
    seat: &mut Seat<L1, L2>,
    inlet: &mut Inlet<u64>,
    rooms: &mut Rooms<A>,
) {
    for _ in rt.forever() {
        let Some((key, stream)) = connections.next(rt) else {
            return;
        };
        serve_stream(rt, alloc, shared, seat, inlet, rooms, &stream);
        connections.leave(rt, key, stream);
    }
}

/// What the thread of a member runs.
fn run_by<L1: PostLedger, L2: Ledger, A: Allocator + Copy, R: Wait>(
    rt: &R,
    alloc: A,
    shared: &Shared<L1, L2, A>,
    connections: &Connections<A>,
    member: &mut Member<L1, L2, A>,
) {
    let Member { seat, part } = member;
    match part {
        Part::Work(hand) => {
            work(rt, shared, hand, seat, &Open, Stop::Closed);
        }
        Part::Serve(inlet, rooms) => {
            serve_connections(rt, alloc, shared, connections, seat, inlet, rooms);
        }
    }
}

/// Has a connection served, or tells it that there is no seat.
fn receive<A: Allocator, R: Wait>(rt: &R, connections: &Connections<A>, stream: UnixStream) {
    if let Err(stream) = connections.admit(rt, stream) {
        // Its client may be gone already.
        let _ = refuse(&mut &stream);
        discard_unread(&stream);
    }
}

/// Takes so many connections, or goes on without end. Where the listener fails for want of descriptors or memory, or in any
/// other way while a session lives, it calls it again once a session has ended, or after a tenth of a second.
fn take_all<A: Allocator, R: Wait + Clock, C: Listener>(
    rt: &R,
    connections: &Connections<A>,
    listener: &C,
    sessions: Option<u32>,
) -> Result<(), ServerFault> {
    let mut left = sessions;
    for _ in rt.forever() {
        if left == Some(0) {
            return Ok(());
        }
        match listener.next_connection() {
            Ok(stream) => {
                receive(rt, connections, stream);
                left = left.map(|left| left.saturating_sub(1));
            }
            Err(error) => match Outlook::after(&error) {
                Outlook::Passed => {}
                Outlook::Lasting if connections.is_empty(rt) => {
                    return Err(ServerFault::Listener(error));
                }
                Outlook::Shortage | Outlook::Lasting => connections.pause(rt),
            },
        }
    }
    unreachable!()
}

/// Whom to tell, and of how many workers, once all threads of a server are started.
#[derive(Drop)]
struct Notice<'r, T: Ready> {
    ready: &'r T,
    workers: usize,
    ghost expected: { workers ≡ T.expected ready.now },
}

impl<T: Ready> Notice<'_, T> {
    /// Tells it.
    fn give(&self) {
        self.ready.tell(self.workers);
    }
}

/// Starts the threads of the members, tells that it can serve, takes the connections, waits for the end of all sessions, and
/// closes the crew. Where a thread is refused, that is E01, and nothing is told.
fn with_threads<
    L1: PostLedger + Send + Sync,
    L2: Ledger + Send + Sync,
    A: Allocator + Copy + Send + Sync,
    R: Threads + Wait + Clock + Sync,
    C: Listener,
    T: Ready,
>(
    rt: &R,
    alloc: A,
    shared: &Shared<L1, L2, A>,
    connections: &Connections<A>,
    members: &mut [Member<L1, L2, A>],
    listener: &C,
    ready: &T,
    sessions: Option<u32>,
) -> Result<(), ServerFault>
    requires { length members.old ≡ T.expected ready.now + 16 }
    ensures { length members.new ≡ length members.old }
{
    let notice = Notice {
        ready,
        workers: members.len() - SESSION_SEATS,
    };
    let notice = &notice;
    thread::scope(
        thread::scope_env(),
        rt,
        move |scope| -> Result<(), ServerFault>
            requires { IsSync R.row × IsSend A.row × IsSync A.row × Frees A.Allocator A.dealloc_token × IsSend L1.row × IsSync L1.row × IsSend L2.row × IsSync L2.row }
        {
            let mut all_run = true;
            for member in members.iter_mut() {
                all_run &= scope
                    .spawn(move || run_by(rt, alloc, shared, connections, member))
                    .is_ok();
            }
            let taken = if all_run {
                notice.give();
                take_all(rt, connections, listener, sessions)
            } else {
                Err(ServerFault::NoMemory)
            };
            connections.close(rt);
            shared.close(rt);
            taken
        },
    )
}

/// The same as `serve_on`, with the ledgers of a book that isn't there yet. All 32 seats are audited before they are let go.
fn serve_by<
    L1: PostLedger + Send + Sync,
    L2: Ledger + Send + Sync,
    A: Allocator + Copy + Send + Sync,
    R: Threads + Wait + Clock + Sync,
    C: Listener,
    T: Ready,
>(
    rt: &R,
    alloc: A,
    pool: Global,
    listener: &C,
    ready: &T,
    workers: usize,
    sessions: Option<u32>,
    blanks: Blanks<A>,
) -> Result<(), ServerFault>
    requires workers { (1 ≤ workers) × (workers ≤ 16) }
    requires ready { workers ≡ T.expected ready.now }
    requires named { AreNamed blanks L1.name L1.parts L2.name L2.parts L1.history }
    requires none { L1.loaded ≡ false }
{
    match make_parts::<L1, L2, A>(alloc, pool, workers, blanks) {
        Ok(parts) => {
            let Parts {
                shared,
                mut members,
                spare,
                room,
                connections,
            } = parts;
            let ended = with_threads(
                rt,
                alloc,
                &shared,
                &connections,
                members.as_mut_slice(),
                listener,
                ready,
                sessions,
            );
            shared.audit(dismiss(members, room), spare);
            ended
        }
        Err(_) => Err(ServerFault::NoMemory),
    }
}

/// Serves sessions on one book, which isn't there until a session loads it. The calling thread takes the connections of
/// the listener; 1 to 16 `workers` and sixteen sessions have a thread each. Once all of these are started and the memory of
/// sixteen sessions is taken, `ready` is told so, with the number of workers that were started; then the first connection is
/// taken. A connection that finds no seat is told `fault E18 NoSeat`, and closed.
///
/// With `sessions` it takes so many connections, those without a seat among them, waits for the end of their sessions,
/// closes the crew and returns. With `None` it only returns on a fault.
///
/// A connection that was cut before it could be taken is passed over, and isn't counted. Where the listener fails for want
/// of descriptors or memory, it is called again once a session has ended, or after a tenth of a second, however long that
/// goes on. After any other failure it is called again so while a session lives; where none lives, that is its fault.
///
/// E01 comes only before `ready` is told: where memory or a thread is refused. The memory of the pool is of `pool`.
pub fn serve_on<
    A: Allocator + Copy + Send + Sync,
    R: Threads + Wait + Clock + Sync,
    C: Listener,
    T: Ready,
>(
    rt: &R,
    alloc: A,
    pool: Global,
    listener: &C,
    ready: &T,
    workers: usize,
    sessions: Option<u32>,
) -> Result<(), ServerFault>
    requires workers { (1 ≤ workers) × (workers ≤ 16) }
    requires ready { workers ≡ T.expected ready.now }
{
    serve_by::<Brand, Brand, A, R, C, T>(
        rt,
        alloc,
        pool,
        listener,
        ready,
        workers,
        sessions,
        Blanks::new(),
    )
}
