//! The desk, and the replies to each command.
ghost use Rattle.std.specs.Prelude.{◌≡◌, ◌+◌, ◌≤◌, ℕ, List, [], IfOk, IfErr};
ghost use Rattle.chr_pool.specs.Inlets.{inlet_id};
ghost use Rattle.chr_session.specs.Commands.{Refused, reply_of, command_of};
ghost use Rattle.chr_shared_desk.specs.SharedReplies.{HasRulesOf, LoadReplies, ReadFaults, PostReplies, WaitReplies, StoreReplies, LogReplies, SharedReplies, LooksSoOften, posted_by};

use crate::waiting::{Endless, Patience, wait};
use crate::watching::Watch;
use chr_book::Book;
use chr_lex::fault::ReadError;
use chr_pool::Inlet;
use chr_seats::{HoldFault, PostLedger, Seat};
use chr_session::{Command, Desk, Fault, Reply};
use chr_shared::Shared;
use chr_value::GREATEST_LABEL;
use std::alloc::Allocator;
use std::marker::Model;
use std::sync::Wait;
use std::sync::ledger::Ledger;

/// A book of the rules of a text, and how many these are. E02 to E09 with their line for a text that has a fault, and E01.
fn read_book<A: Allocator + Copy>(alloc: A, text: &[u8]) -> Result<(Book<A>, usize), Fault>
    ensures empty { IfOk result (λ r. r.0.log ≡ []) }
    ensures rules { IfOk result (λ r. HasRulesOf text.now r.0 r.1) }
    ensures fault { IfErr result (λ fault. ReadFaults text.now fault) }
{
    match Book::of_text(alloc, text, GREATEST_LABEL) {
        Ok(book) => {
            let count = book.program().len();
            Ok((book, count))
        }
        Err(ReadError::Memory) => Err(Fault::NoMemory),
        Err(ReadError::Fault(fault)) => Err(Fault::Reading(fault)),
    }
}

/// Brings a book of the rules of a text, which are so many. E26, and E20 where one is there already.
fn install<R: Wait, L1: PostLedger, L2: Ledger, A: Allocator + Copy>(
    rt: &R,
    shared: &Shared<L1, L2, A>,
    seat: &Seat<L1, L2>,
    book: Book<A>,
    count: usize,
) -> Reply<A>
    requires { book.log ≡ [] }
    ensures { (text : List ℕ) → HasRulesOf text book count → LoadReplies seat.now text (reply_of result) }
{
    match shared.install(rt, seat, book) {
        Ok(Ok(())) => Reply::Loaded(count),
        Ok(Err(_)) => Reply::Fault(Fault::AlreadyLoaded),
        Err(HoldFault::WrongSeat) => Reply::Fault(Fault::WrongSeat),
        Err(HoldFault::NoBook) => unreachable!(),
    }
}

/// Brings a book of the rules of a text. E02 to E09 with their line for a text that has a fault, and E01; then E26, and E20
/// where a book is there already.
#[tactic(auto, using(crate::proofs::Refusals::read_refused))]
fn bring<R: Wait, L1: PostLedger, L2: Ledger, A: Allocator + Copy>(
    rt: &R,
    alloc: A,
    shared: &Shared<L1, L2, A>,
    seat: &Seat<L1, L2>,
    text: &[u8],
) -> Reply<A>
    ensures { LoadReplies seat.now text.now (reply_of result) }
{
    match read_book(alloc, text) {
        Ok((book, count)) => install(rt, shared, seat, book, count),
        Err(fault) => Reply::Fault(fault),
    }
}

/// Brings a book of the rules of a text where none is there. E26; E20; then the faults of a text and E01.
fn load<R: Wait, L1: PostLedger, L2: Ledger, A: Allocator + Copy>(
    rt: &R,
    alloc: A,
    shared: &Shared<L1, L2, A>,
    seat: &Seat<L1, L2>,
    text: &[u8],
) -> Reply<A>
    ensures { LoadReplies seat.now text.now (reply_of result) }
{
    match shared.quiet(rt, seat) {
        Ok(_) => Reply::Fault(Fault::AlreadyLoaded),
        Err(HoldFault::WrongSeat) => Reply::Fault(Fault::WrongSeat),
        Err(HoldFault::NoBook) => bring(rt, alloc, shared, seat, text),
    }
}

/// Pushes so many tickets on the inlet, from `first` on. One that the inlet refuses is marked stray, so that a worker finds
/// it all the same. Then as many of the workers that rest are told.
fn hand_out<R: Wait, L1: PostLedger, L2: Ledger, A: Allocator + Copy>(
    rt: &R,
    shared: &Shared<L1, L2, A>,
    inlet: &mut Inlet<u64>,
    first: u64,
    count: usize,
)
    ensures { inlet_id inlet.new ≡ inlet_id inlet.old }
{
    for k in 0..count {
        if let Err(ticket) = inlet.push(rt, first.wrapping_add(k as u64)) {
            let _ = shared.mark_stray(rt, ticket);
        }
    }
    shared.announce_some(rt, count);
}

/// Posts the atoms of a text.
fn post<R: Wait, L1: PostLedger, L2: Ledger, A: Allocator + Copy>(
    rt: &R,
    shared: &Shared<L1, L2, A>,
    seat: &mut Seat<L1, L2>,
    inlet: &mut Inlet<u64>,
    text: &[u8],
) -> Reply<A>
    ensures replies { PostReplies seat.old text.now (reply_of result) seat.new }
    ensures number { seat.new.number ≡ seat.old.number }
    ensures posts { seat.new.counts.posts ≡ seat.old.counts.posts + posted_by (reply_of result) }
    ensures others { seat.new.counts.others ≡ seat.old.counts.others }
    ensures inlet { inlet_id inlet.new ≡ inlet_id inlet.old }
{
    match shared.post_text(rt, seat, text) {
        Ok(Ok(posted)) => {
            hand_out(rt, shared, inlet, posted.first, posted.count);
            Reply::Posted(posted.first, posted.count)
        }
        Ok(Err(ReadError::Memory)) => Reply::Fault(Fault::NoMemory),
        Ok(Err(ReadError::Fault(fault))) => Reply::Fault(Fault::Reading(fault)),
        Err(HoldFault::WrongSeat) => Reply::Fault(Fault::WrongSeat),
        Err(HoldFault::NoBook) => Reply::Fault(Fault::NoProgram),
    }
}

/// Waits until no ticket is open, and counts its looks in `looks`.
fn wait_counted<R: Wait, L1: PostLedger, L2: Ledger, A: Allocator + Copy, P: Patience>(
    rt: &R,
    shared: &Shared<L1, L2, A>,
    seat: &Seat<L1, L2>,
    most: u32,
    patience: &mut P,
    looks: &mut u64,
) -> Reply<A>
    ensures replies { WaitReplies seat.now (reply_of result) }
    ensures looks { looks.new ≤ most + 1 }
{
    let mut watch = Watch::new(rt, shared, seat);
    let reply = wait(&mut watch, most, patience);
    *looks = watch.looks();
    reply
}

/// The lines of the store.
fn store<R: Wait, L1: PostLedger, L2: Ledger, A: Allocator + Copy>(
    rt: &R,
    alloc: A,
    shared: &Shared<L1, L2, A>,
    seat: &Seat<L1, L2>,
) -> Reply<A>
    ensures { StoreReplies seat.now (reply_of result) }
{
    match shared.store_lines(rt, alloc, seat) {
        Ok(Ok(lines)) => Reply::Store(lines.count, lines.bytes),
        Ok(Err(_)) => Reply::Fault(Fault::NoMemory),
        Err(HoldFault::WrongSeat) => Reply::Fault(Fault::WrongSeat),
        Err(HoldFault::NoBook) => Reply::Fault(Fault::NoProgram),
    }
}

/// The lines of the log from an entry on, counted from 1.
fn log<R: Wait, L1: PostLedger, L2: Ledger, A: Allocator + Copy>(
    rt: &R,
    alloc: A,
    shared: &Shared<L1, L2, A>,
    seat: &Seat<L1, L2>,
    from: u32,
) -> Reply<A>
    ensures { LogReplies seat.now from (reply_of result) }
{
    match shared.log_lines(rt, alloc, seat, u64::from(from)) {
        Ok(Ok(lines)) => Reply::Log(lines.count, lines.bytes),
        Ok(Err(_)) => Reply::Fault(Fault::NoMemory),
        Err(HoldFault::WrongSeat) => Reply::Fault(Fault::WrongSeat),
        Err(HoldFault::NoBook) => Reply::Fault(Fault::NoProgram),
    }
}

/// Carries out a command by a seat and an inlet.
fn carry_out<R: Wait, L1: PostLedger, L2: Ledger, A: Allocator + Copy, P: Patience>(
    rt: &R,
    alloc: A,
    shared: &Shared<L1, L2, A>,
    seat: &mut Seat<L1, L2>,
    inlet: &mut Inlet<u64>,
    patience: &mut P,
    looks: &mut u64,
    command: Command<'_>,
) -> Reply<A>
    ensures replies { SharedReplies seat.old (command_of command.entry) (reply_of result) seat.new }
    ensures inlet { inlet_id inlet.new ≡ inlet_id inlet.old }
    ensures looks { LooksSoOften (command_of command.entry) looks.old looks.new }
{
    match command {
        Command::Load(text) => load(rt, alloc, shared, seat, text),
        Command::Post(text) => post(rt, shared, seat, inlet, text),
        Command::Wait(most) => wait_counted(rt, shared, seat, most, patience, looks),
        Command::Store => store(rt, alloc, shared, seat),
        Command::Log(from) => log(rt, alloc, shared, seat, from),
    }
}

/// A session's desk on a shared book. Contracts see its seat, which queue its inlet feeds, and how often its last `wait` looked
/// at the book.
#[derive(Drop)]
pub struct SharedDesk<'a, R: Wait, L1: PostLedger, L2: Ledger, A: Allocator> {
    rt: &'a R,
    alloc: A,
    shared: &'a Shared<L1, L2, A>,
    seat: Seat<L1, L2>,
    inlet: Inlet<u64>,
    looks: u64,
}

impl<'a, R: Wait, L1: PostLedger, L2: Ledger, A: Allocator> Model for SharedDesk<'a, R, L1, L2, A> {
    ghost use Rattle.std.specs.Prelude.{ℕ};
    ghost use Rattle.std.specs.declared.alloc.Global.{Global};
    ghost use Rattle.crossbeam_queue.specs.SegTies.{SegId};
    ghost use Rattle.chr_pool.specs.Inlets.{inlet_id};
    ghost use Rattle.chr_seats.specs.Accounts.{SeatState};

    ghost Value = { SeatState × (SegId Global × ℕ) × ℕ };

    ghost view = { λ d. (d.seat, inlet_id d.inlet, d.looks) };
}

impl<'a, R: Wait, L1: PostLedger, L2: Ledger, A: Allocator + Copy> SharedDesk<'a, R, L1, L2, A> {
    /// A desk on this book, by a session's seat and an inlet of the workers' pool.
    pub fn new(
        rt: &'a R,
        alloc: A,
        shared: &'a Shared<L1, L2, A>,
        seat: Seat<L1, L2>,
        inlet: Inlet<u64>,
    ) -> SharedDesk<'a, R, L1, L2, A>
        ensures { result ≡ (seat, inlet_id inlet, 0) }
    {
        SharedDesk {
            rt,
            alloc,
            shared,
            seat,
            inlet,
            looks: 0,
        }
    }

    /// Carries out `wait`, and asks after each look that finds a ticket open whether to go on; if not, the reply is that of
    /// the look. It looks at most `most + 1` times, each time in a hold of the lock. Between two looks it sleeps while a worker is
    /// awake, as [`Shared::watch`](chr_shared::Shared::watch) does.
    pub fn wait<P: Patience>(&mut self, most: u32, patience: &mut P) -> Reply<A>
        ensures replies { WaitReplies self.old.0 (reply_of result) }
        ensures looks { self.new.2 ≤ most + 1 }
        ensures same { (self.new.0 ≡ self.old.0) × (self.new.1 ≡ self.old.1) }
    {
        wait_counted(
            self.rt,
            self.shared,
            &self.seat,
            most,
            patience,
            &mut self.looks,
        )
    }

    /// Returns how often the last `wait` looked at the book, 0 before the first.
    pub fn looks(&self) -> u64
        ensures { result ≡ self.now.2 }
    {
        self.looks
    }

    /// Gives back the seat and the inlet.
    pub fn end(self) -> (Seat<L1, L2>, Inlet<u64>)
        ensures seat { result.0 ≡ self.entry.0 }
        ensures inlet { inlet_id result.1 ≡ self.entry.1 }
    {
        (self.seat, self.inlet)
    }
}

impl<'a, R: Wait, L1: PostLedger, L2: Ledger, A: Allocator + Copy> Desk<A>
    for SharedDesk<'a, R, L1, L2, A> {
    ghost step = { λ old command reply new. SharedReplies old.0 command reply new.0 × (new.1 ≡ old.1) × LooksSoOften command old.2 new.2 };

    fn ask(&mut self, command: Command<'_>) -> Reply<A> {
        carry_out(
            self.rt,
            self.alloc,
            self.shared,
            &mut self.seat,
            &mut self.inlet,
            &mut Endless,
            &mut self.looks,
            command,
        )
    }
}

/// A desk on a shared book by a seat and an inlet that are lent to it. A `wait` goes on while the patience does. Contracts
/// see what the seat is, and which queue the inlet feeds.
#[derive(Drop)]
pub struct LentDesk<'a, R: Wait, L1: PostLedger, L2: Ledger, A: Allocator, P: Patience + Drop> {
    pub rt: &'a R,
    pub alloc: A,
    pub shared: &'a Shared<L1, L2, A>,
    pub seat: &'a mut Seat<L1, L2>,
    pub inlet: &'a mut Inlet<u64>,
    pub patience: P,
    /// How often the last `wait` looked at the book.
    pub looks: u64,
}

impl<'a, R: Wait, L1: PostLedger, L2: Ledger, A: Allocator + Copy, P: Patience + Drop> Desk<A>
    for LentDesk<'a, R, L1, L2, A, P> {
    ghost step = { λ old command reply new. SharedReplies old.seat.now command reply new.seat.now × (inlet_id new.inlet.now ≡ inlet_id old.inlet.now) × LooksSoOften command old.looks new.looks };

    fn ask(&mut self, command: Command<'_>) -> Reply<A> {
        carry_out(
            self.rt,
            self.alloc,
            self.shared,
            self.seat,
            self.inlet,
            &mut self.patience,
            &mut self.looks,
            command,
        )
    }
}
