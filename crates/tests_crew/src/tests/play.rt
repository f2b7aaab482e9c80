//! What a session does beside workers, step by step, and what these do before they judge.
use crate::tests::runs::{MANY, Task};
use chr_crew::{Gate, Stop};
use chr_session::{Command, Desk, Reply};
use chr_shared_desk::Patience;
use refusing::Refusing;
use std::alloc::{Allocator, Global};
use std::sync::atomic::{AtomicU64, Ordering};
use std::thread;

/// What a worker does before a judgement.
#[derive(Clone, Copy)]
pub enum Before {
    Nothing,
    /// The first for this ticket, and the first for the next one, each wait until the other has come, or until the session
    /// tells them.
    Meets(u64),
    /// All are counted, and those for this ticket.
    Counts(u64),
    /// The first waits until another worker sleeps.
    WaitsForASleeper,
    /// Each for this ticket closes the crew.
    Closes(u64),
    /// The first for this ticket waits until the session has looked, and the one of this number until the session tells it.
    WaitsTwice(u64, u64),
}

/// What a session does next, or finds.
#[derive(Clone, Copy)]
pub enum Step {
    /// It gives others time.
    Yields,
    /// So many workers come to sleep.
    Sleep(u32),
    /// A worker comes before a judgement.
    Judges,
    /// It tells who waits before a judgement.
    Tells,
    /// Each that was waited for has come while the other stood there.
    HaveMet,
    /// A post is told this first ticket and this many atoms.
    Posts(&'static [u8], u64, usize),
    /// The same, once more where memory ran out, and the worker works after each.
    PostsAndWorks(&'static [u8], u64, usize),
    /// The post of an `a` is told, and a `wait` of one look finds the book quiet; so often.
    LooksTwice(u64),
    /// A `wait` of so many looks finds the book quiet.
    Waits(u32),
    /// The book becomes quiet, where no worker is told of anything meanwhile.
    BecomesQuiet,
    /// A `wait` of so many looks finds a ticket open, and has looked at most so often.
    Open(u32, u64),
    /// The worker works.
    Works(Stop),
    /// It announces something new.
    Announces,
    /// So often was something new announced since the first step.
    News(u64),
    /// This is the least ticket that is marked stray.
    Stray(u64),
    /// The lines of the store have this.
    Stores(&'static [u8]),
    /// The next request for memory is refused.
    Refuses,
}

/// What a session does beside workers.
#[derive(Clone, Copy)]
pub struct Play<'t> {
    /// The program, and what is posted before.
    pub task: Task<'t>,
    /// How many workers there are beside the session and its own.
    pub workers: usize,
    /// When they end.
    pub stop: Stop,
    /// How many tickets the pool has from the start.
    pub tickets: u64,
    pub before: Before,
    pub steps: &'static [Step],
}

/// Nothing beside no worker. The crew is closed at the end.
pub const NONE: Play = Play {
    task: ("", ""),
    workers: 0,
    stop: Stop::Closed,
    tickets: 0,
    before: Before::Nothing,
    steps: &[],
};

/// Waits until another thread has counted something. False where it waited long and there was nothing.
pub fn comes(count: &AtomicU64) -> bool {
    for _ in 0..MANY {
        if count.load(Ordering::SeqCst) != 0 {
            return true;
        }
        thread::yield_now();
    }
    false
}

/// What has come before judgements, counted by each thread for the others, and the gate that counts it.
#[derive(Drop)]
pub struct Signs {
    pub before: Before,
    /// How many judgements came, or those for the first of two tickets.
    pub first: AtomicU64,
    /// How many of those for another ticket came, or how often the session told of something.
    pub second: AtomicU64,
    /// How many waited in vain.
    alone: AtomicU64,
    /// How often a session has looked.
    looked: AtomicU64,
}

impl Signs {
    pub fn new(before: Before) -> Signs {
        Signs {
            before,
            first: AtomicU64::new(0),
            second: AtomicU64::new(0),
            alone: AtomicU64::new(0),
            looked: AtomicU64::new(0),
        }
    }

    /// Counts one of these, which waits for one of the others where it is the first.
    fn meet(&self, mine: &AtomicU64, other: &AtomicU64) {
        if mine.fetch_add(1, Ordering::SeqCst) == 0 && !comes(other) {
            self.alone.fetch_add(1, Ordering::SeqCst);
        }
    }

    /// Counts one, which waits where it is the first or has this number.
    fn wait_twice(&self, number: u64) {
        let came = self.first.fetch_add(1, Ordering::SeqCst);
        if came == 0 {
            let _ = comes(&self.looked);
        } else if came == number {
            let _ = comes(&self.second);
        }
    }

    /// Whether each has come while the other stood there.
    pub fn have_met(&self) -> bool {
        let (first, second) = self.counts();
        first != 0 && second != 0 && self.alone.load(Ordering::SeqCst) == 0
    }

    /// What came.
    pub fn counts(&self) -> (u64, u64) {
        (
            self.first.load(Ordering::SeqCst),
            self.second.load(Ordering::SeqCst),
        )
    }

    /// Counts a look. How many there were before.
    pub fn look(&self) -> u64 {
        self.looked.fetch_add(1, Ordering::SeqCst)
    }
}

impl Gate for Signs {
    fn before_judging(&self, ticket: u64) {
        match self.before {
            Before::Meets(one) if ticket == one => self.meet(&self.first, &self.second),
            Before::Meets(one) if ticket == one.wrapping_add(1) => {
                self.meet(&self.second, &self.first)
            }
            Before::Counts(one) => {
                self.first.fetch_add(1, Ordering::SeqCst);
                if ticket == one {
                    self.second.fetch_add(1, Ordering::SeqCst);
                }
            }
            Before::WaitsTwice(one, number) if ticket == one => self.wait_twice(number),
            _ => {}
        }
    }
}

/// Counts the looks of a session.
#[derive(Drop)]
pub struct Looks<'s> {
    pub signs: &'s Signs,
}

impl Patience for Looks<'_> {
    fn goes_on(&mut self) -> bool {
        self.signs.look() < MANY
    }
}

/// Memory of which a request may be refused.
pub trait Refuses {
    /// Refuses the next request, where it can.
    fn refuse_next(&self) {}
}

impl Refuses for Global {}

impl Refuses for &Refusing<Global> {
    fn refuse_next(&self) {
        self.refuse(1);
    }
}

/// Gives others time.
pub fn yields() {
    for _ in 0..1000 {
        thread::yield_now();
    }
}

/// Whether a post is told this first ticket and this many atoms.
pub fn posts<A: Allocator, D: Desk<A>>(
    desk: &mut D,
    text: &[u8],
    ticket: u64,
    count: usize,
) -> bool {
    match desk.ask(Command::Post(text)) {
        Reply::Posted(first, posted) => first == ticket && posted == count,
        _ => false,
    }
}

/// Whether a `wait` of so many looks finds the book quiet.
pub fn is_quiet<A: Allocator, D: Desk<A>>(desk: &mut D, looks: u32) -> bool {
    matches!(desk.ask(Command::Wait(looks)), Reply::Quiet)
}

/// Whether the book becomes quiet, where no worker is told of anything meanwhile.
pub fn becomes_quiet<A: Allocator, D: Desk<A>>(desk: &mut D) -> bool {
    for _ in 0..MANY {
        match desk.ask(Command::Wait(0)) {
            Reply::Quiet => return true,
            Reply::Open => thread::yield_now(),
            _ => return false,
        }
    }
    false
}

/// Whether the post of an `a` is told, and a `wait` of one look finds the book quiet then; so often.
pub fn looks_twice<A: Allocator, D: Desk<A>>(desk: &mut D, times: u64) -> bool {
    for _ in 0..times {
        let posted = matches!(desk.ask(Command::Post(b"a.")), Reply::Posted(_, 1));
        if !posted || !is_quiet(desk, 1) {
            return false;
        }
    }
    true
}

/// Whether the lines of the store have this.
pub fn stores<A: Allocator, D: Desk<A>>(desk: &mut D, wanted: &[u8]) -> bool {
    match desk.ask(Command::Store) {
        Reply::Store(_, lines) => lines
            .windows(wanted.len().max(1))
            .any(|part| part == wanted),
        _ => false,
    }
}
