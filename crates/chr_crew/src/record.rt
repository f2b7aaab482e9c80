//! What a worker has done.
ghost use Rattle.std.specs.Prelude.{◌≡◌, ◌≢◌, ◌↔◌, ◌+◌, ◌-◌, ◌*◌, ◌/◌, ◌%◌, ◌^◌, ◌&&◌, min, max, nat_le, nat_lt, if◌then◌else◌};
ghost use Rattle.chr_crew.specs.declared.record.FirstLook.TheVariants.{Own, Posted, Stray};

use chr_book::MOST_IN_BATCH;

/// How many trials a sheet has at most that follows few judgements or none.
const LEAST_SHEET: usize = MOST_IN_BATCH;

/// How many trials any sheet has at most.
const LARGEST_SHEET: usize = 256;

/// After so many tickets a worker looks elsewhere first than in its own deque, in turn for what was posted and for what is stray,
/// so that no chain of its own keeps these waiting.
const TICKETS_A_LOOK: u64 = 32;

/// After so many goals in a row that took few trials, fewer than sixteen in a sheet, a worker takes it that the next ones do too.
const SHORT_GOALS: u64 = 16;

/// How many tickets of its firings a worker keeps to itself at most while its goals take few trials. It goes through them sooner
/// than another worker wakes up and has the book's memory in its own processor.
const MOST_UNTOLD: usize = 8;

/// Where a worker looks first for a ticket.
#[derive(Clone, Copy, PartialEq, Eq)]
pub enum FirstLook {
    /// In its own deque.
    Own,
    /// Among those that were posted.
    Posted,
    /// Among those that are stray.
    Stray,
}

/// What a worker has done. By it the worker decides how many trials it asks for, where it looks for a ticket, and when it tells
/// others of those that it has left.
#[derive(Drop)]
pub struct Record {
    /// On how many tickets it has worked, modulo 2^64.
    tickets: u64,
    /// How many trials it judged of its last sheet.
    judged: usize,
    /// How many tickets it has taken up since it judged many trials of a sheet.
    short: u64,
    /// How many tickets of its firings may lie in its deque of which it hasn't told others.
    untold: usize,
}

impl Record {
    /// Makes that of a worker that begins.
    pub fn new() -> Record
        ensures { result ≡ record { tickets = 0; judged = 0; short = 0; untold = 0 } }
    {
        Record {
            tickets: 0,
            judged: 0,
            short: 0,
            untold: 0,
        }
    }

    /// Counts so many trials of a sheet as judged.
    pub fn count_judged(&mut self, trials: usize)
        ensures { self.new ≡ record self.old { judged = trials; short = if nat_le LEAST_SHEET trials then 0 else self.old.short } }
    {
        self.judged = trials;
        if LEAST_SHEET <= trials {
            self.short = 0;
        }
    }

    /// Counts so many tickets of a firing as left in its deque.
    pub fn count_left(&mut self, tickets: usize)
        ensures { self.new ≡ record self.old { untold = min (self.old.untold + tickets) usize.MAX } }
    {
        self.untold = self.untold.saturating_add(tickets);
    }

    /// Counts a ticket that it takes up, perhaps one that it left.
    pub fn count_ticket(&mut self)
        ensures { self.new ≡ record self.old { tickets = (self.old.tickets + 1) % 2 ^ 64; short = min (self.old.short + 1) u64.MAX; untold = self.old.untold - 1 } }
    {
        self.tickets = self.tickets.wrapping_add(1);
        self.short = self.short.saturating_add(1);
        self.untold = self.untold.saturating_sub(1);
    }

    /// Returns how many trials the next sheet has at most: twice as many as were judged of the last one, so that goals of many
    /// trials take few holds. A worker's next goal often takes about as many as the last one.
    pub fn next_sheet(&self) -> usize
        ensures { result ≡ min (max (2 * self.now.judged) LEAST_SHEET) LARGEST_SHEET }
    {
        self.judged
            .saturating_mul(2)
            .max(LEAST_SHEET)
            .min(LARGEST_SHEET)
    }

    /// Returns where it looks first for its next ticket: elsewhere once in [`TICKETS_A_LOOK`] tickets, by turns.
    pub fn first_look(&self) -> FirstLook
        ensures own { (result ≡ Own) ↔ (self.now.tickets % TICKETS_A_LOOK ≢ TICKETS_A_LOOK - 1) }
        ensures posted { result ≡ Posted → self.now.tickets / TICKETS_A_LOOK % 2 ≡ 0 }
        ensures stray { result ≡ Stray → self.now.tickets / TICKETS_A_LOOK % 2 ≡ 1 }
    {
        if self.tickets % TICKETS_A_LOOK != TICKETS_A_LOOK - 1 {
            FirstLook::Own
        } else if self.tickets / TICKETS_A_LOOK % 2 == 0 {
            FirstLook::Posted
        } else {
            FirstLook::Stray
        }
    }

    /// Returns of how many tickets others are to be told, which count as told from now on. None while they are few and its goals
    /// take few trials.
    pub fn tell_many(&mut self) -> usize
        ensures told { result ≡ (if nat_lt self.old.untold MOST_UNTOLD && nat_lt SHORT_GOALS self.old.short then 0 else self.old.untold) }
        ensures counted { self.new ≡ record self.old { untold = self.old.untold - result } }
    {
        if self.untold < MOST_UNTOLD && SHORT_GOALS < self.short {
            return 0;
        }
        self.tell_all()
    }

    /// Returns the same however few they are, and whatever its goals take.
    pub fn tell_all(&mut self) -> usize
        ensures told { result ≡ self.old.untold }
        ensures counted { self.new ≡ record self.old { untold = 0 } }
    {
        let untold = self.untold;
        self.untold = 0;
        untold
    }
}
