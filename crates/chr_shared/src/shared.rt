//! The lock.
ghost use Rattle.std.specs.Prelude.{◌≡◌, ◌+◌, ◌<◌, [], true, false, Option, sum_by, vec_len, OnErr, IfOk, IfErr, IfSome};
ghost use Rattle.chr_calls.specs.Books.{BookState};
ghost use Rattle.chr_calls.specs.Batches.{ClaimsSheet, ReportsBatch, ReportsSheet, Sheets, claimed_of, following_of, report_of, sheet_of};
ghost use Rattle.chr_sheet.specs.Rows.{judgements_of};
ghost use Rattle.chr_calls.specs.Calls.{Claims, FiresOrMisses, Drops, PutsDown};
ghost use Rattle.chr_book.specs.Texts.{PostsText};
ghost use Rattle.chr_seats.specs.Accounts.{AreNamed, AreSeats, IsAudited};
ghost use Rattle.chr_seats.specs.Versions.{IsKnownAfter, IsKnownOf};
ghost use Rattle.chr_seats.specs.Holds.{WasHold, MarksIn, TakesStrayIn};
ghost use Rattle.chr_shared.specs.Installs.{WasInstall};

use crate::sleepers::Sleepers;
use chr_book::{Book, Posted};
use chr_calls::{
    BatchReport, ClaimFault, DropFault, Dropping, FireFault, Firing, MarkFault, PutDownFault,
    Sheet, SheetReport, TurnFault,
};
use chr_lex::fault::ReadError;
use chr_search::Judged;
use chr_seats::{
    Blanks, Call, Claim, DropGoal, Fire, HoldFault, Kept, Known, KnownJudgements, PostLedger,
    PostText, PutDown, ReportAll, Seat, Seats,
};
use chr_sheet::Judgements;
use chr_store::Label;
use std::alloc::{AllocError, Allocator};
use std::hint::spin_loop;
use std::sync::atomic::{AtomicBool, AtomicU64, Ordering};
use std::sync::ledger::Ledger;
use std::sync::{Condvar, Mutex, MutexGuard, Wait};
use std::thread;

/// How often a call looks whether the lock is free before its thread sleeps.
const MOST_LOOKS: u32 = 500;

/// How often the processor pauses between two looks at most.
const MOST_PAUSES: u32 = 3200;

/// How often it pauses before the second look of a call whose hold is long. Each time after that it pauses twice as often.
const LONG_HOLD_PAUSES: u32 = 200;

/// How often it pauses at most while a long hold of another lasts: some ten times as long as such a hold.
const PAUSES_BESIDE_LONG_HOLD: u32 = 2000;

/// Through how many looks at most a call leaves the lock to those who make one short hold after another. What a hold touches
/// takes longer to move from processor to processor than a short hold takes, so it pays that one thread makes many.
const MOST_LEFT: u32 = 64;

/// After how many holds their number is told to those who wait. So many between two looks are one after another.
const HOLDS_TOLD_TOGETHER: u64 = 16;

/// From how many trials on that it may read a hold is a long one.
const TRIALS_OF_LONG_HOLD: usize = 128;

/// Pauses so often.
fn pause(times: u32) {
    for _ in 0..times {
        spin_loop();
    }
}

/// What is under the lock.
#[derive(Drop)]
pub(crate) struct Locked<L1: PostLedger, L2: Ledger, A: Allocator> {
    pub(crate) kept: Kept<L1, L2, A>,
    pub(crate) sleepers: Sleepers,
}

/// One lock over a book, or over none yet, for the holders of seats.
pub struct Shared<L1: PostLedger, L2: Ledger, A: Allocator> {
    pub(crate) locked: Mutex<Locked<L1, L2, A>>,
    /// Where workers sleep.
    pub(crate) rested: Condvar,
    /// Where sessions sleep that wait for workers.
    pub(crate) watched: Condvar,
    /// How often there was something new to take, modulo 2^64. This and `closed` change in a hold, so none that is about to
    /// sleep misses it, and are read without one.
    pub(crate) news: AtomicU64,
    /// Whether workers that wait for the end are to end.
    pub(crate) closed: AtomicBool,
    /// Whether the lock is held long. Those who hold it set this, and those who wait for it read it.
    is_held_long: AtomicBool,
    /// How many holds seats have made, modulo 2^64, told after each sixteenth. Those who wait for the lock read it.
    told_holds: AtomicU64,
}

// Not derived, as for a book.
impl<L1: PostLedger, L2: Ledger, A: Allocator> Drop for Shared<L1, L2, A> {
    fn drop(self) {
        let Shared {
            locked: _,
            rested: _,
            watched: _,
            news: _,
            closed: _,
            is_held_long: _,
            told_holds: _,
        } = self;
    }
}

impl<L1: PostLedger, L2: Ledger, A: Allocator + Copy> Shared<L1, L2, A> {
    /// A lock over this.
    fn over(kept: Kept<L1, L2, A>) -> Shared<L1, L2, A> {
        let sleepers = Sleepers::default();
        Shared {
            locked: Mutex::new(Locked { kept, sleepers }),
            rested: Condvar::new(),
            watched: Condvar::new(),
            news: AtomicU64::new(0),
            closed: AtomicBool::new(false),
            is_held_long: AtomicBool::new(false),
            told_holds: AtomicU64::new(0),
        }
    }

    /// A book under a lock, and all seats, each with the counts of what it has made in the book's log. On E01 the book
    /// comes back.
    pub fn with(
        alloc: A,
        book: Book<A>,
        blanks: Blanks<A>,
    ) -> Result<(Shared<L1, L2, A>, Seats<L1, L2, A>), Book<A>>
        requires { AreNamed blanks L1.name L1.parts L2.name L2.parts L1.history }
        ensures workers { IfOk result (λ r. AreSeats book.log 0 r.1.workers.items) }
        ensures sessions { IfOk result (λ r. AreSeats book.log 16 r.1.sessions.items) }
        ensures back { IfErr result (λ b. b ≡ book) }
    {
        let (kept, seats) = Kept::with(alloc, book, blanks)?;
        Ok((Shared::over(kept), seats))
    }

    /// A lock over no book, and all seats, which have made nothing. An `Err` is E01.
    pub fn empty(
        alloc: A,
        blanks: Blanks<A>,
    ) -> Result<(Shared<L1, L2, A>, Seats<L1, L2, A>), AllocError>
        requires named { AreNamed blanks L1.name L1.parts L2.name L2.parts L1.history }
        requires none { L1.loaded ≡ false }
        ensures workers { IfOk result (λ r. AreSeats [] 0 r.1.workers.items) }
        ensures sessions { IfOk result (λ r. AreSeats [] 16 r.1.sessions.items) }
    {
        let (kept, seats) = Kept::empty(alloc, blanks)?;
        Ok((Shared::over(kept), seats))
    }

    /// Brings a book with an empty log. E26: then the book is let go. It comes back (E20) where one is there already.
    pub fn install<R: Wait>(
        &self,
        rt: &R,
        seat: &Seat<L1, L2>,
        book: Book<A>,
    ) -> Result<Result<(), Book<A>>, HoldFault>
        requires { book.log ≡ [] }
        ensures { WasInstall seat.now book result }
    {
        let mut locked = self.locked.lock(rt);
        match locked.kept.book_for(seat) {
            Ok(_) => return Ok(Err(book)),
            Err(HoldFault::WrongSeat) => return Err(HoldFault::WrongSeat),
            Err(HoldFault::NoBook) => {}
        }
        let mut book = Some(book);
        locked.kept.install(&mut book);
        Ok(Ok(()))
    }

    /// What is under the lock, once no other thread has it.
    pub fn into_kept(self) -> Kept<L1, L2, A> {
        let Shared {
            locked,
            rested: _,
            watched: _,
            news: _,
            closed: _,
            is_held_long: _,
            told_holds: _,
        } = self;
        locked.into_inner().kept
    }

    /// Ends with all 32 seats back, and lets go of the book and of them. Their counts add up to what these seats have made in
    /// its log.
    pub fn audit<C: Allocator>(self, workers: Vec<Seat<L1, L2>, C>, sessions: Vec<Seat<L1, L2>, C>)
        requires all { vec_len workers + vec_len sessions ≡ 32 }
        requires parts { (L1.parts ≡ 32) × (L2.parts ≡ 32) }
        requires some { 0 < vec_len workers }
        ensures { (book : Option BookState) × IsAudited book (sum_by (λ s. s.counts.posts) workers.items + sum_by (λ s. s.counts.posts) sessions.items) (sum_by (λ s. s.counts.others) workers.items + sum_by (λ s. s.counts.others) sessions.items) }
    {
        let mut kept = self.into_kept();
        kept.audit(workers, sessions);
    }

    /// Takes the lock for a call with a short hold.
    #[inline(never)]
    fn begin_hold<R: Wait>(&self, rt: &R) -> MutexGuard<'_, Locked<L1, L2, A>> {
        match self.locked.try_lock() {
            Some(locked) => locked,
            None => self.wait_for_lock(rt, MOST_PAUSES),
        }
    }

    /// Takes the lock for a call with a long hold.
    #[inline(never)]
    fn begin_long_hold<R: Wait>(&self, rt: &R) -> MutexGuard<'_, Locked<L1, L2, A>> {
        let locked = match self.locked.try_lock() {
            Some(locked) => locked,
            None => self.wait_for_lock(rt, LONG_HOLD_PAUSES),
        };
        self.is_held_long.store(true, Ordering::SeqCst);
        locked
    }

    /// Takes the lock, which was held just now. Where it is held long its end is waited for; else the processor pauses so often
    /// before the next look, and twice as often each time after that. While others make many holds it is left to them for a time.
    /// Before each look the thread lets those run that want its processor, of which one may have the lock.
    fn wait_for_lock<R: Wait>(&self, rt: &R, pauses: u32) -> MutexGuard<'_, Locked<L1, L2, A>> {
        let mut pauses = pauses;
        let mut seen = self.told_holds.load(Ordering::SeqCst);
        let mut left = 0;
        for _ in 0..MOST_LOOKS {
            if !self.outlasts_long_hold() {
                pause(pauses);
                pauses = pauses.saturating_mul(2).min(MOST_PAUSES);
                thread::yield_now();
            }
            let told = self.told_holds.load(Ordering::SeqCst);
            if told != seen && left < MOST_LEFT {
                seen = told;
                left += 1;
                continue;
            }
            left = 0;
            if let Some(locked) = self.locked.try_lock() {
                return locked;
            }
        }
        self.locked.lock(rt)
    }

    /// Waits while the lock is held long, but not for ever. False where it wasn't.
    fn outlasts_long_hold(&self) -> bool {
        if !self.is_held_long.load(Ordering::SeqCst) {
            return false;
        }
        for _ in 0..PAUSES_BESIDE_LONG_HOLD {
            pause(1);
            if !self.is_held_long.load(Ordering::SeqCst) {
                // The lock is given back just after the mark is taken off.
                pause(1);
                return true;
            }
        }
        thread::yield_now();
        true
    }

    /// Ends the hold of a call. Now and then the sessions that sleep are told then, so that they see a run that goes on and on.
    fn end_hold(&self, mut locked: MutexGuard<'_, Locked<L1, L2, A>>) {
        let look = locked.sleepers.count_hold();
        let holds = locked.sleepers.holds;
        if holds % HOLDS_TOLD_TOGETHER == 0 {
            self.told_holds.store(holds, Ordering::SeqCst);
        }
        drop(locked);
        if look {
            self.watched.notify_all();
        }
    }

    /// Takes the lock for a call that may read so many trials.
    #[inline(always)]
    fn begin_reading<R: Wait>(&self, rt: &R, most: usize) -> MutexGuard<'_, Locked<L1, L2, A>> {
        if most < TRIALS_OF_LONG_HOLD {
            self.begin_hold(rt)
        } else {
            self.begin_long_hold(rt)
        }
    }

    /// Ends the hold of a call that may have read so many trials.
    #[inline(always)]
    fn end_reading(&self, locked: MutexGuard<'_, Locked<L1, L2, A>>, most: usize) {
        if TRIALS_OF_LONG_HOLD <= most {
            self.is_held_long.store(false, Ordering::SeqCst);
        }
        self.end_hold(locked);
    }

    /// Makes a call by a seat, which adds posts or other entries.
    fn in_hold<R: Wait, X, C: Call<A, X> + Drop>(
        &self,
        rt: &R,
        seat: &mut Seat<L1, L2>,
        call: C,
        are_posts: bool,
    ) -> Result<X, HoldFault>
        requires posts { are_posts ≡ C.posts }
        requires needs { (b : BookState) → C.needs call b }
        ensures hold { WasHold (λ b answer n. C.line call seat.old.number b answer n) seat.old result seat.new }
        ensures posts { C.posts ≡ false → seat.new.counts.posts ≡ seat.old.counts.posts }
        ensures others { C.posts ≡ true → seat.new.counts.others ≡ seat.old.counts.others }
    {
        // A client waits for its post, so that one doesn't leave the lock to workers.
        let mut locked = if are_posts {
            self.locked.lock(rt)
        } else {
            self.begin_hold(rt)
        };
        let answer = locked.kept.hold(seat, call, are_posts);
        self.end_hold(locked);
        answer
    }

    /// Gives a ticket to the seat, as [`Book::claim`](chr_book::Book::claim) does. E26; E24; then E12, E10 and E01.
    pub fn claim<R: Wait>(
        &self,
        rt: &R,
        seat: &mut Seat<L1, L2>,
        ticket: u64,
    ) -> Result<Result<Label, ClaimFault>, HoldFault>
        ensures hold { WasHold (λ b answer n. Claims b seat.old.number ticket answer n) seat.old result seat.new }
        ensures number { seat.new.number ≡ seat.old.number }
        ensures posts { seat.new.counts.posts ≡ seat.old.counts.posts }
    {
        self.in_hold(rt, seat, Claim { ticket }, false)
    }

    /// Gives a ticket to the seat, and then its first trials, at most so many together, as
    /// [`Book::claim_sheet`](chr_book::Book::claim_sheet) does, with the search in which they are known to come next, if it is
    /// known. E26; E24; then E12, E10 and E01; and E01 of the trials.
    pub fn claim_sheet<R: Wait>(
        &self,
        rt: &R,
        seat: &mut Seat<L1, L2>,
        ticket: u64,
        most: usize,
    ) -> Result<
        (
            Result<Result<Sheet<A>, TurnFault>, ClaimFault>,
            Option<Known<L1, A>>,
        ),
        HoldFault,
    >
        ensures hold { WasHold (λ b answer n. ClaimsSheet b seat.old.number ticket most (claimed_of answer.0) n) seat.old result seat.new }
        ensures number { seat.new.number ≡ seat.old.number }
        ensures posts { seat.new.counts.posts ≡ seat.old.counts.posts }
        ensures known { IfOk result (λ r. IfSome r.1 (λ k. IfOk (claimed_of r.0) (IsKnownOf k.version k.search))) }
    {
        let mut locked = self.begin_reading(rt, most);
        let answer = locked.kept.claim_sheet(seat, ticket, most);
        self.end_reading(locked, most);
        answer
    }

    /// The next trials of a ticket that the seat holds, at most so many together, with the search in which they are known to come
    /// next, if it is known. E26; E24; then E13 and E01.
    pub fn sheet<R: Wait>(
        &self,
        rt: &R,
        seat: &mut Seat<L1, L2>,
        ticket: u64,
        most: usize,
    ) -> Result<(Result<Sheet<A>, TurnFault>, Option<Known<L1, A>>), HoldFault>
        ensures hold { WasHold (λ b answer n. Sheets b seat.old.number ticket most (sheet_of answer.0) n) seat.old result seat.new }
        ensures number { seat.new.number ≡ seat.old.number }
        ensures posts { seat.new.counts.posts ≡ seat.old.counts.posts }
        ensures known { IfOk result (λ r. IfSome r.1 (λ k. IsKnownOf k.version k.search (sheet_of r.0))) }
    {
        let mut locked = self.begin_reading(rt, most);
        let answer = locked.kept.sheet(seat, ticket, most);
        self.end_reading(locked, most);
        answer
    }

    /// Reports judgements of a ticket's trials, and fires the last one, drops the goal, or gives the next trials, at most so
    /// many together, as [`Book::report_sheet`](chr_book::Book::report_sheet) does, with the search in which these are known to
    /// come next, if it is known. Where the judged trials are known to come next in the book as it is, none of them is looked for.
    /// Who deals with the tickets of a firing announces them then. E26; E24; then E13 and E01, of the report and of the call that
    /// follows.
    pub fn report_sheet<R: Wait>(
        &self,
        rt: &R,
        seat: &mut Seat<L1, L2>,
        ticket: u64,
        judged: &KnownJudgements<L1, A>,
        most: usize,
    ) -> Result<(SheetReport<A>, Option<Known<L1, A>>), HoldFault>
        ensures hold { WasHold (λ b answer n. ReportsSheet b seat.old.number ticket most (judgements_of judged.now) answer.0.reported (following_of answer.0.following) n) seat.old result seat.new }
        ensures number { seat.new.number ≡ seat.old.number }
        ensures posts { seat.new.counts.posts ≡ seat.old.counts.posts }
        ensures known { IfOk result (λ r. IfSome r.1 (λ k. IsKnownAfter k.version k.search (following_of r.0.following))) }
    {
        let mut locked = self.begin_reading(rt, most);
        let answer = locked.kept.report_sheet(seat, ticket, judged, most);
        self.end_reading(locked, most);
        answer
    }

    /// Reports judgements of a ticket's trials, and asks for its next trial. E26; E24; then E13 and E01, as what comes next.
    pub fn report_all<R: Wait>(
        &self,
        rt: &R,
        seat: &mut Seat<L1, L2>,
        ticket: u64,
        judgements: &Judgements<A>,
    ) -> Result<BatchReport<A>, HoldFault>
        ensures hold { WasHold (λ b answer n. ReportsBatch b seat.old.number ticket (judgements_of judgements.now) (report_of answer) n) seat.old result seat.new }
        ensures number { seat.new.number ≡ seat.old.number }
        ensures posts { seat.new.counts.posts ≡ seat.old.counts.posts }
    {
        self.in_hold(rt, seat, ReportAll { ticket, judgements }, false)
    }

    /// Fires the candidate of a ticket. Who deals with the new tickets announces them then. E26; E24; then E13, E14, E15 and
    /// E01.
    pub fn fire<R: Wait>(
        &self,
        rt: &R,
        seat: &mut Seat<L1, L2>,
        ticket: u64,
        judged: &Judged<A>,
    ) -> Result<Result<Firing, FireFault>, HoldFault>
        ensures hold { WasHold (λ b answer n. FiresOrMisses b seat.old.number ticket judged.now answer n) seat.old result seat.new }
        ensures number { seat.new.number ≡ seat.old.number }
        ensures posts { seat.new.counts.posts ≡ seat.old.counts.posts }
    {
        self.in_hold(rt, seat, Fire { ticket, judged }, false)
    }

    /// Ends a goal that has no trial left. E26; E24; then E13 and E01.
    pub fn drop_goal<R: Wait>(
        &self,
        rt: &R,
        seat: &mut Seat<L1, L2>,
        ticket: u64,
    ) -> Result<Result<Dropping, DropFault>, HoldFault>
        ensures hold { WasHold (λ b answer n. Drops b seat.old.number ticket answer n) seat.old result seat.new }
        ensures number { seat.new.number ≡ seat.old.number }
        ensures posts { seat.new.counts.posts ≡ seat.old.counts.posts }
    {
        self.in_hold(rt, seat, DropGoal { ticket }, false)
    }

    /// Takes a ticket from the seat, which is marked stray then. E26; E24; then E13.
    pub fn put_down<R: Wait>(
        &self,
        rt: &R,
        seat: &mut Seat<L1, L2>,
        ticket: u64,
    ) -> Result<Result<(), PutDownFault>, HoldFault>
        ensures hold { WasHold (λ b answer n. PutsDown b seat.old.number ticket answer n) seat.old result seat.new }
        ensures number { seat.new.number ≡ seat.old.number }
        ensures posts { seat.new.counts.posts ≡ seat.old.counts.posts }
    {
        self.in_hold(rt, seat, PutDown { ticket }, false)
    }

    /// Posts the atoms of a text under the next tickets. Who deals with these announces them then. E26; E24; then the faults
    /// of a text and E01, after which nothing has changed.
    pub fn post_text<R: Wait>(
        &self,
        rt: &R,
        seat: &mut Seat<L1, L2>,
        bytes: &[u8],
    ) -> Result<Result<Posted, ReadError>, HoldFault>
        ensures hold { WasHold (λ b answer n. PostsText b seat.old.number bytes.now answer n) seat.old result seat.new }
        ensures number { seat.new.number ≡ seat.old.number }
        ensures posts { IfOk result (λ answer. IfOk answer (λ posted. seat.new.counts.posts ≡ seat.old.counts.posts + posted.count)) }
        ensures none { IfOk result (λ answer. OnErr answer (seat.new.counts ≡ seat.old.counts)) }
        ensures refused { OnErr result (seat.new ≡ seat.old) }
        ensures others { seat.new.counts.others ≡ seat.old.counts.others }
    {
        self.in_hold(rt, seat, PostText { bytes }, true)
    }

    /// Marks a ticket stray. E12 unless it waits or rests, with its state, which is Unknown where no book is there.
    pub fn mark_stray<R: Wait>(&self, rt: &R, ticket: u64) -> Result<(), MarkFault>
        ensures { (old new : Option BookState) × MarksIn old ticket result new }
    {
        self.locked.lock(rt).kept.mark_stray(ticket)
    }

    /// The least ticket that is marked stray, whose mark is taken off.
    pub fn take_stray<R: Wait>(&self, rt: &R) -> Option<u64>
        ensures { (old new : Option BookState) × TakesStrayIn old result new }
    {
        self.locked.lock(rt).kept.take_stray()
    }
}
