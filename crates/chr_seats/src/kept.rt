//! A book, beside what each seat has made of it.
ghost use Rattle.std.specs.Prelude.{◌≡◌, ◌↔◌, ◌+◌, ◌-◌, ◌^◌, ◌<◌, ◌≤◌, set, [], true, false, not, length, sum_by, vec_capacity, vec_len, IfOk, IfErr, IfSome, IsTrue, IsSome, Some, None};
ghost use Rattle.chr_book.specs.Given.{AreNextIn};
ghost use Rattle.chr_calls.specs.Batches.{ClaimsSheet, ReportsSheet, Sheets, claimed_of, following_of, sheet_of};
ghost use Rattle.chr_calls.specs.Books.{BookState};
ghost use Rattle.chr_sheet.specs.Rows.{judgements_of};
ghost use Rattle.chr_seats.specs.Accounts.{AreCounts, AreNamed, AreSeats, log_of, made_upto, if_so, raised};
ghost use Rattle.chr_seats.specs.Versions.{IsKnownAfter, IsKnownOf, IsSearchOf, IsVersionOf};
ghost use Rattle.chr_seats.specs.Holds.{GoesOn, HasHeadline, HasRightCounts, IsHold, IsReading, MarksIn, TakesStrayIn};

use crate::answers::HoldFault;
use crate::calls::{AskSheet, Call, ClaimSheet, ReportSheet};
use crate::counts::Counts;
use crate::known::{Given, Known, KnownJudgements, Taken};
use crate::seat::{Blanks, PostLedger, SESSION_SEATS, Seat, Seats, WORKER_SEATS};
use crate::seating::{merge_all, merged, seat_all};
use crate::tally::{none_yet, tally};
use chr_book::Book;
use chr_calls::{Following, MarkFault, SheetReport, TicketState};
use chr_search::Search;
use chr_versions::{Version, Versions};
use std::alloc::{AllocError, Allocator};
use std::marker::Model;
use std::mem;
use std::sync::ledger;
use std::sync::ledger::Ledger;

/// Perhaps a book with its versions, and what each seat has made of it. Contracts see the book.
#[derive(Drop)]
pub struct Kept<L1: PostLedger, L2: Ledger, A: Allocator> {
    book: Option<Book<A>>,
    versions: Versions<L1, Book<A>>,
    /// How many entries the log had when the last version was added.
    entries: usize,
    counts: [Counts; 32],
    posts: ledger::Book<L1>,
    others: ledger::Book<L2>,
}

impl<L1: PostLedger, L2: Ledger, A: Allocator> Model for Kept<L1, L2, A> {
    ghost use Rattle.std.specs.Prelude.{◌≡◌, true, Option, IsSome};
    ghost use Rattle.chr_rule.specs.Codes.{rule_codes};
    ghost use Rattle.chr_calls.specs.Books.{BookState};
    ghost use Rattle.chr_seats.specs.Accounts.{AreSeats, log_of, IsCounted};
    ghost use Rattle.chr_seats.specs.Versions.{IsVersion};

    ghost Value = { Option BookState };

    ghost coded = { Prim.hlevel rule_codes };

    ghost view = { λ k. k.book };

    ghost invariant = { λ k. IsCounted (log_of k.book) k.counts k.posts.total k.others.total × (L1.loaded ≡ true → IsSome k.book) × IsVersion k.book k.entries k.versions };
}

/// Makes a call by a seat, and counts the entries that it adds.
fn make<A: Allocator + Copy, X, C: Call<A, X> + Drop>(
    book: &mut Book<A>,
    seat: u32,
    call: C,
) -> (X, u64)
    requires { C.needs call book.old }
    ensures line { C.line call seat book.old result.0 book.new }
    ensures headline_before { HasHeadline book.old }
    ensures headline_now { HasHeadline book.new }
    ensures goes_on { GoesOn C.posts seat book.old book.new }
    ensures count { length book.new.log ≡ length book.old.log + result.1 }
    ensures room { length book.new.log < 2 ^ 64 }
{
    read_headline(book);
    let before = book.log().len();
    let answer = call.make(book, seat);
    read_headline(book);
    let more = book.log().len() - before;
    (answer, more as u64)
}

/// Counts so many more entries of a seat, which are posts or others.
fn raise<L1: PostLedger, L2: Ledger>(
    counts: &mut [Counts; 32],
    posts: &mut ledger::Book<L1>,
    others: &mut ledger::Book<L2>,
    seat: &mut Seat<L1, L2>,
    are_posts: bool,
    more: u64,
)
    requires posts { seat.old.counts.posts + more < 2 ^ 64 }
    requires others { seat.old.counts.others + more < 2 ^ 64 }
    ensures number { seat.new.number ≡ seat.old.number }
    ensures seat { seat.new.counts ≡ raised are_posts more seat.old.counts }
    ensures counts { counts.new ≡ set counts.old (seat.old.number - 1) seat.new.counts }
    ensures post_total { posts.new.total ≡ posts.old.total + if_so are_posts more }
    ensures other_total { others.new.total ≡ others.old.total + if_so (not are_posts) more }
{
    let more_posts = if are_posts { more } else { 0 };
    let more_others = more - more_posts;
    posts.add(&mut seat.posts, more_posts);
    others.add(&mut seat.others, more_others);
    seat.counts.posts += more_posts;
    seat.counts.others += more_others;
    counts[(seat.number - 1) as usize] = seat.counts;
}

/// A book has the headline, as the contract of a reading call says.
fn read_headline<A: Allocator + Copy>(book: &Book<A>)
    ensures { HasHeadline book.now }
{
    let _ = book.quiet();
}

impl<L1: PostLedger, L2: Ledger, A: Allocator + Copy> Kept<L1, L2, A> {
    /// A book or none without versions, and all seats, each with its counts.
    fn seated(
        book: Option<Book<A>>,
        counts: [Counts; 32],
        blanks: Blanks<A>,
        mut workers: Vec<Seat<L1, L2>, A>,
        mut sessions: Vec<Seat<L1, L2>, A>,
    ) -> (Kept<L1, L2, A>, Seats<L1, L2, A>)
        requires there { L1.loaded ≡ true → IsSome book }
        requires counts { AreCounts (log_of book) counts }
        requires named { AreNamed blanks L1.name L1.parts L2.name L2.parts L1.history }
        requires empty { (vec_len workers ≡ 0) × (vec_len sessions ≡ 0) }
        requires room { (16 ≤ vec_capacity workers) × (16 ≤ vec_capacity sessions) }
        ensures book { result.0 ≡ book }
        ensures workers { AreSeats (log_of book) 0 result.1.workers.items }
        ensures sessions { AreSeats (log_of book) 16 result.1.sessions.items }
    {
        let Blanks {
            posts,
            others,
            versions,
        } = blanks;
        let versions = Versions::named(versions);
        let (posts, others) = seat_all(&counts, posts, others, &mut workers, &mut sessions);
        let kept = Kept {
            book,
            versions,
            entries: 0,
            counts,
            posts,
            others,
        };
        (kept, Seats { workers, sessions })
    }

    /// A book, and all seats, each with the counts of what it has made in the book's log. On E01 the book comes back.
    pub fn with(
        alloc: A,
        book: Book<A>,
        blanks: Blanks<A>,
    ) -> Result<(Kept<L1, L2, A>, Seats<L1, L2, A>), Book<A>>
        requires { AreNamed blanks L1.name L1.parts L2.name L2.parts L1.history }
        ensures book { IfOk result (λ r. r.0 ≡ Some book) }
        ensures workers { IfOk result (λ r. AreSeats book.log 0 r.1.workers.items) }
        ensures sessions { IfOk result (λ r. AreSeats book.log 16 r.1.sessions.items) }
        ensures back { IfErr result (λ b. b ≡ book) }
    {
        let (Ok(workers), Ok(sessions)) = (
            Vec::with_capacity(alloc, WORKER_SEATS),
            Vec::with_capacity(alloc, SESSION_SEATS),
        ) else {
            return Err(book);
        };
        let counts = tally(book.log());
        Ok(Kept::seated(Some(book), counts, blanks, workers, sessions))
    }

    /// No book yet, and all seats, which have made nothing. An `Err` is E01.
    pub fn empty(
        alloc: A,
        blanks: Blanks<A>,
    ) -> Result<(Kept<L1, L2, A>, Seats<L1, L2, A>), AllocError>
        requires named { AreNamed blanks L1.name L1.parts L2.name L2.parts L1.history }
        requires none { L1.loaded ≡ false }
        ensures book { IfOk result (λ r. r.0 ≡ None) }
        ensures workers { IfOk result (λ r. AreSeats [] 0 r.1.workers.items) }
        ensures sessions { IfOk result (λ r. AreSeats [] 16 r.1.sessions.items) }
    {
        let workers = Vec::with_capacity(alloc, WORKER_SEATS)?;
        let sessions = Vec::with_capacity(alloc, SESSION_SEATS)?;
        Ok(Kept::seated(None, none_yet(), blanks, workers, sessions))
    }

    /// Whether a seat's counts are those that are kept for its number, which are what it has made.
    pub fn knows(&self, seat: &Seat<L1, L2>) -> bool
        ensures { IsTrue result ↔ HasRightCounts self.now seat.now }
    {
        let counts = self.counts[(seat.number - 1) as usize];
        counts.posts == seat.counts.posts && counts.others == seat.counts.others
    }

    /// The book, if one is there.
    pub fn into_book(self) -> Option<Book<A>>
        ensures same { result ≡ self }
        ensures there { L1.loaded ≡ true → IsSome result }
    {
        let Kept {
            book,
            versions: _,
            entries: _,
            counts: _,
            posts: _,
            others: _,
        } = self;
        book
    }

    /// All 32 seats are back: their counts add up to what these seats have made in the log.
    pub fn audit<C: Allocator>(
        &mut self,
        workers: Vec<Seat<L1, L2>, C>,
        sessions: Vec<Seat<L1, L2>, C>,
    )
        requires all { vec_len workers + vec_len sessions ≡ 32 }
        requires parts { (L1.parts ≡ 32) × (L2.parts ≡ 32) }
        requires some { 0 < vec_len workers }
        ensures same { self.new ≡ self.old }
        ensures posts { sum_by (λ s. s.counts.posts) workers.items + sum_by (λ s. s.counts.posts) sessions.items ≡ (made_upto 32 (log_of self.old)).posts }
        ensures others { sum_by (λ s. s.counts.others) workers.items + sum_by (λ s. s.counts.others) sessions.items ≡ (made_upto 32 (log_of self.old)).others }
    {
        let (mut posts, mut others) = merged(workers);
        merge_all(sessions, &mut posts, &mut others);
        self.posts.audit(&mut posts);
        self.others.audit(&mut others);
    }

    /// Brings a book with an empty log. It is left where one is there already.
    pub fn install(&mut self, book: &mut Option<Book<A>>)
        requires { IfSome book.old (λ b. b.log ≡ []) }
        ensures there { self.old ≡ None → (self.new ≡ book.old) × (book.new ≡ None) }
        ensures back { IsSome self.old → (self.new ≡ self.old) × (book.new ≡ book.old) }
    {
        if self.book.is_none() {
            mem::swap(&mut self.book, book);
        }
    }

    /// Makes a call by a seat, which adds posts or other entries. E26, and E24: then no call is made.
    pub fn hold<X, C: Call<A, X> + Drop>(
        &mut self,
        seat: &mut Seat<L1, L2>,
        call: C,
        are_posts: bool,
    ) -> Result<X, HoldFault>
        requires posts { are_posts ≡ C.posts }
        requires needs { (b : BookState) → self.old ≡ Some b → C.needs call b }
        ensures hold { IsHold (λ b answer n. C.line call seat.old.number b answer n) self.old seat.old result self.new seat.new }
        ensures posts { C.posts ≡ false → seat.new.counts.posts ≡ seat.old.counts.posts }
        ensures others { C.posts ≡ true → seat.new.counts.others ≡ seat.old.counts.others }
    {
        let number = seat.number();
        if !self.knows(seat) {
            return Err(HoldFault::WrongSeat);
        }
        let Some(book) = &mut self.book else {
            return Err(HoldFault::NoBook);
        };
        let (answer, more) = make(book, number, call);
        raise(
            &mut self.counts,
            &mut self.posts,
            &mut self.others,
            seat,
            are_posts,
            more,
        );
        Ok(answer)
    }

    /// The version of the book as it is. None without a book, or where no version can be added.
    fn version(&mut self) -> Option<Version<L1, Book<A>>>
        ensures same { self.new ≡ self.old }
        ensures version { IfSome result (IsVersionOf self.new) }
    {
        let Some(book) = &self.book else {
            return None;
        };
        let entries = book.log().len();
        if self.entries != entries || self.versions.is_empty() {
            if !self.versions.add(book) {
                return None;
            }
            self.entries = entries;
        }
        Some(self.versions.last())
    }

    /// The search of a ticket that a seat holds, with the version of the book as it is. None where the seat doesn't hold the
    /// ticket, or no version can be added.
    fn known(&mut self, number: u32, ticket: u64) -> Option<Known<L1, A>>
        ensures same { self.new ≡ self.old }
        ensures known { IfSome result (λ k. IsSearchOf self.new number ticket k.version k.search) }
    {
        let version = self.version()?;
        let Some(book) = &self.book else {
            return None;
        };
        let search = book.search(number, ticket)?;
        Some(Known { version, search })
    }

    /// What is known of the trials that follow a report, where any do.
    fn known_after(
        &mut self,
        number: u32,
        ticket: u64,
        following: &Following<A>,
    ) -> Option<Known<L1, A>>
        ensures same { self.new ≡ self.old }
        ensures known { IfSome result (λ k. IsSearchOf self.new number ticket k.version k.search) }
    {
        match following {
            Following::Sheet(_) => self.known(number, ticket),
            _ => None,
        }
    }

    /// The search in which judged trials come next in the book as it is, if that is known.
    fn known_now<'k>(&self, judged: &'k KnownJudgements<L1, A>) -> Option<&'k Search>
        ensures { IfSome result (λ search. (b : BookState) → self.now ≡ Some b → AreNextIn b search.now (judgements_of judged.now)) }
    {
        let Some(known) = &judged.known else {
            return None;
        };
        let Some(book) = &self.book else {
            return None;
        };
        if book.log().len() != self.entries || !self.versions.is_last(&known.version) {
            return None;
        }
        Some(&known.search)
    }

    /// Makes a call by a seat that adds no posts, and looks for the search of a ticket then.
    fn hold_known<X, C: Call<A, X> + Drop>(
        &mut self,
        seat: &mut Seat<L1, L2>,
        ticket: u64,
        call: C,
    ) -> Result<(X, Option<Known<L1, A>>), HoldFault>
        requires posts { C.posts ≡ false }
        requires needs { (b : BookState) → self.old ≡ Some b → C.needs call b }
        ensures hold { IsHold (λ b answer n. C.line call seat.old.number b answer.0 n) self.old seat.old result self.new seat.new }
        ensures posts { seat.new.counts.posts ≡ seat.old.counts.posts }
        ensures known { IfOk result (λ r. IfSome r.1 (λ k. IsSearchOf self.new seat.old.number ticket k.version k.search)) }
    {
        let answer = self.hold(seat, call, false)?;
        let known = self.known(seat.number, ticket);
        Ok((answer, known))
    }

    /// The next trials of a ticket, and the search in which they are known to come next, if it is known.
    pub fn sheet(&mut self, seat: &mut Seat<L1, L2>, ticket: u64, most: usize) -> Given<L1, A>
        ensures hold { IsHold (λ b answer n. Sheets b seat.old.number ticket most (sheet_of answer.0) n) self.old seat.old result self.new seat.new }
        ensures posts { seat.new.counts.posts ≡ seat.old.counts.posts }
        ensures known { IfOk result (λ r. IfSome r.1 (λ k. IsKnownOf k.version k.search (sheet_of r.0))) }
    {
        self.hold_known(seat, ticket, AskSheet { ticket, most })
    }

    /// Claims a ticket, and gives its first trials as [`sheet`](Kept::sheet) does.
    pub fn claim_sheet(&mut self, seat: &mut Seat<L1, L2>, ticket: u64, most: usize) -> Taken<L1, A>
        ensures hold { IsHold (λ b answer n. ClaimsSheet b seat.old.number ticket most (claimed_of answer.0) n) self.old seat.old result self.new seat.new }
        ensures posts { seat.new.counts.posts ≡ seat.old.counts.posts }
        ensures known { IfOk result (λ r. IfSome r.1 (λ k. IfOk (claimed_of r.0) (IsKnownOf k.version k.search))) }
    {
        self.hold_known(seat, ticket, ClaimSheet { ticket, most })
    }

    /// Reports judgements, and makes the call that follows. Gives trials as [`sheet`](Kept::sheet) does.
    pub fn report_sheet(
        &mut self,
        seat: &mut Seat<L1, L2>,
        ticket: u64,
        judged: &KnownJudgements<L1, A>,
        most: usize,
    ) -> Result<(SheetReport<A>, Option<Known<L1, A>>), HoldFault>
        ensures hold { IsHold (λ b answer n. ReportsSheet b seat.old.number ticket most (judgements_of judged.now) answer.0.reported (following_of answer.0.following) n) self.old seat.old result self.new seat.new }
        ensures posts { seat.new.counts.posts ≡ seat.old.counts.posts }
        ensures known { IfOk result (λ r. IfSome r.1 (λ k. IsKnownAfter k.version k.search (following_of r.0.following))) }
    {
        let call = ReportSheet {
            ticket,
            judgements: &judged.judgements,
            known: self.known_now(judged),
            most,
        };
        let report = self.hold(seat, call, false)?;
        let known = self.known_after(seat.number, ticket, &report.following);
        Ok((report, known))
    }

    /// Marks a ticket stray.
    pub fn mark_stray(&mut self, ticket: u64) -> Result<(), MarkFault>
        ensures { MarksIn self.old ticket result self.new }
    {
        let Some(book) = &mut self.book else {
            return Err(MarkFault::NotWaiting(TicketState::Unknown));
        };
        read_headline(book);
        let answer = book.mark_stray(ticket);
        read_headline(book);
        answer
    }

    /// Takes the least ticket that is marked stray.
    pub fn take_stray(&mut self) -> Option<u64>
        ensures { TakesStrayIn self.old result self.new }
    {
        let Some(book) = &mut self.book else {
            return None;
        };
        read_headline(book);
        let taken = book.take_stray();
        read_headline(book);
        taken
    }

    /// The book, for a seat with the counts of what it has made. E26, and E24.
    pub fn book_for(&self, seat: &Seat<L1, L2>) -> Result<&Book<A>, HoldFault>
        ensures { IsReading (λ b book. book.now ≡ b) self.now seat.now result }
    {
        if !self.knows(seat) {
            return Err(HoldFault::WrongSeat);
        }
        let Some(book) = &self.book else {
            return Err(HoldFault::NoBook);
        };
        read_headline(book);
        Ok(book)
    }
}
