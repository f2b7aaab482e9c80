//! The calls that are made in holds.
ghost use Rattle.std.specs.Prelude.{⊤, ℕ, Bool, true, false, IfSome};
ghost use Rattle.chr_calls.specs.Books.{BookState};
ghost use Rattle.chr_calls.specs.Batches.{ClaimsSheet, ReportsBatch, ReportsSheet, Sheets, claimed_of, following_of, report_of, sheet_of};
ghost use Rattle.chr_sheet.specs.Rows.{judgements_of};
ghost use Rattle.chr_calls.specs.Calls.{Claims, FiresOrMisses, Drops, PutsDown};
ghost use Rattle.chr_book.specs.Given.{AreNextIn};
ghost use Rattle.chr_book.specs.Texts.{PostsText};
ghost use Rattle.chr_seats.specs.Holds.{GoesOn};

use chr_book::{Book, Posted};
use chr_calls::{
    BatchReport, ClaimFault, DropFault, Dropping, FireFault, Firing, PutDownFault, Sheet,
    SheetReport, TurnFault,
};
use chr_lex::fault::ReadError;
use chr_search::{Judged, Search};
use chr_sheet::Judgements;
use chr_store::Label;
use std::alloc::Allocator;

/// A call of a book by a seat, which adds posts alone to the log, or other entries alone.
pub trait Call<A: Allocator + Copy, X> {
    /// The line of the call in the table: from a seat and a book to the answer and the book after it.
    ghost line: { Self → ℕ → BookState → X → BookState → Type 0 };

    /// Whether it adds posts. Most calls add none.
    ghost posts: { Bool } = { false };

    /// What must hold of the book. Most calls need nothing.
    ghost needs: { Self → BookState → Type 0 } = { λ c b. ⊤ };

    /// Makes the call.
    fn make(self, book: &mut Book<A>, seat: u32) -> X
        requires { needs self book.old }
        ensures line { line self seat book.old result book.new }
        ensures goes_on { GoesOn posts seat book.old book.new };
}

/// [`claim`](Book::claim) with these arguments.
#[derive(Drop)]
pub struct Claim {
    pub ticket: u64,
}

impl<A: Allocator + Copy> Call<A, Result<Label, ClaimFault>> for Claim {
    ghost line = { λ c seat b answer n. Claims b seat c.ticket answer n };

    #[tactic(auto, using(crate::proofs::Lines::claims_go_on))]
    fn make(self, book: &mut Book<A>, seat: u32) -> Result<Label, ClaimFault> {
        book.claim(seat, self.ticket)
    }
}

/// [`sheet`](Book::sheet) with these arguments.
#[derive(Drop)]
pub struct AskSheet {
    pub ticket: u64,
    pub most: usize,
}

impl<A: Allocator + Copy> Call<A, Result<Sheet<A>, TurnFault>> for AskSheet {
    ghost line = { λ c seat b answer n. Sheets b seat c.ticket c.most (sheet_of answer) n };

    #[tactic(auto, using(crate::proofs::Lines::gives_go_on))]
    fn make(self, book: &mut Book<A>, seat: u32) -> Result<Sheet<A>, TurnFault> {
        book.sheet(seat, self.ticket, self.most)
    }
}

/// [`claim_sheet`](Book::claim_sheet) with these arguments.
#[derive(Drop)]
pub struct ClaimSheet {
    pub ticket: u64,
    pub most: usize,
}

impl<A: Allocator + Copy> Call<A, Result<Result<Sheet<A>, TurnFault>, ClaimFault>> for ClaimSheet {
    ghost line = { λ c seat b answer n. ClaimsSheet b seat c.ticket c.most (claimed_of answer) n };

    #[tactic(auto, using(crate::proofs::Lines::claims_sheet_goes_on))]
    fn make(
        self,
        book: &mut Book<A>,
        seat: u32,
    ) -> Result<Result<Sheet<A>, TurnFault>, ClaimFault> {
        book.claim_sheet(seat, self.ticket, self.most)
    }
}

/// [`report_sheet`](Book::report_sheet) with these arguments.
#[derive(Drop)]
pub struct ReportSheet<'a, A: Allocator> {
    pub ticket: u64,
    pub judgements: &'a Judgements<A>,
    pub known: Option<&'a Search>,
    pub most: usize,
}

impl<'a, A: Allocator + Copy> Call<A, SheetReport<A>> for ReportSheet<'a, A> {
    ghost line = { λ c seat b answer n. ReportsSheet b seat c.ticket c.most (judgements_of c.judgements.now) answer.reported (following_of answer.following) n };

    ghost needs = { λ c b. IfSome c.known (λ search. AreNextIn b search.now (judgements_of c.judgements.now)) };

    fn make(self, book: &mut Book<A>, seat: u32) -> SheetReport<A> {
        book.report_sheet(seat, self.ticket, self.judgements, self.known, self.most)
    }
}

/// [`report_all`](Book::report_all) with these arguments.
#[derive(Drop)]
pub struct ReportAll<'a, A: Allocator> {
    pub ticket: u64,
    pub judgements: &'a Judgements<A>,
}

impl<'a, A: Allocator + Copy> Call<A, BatchReport<A>> for ReportAll<'a, A> {
    ghost line = { λ c seat b answer n. ReportsBatch b seat c.ticket (judgements_of c.judgements.now) (report_of answer) n };

    fn make(self, book: &mut Book<A>, seat: u32) -> BatchReport<A> {
        book.report_all(seat, self.ticket, self.judgements)
    }
}

/// [`fire`](Book::fire) with these arguments.
#[derive(Drop)]
pub struct Fire<'a, A: Allocator> {
    pub ticket: u64,
    pub judged: &'a Judged<A>,
}

impl<'a, A: Allocator + Copy> Call<A, Result<Firing, FireFault>> for Fire<'a, A> {
    ghost line = { λ c seat b answer n. FiresOrMisses b seat c.ticket c.judged.now answer n };

    #[tactic(auto, using(crate::proofs::Lines::fires_go_on))]
    fn make(self, book: &mut Book<A>, seat: u32) -> Result<Firing, FireFault> {
        book.fire(seat, self.ticket, self.judged)
    }
}

/// [`drop_goal`](Book::drop_goal) with these arguments.
#[derive(Drop)]
pub struct DropGoal {
    pub ticket: u64,
}

impl<A: Allocator + Copy> Call<A, Result<Dropping, DropFault>> for DropGoal {
    ghost line = { λ c seat b answer n. Drops b seat c.ticket answer n };

    #[tactic(auto, using(crate::proofs::Lines::drops_go_on))]
    fn make(self, book: &mut Book<A>, seat: u32) -> Result<Dropping, DropFault> {
        book.drop_goal(seat, self.ticket)
    }
}

/// [`put_down`](Book::put_down) with these arguments.
#[derive(Drop)]
pub struct PutDown {
    pub ticket: u64,
}

impl<A: Allocator + Copy> Call<A, Result<(), PutDownFault>> for PutDown {
    ghost line = { λ c seat b answer n. PutsDown b seat c.ticket answer n };

    fn make(self, book: &mut Book<A>, seat: u32) -> Result<(), PutDownFault> {
        book.put_down(seat, self.ticket)
    }
}

/// [`post_text`](Book::post_text) with these arguments.
#[derive(Drop)]
pub struct PostText<'a> {
    pub bytes: &'a [u8],
}

impl<'a, A: Allocator + Copy> Call<A, Result<Posted, ReadError>> for PostText<'a> {
    ghost line = { λ c seat b answer n. PostsText b seat c.bytes.now answer n };

    ghost posts = { true };

    #[tactic(auto, using(crate::proofs::Lines::text_goes_on))]
    fn make(self, book: &mut Book<A>, seat: u32) -> Result<Posted, ReadError> {
        book.post_text(seat, self.bytes)
    }
}
