//! Trials that are known to come next in a version of a book.
ghost use Rattle.std.specs.Prelude.{◌≡◌, IfOk, IfSome};
ghost use Rattle.chr_sheet.specs.Kept.{trials_in};
ghost use Rattle.chr_sheet.specs.Rows.{judgements_of};
ghost use Rattle.chr_sheet.specs.Sheets.{AreJudgedInOrder};
ghost use Rattle.chr_seats.specs.Versions.{AreKnownNext};

use crate::answers::HoldFault;
use crate::seat::PostLedger;
use chr_book::Book;
use chr_calls::{ClaimFault, Sheet, TurnFault};
use chr_search::{Judged, Search};
use chr_sheet::{Judgements, Trials, Watch, judge};
use chr_versions::Version;
use std::alloc::{AllocError, Allocator};
use std::marker::Model;

/// A search, and the version of the book through which it looks.
#[derive(Drop)]
pub struct Known<L1: PostLedger, A: Allocator> {
    pub(crate) version: Version<L1, Book<A>>,
    pub(crate) search: Search,
}

/// What a ticket's next trials are given as, with the search in which they are known to come next, if it is known.
pub type Given<L1, A> = Result<(Result<Sheet<A>, TurnFault>, Option<Known<L1, A>>), HoldFault>;

/// What a claim with its ticket's first trials is given as, with that search.
pub type Taken<L1, A> = Result<
    (
        Result<Result<Sheet<A>, TurnFault>, ClaimFault>,
        Option<Known<L1, A>>,
    ),
    HoldFault,
>;

/// Trials of a sheet, and perhaps a search in which they are known to come next. Contracts see the trials.
#[derive(Drop)]
pub struct KnownTrials<L1: PostLedger, A: Allocator> {
    trials: Vec<Trials<A>, A>,
    known: Option<Known<L1, A>>,
}

impl<L1: PostLedger, A: Allocator> Model for KnownTrials<L1, A> {
    ghost use Rattle.std.specs.Prelude.{List, IfSome};
    ghost use Rattle.chr_rule.specs.Codes.{rule_codes};
    ghost use Rattle.chr_search.specs.Verdicts.{Trial};
    ghost use Rattle.chr_sheet.specs.Kept.{trials_in};
    ghost use Rattle.chr_seats.specs.Versions.{AreKnownNext};

    ghost Value = { List Trial };

    ghost coded = { Prim.hlevel rule_codes };

    ghost view = { λ k. trials_in k.trials.items };

    ghost invariant = { λ k. IfSome k.known (λ known. AreKnownNext known.version known.search (trials_in k.trials.items)) };
}

/// Judgements of trials, and perhaps a search in which these are known to come next. Contracts see the judgements.
#[derive(Drop)]
pub struct KnownJudgements<L1: PostLedger, A: Allocator> {
    pub(crate) judgements: Judgements<A>,
    pub(crate) known: Option<Known<L1, A>>,
}

impl<L1: PostLedger, A: Allocator> Model for KnownJudgements<L1, A> {
    ghost use Rattle.std.specs.Prelude.{IfSome, map};
    ghost use Rattle.chr_rule.specs.Codes.{rule_codes};
    ghost use Rattle.chr_sheet.specs.Rows.{JudgedSheet, judgements_of};
    ghost use Rattle.chr_seats.specs.Versions.{AreKnownNext};

    ghost Value = { JudgedSheet };

    ghost coded = { Prim.hlevel rule_codes };

    ghost view = { λ k. k.judgements };

    ghost invariant = { λ k. IfSome k.known (λ known. AreKnownNext known.version known.search (map (λ j. j.trial) (judgements_of k.judgements))) };
}

impl<L1: PostLedger, A: Allocator + Copy> KnownTrials<L1, A> {
    /// Trials, and perhaps a search in which they come next.
    pub fn of(trials: Vec<Trials<A>, A>, known: Option<Known<L1, A>>) -> KnownTrials<L1, A>
        requires { IfSome known (λ k. AreKnownNext k.version k.search (trials_in trials.items)) }
        ensures { result ≡ trials_in trials.items }
    {
        KnownTrials { trials, known }
    }

    /// Judges them in order, up to the first that is whole. An `Err` is E01.
    pub fn judge<W: Watch>(self, alloc: A, watch: &W) -> Result<KnownJudgements<L1, A>, AllocError>
        ensures { IfOk result (λ judged. AreJudgedInOrder self (judgements_of judged)) }
    {
        let KnownTrials { trials, known } = self;
        let judgements = judge(alloc, trials, watch)?;
        Ok(KnownJudgements { judgements, known })
    }
}

impl<L1: PostLedger, A: Allocator + Copy> KnownJudgements<L1, A> {
    /// The judgements.
    pub fn judgements(&self) -> &Judgements<A>
        ensures { result.now ≡ self.now }
    {
        &self.judgements
    }

    /// The last one alone, where it is whole.
    pub fn into_whole(self) -> Option<Judged<A>>
        ensures { result ≡ self.whole }
    {
        self.judgements.into_whole()
    }
}
