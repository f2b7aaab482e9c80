//! One trial, and a mark on it.
ghost use Rattle.std.specs.Prelude.{◌≡◌, ◌≢◌, false, IfSome};
ghost use Rattle.chr_search.specs.declared.judged.Verdict.TheVariants as verdicts;
ghost use Rattle.chr_search.specs.Judged.{IsVerdict, IsSettledUnder};
ghost use Rattle.chr_sheet.specs.Kept.{marked_verdict};

use chr_guard::Settled;
use chr_search::{Trial, Verdict, settled_on};
use std::alloc::Allocator;

/// One trial. A mark tells that it was judged to be a misfit; without the mark, a trial that was judged not to be whole is a
/// part.
#[derive(Drop)]
pub struct Single<A: Allocator> {
    trial: Trial<A>,
    is_misfit: bool,
}

impl<A: Allocator + Copy> Single<A> {
    /// A trial without the mark.
    pub(crate) fn of(trial: Trial<A>) -> Single<A>
        ensures { result ≡ record { trial = trial; is_misfit = false } }
    {
        Single {
            trial,
            is_misfit: false,
        }
    }

    /// The trial.
    pub fn trial(&self) -> &Trial<A>
        ensures { result.now ≡ self.now.trial }
    {
        &self.trial
    }

    /// The trial alone.
    pub(crate) fn into_trial(self) -> Trial<A>
        ensures { result ≡ self.trial }
    {
        self.trial
    }

    /// The verdict that the mark tells, where the trial was judged and isn't whole.
    pub(crate) fn verdict(&self) -> Verdict
        ensures verdict { result ≡ marked_verdict self.now.is_misfit }
        ensures other { result ≢ verdicts.Whole }
    {
        if self.is_misfit {
            Verdict::Misfit
        } else {
            Verdict::Part
        }
    }

    /// Judges the trial and marks it where it is a misfit. Returns the verdict, and what is kept of the binding where the trial
    /// is whole and there is memory for that.
    pub(crate) fn judge(&mut self) -> (Verdict, Option<Settled<A>>)
        ensures same { self.new.trial ≡ self.old.trial }
        ensures verdict { IsVerdict self.new.trial result.0 }
        ensures marked { result.0 ≢ verdicts.Whole → result.0 ≡ marked_verdict self.new.is_misfit }
        ensures settled { IfSome result.1 (IsSettledUnder self.new.trial) }
    {
        let (verdict, settled) = settled_on(&self.trial);
        self.is_misfit = verdict == Verdict::Misfit;
        (verdict, settled)
    }
}
