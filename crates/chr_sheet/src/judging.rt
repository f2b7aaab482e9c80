//! Judging the trials of a sheet.
ghost use Rattle.std.specs.Prelude.{◌≡◌, ◌≢◌, ◌<◌, ◌≤◌, ⊤, ◌++◌, length, take, Some, IfOk, IfSome, OnOk, MatchOption, IsTrue, slice_get};
ghost use Rattle.std.specs.List.{AllByRecursion};
ghost use Rattle.std.specs.Option.{option_copied};
ghost use Rattle.chr_search.specs.declared.judged.Verdict.TheVariants as verdicts;
ghost use Rattle.chr_search.specs.Judged.{IsSettledUnder};
ghost use Rattle.chr_sheet.specs.Columns.{column_trials};
ghost use Rattle.chr_sheet.specs.Kept.{judged_at, judged_in, trials_at, trials_in};
ghost use Rattle.chr_sheet.specs.Rows.{judgements_of, trials_of, AreMisfitsUpTo, AreRight, IsSettledAt, MustBeWhole};
ghost use Rattle.chr_sheet.specs.Sheets.{AreJudgedInOrder};

use crate::column::{Column, rule_of};
use crate::row::Row;
use crate::trials::Trials;
use chr_guard::{Binding, Settled};
use chr_search::{Fitted, Judged, Trial, Verdict, is_misfit_alone};
use std::alloc::{AllocError, Allocator};
use std::marker::Model;

/// What is told of each judgement.
pub trait Watch {
    /// Comes before each judgement.
    fn before_judging(&self);
}

/// Judgements of trials in order. The last one may be whole, and no other is: the trials of the others are kept in the vector
/// that they were read into.
#[derive(Drop)]
pub struct Judgements<A: Allocator> {
    others: Vec<Trials<A>, A>,
    whole: Option<Judged<A>>,
}

impl<A: Allocator> Model for Judgements<A> {
    ghost use Rattle.chr_rule.specs.Codes.{rule_codes};
    ghost use Rattle.chr_sheet.specs.Kept.{judged_in};
    ghost use Rattle.chr_sheet.specs.Rows.{JudgedSheet, IsJudgedSheet};

    ghost Value = { JudgedSheet };

    ghost coded = { Prim.hlevel rule_codes };

    ghost view = { λ j. record { others = judged_in j.others.items; whole = j.whole } };

    ghost invariant = { λ j. IsJudgedSheet (record { others = judged_in j.others.items; whole = j.whole }) };
}

impl<A: Allocator + Copy> Judgements<A> {
    /// Those that aren't whole, by their trials.
    pub fn others(&self) -> &[Trials<A>]
        ensures others { judged_in result.now ≡ self.now.others }
        ensures right { AreRight self.now.others }
        ensures other { AllByRecursion (λ j. j.verdict ≢ verdicts.Whole) self.now.others }
        ensures few { length (judgements_of self.now) < 18446744073709551616 }
    {
        &self.others
    }

    /// The last one, where it is whole.
    pub fn whole(&self) -> Option<&Judged<A>>
        ensures whole { option_copied result ≡ self.now.whole }
        ensures verdict { MatchOption self.now.whole ⊤ (λ w. w.verdict ≡ verdicts.Whole) }
    {
        self.whole.as_ref()
    }

    /// The last one alone, where it is whole.
    pub fn into_whole(self) -> Option<Judged<A>>
        ensures { result ≡ self.whole }
    {
        self.whole
    }

    /// How many of them aren't whole.
    pub(crate) fn count_others(&self) -> usize
        ensures { result ≡ length self.now.others }
    {
        let mut count = 0;
        for some in self.others() {
            count += some.len();
        }
        count
    }

    /// How many they are.
    pub fn len(&self) -> usize
        ensures { result ≡ length (judgements_of self.now) }
    {
        // For the proof: they can be counted.
        let _others = self.others();
        match self.whole() {
            None => self.count_others(),
            Some(_) => self.count_others() + 1,
        }
    }
}

impl<A: Allocator + Copy> Row<A> {
    /// How many of its trials are misfits, before the first that isn't, and what is kept of that one's binding, where there is
    /// memory for that.
    #[inline(always)]
    fn count_misfits<W: Watch>(&self, alloc: A, watch: &W) -> (usize, Option<Settled<A>>)
        ensures misfits { AreMisfitsUpTo (trials_of self.now) result.0 }
        ensures settled { IfSome result.1 (IsSettledAt (trials_of self.now) result.0) }
    {
        let mut binding = Binding::free(0);
        let Some(fitted) = Fitted::of(self.part(), &mut binding) else {
            for _ in self.lasts() {
                watch.before_judging();
            }
            return (self.lasts().len(), None);
        };
        for (i, last) in self.lasts().iter().enumerate() {
            watch.before_judging();
            if !fitted.is_misfit(&mut binding, last) {
                return (i, binding.settled(alloc).ok());
            }
        }
        (self.lasts().len(), None)
    }
}

impl<A: Allocator + Copy> Column<A> {
    /// How many of its trials are misfits, before the first that isn't, and what is kept of that one's binding, where there is
    /// memory for that.
    #[inline(always)]
    fn count_misfits<W: Watch>(&self, alloc: A, watch: &W) -> (usize, Option<Settled<A>>)
        ensures misfits { AreMisfitsUpTo (column_trials self.now) result.0 }
        ensures settled { IfSome result.1 (IsSettledAt (column_trials self.now) result.0) }
    {
        let first = self.first();
        let one = &first.placed()[0];
        let mut binding = Binding::free(0);
        watch.before_judging();
        if !is_misfit_alone(&mut binding, first.rule(), one.head, &one.atom) {
            return (0, binding.settled(alloc).ok());
        }
        let (program, more) = self.more();
        for (i, other) in more.iter().enumerate() {
            watch.before_judging();
            if !is_misfit_alone(
                &mut binding,
                rule_of(program, *other),
                other.head,
                &one.atom,
            ) {
                return (i + 1, binding.settled(alloc).ok());
            }
        }
        (more.len() + 1, None)
    }
}

/// Judges trials that are kept in one place, up to the first that is whole. Returns how many of them come before it, and what is
/// kept of its binding, where there is memory for that.
#[inline(always)]
fn judge_some<A: Allocator + Copy, W: Watch>(
    alloc: A,
    trials: &mut Trials<A>,
    watch: &W,
) -> (usize, Option<Settled<A>>)
    ensures same { trials_at trials.new ≡ trials_at trials.old }
    ensures few { result.0 ≤ length (trials_at trials.new) }
    ensures right { AreRight (take result.0 (judged_at trials.new)) }
    ensures next { MatchOption (slice_get (trials_at trials.new) result.0) ⊤ MustBeWhole }
    ensures settled { IfSome result.1 (IsSettledAt (trials_at trials.new) result.0) }
{
    match trials {
        Trials::One(single) => {
            watch.before_judging();
            match single.judge() {
                (Verdict::Whole, settled) => (0, settled),
                _ => (1, None),
            }
        }
        Trials::Row(row) => row.count_misfits(alloc, watch),
        Trials::Branch(row) => {
            // For the proof: the part is one, and a list can be counted.
            let _count = row.lasts().len();
            watch.before_judging();
            let (count, settled) = row.count_misfits(alloc, watch);
            (count + 1, settled)
        }
        Trials::Column(column) => column.count_misfits(alloc, watch),
    }
}

/// The judgement of a trial that is whole. It is judged once more where nothing is kept of its binding.
fn whole_of<A: Allocator + Copy>(trial: Trial<A>, settled: Option<Settled<A>>) -> Judged<A>
    requires whole { MustBeWhole trial }
    requires settled { IfSome settled (IsSettledUnder trial) }
    ensures trial { result.trial ≡ trial }
    ensures verdict { result.verdict ≡ verdicts.Whole }
{
    if let Some(settled) = settled {
        return Judged::whole(trial, settled);
    }
    let judged = chr_search::judge(trial);
    // For the proof: the verdict is the right one.
    let _right = judged.verdict();
    judged
}

/// Takes the trial after so many of these out, which is whole, and puts those before it after the others. Returns its judgement.
/// An `Err` is E01.
fn take_whole<A: Allocator + Copy>(
    alloc: A,
    trials: Trials<A>,
    count: usize,
    settled: Option<Settled<A>>,
    others: &mut Vec<Trials<A>, A>,
) -> Result<Judged<A>, AllocError>
    requires within { count < length (trials_at trials) }
    requires whole { MatchOption (slice_get (trials_at trials) count) ⊤ MustBeWhole }
    requires settled { IfSome settled (IsSettledAt (trials_at trials) count) }
    ensures others { OnOk result (judged_in others.new.items ≡ judged_in others.old.items ++ take count (judged_at trials)) }
    ensures trial { IfOk result (λ whole. slice_get (trials_at trials) count ≡ Some whole.trial) }
    ensures verdict { IfOk result (λ whole. whole.verdict ≡ verdicts.Whole) }
{
    let (before, trial) = trials.split_at(alloc, count)?;
    if let Some(before) = before {
        others.push(before)?;
    }
    Ok(whole_of(trial, settled))
}

/// Whether these trials can be counted, as those of any memory can.
fn can_count<A: Allocator + Copy>(sheet: &[Trials<A>]) -> bool
    ensures { IsTrue result → length (trials_in sheet.now) < 18446744073709551616 }
{
    let mut count = 0_usize;
    for trials in sheet {
        let Some(more) = count.checked_add(trials.len()) else {
            return false;
        };
        count = more;
    }
    true
}

/// Judges the trials of a sheet in order, up to the first that is whole. An `Err` is E01.
pub fn judge<A: Allocator + Copy, W: Watch>(
    alloc: A,
    sheet: Vec<Trials<A>, A>,
    watch: &W,
) -> Result<Judgements<A>, AllocError>
    ensures { IfOk result (λ judgements. AreJudgedInOrder (trials_in sheet.items) (judgements_of judgements)) }
{
    if !can_count(&sheet) {
        return Err(AllocError);
    }
    let mut others = sheet;
    let mut place = 0;
    while place < others.len() {
        let some = &mut others[place];
        let (count, settled) = judge_some(alloc, some, watch);
        if count < some.len() {
            others.truncate(place + 1);
            let Some(trials) = others.pop() else {
                unreachable!();
            };
            let whole = Some(take_whole(alloc, trials, count, settled, &mut others)?);
            return Ok(Judgements { others, whole });
        }
        place += 1;
    }
    Ok(Judgements {
        others,
        whole: None,
    })
}
