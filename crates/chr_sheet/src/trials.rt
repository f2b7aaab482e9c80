//! Trials that come one after another.
ghost use Rattle.std.specs.Prelude.{◌≡◌, ◌<◌, ◌≤◌, List, ◌∷◌, length, Some, IfOk, slice_get};
ghost use Rattle.chr_search.specs.Verdicts.{Trial as TrialView};
ghost use Rattle.chr_sheet.specs.declared.trials.Trials.TheVariants as some;
ghost use Rattle.chr_sheet.specs.Beside.{last_of};
ghost use Rattle.chr_sheet.specs.Columns.{column_trials};
ghost use Rattle.chr_sheet.specs.Kept.{trials_at, IsKeptBefore};
ghost use Rattle.chr_sheet.specs.Rows.{branch_trials};

use crate::column::Column;
use crate::row::Row;
use crate::single::Single;
use chr_search::Trial;
use std::alloc::{AllocError, Allocator};

/// Trials that come one after another.
#[derive(Drop)]
pub enum Trials<A: Allocator> {
    /// One trial.
    One(Single<A>),
    /// Several that differ in their last label.
    Row(Row<A>),
    /// A part, and then those that differ in their last label and begin with it.
    Branch(Row<A>),
    /// Several of the active label alone, at rules of one head.
    Column(Column<A>),
}

/// What is kept before a trial, where there are any before it, and that trial.
type Split<A> = (Option<Trials<A>>, Trial<A>);

impl<A: Allocator + Copy> Row<A> {
    /// What is kept of a row before one of its trials, where there are any, and that one. An `Err` is E01.
    fn split_row(self, alloc: A, index: usize) -> Result<Split<A>, AllocError>
        requires { index < length self.lasts }
        ensures { IfOk result (λ made. IsKeptBefore (some.Row self) index made.0 made.1) }
    {
        let (part, before, trial) = self.cut(alloc, index)?;
        if before.is_empty() {
            return Ok((None, trial));
        }
        Ok((Some(Trials::Row(Row::new(part, before))), trial))
    }

    /// What is kept of a branch before one of its trials, where there are any, and that one. An `Err` is E01.
    fn split_branch(self, alloc: A, index: usize) -> Result<Split<A>, AllocError>
        requires { index < length (branch_trials self) }
        ensures { IfOk result (λ made. IsKeptBefore (some.Branch self) index made.0 made.1) }
    {
        if index == 0 {
            return Ok((None, self.into_part()));
        }
        let (part, before, trial) = self.cut(alloc, index - 1)?;
        if before.is_empty() {
            return Ok((Some(Trials::One(Single::of(part))), trial));
        }
        Ok((Some(Trials::Branch(Row::new(part, before))), trial))
    }
}

impl<A: Allocator + Copy> Column<A> {
    /// What is kept of a column before one of its trials, where there are any, and that one. An `Err` is E01.
    fn split_column(self, alloc: A, index: usize) -> Result<Split<A>, AllocError>
        requires { index < length (column_trials self) }
        ensures { IfOk result (λ made. IsKeptBefore (some.Column self) index made.0 made.1) }
    {
        let (before, trial) = self.split_at(alloc, index)?;
        match before {
            None => Ok((None, trial)),
            Some(before) => Ok((Some(Trials::Column(before)), trial)),
        }
    }
}

/// The number of a trial's rule, and its head's.
fn head_of_trial<A: Allocator + Copy>(trial: &Trial<A>) -> (u16, u8)
    ensures is { (result.0 ≡ trial.now.number) × (result.1 ≡ trial.now.head) }
    ensures low { (1 ≤ result.0) × (1 ≤ result.1) }
{
    // For the proof: what holds of every trial.
    let _placed = trial.placed();
    (trial.number(), trial.head())
}

impl<A: Allocator + Copy> Trials<A> {
    /// How many they are.
    pub(crate) fn len(&self) -> usize
        ensures count { result ≡ length (trials_at self.now) }
        ensures some { 1 ≤ result }
    {
        match self {
            Trials::One(_) => 1,
            Trials::Row(row) => row.lasts().len(),
            Trials::Branch(row) => row.count_with_part(),
            Trials::Column(column) => column.len(),
        }
    }

    /// The number of the last one's rule, and its head's.
    pub(crate) fn last_head(&self) -> (u16, u8)
        ensures is { (t : TrialView) (more : List TrialView) → trials_at self.now ≡ t ∷ more → let last = last_of t more in (result.0 ≡ last.number) × (result.1 ≡ last.head) }
        ensures low { (1 ≤ result.0) × (1 ≤ result.1) }
    {
        match self {
            Trials::One(single) => head_of_trial(single.trial()),
            Trials::Row(row) => head_of_trial(row.part()),
            Trials::Branch(row) => head_of_trial(row.part()),
            Trials::Column(column) => column.last(),
        }
    }

    /// A copy of the first of them. An `Err` is E01.
    pub fn first(&self, alloc: A) -> Result<Trial<A>, AllocError>
        ensures { IfOk result (λ first. slice_get (trials_at self.now) 0 ≡ Some first) }
    {
        match self {
            Trials::One(single) => single.trial().copy(alloc),
            Trials::Branch(row) => row.part().copy(alloc),
            Trials::Column(column) => column.first().copy(alloc),
            Trials::Row(row) => row.part().lengthened(alloc, row.lasts()[0].copy(alloc)?),
        }
    }

    /// What is kept of them before one of them, where there are any, and that one. An `Err` is E01.
    pub(crate) fn split_at(self, alloc: A, index: usize) -> Result<Split<A>, AllocError>
        requires { index < length (trials_at self) }
        ensures { IfOk result (λ made. IsKeptBefore self index made.0 made.1) }
    {
        match self {
            Trials::One(single) => Ok((None, single.into_trial())),
            Trials::Row(row) => row.split_row(alloc, index),
            Trials::Branch(row) => row.split_branch(alloc, index),
            Trials::Column(column) => column.split_column(alloc, index),
        }
    }
}
