//! Trials that differ in their last label.
ghost use Rattle.std.specs.Prelude.{◌≡◌, ◌<◌, length, map, IfOk};
ghost use Rattle.chr_search.specs.Placed.{placed_as};
ghost use Rattle.chr_sheet.specs.Rows.{branch_trials, IsRow, IsCutAt};

use chr_search::{Placed, Trial};
use std::alloc::{AllocError, Allocator};
use std::marker::Model;

/// A part that one head is left of, and labels for that head, one at least. Each of them makes a trial that begins with the
/// part.
#[derive(Drop)]
pub struct Row<A: Allocator> {
    part: Trial<A>,
    lasts: Vec<Placed<A>, A>,
}

impl<A: Allocator> Model for Row<A> {
    ghost use Rattle.std.specs.Prelude.{map};
    ghost use Rattle.chr_rule.specs.Codes.{rule_codes};
    ghost use Rattle.chr_search.specs.Placed.{placed_as};
    ghost use Rattle.chr_sheet.specs.Rows.{Row, IsRow};

    ghost Value = { Row };

    ghost coded = { Prim.hlevel rule_codes };

    ghost view = { λ r. record { part = r.part; lasts = map placed_as r.lasts.items } };

    ghost invariant = { λ r. IsRow (record { part = r.part; lasts = map placed_as r.lasts.items }) };
}

impl<A: Allocator + Copy> Row<A> {
    /// The row of a part and labels.
    pub(crate) fn new(part: Trial<A>, lasts: Vec<Placed<A>, A>) -> Row<A>
        requires { IsRow (record { part = part; lasts = map placed_as lasts.items }) }
        ensures { result ≡ record { part = part; lasts = map placed_as lasts.items } }
    {
        Row { part, lasts }
    }

    /// The part that all begin with.
    pub fn part(&self) -> &Trial<A>
        ensures part { result.now ≡ self.now.part }
        ensures row { IsRow self.now }
    {
        &self.part
    }

    /// The labels that it has one more of.
    pub fn lasts(&self) -> &[Placed<A>]
        ensures lasts { map placed_as result.now ≡ self.now.lasts }
        ensures row { IsRow self.now }
    {
        &self.lasts
    }

    /// How many trials a branch of it has.
    pub(crate) fn count_with_part(&self) -> usize
        ensures { result ≡ length (branch_trials self.now) }
    {
        self.lasts().len() + 1
    }

    /// The part that all begin with, alone.
    pub(crate) fn into_part(self) -> Trial<A>
        ensures { result ≡ self.part }
    {
        self.part
    }

    /// The part that all begin with, the labels before one of them, and the trial of that one. An `Err` is E01.
    pub(crate) fn cut(
        self,
        alloc: A,
        index: usize,
    ) -> Result<(Trial<A>, Vec<Placed<A>, A>, Trial<A>), AllocError>
        requires { index < length self.lasts }
        ensures { IfOk result (λ made. IsCutAt self index made.0 (map placed_as made.1.items) made.2) }
    {
        let Row { part, mut lasts } = self;
        lasts.truncate(index + 1);
        let Some(last) = lasts.pop() else {
            unreachable!();
        };
        let trial = part.lengthened(alloc, last)?;
        Ok((part, lasts, trial))
    }
}
