//! What a search has found to be whole.
ghost use Rattle.std.specs.Prelude.{◌≡◌, ◌≤◌, ◌+◌, ◌++◌, length};
ghost use Rattle.chr_search.specs.Joined.{join_of};
ghost use Rattle.chr_search.specs.Passing.{IsTrialIn};
ghost use Rattle.chr_search.specs.PlanByPlan.{IsWholeAt};
ghost use Rattle.chr_search.specs.Verdicts.{Trial as TrialView, kept_labels, removed_labels};

use crate::at_heads::{put_at_heads, resize};
use crate::join::Join;
use crate::search::Search;
use crate::trial::Trial;
use crate::walk::Walk;
use chr_log::Labels;
use chr_store::Label;
use std::alloc::Allocator;
use std::marker::Model;

/// A trial that a search has found to be whole.
#[derive(Drop)]
pub struct Whole {
    /// The labels at the heads, in head order: the kept ones first.
    labels: Labels,
    /// How many of the labels are at kept heads.
    kept: usize,
    past: Search,
    number: u16,
}

impl Model for Whole {
    ghost use Rattle.std.specs.Prelude.{◌≤◌, length, take, drop};
    ghost use Rattle.chr_search.specs.Wholes.{WholeTrial};

    ghost Value = { WholeTrial };

    ghost view = { λ w. record { kept = take w.kept w.labels.items; removed = drop w.kept w.labels.items; past = w.past; number = w.number } };

    ghost invariant = { λ w. w.kept ≤ length w.labels.items };
}

impl Whole {
    /// One of no labels. It takes no memory.
    pub(crate) fn none() -> Whole {
        Whole {
            labels: Labels::new(),
            kept: 0,
            past: Search::begin(0),
            number: 1,
        }
    }

    /// That of a trial with a label at each head, and the search past it.
    pub fn of<A: Allocator + Copy>(trial: &Trial<A>, past: Search) -> Whole
        ensures { result ≡ record { kept = kept_labels trial.now; removed = removed_labels trial.now; past = past; number = trial.now.number } }
    {
        Whole {
            labels: trial.labels_at_heads(),
            kept: trial.rule().kept().len(),
            past,
            number: trial.number(),
        }
    }

    /// The labels at its heads, in head order: the kept ones first.
    #[inline(always)]
    pub fn labels(&self) -> &Labels
        ensures { result.now.items ≡ self.now.kept ++ self.now.removed }
    {
        &self.labels
    }

    /// How many of its labels are at kept heads.
    #[inline(always)]
    pub fn kept(&self) -> usize
        ensures { result ≡ length self.now.kept }
    {
        self.kept
    }

    /// The labels at its removed heads, in head order.
    #[inline(always)]
    pub fn removed(&self) -> &[Label]
        ensures { result.now ≡ self.now.removed }
    {
        &self.labels.as_slice()[self.kept..]
    }

    /// The search past it. Where its label is one of those removed, how far its trials are ruled out is left open.
    #[inline(always)]
    pub fn past(&self) -> &Search
        ensures { result.now ≡ self.now.past }
    {
        &self.past
    }

    /// The number of its rule in the program.
    #[inline(always)]
    pub fn number(&self) -> u16
        ensures { result ≡ self.now.number }
    {
        self.number
    }

    /// Becomes that of the labels of a trial, one for each head, by the rule and the head at which a walk stands.
    #[inline(always)]
    pub(crate) fn set<A: Allocator + Copy>(
        &mut self,
        join: &Join<'_, A>,
        walk: &Walk<'_>,
        labels: &[Label],
    )
        requires rule { 1 ≤ walk.now.rule }
        requires head { 1 ≤ walk.now.head }
        requires trial { (t : TrialView) × IsTrialIn (join_of join.now) labels.now t }
        requires full { length labels.now ≡ length join.now.rule.now.kept + length join.now.rule.now.removed }
        ensures { IsWholeAt (join_of join.now) walk.now.rule walk.now.head labels.now self.new }
    {
        self.number = walk.rule;
        self.kept = join.rule.kept().len();
        resize(&mut self.labels, labels.len());
        put_at_heads(self.labels.as_mut_slice(), join, labels);
        self.past.set_past(join, walk, labels);
    }
}
