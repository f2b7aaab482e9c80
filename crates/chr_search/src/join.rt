//! The partners of an active label at the heads of a plan.
ghost use Rattle.std.specs.Prelude.{◌≡◌, ◌↔◌, ℕ, ◌∷◌, ◌≤◌, [], length, MatchBool, MatchOption, IfSome, IsTrue};
ghost use Rattle.chr_guard.specs.Bindings.{Keeps, NarrowsIf};
ghost use Rattle.chr_rule.specs.Parts.{shape};
ghost use Rattle.chr_search.specs.Tree.{Least, NoneBeyond};
ghost use Rattle.chr_search.specs.Trials.{MayFollow, StandsAt};
ghost use Rattle.chr_search.specs.Partners.{HasPlan, IsReady, LengthenedIf, IsAskedFor, IsPartnerFrom, GivePartners, IsLastHead};
ghost use Rattle.chr_search.specs.Joined.{join_of};

use crate::position::set_alone;
use chr_guard::{Binding, fit_head};
use chr_log::Labels;
use chr_plan::Step;
use chr_rule::{Rule, RuleAtom};
use chr_store::{Label, Matches, View};
use chr_value::{Pred, ValueRef};
use std::alloc::Allocator;

/// A rule and a plan of it, and the view in which partners older than the active label are looked for.
#[derive(Drop)]
pub(crate) struct Join<'s, A: Allocator> {
    pub(crate) rule: &'s Rule<A>,
    pub(crate) order: &'s [Step],
    pub(crate) view: View<'s, A>,
}

/// Where a label stands that comes after others.
#[derive(Clone, Copy)]
pub(crate) struct LastHead<'s, A: Allocator> {
    pub(crate) head: &'s RuleAtom<A>,
    /// What the plan says of the head.
    pub(crate) step: Step,
    /// Whether no head is left then.
    pub(crate) is_last: bool,
}

/// The predicate of a head.
fn pred_of<A: Allocator>(head: &RuleAtom<A>) -> Pred
    ensures name { result.name.number ≡ (shape head.now).name }
    ensures arity { result.arity ≡ length (shape head.now).args }
{
    Pred {
        name: head.name,
        arity: head.terms.len() as u8,
    }
}

/// What is asked of a store for partners: a predicate, and perhaps a place and the value there.
#[derive(Clone, Copy)]
struct Asked<'v, A: Allocator> {
    pred: Pred,
    key: Option<(u8, ValueRef<'v, A>)>,
}

impl<'s, A: Allocator + Copy> Join<'s, A> {
    /// Extends a binding so that the step's head is the label's atom. False only where no valuation that extends it makes
    /// them equal, or the label has left the store.
    pub(crate) fn fit_at(&self, binding: &mut Binding<'s, A>, step: Step, label: Label) -> bool
        requires { length binding.old ≡ self.now.rule.now.variables }
        ensures narrows { NarrowsIf (λ v. StandsAt (join_of self.now) v step label) result binding.old binding.new }
        ensures keeps { Keeps binding.old binding.new }
    {
        let Some(head) = self.rule.head(usize::from(step.head)) else {
            return false;
        };
        let Some(atom) = self.view.get(label) else {
            return false;
        };
        fit_head(binding, head, atom)
    }

    /// What is asked of the store for the next label. None where none may be tried after these.
    #[inline(always)]
    fn asked(&self, labels: &[Label], binding: &Binding<'s, A>) -> Option<Asked<'s, A>>
        requires some { 1 ≤ length labels.now }
        requires plan { HasPlan (join_of self.now) }
        requires ready { IsReady (join_of self.now) labels.now binding.now }
        ensures { MatchOption result ((x : ℕ) → MayFollow (join_of self.now) labels.now x → ⊥) (IsAskedFor (join_of self.now) labels.now binding.now) }
    {
        let step = self.order.get(labels.len())?;
        let head = self.rule.head(usize::from(step.head))?;
        let pred = pred_of(head);
        let Some(place) = step.key else {
            return Some(Asked { pred, key: None });
        };
        let term = head.terms.get(usize::from(place) - 1)?;
        let value = binding.key(term)?;
        Some(Asked {
            pred,
            key: Some((place, value)),
        })
    }

    /// The least label from one on that may be tried after these labels.
    pub(crate) fn next_partner(
        &self,
        labels: &[Label],
        binding: &Binding<'s, A>,
        from: Label,
    ) -> Option<Label>
        requires some { 1 ≤ length labels.now }
        requires plan { HasPlan (join_of self.now) }
        requires ready { IsReady (join_of self.now) labels.now binding.now }
        ensures { IsPartnerFrom (join_of self.now) labels.now from result }
    {
        let asked = self.asked(labels, binding)?;
        let after = from.saturating_sub(1);
        self.view.next_at(asked.pred, asked.key, after)
    }

    /// Where a label stands that comes after these. None where no label may be tried after these.
    #[inline(always)]
    pub(crate) fn last_head(&self, labels: &[Label]) -> Option<LastHead<'s, A>>
        requires plan { HasPlan (join_of self.now) }
        ensures { MatchOption result ((x : ℕ) → MayFollow (join_of self.now) labels.now x → ⊥) (IsLastHead (join_of self.now) labels.now) }
    {
        let step = self.order.get(labels.len())?;
        let head = self.rule.head_at(usize::from(step.head));
        Some(LastHead {
            head,
            step: *step,
            is_last: self.order.len() <= labels.len() + 1,
        })
    }

    /// The labels among which are those that may be tried after these, to go through. None where the store keeps no index for
    /// them.
    #[inline(always)]
    pub(crate) fn partners(
        &self,
        at: LastHead<'s, A>,
        labels: &[Label],
        binding: &Binding<'s, A>,
    ) -> Option<Matches<'s>>
        requires some { 1 ≤ length labels.now }
        requires plan { HasPlan (join_of self.now) }
        requires ready { IsReady (join_of self.now) labels.now binding.now }
        requires at { IsLastHead (join_of self.now) labels.now at }
        ensures { IfSome result (GivePartners (join_of self.now) labels.now) }
    {
        // For the proof: the labels of a store are numbered from 1.
        let _given = self.view.active();
        let pred = pred_of(at.head);
        let key = match at.step.key {
            None => None,
            Some(place) => {
                let term = at.head.terms.get(usize::from(place) - 1)?;
                let value = binding.key(term)?;
                Some((place, value))
            }
        };
        self.view.matches(pred, key)
    }

    /// Adds the least partner from one on. False where there is none.
    fn push_next(&self, labels: &mut Labels, binding: &Binding<'s, A>, from: Label) -> bool
        requires some { 1 ≤ length labels.old.items }
        requires plan { HasPlan (join_of self.now) }
        requires ready { IsReady (join_of self.now) labels.old.items binding.now }
        ensures { LengthenedIf (join_of self.now) (from ∷ []) result labels.old.items labels.new.items }
    {
        let Some(label) = self.next_partner(labels.as_slice(), binding, from) else {
            return false;
        };
        labels.push(label);
        true
    }

    /// Adds partners up to the least labels at or after a place, which begins with a label. False where there are none. The
    /// binding becomes that of some of the labels.
    fn lengthen(
        &self,
        labels: &mut Labels,
        binding: &mut Binding<'s, A>,
        first: Label,
        below: &[Label],
    ) -> bool
        requires some { 1 ≤ length labels.old.items }
        requires plan { HasPlan (join_of self.now) }
        requires ready { IsReady (join_of self.now) labels.old.items binding.old }
        ensures found { LengthenedIf (join_of self.now) (first ∷ below.now) result labels.old.items labels.new.items }
        ensures keeps { Keeps binding.old binding.new }
    {
        let Some((next, rest)) = below.split_first() else {
            return self.push_next(labels, binding, first);
        };
        if first >= self.view.active() {
            return false;
        }
        let known = binding.known();
        if self.narrow_by(labels.as_slice(), binding, first) {
            labels.push(first);
            if self.lengthen(labels, binding, *next, rest) {
                return true;
            }
            labels.pop();
        }
        binding.return_to(known);
        self.push_next(labels, binding, first + 1)
    }

    /// Whether the active label is live and its atom has the predicate of the plan's first head.
    pub(crate) fn begins(&self) -> bool
        requires { HasPlan (join_of self.now) }
        ensures { IsTrue result ↔ MayFollow (join_of self.now) [] self.now.view.active }
    {
        let Some(step) = self.order.first() else {
            return false;
        };
        let Some(head) = self.rule.head(usize::from(step.head)) else {
            return false;
        };
        match self.view.get(self.view.active()) {
            None => false,
            Some(atom) => atom.pred() == pred_of(head),
        }
    }

    /// Adds to the active label partners up to the least labels at or after a place. False where there are none.
    fn lengthen_active(&self, labels: &mut Labels, place: &[Label]) -> bool
        requires begins { MayFollow (join_of self.now) [] self.now.view.active }
        requires plan { HasPlan (join_of self.now) }
        requires active { labels.old.items ≡ self.now.view.active ∷ [] }
        ensures { MatchBool result (Least (MayFollow (join_of self.now)) 1 [] place.now labels.new.items) (NoneBeyond (MayFollow (join_of self.now)) 1 [] place.now) }
    {
        let Some((first, below)) = place.split_first() else {
            return true;
        };
        let active = self.view.active();
        if *first != active {
            return *first < active;
        }
        let Some((next, rest)) = below.split_first() else {
            return true;
        };
        let mut binding = Binding::free(self.rule.variables());
        if !self.narrow_by(&[], &mut binding, active) {
            return false;
        }
        self.lengthen(labels, &mut binding, *next, rest)
    }

    /// Makes labels the least ones at or after a place: the active one at the plan's first head, and partners. False where
    /// there are none.
    pub(crate) fn find(&self, place: &[Label], labels: &mut Labels) -> bool
        requires { HasPlan (join_of self.now) }
        ensures { MatchBool result (Least (MayFollow (join_of self.now)) 1 [] place.now labels.new.items) (NoneBeyond (MayFollow (join_of self.now)) 1 [] place.now) }
    {
        if !self.begins() {
            return false;
        }
        set_alone(labels, self.view.active());
        self.lengthen_active(labels, place)
    }
}
