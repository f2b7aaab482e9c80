//! Judging trials.
ghost use Rattle.std.specs.Prelude.{◌≡◌, ◌==◌, ◌↔◌, IsTrue, None, length, map, replicate, IfSome, MatchOption};
ghost use Rattle.std.specs.List.{list_any};
ghost use Rattle.chr_guard.specs.Bindings.{NarrowsIf};
ghost use Rattle.chr_guard.specs.Matching.{AreAtHeads, IsFit};
ghost use Rattle.chr_model.specs.Stores.{Distinct};
ghost use Rattle.chr_plan.specs.Orders.{heads_of};
ghost use Rattle.chr_search.specs.declared.judged.Verdict.TheVariants as verdicts;
ghost use Rattle.chr_search.specs.Judged.{IsVerdict, IsSettledUnder};
ghost use Rattle.chr_search.specs.Verdicts.{IsWhole, IsWholeUnder, labels, at_heads};

use crate::trial::{Placed, Trial};
use chr_guard::instance::becomes_instance;
use chr_guard::{Binding, Settled, fit_head};
use chr_rule::Rule;
use chr_store::Label;
use std::alloc::Allocator;
use std::marker::Model;

/// What a trial is found to be.
#[derive(Clone, Copy, Debug, PartialEq, Eq)]
pub enum Verdict {
    /// Two of its labels are equal, or its heads don't fit; or all heads are tried, and the guard doesn't hold or the body
    /// has no values.
    Misfit,
    /// Its labels are distinct and its heads fit, and heads are left.
    Part,
    /// It is an instance of its rule.
    Whole,
}

/// A trial with the verdict on it, which is always the right one for its own rule, labels and atoms.
#[derive(Drop)]
pub struct Judged<A: Allocator> {
    trial: Trial<A>,
    verdict: Verdict,
    /// What is kept of the instance's binding, where the trial is whole and there was memory for it.
    settled: Option<Settled<A>>,
}

impl<A: Allocator> Model for Judged<A> {
    ghost use Rattle.std.specs.Prelude.{IfSome};
    ghost use Rattle.chr_rule.specs.Codes.{rule_codes};
    ghost use Rattle.chr_search.specs.Judged.{Judgement, IsVerdict, IsSettledUnder};

    ghost Value = { Judgement };

    ghost coded = { Prim.hlevel rule_codes };

    ghost view = { λ j. record { trial = j.trial; verdict = j.verdict } };

    ghost invariant = { λ j. IsVerdict j.trial j.verdict × IfSome j.settled (IsSettledUnder j.trial) };
}

impl<A: Allocator + Copy> Judged<A> {
    /// The trial.
    pub fn trial(&self) -> &Trial<A>
        ensures { result.now ≡ self.now.trial }
    {
        &self.trial
    }

    /// The verdict.
    pub fn verdict(&self) -> Verdict
        ensures verdict { result ≡ self.now.verdict }
        ensures right { IsVerdict self.now.trial self.now.verdict }
    {
        self.verdict
    }

    /// The one binding of all variables of the instance that a whole trial is. None unless the verdict is
    /// [`Verdict::Whole`]. It takes no memory. The trial is judged once more where a compound value stands in the binding, or
    /// where there was no memory to keep it.
    #[inline(always)]
    pub fn binding(&self) -> Option<Binding<'_, A>>
        ensures { MatchOption result (IsWhole self.now.trial → ⊥) (IsWholeUnder self.now.trial) }
    {
        if self.verdict != Verdict::Whole {
            return None;
        }
        if let Some(settled) = &self.settled {
            if let Some(binding) = settled.plain() {
                return Some(binding);
            }
        }
        let mut binding = Binding::free(self.trial.rule().variables());
        if judge_by(&self.trial, &mut binding) != Verdict::Whole {
            unreachable!();
        }
        Some(binding)
    }

    /// The judgement of a trial that is whole, of whose instance's binding this is kept.
    pub fn whole(trial: Trial<A>, settled: Settled<A>) -> Judged<A>
        requires { IsSettledUnder trial settled }
        ensures trial { result.trial ≡ trial }
        ensures verdict { result.verdict ≡ verdicts.Whole }
    {
        Judged {
            trial,
            verdict: Verdict::Whole,
            settled: Some(settled),
        }
    }

    /// The trial alone.
    pub fn into_trial(self) -> Trial<A>
        ensures { result ≡ self.trial }
    {
        self.trial
    }
}

/// Whether one of these has the label.
pub(crate) fn has_label<A: Allocator>(placed: &[Placed<A>], label: Label) -> bool
    ensures { result ≡ list_any (λ p. p.label == label) placed.now }
{
    placed.iter().any(|other| other.label == label)
}

/// Whether no label stands twice.
pub(crate) fn are_distinct<A: Allocator>(placed: &[Placed<A>]) -> bool
    ensures { IsTrue result ↔ Distinct (map (λ p. p.label) placed.now) }
{
    match placed.split_first() {
        None => true,
        Some((first, rest)) => !has_label(rest, first.label) && are_distinct(rest),
    }
}

/// Extends a binding so that the heads are the atoms. False only where no valuation that extends it makes them so.
pub(crate) fn fit_placed<'v, A: Allocator + Copy>(
    binding: &mut Binding<'v, A>,
    rule: &Rule<A>,
    placed: &'v [Placed<A>],
) -> bool
    requires { length binding.old ≡ rule.now.variables }
    ensures { let places = map (λ p. (p.head, p.atom)) placed.now in NarrowsIf (AreAtHeads rule.now places) result binding.old binding.new }
{
    for one in placed {
        let Some(head) = rule.head(usize::from(one.head)) else {
            return false;
        };
        if !fit_head(binding, head, &one.atom) {
            return false;
        }
    }
    true
}

/// Judges a trial by a free binding. Where it is whole, that becomes the one of all variables of the instance.
fn judge_by<'v, A: Allocator + Copy>(trial: &'v Trial<A>, binding: &mut Binding<'v, A>) -> Verdict
    requires { binding.old ≡ replicate trial.now.rule.variables None }
    ensures verdict { IsVerdict trial.now result }
    ensures whole { result ≡ verdicts.Whole → IsWholeUnder trial.now binding.new }
{
    let rule = trial.rule();
    let placed = trial.placed();
    if !are_distinct(placed) || !fit_placed(binding, rule, placed) {
        return Verdict::Misfit;
    }
    if placed.len() < rule.heads() {
        return Verdict::Part;
    }
    if becomes_instance(rule, rule.guard(), binding) {
        Verdict::Whole
    } else {
        Verdict::Misfit
    }
}

/// The verdict on a trial, and what is kept of the binding of all variables where it is whole and there is memory for that.
pub fn settled_on<A: Allocator + Copy>(trial: &Trial<A>) -> (Verdict, Option<Settled<A>>)
    ensures verdict { IsVerdict trial.now result.0 }
    ensures settled { IfSome result.1 (IsSettledUnder trial.now) }
{
    let mut binding = Binding::free(trial.rule().variables());
    let verdict = judge_by(trial, &mut binding);
    if verdict != Verdict::Whole {
        return (verdict, None);
    }
    (verdict, binding.settled(trial.allocator()).ok())
}

/// Judges a trial. Where there is no memory to keep a whole trial's binding, that is found again when it is asked for.
pub fn judge<A: Allocator + Copy>(trial: Trial<A>) -> Judged<A>
    ensures { result.trial ≡ trial }
{
    let (verdict, settled) = settled_on(&trial);
    Judged {
        trial,
        verdict,
        settled,
    }
}
