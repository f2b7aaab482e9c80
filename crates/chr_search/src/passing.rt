//! Trials in the store that are judged without being made.
ghost use Rattle.std.specs.Prelude.{◌≡◌, ◌↔◌, ◌==◌, ◌≤◌, ◌<◌, ◌+◌, ◌^◌, ◌∷◌, ◌++◌, [], ℕ, false, max, List, length, drop, Some, IfSome, MatchOption, IsTrue};
ghost use Rattle.std.specs.List.{list_any};
ghost use Rattle.std.specs.Option.{option_map};
ghost use Rattle.chr_value.specs.Stores.{atom_at};
ghost use Rattle.chr_guard.specs.Bindings.{Keeps};
ghost use Rattle.chr_search.specs.declared.passing.End.TheVariants as ends;
ghost use Rattle.chr_search.specs.declared.passing.Stop.TheVariants as stops;
ghost use Rattle.chr_search.specs.Joined.{join_of};
ghost use Rattle.chr_search.specs.Partners.{HasPlan, IsReady, IsPartnerFrom, IsLastHead};
ghost use Rattle.chr_search.specs.Positions.{at_or_after};
ghost use Rattle.chr_search.specs.Passing.{IsTrialIn, BeginsTrials, AreMisfits, IsCounted, PassesPlan, IsLevel, IsNarrowedIf, IsTried, ComesNext, IsBelow, PassesBelow, PassesLevel};
ghost use Rattle.chr_search.specs.Tree.{Grows};
ghost use Rattle.chr_search.specs.Trials.{IsInTurn, MayFollow};
ghost use Rattle.chr_search.specs.Verdicts.{Trial};

use crate::join::{Join, LastHead};
use crate::judged::Verdict;
use crate::position::set_alone;
use crate::search::Instance;
use chr_guard::instance::becomes_instance;
use chr_guard::{Binding, Known, bind_partner, fit_partner};
use chr_rule::Rule;
use chr_store::{Label, Matches};
use chr_value::Atom;
use std::alloc::Allocator;

/// Why no more trials of a plan are passed over.
#[derive(Clone, Copy)]
pub(crate) enum End {
    /// The next one is whole.
    Whole,
    /// None is left.
    NoneLeft,
    /// They are as many as were asked for.
    Enough,
}

/// How many trials of a plan were passed over, and why no more.
#[derive(Clone, Copy)]
pub(crate) struct Passed {
    pub(crate) count: u64,
    pub(crate) end: End,
}

/// The labels of trials but the last.
#[derive(Clone, Copy)]
struct Path<'l> {
    labels: &'l [Label],
    /// Those that the last may repeat. The first is the active one, and the last is older then.
    others: &'l [Label],
}

/// Where the labels of trials are looked for that have the same labels but the last.
#[derive(Drop)]
pub(crate) struct Level<'s, A: Allocator> {
    /// The variables that the labels before the last bind.
    known: Known,
    at: LastHead<'s, A>,
    /// The labels among which it is. None where the store has no index for them.
    pub(crate) partners: Option<Matches<'s>>,
}

/// What comes after misfits.
#[derive(Drop)]
enum Next {
    /// A part, with this last label.
    Part(Label),
    /// A whole trial, with this last label.
    Whole(Label),
    /// No trial.
    NoneLeft,
    /// Perhaps more: they are as many as were asked for.
    Enough,
}

/// Misfits that were passed over, and what comes then.
#[derive(Drop)]
struct Run {
    count: u64,
    /// The label from which the next one is looked for.
    next: Label,
    then: Next,
}

/// What a run of trials ends with.
#[derive(Drop)]
enum Stop {
    /// A part, with this last label.
    Part(Label),
    /// Anything else.
    End(End),
}

/// Misfits that were passed over, and a part after them.
#[derive(Drop)]
struct Stopped {
    count: u64,
    stop: Stop,
}

/// Whether a label is one of these. They are few, so that a plain loop is the fastest.
#[inline]
fn is_among(labels: &[Label], label: Label) -> bool
    ensures { result ≡ list_any (λ other. other == label) labels.now }
{
    labels.iter().any(|other| *other == label)
}

impl<'l> Path<'l> {
    /// The path of labels, one at least.
    #[inline(always)]
    fn of(labels: &'l [Label]) -> Path<'l>
        requires { 1 ≤ length labels.now }
        ensures labels { result.labels.now ≡ labels.now }
        ensures others { result.others.now ≡ drop 1 labels.now }
    {
        Path {
            labels,
            others: &labels[1..],
        }
    }

    /// The path of no labels.
    fn empty() -> Path<'l>
        ensures labels { result.labels.now ≡ [] }
        ensures others { result.others.now ≡ [] }
    {
        Path {
            labels: &[],
            others: &[],
        }
    }
}

impl<'s, A: Allocator + Copy> Join<'s, A> {
    /// Whether a label may come after these as to its age: the active one first, and then those that are older.
    fn is_in_turn(&self, labels: &[Label], label: Label) -> bool
        ensures { IsTrue result ↔ IsInTurn (join_of self.now) labels.now label }
    {
        if labels.is_empty() {
            label == self.view.active()
        } else {
            label < self.view.active()
        }
    }

    /// Extends the binding of these labels by one more. False where that may not be tried after them, or none after it.
    pub(crate) fn narrow_by(
        &self,
        labels: &[Label],
        narrowed: &mut Binding<'s, A>,
        label: Label,
    ) -> bool
        requires plan { HasPlan (join_of self.now) }
        requires ready { IsReady (join_of self.now) labels.now narrowed.old }
        ensures narrowed { IsNarrowedIf (join_of self.now) labels.now label result narrowed.new }
        ensures keeps { Keeps narrowed.old narrowed.new }
    {
        if !self.is_in_turn(labels, label) {
            return false;
        }
        if is_among(labels, label) {
            return false;
        }
        let Some(step) = self.order.get(labels.len()) else {
            return false;
        };
        self.fit_at(narrowed, *step, label)
    }

    /// What the trials of these labels and one more have in common. None where no label may be tried after these.
    #[inline(always)]
    pub(crate) fn level(&self, labels: &[Label], binding: &Binding<'s, A>) -> Option<Level<'s, A>>
        requires some { 1 ≤ length labels.now }
        requires plan { HasPlan (join_of self.now) }
        requires ready { IsReady (join_of self.now) labels.now binding.now }
        ensures { MatchOption result ((x : ℕ) → MayFollow (join_of self.now) labels.now x → ⊥) (IsLevel (join_of self.now) labels.now binding.now) }
    {
        let at = self.last_head(labels)?;
        Some(Level {
            known: binding.known(),
            at,
            partners: self.partners(at, labels, binding),
        })
    }

    /// The least label over one at a level.
    #[inline(always)]
    pub(crate) fn next_after(
        &self,
        level: &mut Level<'s, A>,
        labels: &[Label],
        binding: &Binding<'s, A>,
        after: Label,
    ) -> Option<Label>
        requires small { after + 1 < 2 ^ 64 }
        requires some { 1 ≤ length labels.now }
        requires plan { HasPlan (join_of self.now) }
        requires ready { IsReady (join_of self.now) labels.now binding.now }
        requires level { IsLevel (join_of self.now) labels.now binding.now level.old }
        ensures least { IsPartnerFrom (join_of self.now) labels.now (after + 1) result }
        ensures same { level.new ≡ level.old }
    {
        match &mut level.partners {
            Some(partners) => partners.next_at(after, self.view.active()),
            None => self.next_partner(labels, binding, after + 1),
        }
    }

    /// The least label over one at a level, with its atom.
    #[inline(always)]
    fn next_atom_after(
        &self,
        level: &mut Level<'s, A>,
        labels: &[Label],
        binding: &Binding<'s, A>,
        after: Label,
    ) -> Option<(Label, &'s Atom<A>)>
        requires small { after + 1 < 2 ^ 64 }
        requires some { 1 ≤ length labels.now }
        requires plan { HasPlan (join_of self.now) }
        requires ready { IsReady (join_of self.now) labels.now binding.now }
        requires level { IsLevel (join_of self.now) labels.now binding.now level.old }
        ensures least { IsPartnerFrom (join_of self.now) labels.now (after + 1) (option_map (λ found. found.0) result) }
        ensures atom { IfSome result (λ found. atom_at self.now.view.store.entries found.0 ≡ Some found.1.now) }
        ensures same { level.new ≡ level.old }
    {
        match &mut level.partners {
            Some(partners) => {
                let label = partners.next_at(after, self.view.active())?;
                Some((label, self.view.older(label)))
            }
            None => {
                let label = self.next_partner(labels, binding, after + 1)?;
                let Some(atom) = self.view.get(label) else {
                    unreachable!();
                };
                Some((label, atom))
            }
        }
    }

    /// How the trial of a path and one label more, which has this atom, is judged, where `narrowed` is the binding of the
    /// path. For a part it becomes its own binding, and for a whole trial that of all variables.
    #[inline(always)]
    fn judge_at(
        &self,
        at: LastHead<'s, A>,
        rule: &Rule<A>,
        path: Path<'_>,
        label: Label,
        atom: &'s Atom<A>,
        narrowed: &mut Binding<'s, A>,
    ) -> Verdict
        requires rule { rule.now ≡ self.now.rule.now }
        requires others { path.others.now ≡ drop 1 path.labels.now }
        requires plan { HasPlan (join_of self.now) }
        requires at { IsLastHead (join_of self.now) path.labels.now at }
        requires ready { IsReady (join_of self.now) path.labels.now narrowed.old }
        requires grows { Grows (MayFollow (join_of self.now)) [] path.labels.now }
        requires follows { MayFollow (join_of self.now) path.labels.now label }
        requires live { atom_at (join_of self.now).store label ≡ Some atom.now }
        requires trial { (t : Trial) × IsTrialIn (join_of self.now) (path.labels.now ++ label ∷ []) t }
        ensures tried { IsTried (join_of self.now) (path.entry.labels.now ++ label ∷ []) result narrowed.new }
        ensures keeps { Keeps narrowed.old narrowed.new }
    {
        if is_among(path.others, label) {
            return Verdict::Misfit;
        }
        // Nothing is compared at a fresh head: what the index found has the key's value, and the rest is new.
        if at.step.fresh {
            bind_partner(narrowed, at.head, atom);
        } else if !fit_partner(narrowed, at.head, atom) {
            return Verdict::Misfit;
        }
        if !at.is_last {
            return Verdict::Part;
        }
        if becomes_instance(rule, rule.guard(), narrowed) {
            return Verdict::Whole;
        }
        Verdict::Misfit
    }

    /// Passes over the misfits of a level from a label on, at most so many. The binding becomes that of the part or the
    /// whole trial that comes next.
    #[inline(always)]
    fn pass_run(
        &self,
        level: &mut Level<'s, A>,
        from: Label,
        most: u64,
        instance: &mut Instance,
        binding: &mut Binding<'s, A>,
    ) -> Run
        requires begins { BeginsTrials (join_of self.now) }
        requires path { 1 ≤ length instance.old.labels.items }
        requires grows { Grows (MayFollow (join_of self.now)) [] instance.old.labels.items }
        requires ready { IsReady (join_of self.now) instance.old.labels.items binding.old }
        requires level { IsLevel (join_of self.now) instance.old.labels.items binding.old level.old }
        ensures few { result.count ≤ most }
        ensures misfits { AreMisfits (join_of self.now) instance.old.labels.items result.count (max 1 from) result.next }
        ensures then { ComesNext (join_of self.now) instance.old.labels.items result.count most result.next result.then binding.new }
        ensures labels { instance.new.labels ≡ instance.old.labels }
        ensures same { level.new ≡ level.old }
        ensures keeps { Keeps binding.old binding.new }
    {
        let path = Path::of(instance.labels.as_slice());
        let rule = self.rule;
        let mut count = 0;
        // The label found last.
        let mut after = from.saturating_sub(1);
        while count < most {
            let Some((label, atom)) = self.next_atom_after(level, path.labels, binding, after)
            else {
                let (next, then) = (after + 1, Next::NoneLeft);
                return Run { count, next, then };
            };
            match self.judge_at(level.at, rule, path, label, atom, binding) {
                Verdict::Misfit => {}
                Verdict::Part => {
                    let (next, then) = (after + 1, Next::Part(label));
                    return Run { count, next, then };
                }
                Verdict::Whole => {
                    let (next, then) = (after + 1, Next::Whole(label));
                    return Run { count, next, then };
                }
            }
            binding.return_to(level.known);
            after = label;
            count += 1;
        }
        let (next, then) = (after + 1, Next::Enough);
        Run { count, next, then }
    }

    /// Passes over the misfits of a level from a label on, and over a part after them, at most so many in all.
    #[inline(always)]
    fn pass_level(
        &self,
        level: &mut Level<'s, A>,
        from: Label,
        most: u64,
        instance: &mut Instance,
        binding: &mut Binding<'s, A>,
    ) -> Stopped
        requires some { 1 ≤ most }
        requires begins { BeginsTrials (join_of self.now) }
        requires path { 1 ≤ length instance.old.labels.items }
        requires grows { Grows (MayFollow (join_of self.now)) [] instance.old.labels.items }
        requires ready { IsReady (join_of self.now) instance.old.labels.items binding.old }
        requires level { IsLevel (join_of self.now) instance.old.labels.items binding.old level.old }
        ensures few { result.count ≤ most }
        ensures enough { result.stop ≡ stops.End ends.Enough → result.count ≡ most }
        ensures less { result.stop ≡ stops.End ends.NoneLeft → result.count < most }
        ensures passes { (place : List ℕ) → IsBelow (join_of self.now) instance.old.labels.items place from → PassesLevel (join_of self.now) instance.old.labels.items from place result.count result.stop instance.new.labels.items binding.new }
        ensures same { level.new ≡ level.old }
        ensures keeps { Keeps binding.old binding.new }
    {
        // For the proof: the labels of a store are numbered from 1.
        let _given = self.view.active();
        let run = self.pass_run(level, from, most, instance, binding);
        let (count, stop) = match run.then {
            Next::Part(label) => (run.count + 1, Stop::Part(label)),
            Next::Whole(label) => {
                instance.labels.push(label);
                (run.count, Stop::End(End::Whole))
            }
            Next::NoneLeft => (run.count, Stop::End(End::NoneLeft)),
            Next::Enough => {
                instance.labels.push(run.next);
                (run.count, Stop::End(End::Enough))
            }
        };
        Stopped { count, stop }
    }

    /// Passes over the trials of the instance's labels and more from one on, at most so many. The labels become those of a
    /// trial that is whole, or of the place at which the search goes on where as many were passed over as were asked for, and
    /// else they stay.
    fn pass_below(
        &self,
        mut from: Label,
        most: u64,
        instance: &mut Instance,
        binding: &mut Binding<'s, A>,
    ) -> Passed
        requires some { 1 ≤ most }
        requires begins { BeginsTrials (join_of self.now) }
        requires path { 1 ≤ length instance.old.labels.items }
        requires grows { Grows (MayFollow (join_of self.now)) [] instance.old.labels.items }
        requires ready { IsReady (join_of self.now) instance.old.labels.items binding.old }
        ensures counted { IsCounted most result }
        ensures passes { (place : List ℕ) → IsBelow (join_of self.now) instance.old.labels.items place from → PassesBelow (join_of self.now) instance.old.labels.items place result instance.new.labels.items binding.new }
        ensures keeps { Keeps binding.old binding.new }
    {
        let mut count = 0;
        let Some(mut level) = self.level(instance.labels.as_slice(), binding) else {
            let end = End::NoneLeft;
            return Passed { count, end };
        };
        loop {
            let beside = self.pass_level(&mut level, from, most - count, instance, binding);
            count += beside.count;
            let label = match beside.stop {
                Stop::Part(label) => label,
                Stop::End(end) => return Passed { count, end },
            };
            instance.labels.push(label);
            if count == most {
                instance.labels.push(0);
                let end = End::Enough;
                return Passed { count, end };
            }
            let below = self.pass_below(0, most - count, instance, binding);
            count += below.count;
            let End::NoneLeft = below.end else {
                let end = below.end;
                return Passed { count, end };
            };
            instance.labels.pop();
            binding.return_to(level.known);
            from = label + 1;
        }
    }

    /// Passes over the trials of the instance's labels and more at or after a place, at most so many. After these labels the
    /// place has `first` and then those below it.
    fn pass_on(
        &self,
        first: Label,
        below: &[Label],
        most: u64,
        instance: &mut Instance,
        binding: &mut Binding<'s, A>,
    ) -> Passed
        requires some { 1 ≤ most }
        requires begins { BeginsTrials (join_of self.now) }
        requires path { 1 ≤ length instance.old.labels.items }
        requires grows { Grows (MayFollow (join_of self.now)) [] instance.old.labels.items }
        requires ready { IsReady (join_of self.now) instance.old.labels.items binding.old }
        ensures counted { IsCounted most result }
        ensures passes { PassesBelow (join_of self.now) instance.old.labels.items (instance.old.labels.items ++ first ∷ below.now) result instance.new.labels.items binding.new }
        ensures keeps { Keeps binding.old binding.new }
    {
        let Some((next, rest)) = below.split_first() else {
            return self.pass_below(first, most, instance, binding);
        };
        let mut count = 0;
        if first > self.view.active() {
            let end = End::NoneLeft;
            return Passed { count, end };
        }
        let known = binding.known();
        if self.narrow_by(instance.labels.as_slice(), binding, first) {
            instance.labels.push(first);
            let deeper = self.pass_on(*next, rest, most, instance, binding);
            let End::NoneLeft = deeper.end else {
                return deeper;
            };
            count = deeper.count;
            instance.labels.pop();
        }
        binding.return_to(known);
        let beside = self.pass_below(first + 1, most - count, instance, binding);
        Passed {
            count: count + beside.count,
            end: beside.end,
        }
    }

    /// How the trial of the active label alone is judged. For a part the binding becomes its own, and for a whole trial that
    /// of all variables.
    #[inline(always)]
    fn judge_first(&self, binding: &mut Binding<'s, A>) -> Verdict
        requires begins { BeginsTrials (join_of self.now) }
        ensures { IsTried (join_of self.now) (self.now.view.active ∷ []) result binding.new }
    {
        let Some(at) = self.last_head(&[]) else {
            unreachable!();
        };
        let active = self.view.active();
        let Some(atom) = self.view.get(active) else {
            unreachable!();
        };
        binding.reset(self.rule.variables());
        self.judge_at(at, self.rule, Path::empty(), active, atom, binding)
    }

    /// Passes over the trials from the first one on, up to one that is whole, at most so many. All of them begin with the
    /// active label, which is the instance's only one. Its labels become those of a trial that is whole, or of the place at
    /// which the search goes on where as many were passed over as were asked for, and else they stay.
    #[inline(always)]
    pub(crate) fn pass_first(
        &self,
        most: u64,
        instance: &mut Instance,
        binding: &mut Binding<'s, A>,
    ) -> Passed
        requires some { 1 ≤ most }
        requires begins { BeginsTrials (join_of self.now) }
        requires alone { instance.old.labels.items ≡ self.now.view.active ∷ [] }
        ensures counted { IsCounted most result }
        ensures passes { PassesPlan (join_of self.now) [] result instance.new.labels.items binding.new }
        ensures alone { result.end ≡ ends.NoneLeft → instance.new.labels.items ≡ self.now.view.active ∷ [] }
    {
        match self.judge_first(binding) {
            Verdict::Misfit => {
                let count = 1;
                if most > count {
                    let end = End::NoneLeft;
                    return Passed { count, end };
                }
                set_alone(&mut instance.labels, self.view.active() + 1);
                let end = End::Enough;
                Passed { count, end }
            }
            Verdict::Whole => {
                let end = End::Whole;
                Passed { count: 0, end }
            }
            Verdict::Part => {
                if most == 1 {
                    instance.labels.push(0);
                    let end = End::Enough;
                    return Passed { count: 1, end };
                }
                let below = self.pass_below(0, most - 1, instance, binding);
                Passed {
                    count: 1 + below.count,
                    end: below.end,
                }
            }
        }
    }

    /// Whether a place is the active label's or one before it, so that all trials come at it or after it.
    #[inline(always)]
    pub(crate) fn is_ahead(&self, place: &[Label]) -> bool
        ensures { result ≡ at_or_after place.now (self.now.view.active ∷ []) }
    {
        let active = self.view.active();
        match place.split_first() {
            None => true,
            Some((first, below)) => *first < active || (*first == active && below.is_empty()),
        }
    }

    /// Passes over the trials at or after a place behind the active label, up to one that is whole, at most so many. The
    /// instance's only label is the active one. Its labels become those of a trial that is whole, or of the place at which the
    /// search goes on where as many were passed over as were asked for, and else they stay.
    pub(crate) fn pass_from(
        &self,
        place: &[Label],
        most: u64,
        instance: &mut Instance,
        binding: &mut Binding<'s, A>,
    ) -> Passed
        requires some { 1 ≤ most }
        requires begins { BeginsTrials (join_of self.now) }
        requires behind { at_or_after place.now (self.now.view.active ∷ []) ≡ false }
        requires alone { instance.old.labels.items ≡ self.now.view.active ∷ [] }
        ensures counted { IsCounted most result }
        ensures passes { PassesPlan (join_of self.now) place.now result instance.new.labels.items binding.new }
        ensures alone { result.end ≡ ends.NoneLeft → instance.new.labels.items ≡ self.now.view.active ∷ [] }
    {
        let none = Passed {
            count: 0,
            end: End::NoneLeft,
        };
        let Some((first, below)) = place.split_first() else {
            unreachable!();
        };
        if *first > self.view.active() {
            return none;
        }
        let Some((next, rest)) = below.split_first() else {
            unreachable!();
        };
        binding.reset(self.rule.variables());
        if !self.narrow_by(&[], binding, *first) {
            return none;
        }
        self.pass_on(*next, rest, most, instance, binding)
    }
}
