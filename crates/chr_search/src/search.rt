//! Searches.
ghost use Rattle.std.specs.Prelude.{◌≡◌, ◌↔◌, ℕ, ◌+◌, ◌-◌, ◌≤◌, true, List, ◌∷◌, ◌++◌, [], length, Some, MatchBool, MatchOption, IfOk, IfSome, IsTrue};
ghost use Rattle.chr_value.specs.Bounds.{greatest_label};
ghost use Rattle.chr_value.specs.Stores.{atom_at};
ghost use Rattle.chr_model.specs.Stores.{Store as Entries};
ghost use Rattle.chr_plan.specs.Plans.{ArePlans};
ghost use Rattle.chr_store.specs.Labels.{entered};
ghost use Rattle.chr_search.specs.declared.judged.Verdict.TheVariants as verdicts;
ghost use Rattle.chr_search.specs.declared.passing.End.TheVariants as ends;
ghost use Rattle.chr_search.specs.declared.search.Then.TheVariants as thens;
ghost use Rattle.chr_search.specs.Positions.{at_or_after, begins, beginning, past, front};
ghost use Rattle.chr_search.specs.Trials.{Space, join_in, older, IsTrial, IsNext, NoneLeft};
ghost use Rattle.chr_search.specs.Answers.{IsAnswer, IsAnswerBehind, IsToldNext, after_judging, after_verdict};
ghost use Rattle.chr_search.specs.Verdicts.{Trial as TrialView, IsPart, position as position_of};
ghost use Rattle.chr_search.specs.Fronts.{ComeAfter};
ghost use Rattle.chr_search.specs.Joined.{join_of};
ghost use Rattle.chr_search.specs.Passing.{IsTrialIn, BeginsTrials, IsCounted, PassesPlan, PassesTo, PassesFrom};
ghost use Rattle.chr_search.specs.PlanByPlan.{AreAhead, IsUnplanned, IsJoinOf, labels_in, HasComeTo, IsNextJoin, IsThenAfter};

use crate::join::Join;
use crate::judged::{Judged, Verdict};
use crate::passing;
use crate::passing::End;
use crate::position::{Position, set_alone};
use crate::trial::Trial;
use crate::walk::Walk;
use crate::whole::Whole;
use chr_guard::Binding;
use chr_log::Labels;
use chr_plan::{Plans, Step};
use chr_rule::{Program, Rule};
use chr_store::{Label, Store, View};
use chr_value::Atom;
use std::alloc::{AllocError, Allocator};
use std::marker::Model;

/// What a search answers.
#[derive(Drop)]
pub enum Ask<A: Allocator> {
    /// The next trial.
    Trial(Trial<A>),
    /// No trial is left.
    Done,
}

/// The labels of a trial that is whole, and the trial itself. A search that passes over trials is lent one and sets it, since
/// one costs more to make than to set; while it goes over them, the labels are those before the last.
#[derive(Drop)]
pub struct Instance {
    pub(crate) labels: Labels,
    whole: Whole,
}

impl Instance {
    /// One of no labels. It takes no memory.
    pub fn new() -> Instance {
        Instance {
            labels: Labels::new(),
            whole: Whole::none(),
        }
    }

    /// The trial.
    #[inline(always)]
    pub fn whole(&self) -> &Whole
        ensures { result.now ≡ self.now.whole }
    {
        &self.whole
    }
}

/// What comes once a search has passed over trials.
#[derive(Clone, Copy, Debug, PartialEq, Eq)]
pub enum Then {
    /// A trial that is whole.
    Whole,
    /// No trial is left.
    Done,
    /// Perhaps more trials: as many were passed over as were asked for.
    More,
}

/// How many trials a search has passed over, and what comes then.
#[derive(Clone, Copy, Debug, PartialEq, Eq)]
pub struct Passed {
    pub count: u64,
    pub then: Then,
}

/// An active label, and how far its trials are ruled out.
#[derive(Drop)]
pub struct Search {
    position: Position,
    label: Label,
}

impl Model for Search {
    ghost use Rattle.chr_search.specs.Reach.{SearchState};

    ghost Value = { SearchState };

    ghost view = { λ s. record { label = s.label; place = s.position } };
}

impl Search {
    /// The search of an active label, from the first trial on.
    pub fn begin(label: Label) -> Search
        ensures { result ≡ record { label = label; place = beginning } }
    {
        Search {
            label,
            position: Position::beginning(),
        }
    }

    /// Becomes the search of an active label, from the first trial on.
    #[inline(always)]
    pub fn restart(&mut self, label: Label)
        ensures { self.new ≡ record { label = label; place = beginning } }
    {
        self.label = label;
        self.position.restart();
    }

    /// A copy of the search. It takes no memory.
    pub fn copy(&self) -> Search
        ensures { result ≡ self.now }
    {
        Search {
            label: self.label,
            position: self.position.copy(),
        }
    }

    /// The active label.
    pub fn label(&self) -> Label
        ensures { result ≡ self.now.label }
    {
        self.label
    }

    /// Whether two searches are the same: of one label, and come equally far.
    pub fn is_same(&self, other: &Search) -> bool
        ensures { IsTrue result ↔ (self.now ≡ other.now) }
    {
        self.label == other.label && self.position.is_same(&other.position)
    }

    /// Becomes that of the join's active label, past the trial of these labels at the rule and the head at which a walk stands.
    /// Where that is a removed head the label goes, and how far its trials are ruled out is left open: no search goes on there.
    #[inline(always)]
    pub(crate) fn set_past<A: Allocator + Copy>(
        &mut self,
        join: &Join<'_, A>,
        walk: &Walk<'_>,
        labels: &[Label],
    )
        requires rule { 1 ≤ walk.now.rule }
        requires head { 1 ≤ walk.now.head }
        requires trial { (t : TrialView) × IsTrialIn (join_of join.now) labels.now t }
        ensures label { self.new.label ≡ join.now.view.active }
        ensures past { walk.now.head ≤ length join.now.rule.now.kept → self.new.place ≡ past (walk.now.rule ∷ walk.now.head ∷ labels.now) }
    {
        self.label = join.view.active();
        if usize::from(walk.head) <= join.rule.kept().len() {
            self.position.set_past(walk.rule, walk.head, labels);
        }
    }

    /// A rule, and the plan of a head of it. None where there is none.
    #[inline(always)]
    fn plan_at<'s, A: Allocator + Copy>(
        program: &'s Program<A>,
        plans: &'s Plans<A>,
        rule: u16,
        head: u8,
    ) -> Option<(&'s Rule<A>, &'s [Step])>
        requires { ArePlans program.now plans.now }
        ensures { (store : Entries) (active : ℕ) → let s = older program.now plans.now store active in MatchOption result (IsUnplanned s rule head) (λ p. IsJoinOf s rule head (join_in s p.0.now p.1.now)) }
    {
        let order = plans.plan(usize::from(rule), head)?;
        let found = program.rule(usize::from(rule))?;
        Some((found, order))
    }

    /// The join of a head of a rule. None where there is none.
    #[inline(always)]
    pub(crate) fn join_at<'s, A: Allocator + Copy>(
        program: &'s Program<A>,
        plans: &'s Plans<A>,
        view: &View<'s, A>,
        rule: u16,
        head: u8,
    ) -> Option<Join<'s, A>>
        requires { ArePlans program.now plans.now }
        ensures { let s = older program.now plans.now view.now.store.entries view.now.active in MatchOption result (IsUnplanned s rule head) (λ join. IsJoinOf s rule head (join_of join)) }
    {
        let Some((found, order)) = Search::plan_at(program, plans, rule, head) else {
            return None;
        };
        Some(Join {
            rule: found,
            order,
            view: view.copy(),
        })
    }

    /// The rule and the plan of the next head with the active atom's predicate, from where the walk stands on, and the walk
    /// goes there. None where there is none.
    #[inline(always)]
    fn next_plan<'s, A: Allocator + Copy>(
        program: &'s Program<A>,
        plans: &'s Plans<A>,
        walk: &mut Walk<'s>,
    ) -> Option<(&'s Rule<A>, &'s [Step])>
        requires plans { ArePlans program.now plans.now }
        requires ahead { (store : Entries) × (active : ℕ) × AreAhead (older program.now plans.now store active) walk.old.rule walk.old.head walk.old.heads }
        ensures next { (store : Entries) (active : ℕ) → let s = older program.now plans.now store active in AreAhead s walk.old.rule walk.old.head walk.old.heads → MatchOption result (NoneLeft s (walk.old.rule ∷ walk.old.head ∷ [])) (λ p. IsNextJoin s walk.old.rule walk.old.head walk.new.rule walk.new.head (join_in s p.0.now p.1.now)) }
        ensures ahead { (store : Entries) (active : ℕ) → let s = older program.now plans.now store active in AreAhead s walk.old.rule walk.old.head walk.old.heads → IfSome result (λ _. AreAhead s walk.new.rule (walk.new.head + 1) walk.new.heads) }
    {
        let Some((rule, head)) = walk.heads.next() else {
            return None;
        };
        walk.rule = rule;
        walk.head = head;
        let found = &program.rules()[usize::from(rule) - 1];
        Some((found, plans.plan_at(rule, head)))
    }

    /// The labels from which the trials of the plan are looked for at which a walk stands: those of the position, where
    /// that is one of the same plan, and else none.
    #[inline(always)]
    fn labels_in(&self, walk: &Walk<'_>) -> &[Label]
        ensures { result.now ≡ labels_in self.now.place walk.now.rule walk.now.head }
    {
        let position = &self.position;
        if position.rule == walk.rule && position.head == walk.head {
            position.labels.as_slice()
        } else {
            &[]
        }
    }

    /// Where a walk to the next trial begins: at the position's rule and head, or at the head after that where the position is
    /// past the active label there, since each trial at a head has that label first.
    #[inline(always)]
    fn first_walk<'s, A: Allocator + Copy>(
        &self,
        program: &'s Program<A>,
        atom: &Atom<A>,
    ) -> Walk<'s>
        ensures come { (s : Space) → s.active ≡ self.now.label → HasComeTo s self.now.place result.rule result.head }
        ensures ahead { (s : Space) → s.rules ≡ program.now → atom_at s.store s.active ≡ Some atom.now → AreAhead s result.rule result.head result.heads }
    {
        let position = &self.position;
        let head = match position.labels.as_slice().first() {
            Some(first) if self.label < *first => position.head.saturating_add(1),
            _ => position.head,
        };
        Walk {
            rule: position.rule,
            head,
            heads: program.heads_from(atom.pred(), position.rule, head),
        }
    }

    /// Makes a position that of the least trial at or after the search's own, in a view for its label, which has this atom.
    /// False where no trial is left.
    fn find_in<'s, A: Allocator + Copy>(
        &self,
        program: &'s Program<A>,
        plans: &'s Plans<A>,
        view: &View<'s, A>,
        atom: &Atom<A>,
        found: &mut Position,
    ) -> bool
        requires plans { ArePlans program.now plans.now }
        requires active { view.now.active ≡ self.now.label }
        requires atom { atom_at view.now.store.entries self.now.label ≡ Some atom.now }
        ensures { let s = older program.now plans.now view.now.store.entries self.now.label in MatchBool result (IsNext s self.now.place found.new) (NoneLeft s self.now.place) }
    {
        // For the proof: the labels of a store are at most the greatest.
        let _given = view.active();
        let mut walk = self.first_walk(program, atom);
        while let Some((rule, order)) = Search::next_plan(program, plans, &mut walk) {
            let view = view.copy();
            let join = Join { rule, order, view };
            if join.find(self.labels_in(&walk), &mut found.labels) {
                found.rule = walk.rule;
                found.head = walk.head;
                return true;
            }
            walk.head += 1;
        }
        false
    }

    /// Makes a position that of the least trial at or after the search's own, which is written where the position lies. False
    /// where no trial is left.
    fn find_to<A: Allocator + Copy>(
        &self,
        program: &Program<A>,
        plans: &Plans<A>,
        store: &Store<A>,
        found: &mut Position,
    ) -> bool
        requires { ArePlans program.now plans.now }
        ensures { let s = older program.now plans.now store.now.entries self.now.label in MatchBool result (IsNext s self.now.place found.new) (NoneLeft s self.now.place) }
    {
        let Some(atom) = store.get(self.label) else {
            return false;
        };
        let view = View::of(store, self.label);
        self.find_in(program, plans, &view, atom, found)
    }

    /// The position of the least trial at or after the search's own. None where no trial is left. It takes no memory.
    pub fn find<A: Allocator + Copy>(
        &self,
        program: &Program<A>,
        plans: &Plans<A>,
        store: &Store<A>,
    ) -> Option<Position>
        requires { ArePlans program.now plans.now }
        ensures { let s = older program.now plans.now store.now.entries self.now.label in MatchOption result (NoneLeft s self.now.place) (IsNext s self.now.place) }
    {
        let mut found = Position::beginning();
        if !self.find_to(program, plans, store, &mut found) {
            return None;
        }
        Some(found)
    }

    /// The least admissible trial at or after the position. Done where there is none. E01 where memory ran out. The search
    /// stays as it is.
    #[inline(always)]
    pub fn candidate<A: Allocator + Copy>(
        &self,
        alloc: A,
        program: &Program<A>,
        plans: &Plans<A>,
        store: &Store<A>,
    ) -> Result<Ask<A>, AllocError>
        requires { ArePlans program.now plans.now }
        ensures { IfOk result (IsAnswer (older program.now plans.now store.now.entries self.now.label) self.now.place) }
    {
        let mut position = Position::beginning();
        if !self.find_to(program, plans, store, &mut position) {
            return Ok(Ask::Done);
        }
        Ok(Ask::Trial(Trial::at(alloc, &position, program, plans, store)?))
    }

    /// Whether a trial is the least admissible one at or after the position. None where no trial is left. It takes no memory.
    pub fn is_next<A: Allocator + Copy>(
        &self,
        trial: &Trial<A>,
        program: &Program<A>,
        plans: &Plans<A>,
        store: &Store<A>,
    ) -> Option<bool>
        requires { ArePlans program.now plans.now }
        ensures { IsToldNext (older program.now plans.now store.now.entries self.now.label) self.now.place trial.now result }
    {
        // For the proof: the rules are valid, and the labels of a store are at most the greatest.
        let _rules = program.rules();
        let _given = store.next_label();
        let mut position = Position::beginning();
        if !self.find_to(program, plans, store, &mut position) {
            return None;
        }
        Some(position.is_of(trial) && trial.stands_in(program, plans, store))
    }

    /// Moves to the trials after another, which needn't be judged: where that is a misfit, none lies between it and those past
    /// all that it begins.
    pub fn go_after<A: Allocator + Copy>(
        &mut self,
        trial: &Trial<A>,
        program: &Program<A>,
        plans: &Plans<A>,
        store: &Store<A>,
    )
        requires { ArePlans program.now plans.now }
        ensures label { self.new.label ≡ self.old.label }
        ensures place { ComeAfter (older program.now plans.now store.now.entries self.old.label) self.new.place (position_of trial.now) }
    {
        // For the proof: a rule has at most six heads.
        let _rules = program.rules();
        self.position.become_after(trial);
    }

    /// Moves past the trial of the active label alone at a rule and a head of it.
    pub fn go_past_alone(&mut self, number: u16, head: u8)
        requires number { 1 ≤ number }
        requires head { 1 ≤ head }
        requires label { self.old.label ≤ greatest_label }
        ensures { self.new ≡ record { label = self.old.label; place = past (number ∷ head ∷ self.old.label ∷ []) } }
    {
        self.position.become_alone(number, head, self.label + 1);
    }

    /// The rule and the head of the least trial at or after the position, where it has one label. None where it has more, or no
    /// trial is left. It takes no memory.
    pub fn next_alone<A: Allocator + Copy>(
        &self,
        program: &Program<A>,
        plans: &Plans<A>,
        store: &Store<A>,
    ) -> Option<(u16, u8)>
        requires { ArePlans program.now plans.now }
        ensures { let s = older program.now plans.now store.now.entries self.now.label in MatchOption result ((r h : ℕ) → IsNext s self.now.place (r ∷ h ∷ self.now.label ∷ []) → ⊥) (λ o. IsNext s self.now.place (o.0 ∷ o.1 ∷ self.now.label ∷ [])) }
    {
        let mut position = Position::beginning();
        if !self.find_to(program, plans, store, &mut position) {
            return None;
        }
        if position.labels.len() != 1 {
            return None;
        }
        Some((position.rule, position.head))
    }

    /// Moves past a trial of these labels and one more, and past all that it begins.
    pub fn go_past<A: Allocator + Copy>(&mut self, part: &Trial<A>, last: Label)
        requires few { length part.now.placed ≤ 5 }
        requires last { last ≤ greatest_label }
        ensures { self.new ≡ record { label = self.old.label; place = past (position_of part.now ++ last ∷ []) } }
    {
        let position = &mut self.position;
        position.become_of(part);
        position.labels.push(last + 1);
    }

    /// The last label of the least trial at or after the position, where that begins with a trial and has one label more. None
    /// where it doesn't, or no trial is left. It takes no memory.
    pub fn next_beside<A: Allocator + Copy>(
        &self,
        part: &Trial<A>,
        program: &Program<A>,
        plans: &Plans<A>,
        store: &Store<A>,
    ) -> Option<Label>
        requires { ArePlans program.now plans.now }
        ensures { let s = older program.now plans.now store.now.entries self.now.label in MatchOption result ((l : ℕ) → IsNext s self.now.place (position_of part.now ++ l ∷ []) → ⊥) (λ l. IsNext s self.now.place (position_of part.now ++ l ∷ [])) }
    {
        let mut position = Position::beginning();
        if !self.find_to(program, plans, store, &mut position) {
            return None;
        }
        position.label_after(part)
    }

    /// The position of the least admissible trial past another, with the same rule and head and the same labels but the last.
    /// None where there is none.
    fn find_behind<A: Allocator + Copy>(
        &self,
        trial: &Trial<A>,
        program: &Program<A>,
        plans: &Plans<A>,
        store: &Store<A>,
    ) -> Option<Position>
        requires { ArePlans program.now plans.now }
        ensures { let s = older program.now plans.now store.now.entries self.now.label in let p = position_of trial.now in MatchOption result ((t : List ℕ) → IsTrial s t → at_or_after (past p) t ≡ true → begins (front p) t ≡ true → ⊥) (λ next. IsNext s (past p) next × (front next ≡ front p)) }
    {
        let mut past = Position::beginning();
        past.become_past(trial);
        // For the proof: a trial has a label.
        let _placed = trial.placed();
        let view = View::of(store, self.label);
        let Some(join) = Search::join_at(program, plans, &view, past.rule, past.head) else {
            return None;
        };
        let mut next = Position::beginning();
        if !join.find(past.labels.as_slice(), &mut next.labels) {
            return None;
        }
        next.rule = past.rule;
        next.head = past.head;
        if !next.is_beside(trial) {
            return None;
        }
        Some(next)
    }

    /// The least admissible trial past another, with the same rule and head and the same labels but the last. Done where
    /// there is none. E01 where memory ran out. The search's own position plays no part.
    pub fn behind<A: Allocator + Copy>(
        &self,
        alloc: A,
        trial: &Trial<A>,
        program: &Program<A>,
        plans: &Plans<A>,
        store: &Store<A>,
    ) -> Result<Ask<A>, AllocError>
        requires { ArePlans program.now plans.now }
        ensures { IfOk result (IsAnswerBehind (older program.now plans.now store.now.entries self.now.label) (position_of trial.now)) }
    {
        match self.find_behind(trial, program, plans, store) {
            None => Ok(Ask::Done),
            Some(next) => Ok(Ask::Trial(Trial::at(alloc, &next, program, plans, store)?)),
        }
    }

    /// Moves just after a trial that is a part, and past any other and all that it begins.
    pub fn advance<A: Allocator + Copy>(&mut self, judged: &Judged<A>)
        ensures { self.new ≡ record { label = self.old.label; place = after_judging judged.now } }
    {
        self.advance_by(judged.trial(), judged.verdict());
    }

    /// Moves just after a trial where this verdict on it is a part, and else past it and all that it begins.
    pub fn advance_by<A: Allocator + Copy>(&mut self, trial: &Trial<A>, verdict: Verdict)
        requires { verdict ≡ verdicts.Part → IsPart trial.now }
        ensures { self.new ≡ record { label = self.old.label; place = after_verdict verdict (position_of trial.now) } }
    {
        match verdict {
            Verdict::Part => self.position.become_just_after(trial),
            Verdict::Misfit | Verdict::Whole => self.position.become_past(trial),
        }
    }

    /// What comes once trials of the plan at which a walk stands were passed over. None where no trial of it is left.
    #[inline(always)]
    fn then_after<A: Allocator + Copy>(
        &mut self,
        join: &Join<'_, A>,
        walk: &Walk<'_>,
        end: End,
        instance: &mut Instance,
    ) -> Option<Then>
        requires rule { 1 ≤ walk.now.rule }
        requires head { 1 ≤ walk.now.head }
        requires whole { end ≡ ends.Whole → (t : TrialView) × IsTrialIn (join_of join.now) instance.old.labels.items t × (length instance.old.labels.items ≡ length join.now.rule.now.kept + length join.now.rule.now.removed) }
        ensures label { self.new.label ≡ self.old.label }
        ensures labels { instance.new.labels ≡ instance.old.labels }
        ensures then { IsThenAfter (join_of join.now) walk.now.rule walk.now.head instance.old.labels.items end result instance.new.whole self.old.place self.new.place }
    {
        match end {
            End::NoneLeft => None,
            End::Enough => {
                self.position
                    .become_at(walk.rule, walk.head, &instance.labels);
                Some(Then::More)
            }
            End::Whole => {
                instance.whole.set(join, walk, instance.labels.as_slice());
                Some(Then::Whole)
            }
        }
    }

    /// Passes over the trials of the plans from where a walk stands on, of each from its first one on, at most so many. The
    /// instance's only label is the active one.
    #[inline(always)]
    fn pass_plans<'s, A: Allocator + Copy>(
        &mut self,
        program: &'s Program<A>,
        plans: &'s Plans<A>,
        view: &View<'s, A>,
        walk: &mut Walk<'s>,
        most: u64,
        instance: &mut Instance,
        bound: &mut Binding<'s, A>,
    ) -> Passed
        requires some { 1 ≤ most }
        requires plans { ArePlans program.now plans.now }
        requires active { view.now.active ≡ self.old.label }
        requires ahead { AreAhead (older program.now plans.now view.now.store.entries self.old.label) walk.old.rule walk.old.head walk.old.heads }
        requires alone { instance.old.labels.items ≡ view.now.active ∷ [] }
        ensures few { result.count ≤ most }
        ensures more { result.then ≡ thens.More → result.count ≡ most }
        ensures label { self.new.label ≡ self.old.label }
        ensures passed { PassesFrom (older program.now plans.now view.now.store.entries self.old.label) (walk.old.rule ∷ walk.old.head ∷ []) result instance.new bound.new self.old.place self.new.place }
    {
        // For the proof: the labels of a store are at most the greatest.
        let _given = view.active();
        let mut count = 0;
        let Some((rule, order)) = Search::next_plan(program, plans, walk) else {
            let then = Then::Done;
            return Passed { count, then };
        };
        let view = view.copy();
        let mut join = Join { rule, order, view };
        loop {
            let passed = join.pass_first(most - count, instance, bound);
            count += passed.count;
            if let Some(then) = self.then_after(&join, walk, passed.end, instance) {
                return Passed { count, then };
            }
            walk.head += 1;
            let Some((rule, order)) = Search::next_plan(program, plans, walk) else {
                let then = Then::Done;
                return Passed { count, then };
            };
            join.rule = rule;
            join.order = order;
        }
    }

    /// Passes over the trials of the plan at which a walk stands, at or after the position, at most so many. The instance's
    /// only label is the active one, and stays where no trial is left.
    fn pass_in_plan<'s, A: Allocator + Copy>(
        &self,
        join: &Join<'s, A>,
        walk: &Walk<'_>,
        most: u64,
        instance: &mut Instance,
        bound: &mut Binding<'s, A>,
    ) -> passing::Passed
        requires some { 1 ≤ most }
        requires begins { BeginsTrials (join_of join.now) }
        requires alone { instance.old.labels.items ≡ join.now.view.active ∷ [] }
        ensures counted { IsCounted most result }
        ensures passes { PassesPlan (join_of join.now) (labels_in self.now.place walk.now.rule walk.now.head) result instance.new.labels.items bound.new }
        ensures alone { result.end ≡ ends.NoneLeft → instance.new.labels.items ≡ join.now.view.active ∷ [] }
    {
        let place = self.labels_in(walk);
        if join.is_ahead(place) {
            return join.pass_first(most, instance, bound);
        }
        join.pass_from(place, most, instance, bound)
    }

    /// Passes over trials as [`pass_over`](Search::pass_over) does, in a view for its label, which has this atom.
    fn pass_in<'s, A: Allocator + Copy>(
        &mut self,
        program: &'s Program<A>,
        plans: &'s Plans<A>,
        view: &View<'s, A>,
        atom: &Atom<A>,
        most: u64,
        instance: &mut Instance,
        bound: &mut Binding<'s, A>,
    ) -> Passed
        requires some { 1 ≤ most }
        requires plans { ArePlans program.now plans.now }
        requires active { view.now.active ≡ self.old.label }
        requires atom { atom_at view.now.store.entries self.old.label ≡ Some atom.now }
        ensures few { result.count ≤ most }
        ensures more { result.then ≡ thens.More → result.count ≡ most }
        ensures label { self.new.label ≡ self.old.label }
        ensures passed { PassesTo (older program.now plans.now view.now.store.entries self.old.label) result instance.new bound.new self.old.place self.new.place }
    {
        // For the proof: the labels of a store are at most the greatest.
        let _given = view.active();
        let mut walk = self.first_walk(program, atom);
        let Some((rule, order)) = Search::next_plan(program, plans, &mut walk) else {
            return Passed {
                count: 0,
                then: Then::Done,
            };
        };
        let join = Join {
            rule,
            order,
            view: view.copy(),
        };
        set_alone(&mut instance.labels, self.label);
        let first = self.pass_in_plan(&join, &walk, most, instance, bound);
        let count = first.count;
        if let Some(then) = self.then_after(&join, &walk, first.end, instance) {
            return Passed { count, then };
        }
        walk.head += 1;
        let rest = self.pass_plans(
            program,
            plans,
            view,
            &mut walk,
            most - count,
            instance,
            bound,
        );
        Passed {
            count: count + rest.count,
            then: rest.then,
        }
    }

    /// Passes over the next trials up to one that is whole, at most so many: as if each of them had been asked for, judged,
    /// and the search advanced after it. Returns how many, and what comes then: where that is a whole trial, `instance`
    /// becomes its instance, and `bound` what its variables are bound to. Where perhaps more come, the search stands after the
    /// last of them then, and else it stays. It takes no memory.
    pub fn pass_over<'s, A: Allocator + Copy>(
        &mut self,
        program: &'s Program<A>,
        plans: &'s Plans<A>,
        store: &'s Store<A>,
        most: u64,
        instance: &mut Instance,
        bound: &mut Binding<'s, A>,
    ) -> Passed
        requires { ArePlans program.now plans.now }
        ensures few { result.count ≤ most }
        ensures more { result.then ≡ thens.More → result.count ≡ most }
        ensures label { self.new.label ≡ self.old.label }
        ensures passed { PassesTo (older program.now plans.now store.now.entries self.old.label) result instance.new bound.new self.old.place self.new.place }
    {
        let Some(atom) = store.get(self.label) else {
            return Passed {
                count: 0,
                then: Then::Done,
            };
        };
        if most == 0 {
            return Passed {
                count: 0,
                then: Then::More,
            };
        }
        let view = View::of(store, self.label);
        self.pass_in(program, plans, &view, atom, most, instance, bound)
    }

    /// Passes over trials as [`pass_over`](Search::pass_over) does, from the first one on, in the store as it is once this atom
    /// is entered. That is done before the atom is, since a firing that removes it needs no entering. The search is at its
    /// beginning.
    pub fn pass_over_before<'s, A: Allocator + Copy>(
        &mut self,
        program: &'s Program<A>,
        plans: &'s Plans<A>,
        store: &'s Store<A>,
        atom: &'s Atom<A>,
        most: u64,
        instance: &mut Instance,
        bound: &mut Binding<'s, A>,
    ) -> Passed
        requires plans { ArePlans program.now plans.now }
        requires label { self.old.label ≡ store.now.next }
        requires room { store.now.next ≤ store.now.limit }
        requires place { self.old.place ≡ beginning }
        ensures few { result.count ≤ most }
        ensures more { result.then ≡ thens.More → result.count ≡ most }
        ensures label { self.new.label ≡ self.old.label }
        ensures passed { PassesTo (older program.now plans.now (entered store.now atom.now).entries self.old.label) result instance.new bound.new self.old.place self.new.place }
    {
        // For the proof: the labels of a store are below its next one.
        let _next = store.next_label();
        if most == 0 {
            return Passed {
                count: 0,
                then: Then::More,
            };
        }
        let view = View::with(store, atom);
        let mut walk = Walk::first(program, atom);
        set_alone(&mut instance.labels, self.label);
        self.pass_plans(program, plans, &view, &mut walk, most, instance, bound)
    }
}
