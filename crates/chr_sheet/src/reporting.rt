//! Reporting the judgements of a sheet.
ghost use Rattle.std.specs.Prelude.{◌≡◌, ◌≢◌, ◌≤◌, ◌↔◌, IsTrue, Some, ◌∷◌, ◌++◌, ⊤, [], ℕ, List, length, map, MatchOption};
ghost use Rattle.std.specs.List.{AllByRecursion};
ghost use Rattle.chr_value.specs.Bounds.{greatest_label};
ghost use Rattle.chr_search.specs.declared.judged.Verdict.TheVariants as verdicts;
ghost use Rattle.chr_search.specs.Judged.{IsVerdict};
ghost use Rattle.chr_plan.specs.Plans.{ArePlans};
ghost use Rattle.chr_search.specs.Fronts.{MayEnd};
ghost use Rattle.chr_search.specs.Positions.{just_after};
ghost use Rattle.chr_search.specs.Trials.{Space, older, IsNext, IsTrial};
ghost use Rattle.chr_search.specs.Verdicts.{IsTrialOf, position};
ghost use Rattle.chr_rule.specs.Rules.{rule_at};
ghost use Rattle.chr_sheet.specs.Columns.{column_trials};
ghost use Rattle.chr_sheet.specs.Kept.{judged_at};
ghost use Rattle.chr_sheet.specs.Alone.{IsAloneIn, IsAloneOf, place_past};
ghost use Rattle.chr_sheet.specs.Rows.{judged_part, judgements_of, misfit, trials_of, AreRight};
ghost use Rattle.chr_sheet.specs.Settings.{space_in, HasPlans};
ghost use Rattle.chr_sheet.specs.Sheets.{AreNextInOrder, IsFireable, IsFrontOf, Reports, after_all, place_after};

use crate::column::{Column, rule_of};
use crate::judging::Judgements;
use crate::row::Row;
use crate::setting::Setting;
use crate::trials::Trials;
use chr_guard::Binding;
use chr_plan::Plans;
use chr_rule::{Program, Rule};
use chr_search::{Front, Search, Trial, Verdict};
use chr_store::{Label, Store};
use std::alloc::Allocator;

/// What was reported of judgements.
#[derive(Clone, Copy, Debug, PartialEq, Eq)]
pub struct Reported {
    /// How many of those that aren't whole came next in their turn.
    pub count: usize,
    /// Whether there is one that is whole, and it comes next then.
    pub whole_is_next: bool,
}

/// What the admissible trials of an active label have in common that begin with a trial and have one label more. None where
/// there is no such trial.
fn front_of<'b, 's, A: Allocator + Copy>(
    part: &Trial<A>,
    active: Label,
    setting: &Setting<'s, A>,
    binding: &'b mut Binding<'s, A>,
) -> Option<Front<'b, 's, A>>
    requires plans { HasPlans setting.now }
    requires few { length part.now.placed ≤ 5 }
    ensures { let s = space_in setting.now active in MatchOption result ((l : ℕ) → MayEnd s (position part.now) l → ⊥) (IsFrontOf s part.now) }
{
    Front::of(
        setting.program,
        setting.plans,
        setting.store,
        active,
        (part.number(), part.head()),
        part.placed(),
        binding,
    )
}

/// How many trials of a row come next in their turn, and the last label of the last one that does. The label is that of the
/// trial that comes next, where that begins with the row's part.
fn meet<A: Allocator + Copy>(
    front: &mut Front<'_, '_, A>,
    row: &Row<A>,
    first: Label,
) -> (usize, Option<Label>)
    requires { (s : Space) × IsFrontOf s row.now.part front.old }
    ensures reports { (s : Space) (place : List ℕ) → IsFrontOf s row.now.part front.old → IsTrialOf s.rules s.plans s.store row.now.part → IsNext s place (position row.now.part ++ first ∷ []) → Reports s place (map misfit (trials_of row.now)) result.0 (place_after place row.now.part result.1) }
    ensures low { MatchOption result.1 ⊤ (λ last. last ≤ greatest_label) }
{
    let mut next = Some(first);
    let mut count = 0;
    let mut met = None;
    for last in row.lasts() {
        if next != Some(last.label) || !front.has(last) {
            continue;
        }
        count += 1;
        met = Some(last.label);
        next = front.next(last.label + 1);
    }
    (count, met)
}

/// Moves a search over the trials of a row that are misfits, as [`meet`] meets them. Returns how many came next.
fn pass_met<A: Allocator + Copy>(
    search: &mut Search,
    front: &mut Front<'_, '_, A>,
    row: &Row<A>,
    first: Label,
) -> usize
    requires { (s : Space) × IsFrontOf s row.now.part front.old }
    ensures label { search.new.label ≡ search.old.label }
    ensures reports { (s : Space) → IsFrontOf s row.now.part front.old → IsTrialOf s.rules s.plans s.store row.now.part → IsNext s search.old.place (position row.now.part ++ first ∷ []) → Reports s search.old.place (map misfit (trials_of row.now)) result search.new.place }
{
    let (count, met) = meet(front, row, first);
    if let Some(last) = met {
        search.go_past(row.part(), last);
    }
    count
}

/// Moves a search over the trials of a row that are misfits, where each is the next trial in its turn. Returns how many were.
fn pass_misfits<'s, A: Allocator + Copy>(
    search: &mut Search,
    row: &Row<A>,
    setting: &Setting<'s, A>,
    binding: &mut Binding<'s, A>,
) -> usize
    requires { HasPlans setting.now }
    ensures label { search.new.label ≡ search.old.label }
    ensures reports { Reports (space_in setting.now search.old.label) search.old.place (map misfit (trials_of row.now)) result search.new.place }
{
    let part = row.part();
    let Some(first) = search.next_beside(part, setting.program, setting.plans, setting.store) else {
        return 0;
    };
    if !part.stands_in(setting.program, setting.plans, setting.store) {
        return 0;
    }
    let Some(mut front) = front_of(part, search.label(), setting, binding) else {
        return 0;
    };
    pass_met(search, &mut front, row, first)
}

/// Moves a search that is just after the part of a row over its trials, which are misfits, where each is the next trial in its
/// turn. Returns how many were.
fn pass_behind<'s, A: Allocator + Copy>(
    search: &mut Search,
    row: &Row<A>,
    setting: &Setting<'s, A>,
    binding: &mut Binding<'s, A>,
) -> usize
    requires plans { HasPlans setting.now }
    requires place { search.old.place ≡ just_after (position row.now.part) }
    requires stands { let s = space_in setting.now search.old.label in IsTrialOf s.rules s.plans s.store row.now.part }
    ensures label { search.new.label ≡ search.old.label }
    ensures reports { Reports (space_in setting.now search.old.label) search.old.place (map misfit (trials_of row.now)) result search.new.place }
{
    let Some(mut front) = front_of(row.part(), search.label(), setting, binding) else {
        return 0;
    };
    let Some(first) = front.next(0) else {
        return 0;
    };
    pass_met(search, &mut front, row, first)
}

/// Moves a search over a part, and then over misfits that begin with it, where each is the next trial in its turn. Returns how
/// many were.
fn pass_branch<'s, A: Allocator + Copy>(
    search: &mut Search,
    row: &Row<A>,
    setting: &Setting<'s, A>,
    binding: &mut Binding<'s, A>,
) -> usize
    requires { HasPlans setting.now }
    ensures label { search.new.label ≡ search.old.label }
    ensures reports { Reports (space_in setting.now search.old.label) search.old.place (judged_part row.now.part ∷ map misfit (trials_of row.now)) result search.new.place }
{
    let part = row.part();
    if search.is_next(part, setting.program, setting.plans, setting.store) != Some(true) {
        return pass_misfits(search, row, setting, binding);
    }
    // For the proof: a branch's trials can be counted.
    let _count = row.count_with_part();
    search.advance_by(part, Verdict::Part);
    pass_behind(search, row, setting, binding) + 1
}

/// Whether a program's rule of a number is this one.
fn has_rule<A: Allocator + Copy>(program: &Program<A>, number: u16, rule: &Rule<A>) -> bool
    ensures { IsTrue result ↔ (rule_at program.now number ≡ Some rule.now) }
{
    match program.rule(usize::from(number)) {
        Some(found) => found.same(rule),
        None => false,
    }
}

/// Whether a rule of a program and a head of it, by their numbers, are those that come next.
fn is_at<A: Allocator + Copy>(
    program: &Program<A>,
    next: Option<(u16, u8)>,
    at: (u16, u8),
    rule: &Rule<A>,
) -> bool
    ensures { IsTrue result ↔ ((next ≡ Some at) × (rule_at program.now at.0 ≡ Some rule.now)) }
{
    next == Some(at) && has_rule(program, at.0, rule)
}

/// How many trials of a column come next in their turn, and the rule and the head of the last one that does. These are the rule
/// and the head of the first trial that comes next.
fn meet_alone<A: Allocator + Copy>(
    program: &Program<A>,
    column: &Column<A>,
    first: (u16, u8),
) -> (usize, Option<(u16, u8)>)
    requires { (s : Space) × (place : List ℕ) × IsAloneOf s program.now column.now.first × IsNext s place (first.0 ∷ first.1 ∷ s.active ∷ []) }
    ensures reports { (s : Space) (place : List ℕ) → IsAloneOf s program.now column.now.first → IsNext s place (first.0 ∷ first.1 ∷ s.active ∷ []) → Reports s place (map misfit (column_trials column.now)) result.0 (place_past place s.active result.1) }
    ensures met { MatchOption result.1 ⊤ (λ o. (1 ≤ o.0) × (1 ≤ o.1)) }
{
    // For the proof: the rules are valid.
    let _rules = program.rules();
    let trial = column.first();
    let pred = trial.placed()[0].atom.pred();
    let at = (trial.number(), trial.head());
    let mut ahead = program.heads_from(pred, first.0, first.1 + 1);
    let mut next = Some(first);
    let mut count = 0;
    let mut met = None;
    if is_at(program, next, at, trial.rule()) {
        count = 1;
        met = Some(at);
        next = ahead.next();
    }
    let (judged, more) = column.more();
    for other in more {
        let at = (other.number, other.head);
        if !is_at(program, next, at, rule_of(judged, *other)) {
            continue;
        }
        count += 1;
        met = Some(at);
        next = ahead.next();
    }
    (count, met)
}

/// Whether a trial has the active label alone, with its atom.
fn is_alone_in<A: Allocator + Copy>(trial: &Trial<A>, active: Label, store: &Store<A>) -> bool
    requires { length trial.now.placed ≡ 1 }
    ensures { IsTrue result ↔ IsAloneIn store.now.entries active trial.now }
{
    let one = &trial.placed()[0];
    match store.get(active) {
        Some(atom) => one.label == active && one.atom.same(atom),
        None => false,
    }
}

/// Moves a search over the trials of a column that are misfits, where each comes next in its turn. Returns how many were.
fn pass_alone<A: Allocator + Copy>(
    search: &mut Search,
    column: &Column<A>,
    setting: &Setting<'_, A>,
) -> usize
    requires { HasPlans setting.now }
    ensures label { search.new.label ≡ search.old.label }
    ensures reports { Reports (space_in setting.now search.old.label) search.old.place (map misfit (column_trials column.now)) result search.new.place }
{
    if !is_alone_in(column.first(), search.label(), setting.store) {
        return 0;
    }
    let Some(first) = search.next_alone(setting.program, setting.plans, setting.store) else {
        return 0;
    };
    let (count, met) = meet_alone(setting.program, column, first);
    if let Some((number, head)) = met {
        search.go_past_alone(number, head);
    }
    count
}

/// Moves a search over a trial with a verdict on it, where it is the next one. Returns how many were.
fn pass_one<A: Allocator + Copy>(
    search: &mut Search,
    trial: &Trial<A>,
    verdict: Verdict,
    setting: &Setting<'_, A>,
) -> usize
    requires plans { HasPlans setting.now }
    requires right { IsVerdict trial.now verdict }
    requires other { verdict ≢ verdicts.Whole }
    ensures label { search.new.label ≡ search.old.label }
    ensures reports { Reports (space_in setting.now search.old.label) search.old.place (record { trial = trial.now; verdict = verdict } ∷ []) result search.new.place }
{
    if search.is_next(trial, setting.program, setting.plans, setting.store) != Some(true) {
        return 0;
    }
    search.advance_by(trial, verdict);
    1
}

/// Moves a search over judgements that are kept in one place. Returns how many of their trials were the next one in their turn.
fn pass_some<'s, A: Allocator + Copy>(
    search: &mut Search,
    some: &Trials<A>,
    setting: &Setting<'s, A>,
    binding: &mut Binding<'s, A>,
) -> usize
    requires plans { HasPlans setting.now }
    requires right { AreRight (judged_at some.now) }
    ensures label { search.new.label ≡ search.old.label }
    ensures reports { Reports (space_in setting.now search.old.label) search.old.place (judged_at some.now) result search.new.place }
{
    match some {
        Trials::One(one) => pass_one(search, one.trial(), one.verdict(), setting),
        Trials::Row(row) => pass_misfits(search, row, setting, binding),
        Trials::Branch(row) => pass_branch(search, row, setting, binding),
        Trials::Column(column) => pass_alone(search, column, setting),
    }
}

/// Whether there is a judgement that is whole, and its trial is the next one.
fn is_fireable<A: Allocator + Copy>(
    search: &Search,
    judgements: &Judgements<A>,
    setting: &Setting<'_, A>,
) -> bool
    requires { HasPlans setting.now }
    ensures { IsFireable (space_in setting.now search.now.label) search.now.place judgements.now.whole result }
{
    match judgements.whole() {
        Some(judged) => search.is_next(
            judged.trial(),
            setting.program,
            setting.plans,
            setting.store,
        ) == Some(true),
        None => false,
    }
}

/// Moves a search over judged trials in order, where each is the next one in its turn; those that aren't are passed over, and
/// so is one that is whole. It takes no memory.
pub fn report<A: Allocator + Copy>(
    search: &mut Search,
    judgements: &Judgements<A>,
    program: &Program<A>,
    plans: &Plans<A>,
    store: &Store<A>,
) -> Reported
    requires { ArePlans program.now plans.now }
    ensures label { search.new.label ≡ search.old.label }
    ensures reports { Reports (older program.now plans.now store.now.entries search.old.label) search.old.place judgements.now.others result.count search.new.place }
    ensures right { AllByRecursion (λ j. IsVerdict j.trial j.verdict) judgements.now.others }
    ensures whole { IsFireable (older program.now plans.now store.now.entries search.old.label) search.new.place judgements.now.whole result.whole_is_next }
{
    let setting = Setting {
        program,
        plans,
        store,
    };
    let mut binding = Binding::free(0);
    let mut count = 0;
    for some in judgements.others() {
        count += pass_some(search, some, &setting, &mut binding);
    }
    Reported {
        count,
        whole_is_next: is_fireable(search, judgements, &setting),
    }
}

/// Moves a search past the last trial of a row, which is a misfit.
fn go_past_row<A: Allocator + Copy>(search: &mut Search, row: &Row<A>)
    ensures label { search.new.label ≡ search.old.label }
    ensures place { (place : List ℕ) → search.new.place ≡ after_all place (map misfit (trials_of row.now)) }
{
    let Some((last, _)) = row.lasts().split_last() else {
        return;
    };
    search.go_past(row.part(), last.label);
}

/// Moves a search past the last trial of a column, which is a misfit.
fn go_past_column<A: Allocator + Copy>(search: &mut Search, column: &Column<A>)
    requires { (s : Space) × (s.active ≡ search.old.label) × IsTrial s (position column.now.first) }
    ensures label { search.new.label ≡ search.old.label }
    ensures place { (place : List ℕ) → search.new.place ≡ after_all place (map misfit (column_trials column.now)) }
{
    let (number, head) = column.last();
    search.go_past_alone(number, head);
}

/// Moves a search past judgements that are kept in one place, as if each of their trials had come next.
fn go_past_some<A: Allocator + Copy>(search: &mut Search, some: &Trials<A>)
    requires trials { (s : Space) × (s.active ≡ search.old.label) × AllByRecursion (λ j. IsTrial s (position j.trial)) (judged_at some.now) }
    requires right { AreRight (judged_at some.now) }
    ensures label { search.new.label ≡ search.old.label }
    ensures place { (place : List ℕ) → search.new.place ≡ after_all place (judged_at some.now) }
{
    match some {
        Trials::One(one) => search.advance_by(one.trial(), one.verdict()),
        Trials::Row(row) => go_past_row(search, row),
        Trials::Branch(row) => go_past_row(search, row),
        Trials::Column(column) => go_past_column(search, column),
    }
}

/// Moves a search over judged trials as [`report`] does, where they are known to come next one after another. It looks for none
/// of them.
pub fn report_next<A: Allocator + Copy>(
    search: &mut Search,
    judgements: &Judgements<A>,
    program: &Program<A>,
    plans: &Plans<A>,
    store: &Store<A>,
) -> Reported
    requires plans { ArePlans program.now plans.now }
    requires next { AreNextInOrder (older program.now plans.now store.now.entries search.old.label) search.old.place (map (λ j. j.trial) (judgements_of judgements.now)) }
    ensures label { search.new.label ≡ search.old.label }
    ensures reports { Reports (older program.now plans.now store.now.entries search.old.label) search.old.place judgements.now.others result.count search.new.place }
    ensures right { AllByRecursion (λ j. IsVerdict j.trial j.verdict) judgements.now.others }
    ensures whole { IsFireable (older program.now plans.now store.now.entries search.old.label) search.new.place judgements.now.whole result.whole_is_next }
{
    // For the proof: the rules are valid, and the store is one of labels.
    let _rules = program.rules();
    let _given = store.next_label();
    if let Some(last) = judgements.others().last() {
        go_past_some(search, last);
    }
    Reported {
        count: judgements.count_others(),
        whole_is_next: judgements.whole().is_some(),
    }
}
