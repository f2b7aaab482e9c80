//! Reading the next trials of a search.
ghost use Rattle.std.specs.Prelude.{◌≡◌, ℕ, ◌<◌, ◌≤◌, ◌+◌, List, [], ◌∷◌, ◌++◌, length, map, IfOk, IsTrue, OnOk, MatchOption};
ghost use Rattle.std.specs.Arc.{arc_value};
ghost use Rattle.chr_value.specs.Bounds.{greatest_label, most_heads};
ghost use Rattle.chr_plan.specs.Orders.{heads_of};
ghost use Rattle.chr_plan.specs.Plans.{ArePlans};
ghost use Rattle.chr_search.specs.Fronts.{MayEnd, IsFront, IsPlacedAfter, ComeAfter};
ghost use Rattle.chr_search.specs.Placed.{placed_as};
ghost use Rattle.chr_search.specs.Positions.{past};
ghost use Rattle.chr_search.specs.Tree.{LeastFrom, NoneFrom};
ghost use Rattle.chr_search.specs.Trials.{Space, older, IsTrial};
ghost use Rattle.chr_search.specs.Verdicts.{Placed as PlacedView, Trial as TrialView, position, IsTrialOf};
ghost use Rattle.chr_sheet.specs.Beside.{AreEnds, AreInTurn, EndHead, last_of, next_from};
ghost use Rattle.chr_sheet.specs.Columns.{head_in, AreNextHeads};
ghost use Rattle.chr_sheet.specs.Kept.{trials_at, trials_in};
ghost use Rattle.chr_sheet.specs.Rows.{trials_of};
ghost use Rattle.chr_sheet.specs.Settings.{space_in, HasPlans};
ghost use Rattle.chr_sheet.specs.Sheets.{AreNext, AreNextTogether, IsNextTrial};

use crate::column::{Column, OneHead};
use crate::row::Row;
use crate::setting::Setting;
use crate::single::Single;
use crate::trials::Trials;
use chr_guard::Binding;
use chr_plan::Plans;
use chr_rule::Program;
use chr_search::{Ask, Front, Placed, Search, Trial};
use chr_store::{Label, Store};
use chr_value::Pred;
use std::alloc::{AllocError, Allocator};
use std::sync::Arc;

/// How many heads a column has room for at first. They are small.
const HEADS_ROOM: usize = 16;

/// How many rows, columns and trials alone a sheet has room for at first.
const SHEET_ROOM: usize = 4;

/// Puts one after the others. With the first comes room for so many. An `Err` is E01.
fn push_with_room<T: Drop, A: Allocator>(
    list: &mut Vec<T, A>,
    one: T,
    room: usize,
) -> Result<(), AllocError>
    ensures { OnOk result (list.new.items ≡ list.old.items ++ one ∷ []) }
{
    if list.is_empty() {
        list.reserve_exact(room)?;
    }
    list.push(one)?;
    Ok(())
}

/// The labels from one on with which trials of a front end, that one first, put after the others while they are fewer than so
/// many. Where they stay fewer, there is no further one. An `Err` is E01.
#[inline(always)]
fn push_ends<A: Allocator + Copy>(
    alloc: A,
    front: &mut Front<'_, '_, A>,
    lasts: &mut Vec<Placed<A>, A>,
    first: Label,
    most: usize,
) -> Result<(), AllocError>
    requires front { (s : Space) × (r : ℕ) × (h : ℕ) × (ls : List ℕ) × (from : ℕ) × IsFront s r h ls front.old × LeastFrom (MayEnd s (r ∷ h ∷ ls)) from first × ((p : PlacedView) → MayEnd s (r ∷ h ∷ ls) p.label → IsPlacedAfter s r h (length ls) p → p.label ≤ greatest_label) }
    requires few { length lasts.old.items < most }
    ensures few { OnOk result (length lasts.new.items ≤ most) }
    ensures some { OnOk result (length lasts.old.items < length lasts.new.items) }
    ensures ends { OnOk result ((s : Space) (r h : ℕ) (ls : List ℕ) (from : ℕ) → IsFront s r h ls front.old → LeastFrom (MayEnd s (r ∷ h ∷ ls)) from first → (more : List PlacedView) × (map placed_as lasts.new.items ≡ map placed_as lasts.old.items ++ more) × AreEnds s r h ls from more × (length lasts.new.items < most → NoneFrom (MayEnd s (r ∷ h ∷ ls)) (next_from from more))) }
{
    let mut next = Some(first);
    'ends: while lasts.len() < most {
        let Some(label) = next else {
            break;
        };
        front.push_end(alloc, lasts, label)?;
        next = front.next(label + 1);
    }
    Ok(())
}

/// The heads of rules of one head at which an atom of a predicate is tried next after a rule and a head, one after another, at
/// most so many. An `Err` is E01.
#[inline(always)]
fn next_heads<A: Allocator + Copy>(
    alloc: A,
    program: &Program<A>,
    pred: Pred,
    after: (u16, u8),
    most: usize,
) -> Result<Vec<OneHead, A>, AllocError>
    requires { after.1 ≤ most_heads }
    ensures few { IfOk result (λ heads. length heads.items ≤ most) }
    ensures next { IfOk result (λ heads. AreNextHeads program.now pred after.0 after.1 (map (head_in program.now) heads.items)) }
{
    let mut ahead = program.heads_from(pred, after.0, after.1 + 1);
    let mut heads = Vec::new(alloc);
    'heads: while heads.len() < most {
        let Some((number, head)) = ahead.next() else {
            break;
        };
        let Some(rule) = program.rule(usize::from(number)) else {
            break;
        };
        if rule.heads() != 1 {
            break;
        }
        push_with_room(&mut heads, OneHead { number, head }, most.min(HEADS_ROOM))?;
    }
    Ok(heads)
}

/// A trial of one label, at a rule of one head, with those that come next after it at rules of one head, at most so many. No
/// other is left at the last one's head. An `Err` is E01.
#[inline(always)]
fn in_column<A: Allocator + Copy>(
    alloc: A,
    active: Label,
    first: Trial<A>,
    most: usize,
    program: &Arc<Program<A>, A>,
    setting: &Setting<'_, A>,
) -> Result<Trials<A>, AllocError>
    requires program { arc_value program.now ≡ setting.now.program.now }
    requires plans { HasPlans setting.now }
    requires some { 1 ≤ most }
    requires full { length (heads_of first.rule) ≡ 1 }
    requires first { let s = space_in setting.now active in IsTrial s (position first) × IsTrialOf s.rules s.plans s.store first }
    ensures turn { IfOk result (λ trials. AreInTurn (space_in setting.now active) most first (trials_at trials)) }
    ensures last { IfOk result (λ trials. EndHead (space_in setting.now active) (trials_at trials)) }
{
    // For the proof: the rules are valid, and the labels of a store are at most the greatest.
    let _rules = setting.program.rules();
    let _given = setting.store.next_label();
    let after = (first.number(), first.head());
    let pred = first.placed()[0].atom.pred();
    let more = next_heads(alloc, program, pred, after, most - 1)?;
    if more.is_empty() {
        return Ok(Trials::One(Single::of(first)));
    }
    let program = Arc::try_clone(program)?;
    Ok(Trials::Column(Column::new(first, program, more)))
}

/// A trial that one head is left of, with those that begin with it and have one label more, at most so many, and whether it is
/// known that no other is left at the head. An `Err` is E01.
#[inline(always)]
fn in_branch<'s, A: Allocator + Copy>(
    alloc: A,
    active: Label,
    part: Trial<A>,
    most: usize,
    setting: &Setting<'s, A>,
    binding: &mut Binding<'s, A>,
) -> Result<(Trials<A>, bool), AllocError>
    requires plans { HasPlans setting.now }
    requires some { 2 ≤ most }
    requires left { length part.placed + 1 ≡ length (heads_of part.rule) }
    requires first { let s = space_in setting.now active in IsTrial s (position part) × IsTrialOf s.rules s.plans s.store part }
    ensures turn { IfOk result (λ made. AreInTurn (space_in setting.now active) most part (trials_at made.0)) }
    ensures last { IfOk result (λ made. IsTrue made.1 → EndHead (space_in setting.now active) (trials_at made.0)) }
{
    // For the proof: the rules are valid, and the labels of a store are at most the greatest.
    let _rules = setting.program.rules();
    let _given = setting.store.next_label();
    let placed = part.placed();
    // Each trial at a head begins with the active label, and so with a part that has no other.
    let is_alone = placed.len() == 1;
    let Some(mut front) = Front::of(
        setting.program,
        setting.plans,
        setting.store,
        active,
        (part.number(), part.head()),
        placed,
        binding,
    ) else {
        return Ok((Trials::One(Single::of(part)), is_alone));
    };
    let Some(first) = front.next(0) else {
        return Ok((Trials::One(Single::of(part)), is_alone));
    };
    let most = most - 1;
    let mut lasts = front.no_ends(alloc, most)?;
    push_ends(alloc, &mut front, &mut lasts, first, most)?;
    let ends_head = is_alone && lasts.len() < most;
    Ok((Trials::Branch(Row::new(part, lasts)), ends_head))
}

/// A trial that has all heads, two at least, with those that come next after it and differ from it in their last label alone, at
/// most so many, and whether it is known that no other is left at the head. An `Err` is E01.
#[inline(always)]
fn in_row<'s, A: Allocator + Copy>(
    alloc: A,
    active: Label,
    first: Trial<A>,
    most: usize,
    setting: &Setting<'s, A>,
    binding: &mut Binding<'s, A>,
) -> Result<(Trials<A>, bool), AllocError>
    requires plans { HasPlans setting.now }
    requires some { 2 ≤ most }
    requires full { length first.placed ≡ length (heads_of first.rule) }
    requires two { 2 ≤ length first.placed }
    requires first { let s = space_in setting.now active in IsTrial s (position first) × IsTrialOf s.rules s.plans s.store first }
    ensures turn { IfOk result (λ made. AreInTurn (space_in setting.now active) most first (trials_at made.0)) }
    ensures last { IfOk result (λ made. IsTrue made.1 → EndHead (space_in setting.now active) (trials_at made.0)) }
{
    // For the proof: the rules are valid, and the labels of a store are at most the greatest.
    let _rules = setting.program.rules();
    let _given = setting.store.next_label();
    let placed = first.placed();
    // The full trials of a rule of two heads differ at one of these in their last label alone.
    let is_pair = placed.len() == 2;
    let Some((last, before)) = placed.split_last() else {
        unreachable!();
    };
    let Some(mut front) = Front::of(
        setting.program,
        setting.plans,
        setting.store,
        active,
        (first.number(), first.head()),
        before,
        binding,
    ) else {
        return Ok((Trials::One(Single::of(first)), is_pair));
    };
    let Some(second) = front.next(last.label + 1) else {
        return Ok((Trials::One(Single::of(first)), is_pair));
    };
    let (part, last) = first.split_last();
    // For the proof: what holds of every trial.
    let _placed = part.placed();
    let mut lasts = front.no_ends(alloc, most)?;
    lasts.push(last)?;
    push_ends(alloc, &mut front, &mut lasts, second, most)?;
    let ends_head = is_pair && lasts.len() < most;
    Ok((Trials::Row(Row::new(part, lasts)), ends_head))
}

/// A trial with those that come next after it, at most so many: where one head is left of it, those that begin with it; where it
/// has all heads, two at least, those that differ from it in their last label alone; where its rule has one head, those of its
/// label at rules of one head. Also whether it is known that no other is left at the last one's head. An `Err` is E01.
#[inline(always)]
fn in_turn<'s, A: Allocator + Copy>(
    alloc: A,
    active: Label,
    first: Trial<A>,
    most: usize,
    program: &Arc<Program<A>, A>,
    setting: &Setting<'s, A>,
    binding: &mut Binding<'s, A>,
) -> Result<(Trials<A>, bool), AllocError>
    requires program { arc_value program.now ≡ setting.now.program.now }
    requires plans { HasPlans setting.now }
    requires some { 1 ≤ most }
    requires first { let s = space_in setting.now active in IsTrial s (position first) × IsTrialOf s.rules s.plans s.store first }
    ensures turn { IfOk result (λ made. AreInTurn (space_in setting.now active) most first (trials_at made.0)) }
    ensures last { IfOk result (λ made. IsTrue made.1 → EndHead (space_in setting.now active) (trials_at made.0)) }
{
    if most == 1 {
        return Ok((Trials::One(Single::of(first)), false));
    }
    let heads = first.rule().heads();
    if heads == 1 {
        return Ok((
            in_column(alloc, active, first, most, program, setting)?,
            true,
        ));
    }
    let labels = first.placed().len();
    if labels + 1 == heads {
        return in_branch(alloc, active, first, most, setting, binding);
    }
    if labels != heads {
        return Ok((Trials::One(Single::of(first)), false));
    }
    in_row(alloc, active, first, most, setting, binding)
}

/// Moves a search past the last trial of a row.
fn go_past_row<A: Allocator + Copy>(search: &mut Search, row: &Row<A>)
    ensures some { 1 ≤ length row.now.lasts }
    ensures label { search.new.label ≡ search.old.label }
    ensures place { (t : TrialView) (more : List TrialView) → trials_of row.now ≡ t ∷ more → let last = last_of t more in (search.new.place ≡ past (position last)) × (length last.placed ≡ length (heads_of last.rule)) }
{
    let lasts = row.lasts();
    search.go_past(row.part(), lasts[lasts.len() - 1].label);
}

/// Moves a search to those that come after the last of these trials. Where no other is left at the last one's head, it moves
/// past the active label there, from where the next trial is looked for at the next head.
#[inline(always)]
fn go_behind<A: Allocator + Copy>(
    search: &mut Search,
    trials: &Trials<A>,
    ends_head: bool,
    setting: &Setting<'_, A>,
)
    requires plans { HasPlans setting.now }
    requires low { search.old.label ≤ greatest_label }
    requires last { IsTrue ends_head → EndHead (space_in setting.now search.old.label) (trials_at trials.now) }
    ensures label { search.new.label ≡ search.old.label }
    ensures place { let s = space_in setting.now search.old.label in (t : TrialView) (more : List TrialView) → trials_at trials.now ≡ t ∷ more → IsTrial s (position (last_of t more)) → IsTrialOf s.rules s.plans s.store (last_of t more) → ComeAfter s search.new.place (position (last_of t more)) }
{
    // For the proof: the rules are valid.
    let _rules = setting.program.rules();
    if ends_head {
        let (number, head) = trials.last_head();
        search.go_past_alone(number, head);
        return;
    }
    match trials {
        Trials::One(single) => search.go_after(
            single.trial(),
            setting.program,
            setting.plans,
            setting.store,
        ),
        Trials::Column(column) => {
            let (number, head) = column.last();
            search.go_past_alone(number, head);
        }
        Trials::Row(row) => go_past_row(search, row),
        Trials::Branch(row) => go_past_row(search, row),
    }
}

/// A trial with those that come next after it and are kept with it, at most so many. The search moves on after
/// them. An `Err` is E01.
#[inline(always)]
fn with_those_beside<'s, A: Allocator + Copy>(
    alloc: A,
    search: &mut Search,
    first: Trial<A>,
    most: usize,
    program: &Arc<Program<A>, A>,
    setting: &Setting<'s, A>,
    binding: &mut Binding<'s, A>,
) -> Result<Trials<A>, AllocError>
    requires program { arc_value program.now ≡ setting.now.program.now }
    requires plans { HasPlans setting.now }
    requires some { 1 ≤ most }
    requires first { IsNextTrial (space_in setting.now search.old.label) search.old.place first }
    ensures trials { IfOk result (λ trials. AreNextTogether (space_in setting.now search.old.label) most search.old.place (trials_at trials) search.new.place) }
    ensures label { search.new.label ≡ search.old.label }
{
    // For the proof: the labels of a trial are at most the greatest.
    let _placed = first.placed();
    let (trials, ends_head) = in_turn(
        alloc,
        search.label(),
        first,
        most,
        program,
        setting,
        binding,
    )?;
    go_behind(search, &trials, ends_head, setting);
    Ok(trials)
}

/// The next trials of a search, at or after its position, whatever the verdicts on them: at most so many, and as many unless
/// none is left. E01 where memory ran out.
pub fn read<A: Allocator + Copy>(
    alloc: A,
    search: &Search,
    most: usize,
    program: &Arc<Program<A>, A>,
    plans: &Plans<A>,
    store: &Store<A>,
) -> Result<Vec<Trials<A>, A>, AllocError>
    requires { ArePlans (arc_value program.now) plans.now }
    ensures { IfOk result (λ sheet. AreNext (older (arc_value program.now) plans.now store.now.entries search.now.label) most search.now.place (trials_in sheet.items)) }
{
    let setting = Setting {
        program,
        plans,
        store,
    };
    // The compiler clears its room once where it is made here, and twice where it is made after the others.
    let mut binding = Binding::free(0);
    let mut sheet = Vec::new(alloc);
    let mut ahead = search.copy();
    let mut left = most;
    while left > 0 {
        let Ask::Trial(first) = ahead.candidate(alloc, setting.program, plans, store)? else {
            break;
        };
        let trials = with_those_beside(
            alloc,
            &mut ahead,
            first,
            left,
            program,
            &setting,
            &mut binding,
        )?;
        left -= trials.len();
        push_with_room(&mut sheet, trials, most.min(SHEET_ROOM))?;
    }
    Ok(sheet)
}
