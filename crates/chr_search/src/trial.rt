//! Trials with their atoms.
ghost use Rattle.std.specs.Prelude.{◌≡◌, ◌↔◌, ◌≤◌, ◌∷◌, ◌++◌, [], ℕ, length, map, slice_get, Some, IfOk, OnOk, IsTrue};
ghost use Rattle.std.specs.Arc.{arc_value};
ghost use Rattle.chr_value.specs.Atoms.{Atom as AtomView};
ghost use Rattle.chr_value.specs.Bounds.{most_heads};
ghost use Rattle.chr_value.specs.Stores.{atom_at};
ghost use Rattle.chr_plan.specs.Plans.{ArePlans};
ghost use Rattle.chr_search.specs.Fronts.{lengthened, trial_alone};
ghost use Rattle.chr_search.specs.Positions.{front};
ghost use Rattle.chr_search.specs.Trials.{older, IsTrial};
ghost use Rattle.chr_search.specs.Verdicts.{IsFormed, position as position_of, IsTrialOf, label_at, labels_from, kept_labels, removed_labels};
ghost use Rattle.chr_search.specs.Placed.{placed_as, ArePlacedIn};

use crate::position::Position;
use chr_log::Labels;
use chr_plan::{Plans, Step};
use chr_rule::{Program, Rule};
use chr_store::{Label, Store};
use chr_value::Atom;
use std::alloc::{AllocError, Allocator};
use std::marker::Model;
use std::sync::Arc;

/// A label with its atom, and the number of the head at which it stands.
#[derive(Drop)]
pub struct Placed<A: Allocator> {
    pub atom: Atom<A>,
    pub label: Label,
    pub head: u8,
}

/// A rule with its number, one of its heads, and labels for heads in the order of that head's plan, the active label
/// first. Labels stand at different heads, at most one at each.
pub struct Trial<A: Allocator> {
    rule: Arc<Rule<A>, A>,
    placed: Vec<Placed<A>, A>,
    number: u16,
    head: u8,
}

// Not derived: letting a trial go is then one call, which is proved here once.
impl<A: Allocator> Drop for Trial<A> {
    fn drop(self) {
        let Trial {
            rule: _,
            placed: _,
            number: _,
            head: _,
        } = self;
    }
}

impl<A: Allocator> Model for Trial<A> {
    ghost use Rattle.std.specs.Prelude.{map};
    ghost use Rattle.std.specs.Arc.{arc_value};
    ghost use Rattle.chr_rule.specs.Codes.{rule_codes};
    ghost use Rattle.chr_search.specs.Verdicts.{Trial, IsFormed};
    ghost use Rattle.chr_search.specs.Placed.{placed_as};

    ghost Value = { Trial };

    ghost coded = { Prim.hlevel rule_codes };

    ghost view = { λ t. record { rule = arc_value t.rule; number = t.number; head = t.head; placed = map placed_as t.placed.items } };

    ghost invariant = { λ t. IsFormed (record { rule = arc_value t.rule; number = t.number; head = t.head; placed = map placed_as t.placed.items }) };
}

impl<A: Allocator + Copy> Placed<A> {
    /// A copy, with a copy of the atom. An `Err` is E01.
    pub fn copy(&self, alloc: A) -> Result<Placed<A>, AllocError>
        ensures { IfOk result (λ made. placed_as made ≡ placed_as self.now) }
    {
        Ok(Placed {
            atom: self.atom.copy(alloc)?,
            label: self.label,
            head: self.head,
        })
    }

    /// Whether two are equal: the head, the label and the atom.
    fn same(&self, other: &Placed<A>) -> bool
        ensures { IsTrue result ↔ (placed_as self.now ≡ placed_as other.now) }
    {
        self.head == other.head && self.label == other.label && self.atom.same(&other.atom)
    }
}

/// Whether these have the same labels, in the same order.
fn same_labels<A: Allocator>(placed: &[Placed<A>], other: &[Placed<A>]) -> bool
    ensures { IsTrue result ↔ (map (λ p. p.label) placed.now ≡ map (λ p. p.label) other.now) }
{
    if placed.len() != other.len() {
        return false;
    }
    for i in 0..placed.len() {
        if placed[i].label != other[i].label {
            return false;
        }
    }
    true
}

/// Whether these are the same labels with the same heads and atoms, in the same order.
fn same_placed<A: Allocator + Copy>(placed: &[Placed<A>], other: &[Placed<A>]) -> bool
    ensures { IsTrue result ↔ (map placed_as placed.now ≡ map placed_as other.now) }
{
    // Most trials differ in their labels, which costs less to see than a difference of atoms.
    if !same_labels(placed, other) {
        return false;
    }
    for i in 0..placed.len() {
        if !placed[i].same(&other[i]) {
            return false;
        }
    }
    true
}

/// Whether these stand at the heads of a plan's first steps, and each label has its atom in the store.
fn are_placed_in<A: Allocator + Copy>(
    placed: &[Placed<A>],
    order: &[Step],
    store: &Store<A>,
) -> bool
    ensures { IsTrue result ↔ ArePlacedIn order.now store.now.entries (map placed_as placed.now) }
{
    if placed.len() > order.len() {
        return false;
    }
    for (i, one) in placed.iter().enumerate() {
        let Some(atom) = store.get(one.label) else {
            return false;
        };
        if one.head != order[i].head || !one.atom.same(atom) {
            return false;
        }
    }
    true
}

/// The label at a head, 0 where there is none.
fn label_at<A: Allocator>(placed: &[Placed<A>], head: usize) -> Label
    ensures { result ≡ label_at (map placed_as placed.now) head }
{
    for one in placed {
        if usize::from(one.head) == head {
            return one.label;
        }
    }
    0
}

/// The labels at the next heads from one on, at most six.
fn labels_from<A: Allocator>(placed: &[Placed<A>], first: usize, count: usize) -> Labels
    requires first { first ≤ 7 }
    requires count { count ≤ most_heads }
    ensures { result.items ≡ labels_from (map placed_as placed.now) first count }
{
    let mut labels = Labels::new();
    for i in 0..count {
        labels.push(label_at(placed, first + i));
    }
    labels
}

/// Puts a label after others, with its head and a copy of its atom, which is written where it stays. An `Err` is E01.
#[inline(always)]
pub(crate) fn push_placed<A: Allocator + Copy>(
    alloc: A,
    placed: &mut Vec<Placed<A>, A>,
    head: u8,
    label: Label,
    atom: &Atom<A>,
) -> Result<(), AllocError>
    ensures { OnOk result (placed.new.items ≡ placed.old.items ++ record { atom = atom.now; label = label; head = head } ∷ []) }
{
    let last = placed.len();
    placed.push(Placed {
        atom: Atom::new(alloc, atom.name()),
        label,
        head,
    })?;
    placed[last].atom.become_copy(atom)
}

/// Copies, with copies of the atoms and with room for so many more. An `Err` is E01.
fn copy_placed<A: Allocator + Copy>(
    alloc: A,
    placed: &[Placed<A>],
    more: usize,
) -> Result<Vec<Placed<A>, A>, AllocError>
    ensures { IfOk result (λ made. map placed_as made.items ≡ map placed_as placed.now) }
{
    let mut made = Vec::with_capacity(alloc, placed.len().saturating_add(more))?;
    for one in placed {
        push_placed(alloc, &mut made, one.head, one.label, &one.atom)?;
    }
    Ok(made)
}

/// Labels at the heads of a plan's first steps, with copies of their atoms. An `Err` is E01.
#[inline(always)]
fn place_labels<A: Allocator + Copy>(
    alloc: A,
    labels: &[Label],
    order: &[Step],
    store: &Store<A>,
) -> Result<Vec<Placed<A>, A>, AllocError>
    requires count { length labels.now ≤ length order.now }
    requires live { (i l : ℕ) → slice_get labels.now i ≡ Some l → (a : AtomView ℕ) × (atom_at store.now.entries l ≡ Some a) }
    ensures { IfOk result (λ placed. (map (λ p. p.label) placed.items ≡ labels.now) × ArePlacedIn order.now store.now.entries (map placed_as placed.items)) }
{
    let mut placed = Vec::with_capacity(alloc, labels.len())?;
    for (i, label) in labels.iter().enumerate() {
        let Some(atom) = store.get(*label) else {
            unreachable!();
        };
        push_placed(alloc, &mut placed, order[i].head, *label, atom)?;
    }
    Ok(placed)
}

impl<A: Allocator + Copy> Trial<A> {
    /// The rule.
    pub fn rule(&self) -> &Rule<A>
        ensures rule { result.now ≡ self.now.rule }
        ensures formed { IsFormed self.now }
    {
        &self.rule
    }

    /// The rule's number in its program.
    pub fn number(&self) -> u16
        ensures { result ≡ self.now.number }
    {
        self.number
    }

    /// The head at which the active label stands.
    pub fn head(&self) -> u8
        ensures { result ≡ self.now.head }
    {
        self.head
    }

    /// The labels with their atoms and heads, in the plan's order. At most six.
    pub fn placed(&self) -> &[Placed<A>]
        ensures placed { map placed_as result.now ≡ self.now.placed }
        ensures formed { IsFormed self.now }
    {
        &self.placed
    }

    /// The labels at the kept heads, in head order. A head that isn't tried has 0.
    pub fn kept_labels(&self) -> Labels
        ensures { result.items ≡ kept_labels self.now }
    {
        labels_from(&self.placed, 1, self.rule.kept().len())
    }

    /// The labels at the removed heads, in head order. A head that isn't tried has 0.
    pub fn removed_labels(&self) -> Labels
        ensures { result.items ≡ removed_labels self.now }
    {
        labels_from(
            &self.placed,
            self.rule.kept().len() + 1,
            self.rule.removed().len(),
        )
    }

    /// The labels at the heads, in head order: the kept ones first. A head that isn't tried has 0.
    pub(crate) fn labels_at_heads(&self) -> Labels
        ensures { result.items ≡ kept_labels self.now ++ removed_labels self.now }
    {
        labels_from(&self.placed, 1, self.rule.heads())
    }

    /// Where its labels lie.
    pub(crate) fn allocator(&self) -> A {
        *self.placed.allocator()
    }

    /// A copy: it shares the rule and has copies of the atoms. E01 where memory ran out.
    pub fn copy(&self, alloc: A) -> Result<Trial<A>, AllocError>
        ensures { IfOk result (λ made. made ≡ self.now) }
    {
        let placed = copy_placed(alloc, &self.placed, 0)?;
        Ok(Trial {
            rule: Arc::try_clone(&self.rule)?,
            number: self.number,
            head: self.head,
            placed,
        })
    }

    /// The trial of one label. An `Err` is E01.
    pub fn alone(
        alloc: A,
        rule: Arc<Rule<A>, A>,
        number: u16,
        placed: Placed<A>,
    ) -> Result<Trial<A>, AllocError>
        requires { IsFormed (trial_alone (arc_value rule) number (placed_as placed)) }
        ensures { IfOk result (λ made. made ≡ trial_alone (arc_value rule) number (placed_as placed)) }
    {
        let head = placed.head;
        let mut all = Vec::with_capacity(alloc, 1)?;
        all.push(placed)?;
        Ok(Trial {
            rule,
            number,
            head,
            placed: all,
        })
    }

    /// The trial without its last label, and that label.
    pub fn split_last(self) -> (Trial<A>, Placed<A>)
        requires { 2 ≤ length self.placed }
        ensures { lengthened result.0 (placed_as result.1) ≡ self }
    {
        let mut part = self;
        let Some(last) = part.placed.pop() else {
            unreachable!();
        };
        (part, last)
    }

    /// A copy with one label more. An `Err` is E01.
    pub fn lengthened(&self, alloc: A, last: Placed<A>) -> Result<Trial<A>, AllocError>
        requires { IsFormed (lengthened self.now (placed_as last)) }
        ensures { IfOk result (λ made. made ≡ lengthened self.now (placed_as last)) }
    {
        let mut placed = copy_placed(alloc, &self.placed, 1)?;
        placed.push(last)?;
        Ok(Trial {
            rule: Arc::try_clone(&self.rule)?,
            number: self.number,
            head: self.head,
            placed,
        })
    }

    /// Whether two trials are equal: the rule with its number, the head, and the labels with their heads and atoms,
    /// wherever the rules and the atoms lie in memory.
    pub fn same(&self, other: &Trial<A>) -> bool
        ensures { IsTrue result ↔ (self.now ≡ other.now) }
    {
        self.number == other.number
            && self.head == other.head
            && same_placed(&self.placed, &other.placed)
            && self.rule.same(&other.rule)
    }

    /// Whether another has the same rule number and head, and the same labels but the last.
    pub fn is_beside(&self, other: &Trial<A>) -> bool
        ensures { IsTrue result ↔ (front (position_of self.now) ≡ front (position_of other.now)) }
    {
        Position::of(self).is_beside(other)
    }

    /// Whether a trial whose position is admissible is the one that a program, its plans and a store give there: its rule is
    /// that of its number, its heads are those of the plan, and each label has its atom.
    pub fn stands_in(&self, program: &Program<A>, plans: &Plans<A>, store: &Store<A>) -> bool
        requires plans { ArePlans program.now plans.now }
        ensures { IsTrue result ↔ IsTrialOf program.now plans.now store.now.entries self.now }
    {
        let Some(order) = plans.plan(usize::from(self.number), self.head) else {
            return false;
        };
        if !are_placed_in(&self.placed, order, store) {
            return false;
        }
        match program.rule(usize::from(self.number)) {
            Some(rule) => rule.same(&self.rule),
            None => false,
        }
    }

    /// The admissible trial of a position, with copies of its atoms. E01 where memory ran out.
    #[inline(always)]
    pub(crate) fn at(
        alloc: A,
        position: &Position,
        program: &Program<A>,
        plans: &Plans<A>,
        store: &Store<A>,
    ) -> Result<Trial<A>, AllocError>
        requires plans { ArePlans program.now plans.now }
        requires admissible { (label : ℕ) × IsTrial (older program.now plans.now store.now.entries label) position.now }
        ensures { IfOk result (λ trial. (position_of trial ≡ position.now) × IsTrialOf program.now plans.now store.now.entries trial) }
    {
        let Some(rule) = program.rule(usize::from(position.rule)) else {
            unreachable!();
        };
        let Some(order) = plans.plan(usize::from(position.rule), position.head) else {
            unreachable!();
        };
        // For the proof: the labels of a store are at most the greatest.
        let _given = store.next_label();
        let placed = place_labels(alloc, position.labels.as_slice(), order, store)?;
        Ok(Trial {
            rule: Arc::try_clone(rule)?,
            number: position.rule,
            head: position.head,
            placed,
        })
    }
}
