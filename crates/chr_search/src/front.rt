//! Trials that differ in their last label.
ghost use Rattle.std.specs.Prelude.{◌≡◌, ◌↔◌, ◌∷◌, ◌++◌, ◌≤◌, [], ℕ, List, length, map, IfOk, OnOk, MatchOption, IsTrue};
ghost use Rattle.chr_plan.specs.Plans.{ArePlans};
ghost use Rattle.chr_search.specs.declared.trial.Placed.{Placed as CodePlaced};
ghost use Rattle.chr_search.specs.Fronts.{MayEnd, IsEndFrom, IsFront, IsPlacedAfter};
ghost use Rattle.chr_search.specs.Joined.{join_of};
ghost use Rattle.chr_search.specs.Partners.{HasPlan, IsReady};
ghost use Rattle.chr_search.specs.Placed.{placed_as};
ghost use Rattle.chr_search.specs.Tree.{Grows};
ghost use Rattle.chr_search.specs.Trials.{Space, older, MayFollow};

use crate::join::Join;
use crate::passing::Level;
use crate::search::Search;
use crate::trial::{Placed, push_placed};
use chr_guard::Binding;
use chr_log::Labels;
use chr_plan::Plans;
use chr_rule::Program;
use chr_store::{Label, Store, View};
use std::alloc::{AllocError, Allocator};

/// How many labels there is room for at first where the store doesn't know how many there are.
const FIRST_ROOM: usize = 2;

/// A rule, a head of it, and labels, with which admissible trials begin that have one label more.
#[derive(Drop)]
pub struct Front<'b, 's, A: Allocator> {
    pub(crate) join: Join<'s, A>,
    pub(crate) labels: Labels,
    /// The binding of the labels. It is lent, since one costs more to make than to set.
    pub(crate) binding: &'b Binding<'s, A>,
    pub(crate) level: Level<'s, A>,
    /// The head at which the last label stands.
    pub(crate) head: u8,
}

impl<'s, A: Allocator + Copy> Join<'s, A> {
    /// These labels, by which the binding of no labels is extended in turn. None where no trial begins with them and goes on.
    #[inline(always)]
    fn narrow_by_all(&self, binding: &mut Binding<'s, A>, placed: &[Placed<A>]) -> Option<Labels>
        requires plan { HasPlan (join_of self.now) }
        requires ready { IsReady (join_of self.now) [] binding.old }
        ensures { let ls = map (λ p. p.label) placed.now in MatchOption result ((x : ℕ) → Grows (MayFollow (join_of self.now)) [] (ls ++ x ∷ []) → ⊥) (λ labels. (labels.items ≡ ls) × Grows (MayFollow (join_of self.now)) [] ls × IsReady (join_of self.now) ls binding.new) }
    {
        let mut labels = Labels::new();
        for one in placed {
            if !self.narrow_by(labels.as_slice(), binding, one.label) {
                return None;
            }
            labels.push(one.label);
        }
        Some(labels)
    }
}

impl<'b, 's, A: Allocator + Copy> Front<'b, 's, A> {
    /// What the admissible trials of an active label have in common that begin with a rule, a head and these labels, one at
    /// least, and have one label more. None where there is no such trial. The binding becomes that of the labels. It takes no
    /// memory.
    #[inline(always)]
    pub fn of(
        program: &'s Program<A>,
        plans: &'s Plans<A>,
        store: &'s Store<A>,
        active: Label,
        at: (u16, u8),
        placed: &[Placed<A>],
        binding: &'b mut Binding<'s, A>,
    ) -> Option<Front<'b, 's, A>>
        requires plans { ArePlans program.now plans.now }
        requires some { 1 ≤ length placed.now }
        requires few { length placed.now ≤ 5 }
        ensures { let s = older program.now plans.now store.now.entries active in let ls = map (λ p. p.label) placed.now in MatchOption result ((x : ℕ) → MayEnd s (at.0 ∷ at.1 ∷ ls) x → ⊥) (IsFront s at.0 at.1 ls) }
    {
        let view = View::of(store, active);
        let join = Search::join_at(program, plans, &view, at.0, at.1)?;
        if !join.begins() {
            return None;
        }
        binding.reset(join.rule.variables());
        let labels = join.narrow_by_all(binding, placed)?;
        let step = join.order.get(labels.len())?;
        let level = join.level(labels.as_slice(), binding)?;
        Some(Front {
            join,
            labels,
            binding,
            level,
            head: step.head,
        })
    }

    /// The least label from one on with which an admissible trial ends. None where there is none.
    #[inline(always)]
    pub fn next(&mut self, from: Label) -> Option<Label>
        requires { (s : Space) × (r : ℕ) × (h : ℕ) × (ls : List ℕ) × IsFront s r h ls self.old }
        ensures { (s : Space) (r h : ℕ) (ls : List ℕ) → IsFront s r h ls self.old → IsEndFrom s (r ∷ h ∷ ls) from result × IsFront s r h ls self.new }
    {
        let labels = self.labels.as_slice();
        // For the proof: the labels of a store are numbered from 1.
        let _given = self.join.view.active();
        let after = from.saturating_sub(1);
        self.join
            .next_after(&mut self.level, labels, self.binding, after)
    }

    /// No labels, with room for those with which admissible trials end, but for at most so many. An `Err` is E01.
    pub fn no_ends(&self, alloc: A, most: usize) -> Result<Vec<Placed<A>, A>, AllocError>
        ensures { IfOk result (λ made. made.items ≡ []) }
    {
        let count = match &self.level.partners {
            None => FIRST_ROOM,
            Some(partners) => partners.most(),
        };
        Vec::with_capacity(alloc, count.min(most))
    }

    /// Puts a label with which an admissible trial ends after others, with a copy of its atom. An `Err` is E01.
    #[inline(always)]
    pub fn push_end(
        &self,
        alloc: A,
        placed: &mut Vec<Placed<A>, A>,
        label: Label,
    ) -> Result<(), AllocError>
        requires { (s : Space) × (r : ℕ) × (h : ℕ) × (ls : List ℕ) × IsFront s r h ls self.now × MayEnd s (r ∷ h ∷ ls) label }
        ensures { OnOk result ((p : CodePlaced A) × (placed.new.items ≡ placed.old.items ++ p ∷ []) × (p.label ≡ label) × ((s : Space) (r h : ℕ) (ls : List ℕ) → IsFront s r h ls self.now → IsPlacedAfter s r h (length ls) (placed_as p))) }
    {
        let Some(atom) = self.join.view.get(label) else {
            unreachable!();
        };
        push_placed(alloc, placed, self.head, label, atom)
    }

    /// Whether a label has this atom in the store, and stands at the head at which trials end.
    pub fn has(&self, placed: &Placed<A>) -> bool
        requires { (s : Space) × (r : ℕ) × (h : ℕ) × (ls : List ℕ) × IsFront s r h ls self.now }
        ensures { (s : Space) (r h : ℕ) (ls : List ℕ) → IsFront s r h ls self.now → IsTrue result ↔ IsPlacedAfter s r h (length ls) (placed_as placed.now) }
    {
        let Some(atom) = self.join.view.get(placed.label) else {
            return false;
        };
        placed.head == self.head && placed.atom.same(atom)
    }
}
