//! Judging trials that differ in their last label.
ghost use Rattle.std.specs.Prelude.{◌≡◌, ◌↔◌, ◌+◌, ◌∷◌, [], length, true, false, MatchOption, IsTrue};
ghost use Rattle.chr_guard.specs.Bindings.{Keeps};
ghost use Rattle.chr_guard.specs.Matching.{AreAtHeads, IsFit};
ghost use Rattle.chr_model.specs.Stores.{Distinct};
ghost use Rattle.chr_plan.specs.Orders.{heads_of};
ghost use Rattle.chr_search.specs.declared.judged.Verdict.TheVariants as verdicts;
ghost use Rattle.chr_search.specs.Fronts.{IsFitted, lengthened};
ghost use Rattle.chr_search.specs.Judged.{IsVerdict};
ghost use Rattle.chr_search.specs.Placed.{placed_as};
ghost use Rattle.chr_search.specs.Verdicts.{Placed as PlacedView, Trial as TrialView, IsFormed, IsWholeUnder, labels, at_heads};

use crate::judged::{are_distinct, fit_placed, has_label};
use crate::trial::{Placed, Trial};
use chr_guard::instance::becomes_instance;
use chr_guard::{Binding, Known, fit_head};
use chr_rule::Rule;
use chr_value::Atom;
use std::alloc::Allocator;

/// A part whose heads fit, by which the trials are judged that have one label more. The binding of its heads lies elsewhere,
/// since one serves many parts.
#[derive(Drop)]
pub struct Fitted<'t, A: Allocator> {
    pub(crate) part: &'t Trial<A>,
    /// The variables that the part's labels bind.
    pub(crate) known: Known,
}

/// Whether a trial of a part and one label more, which has all heads then, is a misfit. The binding is that of the part; where
/// the trial is whole, it becomes that of its instance.
fn is_misfit_after<'t, A: Allocator + Copy>(
    part: &Trial<A>,
    binding: &mut Binding<'t, A>,
    last: &'t Placed<A>,
) -> bool
    requires full { length part.now.placed + 1 ≡ length (heads_of part.now.rule) }
    requires distinct { Distinct (labels part.now) }
    requires fit { IsFit part.now.rule (AreAtHeads part.now.rule (at_heads part.now)) binding.old }
    requires formed { IsFormed (lengthened part.now (placed_as last.now)) }
    ensures misfit { IsTrue result ↔ IsVerdict (lengthened part.now (placed_as last.now)) verdicts.Misfit }
    ensures whole { result ≡ false → IsWholeUnder (lengthened part.now (placed_as last.now)) binding.new }
    ensures keeps { Keeps binding.old binding.new }
{
    if has_label(part.placed(), last.label) {
        return true;
    }
    let rule = part.rule();
    let Some(head) = rule.head(usize::from(last.head)) else {
        return true;
    };
    !fit_head(binding, head, &last.atom) || !becomes_instance(rule, rule.guard(), binding)
}

/// Whether the trial of a rule of one head and an atom at that head is a misfit. The binding becomes another one: where the
/// trial is whole, that of its instance. It takes no memory.
pub fn is_misfit_alone<'v, A: Allocator + Copy>(
    binding: &mut Binding<'v, A>,
    rule: &Rule<A>,
    head: u8,
    atom: &'v Atom<A>,
) -> bool
    requires { length (heads_of rule.now) ≡ 1 }
    ensures misfit { (t : TrialView) → t.rule ≡ rule.now → at_heads t ≡ (head, atom.now) ∷ [] → IsFormed t → IsTrue result ↔ IsVerdict t verdicts.Misfit }
    ensures whole { result ≡ false → (t : TrialView) → t.rule ≡ rule.now → at_heads t ≡ (head, atom.now) ∷ [] → IsFormed t → IsWholeUnder t binding.new }
{
    binding.reset(rule.variables());
    let Some(head) = rule.head(usize::from(head)) else {
        return true;
    };
    !fit_head(binding, head, atom) || !becomes_instance(rule, rule.guard(), binding)
}

impl<'t, A: Allocator + Copy> Fitted<'t, A> {
    /// A trial that one head is left of, where it is a part: the binding becomes that of its heads. None where it isn't, and no
    /// trial that it begins is. It takes no memory.
    pub fn of(part: &'t Trial<A>, binding: &mut Binding<'t, A>) -> Option<Fitted<'t, A>>
        requires { length part.now.placed + 1 ≡ length (heads_of part.now.rule) }
        ensures { MatchOption result ((p : PlacedView) → IsFormed (lengthened part.now p) → IsVerdict (lengthened part.now p) verdicts.Misfit) (λ fitted. IsFitted part.now fitted binding.new) }
    {
        let rule = part.rule();
        let placed = part.placed();
        if !are_distinct(placed) {
            return None;
        }
        binding.reset(rule.variables());
        if !fit_placed(binding, rule, placed) {
            return None;
        }
        Some(Fitted {
            part,
            known: binding.known(),
        })
    }

    /// Whether the trial of the part and one label more is a misfit. The binding is that of the part's heads; where the trial is
    /// whole, it becomes that of its instance.
    pub fn is_misfit(&self, binding: &mut Binding<'t, A>, last: &'t Placed<A>) -> bool
        requires fitted { (part : TrialView) × IsFitted part self.now binding.old × IsFormed (lengthened part (placed_as last.now)) }
        ensures misfit { (part : TrialView) → IsFitted part self.now binding.old → IsTrue result ↔ IsVerdict (lengthened part (placed_as last.now)) verdicts.Misfit }
        ensures fitted { result ≡ true → (part : TrialView) → IsFitted part self.now binding.old → IsFitted part self.now binding.new }
        ensures whole { result ≡ false → (part : TrialView) → IsFitted part self.now binding.old → IsWholeUnder (lengthened part (placed_as last.now)) binding.new }
    {
        if !is_misfit_after(self.part, binding, last) {
            return false;
        }
        binding.return_to(self.known);
        true
    }
}
