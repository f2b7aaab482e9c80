//! What the variables of a rule are bound to.
ghost use Rattle.std.specs.Prelude.{◌≡◌, ◌≢◌, ◌<◌, ◌≤◌, ◌↔◌, ℕ, List, Option, IsTrue, Some, None, IsSome, IfSome, length, replicate, slice_set};
ghost use Rattle.std.specs.Int.{bit_at};
ghost use Rattle.std.specs.Option.{option_map};
ghost use Rattle.chr_value.specs.Atoms.{said, Int, Value};
ghost use Rattle.chr_value.specs.Bounds.{most_variables};
ghost use Rattle.chr_value.specs.Limits.{IsWithin};
ghost use Rattle.chr_guard.specs.Bindings.{bound_at, NarrowsIf, Keeps, AreKnown};

use arrayvec::ArrayVec;
use chr_rule::MOST_VARIABLES;
use chr_value::ValueRef;
use std::alloc::Allocator;
use std::marker::Model;

/// Which variables of a binding are bound.
#[derive(Clone, Copy)]
pub struct Known {
    /// Bit x is that of variable x.
    bits: u32,
}

impl Known {
    /// Whether a variable is among them.
    #[inline(always)]
    fn has(self, variable: u8) -> bool
        requires { variable < most_variables }
        ensures { IsTrue result ↔ (bit_at self.bits variable ≡ 1) }
    {
        (self.bits >> variable) & 1 == 1
    }

    /// These and one variable more.
    #[inline(always)]
    fn with(self, variable: u8) -> Known
        requires { variable < most_variables }
        ensures here { bit_at result.bits variable ≡ 1 }
        ensures others { (x : ℕ) → x ≢ variable → bit_at result.bits x ≡ bit_at self.bits x }
    {
        Known {
            bits: self.bits | 1 << variable,
        }
    }
}

/// What the variables of a rule are bound to, at most 24: values within the limits. Numbers and symbols are its own, and
/// compound values lie in the atoms at the rule's heads. It takes no memory.
#[derive(Drop)]
pub struct Binding<'v, A: Allocator> {
    /// Says nothing of a variable that isn't known.
    bound: ArrayVec<ValueRef<'v, A>, MOST_VARIABLES>,
    known: Known,
    variables: usize,
}

impl<'v, A: Allocator> Model for Binding<'v, A> {
    ghost use Rattle.std.specs.Prelude.{ℕ, List, Option, take};
    ghost use Rattle.chr_value.specs.Atoms.{Value as PlainValue};
    ghost use Rattle.chr_value.specs.Code.{value_codes};
    ghost use Rattle.chr_guard.specs.Bindings.{told_from, AreBoundBy};

    ghost Value = { List (Option (PlainValue ℕ)) };

    ghost coded = { Prim.hlevel value_codes };

    ghost view = { λ b. take b.variables (told_from b.known.bits 0 b.bound.items) };

    ghost invariant = { λ b. AreBoundBy b.known.bits b.variables b.bound.items };
}

impl<'v, A: Allocator + Copy> Binding<'v, A> {
    /// This many variables, at most 24, which are all free.
    #[tactic(auto, using(crate::proofs::Bindings::told_none))]
    pub fn free(variables: usize) -> Binding<'v, A>
        requires { variables ≤ most_variables }
        ensures { result ≡ replicate variables None }
    {
        Binding {
            bound: ArrayVec::from_array_in((), [ValueRef::Int(0); MOST_VARIABLES]),
            known: Known { bits: 0 },
            variables,
        }
    }

    /// How many variables there are, at most 24.
    #[tactic(auto, using(crate::proofs::Bindings::length_binding))]
    pub(crate) fn variables(&self) -> usize
        ensures count { result ≡ length self.now }
        ensures few { result ≤ most_variables }
    {
        self.variables
    }

    /// Becomes one of this many variables, at most 24, which are all free.
    #[inline(always)]
    #[tactic(auto, using(crate::proofs::Bindings::told_none))]
    pub fn reset(&mut self, variables: usize)
        requires { variables ≤ most_variables }
        ensures { self.new ≡ replicate variables None }
    {
        self.known = Known { bits: 0 };
        self.variables = variables;
    }

    /// Which variables are bound.
    #[inline(always)]
    #[tactic(auto, using(crate::proofs::Bindings::known_bits))]
    pub fn known(&self) -> Known
        ensures { AreKnown result self.now }
    {
        self.known
    }

    /// Becomes again what it was when these were the variables that were bound, all of which it has kept: the others are
    /// free again.
    #[inline(always)]
    pub fn return_to(&mut self, known: Known)
        requires { (before : List (Option (Value ℕ))) × AreKnown known before × Keeps before self.old }
        ensures { (before : List (Option (Value ℕ))) → AreKnown known before → Keeps before self.old → self.new ≡ before }
    {
        self.known = known;
    }

    /// What a variable is bound to.
    #[inline(always)]
    pub fn at(&self, variable: u8) -> Option<ValueRef<'v, A>>
        ensures { option_map said result ≡ bound_at self.now variable }
    {
        if !self.is_bound(variable) {
            return None;
        }
        Some(self.bound(variable))
    }

    /// Whether a variable is bound.
    #[inline(always)]
    pub(crate) fn is_bound(&self, variable: u8) -> bool
        ensures { IsTrue result ↔ IsSome (bound_at self.now variable) }
    {
        usize::from(variable) < self.variables && self.known.has(variable)
    }

    /// What a variable is bound to is within the limits of values.
    #[inline(always)]
    pub(crate) fn are_within(&self)
        ensures { (x : ℕ) → IfSome (bound_at self.now x) (λ a. IsWithin a) }
    {
        let _ = &self.bound;
    }

    /// What a variable is bound to that is bound.
    #[inline(always)]
    pub(crate) fn bound(&self, variable: u8) -> ValueRef<'v, A>
        requires { IsSome (bound_at self.now variable) }
        ensures { Some (said result) ≡ bound_at self.now variable }
    {
        self.bound[usize::from(variable)]
    }

    /// Binds a variable anew.
    #[inline(always)]
    pub(crate) fn put(&mut self, variable: u8, value: ValueRef<'v, A>)
        requires place { variable < length self.old }
        requires within { IsWithin (said value) }
        ensures { self.new ≡ slice_set self.old variable (Some (said value.entry)) }
    {
        self.bound[usize::from(variable)] = value;
        self.known = self.known.with(variable);
    }

    /// Binds a variable to a value. Where it is bound already, answers whether it is bound to this one.
    #[inline(always)]
    pub(crate) fn hold(&mut self, variable: u8, value: ValueRef<'v, A>) -> bool
        requires place { variable < length self.old }
        requires within { IsWithin (said value) }
        ensures narrows { NarrowsIf (λ v. v variable ≡ Some (said value.entry)) result self.old self.new }
        ensures keeps { Keeps self.old self.new }
    {
        if !self.known.has(variable) {
            self.put(variable, value);
            return true;
        }
        self.bound[usize::from(variable)].same(&value)
    }

    /// Binds a variable to a number. Where it is bound already, answers whether it is bound to this one.
    pub(crate) fn bind_number(&mut self, variable: u8, number: i64) -> bool
        requires { variable < length self.old }
        ensures narrows { NarrowsIf (λ v. v variable ≡ Some (Int number)) result self.old self.new }
        ensures keeps { Keeps self.old self.new }
    {
        self.hold(variable, ValueRef::Int(number))
    }

    /// A copy.
    pub fn copy(&self) -> Binding<'v, A>
        ensures { result ≡ self.now }
    {
        let mut copy = Binding::free(self.variables);
        for variable in 0..self.variables {
            copy.bound[variable] = self.bound[variable];
        }
        copy.known = self.known;
        copy
    }

    /// A copy with at least this many variables, at most 24: further ones are free.
    pub(crate) fn widened(&self, variables: usize) -> Binding<'v, A>
        requires { variables ≤ most_variables }
        ensures places { variables ≤ length result }
        ensures same { (x : ℕ) → bound_at result x ≡ bound_at self.now x }
    {
        let mut copy = self.copy();
        copy.variables = copy.variables.max(variables);
        copy
    }
}
