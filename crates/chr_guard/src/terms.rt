//! The values of terms under a binding, compared and counted without being made.
ghost use Rattle.std.specs.Prelude.{◌≡◌, ◌≢◌, ◌↔◌, true, false, IsTrue, IsSome, IfSome, Some, map};
ghost use Rattle.std.specs.List.{AllByRecursion};
ghost use Rattle.std.specs.Option.{option_map};
ghost use Rattle.chr_value.specs.Atoms.{ground, said};
ghost use Rattle.chr_rule.specs.Parts.{argument, shape};
ghost use Rattle.chr_rule.specs.Rules.{terms_of};
ghost use Rattle.chr_guard.specs.Values.{key_under, term_under, terms_under, value_under, WhereBoth};
ghost use Rattle.chr_guard.specs.Bindings.{bound_at, IsBound};
ghost use Rattle.chr_guard.specs.Instances.{made_under};
ghost use Rattle.chr_guard.specs.Terms.{plain_value, left_under, left_under_all};

use crate::binding::Binding;
use chr_rule::{RuleAtom, Term};
use chr_value::{MOST_DEPTH, MOST_SIZE, Name, Value, ValueRef};
use std::alloc::Allocator;

/// A number or a symbol.
#[derive(Clone, Copy)]
pub(crate) enum Plain {
    Number(i64),
    Symbol(Name),
}

/// Whether two are equal.
#[inline(always)]
fn same_plain(a: Plain, b: Plain) -> bool
    ensures { IsTrue result ↔ (plain_value a ≡ plain_value b) }
{
    match (a, b) {
        (Plain::Number(m), Plain::Number(n)) => m == n,
        (Plain::Symbol(s), Plain::Symbol(t)) => s.number == t.number,
        _ => false,
    }
}

impl<'v, A: Allocator + Copy> Binding<'v, A> {
    /// What a term stands for that may be a key: a variable, or a value as it is written. None for a variable that is
    /// free, and for a functor with variables in it, which is no key even where they are bound.
    #[inline(always)]
    pub fn key(&self, term: &'v Term<A>) -> Option<ValueRef<'v, A>>
        ensures { option_map said result ≡ key_under (bound_at self.now) (argument term.now) }
    {
        match term {
            Term::Var(x) => self.at(*x),
            Term::Given(value) => Some(value.as_ref()),
            Term::Open(_) => None,
        }
    }

    /// The number or the symbol that a term stands for. None where it stands for a compound value, or for nothing.
    #[inline(always)]
    pub(crate) fn plain(&self, term: &Term<A>) -> Option<Plain>
        ensures { IfSome result (λ p. term_under (bound_at self.now) (argument term.now) ≡ Some (plain_value p)) }
    {
        match term {
            Term::Var(x) => match self.at(*x) {
                Some(ValueRef::Int(n)) => Some(Plain::Number(n)),
                Some(ValueRef::Sym(name)) => Some(Plain::Symbol(name)),
                _ => None,
            },
            Term::Given(value) => match value {
                Value::Int(n) => Some(Plain::Number(*n)),
                Value::Sym(name) => Some(Plain::Symbol(*name)),
                Value::Comp(_) => None,
            },
            Term::Open(_) => None,
        }
    }

    /// How much room the value of a term leaves where it may be `depth` deep and `room` large. None where it is deeper
    /// or larger, and where there is none.
    #[cycle(left)]
    fn left(&self, term: &Term<A>, depth: u8, room: u8) -> Option<u8>
        ensures { result ≡ left_under depth room (term_under (bound_at self.now) (argument term.now)) }
    {
        match term {
            Term::Var(x) => match self.at(*x) {
                None => None,
                Some(value) => value.left(depth, room),
            },
            Term::Given(value) => value.as_ref().left(depth, room),
            Term::Open(open) => {
                if depth == 0 || room == 0 {
                    return None;
                }
                self.left_behind(&open.args, depth - 1, room - 1)
            }
        }
    }

    /// The same for the arguments of a functor.
    #[cycle(left)]
    fn left_behind(&self, terms: &[Term<A>], depth: u8, room: u8) -> Option<u8>
        ensures { result ≡ left_under_all depth room (terms_under (bound_at self.now) (terms_of (map argument terms.now))) }
    {
        let mut rest = room;
        for term in terms {
            rest = self.left(term, depth, rest)?;
        }
        Some(rest)
    }

    /// Whether a term has a value within the limits, by a count of it.
    fn is_within(&self, term: &Term<A>) -> bool
        ensures { IsTrue result ↔ IsSome (value_under (bound_at self.now) (argument term.now)) }
    {
        self.left(term, MOST_DEPTH, MOST_SIZE).is_some()
    }

    /// Whether a term is bound, if it is a variable.
    #[inline(always)]
    fn is_bound_term(&self, term: &Term<A>) -> bool
        ensures { IsTrue result ↔ IsBound self.now (argument term.now) }
    {
        match term {
            Term::Var(x) => self.is_bound(*x),
            _ => true,
        }
    }

    /// Whether each term that is a variable is bound.
    pub(crate) fn are_bound_terms(&self, terms: &[Term<A>]) -> bool
        ensures { IsTrue result ↔ AllByRecursion (IsBound self.now) (map argument terms.now) }
    {
        for term in terms {
            if !self.is_bound_term(term) {
                return false;
            }
        }
        true
    }

    /// Whether a term that is no free variable has a value within the limits. What a variable is bound to always is within
    /// them.
    #[inline(always)]
    pub(crate) fn has_bound_value(&self, term: &Term<A>) -> bool
        requires { IsBound self.now (argument term.now) }
        ensures { IsTrue result ↔ IsSome (value_under (bound_at self.now) (argument term.now)) }
    {
        self.are_within();
        match term {
            Term::Var(_) | Term::Given(Value::Int(_)) | Term::Given(Value::Sym(_)) => true,
            Term::Given(Value::Comp(_)) | Term::Open(_) => self.is_within(term),
        }
    }

    /// Whether a term has a value within the limits.
    #[inline(always)]
    pub(crate) fn has_value(&self, term: &Term<A>) -> bool
        ensures { IsTrue result ↔ IsSome (value_under (bound_at self.now) (argument term.now)) }
    {
        self.is_bound_term(term) && self.has_bound_value(term)
    }

    /// Whether each argument of a constraint has a value within the limits, where none is a free variable.
    #[inline(always)]
    pub(crate) fn have_bound_values(&self, pattern: &RuleAtom<A>) -> bool
        requires { AllByRecursion (IsBound self.now) (shape pattern.now).args }
        ensures { IsTrue result ↔ IsSome (made_under (bound_at self.now) (shape pattern.now)) }
    {
        for term in &pattern.terms {
            if !self.has_bound_value(term) {
                return false;
            }
        }
        true
    }

    /// Whether a term stands for a value.
    #[cycle(stands)]
    fn stands_for(&self, term: &Term<A>, value: ValueRef<'_, A>) -> bool
        ensures { IsTrue result ↔ (term_under (bound_at self.now) (argument term.now) ≡ Some (said value.entry)) }
    {
        match term {
            Term::Var(x) => match self.at(*x) {
                None => false,
                Some(other) => other.same(&value),
            },
            Term::Given(given) => given.as_ref().same(&value),
            Term::Open(open) => match value {
                ValueRef::Comp(comp) => {
                    open.functor.number == comp.functor.number
                        && self.stand_for(&open.args, &comp.args)
                }
                _ => false,
            },
        }
    }

    /// The same for the arguments of a functor.
    #[cycle(stands)]
    fn stand_for(&self, terms: &[Term<A>], values: &[Value<A>]) -> bool
        ensures { IsTrue result ↔ (map (term_under (bound_at self.now)) (map argument terms.now) ≡ map (λ t. Some (ground t)) values.now) }
    {
        if terms.len() != values.len() {
            return false;
        }
        for i in 0..terms.len() {
            if !self.stands_for(&terms[i], values[i].as_ref()) {
                return false;
            }
        }
        true
    }

    /// Whether two terms stand for one value.
    #[cycle(same)]
    fn same(&self, s: &Term<A>, t: &Term<A>) -> bool
        ensures { IsTrue result ↔ WhereBoth (λ a b. a ≡ b) (term_under (bound_at self.now) (argument s.now)) (term_under (bound_at self.now) (argument t.now)) }
    {
        match s {
            Term::Var(x) => match self.at(*x) {
                None => false,
                Some(value) => self.stands_for(t, value),
            },
            Term::Given(value) => self.stands_for(t, value.as_ref()),
            Term::Open(open) => match t {
                Term::Var(y) => match self.at(*y) {
                    None => false,
                    Some(value) => self.stands_for(s, value),
                },
                Term::Given(value) => self.stands_for(s, value.as_ref()),
                Term::Open(other) => {
                    open.functor.number == other.functor.number
                        && self.all_same(&open.args, &other.args)
                }
            },
        }
    }

    /// The same for the arguments of two functors.
    #[cycle(same)]
    fn all_same(&self, terms: &[Term<A>], others: &[Term<A>]) -> bool
        ensures { IsTrue result ↔ WhereBoth (λ a b. a ≡ b) (terms_under (bound_at self.now) (terms_of (map argument terms.now))) (terms_under (bound_at self.now) (terms_of (map argument others.now))) }
    {
        if terms.len() != others.len() {
            return false;
        }
        for i in 0..terms.len() {
            if !self.same(&terms[i], &others[i]) {
                return false;
            }
        }
        true
    }

    /// Whether two terms have values within the limits, and the same one where `are_same` says so, or else different ones.
    // A call, since comparisons of numbers are far more frequent, and a judgement is to be short enough to be inlined.
    #[inline(never)]
    pub(crate) fn are_compared(&self, s: &Term<A>, t: &Term<A>, are_same: bool) -> bool
        ensures same { are_same ≡ true → (IsTrue result ↔ WhereBoth (λ a b. a ≡ b) (value_under (bound_at self.now) (argument s.now)) (value_under (bound_at self.now) (argument t.now))) }
        ensures differ { are_same ≡ false → (IsTrue result ↔ WhereBoth (λ a b. a ≢ b) (value_under (bound_at self.now) (argument s.now)) (value_under (bound_at self.now) (argument t.now))) }
    {
        match (self.plain(s), self.plain(t)) {
            (Some(a), Some(b)) => same_plain(a, b) == are_same,
            _ => self.has_value(s) && self.has_value(t) && self.same(s, t) == are_same,
        }
    }
}
