//! The order in which the heads of a rule are tried.
ghost use Rattle.std.specs.Prelude.{◌≡◌, ℕ, ◌≤◌, ◌||◌, false, length, map, position, MatchOption, slice_index_or};
ghost use Rattle.chr_value.specs.Bounds.{most_heads};
ghost use Rattle.chr_rule.specs.Rules.{heads_of, head_at};
ghost use Rattle.chr_rule.specs.Parts.{argument};
ghost use Rattle.chr_plan.specs.Orders.{stands_in, has_variable, binds, is_bound, is_known, key_in, is_new, is_key, are_new, fresh_in, is_named, IsOpen, IsNext, IsPlan};

use arrayvec::ArrayVec;
use chr_rule::{Rule, Term};
use std::alloc::Allocator;

/// A head by its number, the place of its first argument whose value is known by then, and whether its other arguments are
/// variables that come up there first, each once. Places are numbered from 1.
#[derive(Clone, Copy, Debug, PartialEq, Eq)]
pub struct Step {
    pub head: u8,
    pub key: Option<u8>,
    pub fresh: bool,
}

impl Default for Step {
    fn default() -> Self {
        Step {
            head: 0,
            key: None,
            fresh: false,
        }
    }
}

/// The heads of a rule in the order in which they are tried.
pub type Order = ArrayVec<Step, 6>;

/// For each number of a variable, whether it is bound.
type BoundVariables = [bool; 256];

/// No variable is bound.
fn nothing_bound() -> BoundVariables
    ensures { (x : ℕ) → slice_index_or result x false ≡ false }
{
    [false; 256]
}

/// Whether one of the steps is for the head.
fn is_named(steps: &[Step], number: u8) -> bool
    ensures { result ≡ is_named steps.now number }
{
    steps.iter().any(|step| step.head == number)
}

/// Whether a term is a value or a bound variable.
fn is_known<A: Allocator>(term: &Term<A>, bound: &BoundVariables) -> bool
    ensures { result ≡ is_known (λ x. slice_index_or bound.now x false) (argument term.now) }
{
    match term {
        Term::Var(x) => bound[usize::from(*x)],
        Term::Given(_) => true,
        Term::Open(_) => false,
    }
}

/// The index of the first term that is known.
fn first_known<A: Allocator>(terms: &[Term<A>], bound: &BoundVariables) -> Option<usize>
    ensures { result ≡ position (λ t. is_known (λ x. slice_index_or bound.now x false) (argument t)) terms.now }
{
    terms.iter().position(|term| is_known(term, bound))
}

/// The key of a head.
fn key<A: Allocator>(rule: &Rule<A>, number: u8, bound: &BoundVariables) -> Option<u8>
    ensures { result ≡ key_in (λ x. slice_index_or bound.now x false) (head_at rule.now number) }
{
    let pattern = rule.head(usize::from(number))?;
    let index = first_known(&pattern.terms, bound)?;
    Some(index as u8 + 1)
}

/// Binds the variables of a term.
#[cycle(bind)]
fn bind_term<A: Allocator>(term: &Term<A>, bound: &mut BoundVariables)
    ensures { (x : ℕ) → slice_index_or bound.new x false ≡ (stands_in x (argument term.now) || slice_index_or bound.old x false) }
{
    match term {
        Term::Var(x) => bound[usize::from(*x)] = true,
        Term::Given(_) => {}
        Term::Open(open) => bind_terms(&open.args, bound),
    }
}

/// Binds the variables of these terms.
#[cycle(bind)]
fn bind_terms<A: Allocator>(terms: &[Term<A>], bound: &mut BoundVariables)
    ensures { (x : ℕ) → slice_index_or bound.new x false ≡ (has_variable x (map argument terms.now) || slice_index_or bound.old x false) }
{
    for term in terms {
        bind_term(term, bound);
    }
}

/// Binds the variables of a head.
fn bind<A: Allocator>(rule: &Rule<A>, number: u8, bound: &mut BoundVariables)
    ensures { (x : ℕ) → slice_index_or bound.new x false ≡ (binds (head_at rule.now number) x || slice_index_or bound.old x false) }
{
    if let Some(pattern) = rule.head(usize::from(number)) {
        bind_terms(&pattern.terms, bound);
    }
}

/// Whether a term is a variable that isn't bound.
fn is_new<A: Allocator>(term: &Term<A>, bound: &BoundVariables) -> bool
    ensures { result ≡ is_new (λ x. slice_index_or bound.now x false) (argument term.now) }
{
    match term {
        Term::Var(x) => !bound[usize::from(*x)],
        Term::Given(_) | Term::Open(_) => false,
    }
}

/// Whether a place is the key's.
fn is_key(key: Option<u8>, place: usize) -> bool
    ensures { result ≡ is_key key place }
{
    match key {
        Some(key) => usize::from(key) == place,
        None => false,
    }
}

/// Whether these terms, but the one at the key's place, are variables that aren't bound, each once.
fn are_new<A: Allocator>(terms: &[Term<A>], key: Option<u8>, bound_before: &BoundVariables) -> bool
    ensures { result ≡ are_new (λ x. slice_index_or bound_before.now x false) key 1 (map argument terms.now) }
{
    let mut bound = *bound_before;
    for (at, term) in terms.iter().enumerate() {
        if !is_key(key, at + 1) && !is_new(term, &bound) {
            return false;
        }
        bind_term(term, &mut bound);
    }
    true
}

/// Whether the arguments of a head but its key are variables that aren't bound, each once.
fn is_fresh<A: Allocator>(
    rule: &Rule<A>,
    number: u8,
    key: Option<u8>,
    bound: &BoundVariables,
) -> bool
    ensures { result ≡ fresh_in (λ x. slice_index_or bound.now x false) (head_at rule.now number) key }
{
    match rule.head(usize::from(number)) {
        Some(pattern) => are_new(&pattern.terms, key, bound),
        None => false,
    }
}

/// The next step: the least open head with a key, else the least open head. None where no head is open.
fn next_step<A: Allocator>(rule: &Rule<A>, before: &[Step], bound: &BoundVariables) -> Option<Step>
    requires { (x : ℕ) → slice_index_or bound.now x false ≡ is_bound (heads_of rule.now) before.now x }
    ensures step { MatchOption result ((j : ℕ) → IsOpen (heads_of rule.now) before.now j → ⊥) (IsNext (heads_of rule.now) before.now) }
    ensures few { length (heads_of rule.now) ≤ most_heads }
{
    let mut first = None;
    for at in 0..rule.heads() {
        let number = at as u8 + 1;
        if !is_named(before, number) {
            let key = key(rule, number, bound);
            let fresh = is_fresh(rule, number, key, bound);
            let step = Step {
                head: number,
                key,
                fresh,
            };
            if key.is_some() {
                return Some(step);
            }
            first = Some(first.unwrap_or(step));
        }
    }
    first
}

/// The plan of a head.
pub(crate) fn plan_of<A: Allocator>(rule: &Rule<A>, head: u8) -> Order
    requires from { 1 ≤ head }
    requires to { head ≤ length (heads_of rule.now) }
    ensures { IsPlan (heads_of rule.now) head result.items }
{
    let mut order = ArrayVec::new();
    let mut bound = nothing_bound();
    let fresh = is_fresh(rule, head, None, &bound);
    order.push(Step {
        head,
        key: None,
        fresh,
    });
    bind(rule, head, &mut bound);
    while let Some(step) = next_step(rule, order.as_slice(), &bound) {
        order.push(step);
        bind(rule, step.head, &mut bound);
    }
    order
}
