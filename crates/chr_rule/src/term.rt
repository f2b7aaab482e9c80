//! Terms of a rule.
ghost use Rattle.std.specs.Prelude.{◌≡◌, ◌↔◌, ◌&&◌, IsTrue, ℕ, length, map, nat_le};
ghost use Rattle.std.specs.List.{AllByRecursion, list_all, list_any};
ghost use Rattle.chr_value.specs.Bounds.{most_arguments};
ghost use Rattle.chr_rule.specs.Parts.{argument};
ghost use Rattle.chr_rule.specs.Rules as rules;
ghost use Rattle.chr_rule.specs.Scope.{argument_known};
ghost use Rattle.chr_rule.specs.Terms.{IsCanonical, IsTerm, is_open, left_after_term, left_after_terms};

use crate::parts::Part;
use chr_value::{Arguments, MOST_DEPTH, MOST_SIZE, Name, Value};
use std::alloc::Allocator;

/// A variable by its number in the rule, a value as it is written, or a functor with arguments in which a variable stands.
#[cycle(term)]
#[derive(Drop)]
pub enum Term<A: Allocator> {
    Var(u8),
    Given(Value<A>),
    Open(Box<Open<A>, A>),
}

/// A functor with its one to eight arguments.
#[cycle(term)]
#[derive(Drop)]
pub struct Open<A: Allocator> {
    pub functor: Name,
    pub args: Arguments<Term<A>, A>,
}

impl<A: Allocator> Default for Term<A> {
    fn default() -> Self {
        Term::Var(0)
    }
}

impl<A: Allocator> Term<A> {
    /// Whether two terms are equal, wherever they lie. Most are variables or plain values, for which it takes no call.
    #[cycle(same)]
    #[inline(always)]
    pub fn same(&self, other: &Term<A>) -> bool
        ensures { IsTrue result ↔ (argument self.now ≡ argument other.now) }
    {
        match (self, other) {
            (Term::Var(x), Term::Var(y)) => *x == *y,
            (Term::Given(v), Term::Given(w)) => v.as_ref().same(&w.as_ref()),
            (Term::Open(a), Term::Open(b)) => {
                a.functor.number == b.functor.number && same_terms(&a.args, &b.args)
            }
            _ => false,
        }
    }

    /// Whether each variable is below `known`.
    #[cycle(known)]
    pub fn is_known(&self, known: usize) -> bool
        ensures { result ≡ argument_known known (argument self.now) }
    {
        match self {
            Term::Var(x) => usize::from(*x) < known,
            Term::Given(_) => true,
            Term::Open(open) => are_known(known, &open.args),
        }
    }

    /// Whether the term isn't a value as it is written.
    fn is_open(&self) -> bool
        ensures { result ≡ is_open (argument self.now) }
    {
        match self {
            Term::Given(_) => false,
            Term::Var(_) => true,
            Term::Open(_) => true,
        }
    }

    /// Returns whether a term without variables is a value wherever it stands in the term.
    #[cycle(canonical)]
    fn is_canonical(&self) -> bool
        ensures { IsTrue result ↔ IsCanonical (argument self.now) }
    {
        match self {
            Term::Open(open) => are_open(&open.args) && are_canonical(&open.args),
            _ => true,
        }
    }

    /// How much room the term leaves where it may be `depth` deep and `room` large. None where it is deeper or larger.
    #[cycle(left)]
    fn left(&self, depth: u8, room: u8) -> Option<u8>
        ensures { result ≡ left_after_term depth room (argument self.now) }
    {
        match self {
            Term::Var(_) => {
                if depth == 0 {
                    return None;
                }
                room.checked_sub(1)
            }
            Term::Given(value) => value.as_ref().left(depth, room),
            Term::Open(open) => {
                if depth == 0 {
                    return None;
                }
                let rest = room.checked_sub(1)?;
                left_behind(&open.args, depth - 1, rest)
            }
        }
    }
}

impl<A: Allocator> Part for Term<A> {
    ghost Said = { rules.Term ℕ };

    ghost said = { argument };

    ghost IsValid = { IsTerm };

    /// It is canonical, at most [`MOST_DEPTH`] deep and at most [`MOST_SIZE`] large.
    fn is_valid(&self) -> bool {
        self.is_canonical() && self.left(MOST_DEPTH, MOST_SIZE).is_some()
    }

    fn is_same(&self, other: &Self) -> bool {
        self.same(other)
    }
}

/// Whether two lists of terms are equal.
#[cycle(same)]
fn same_terms<A: Allocator>(terms: &[Term<A>], others: &[Term<A>]) -> bool
    ensures { IsTrue result ↔ (map argument terms.now ≡ map argument others.now) }
{
    if terms.len() != others.len() {
        return false;
    }
    for i in 0..terms.len() {
        if !terms[i].same(&others[i]) {
            return false;
        }
    }
    true
}

/// Whether each variable of some terms is below `known`.
#[cycle(known)]
pub(crate) fn are_known<A: Allocator>(known: usize, terms: &[Term<A>]) -> bool
    ensures { result ≡ list_all (argument_known known) (map argument terms.now) }
{
    for term in terms {
        if !term.is_known(known) {
            return false;
        }
    }
    true
}

/// Returns whether not all terms are values.
fn are_open<A: Allocator>(terms: &[Term<A>]) -> bool
    ensures { result ≡ list_any is_open (map argument terms.now) }
{
    for term in terms {
        if term.is_open() {
            return true;
        }
    }
    false
}

/// Whether each of some terms is canonical.
#[cycle(canonical)]
fn are_canonical<A: Allocator>(terms: &[Term<A>]) -> bool
    ensures { IsTrue result ↔ AllByRecursion IsCanonical (map argument terms.now) }
{
    for term in terms {
        if !term.is_canonical() {
            return false;
        }
    }
    true
}

/// How much room some terms leave.
#[cycle(left)]
fn left_behind<A: Allocator>(terms: &[Term<A>], depth: u8, room: u8) -> Option<u8>
    ensures { result ≡ left_after_terms depth room (map argument terms.now) }
{
    let mut rest = room;
    for term in terms {
        rest = term.left(depth, rest)?;
    }
    Some(rest)
}
