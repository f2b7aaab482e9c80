//! Expressions, comparisons and the members of a body.
ghost use Rattle.std.specs.Prelude.{◌≡◌, ◌↔◌, IsTrue, ℕ};
ghost use Rattle.chr_rule.specs.Parts.{expression, comparison, member};
ghost use Rattle.chr_rule.specs.Rules as rules;
ghost use Rattle.chr_rule.specs.Scope.{expression_known, test_known};
ghost use Rattle.chr_rule.specs.Terms.{IsComparison, IsBodyItem};

use crate::parts::Part;
use crate::rule_atom::RuleAtom;
use crate::term::Term;
use std::alloc::Allocator;

/// An operator of arithmetic.
#[derive(Clone, Copy, Debug, PartialEq, Eq)]
pub enum Operator {
    /// `+`
    Add,
    /// `-`
    Sub,
    /// `*`
    Mul,
    /// `//`, toward zero
    Quot,
    /// `rem`, with the sign of the dividend
    Rem,
    /// `mod`, with the sign of the divisor
    Mod,
}

/// An expression over whole numbers.
#[derive(Drop)]
pub enum Expr<A: Allocator> {
    Var(u8),
    Number(i64),
    Operation(Operator, Box<Expr<A>, A>, Box<Expr<A>, A>),
}

impl<A: Allocator> Expr<A> {
    /// Whether two expressions are equal, wherever their sides lie.
    pub fn same(&self, other: &Expr<A>) -> bool
        ensures { IsTrue result ↔ (expression self.now ≡ expression other.now) }
    {
        match (self, other) {
            (Expr::Number(m), Expr::Number(n)) => *m == *n,
            (Expr::Var(x), Expr::Var(y)) => *x == *y,
            (Expr::Operation(o, a, b), Expr::Operation(p, c, d)) => *o == *p
                && a.same(c)
                && b.same(d),
            _ => false,
        }
    }

    /// Whether each variable is below `known`.
    pub fn is_known(&self, known: usize) -> bool
        ensures { result ≡ expression_known known (expression self.now) }
    {
        match self {
            Expr::Number(_) => true,
            Expr::Var(x) => usize::from(*x) < known,
            Expr::Operation(_, a, b) => a.is_known(known) && b.is_known(known),
        }
    }
}

/// The relation that a comparison of numbers asks for.
#[derive(Clone, Copy, Debug, PartialEq, Eq)]
pub enum Relation {
    /// `<`
    Less,
    /// `=<`
    LessEqual,
    /// `>`
    Greater,
    /// `>=`
    GreaterEqual,
    /// `=:=`
    Equal,
    /// `=\=`
    Unequal,
}

/// A comparison of a guard.
#[derive(Drop)]
pub enum Comparison<A: Allocator> {
    /// Two expressions, by their numbers.
    Numbers(Relation, Expr<A>, Expr<A>),
    /// `==`
    Same(Term<A>, Term<A>),
    /// `\==`
    Differ(Term<A>, Term<A>),
}

/// A member of a body.
#[derive(Drop)]
pub enum BodyItem<A: Allocator> {
    /// `x is e`
    Is(u8, Expr<A>),
    /// A constraint to add.
    Add(RuleAtom<A>),
}

impl<A: Allocator> Comparison<A> {
    /// Whether two comparisons are equal, wherever their parts lie.
    pub fn same(&self, other: &Comparison<A>) -> bool
        ensures { IsTrue result ↔ (comparison self.now ≡ comparison other.now) }
    {
        match (self, other) {
            (Comparison::Numbers(r, a, b), Comparison::Numbers(s, c, d)) => {
                *r == *s && a.same(c) && b.same(d)
            }
            (Comparison::Same(s, t), Comparison::Same(u, v)) => s.same(u) && t.same(v),
            (Comparison::Differ(s, t), Comparison::Differ(u, v)) => s.same(u) && t.same(v),
            _ => false,
        }
    }

    /// Whether each variable is below `known`.
    pub fn is_known(&self, known: usize) -> bool
        ensures { result ≡ test_known known (comparison self.now) }
    {
        match self {
            Comparison::Numbers(_, a, b) => a.is_known(known) && b.is_known(known),
            Comparison::Same(s, t) => s.is_known(known) && t.is_known(known),
            Comparison::Differ(s, t) => s.is_known(known) && t.is_known(known),
        }
    }
}

impl<A: Allocator> Part for Comparison<A> {
    ghost Said = { rules.Comparison ℕ };

    ghost said = { comparison };

    ghost IsValid = { IsComparison };

    fn is_valid(&self) -> bool {
        match self {
            Comparison::Numbers(_, _, _) => true,
            Comparison::Same(s, t) => s.is_valid() && t.is_valid(),
            Comparison::Differ(s, t) => s.is_valid() && t.is_valid(),
        }
    }

    fn is_same(&self, other: &Self) -> bool {
        self.same(other)
    }
}

impl<A: Allocator> BodyItem<A> {
    /// Whether two members are equal, wherever their parts lie.
    pub fn same(&self, other: &BodyItem<A>) -> bool
        ensures { IsTrue result ↔ (member self.now ≡ member other.now) }
    {
        match (self, other) {
            (BodyItem::Is(x, e), BodyItem::Is(y, f)) => *x == *y && e.same(f),
            (BodyItem::Add(p), BodyItem::Add(q)) => p.same(q),
            _ => false,
        }
    }
}

impl<A: Allocator> Part for BodyItem<A> {
    ghost Said = { rules.BodyItem ℕ };

    ghost said = { member };

    ghost IsValid = { IsBodyItem };

    fn is_valid(&self) -> bool {
        match self {
            BodyItem::Is(_, _) => true,
            BodyItem::Add(pattern) => pattern.is_valid(),
        }
    }

    fn is_same(&self, other: &Self) -> bool {
        self.same(other)
    }
}
