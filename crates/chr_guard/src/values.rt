//! The value of an expression, and when a guard holds.
ghost use Rattle.std.specs.Prelude.{◌≡◌, ◌↔◌, IsTrue, map};
ghost use Rattle.std.specs.List.{AllByRecursion};
ghost use Rattle.chr_rule.specs.Parts.{expression, comparison};
ghost use Rattle.chr_rule.specs.Rules.{Compared};
ghost use Rattle.chr_guard.specs.Values.{both, computed, value_of, Holds};
ghost use Rattle.chr_guard.specs.Bindings.{bound_at, AllBound, SidesBound};

use crate::arithmetic::{compare, compute};
use crate::binding::Binding;
use chr_rule::{Comparison, Expr, Operator, Relation};
use chr_value::ValueRef;
use std::alloc::Allocator;

/// The value of an expression over exact whole numbers. It has none where a variable is free or stands for another value,
/// where a part is out of the range of 64 bits with sign, or where a divisor is 0.
pub fn value<A: Allocator + Copy>(expr: &Expr<A>, binding: &Binding<'_, A>) -> Option<i64>
    ensures { result ≡ value_of (bound_at binding.now) (expression expr.now) }
{
    if !are_bound(expr, binding) {
        return None;
    }
    bound_value(expr, binding)
}

/// Whether each variable of an expression is bound.
pub(crate) fn are_bound<A: Allocator + Copy>(expr: &Expr<A>, binding: &Binding<'_, A>) -> bool
    ensures { IsTrue result ↔ AllBound binding.now (expression expr.now) }
{
    match expr {
        Expr::Number(_) => true,
        Expr::Var(x) => binding.is_bound(*x),
        Expr::Operation(_, a, b) => are_bound(a, binding) && are_bound(b, binding),
    }
}

/// The value of an expression whose variables are bound.
#[inline(always)]
pub(crate) fn bound_value<A: Allocator + Copy>(
    expr: &Expr<A>,
    binding: &Binding<'_, A>,
) -> Option<i64>
    requires { AllBound binding.now (expression expr.now) }
    ensures { result ≡ value_of (bound_at binding.now) (expression expr.now) }
{
    match expr {
        Expr::Var(x) => match binding.bound(*x) {
            ValueRef::Int(n) => Some(n),
            _ => None,
        },
        Expr::Number(n) => Some(*n),
        Expr::Operation(operator, a, b) => operation(*operator, a, b, binding),
    }
}

/// The value of an operation whose variables are bound. Each operand is a number by the end of its match, or the value is
/// none: an `Option` in between would be tested once more. An operation within another takes a call, and so does one on the right
/// of a comparison.
#[cycle(nested)]
#[inline(always)]
fn operation<A: Allocator + Copy>(
    operator: Operator,
    a: &Expr<A>,
    b: &Expr<A>,
    binding: &Binding<'_, A>,
) -> Option<i64>
    requires left { AllBound binding.now (expression a.now) }
    requires right { AllBound binding.now (expression b.now) }
    ensures { result ≡ both (computed operator) (value_of (bound_at binding.now) (expression a.now)) (value_of (bound_at binding.now) (expression b.now)) }
{
    let left = match a {
        Expr::Var(x) => match binding.bound(*x) {
            ValueRef::Int(n) => n,
            _ => return None,
        },
        Expr::Number(n) => *n,
        Expr::Operation(operator, a, b) => nested(*operator, a, b, binding)?,
    };
    let right = match b {
        Expr::Number(n) => *n,
        Expr::Var(x) => match binding.bound(*x) {
            ValueRef::Int(n) => n,
            _ => return None,
        },
        Expr::Operation(operator, a, b) => nested(*operator, a, b, binding)?,
    };
    compute(operator, left, right)
}

/// The same by a call, to any depth.
#[cycle(nested)]
fn nested<A: Allocator + Copy>(
    operator: Operator,
    a: &Expr<A>,
    b: &Expr<A>,
    binding: &Binding<'_, A>,
) -> Option<i64>
    requires left { AllBound binding.now (expression a.now) }
    requires right { AllBound binding.now (expression b.now) }
    ensures { result ≡ both (computed operator) (value_of (bound_at binding.now) (expression a.now)) (value_of (bound_at binding.now) (expression b.now)) }
{
    operation(operator, a, b, binding)
}

/// Whether the relation holds between the values of two expressions whose variables are bound, where both have one. As in an
/// operation, each side is a number by the end of its match.
#[inline(always)]
fn compared<A: Allocator + Copy>(
    relation: &Relation,
    a: &Expr<A>,
    b: &Expr<A>,
    binding: &Binding<'_, A>,
) -> bool
    requires left { AllBound binding.now (expression a.now) }
    requires right { AllBound binding.now (expression b.now) }
    ensures { IsTrue result ↔ Holds (bound_at binding.now) (Compared relation.now (expression a.now) (expression b.now)) }
{
    let left = match a {
        Expr::Var(x) => match binding.bound(*x) {
            ValueRef::Int(n) => n,
            _ => return false,
        },
        Expr::Number(n) => *n,
        Expr::Operation(operator, a, b) => match operation(*operator, a, b, binding) {
            Some(n) => n,
            None => return false,
        },
    };
    let right = match b {
        Expr::Number(n) => *n,
        Expr::Var(x) => match binding.bound(*x) {
            ValueRef::Int(n) => n,
            _ => return false,
        },
        Expr::Operation(operator, a, b) => match operation(*operator, a, b, binding) {
            Some(n) => n,
            None => return false,
        },
    };
    compare(*relation, left, right)
}

/// Whether a comparison holds. None does where a side has no value; a number never equals a symbol. A value past the
/// limits of depth and size is none. It takes no memory.
pub fn holds<A: Allocator + Copy>(test: &Comparison<A>, binding: &Binding<'_, A>) -> bool
    ensures { IsTrue result ↔ Holds (bound_at binding.now) (comparison test.now) }
{
    let ready = match test {
        Comparison::Numbers(_, a, b) => are_bound(a, binding) && are_bound(b, binding),
        _ => true,
    };
    ready && bound_holds(test, binding)
}

/// Whether a comparison holds. In one of numbers the variables are bound.
#[inline(always)]
fn bound_holds<A: Allocator + Copy>(test: &Comparison<A>, binding: &Binding<'_, A>) -> bool
    requires { SidesBound binding.now (comparison test.now) }
    ensures { IsTrue result ↔ Holds (bound_at binding.now) (comparison test.now) }
{
    match test {
        Comparison::Same(s, t) => binding.are_compared(s, t, true),
        Comparison::Differ(s, t) => binding.are_compared(s, t, false),
        Comparison::Numbers(relation, a, b) => compared(relation, a, b, binding),
    }
}

/// Whether each comparison of a guard holds. In those of numbers the variables are bound.
#[inline(always)]
pub(crate) fn guard_holds<A: Allocator + Copy>(
    guard: &[Comparison<A>],
    binding: &Binding<'_, A>,
) -> bool
    requires { AllByRecursion (SidesBound binding.now) (map comparison guard.now) }
    ensures { IsTrue result ↔ AllByRecursion (Holds (bound_at binding.now)) (map comparison guard.now) }
{
    for test in guard {
        if !bound_holds(test, binding) {
            return false;
        }
    }
    true
}
