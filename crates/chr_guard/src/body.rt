//! The body of a rule under a binding.
ghost use Rattle.std.specs.Prelude.{◌≡◌, ◌↔◌, ◌<◌, ◌≤◌, [], true, false, List, ℕ, Some, None, map, length, IsTrue, IsSome, IfOk, IfSome, MatchOption, vec_len};
ghost use Rattle.std.specs.Option.{option_map};
ghost use Rattle.chr_value.specs.Atoms.{Atom, args_of, ground, grounds};
ghost use Rattle.chr_rule.specs.Parts.{argument, member, shape};
ghost use Rattle.chr_rule.specs.Rules.{terms_of, Expression, Is};
ghost use Rattle.chr_rule.specs.Terms.{HasPlainArguments};
ghost use Rattle.chr_guard.specs.Values.{term_under, terms_under, value_under};
ghost use Rattle.chr_guard.specs.Bindings.{Keeps, PartsBound, bound_at};
ghost use Rattle.chr_guard.specs.Instances.{made_under, AreMadeUnder, added};
ghost use Rattle.chr_guard.specs.Matching.{BindsIf, CompletedIf, IsBody, IsOfHeads};

use crate::binding::Binding;
use crate::terms::Plain;
use crate::values::{are_bound, bound_value};
use arrayvec::ArrayVec;
use chr_rule::{BodyItem, Rule, RuleAtom, Term};
use chr_value::{Arguments, Atom, Comp, Value};
use std::alloc::{AllocError, Allocator};

/// The atoms of a body, at most 16.
pub type Body<A> = ArrayVec<Atom<A>, 16, A>;

/// A value that was made, or None where there is none. An `Err` is E01.
type Made<A> = Result<Option<Value<A>>, AllocError>;

/// The value that a term stands for, within the limits or not. None where a variable is free. An `Err` is E01.
#[cycle(made)]
fn made<A: Allocator + Copy>(alloc: A, term: &Term<A>, binding: &Binding<'_, A>) -> Made<A>
    ensures { IfOk result (λ made. option_map ground made ≡ term_under (bound_at binding.now) (argument term.now)) }
{
    match term {
        Term::Var(x) => match binding.at(*x) {
            None => Ok(None),
            Some(value) => Ok(Some(value.copy(alloc)?)),
        },
        Term::Given(value) => Ok(Some(value.as_ref().copy(alloc)?)),
        Term::Open(open) => {
            let Some(args) = all_made(alloc, &open.args, binding)? else {
                return Ok(None);
            };
            let (functor, args) = (open.functor, Arguments::new(args));
            Ok(Some(Value::Comp(Box::new(alloc, Comp { functor, args })?)))
        }
    }
}

/// The values that the arguments of a functor stand for. None where one has none. An `Err` is E01.
#[cycle(made)]
fn all_made<A: Allocator + Copy>(
    alloc: A,
    terms: &[Term<A>],
    binding: &Binding<'_, A>,
) -> Result<Option<Vec<Value<A>, A>>, AllocError>
    ensures values { IfOk result (λ made. option_map (λ vs. args_of (grounds vs.items)) made ≡ terms_under (bound_at binding.now) (terms_of (map argument terms.now))) }
    ensures count { IfOk result (λ made. IfSome made (λ vs. vec_len vs ≡ length terms.now)) }
{
    let mut values = Vec::with_capacity(alloc, terms.len())?;
    for term in terms {
        let Some(value) = made(alloc, term, binding)? else {
            return Ok(None);
        };
        values.push_reserved(value);
    }
    Ok(Some(values))
}

/// A compound value that a term stands for, which is counted before it is made unless a variable is bound to it. None
/// where there is none within the limits. An `Err` is E01.
fn made_compound<A: Allocator + Copy>(alloc: A, term: &Term<A>, binding: &Binding<'_, A>) -> Made<A>
    ensures { IfOk result (λ made. option_map ground made ≡ value_under (bound_at binding.now) (argument term.now)) }
{
    if !binding.has_value(term) {
        return Ok(None);
    }
    made(alloc, term, binding)
}

/// The value that an argument stands for, within the limits. None where there is none. Numbers and symbols take no
/// memory. An `Err` is E01.
#[inline(always)]
fn made_argument<A: Allocator + Copy>(alloc: A, term: &Term<A>, binding: &Binding<'_, A>) -> Made<A>
    ensures { IfOk result (λ made. option_map ground made ≡ value_under (bound_at binding.now) (argument term.now)) }
{
    match binding.plain(term) {
        Some(Plain::Number(n)) => Ok(Some(Value::Int(n))),
        Some(Plain::Symbol(name)) => Ok(Some(Value::Sym(name))),
        None => made_compound(alloc, term, binding),
    }
}

/// Adds the arguments of a constraint of a body to an atom of its name that has none. None is made that is past the
/// limits. False where one has no value within them. Then, and on an `Err`, which is E01, the atom may have some of the
/// arguments. Only compound values and arguments from the fourth on take memory.
#[inline(always)]
pub fn add_arguments<A: Allocator + Copy>(
    alloc: A,
    atom: &mut Atom<A>,
    pattern: &RuleAtom<A>,
    binding: &Binding<'_, A>,
) -> Result<bool, AllocError>
    requires { atom.old ≡ record { name = (shape pattern.now).name; args = [] } }
    ensures made { IfOk result (λ all. IsTrue all → made_under (bound_at binding.now) (shape pattern.now) ≡ Some atom.new) }
    ensures none { IfOk result (λ all. all ≡ false → made_under (bound_at binding.now) (shape pattern.now) ≡ None) }
{
    for term in &pattern.terms {
        let Some(value) = made_argument(alloc, term, binding)? else {
            return Ok(false);
        };
        atom.push(value)?;
    }
    Ok(true)
}

/// The atom that a constraint of a body stands for, or None where an argument has no value within the limits. Only
/// compound values and arguments from the fourth on take memory. An `Err` is E01.
pub fn make_atom<A: Allocator + Copy>(
    alloc: A,
    pattern: &RuleAtom<A>,
    binding: &Binding<'_, A>,
) -> Result<Option<Atom<A>>, AllocError>
    ensures { IfOk result (λ made. made ≡ made_under (bound_at binding.now) (shape pattern.now)) }
{
    let mut atom = Atom::new(alloc, pattern.name);
    if !add_arguments(alloc, &mut atom, pattern, binding)? {
        return Ok(None);
    }
    Ok(Some(atom))
}

/// Whether all variables of an expression are bound, or each argument of a constraint that is a variable.
fn are_parts_bound<A: Allocator + Copy>(item: &BodyItem<A>, binding: &Binding<'_, A>) -> bool
    ensures { IsTrue result ↔ PartsBound binding.now (member item.now) }
{
    match item {
        BodyItem::Is(_, expr) => are_bound(expr, binding),
        BodyItem::Add(pattern) => binding.are_bound_terms(&pattern.terms),
    }
}

/// Binds the variable left of an `is` to the expression's value. False where it has none or the variable is bound to another,
/// and where an argument of a constraint has none. Where all are known to be variables, numbers and symbols, each has one.
#[inline(always)]
fn bind_item<A: Allocator + Copy>(
    item: &BodyItem<A>,
    binding: &mut Binding<'_, A>,
    is_plain: bool,
) -> bool
    requires place { (x : ℕ) (e : Expression) → member item.now ≡ Is x e → x < length binding.old }
    requires ready { PartsBound binding.old (member item.now) }
    requires plain { is_plain ≡ true → HasPlainArguments (member item.now) }
    ensures binds { BindsIf (member item.now) result binding.old binding.new }
    ensures keeps { Keeps binding.old binding.new }
{
    match item {
        BodyItem::Is(x, expr) => match bound_value(expr, binding) {
            Some(n) => binding.bind_number(*x, n),
            None => false,
        },
        BodyItem::Add(pattern) => {
            binding.are_within();
            is_plain || binding.have_bound_values(pattern)
        }
    }
}

/// Binds the variables left of `is` in a rule's body to the values. False only where some `is` or some argument has no
/// value, or where the variable of an `is` is bound to another. Where the variables of the heads are bound, each other is by
/// its turn, and none is looked at for that.
#[inline(always)]
fn bind_body<A: Allocator + Copy>(
    rule: &Rule<A>,
    binding: &mut Binding<'_, A>,
    heads_are_bound: bool,
) -> bool
    requires places { rule.now.variables ≤ length binding.old }
    requires heads { heads_are_bound ≡ true → (x : ℕ) → IsOfHeads rule.now x → IsSome (bound_at binding.old x) }
    ensures completed { CompletedIf rule.now result binding.old binding.new }
    ensures keeps { Keeps binding.old binding.new }
{
    let is_plain = rule.is_plain();
    for item in rule.body() {
        if !heads_are_bound && !are_parts_bound(item, binding) {
            return false;
        }
        if !bind_item(item, binding, is_plain) {
            return false;
        }
    }
    true
}

/// The same where the variables of the rule's heads are bound.
#[inline(always)]
pub(crate) fn complete_body<A: Allocator + Copy>(
    rule: &Rule<A>,
    binding: &mut Binding<'_, A>,
) -> bool
    requires places { rule.now.variables ≤ length binding.old }
    requires heads { (x : ℕ) → IsOfHeads rule.now x → IsSome (bound_at binding.old x) }
    ensures completed { CompletedIf rule.now result binding.old binding.new }
    ensures keeps { Keeps binding.old binding.new }
{
    bind_body(rule, binding, true)
}

/// The atoms that a rule's body adds, in written order, under a binding of the rule's variables. None only where an
/// argument has no value within the limits. Only compound values and arguments from the fourth on take memory. An `Err`
/// is E01.
pub fn added_atoms<A: Allocator + Copy>(
    alloc: A,
    rule: &Rule<A>,
    binding: &Binding<'_, A>,
) -> Result<Option<Body<A>>, AllocError>
    ensures { IfOk result (λ made. MatchOption made ((made : List (Atom ℕ)) → AreMadeUnder (bound_at binding.now) (added rule.now.body) made → ⊥) (λ made. AreMadeUnder (bound_at binding.now) (added rule.now.body) made.items)) }
{
    let mut atoms = ArrayVec::new_in(alloc);
    for item in rule.body() {
        match item {
            BodyItem::Is(_, _) => {}
            BodyItem::Add(pattern) => {
                let Some(atom) = make_atom(alloc, pattern, binding)? else {
                    return Ok(None);
                };
                atoms.push(atom);
            }
        }
    }
    Ok(Some(atoms))
}

/// The atoms that a rule's body adds, in written order, under a binding of its heads' variables. None only where an
/// argument or an `is` has no value, as with a variable that is free or past the limits, or where the variable of an
/// `is` is bound to another value. Only compound values and arguments from the fourth on take memory. An `Err` is E01.
pub fn body<A: Allocator + Copy>(
    alloc: A,
    rule: &Rule<A>,
    binding: &Binding<'_, A>,
) -> Result<Option<Body<A>>, AllocError>
    ensures { IfOk result (λ made. MatchOption made ((made : List (Atom ℕ)) → IsBody rule.now binding.now made → ⊥) (λ made. IsBody rule.now binding.now made.items)) }
{
    let mut all = binding.widened(rule.variables());
    if !bind_body(rule, &mut all, false) {
        return Ok(None);
    }
    added_atoms(alloc, rule, &all)
}
