//! What is a rule, from both sides of each limit.
use chr_rule::{BodyItem, Comparison, Expr, Open, Rule, RuleAtom, Term};
use chr_value::{Arguments, Comp, MOST_ARGS, Name, Value};
use std::alloc::Global;

/// `count` variables, from `first` on.
fn variables(alloc: Global, first: u8, count: u8) -> Option<Vec<Term<Global>>> {
    let mut terms = Vec::new(alloc);
    for i in 0..count {
        terms.push(Term::Var(first.wrapping_add(i))).ok()?;
    }
    Some(terms)
}

/// An atom of at most eight terms.
fn atom_of(terms: Vec<Term<Global>>) -> Option<RuleAtom<Global>> {
    if MOST_ARGS < terms.len() {
        return None;
    }
    let name = Name { number: 3 };
    Some(RuleAtom { name, terms })
}

/// An atom of `count` variables, from `first` on.
fn atom_from(alloc: Global, first: u8, count: u8) -> Option<RuleAtom<Global>> {
    atom_of(variables(alloc, first, count)?)
}

/// Adds heads, each by its first variable and the number of its variables.
fn add_heads(alloc: Global, made: &mut Vec<RuleAtom<Global>>, heads: &[(u8, u8)]) -> Option<()> {
    for (first, count) in heads {
        made.push(atom_from(alloc, *first, *count)?).ok()?;
    }
    Some(())
}

/// The kept heads of a row and then its removed ones.
fn heads_of(alloc: Global, row: &Row) -> Option<Vec<RuleAtom<Global>>> {
    let (kept, removed, _, _, _, _) = *row;
    let mut heads = Vec::new(alloc);
    add_heads(alloc, &mut heads, kept)?;
    add_heads(alloc, &mut heads, removed)?;
    Some(heads)
}

/// `count` comparisons of a variable with itself.
fn guard_of(alloc: Global, count: u8, variable: u8) -> Option<Vec<Comparison<Global>>> {
    let mut guard = Vec::new(alloc);
    for _ in 0..count {
        let test = Comparison::Same(Term::Var(variable), Term::Var(variable));
        guard.push(test).ok()?;
    }
    Some(guard)
}

/// Adds what gives `count` variables the value of another one, from `first` on.
fn add_values(body: &mut Vec<BodyItem<Global>>, first: u8, count: u8, other: u8) -> Option<()> {
    for i in 0..count {
        let item = BodyItem::Is(first.wrapping_add(i), Expr::Var(other));
        body.push(item).ok()?;
    }
    Some(())
}

/// Adds atoms of one variable.
fn add_atoms(alloc: Global, body: &mut Vec<BodyItem<Global>>, variables: &[u8]) -> Option<()> {
    for variable in variables {
        body.push(BodyItem::Add(atom_from(alloc, *variable, 1)?))
            .ok()?;
    }
    Some(())
}

/// Kept and removed heads, the guard, the body, and whether they are a rule.
type Row<'r> = (
    &'r [(u8, u8)],
    &'r [(u8, u8)],
    (u8, u8),
    (u8, u8, u8),
    &'r [u8],
    bool,
);

/// The body of a row.
fn body_of(alloc: Global, row: &Row) -> Option<Vec<BodyItem<Global>>> {
    let (_, _, _, (first, count, other), added, _) = *row;
    let mut body = Vec::new(alloc);
    add_values(&mut body, first, count, other)?;
    add_atoms(alloc, &mut body, added)?;
    Some(body)
}

/// Whether the parts of a row are those of a rule. None where memory ran out.
fn are_a_rule(alloc: Global, row: &Row) -> Option<bool> {
    let (kept, _, (comparisons, variable), _, _, _) = *row;
    match (
        heads_of(alloc, row),
        guard_of(alloc, comparisons, variable),
        body_of(alloc, row),
    ) {
        (Some(heads), Some(guard), Some(body)) => {
            Some(Rule::new(heads, kept.len(), guard, body).is_some())
        }
        _ => None,
    }
}

static ROWS: [Row; 27] = [
    (&[], &[], (0, 0), (0, 0, 0), &[], false),
    (&[], &[(0, 1)], (0, 0), (0, 0, 0), &[], true),
    (&[], &[(0, 1); 6], (0, 0), (0, 0, 0), &[], true),
    (&[], &[(0, 1); 7], (0, 0), (0, 0, 0), &[], false),
    (&[(0, 1)], &[], (0, 0), (0, 0, 0), &[], false),
    (&[(0, 1); 3], &[(0, 1); 3], (0, 0), (0, 0, 0), &[], true),
    (&[(0, 1); 3], &[(0, 1); 4], (0, 0), (0, 0, 0), &[], false),
    (&[(0, 1); 5], &[(0, 1)], (0, 0), (0, 0, 0), &[], true),
    (&[(0, 1); 6], &[(0, 1)], (0, 0), (0, 0, 0), &[], false),
    (&[], &[(0, 8)], (16, 0), (8, 0, 0), &[], true),
    (&[], &[(0, 8)], (17, 0), (8, 0, 0), &[], false),
    (&[], &[(0, 8)], (0, 0), (8, 16, 0), &[], true),
    (&[], &[(0, 8)], (0, 0), (8, 17, 0), &[], false),
    (&[], &[(0, 8), (8, 1)], (0, 0), (9, 15, 0), &[], true),
    (&[], &[(0, 8), (8, 1)], (0, 0), (9, 16, 0), &[], false),
    (
        &[],
        &[(0, 8), (8, 8), (16, 8)],
        (16, 0),
        (24, 0, 0),
        &[],
        true,
    ),
    (
        &[],
        &[(0, 8), (8, 8), (16, 8)],
        (0, 0),
        (24, 1, 0),
        &[],
        false,
    ),
    (&[(0, 1)], &[(0, 1)], (0, 0), (1, 0, 0), &[], true),
    (&[(0, 2)], &[(1, 2)], (0, 0), (3, 1, 0), &[], true),
    (&[(1, 1)], &[(0, 1)], (0, 0), (2, 0, 0), &[], false),
    (&[(0, 1)], &[(2, 1)], (0, 0), (3, 0, 0), &[], false),
    (&[(0, 1)], &[(1, 1)], (0, 0), (1, 1, 0), &[], false),
    (&[(0, 1)], &[(1, 1)], (0, 0), (3, 1, 0), &[], false),
    (&[], &[(0, 1)], (1, 0), (1, 1, 0), &[1], true),
    (&[], &[(0, 1)], (1, 1), (1, 1, 0), &[1], false),
    (&[], &[(0, 1)], (1, 0), (1, 1, 1), &[1], false),
    (&[], &[(0, 1)], (1, 0), (1, 1, 0), &[2], false),
];

#[test]
fn rules_from_both_sides_of_each_limit(rt: HostRuntime) {
    for (i, row) in ROWS.iter().enumerate() {
        assert!(rt; are_a_rule(rt.alloc(), row) == Some(row.5), "row {i}");
    }
}

const FUNCTOR: Name = Name { number: 4 };

/// Returns these as arguments of a functor. None where there are none or too many.
pub fn arguments_of<T>(list: Vec<T>) -> Option<Arguments<T, Global>>
where
    T: Drop,
{
    if list.is_empty() || list.len() > MOST_ARGS {
        return None;
    }
    Some(Arguments::new(list))
}

/// A functor with these arguments. None where no functor has so many.
fn functor_of(alloc: Global, args: Vec<Term<Global>>) -> Option<Term<Global>> {
    let (functor, args) = (FUNCTOR, arguments_of(args)?);
    Some(Term::Open(Box::new(alloc, Open { functor, args }).ok()?))
}

/// A functor with one argument.
fn functor_over(alloc: Global, term: Term<Global>) -> Option<Term<Global>> {
    let mut args = Vec::new(alloc);
    args.push(term).ok()?;
    functor_of(alloc, args)
}

/// A variable under so many functors.
fn nested(alloc: Global, functors: u8) -> Option<Term<Global>> {
    let mut term = Term::Var(0);
    for _ in 0..functors {
        term = functor_over(alloc, term)?;
    }
    Some(term)
}

/// A functor with a value as its argument.
fn comp_over(alloc: Global, value: Value<Global>) -> Option<Value<Global>> {
    let mut args = Vec::new(alloc);
    args.push(value).ok()?;
    let (functor, args) = (FUNCTOR, arguments_of(args)?);
    Some(Value::Comp(Box::new(alloc, Comp { functor, args }).ok()?))
}

/// A number under so many functors.
fn nested_value(alloc: Global, functors: u8) -> Option<Term<Global>> {
    let mut value = Value::Int(1);
    for _ in 0..functors {
        value = comp_over(alloc, value)?;
    }
    Some(Term::Given(value))
}

/// So many times the first variable.
fn same_variables(alloc: Global, count: u8) -> Option<Vec<Term<Global>>> {
    let mut same = Vec::new(alloc);
    for _ in 0..count {
        same.push(Term::Var(0)).ok()?;
    }
    Some(same)
}

/// A functor whose arguments are functors with so many times the first variable.
fn wide(alloc: Global, counts: &[u8]) -> Option<Term<Global>> {
    let mut args = Vec::new(alloc);
    for count in counts {
        let same = same_variables(alloc, *count)?;
        args.push(functor_of(alloc, same)?).ok()?;
    }
    functor_of(alloc, args)
}

/// A term by what it is made of.
#[derive(Clone, Copy)]
enum Shape {
    Nested(u8),
    NestedValue(u8),
    /// A value under a functor that has its arguments as terms, though no variable stands in it.
    OpenValue,
    Wide(&'static [u8]),
}

fn term_of(alloc: Global, shape: Shape) -> Option<Term<Global>> {
    match shape {
        Shape::Nested(functors) => nested(alloc, functors),
        Shape::NestedValue(functors) => nested_value(alloc, functors),
        Shape::OpenValue => functor_over(alloc, nested_value(alloc, 0)?),
        Shape::Wide(counts) => wide(alloc, counts),
    }
}

/// Terms, and whether a head beside the first variable may have them. None where no functor has so many arguments, so that
/// there is no such term.
static TERMS: [(Shape, Option<bool>); 13] = [
    (Shape::Nested(0), Some(true)),
    (Shape::Nested(7), Some(true)),
    (Shape::Nested(8), Some(false)),
    (Shape::NestedValue(7), Some(true)),
    (Shape::NestedValue(8), Some(false)),
    (Shape::OpenValue, Some(false)),
    (Shape::Wide(&[]), None),
    (Shape::Wide(&[0]), None),
    (Shape::Wide(&[8]), Some(true)),
    (Shape::Wide(&[9]), None),
    (Shape::Wide(&[1; 9]), None),
    (Shape::Wide(&[7, 7, 7, 7, 7, 7, 7, 6]), Some(true)),
    (Shape::Wide(&[7; 8]), Some(false)),
];

/// A head of the first variable and a term.
fn head_with(alloc: Global, shape: Shape) -> Option<RuleAtom<Global>> {
    let mut terms = variables(alloc, 0, 1)?;
    terms.push(term_of(alloc, shape)?).ok()?;
    atom_of(terms)
}

/// Whether a rule may remove a head of the first variable and a term.
fn may_be_removed(alloc: Global, shape: Shape) -> Option<bool> {
    let mut heads = Vec::new(alloc);
    heads.push(head_with(alloc, shape)?).ok()?;
    let rule = Rule::new(heads, 0, Vec::new(alloc), Vec::new(alloc));
    Some(rule.is_some())
}

#[test]
fn terms_from_both_sides_of_each_limit(rt: HostRuntime) {
    for (i, (shape, wanted)) in TERMS.iter().enumerate() {
        assert!(rt; may_be_removed(rt.alloc(), *shape) == *wanted, "row {i}");
    }
}
