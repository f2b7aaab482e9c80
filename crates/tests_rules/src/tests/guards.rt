//! The binding under which heads fit atoms, the body that follows, instances, and comparisons of free variables.
use crate::tests::texts::{atoms_of, program_of};
use chr_guard::body::body;
use chr_guard::instance::instance;
use chr_guard::{Binding, fit, holds};
use chr_rule::{Comparison, Expr, Program, Relation, Rule, Term};
use chr_value::{Atom, Name, Names, Value, ValueRef};
use std::alloc::Global;

fn number_of(bound: Option<ValueRef<'_, Global>>) -> Option<i64> {
    match bound {
        Some(ValueRef::Int(n)) => Some(n),
        _ => None,
    }
}

/// The first argument of the first of some atoms.
fn first_number(atoms: &[Atom<Global>]) -> Option<i64> {
    match atoms.first()?.arg(0) {
        Some(ValueRef::Int(n)) => Some(n),
        _ => None,
    }
}

/// What the first two variables are, and the number that the body then holds; None where the heads don't fit.
type Fitted = Option<(Option<i64>, Option<i64>, Option<i64>)>;

/// The number that the body under a binding holds. The outer Option is None where memory ran out.
fn body_number(
    alloc: Global,
    rule: &Rule<Global>,
    binding: &Binding<'_, Global>,
) -> Option<Option<i64>> {
    Some(match body(alloc, rule, binding).ok()? {
        None => None,
        Some(atoms) => first_number(atoms.as_slice()),
    })
}

/// Whether a binding is as wanted.
fn is_bound(
    alloc: Global,
    rule: &Rule<Global>,
    binding: &Binding<'_, Global>,
    wanted: &Fitted,
) -> bool {
    let Some((first, second, made)) = wanted else {
        return false;
    };
    number_of(binding.at(0)) == *first
        && number_of(binding.at(1)) == *second
        && body_number(alloc, rule, binding) == Some(*made)
}

/// Whether these atoms fit these heads as wanted.
fn is_fitted_by(
    alloc: Global,
    rule: &Rule<Global>,
    placed: &[(usize, &Atom<Global>)],
    wanted: &Fitted,
) -> bool {
    match fit(rule, placed) {
        None => wanted.is_none(),
        Some(binding) => is_bound(alloc, rule, &binding, wanted),
    }
}

/// The same of a program's rule, and of heads by their numbers and the places of their atoms.
fn is_fitted_at(
    alloc: Global,
    program: &Program<Global>,
    atoms: &[Atom<Global>],
    heads: &[(usize, usize)],
    wanted: &Fitted,
) -> Option<bool> {
    let mut placed = Vec::new(alloc);
    for (number, place) in heads {
        placed.push((*number, atoms.get(*place)?)).ok()?;
    }
    Some(is_fitted_by(alloc, program.rule(1)?, &placed, wanted))
}

/// Whether heads of `p(A,B) \ q(A) <=> r(B).` fit as wanted, each the number of a head and the place of an atom among
/// `p(3,4)`, `q(3)` and `q(5)`. None where memory ran out.
fn is_fitted(alloc: Global, heads: &[(usize, usize)], wanted: &Fitted) -> Option<bool> {
    let mut names = Names::new(alloc);
    let program = program_of(alloc, "p(A,B) \\ q(A) <=> r(B).", &mut names)?;
    let atoms = atoms_of(alloc, "p(3,4), q(3), q(5).", &mut names)?;
    is_fitted_at(alloc, &program, &atoms, heads, wanted)
}

/// Heads, and what fits them.
static FITTED: [(&[(usize, usize)], Fitted); 8] = [
    (&[], Some((None, None, None))),
    (&[(1, 0)], Some((Some(3), Some(4), Some(4)))),
    (&[(2, 1)], Some((Some(3), None, None))),
    (&[(2, 1), (1, 0)], Some((Some(3), Some(4), Some(4)))),
    (&[(1, 0), (2, 2)], None),
    (&[(2, 0)], None),
    (&[(0, 1)], None),
    (&[(3, 1)], None),
];

#[test]
fn heads_fit_and_the_body_follows(rt: HostRuntime) {
    for (i, (heads, wanted)) in FITTED.iter().enumerate() {
        assert!(rt;
            is_fitted(rt.alloc(), heads, wanted) == Some(true),
            "row {i}"
        );
    }
}

/// Programs of a rule, each with atoms at its heads, and behind an arrow the body, where these are an instance. A depth of 8 and a size of 64
/// are the limits: `s(s(s(s(s(s(s(z)))))))` is 8 deep, and `h(h(h(h(a,a),h(a,a)),..` of four levels has the size 31.
static INSTANCES: [(&str, &[&str]); 22] = [
    (
        "p(f(X,Y)) <=> q(f(Y,X)).",
        &[
            "p(f(a,1)). -> q(f(1,a)).",
            "p(f(a)).",
            "p(f(a,1,1)).",
            "p(g(a,1)).",
            "p(f).",
            "p(f(a,1),b).",
        ],
    ),
    (
        "p(f(X,X)) <=> q(X).",
        &[
            "p(f(g(1),g(1))). -> q(g(1)).",
            "p(f(g(1),g(2))).",
            "p(f(g(1),g)).",
        ],
    ),
    (
        "p(f(a,1)) <=> q.",
        &["p(f(a,1)). -> q.", "p(f(a,b)).", "p(f(1,a))."],
    ),
    ("p(f(_,g(_))) <=> q.", &["p(f(1,g(2))). -> q."]),
    (
        "p(f(X)), q(X) <=> r(X,f(X)).",
        &[
            "p(f(g(1))), q(g(1)). -> r(g(1),f(g(1))).",
            "p(f(g(1))), q(f(g(1))).",
        ],
    ),
    (
        "p(X), q(f(X)) <=> true.",
        &["p(g(a)), q(f(g(a))). ->", "p(g(a)), q(f(g(b)))."],
    ),
    (
        "p(X,Y) <=> X == Y | q.",
        &[
            "p(f(g(1),a),f(g(1),a)). -> q.",
            "p(f(g(1),a),f(g(2),a)).",
            "p(f(g(1),a),f(g(1))).",
        ],
    ),
    (
        "p(X,Y) <=> f(X,a) == Y | q.",
        &["p(g(1),f(g(1),a)). -> q.", "p(g(1),g(1))."],
    ),
    ("p(X) <=> X \\== f | q.", &["p(f).", "p(f(1)). -> q."]),
    ("p(X) <=> f(X) \\== f(1) | q.", &["p(1).", "p(f(1)). -> q."]),
    ("p(X) <=> Y is X + 1, q(Y).", &["p(f(1))."]),
    (
        "p(X) <=> Y is X + 1, q(f(Y,g(Y))).",
        &["p(1). -> q(f(2,g(2)))."],
    ),
    ("p(X) <=> X =:= X | q.", &["p(f(1))."]),
    ("p(X) <=> X =\\= 1 | q.", &["p(f(1))."]),
    (
        "p(X) <=> q(s(X)).",
        &[
            "p(s(s(s(s(s(s(z))))))). -> q(s(s(s(s(s(s(s(z)))))))).",
            "p(s(s(s(s(s(s(s(z)))))))).",
        ],
    ),
    (
        "p(s(X)) <=> q(X).",
        &["p(s(s(s(s(s(s(s(z)))))))). -> q(s(s(s(s(s(s(z)))))))."],
    ),
    (
        "p(X) <=> s(X) == s(X) | q.",
        &[
            "p(s(s(s(s(s(s(z))))))). -> q.",
            "p(s(s(s(s(s(s(s(z)))))))).",
        ],
    ),
    (
        "p(X) <=> s(X) \\== a | q.",
        &[
            "p(s(s(s(s(s(s(z))))))). -> q.",
            "p(s(s(s(s(s(s(s(z)))))))).",
        ],
    ),
    ("p(X) <=> a \\== s(X) | q.", &["p(s(s(s(s(s(s(s(z))))))))."]),
    (
        "p(X,Y) <=> q(g(X,Y)).",
        &[
            "p(h(h(h(h(a,a),h(a,a)),h(h(a,a),h(a,a))),h(h(h(a,a),h(a,a)),h(h(a,a),h(a,a)))), h(h(h(h(a,a),h(a,a)),h(h(a,a),h(a,a))),h(h(h(a,a),h(a,a)),h(h(a,a),i(a,a,a))))). -> q(g(h(h(h(h(a,a),h(a,a)),h(h(a,a),h(a,a))),h(h(h(a,a),h(a,a)),h(h(a,a),h(a,a)))), h(h(h(h(a,a),h(a,a)),h(h(a,a),h(a,a))),h(h(h(a,a),h(a,a)),h(h(a,a),i(a,a,a)))))).",
            "p(h(h(h(h(a,a),h(a,a)),h(h(a,a),h(a,a))),h(h(h(a,a),h(a,a)),h(h(a,a),i(a,a,a)))), h(h(h(h(a,a),h(a,a)),h(h(a,a),h(a,a))),h(h(h(a,a),h(a,a)),h(h(a,a),i(a,a,a))))).",
        ],
    ),
    (
        "p(X,Y) <=> g(X,Y) \\== a | q.",
        &[
            "p(h(h(h(h(a,a),h(a,a)),h(h(a,a),h(a,a))),h(h(h(a,a),h(a,a)),h(h(a,a),h(a,a)))), h(h(h(h(a,a),h(a,a)),h(h(a,a),h(a,a))),h(h(h(a,a),h(a,a)),h(h(a,a),i(a,a,a))))). -> q.",
            "p(h(h(h(h(a,a),h(a,a)),h(h(a,a),h(a,a))),h(h(h(a,a),h(a,a)),h(h(a,a),i(a,a,a)))), h(h(h(h(a,a),h(a,a)),h(h(a,a),h(a,a))),h(h(h(a,a),h(a,a)),h(h(a,a),i(a,a,a))))).",
        ],
    ),
    (
        "p(X) <=> true | q(X,X,X,X).",
        &[
            "p(f(f(f(1,2),2),3,4,5,6,7,8)). -> q(f(f(f(1,2),2),3,4,5,6,7,8),f(f(f(1,2),2),3,4,5,6,7,8),f(f(f(1,2),2),3,4,5,6,7,8),f(f(f(1,2),2),3,4,5,6,7,8)).",
        ],
    ),
];

/// Whether two lists have the same atoms.
fn are_same(atoms: &[Atom<Global>], others: &[Atom<Global>]) -> bool {
    atoms.len() == others.len() && atoms.iter().zip(others).all(|(one, other)| one.same(other))
}

/// Whether the body of an instance is this one, or these are no instance. None where memory ran out.
fn is_made(
    alloc: Global,
    rule: &Rule<Global>,
    heads: &[&Atom<Global>],
    wanted: Option<&[Atom<Global>]>,
) -> Option<bool> {
    let made = instance(alloc, rule, heads).ok()?;
    Some(match (&made, wanted) {
        (None, None) => true,
        (Some(made), Some(wanted)) => are_same(made.as_slice(), wanted),
        _ => false,
    })
}

/// The same of the atoms at the heads of a program's rule.
fn is_instance(
    alloc: Global,
    program: &Program<Global>,
    atoms: &[Atom<Global>],
    wanted: Option<&[Atom<Global>]>,
) -> Option<bool> {
    let mut heads = Vec::new(alloc);
    for atom in atoms {
        heads.push(atom).ok()?;
    }
    is_made(alloc, program.rule(1)?, &heads, wanted)
}

/// The same of the body of a text.
fn is_instance_of(
    alloc: Global,
    names: &mut Names<Global>,
    program: &Program<Global>,
    atoms: &[Atom<Global>],
    wanted: Option<&str>,
) -> Option<bool> {
    let Some(text) = wanted else {
        return is_instance(alloc, program, atoms, None);
    };
    let body = atoms_of(alloc, text, names)?;
    is_instance(alloc, program, atoms, Some(body.as_slice()))
}

/// The same of the texts of a program and of a row.
fn is_as_it_says(alloc: Global, program: &str, row: &str) -> Option<bool> {
    let (atoms, body) = match row.split_once("->") {
        None => (row, None),
        Some((atoms, body)) => (atoms, Some(body)),
    };
    let mut names = Names::new(alloc);
    let program = program_of(alloc, program, &mut names)?;
    let atoms = atoms_of(alloc, atoms, &mut names)?;
    is_instance_of(alloc, &mut names, &program, &atoms, body)
}

#[test]
fn instances_with_compound_values(rt: HostRuntime) {
    for (program, rows) in &INSTANCES {
        for row in *rows {
            let says = is_as_it_says(rt.alloc(), program, row);
            assert!(rt; says == Some(true), "{program} {row}");
        }
    }
}

/// A symbol.
fn symbol() -> Term<Global> {
    Term::Given(Value::Sym(Name { number: 0 }))
}

#[test]
fn nothing_holds_of_a_free_variable(rt: HostRuntime) {
    let binding = Binding::free(2);
    let tests: [Comparison<Global>; 5] = [
        Comparison::Same(Term::Var(1), symbol()),
        Comparison::Differ(Term::Var(1), symbol()),
        Comparison::Same(Term::Var(0), Term::Var(1)),
        Comparison::Differ(Term::Var(0), Term::Var(1)),
        Comparison::Numbers(Relation::Unequal, Expr::Var(0), Expr::Number(1)),
    ];
    for test in &tests {
        assert!(rt; !holds(test, &binding));
    }
}
