//! Worked plans.
use crate::tests::searches::plans_of;
use crate::tests::texts::program_of;
use chr_plan::Plans;
use chr_rule::Program;
use chr_value::{Names, Pred};
use std::alloc::Global;

/// A plan for each head: pairs of a head and a place, 0 for no key.
type Steps = &'static [&'static [(u8, u8)]];

/// The places that the plans look up: the number of a name in text order, an arity and a place.
type Places = &'static [(u32, u8, u8)];

/// A program of one rule, the plans of its heads, and the places that they look up.
static ROWS: [(&str, Steps, Places); 5] = [
    (
        "edge(X,Y), edge(Y,Z), node(Z) <=> true.",
        &[
            &[(1, 0), (2, 1), (3, 1)],
            &[(2, 0), (1, 2), (3, 1)],
            &[(3, 0), (2, 2), (1, 2)],
        ],
        &[(0, 2, 1), (1, 1, 1), (0, 2, 2)],
    ),
    (
        "p(X), p(Y), p(X,Y), p(1), p(Z), p(Z,a) <=> true.",
        &[
            &[(1, 0), (3, 1), (2, 1), (4, 1), (6, 2), (5, 1)],
            &[(2, 0), (3, 2), (1, 1), (4, 1), (6, 2), (5, 1)],
            &[(3, 0), (1, 1), (2, 1), (4, 1), (6, 2), (5, 1)],
            &[(4, 0), (6, 2), (5, 1), (1, 0), (3, 1), (2, 1)],
            &[(5, 0), (4, 1), (6, 1), (1, 0), (3, 1), (2, 1)],
            &[(6, 0), (4, 1), (5, 1), (1, 0), (3, 1), (2, 1)],
        ],
        &[(0, 2, 1), (0, 1, 1), (0, 2, 2)],
    ),
    ("p(X) <=> true.", &[&[(1, 0)]], &[]),
    // Compound terms without variables are keys; one with variables binds them and is none.
    (
        "p(f(X),Y), q(f(1),X), q(f(X),Y), r(Y,f(a,g(2))) <=> true.",
        &[
            &[(1, 0), (2, 1), (3, 2), (4, 1)],
            &[(2, 0), (4, 2), (1, 2), (3, 2)],
            &[(3, 0), (1, 2), (2, 1), (4, 1)],
            &[(4, 0), (1, 2), (2, 1), (3, 2)],
        ],
        &[(2, 2, 1), (2, 2, 2), (3, 2, 1), (3, 2, 2), (0, 2, 2)],
    ),
    (
        "p(X), q(f(X)), r(g(Y)), s(Y) <=> true.",
        &[
            &[(1, 0), (2, 0), (3, 0), (4, 1)],
            &[(2, 0), (1, 1), (3, 0), (4, 1)],
            &[(3, 0), (4, 1), (1, 0), (2, 0)],
            &[(4, 0), (1, 0), (2, 0), (3, 0)],
        ],
        &[(5, 1, 1), (0, 1, 1)],
    ),
];

/// Whether a plan has these steps.
fn has_steps(plans: &Plans<Global>, head: u8, steps: &[(u8, u8)]) -> bool {
    let Some(plan) = plans.plan(1, head) else {
        return false;
    };
    plan.len() == steps.len()
        && plan.iter().zip(steps).all(|(step, (head, place))| step.head == *head
            && step.key.unwrap_or(0) == *place)
}

/// The first head whose plan is another one, or 0.
fn first_wrong(plans: &Plans<Global>, wanted: Steps) -> u8 {
    let mut head: u8 = 0;
    for steps in wanted {
        head = head.wrapping_add(1);
        if !has_steps(plans, head, steps) {
            return head;
        }
    }
    0
}

/// Whether these places are the wanted ones.
fn are_places(places: &[(Pred, u8)], wanted: Places) -> bool {
    places.len() == wanted.len()
        && places.iter().zip(wanted).all(|((pred, place), wanted)| (
            pred.name.number,
            pred.arity,
            *place,
        ) == *wanted)
}

/// The places that plans look up. None if memory ran out.
fn places_of(
    alloc: Global,
    program: &Program<Global>,
    plans: &Plans<Global>,
) -> Option<Vec<(Pred, u8)>> {
    plans.places(alloc, program).ok()
}

/// The first head whose plan is another one, or 0, and whether the plans look up these places. None if memory ran out.
fn found_of(
    alloc: Global,
    program: &Program<Global>,
    steps: Steps,
    places: Places,
) -> Option<(u8, bool)> {
    let plans = plans_of(alloc, program)?;
    let looked_up = places_of(alloc, program, &plans)?;
    Some((first_wrong(&plans, steps), are_places(&looked_up, places)))
}

/// The same of a program's text.
fn found(alloc: Global, text: &str, steps: Steps, places: Places) -> Option<(u8, bool)> {
    let mut names = Names::new(alloc);
    let program = program_of(alloc, text, &mut names)?;
    found_of(alloc, &program, steps, places)
}

#[test]
fn plans_and_the_places_that_they_look_up(rt: HostRuntime) {
    for (text, steps, places) in &ROWS {
        let found = found(rt.alloc(), text, steps, places);
        assert!(rt; found == Some((0, true)), "{text}");
    }
}
