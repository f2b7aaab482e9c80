//! Worked searches.
ghost use Rattle.std.specs.Prelude.{◌≤◌, IfSome};
ghost use Rattle.chr_plan.specs.Plans.{ArePlans};

use crate::tests::texts::{atoms_of, inserts_text, program_of};
use chr_guard::Binding;
use chr_plan::Plans;
use chr_rule::Program;
use chr_search::{Ask, Instance, Judged, Passed, Search, Then, Trial, judge};
use chr_store::Store;
use chr_value::{Atom, Names};
use std::alloc::Global;

/// A program with its plans, and a store.
#[derive(Clone, Copy)]
pub(crate) struct Scene<'s> {
    pub program: &'s Program<Global>,
    pub plans: &'s Plans<Global>,
    pub store: &'s Store<Global>,
}

/// A store of these atoms, from label 1 on, of which some are removed. None where memory ran out.
fn store_of(
    alloc: Global,
    posts: &str,
    names: &mut Names<Global>,
    removed: &[u64],
) -> Option<Store<Global>> {
    let mut store = Store::new(alloc, 100);
    if !inserts_text(alloc, posts, names, &mut store) {
        return None;
    }
    for label in removed {
        let _atom = store.remove(*label);
    }
    Some(store)
}

/// The program and the store of these texts. None where memory ran out.
pub(crate) fn program_and_store(
    alloc: Global,
    rules: &str,
    posts: &str,
    removed: &[u64],
) -> Option<(Program<Global>, Store<Global>)> {
    let mut names = Names::new(alloc);
    let program = program_of(alloc, rules, &mut names)?;
    let store = store_of(alloc, posts, &mut names, removed)?;
    Some((program, store))
}

/// The plans of a program. None where memory ran out.
pub(crate) fn plans_of(alloc: Global, program: &Program<Global>) -> Option<Plans<Global>>
    ensures { IfSome result (λ plans. ArePlans program.now plans) }
{
    Plans::make(alloc, program).ok()
}

/// The labels of a trial, in the plan's order. None where memory ran out.
pub(crate) fn labels_of(alloc: Global, trial: &Trial<Global>) -> Option<Vec<u64>> {
    let mut labels = Vec::new(alloc);
    for one in trial.placed() {
        labels.push(one.label).ok()?;
    }
    Some(labels)
}

/// Whether a judged trial is the expected one, which is told by its rule, its head, its labels and the verdict.
fn is_row(alloc: Global, judged: &Judged<Global>, row: &str) -> Option<bool> {
    let trial = judged.trial();
    let (rule, head, verdict) = (trial.number(), trial.head(), judged.verdict());
    let labels = labels_of(alloc, trial)?;
    let text = format!(in alloc; "{rule}.{head} {labels:?} {verdict:?}").ok()?;
    Some(text.as_str() == row)
}

/// The next trial of a search with its verdict, if one is left. The outer Option is None where memory ran out.
pub(crate) fn next_judged(
    alloc: Global,
    scene: Scene,
    search: &Search,
) -> Option<Option<Judged<Global>>>
    requires { ArePlans scene.program.now scene.plans.now }
{
    let asked = search.candidate(alloc, scene.program, scene.plans, scene.store);
    match asked.ok()? {
        Ask::Trial(trial) => Some(Some(judge(trial))),
        Ask::Done => Some(None),
    }
}

/// Whether the next trial of a search is the expected one, past which the search then is. None where memory ran out.
fn is_next(alloc: Global, scene: Scene, search: &mut Search, row: &str) -> Option<bool>
    requires { ArePlans scene.program.now scene.plans.now }
{
    let Some(judged) = next_judged(alloc, scene, search)? else {
        return Some(false);
    };
    search.advance(&judged);
    is_row(alloc, &judged, row)
}

/// The number of the first trial of a full search that isn't as expected, 0 where all are. None where memory ran out.
fn first_other(alloc: Global, scene: Scene, label: u64, rows: &[&str]) -> Option<usize>
    requires { ArePlans scene.program.now scene.plans.now }
{
    let mut search = Search::begin(label);
    let mut number: usize = 0;
    for row in rows {
        number = number.wrapping_add(1);
        if !is_next(alloc, scene, &mut search, row)? {
            return Some(number);
        }
    }
    match search.find(scene.program, scene.plans, scene.store) {
        None => Some(0),
        Some(_) => Some(number.wrapping_add(1)),
    }
}

/// A search: the active label and its trials.
type Worked<'r> = (u64, &'r [&'r str]);

/// Searches over one store: a program, posts, the labels that are removed, and the searches.
type Row<'r> = (&'r str, &'r str, &'r [u64], &'r [Worked<'r>]);

/// The number of the first trial of a search that isn't as expected, 0 where all are. None where memory ran out.
fn first_wrong(alloc: Global, row: &Row, search: &Worked) -> Option<usize> {
    let (rules, posts, removed, _) = *row;
    let (label, trials) = *search;
    let (program, store) = program_and_store(alloc, rules, posts, removed)?;
    let plans = plans_of(alloc, &program)?;
    let scene = Scene {
        program: &program,
        plans: &plans,
        store: &store,
    };
    first_other(alloc, scene, label, trials)
}

/// How many trials are passed over before an instance, and its kept and removed labels.
type Expected<'a> = (u64, &'a [u64], &'a [u64]);

/// Whether so many trials were passed over and then an instance found, with these kept and removed labels.
fn is_found(passed: Passed, instance: &Instance, expected: Expected) -> bool {
    let whole = instance.whole();
    passed.then == Then::Whole
        && passed.count == expected.0
        && whole.kept() == expected.1.len()
        && whole.labels().as_slice().starts_with(expected.1)
        && whole.removed() == expected.2
}

/// Whether the search for an atom finds that instance before the atom is entered under the next label.
fn is_found_before(scene: Scene, atom: &Atom<Global>, expected: Expected) -> bool
    requires plans { ArePlans scene.program.now scene.plans.now }
    requires room { scene.store.now.next ≤ scene.store.now.limit }
{
    let mut search = Search::begin(scene.store.next_label());
    let mut instance = Instance::new();
    let mut bound = Binding::free(0);
    let passed = search.pass_over_before(
        scene.program,
        scene.plans,
        scene.store,
        atom,
        100,
        &mut instance,
        &mut bound,
    );
    is_found(passed, &instance, expected)
}

/// Whether the search of a label finds that instance.
fn is_found_at(scene: Scene, label: u64, expected: Expected) -> bool
    requires { ArePlans scene.program.now scene.plans.now }
{
    let mut search = Search::begin(label);
    let mut instance = Instance::new();
    let mut bound = Binding::free(0);
    let passed = search.pass_over(
        scene.program,
        scene.plans,
        scene.store,
        100,
        &mut instance,
        &mut bound,
    );
    is_found(passed, &instance, expected)
}

/// Whether the search for the first of some atoms finds that instance before the atom is entered into the store, and once it
/// is. None where memory ran out.
fn are_found(
    alloc: Global,
    scene: Scene,
    next: &[Atom<Global>],
    expected: Expected,
) -> Option<(bool, bool)>
    requires { ArePlans scene.program.now scene.plans.now }
{
    let atom = next.first()?;
    let mut entered = scene.store.copy(alloc).ok()?;
    let Ok(label) = entered.insert_copy(atom) else {
        return None;
    };
    let before = is_found_before(scene, atom, expected);
    let after = Scene {
        store: &entered,
        ..scene
    };
    Some((before, is_found_at(after, label, expected)))
}

/// The same of texts.
fn is_found_twice(
    alloc: Global,
    program: &str,
    posts: &str,
    next: &str,
    expected: Expected,
) -> Option<(bool, bool)> {
    let mut names = Names::new(alloc);
    let program = program_of(alloc, program, &mut names)?;
    let store = store_of(alloc, posts, &mut names, &[])?;
    let plans = plans_of(alloc, &program)?;
    let atoms = atoms_of(alloc, next, &mut names)?;
    let scene = Scene {
        program: &program,
        plans: &plans,
        store: &store,
    };
    are_found(alloc, scene, &atoms, expected)
}

const GCD: &str = "gcd(0) <=> true. gcd(N) \\ gcd(M) <=> N =< M | L is M mod N, gcd(L).";

/// The joins of two edges that end at a node.
const JOINED: &str = "edge(X,Y), edge(Y,Z), node(Z) <=> path(X,Z).";

/// The trials of such a join.
const PATHS: &[&str] = &[
    "1.3 [4] Part",
    "1.3 [4, 2] Part",
    "1.3 [4, 2, 1] Whole",
    "1.3 [4, 2, 3] Whole",
];

/// Worked searches.
static SEARCHES: [Row; 11] = [
    // One label has no partner.
    (
        GCD,
        "gcd(4).",
        &[],
        &[(1, &["1.1 [1] Misfit", "2.1 [1] Part", "2.2 [1] Part"])],
    ),
    // The guard decides which of two is kept, and younger labels are no partners.
    (
        GCD,
        "gcd(9), gcd(6).",
        &[],
        &[
            (
                2,
                &[
                    "1.1 [2] Misfit",
                    "2.1 [2] Part",
                    "2.1 [2, 1] Whole",
                    "2.2 [2] Part",
                    "2.2 [2, 1] Misfit",
                ],
            ),
            (1, &["1.1 [1] Misfit", "2.1 [1] Part", "2.2 [1] Part"]),
        ],
    ),
    // Removed labels are passed over.
    (
        "p, q <=> r.",
        "p, p, p, p, q.",
        &[2],
        &[(
            5,
            &[
                "1.2 [5] Part",
                "1.2 [5, 1] Whole",
                "1.2 [5, 3] Whole",
                "1.2 [5, 4] Whole",
            ],
        )],
    ),
    // A dead label has no trials.
    (GCD, "gcd(9), gcd(6).", &[2], &[(2, &[])]),
    // One label doesn't serve two heads.
    (
        "p, p, p <=> q.",
        "p, p.",
        &[],
        &[(
            2,
            &[
                "1.1 [2] Part",
                "1.1 [2, 1] Part",
                "1.1 [2, 1, 1] Misfit",
                "1.2 [2] Part",
                "1.2 [2, 1] Part",
                "1.2 [2, 1, 1] Misfit",
                "1.3 [2] Part",
                "1.3 [2, 1] Part",
                "1.3 [2, 1, 1] Misfit",
            ],
        )],
    ),
    // Partners are found by the value that joins them.
    (
        JOINED,
        "edge(a,b), edge(b,c), edge(c,b), node(c).",
        &[],
        &[(4, PATHS)],
    ),
    // The same of compound values.
    (
        JOINED,
        "edge(f(a),f(b)), edge(f(b),f(c)), edge(f(c),f(b)), node(f(c)), node(c).",
        &[],
        &[(4, PATHS), (5, &["1.3 [5] Part"])],
    ),
    // A term with variables is no key, so all labels of its predicate are tried.
    (
        "p(X), q(f(X)) <=> r.",
        "p(1), q(f(1)), q(f(2)), p(1).",
        &[],
        &[
            (
                4,
                &["1.1 [4] Part", "1.1 [4, 2] Whole", "1.1 [4, 3] Misfit"],
            ),
            (2, &["1.2 [2] Part", "1.2 [2, 1] Whole"]),
            (3, &["1.2 [3] Part"]),
        ],
    ),
    // One without variables is a key.
    (
        "t \\ p(f(1,g(a))) <=> true.",
        "p(f(1,g(a))), p(f(1,g(b))), p(f(1,a)), p(f(1,g(a))), t.",
        &[],
        &[(5, &["1.1 [5] Part", "1.1 [5, 1] Whole", "1.1 [5, 4] Whole"])],
    ),
    (
        "p(f(X)) <=> X > 0 | true. p(f(X,X)) <=> true.",
        "p(f(1)), p(f(a)), p(1), p(f(1,1)).",
        &[],
        &[(4, &["1.1 [4] Misfit", "2.1 [4] Whole"])],
    ),
    (
        "n(X) <=> n(s(X)).",
        "n(s(s(s(s(s(s(z))))))), n(s(s(s(s(s(s(s(z)))))))).",
        &[],
        &[(1, &["1.1 [1] Whole"]), (2, &["1.1 [2] Misfit"])],
    ),
];

#[test]
fn worked_searches(rt: HostRuntime) {
    for row in &SEARCHES {
        let (_, posts, _, searches) = row;
        for search in *searches {
            assert!(rt;
                first_wrong(rt.alloc(), row, search) == Some(0),
                "label {} of {posts}",
                search.0
            );
        }
    }
}

#[test]
fn instance_is_found_before_its_atom_is_entered(rt: HostRuntime) {
    let expected = (2, &[2][..], &[1][..]);
    let found = is_found_twice(rt.alloc(), GCD, "gcd(9).", "gcd(6).", expected);
    assert!(rt; found == Some((true, true)));
    let program = "p(f(X)) \\ q(X) <=> r(X).";
    let expected = (1, &[2][..], &[1][..]);
    let found = is_found_twice(rt.alloc(), program, "q(g(a)).", "p(f(g(a))).", expected);
    assert!(rt; found == Some((true, true)));
}
