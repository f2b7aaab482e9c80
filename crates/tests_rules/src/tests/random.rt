//! Random searches, compared with what trying all labels at all heads finds.
ghost use Rattle.chr_plan.specs.Plans.{ArePlans};

use crate::tests::searches::{Scene, labels_of, next_judged, plans_of, program_and_store};
use chr_guard::instance::instance_under;
use chr_rule::{Program, Rule};
use chr_search::{Ask, Judged, Search, Trial, Verdict};
use chr_store::Store;
use std::alloc::{AllocError, Global};

/// How many atoms a store has at most.
const MOST_ATOMS: u64 = 7;

/// More trials than any of these searches has.
const MOST_TRIALS: u64 = 100_000;

/// Heads with the variables that guards and bodies use.
const FIRST_HEADS: [&str; 2] = ["q(X,Y)", "q(Y,X)"];

const OTHER_HEADS: [&str; 16] = [
    "p(X)",
    "p(Y)",
    "p(Z)",
    "p(1)",
    "q(X,Z)",
    "q(Y,Z)",
    "q(Z,X)",
    "q(Z,U)",
    "q(Z,Z)",
    "q(U,a)",
    "p(f(X))",
    "p(f(Z))",
    "p(f(1))",
    "q(f(Y),Z)",
    "q(Z,g(U,X))",
    "q(f(Z),Z)",
];

const GUARDS: [&str; 10] = [
    "",
    "",
    "X < Y | ",
    "X =\\= Y | ",
    "X \\== Y | ",
    "Y =< X + 1 | ",
    "X == Y | ",
    "",
    "f(X) \\== Y | ",
    "g(X,1) == g(Y,1) | ",
];

const BODIES: [&str; 6] = [
    "true",
    "p(X)",
    "W is X mod Y, p(W)",
    "V is 6 // Y, W is V - X, q(V,W)",
    "p(f(X))",
    "q(f(Y),g(X,f(Y)))",
];

const ATOMS: [&str; 16] = [
    "p(0)",
    "p(1)",
    "p(a)",
    "q(0,1)",
    "q(1,0)",
    "q(1,1)",
    "q(1,2)",
    "q(0,0)",
    "q(a,1)",
    "q(1,a)",
    "p(f(1))",
    "q(f(1),1)",
    "q(1,f(1))",
    "q(f(1),f(1))",
    "q(f(0),g(1,1))",
    "q(1,g(f(1),1))",
];

/// Numbers without a plain order, the same from the same start.
#[derive(Drop)]
struct Random {
    state: u64,
}

impl Random {
    /// A number below a bound.
    fn below(&mut self, bound: u64) -> u64 {
        self.state = self
            .state
            .wrapping_mul(6_364_136_223_846_793_005)
            .wrapping_add(1_442_695_040_888_963_407);
        (self.state >> 33).checked_rem(bound).unwrap_or(0)
    }

    /// One of some texts.
    fn pick(&mut self, texts: &[&'static str]) -> &'static str {
        let place = self.below(texts.len() as u64) as usize;
        match texts.get(place) {
            None => "",
            Some(text) => *text,
        }
    }
}

/// Adds a rule of one to three heads.
fn add_rule(text: &mut String, random: &mut Random) -> Result<(), AllocError> {
    let heads = random.below(3).wrapping_add(1);
    let kept = random.below(heads);
    let first = random.below(heads);
    for i in 0..heads {
        if i > 0 {
            text.push_str(if i == kept { " \\ " } else { ", " })?;
        }
        let head = if i == first {
            random.pick(&FIRST_HEADS)
        } else {
            random.pick(&OTHER_HEADS)
        };
        text.push_str(head)?;
    }
    text.push_str(" <=> ")?;
    text.push_str(random.pick(&GUARDS))?;
    text.push_str(random.pick(&BODIES))?;
    text.push_str(".\n")
}

/// Adds one to three rules.
fn add_rules(text: &mut String, random: &mut Random) -> Result<(), AllocError> {
    let rules = random.below(3).wrapping_add(1);
    for _ in 0..rules {
        add_rule(text, random)?;
    }
    Ok(())
}

/// Adds atoms, at least four.
fn add_posts(text: &mut String, random: &mut Random) -> Result<(), AllocError> {
    let atoms = random.below(MOST_ATOMS - 3).wrapping_add(4);
    for i in 0..atoms {
        text.push_str(if i > 0 { ", " } else { "" })?;
        text.push_str(random.pick(&ATOMS))?;
    }
    text.push_str(".")
}

/// A trial: the numbers of its rule and head, and its labels in the plan's order.
#[derive(Drop)]
struct Row {
    rule: u16,
    head: u8,
    labels: Vec<u64>,
}

/// A labelled instance: its rule's number, and its labels in head order.
#[derive(Drop)]
struct Found {
    rule: u16,
    labels: Vec<u64>,
}

fn row_of(alloc: Global, trial: &Trial<Global>) -> Option<Row> {
    Some(Row {
        rule: trial.number(),
        head: trial.head(),
        labels: labels_of(alloc, trial)?,
    })
}

/// Whether two trials differ in the last label at most.
fn are_beside(row: &Row, other: &Row) -> bool {
    let (Some((_, labels)), Some((_, others))) = (
        row.labels.as_slice().split_last(),
        other.labels.as_slice().split_last(),
    ) else {
        return false;
    };
    row.rule == other.rule && row.head == other.head && labels == others
}

/// What a search goes through: each trial with the one behind it, if there is one, and the instances.
struct Reached {
    rows: Vec<(Row, Option<Row>)>,
    found: Vec<Found>,
}

// Not derived: letting all this go is then one call, which is proved here once.
impl Drop for Reached {
    fn drop(self) {
        let Reached { rows: _, found: _ } = self;
    }
}

/// An instance of a rule with these labels at its kept and removed heads.
fn found_of(alloc: Global, rule: u16, kept: &[u64], removed: &[u64]) -> Option<Found> {
    let mut labels = Vec::new(alloc);
    labels.extend_from_slice(kept).ok()?;
    labels.extend_from_slice(removed).ok()?;
    Some(Found { rule, labels })
}

/// A copy of a judged trial. None where memory ran out, where the copy doesn't equal it or the one before does, or where there
/// isn't a binding just where it is whole.
fn sound_copy(
    alloc: Global,
    judged: &Judged<Global>,
    before: &Option<Trial<Global>>,
) -> Option<Trial<Global>> {
    let trial = judged.trial();
    let differs = match before {
        None => true,
        Some(other) => !other.same(trial),
    };
    let whole = judged.verdict() == Verdict::Whole;
    if !differs || judged.binding().is_some() != whole {
        return None;
    }
    let copy = trial.copy(alloc).ok()?;
    if copy.same(trial) { Some(copy) } else { None }
}

/// The trial behind another, if there is one. The outer Option is None where memory ran out.
fn behind_of(
    alloc: Global,
    scene: Scene,
    search: &Search,
    trial: &Trial<Global>,
) -> Option<Option<Row>>
    requires { ArePlans scene.program.now scene.plans.now }
{
    match search
        .behind(alloc, trial, scene.program, scene.plans, scene.store)
        .ok()?
    {
        Ask::Done => Some(None),
        Ask::Trial(next) => row_of(alloc, &next).map(Some),
    }
}

/// Adds a judged trial with the one behind it, and the instance that it is where it is whole.
fn add_judged(
    alloc: Global,
    reached: &mut Reached,
    judged: &Judged<Global>,
    behind: Option<Row>,
) -> Option<()> {
    let trial = judged.trial();
    reached.rows.push((row_of(alloc, trial)?, behind)).ok()?;
    if judged.verdict() == Verdict::Whole {
        let (kept, removed) = (trial.kept_labels(), trial.removed_labels());
        let found = found_of(alloc, trial.number(), kept.as_slice(), removed.as_slice())?;
        reached.found.push(found).ok()?;
    }
    Some(())
}

/// Goes over the next trial of a search. Whether there was one. None where memory ran out, or where it isn't sound.
fn go_over_next(
    alloc: Global,
    scene: Scene,
    search: &mut Search,
    before: &mut Option<Trial<Global>>,
    reached: &mut Reached,
) -> Option<bool>
    requires { ArePlans scene.program.now scene.plans.now }
{
    let Some(judged) = next_judged(alloc, scene, search)? else {
        return Some(false);
    };
    *before = Some(sound_copy(alloc, &judged, before)?);
    let behind = behind_of(alloc, scene, search, judged.trial())?;
    add_judged(alloc, reached, &judged, behind)?;
    search.advance(&judged);
    Some(true)
}

/// The whole search of a label. None where memory ran out, or where a trial isn't sound.
fn reach(alloc: Global, scene: Scene, label: u64) -> Option<Reached>
    requires { ArePlans scene.program.now scene.plans.now }
{
    let mut reached = Reached {
        rows: Vec::new(alloc),
        found: Vec::new(alloc),
    };
    let mut search = Search::begin(label);
    let mut before = None;
    for _ in 0..MOST_TRIALS {
        if !go_over_next(alloc, scene, &mut search, &mut before, &mut reached)? {
            return Some(reached);
        }
    }
    None
}

/// Whether what is behind each trial is the first later one that differs in the last label alone.
fn is_behind_right(reached: &Reached) -> bool {
    let rows = reached.rows.as_slice();
    for (i, (row, behind)) in rows.iter().enumerate() {
        let (_, later) = rows.split_at(i);
        let next = later.iter().skip(1).find(|other| are_beside(row, &other.0));
        let right = match (next, behind) {
            (None, None) => true,
            (Some((next, _)), Some(behind)) => {
                are_beside(next, behind)
                    && next.labels.as_slice().last() == behind.labels.as_slice().last()
            }
            _ => false,
        };
        if !right {
            return false;
        }
    }
    true
}

/// Whether labels are those of an instance of a rule, the active one among them, each once.
fn is_instance(
    alloc: Global,
    rule: &Rule<Global>,
    store: &Store<Global>,
    labels: &[u64],
    active: u64,
) -> Option<bool> {
    let mut atoms = Vec::new(alloc);
    for (i, label) in labels.iter().enumerate() {
        let (before, _) = labels.split_at(i);
        if before.contains(label) {
            return Some(false);
        }
        let Some(atom) = store.get(*label) else {
            return Some(false);
        };
        atoms.push(atom).ok()?;
    }
    Some(labels.contains(&active) && instance_under(rule, &atoms).is_some())
}

/// The labels at so many heads by the number of a choice among the labels up to the active one.
fn chosen(alloc: Global, heads: usize, active: u64, choice: u64) -> Option<Vec<u64>> {
    let mut labels = Vec::new(alloc);
    let mut rest = choice;
    for _ in 0..heads {
        let label = rest.checked_rem(active)?.wrapping_add(1);
        labels.push(label).ok()?;
        rest = rest.checked_div(active)?;
    }
    Some(labels)
}

/// Adds the instances of a rule whose youngest label is the active one, by trying all labels up to it at all heads.
fn add_instances(
    alloc: Global,
    number: u16,
    rule: &Rule<Global>,
    store: &Store<Global>,
    active: u64,
    found: &mut Vec<Found>,
) -> Option<()> {
    let heads = rule.heads();
    let mut choices: u64 = 1;
    for _ in 0..heads {
        choices = choices.wrapping_mul(active);
    }
    for choice in 0..choices {
        let labels = chosen(alloc, heads, active, choice)?;
        if is_instance(alloc, rule, store, &labels, active)? {
            found
                .push(Found {
                    rule: number,
                    labels,
                })
                .ok()?;
        }
    }
    Some(())
}

/// The same of all rules.
fn enumerate(
    alloc: Global,
    program: &Program<Global>,
    store: &Store<Global>,
    active: u64,
) -> Option<Vec<Found>> {
    let mut found = Vec::new(alloc);
    for (place, rule) in program.rules().iter().enumerate() {
        let number = place.wrapping_add(1) as u16;
        add_instances(alloc, number, rule, store, active, &mut found)?;
    }
    Some(found)
}

fn has(list: &[Found], rule: u16, labels: &[u64]) -> bool {
    list.iter()
        .any(|one| one.rule == rule && one.labels.as_slice() == labels)
}

/// Whether two lists of instances have the same ones. Each has none twice, and they are as long, if one has all of the other.
fn are_same(reached: &[Found], expected: &[Found]) -> bool {
    reached.len() == expected.len()
        && expected
            .iter()
            .all(|one| has(reached, one.rule, &one.labels))
}

/// Whether a search reaches what enumeration finds.
fn is_right(reached: &Reached, expected: &[Found]) -> bool {
    are_same(&reached.found, expected) && is_behind_right(reached)
}

/// How many instances the search of a label reaches. None where it is wrong, or memory ran out.
fn count_of_label(alloc: Global, scene: Scene, label: u64) -> Option<usize>
    requires { ArePlans scene.program.now scene.plans.now }
{
    let reached = reach(alloc, scene, label)?;
    let expected = enumerate(alloc, scene.program, scene.store, label)?;
    if is_right(&reached, &expected) {
        return Some(expected.len());
    }
    None
}

/// How many instances the searches over a store reach, for all labels. None where a search is wrong, or memory ran out.
fn count_reached(alloc: Global, scene: Scene) -> Option<usize>
    requires { ArePlans scene.program.now scene.plans.now }
{
    let mut number: usize = 0;
    for label in 1..=MOST_ATOMS {
        number = number.wrapping_add(count_of_label(alloc, scene, label)?);
    }
    Some(number)
}

/// The same of a program and a store that are read from their texts.
fn count_of_texts(alloc: Global, rules: &str, posts: &str, removed: &[u64]) -> Option<usize> {
    let (program, store) = program_and_store(alloc, rules, posts, removed)?;
    let plans = plans_of(alloc, &program)?;
    let scene = Scene {
        program: &program,
        plans: &plans,
        store: &store,
    };
    count_reached(alloc, scene)
}

/// The same of a random program and store.
fn instances(alloc: Global, seed: u64) -> Option<usize> {
    let mut random = Random { state: seed };
    let mut rules = String::new(alloc);
    add_rules(&mut rules, &mut random).ok()?;
    let mut posts = String::new(alloc);
    add_posts(&mut posts, &mut random).ok()?;
    let removed = random.below(MOST_ATOMS).wrapping_add(1);
    count_of_texts(alloc, &rules, &posts, &[removed])
}

#[test]
fn searches_reach_what_enumeration_finds(rt: HostRuntime) {
    let mut number: usize = 0;
    for seed in 1..=300 {
        match instances(rt.alloc(), seed) {
            None => assert!(rt; false, "seed {seed}"),
            Some(found) => number = number.wrapping_add(found),
        }
    }
    assert!(rt; number > 500, "{number} instances");
}
