//! The store, up to its limit.
ghost use Rattle.std.specs.Prelude.{◌≤◌};
ghost use Rattle.chr_value.specs.Bounds.{greatest_label};

use crate::tests::rules::arguments_of;
use crate::tests::texts::{atoms_of, inserts_text};
use chr_store::{Store, StoreFault};
use chr_value::{Atom, Comp, Name, Names, Pred, Value, ValueRef};
use std::alloc::Global;

const P: Name = Name { number: 0 };

const PRED: Pred = Pred { name: P, arity: 1 };

/// An empty store with a limit, plain or with an index for the place of `p/1`.
fn empty(alloc: Global, indexed: bool, limit: u64) -> Option<Store<Global>>
    requires { limit ≤ greatest_label }
{
    if indexed {
        return Store::indexed(alloc, limit, &[(PRED, 1)]).ok();
    }
    Some(Store::new(alloc, limit))
}

/// How a store is made: with an index or without one, and of numbers or of compound values.
type Kind = (bool, bool);

const KINDS: [Kind; 4] = [(false, false), (true, false), (false, true), (true, true)];

/// A functor with a number.
fn comp_of(alloc: Global, n: i64) -> Option<Comp<Global>> {
    let mut args = Vec::new(alloc);
    args.push(Value::Int(n)).ok()?;
    Some(Comp {
        functor: Name { number: 1 },
        args: arguments_of(args)?,
    })
}

/// A store with a limit of at least 3 of `p(1)`, `p(2)` and `p(1)`, or with these numbers under a functor, under 1, 2 and 3.
fn store_of(alloc: Global, kind: Kind, limit: u64) -> Option<Store<Global>>
    requires { limit ≤ greatest_label }
{
    let (indexed, compound) = kind;
    let text = if compound {
        "p(f(1)), p(f(2)), p(f(1))."
    } else {
        "p(1), p(2), p(1)."
    };
    let mut names = Names::new(alloc);
    let mut store = empty(alloc, indexed, limit)?;
    inserts_text(alloc, text, &mut names, &mut store).then_some(store)
}

/// Whether an atom is refused because all labels were given.
fn is_full(alloc: Global, store: &mut Store<Global>) -> bool {
    matches!(
        store.insert(Atom::new(alloc, P)),
        Err(StoreFault::LabelsSpent(_))
    )
}

/// The next label of a store between two others, by a value where there is one.
fn next_at(
    store: &Store<Global>,
    value: Option<ValueRef<'_, Global>>,
    after: u64,
    below: u64,
) -> Option<u64> {
    let key = match value {
        Some(value) => Some((1, value)),
        None => None,
    };
    store.next_at(PRED, key, after, below)
}

/// A row of the table of `next_at`: whether by the value, the labels between which it is, and the answer.
type Row = (bool, u64, u64, Option<u64>);

/// The first row of the table that a store doesn't answer as it should, by a value as the key.
fn first_wrong(store: &Store<Global>, one: ValueRef<'_, Global>, rows: &[Row]) -> Option<usize> {
    for (i, (keyed, after, below, wanted)) in rows.iter().enumerate() {
        let value = if *keyed { Some(one) } else { None };
        if next_at(store, value, *after, *below) != *wanted {
            return Some(i);
        }
    }
    None
}

static ROWS: [Row; 4] = [
    (true, 0, 4, Some(1)),
    (true, 1, 4, Some(3)),
    (true, 1, 3, None),
    (false, 1, 3, Some(2)),
];

static ROWS_WITHOUT_3: [Row; 3] = [
    (true, 0, 4, Some(1)),
    (true, 1, 4, None),
    (false, 1, 4, Some(2)),
];

/// Whether a store of three atoms answers its table, and takes no fourth one.
fn is_right_with_3(alloc: Global, store: &mut Store<Global>, one: ValueRef<'_, Global>) -> bool {
    first_wrong(store, one, &ROWS).is_none()
        && is_full(alloc, store)
        && (store.len(), store.next_label()) == (3, 4)
}

/// Whether label 3 is there, and is gone once it is removed.
fn loses_3(store: &mut Store<Global>) -> bool {
    store.remove(3).is_some() && store.get(3).is_none()
}

/// Whether a store still has label 2, and has two atoms.
fn has_two(store: &Store<Global>) -> bool {
    store.get(2).is_some() && store.iter().count() == 2
}

/// Whether it answers its table once label 3 is gone, and takes none in its place.
fn is_right_without_3(alloc: Global, store: &mut Store<Global>, one: ValueRef<'_, Global>) -> bool {
    loses_3(store)
        && first_wrong(store, one, &ROWS_WITHOUT_3).is_none()
        && is_full(alloc, store)
        && has_two(store)
}

/// Whether both hold of a store. None where memory ran out.
fn is_right(alloc: Global, kind: Kind) -> Option<bool> {
    let mut store = store_of(alloc, kind, 3)?;
    let one = comp_of(alloc, 1)?;
    let one = if kind.1 {
        ValueRef::Comp(&one)
    } else {
        ValueRef::Int(1)
    };
    Some(is_right_with_3(alloc, &mut store, one) && is_right_without_3(alloc, &mut store, one))
}

/// Whether a store whose limit is 0 takes no atom. None where memory ran out.
fn takes_none(alloc: Global, indexed: bool) -> Option<bool> {
    let mut none = empty(alloc, indexed, 0)?;
    Some(is_full(alloc, &mut none))
}

#[test]
fn finds_the_next_label_and_keeps_its_limit(rt: HostRuntime) {
    for kind in KINDS {
        let (indexed, compound) = kind;
        let right = is_right(rt.alloc(), kind) == Some(true);
        assert!(rt;
            right && takes_none(rt.alloc(), indexed) == Some(true),
            "{indexed}, {compound}"
        );
    }
}

/// The label that is given after the greatest one of all has left the store. None if memory ran out.
fn label_after_the_last_has_left(alloc: Global, kind: Kind) -> Option<u64> {
    let mut store = store_of(alloc, kind, 10)?;
    store.remove(3)?;
    store.insert(Atom::new(alloc, P)).ok()
}

#[test]
fn gives_no_label_again(rt: HostRuntime) {
    for kind in KINDS {
        let (indexed, compound) = kind;
        let label = label_after_the_last_has_left(rt.alloc(), kind);
        assert!(rt; label == Some(4), "{indexed}, {compound}");
    }
}

/// Constraints of one predicate, from label 1 on.
const ALIKE: &str =
    "p(1), p(f), p(f(1)), p(f(f(1))), p(f(1,1)), p(g(1)), p(f(a)), p(f(1)), p(f(g(1,f))), p(a), p(f(f(1))).";

/// The argument of a constraint, and the labels that have it.
static LABELS: [(&str, &[u64]); 12] = [
    ("p(1).", &[1]),
    ("p(f).", &[2]),
    ("p(f(1)).", &[3, 8]),
    ("p(f(f(1))).", &[4, 11]),
    ("p(f(1,1)).", &[5]),
    ("p(g(1)).", &[6]),
    ("p(f(a)).", &[7]),
    ("p(f(g(1,f))).", &[9]),
    ("p(a).", &[10]),
    ("p(f(2)).", &[]),
    ("p(f(g(f,1))).", &[]),
    ("p(h(1)).", &[]),
];

/// Whether a store gives these labels for a value, and none else.
fn has_labels(store: &Store<Global>, value: ValueRef<'_, Global>, labels: &[u64]) -> bool {
    let mut after = 0;
    for label in labels {
        if next_at(store, Some(value), after, 100) != Some(*label) {
            return false;
        }
        after = *label;
    }
    next_at(store, Some(value), after, 100).is_none()
}

/// The same for the argument of the first of some atoms.
fn has_labels_at(store: &Store<Global>, atoms: &[Atom<Global>], labels: &[u64]) -> bool {
    let Some(atom) = atoms.first() else {
        return false;
    };
    match atom.arg(0) {
        Some(value) => has_labels(store, value, labels),
        None => false,
    }
}

/// The first row of the labels that a store doesn't answer as it should, or how many rows there are. None if memory ran out.
fn first_other(alloc: Global, store: &Store<Global>, names: &mut Names<Global>) -> Option<usize> {
    for (i, (text, labels)) in LABELS.iter().enumerate() {
        let atoms = atoms_of(alloc, text, names)?;
        if !has_labels_at(store, &atoms, labels) {
            return Some(i);
        }
    }
    Some(LABELS.len())
}

/// The same of a store of all of them, plain or with an index.
fn first_other_of(alloc: Global, indexed: bool) -> Option<usize> {
    let mut names = Names::new(alloc);
    let mut store = empty(alloc, indexed, 100)?;
    if !inserts_text(alloc, ALIKE, &mut names, &mut store) {
        return None;
    }
    first_other(alloc, &store, &mut names)
}

#[test]
fn values_that_are_alike_are_told_apart(rt: HostRuntime) {
    for indexed in [false, true] {
        let other = first_other_of(rt.alloc(), indexed);
        assert!(rt; other == Some(LABELS.len()), "{indexed}");
    }
}
