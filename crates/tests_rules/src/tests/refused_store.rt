//! A store. The allocator `alloc` hands on to `memory`, whose request number `n` is refused.
use crate::tests::texts::{atoms_of, inserts, inserts_text};
use chr_store::{Store, StoreFault};
use chr_value::{Atom, Name, Names, Pred, Value, ValueRef};
use refusing::Refusing;
use std::alloc::{Allocator, Global};

const PRED: Pred = Pred {
    name: Name { number: 0 },
    arity: 1,
};

/// An atom without arguments, which takes no memory.
fn atom_of<A: Allocator + Copy>(alloc: A, number: u32) -> Atom<A> {
    Atom::new(alloc, Name { number })
}

/// An atom with a number as its argument, which takes no memory.
fn unary_of<A: Allocator + Copy>(alloc: A, argument: i64) -> Atom<A> {
    let mut atom = Atom::new(alloc, PRED.name);
    let _taken = atom.push(Value::Int(argument));
    atom
}

/// Inserts an atom. The same atom, where memory is refused.
fn given_back<A: Allocator + Copy>(store: &mut Store<A>, atom: Atom<A>) -> Option<Atom<A>> {
    match store.insert(atom) {
        Err(StoreFault::NoMemory(atom)) => Some(atom),
        _ => None,
    }
}

/// The next label of a store after another, by a value where there is one.
fn next_after<'v, A: Allocator + Copy>(
    store: &'v Store<A>,
    value: Option<ValueRef<'v, A>>,
    last: u64,
) -> Option<u64> {
    let key = match value {
        Some(value) => Some((1, value)),
        None => None,
    };
    store.next_at(PRED, key, last, 41)
}

/// Inserts an atom, and again where that fails. Whether it fails; None where the store has some of it then.
fn insert_again<A: Allocator + Copy>(store: &mut Store<A>, atom: Atom<A>) -> Option<bool> {
    let Some(atom) = given_back(store, atom) else {
        return Some(false);
    };
    let last = store.next_label().saturating_sub(1);
    let has_some = next_after(store, None, last).is_some();
    let fails = given_back(store, atom).is_some();
    (!has_some && !fails).then_some(true)
}

/// Inserts 40 atoms, each again where that fails: without arguments, or 20 of each of two numbers.
fn insert_all<A: Allocator + Copy>(
    alloc: A,
    memory: &Refusing<Global>,
    n: u64,
    numbers: bool,
    store: &mut Store<A>,
) -> Option<bool> {
    let mut fails = false;
    memory.refuse(n);
    for number in 0..40u32 {
        let atom = if numbers {
            unary_of(alloc, i64::from(number % 2))
        } else {
            atom_of(alloc, number)
        };
        fails = insert_again(store, atom)? || fails;
    }
    if store.len() != 40 {
        return None;
    }
    memory.is_refused(fails)
}

pub fn insert<A: Allocator + Copy>(alloc: A, memory: &Refusing<Global>, n: u64) -> Option<bool> {
    let mut store = Store::new(alloc, 40);
    insert_all(alloc, memory, n, false, &mut store)
}

/// A store with an index.
fn indexed<A: Allocator + Copy>(alloc: A) -> Option<Store<A>> {
    Store::indexed(alloc, 40, &[(PRED, 1)]).ok()
}

pub fn open<A: Allocator + Copy>(alloc: A, memory: &Refusing<Global>, n: u64) -> Option<bool> {
    memory.refuse(n);
    let refused = memory.is_refused(indexed(alloc).is_none())?;
    indexed(alloc).is_some().then_some(refused)
}

/// How many of the labels up to 40 have a value.
fn count_of<'v, A: Allocator + Copy>(store: &'v Store<A>, value: ValueRef<'v, A>) -> usize {
    let mut labels: usize = 0;
    let mut last = 0;
    for _ in 0..40u8 {
        if let Some(label) = next_after(store, Some(value), last) {
            labels = labels.saturating_add(1);
            last = label;
        }
    }
    labels
}

/// Inserts the numbers into a store with an index, which then has them at their keys.
pub fn insert_indexed<A: Allocator + Copy>(
    alloc: A,
    memory: &Refusing<Global>,
    n: u64,
) -> Option<bool> {
    let mut store = indexed(alloc)?;
    let refused = insert_all(alloc, memory, n, true, &mut store)?;
    let counts = (
        count_of(&store, ValueRef::Int(0)),
        count_of(&store, ValueRef::Int(1)),
    );
    (counts == (20, 20)).then_some(refused)
}

/// Inserts copies of two atoms by turns, six of each, each again where that fails, and the store has none of it in between.
fn insert_copies<A: Allocator + Copy>(
    memory: &Refusing<Global>,
    n: u64,
    store: &mut Store<A>,
    atoms: &[Atom<A>],
) -> Option<bool> {
    let mut fails = false;
    memory.refuse(n);
    for number in 0..12usize {
        let atom = atoms.get(number % 2)?;
        if !inserts(store, atom) {
            fails = true;
            if store.len() != number || !inserts(store, atom) {
                return None;
            }
        }
    }
    memory.is_refused(fails)
}

/// The same into a store with an index, which then has them at their keys.
fn insert_indexed_copies<A: Allocator + Copy>(
    alloc: A,
    memory: &Refusing<Global>,
    n: u64,
    atoms: &[Atom<A>],
) -> Option<bool> {
    let mut store = indexed(alloc)?;
    let refused = insert_copies(memory, n, &mut store, atoms)?;
    let value = atoms.last()?.arg(0)?;
    (count_of(&store, value) == 6).then_some(refused)
}

/// Inserts atoms whose arguments are compound.
pub fn insert_compound<A: Allocator + Copy>(
    alloc: A,
    memory: &Refusing<Global>,
    n: u64,
) -> Option<bool> {
    let mut names = Names::new(alloc);
    let atoms = atoms_of(alloc, "p(f(1)), p(f(2)).", &mut names)?;
    insert_indexed_copies(alloc, memory, n, &atoms)
}

/// 30 atoms without arguments, and ten with compound ones.
const ATOMS: &str =
    "a, b, c, d, e, f, g, h, i, j, k, l, m, n, o, q, r, s, t, u, v, w, x, y, z, aa, ab, ac, ad, ae, p(f(0)), p(f(1)), p(f(2)), p(f(3)), p(f(4)), p(f(5)), p(f(6)), p(f(7)), p(f(8)), p(f(9)).";

/// How many atoms a copy of a store has. None where memory is refused.
fn copied<A: Allocator + Copy>(alloc: A, store: &Store<A>) -> Option<usize> {
    match store.copy(alloc) {
        Ok(copy) => Some(copy.len()),
        Err(_) => None,
    }
}

pub fn copy<A: Allocator + Copy>(alloc: A, memory: &Refusing<Global>, n: u64) -> Option<bool> {
    let mut names = Names::new(alloc);
    let mut store = Store::new(alloc, 40);
    if !inserts_text(alloc, ATOMS, &mut names, &mut store) {
        return None;
    }
    memory.refuse(n);
    let refused = memory.is_refused(copied(alloc, &store).is_none())?;
    (copied(alloc, &store) == Some(40)).then_some(refused)
}
