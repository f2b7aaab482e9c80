//! Programs, atoms and stores of texts. A call whose contract says much is made here alone: what its clauses say is then no
//! fact in the proofs of the tests, which need none of it.
use chr_rule::Program;
use chr_store::Store;
use chr_text::{read_atoms, read_program};
use chr_value::{Atom, Names};
use std::alloc::Allocator;

/// The program of a text. None where it isn't read, or where memory ran out.
pub fn program_of<A: Allocator + Copy>(
    alloc: A,
    text: &str,
    names: &mut Names<A>,
) -> Option<Program<A>> {
    read_program(alloc, text.as_bytes(), names).ok()
}

/// The atoms of a text. None where it isn't read, or where memory ran out.
pub fn atoms_of<A: Allocator + Copy>(
    alloc: A,
    text: &str,
    names: &mut Names<A>,
) -> Option<Vec<Atom<A>, A>> {
    read_atoms(alloc, text.as_bytes(), names).ok()
}

/// Inserts a copy of an atom. Whether there was a label and memory for it.
pub fn inserts<A: Allocator + Copy>(store: &mut Store<A>, atom: &Atom<A>) -> bool {
    store.insert_copy(atom).is_ok()
}

/// Inserts copies of atoms. Whether there were labels and memory for them.
fn inserts_all<A: Allocator + Copy>(store: &mut Store<A>, atoms: &[Atom<A>]) -> bool {
    for atom in atoms {
        if !inserts(store, atom) {
            return false;
        }
    }
    true
}

/// Inserts the atoms of a text. Whether it is read, and there were labels and memory for them.
pub fn inserts_text<A: Allocator + Copy>(
    alloc: A,
    text: &str,
    names: &mut Names<A>,
    store: &mut Store<A>,
) -> bool {
    match atoms_of(alloc, text, names) {
        Some(atoms) => inserts_all(store, &atoms),
        None => false,
    }
}
