//! The lines of a store.
ghost use Rattle.std.specs.Prelude.{◌≡◌, ℕ, List, IfOk};
ghost use Rattle.chr_value.specs.Stores.{Store as PlainStore};
ghost use Rattle.chr_shared.specs.Lines.{AreStoreLines, GivesStore};

use crate::lines::{Lines, Read};
use chr_log::write_store;
use chr_store::{Label, Store};
use chr_value::{Atom, Names};
use std::alloc::{AllocError, Allocator};

/// Names, and constraints with their labels, in memory of their own.
#[derive(Drop)]
pub struct StoreCopy<A: Allocator> {
    pub(crate) names: Names<A>,
    pub(crate) constraints: Vec<(Label, Atom<A>), A>,
}

/// What the lines of a store are made of.
pub type StoreRead<A> = Read<StoreCopy<A>, A>;

/// A copy of the constraints with their labels, which rise. An `Err` is E01.
fn copy_constraints<A: Allocator + Copy>(
    alloc: A,
    store: &Store<A>,
) -> Result<Vec<(Label, Atom<A>), A>, AllocError>
    ensures { IfOk result (λ constraints. constraints.items ≡ store.now.entries) }
{
    let count = store.len();
    let mut constraints = Vec::with_capacity(alloc, count)?;
    let mut left = store.iter();
    // Behind the last constraint are only labels whose atoms have gone, perhaps many.
    while constraints.len() < count {
        let Some((label, atom)) = left.next() else {
            unreachable!();
        };
        constraints.push((label, atom.copy(alloc)?))?;
    }
    Ok(constraints)
}

/// The lines of constraints. An `Err` is E01.
fn lines_of<A: Allocator + Copy>(
    alloc: A,
    names: &Names<A>,
    constraints: &[(Label, Atom<A>)],
) -> Result<Lines<A>, AllocError>
    ensures { IfOk result (λ lines. AreStoreLines names.now constraints.now lines) }
{
    let mut bytes = Vec::new(alloc);
    write_store(&mut bytes, names, constraints)?;
    Ok(Lines {
        count: constraints.len(),
        bytes,
    })
}

/// Reads what the lines of a store are made of: the lines where there are fewer constraints than names, else a copy of both.
/// An `Err` is E01.
pub fn read_store<A: Allocator + Copy>(
    alloc: A,
    names: &Names<A>,
    store: &Store<A>,
) -> Result<StoreRead<A>, AllocError>
    ensures { IfOk result (λ read. GivesStore names.now store.now.entries read) }
{
    let constraints = copy_constraints(alloc, store)?;
    if constraints.len() < names.len() {
        return Ok(Read::Lines(lines_of(alloc, names, &constraints)?));
    }
    Ok(Read::Copy(StoreCopy {
        names: names.copy(alloc)?,
        constraints,
    }))
}

impl<A: Allocator + Copy> StoreRead<A> {
    /// The lines of the store that was read. An `Err` is E01.
    pub fn into_lines(self, alloc: A) -> Result<Lines<A>, AllocError>
        ensures { (table : List (List ℕ)) (store : PlainStore) → GivesStore table store self → IfOk result (λ lines. AreStoreLines table store lines) }
    {
        match self {
            Read::Lines(lines) => Ok(lines),
            Read::Copy(copy) => lines_of(alloc, &copy.names, &copy.constraints),
        }
    }
}
