//! Labels at the homes of their keys.
ghost use Rattle.std.specs.Prelude.{◌≡◌, ◌≤◌, ◌<◌, length, IfOk, OnOk};
ghost use Rattle.chr_partners.specs.Homes.{is_kept, HasAll, HasLive, IsEntered, HasListed, IsComplete};

use crate::atoms::Atoms;
use crate::hashing::atom_hash;
use crate::homes::Homes;
use chr_value::{Atom, MOST_ARGS, Name};
use std::alloc::{AllocError, Allocator};

/// How many places a name has: that of the name alone, and those of arguments.
const PLACES: usize = MOST_ARGS + 1;

/// Tells whether there are lists for a place of a name's predicates. For the place 0, which is the name alone, there always
/// are.
#[inline(always)]
pub fn is_kept(places: &[bool], name: Name, place: u8) -> bool
    ensures { result ≡ is_kept places.now name.number place }
{
    if place == 0 {
        return true;
    }
    match places.get(name.number as usize * PLACES + usize::from(place)) {
        None => false,
        Some(kept) => *kept,
    }
}

/// Notes that there are lists for a place. An `Err` is E01.
pub fn keep<A: Allocator>(
    places: &mut Vec<bool, A>,
    name: Name,
    place: u8,
) -> Result<(), AllocError> {
    let index = name.number as usize * PLACES + usize::from(place);
    if places.len() <= index {
        places.resize(index + 1, false)?;
    }
    places[index] = true;
    Ok(())
}

/// Puts a label at the homes of its atom's keys. An `Err` is E01, and the label may be at some of them.
pub fn enter<A: Allocator + Copy>(
    homes: &mut Homes<A>,
    places: &[bool],
    label: u32,
    atom: &Atom<A>,
) -> Result<(), AllocError>
    requires { 0 < length homes.old }
    ensures entered { OnOk result (IsEntered places.now homes.new label atom.now) }
    ensures all { HasAll homes.old homes.new }
    ensures count { length homes.new ≡ length homes.old }
{
    for place in 0..atom.arity() + 1 {
        let place = place as u8;
        if is_kept(places, atom.name(), place) {
            homes.put(atom_hash(atom, place), label)?;
        }
    }
    Ok(())
}

/// Counts a label that has left at the homes of its atom's keys.
pub fn leave<A: Allocator + Copy>(
    homes: &mut Homes<A>,
    places: &[bool],
    atoms: &Atoms<A>,
    atom: &Atom<A>,
)
    ensures { HasLive atoms.now.store homes.old homes.new }
{
    for place in 0..atom.arity() + 1 {
        let place = place as u8;
        if is_kept(places, atom.name(), place) {
            homes.count_left(atom_hash(atom, place), atoms);
        }
    }
}

/// Makes so many homes, with the listed ones of these labels at those of their keys. An `Err` is E01.
fn made_anew<A: Allocator + Copy>(
    alloc: A,
    atoms: &Atoms<A>,
    labels: &[u32],
    places: &[bool],
    count: usize,
) -> Result<Homes<A>, AllocError>
    requires some { 0 < count }
    requires all { HasListed atoms.now labels.now }
    ensures complete { IfOk result (λ homes. IsComplete atoms.now places.now homes) }
    ensures some { IfOk result (λ homes. 0 < length homes) }
{
    let mut homes = Homes::with_count(alloc, count)?;
    for label in labels {
        if let Some(held) = atoms.held(u64::from(*label)) {
            if held.listed {
                enter(&mut homes, places, held.label, &held.atom)?;
            }
        }
    }
    Ok(homes)
}

/// Makes twice as many homes, where there are as many labels in them. All listed labels are among these. An `Err` is E01,
/// and nothing has changed.
pub fn make_room<A: Allocator + Copy>(
    alloc: A,
    homes: &mut Homes<A>,
    atoms: &Atoms<A>,
    labels: &[u32],
    places: &[bool],
) -> Result<(), AllocError>
    requires all { HasListed atoms.now labels.now }
    requires complete { IsComplete atoms.now places.now homes.old }
    ensures complete { IsComplete atoms.now places.now homes.new }
    ensures some { OnOk result (0 < length homes.new) }
{
    if homes.are_full() {
        let count = homes.count().saturating_mul(2).saturating_add(1);
        *homes = made_anew(alloc, atoms, labels, places, count)?;
    }
    Ok(())
}
