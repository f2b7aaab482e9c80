//! Atoms under labels, which are given in order.
ghost use Rattle.std.specs.Prelude.{◌≡◌, ◌≢◌, ◌↔◌, ◌≤◌, ◌<◌, [], ℕ, Some, None, length, IfOk, OnOk, OnErr, IsTrue, is_some, MatchOption};
ghost use Rattle.std.specs.Option.{option_copied, option_map};
ghost use Rattle.std.specs.Iterator.{item_count};
ghost use Rattle.std.specs.Map.Iter.{TakesFirst};
ghost use Rattle.slab.specs.Slab.{get};
ghost use Rattle.chr_value.specs.Atoms.{Atom as AnyAtom};
ghost use Rattle.chr_value.specs.Bounds.{greatest_label};
ghost use Rattle.chr_value.specs.Stores.{atom_at};
ghost use Rattle.chr_partners.specs.Partners.{IsIn, IsListed, no_atoms, with_atom, without_label, shown};
ghost use Rattle.chr_partners.specs.Atoms.{owned, held_at, IsSlotOf, IsHeld};

use chr_value::{Atom, Label};
use slab::Slab;
use std::alloc::{AllocError, Allocator};
use std::marker::Model;

/// Holds an atom with its label, and tells whether that is listed.
#[derive(Drop)]
pub struct Held<A: Allocator> {
    pub label: u32,
    pub listed: bool,
    pub atom: Atom<A>,
}

/// Holds atoms under labels, which are given from 1 on, each once. A label takes 4 bytes, and its atom a slot, which is
/// given again once the atom has been taken out. Contracts see a store with its listed labels.
#[derive(Drop)]
pub struct Atoms<A: Allocator> {
    held: Slab<Held<A>, A>,
    /// The slot of each label that was given, from 1 on. Where the label's atom has been taken out, another label may have
    /// that slot now.
    slots: Vec<u32, A>,
}

impl<A: Allocator> Model for Atoms<A> {
    ghost use Rattle.std.specs.Prelude.{◌≤◌, length};
    ghost use Rattle.chr_value.specs.Bounds.{greatest_label};
    ghost use Rattle.chr_value.specs.Code.{value_codes};
    ghost use Rattle.chr_partners.specs.Partners.{ListedStore};

    ghost Value = { ListedStore };

    ghost coded = { Prim.hlevel value_codes };

    ghost use Rattle.chr_partners.specs.Atoms.{seen_in};

    ghost view = { λ a. seen_in a.held a.slots.items };

    ghost invariant = { λ a. length a.slots.items ≤ greatest_label };
}

/// Finds what a slot has, where that is a label's.
#[inline(always)]
fn owned<'s, A: Allocator>(
    held: &'s Slab<Held<A>, A>,
    slot: u32,
    label: Label,
) -> Option<&'s Held<A>>
    ensures { option_copied result ≡ owned label (get held.now slot) }
{
    let Some(found) = held.get(slot as usize) else {
        return None;
    };
    if u64::from(found.label) == label {
        Some(found)
    } else {
        None
    }
}

/// Finds what a label has.
#[inline(always)]
fn find<'s, A: Allocator>(
    held: &'s Slab<Held<A>, A>,
    slots: &[u32],
    label: Label,
) -> Option<&'s Held<A>>
    ensures { option_copied result ≡ held_at held.now slots.now label }
{
    let index = (label as usize).checked_sub(1)?;
    let slot = slots.get(index)?;
    owned(held, *slot, label)
}

/// Finds the slot of a label that has an atom.
fn slot_of<A: Allocator>(held: &Slab<Held<A>, A>, slots: &[u32], label: Label) -> Option<usize>
    ensures { MatchOption result (held_at held.now slots.now label ≡ None) (IsSlotOf held.now slots.now label) }
{
    let index = (label as usize).checked_sub(1)?;
    let slot = slots.get(index)?;
    let _ = owned(held, *slot, label)?;
    Some(*slot as usize)
}

impl<A: Allocator + Copy> Atoms<A> {
    /// Makes an empty store. Takes no memory.
    pub fn new(alloc: A) -> Atoms<A>
        ensures { result ≡ no_atoms }
    {
        Atoms {
            held: Slab::new(alloc),
            slots: Vec::new(alloc),
        }
    }

    /// Tells which label [`push`](Atoms::push) gives next.
    pub fn next_label(&self) -> Label
        ensures { result ≡ self.now.next }
    {
        self.slots.len() as u64 + 1
    }

    /// Puts an atom under the next label, which isn't listed. An `Err` is E01, also where all labels have been given, and
    /// then nothing has changed.
    pub fn push(&mut self, atom: Atom<A>) -> Result<(), AllocError>
        ensures ok { OnOk result (self.new ≡ with_atom atom self.old) }
        ensures fresh { OnOk result (IsIn self.old.next self.old.listed → ⊥) }
        ensures unchanged { OnErr result (self.new ≡ self.old) }
    {
        let Ok(label) = u32::try_from(self.slots.len() + 1) else {
            return Err(AllocError);
        };
        let Ok(slot) = u32::try_from(self.held.vacant_key()) else {
            return Err(AllocError);
        };
        self.slots.reserve(1)?;
        let held = Held {
            label,
            listed: false,
            atom,
        };
        let Ok(_) = self.held.insert(held) else {
            return Err(AllocError);
        };
        self.slots.push_reserved(slot);
        Ok(())
    }

    /// Gives the atom of a label.
    #[inline(always)]
    pub fn get(&self, label: Label) -> Option<&Atom<A>>
        ensures { option_copied result ≡ atom_at self.now.store label }
    {
        let held = find(&self.held, &self.slots, label)?;
        Some(&held.atom)
    }

    /// Tells whether a label has an atom.
    pub fn has(&self, label: Label) -> bool
        ensures { result ≡ is_some (atom_at self.now.store label) }
    {
        self.get(label).is_some()
    }

    /// Gives what a label has.
    #[inline(always)]
    pub fn held(&self, label: Label) -> Option<&Held<A>>
        ensures { MatchOption result (atom_at self.now.store label ≡ None) (λ held. IsHeld self.now label held.now) }
    {
        find(&self.held, &self.slots, label)
    }

    /// Gives the atom of a label, where that is listed.
    #[inline(always)]
    pub fn get_listed(&self, label: Label) -> Option<&Atom<A>>
        ensures { MatchOption result ((atom : AnyAtom ℕ) → IsListed self.now label atom → ⊥) (λ atom. IsListed self.now label atom.now) }
    {
        let held = self.held(label)?;
        if held.listed { Some(&held.atom) } else { None }
    }

    /// Makes a label listed, where it has an atom.
    pub fn set_listed(&mut self, label: Label)
        ensures store { self.new.store ≡ self.old.store }
        ensures next { self.new.next ≡ self.old.next }
        ensures listed { (atom : AnyAtom ℕ) → atom_at self.old.store label ≡ Some atom → IsIn label self.new.listed }
        ensures others { (l : ℕ) → l ≢ label → IsIn l self.new.listed ↔ IsIn l self.old.listed }
    {
        let Some(slot) = slot_of(&self.held, &self.slots, label) else {
            return;
        };
        self.held[slot].listed = true;
    }

    /// Takes the atom of a label out, and tells whether it was listed. Takes no memory.
    pub fn remove(&mut self, label: Label) -> Option<Held<A>>
        ensures atom { option_map (λ held. held.atom) result ≡ atom_at self.old.store label }
        ensures rest { self.new ≡ without_label label self.old }
    {
        let slot = slot_of(&self.held, &self.slots, label)?;
        Some(self.held.remove(slot))
    }

    /// Goes through the constraints with their labels, which rise.
    pub fn iter(&self) -> Constraints<'_, A>
        ensures { result ≡ self.now.store }
    {
        Constraints {
            held: &self.held,
            slots: &self.slots,
            label: 1,
        }
    }
}

/// Goes through the constraints of a store with their labels, which rise. Contracts see the list of those that are left.
#[derive(Drop)]
pub struct Constraints<'s, A: Allocator> {
    held: &'s Slab<Held<A>, A>,
    /// The slots of the labels that are left.
    slots: &'s [u32],
    label: Label,
}

impl<'s, A: Allocator> Model for Constraints<'s, A> {
    ghost use Rattle.std.specs.Prelude.{◌+◌, ◌≤◌, length};
    ghost use Rattle.chr_value.specs.Stores.{Store};
    ghost use Rattle.chr_value.specs.Code.{value_codes};
    ghost use Rattle.chr_partners.specs.Atoms.{atoms_from, held_from};

    ghost Value = { Store };

    ghost coded = { Prim.hlevel value_codes };

    ghost view = { λ c. atoms_from c.label (held_from c.held.now c.label c.slots.now) };

    ghost invariant = { λ c. c.label + length c.slots.now ≤ 4294967296 };
}

impl<'s, A: Allocator> Iterator for Constraints<'s, A> {
    type Item = (Label, &'s Atom<A>);

    ghost next_gives = { TakesFirst shown };

    ghost remaining = { item_count (λ left. left) };

    fn next(&mut self) -> Option<(Label, &'s Atom<A>)> {
        while let Some((slot, others)) = self.slots.split_first() {
            let label = self.label;
            self.slots = others;
            self.label = label + 1;
            if let Some(found) = owned(self.held, *slot, label) {
                return Some((label, &found.atom));
            }
        }
        None
    }
}
