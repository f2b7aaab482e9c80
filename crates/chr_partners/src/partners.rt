//! A store, and lists of the labels that a search for partners tries.
ghost use Rattle.std.specs.Prelude.{◌≡◌, ◌≢◌, ◌↔◌, [], ℕ, Some, MatchOption, OnOk, OnErr};
ghost use Rattle.std.specs.Option.{option_copied};
ghost use Rattle.chr_value.specs.Atoms.{Atom as AnyAtom, said};
ghost use Rattle.chr_value.specs.Stores.{atom_at};
ghost use Rattle.chr_partners.specs.Partners.{IsIn, IsListed, no_atoms, with_atom, without_label, arg_at};

use crate::atoms::{Atoms, Constraints};
use crate::entering::{enter, is_kept, keep, leave, make_room};
use crate::hashing::{hash, value_word};
use crate::homes::Homes;
use crate::labels::Labels;
use chr_value::{Atom, Label, Name, ValueRef};
use std::alloc::{AllocError, Allocator};
use std::marker::Model;

/// Holds a store, and finds those of its listed labels whose atoms have a name, or a name and a value at a place. Contracts
/// see the store with its listed labels.
#[derive(Drop)]
pub struct Partners<A: Allocator> {
    atoms: Atoms<A>,
    /// All labels that are listed, and perhaps others.
    listed: Labels<A>,
    /// For which places of names there are lists.
    places: Vec<bool, A>,
    homes: Homes<A>,
    alloc: A,
}

impl<A: Allocator> Model for Partners<A> {
    ghost use Rattle.chr_value.specs.Code.{value_codes};
    ghost use Rattle.chr_partners.specs.Partners.{ListedStore};

    ghost Value = { ListedStore };

    ghost coded = { Prim.hlevel value_codes };

    ghost use Rattle.chr_partners.specs.Homes.{HasListed, IsComplete};

    ghost view = { λ p. p.atoms };

    ghost invariant = { λ p. HasListed p.atoms p.listed × IsComplete p.atoms p.places.items p.homes };
}

impl<A: Allocator + Copy> Partners<A> {
    /// Makes an empty store. Takes no memory.
    pub fn new(alloc: A) -> Partners<A>
        ensures { result ≡ no_atoms }
    {
        Partners {
            atoms: Atoms::new(alloc),
            listed: Labels::new(alloc),
            places: Vec::new(alloc),
            homes: Homes::none(alloc),
            alloc,
        }
    }

    /// Keeps lists for a place of a name's predicates, places being numbered from 1, while no label is listed yet. For a
    /// place without lists [`candidates_at`](Partners::candidates_at) gives the candidates of the name. An `Err` is E01.
    pub fn keep_place(&mut self, name: Name, place: u8) -> Result<(), AllocError>
        requires { self.old.listed ≡ [] }
        ensures { self.new ≡ self.old }
    {
        keep(&mut self.places, name, place)
    }

    /// Tells which label [`push`](Partners::push) gives next.
    pub fn next_label(&self) -> Label
        ensures { result ≡ self.now.next }
    {
        self.atoms.next_label()
    }

    /// Puts an atom under the next label, which isn't listed. An `Err` is E01, also where all labels have been given, and
    /// then nothing has changed.
    pub fn push(&mut self, atom: Atom<A>) -> Result<(), AllocError>
        ensures ok { OnOk result (self.new ≡ with_atom atom self.old) }
        ensures fresh { OnOk result (IsIn self.old.next self.old.listed → ⊥) }
        ensures unchanged { OnErr result (self.new ≡ self.old) }
    {
        self.atoms.push(atom)
    }

    /// Gives the atom of a label.
    #[inline(always)]
    pub fn get(&self, label: Label) -> Option<&Atom<A>>
        ensures { option_copied result ≡ atom_at self.now.store label }
    {
        self.atoms.get(label)
    }

    /// Gives the atom of a label, where that is listed.
    #[inline(always)]
    pub fn get_listed(&self, label: Label) -> Option<&Atom<A>>
        ensures { MatchOption result ((atom : AnyAtom ℕ) → IsListed self.now label atom → ⊥) (λ atom. IsListed self.now label atom.now) }
    {
        self.atoms.get_listed(label)
    }

    /// Goes through the constraints with their labels, which rise.
    pub fn iter(&self) -> Constraints<'_, A>
        ensures { result ≡ self.now.store }
    {
        self.atoms.iter()
    }

    /// Makes a label listed, where it has an atom. An `Err` is E01, and then nothing has changed.
    pub fn list(&mut self, label: Label) -> Result<(), AllocError>
        ensures store { self.new.store ≡ self.old.store }
        ensures next { self.new.next ≡ self.old.next }
        ensures listed { OnOk result ((atom : AnyAtom ℕ) → atom_at self.old.store label ≡ Some atom → IsIn label self.new.listed) }
        ensures others { (l : ℕ) → l ≢ label → IsIn l self.new.listed ↔ IsIn l self.old.listed }
        ensures unchanged { OnErr result (self.new ≡ self.old) }
    {
        make_room(
            self.alloc,
            &mut self.homes,
            &self.atoms,
            self.listed.as_slice(),
            &self.places,
        )?;
        let Some(held) = self.atoms.held(label) else {
            return Ok(());
        };
        if held.listed {
            return Ok(());
        }
        self.listed.put(held.label)?;
        enter(&mut self.homes, &self.places, held.label, &held.atom)?;
        self.atoms.set_listed(label);
        Ok(())
    }

    /// Takes the atom of a label out. Takes no memory.
    pub fn remove(&mut self, label: Label)
        ensures { self.new ≡ without_label label self.old }
    {
        let Some(held) = self.atoms.remove(label) else {
            return;
        };
        if held.listed {
            let _ = self.listed.count_left(&self.atoms);
            leave(&mut self.homes, &self.places, &self.atoms, &held.atom);
        }
    }

    /// Gives the labels to try for a name: all listed ones whose atoms have it, and perhaps others, as some that have left.
    /// A label may be there twice.
    #[inline(always)]
    pub fn candidates(&self, name: Name) -> &[u32]
        ensures { (l : ℕ) (atom : AnyAtom ℕ) → IsListed self.now l atom → atom.name ≡ name.number → IsIn l result.now }
    {
        self.homes.labels_at(hash(name, 0, 0))
    }

    /// Gives the same for a name and a value at a place, places being numbered from 1.
    #[inline(always)]
    pub fn candidates_at(&self, name: Name, place: u8, value: &ValueRef<'_, A>) -> &[u32]
        ensures { (l : ℕ) (atom : AnyAtom ℕ) → IsListed self.now l atom → atom.name ≡ name.number → arg_at atom place ≡ Some (said value.now) → IsIn l result.now }
    {
        if !is_kept(&self.places, name, place) {
            return self.candidates(name);
        }
        self.homes.labels_at(hash(name, place, value_word(value)))
    }
}
