//! Constraints under labels.
ghost use Rattle.std.specs.Prelude.{◌≡◌, ℕ, ◌+◌, ◌<◌, ◌≤◌, ◌++◌, ◌∷◌, ◌↔◌, [], length, Option, Some, None, Err, IfOk, OnOk, IfErr, OnErr, IfSome, IsSome, IsTrue};
ghost use Rattle.std.specs.Option.{option_copied};
ghost use Rattle.std.specs.Iterator.{AlwaysYields};
ghost use Rattle.std.specs.Map.Iter.{TakesFirst};
ghost use Rattle.chr_value.specs.Atoms.{Atom, said};
ghost use Rattle.chr_value.specs.Bounds.{greatest_label};
ghost use Rattle.chr_value.specs.Stores.{atom_at, drop_label};
ghost use Rattle.chr_store.specs.Labels.{IsLabelled, spent};
ghost use Rattle.chr_index.specs.Buckets.{IsLeastBetween};
ghost use Rattle.chr_store.specs.Keys.{arg_at, key_of, IsLeastMatch};
ghost use Rattle.chr_store.specs.Faults.{given_back};
ghost use Rattle.chr_store.specs.Indexed.{LabelHas, IsLeastWith};
ghost use Rattle.chr_store.specs.Table.{shown};
ghost use Rattle.chr_store.specs.declared.store.StoreFault.TheVariants.{LabelsSpent};
ghost use Rattle.chr_store.specs.declared.store.CopyFault.TheVariants as copying;

use crate::atoms::{Atoms, Constraints};
use crate::buckets::{Buckets, enter, leave};
use crate::chosen::Chosen;
use crate::keys::{is_constant, value_key};
use chr_index::Matches;
pub use chr_value::Label;
use chr_value::{Atom, GREATEST_LABEL, Pred, ValueRef};
use std::alloc::{AllocError, Allocator};
use std::marker::Model;

/// The greatest limit that a store may have for its labels.
pub const GREATEST_LIMIT: u64 = GREATEST_LABEL;

/// Why an atom was not entered. The atom comes back.
#[derive(Drop)]
pub enum StoreFault<A: Allocator> {
    /// E01: the store could not grow.
    NoMemory(Atom<A>),
    /// E10: the next label is above the limit.
    LabelsSpent(Atom<A>),
}

/// Why no copy of an atom was entered.
#[derive(Clone, Copy, Debug, PartialEq, Eq)]
pub enum CopyFault {
    /// E01: the store could not grow.
    NoMemory,
    /// E10: the next label is above the limit.
    LabelsSpent,
}

/// A map from labels to atoms. Contracts see the list of labels and atoms, rising, with the next label and the limit.
pub struct Store<A: Allocator> {
    atoms: Atoms<A>,
    buckets: Buckets<A>,
    alloc: A,
    limit: u64,
}

// Not derived: letting a store go is then one call, which is proved here once.
impl<A: Allocator> Drop for Store<A> {
    fn drop(self) {
        let Store {
            atoms: _,
            buckets: _,
            alloc: _,
            limit: _,
        } = self;
    }
}

impl<A: Allocator> Model for Store<A> {
    ghost use Rattle.chr_value.specs.Code.{value_codes};
    ghost use Rattle.chr_store.specs.Labels.{LabelledStore};
    ghost use Rattle.chr_store.specs.Indexed.{IsIndexed};

    ghost Value = { LabelledStore };

    ghost coded = { Prim.hlevel value_codes };

    ghost view = { λ s. record { entries = s.atoms.entries; next = s.atoms.next; limit = s.limit } };

    ghost invariant = { λ s. IsIndexed (record { entries = s.atoms.entries; next = s.atoms.next; limit = s.limit }) s.buckets.places s.buckets };
}

/// Whether an atom has a value at a place. Places are numbered from 1.
fn has_at<A: Allocator + Copy>(atom: &Atom<A>, place: u8, value: &ValueRef<'_, A>) -> bool
    ensures { IsTrue result ↔ (arg_at atom.now place ≡ Some (said value.now)) }
{
    if place == 0 {
        return false;
    }
    match atom.arg(place as usize - 1) {
        None => false,
        Some(found) => found.same(value),
    }
}

/// Whether the atom under a label has a value at a place.
fn label_has<A: Allocator + Copy>(
    atoms: &Atoms<A>,
    label: Label,
    place: u8,
    value: &ValueRef<'_, A>,
) -> bool
    ensures { IsTrue result ↔ LabelHas atoms.now.entries label place (said value.now) }
{
    match atoms.get(label) {
        None => false,
        Some(atom) => has_at(atom, place, value),
    }
}

/// The least of some labels over `after` and under `below` whose atom has a value at a place.
fn next_with<A: Allocator + Copy>(
    mut labels: Matches<'_>,
    atoms: &Atoms<A>,
    place: u8,
    value: &ValueRef<'_, A>,
    after: Label,
    below: Label,
) -> Option<Label>
    ensures { IsLeastWith atoms.now.entries place (said value.now) labels.entry after below result }
{
    let mut from = after;
    while let Some(label) = labels.next_at(from, below) {
        if label_has(atoms, label, place, value) {
            return Some(label);
        }
        from = label;
    }
    None
}

impl<A: Allocator + Copy> Store<A> {
    /// A store of no constraints, whose labels go from 1 to the limit.
    pub fn new(alloc: A, limit: u64) -> Store<A>
        requires { limit ≤ greatest_label }
        ensures { result ≡ record { entries = []; next = 1; limit = limit } }
    {
        Store {
            atoms: Atoms::new(alloc),
            buckets: Buckets::new(alloc, Chosen::new(alloc)),
            alloc,
            limit,
        }
    }

    /// A store of no constraints as [`new`](Store::new) makes it, which keeps an index for each of these places, so that
    /// [`next_at`](Store::next_at) with a key there needn't go through the labels of the predicate. Places are numbered
    /// from 1. E01 where memory ran out.
    pub fn indexed(alloc: A, limit: u64, places: &[(Pred, u8)]) -> Result<Store<A>, AllocError>
        requires { limit ≤ greatest_label }
        ensures { IfOk result (λ made. made ≡ record { entries = []; next = 1; limit = limit }) }
    {
        Ok(Store {
            atoms: Atoms::new(alloc),
            buckets: Buckets::new(alloc, Chosen::of(alloc, places)?),
            alloc,
            limit,
        })
    }

    /// How many constraints there are.
    pub fn len(&self) -> usize
        ensures count { result ≡ length self.now.entries }
        ensures labelled { IsLabelled self.now }
    {
        self.atoms.len()
    }

    /// The label that [`insert`](Store::insert) gives next. It is above the limit once all are spent.
    pub fn next_label(&self) -> Label
        ensures value { result ≡ self.now.next }
        ensures labelled { IsLabelled self.now }
    {
        self.atoms.next_label()
    }

    /// Enters an atom under the next label. Where the labels are spent (E10) or the store could not grow (E01), the
    /// atom comes back and the store is unchanged.
    pub fn insert(&mut self, atom: Atom<A>) -> Result<Label, StoreFault<A>>
        ensures label { IfOk result (λ label. label ≡ self.old.next) }
        ensures ok { OnOk result (self.new ≡ record { entries = self.old.entries ++ (self.old.next, atom) ∷ []; next = self.old.next + 1; limit = self.old.limit }) }
        ensures spent { (self.old.limit < self.old.next) ↔ (result ≡ Err (LabelsSpent atom)) }
        ensures back { IfErr result (λ fault. given_back fault ≡ atom) }
        ensures unchanged { OnErr result (self.new ≡ self.old) }
    {
        match self.insert_copy(&atom) {
            Ok(label) => Ok(label),
            Err(CopyFault::NoMemory) => Err(StoreFault::NoMemory(atom)),
            Err(CopyFault::LabelsSpent) => Err(StoreFault::LabelsSpent(atom)),
        }
    }

    /// Enters a copy of an atom under the next label. Where the labels are spent (E10) or the store could not grow
    /// (E01), it is unchanged.
    pub fn insert_copy(&mut self, atom: &Atom<A>) -> Result<Label, CopyFault>
        ensures label { IfOk result (λ label. label ≡ self.old.next) }
        ensures ok { OnOk result (self.new ≡ record { entries = self.old.entries ++ (self.old.next, atom.now) ∷ []; next = self.old.next + 1; limit = self.old.limit }) }
        ensures spent { (self.old.limit < self.old.next) ↔ (result ≡ Err copying.LabelsSpent) }
        ensures unchanged { OnErr result (self.new ≡ self.old) }
    {
        let label = self.atoms.next_label();
        if label > self.limit {
            return Err(CopyFault::LabelsSpent);
        }
        let Ok(()) = enter(&mut self.buckets, self.alloc, atom, label) else {
            leave(&mut self.buckets, atom, label);
            return Err(CopyFault::NoMemory);
        };
        let Ok(()) = self.atoms.push_copy(atom) else {
            leave(&mut self.buckets, atom, label);
            return Err(CopyFault::NoMemory);
        };
        Ok(label)
    }

    /// Spends the next label, as entering an atom under it and taking that out does. Where the labels are spent (E10) or the
    /// store could not grow (E01), it is unchanged.
    pub fn spend_label(&mut self) -> Result<Label, CopyFault>
        ensures label { IfOk result (λ label. label ≡ self.old.next) }
        ensures ok { OnOk result (self.new ≡ spent self.old) }
        ensures spent { (self.old.limit < self.old.next) ↔ (result ≡ Err copying.LabelsSpent) }
        ensures unchanged { OnErr result (self.new ≡ self.old) }
    {
        let label = self.atoms.next_label();
        if self.limit < label {
            return Err(CopyFault::LabelsSpent);
        }
        let Ok(()) = self.atoms.skip() else {
            return Err(CopyFault::NoMemory);
        };
        Ok(label)
    }

    /// The atom under a label.
    #[inline(always)]
    pub fn get(&self, label: Label) -> Option<&Atom<A>>
        ensures { option_copied result ≡ atom_at self.now.entries label }
    {
        self.atoms.get(label)
    }

    /// The atom under a label that is live.
    #[inline(always)]
    pub(crate) fn atom_of(&self, label: Label) -> &Atom<A>
        requires { (atom : Atom ℕ) × (atom_at self.now.entries label ≡ Some atom) }
        ensures { atom_at self.now.entries label ≡ Some result.now }
    {
        self.atoms.atom_of(label)
    }

    /// Takes a constraint out of the store.
    pub fn remove(&mut self, label: Label) -> Option<Atom<A>>
        ensures value { result ≡ atom_at self.old.entries label }
        ensures rest { self.new ≡ record { entries = drop_label label self.old.entries; next = self.old.next; limit = self.old.limit } }
    {
        let Some(atom) = self.atoms.get(label) else {
            return None;
        };
        leave(&mut self.buckets, atom, label);
        self.atoms.remove(label)
    }

    /// The least label over `after` and under `below` whose atom has the predicate and, where `key` is a place and a
    /// value, that value at that place. Places are numbered from 1.
    pub fn next_at(
        &self,
        pred: Pred,
        key: Option<(u8, ValueRef<'_, A>)>,
        after: Label,
        below: Label,
    ) -> Option<Label>
        ensures least { IsLeastMatch self.now.entries (record { pred = pred; key = key_of key.entry; after = after; below = below }) result }
        ensures labelled { IsLabelled self.now }
    {
        let Some((place, value)) = key else {
            return self.buckets.of_pred(pred).next_at(after, below);
        };
        let Some(mut labels) = self.buckets.at_place(&value_key(pred, place, &value)) else {
            return next_with(
                self.buckets.of_pred(pred),
                &self.atoms,
                place,
                &value,
                after,
                below,
            );
        };
        if is_constant(&value) {
            return labels.next_at(after, below);
        }
        next_with(labels, &self.atoms, place, &value, after, below)
    }

    /// The labels whose atoms have the predicate and, where `key` is a place and a value, that value at that place: many
    /// calls of [`Matches::next_at`] take one look-up. None only where `key` has a place that has no index, or a compound
    /// value.
    #[inline(always)]
    pub fn matches(&self, pred: Pred, key: Option<(u8, ValueRef<'_, A>)>) -> Option<Matches<'_>>
        ensures least { IfSome result (λ labels. (after below : ℕ) (found : Option ℕ) → IsLeastBetween labels after below found → IsLeastMatch self.now.entries (record { pred = pred; key = key_of key.entry; after = after; below = below }) found) }
        ensures own { key.entry ≡ None → IsSome result }
    {
        let Some((place, value)) = key else {
            return Some(self.buckets.of_pred(pred));
        };
        if !is_constant(&value) {
            return None;
        }
        self.buckets.at_place(&value_key(pred, place, &value))
    }

    /// The constraints with their labels, which rise.
    pub fn iter(&self) -> Constraints<'_, A>
        ensures rest { result ≡ self.now.entries }
        ensures fits { length result ≤ greatest_label }
        ensures shows { AlwaysYields (TakesFirst shown) shown result self.now.entries }
        ensures labelled { IsLabelled self.now }
    {
        self.atoms.iter()
    }

    /// A copy of the store.
    pub fn copy(&self, alloc: A) -> Result<Store<A>, AllocError>
        ensures { IfOk result (λ made. made ≡ self.now) }
    {
        let mut buckets = Buckets::new(alloc, self.buckets.places.copy(alloc)?);
        for (label, atom) in self.atoms.iter() {
            enter(&mut buckets, alloc, atom, label)?;
        }
        Ok(Store {
            atoms: self.atoms.copy(alloc)?,
            buckets,
            alloc,
            limit: self.limit,
        })
    }
}
