//! A store as the searches for partners of a label see it.
ghost use Rattle.std.specs.Prelude.{◌≡◌, ◌≢◌, ℕ, ◌≤◌, Option, Some, None, IfSome, IsSome};
ghost use Rattle.std.specs.Option.{option_copied};
ghost use Rattle.chr_value.specs.Atoms.{Atom};
ghost use Rattle.chr_value.specs.Stores.{atom_at};
ghost use Rattle.chr_index.specs.Buckets.{IsLeastBetween};
ghost use Rattle.chr_store.specs.Keys.{key_of, IsLeastMatch};
ghost use Rattle.chr_store.specs.Labels.{IsLabelled, entered};

use crate::store::Store;
use chr_index::Matches;
use chr_value::{Atom, Label, Pred, ValueRef};
use std::alloc::Allocator;
use std::marker::Model;

/// A store in which older labels than an active one are looked for. It may show an atom under its next label, which is then
/// the active one, before that is entered. Contracts see the store with that atom, and the active label.
#[derive(Drop)]
pub struct View<'s, A: Allocator> {
    store: &'s Store<A>,
    active: Label,
    fresh: Option<&'s Atom<A>>,
}

impl<'s, A: Allocator> Model for View<'s, A> {
    ghost use Rattle.std.specs.Option.{option_copied};
    ghost use Rattle.chr_value.specs.Code.{value_codes};
    ghost use Rattle.chr_store.specs.Views.{Seen, seen_with, IsSeen};

    ghost Value = { Seen };

    ghost coded = { Prim.hlevel value_codes };

    ghost view = { λ v. record { store = seen_with v.store.now (option_copied v.fresh); active = v.active } };

    ghost invariant = { λ v. IsSeen v.store.now (option_copied v.fresh) v.active };
}

impl<'s, A: Allocator + Copy> View<'s, A> {
    /// A store as it is.
    #[inline(always)]
    pub fn of(store: &'s Store<A>, active: Label) -> View<'s, A>
        ensures { result ≡ record { store = store.now; active = active } }
    {
        // For the proof: the labels of a store are below its next one.
        let _next = store.next_label();
        View {
            store,
            active,
            fresh: None,
        }
    }

    /// A store as it is once an atom is entered, for that atom's label.
    #[inline(always)]
    pub fn with(store: &'s Store<A>, atom: &'s Atom<A>) -> View<'s, A>
        requires { store.now.next ≤ store.now.limit }
        ensures { result ≡ record { store = entered store.now atom.now; active = store.now.next } }
    {
        View {
            store,
            active: store.next_label(),
            fresh: Some(atom),
        }
    }

    /// A copy of the view. It takes no memory.
    #[inline(always)]
    pub fn copy(&self) -> View<'s, A>
        ensures { result ≡ self.now }
    {
        View {
            store: self.store,
            active: self.active,
            fresh: self.fresh,
        }
    }

    /// The active label.
    #[inline(always)]
    pub fn active(&self) -> Label
        ensures value { result ≡ self.now.active }
        ensures labelled { IsLabelled self.now.store }
    {
        self.active
    }

    /// The atom under a label.
    #[inline(always)]
    pub fn get(&self, label: Label) -> Option<&'s Atom<A>>
        ensures { option_copied result ≡ atom_at self.now.store.entries label }
    {
        match self.fresh {
            Some(atom) if label == self.active => Some(atom),
            _ => self.store.get(label),
        }
    }

    /// The atom under a label that is live, and isn't the active one.
    #[inline(always)]
    pub fn older(&self, label: Label) -> &'s Atom<A>
        requires older { label ≢ self.now.active }
        requires live { (atom : Atom ℕ) × (atom_at self.now.store.entries label ≡ Some atom) }
        ensures { atom_at self.now.store.entries label ≡ Some result.now }
    {
        self.store.atom_of(label)
    }

    /// The least label over `after` that is older than the active one and whose atom has the predicate and, where `key` is a
    /// place and a value, that value at that place. Places are numbered from 1.
    pub fn next_at(
        &self,
        pred: Pred,
        key: Option<(u8, ValueRef<'_, A>)>,
        after: Label,
    ) -> Option<Label>
        ensures least { IsLeastMatch self.now.store.entries (record { pred = pred; key = key_of key.entry; after = after; below = self.now.active }) result }
        ensures labelled { IsLabelled self.now.store }
    {
        self.store.next_at(pred, key, after, self.active)
    }

    /// The labels whose atoms have the predicate and, where `key` is a place and a value, that value at that place, as far as
    /// they are older than the active one. None only where `key` has a place that has no index, or a compound value.
    #[inline(always)]
    pub fn matches(&self, pred: Pred, key: Option<(u8, ValueRef<'_, A>)>) -> Option<Matches<'s>>
        ensures least { IfSome result (λ labels. (after : ℕ) (found : Option ℕ) → IsLeastBetween labels after self.now.active found → IsLeastMatch self.now.store.entries (record { pred = pred; key = key_of key.entry; after = after; below = self.now.active }) found) }
        ensures own { key.entry ≡ None → IsSome result }
    {
        self.store.matches(pred, key)
    }
}
