//! The constraints among which a search looks for the partners of one.
ghost use Rattle.std.specs.Prelude.{◌≡◌, IfSome};
ghost use Rattle.std.specs.Option.{option_map};
ghost use Rattle.chr_value.specs.Atoms.{said};
ghost use Rattle.chr_model.specs.Stores.{atom_at};
ghost use Rattle.chr_enumeration.specs.Partners.{HasAllBut, IsNamed, HasAt};

use chr_log::Label;
use chr_value::{Atom, Name, ValueRef};
use std::alloc::Allocator;

/// The constraint under a label, with those that may be its partners. A search knows a store by these calls alone.
pub trait Partners<A: Allocator> {
    ghost use Rattle.std.specs.Prelude.{ℕ};
    ghost use Rattle.chr_value.specs.Stores.{Store};

    ghost store: { Self → Store };

    ghost own: { Self → ℕ };

    /// Returns the label of the one that has the partners.
    fn own(&self) -> Label
        ensures { result ≡ own self.now };

    /// Returns the constraint under a label.
    fn atom(&self, label: Label) -> Option<&Atom<A>>
        ensures { option_map (λ atom. atom.now) result ≡ atom_at (store self.now) label };

    /// Returns labels among which are those of all partners whose predicate has this name.
    fn labels(&self, name: Name) -> &[u32]
        ensures { HasAllBut (own self.now) (store self.now) (IsNamed name.number) result.now };

    /// Returns labels among which are those of all partners that have this name, and this value at a place, from 1. None
    /// where there is no such list.
    fn labels_at(&self, name: Name, place: usize, value: &ValueRef<'_, A>) -> Option<&[u32]>
        ensures { IfSome result (λ labels. HasAllBut (own self.now) (store self.now) (HasAt name.number place (said value.now)) labels.now) };
}
