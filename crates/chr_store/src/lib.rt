//! The store: constraints under labels.
//!
//! A [`Store`] is a map from labels to atoms. Labels are given from 1 on, each once, up to a limit, so
//! two equal constraints have two labels and a removed label never comes back. [`next_at`](Store::next_at)
//! finds the least label in a range whose atom has a predicate and, where one is asked for, a value at a place.
//! A store keeps its atoms in one vector, and for each label the slot of its atom, so looking one up takes no search. The slot
//! of an atom that is removed is given again, and 4 bytes for its label stay. It counts the atoms of each 64 labels, so that
//! [`iter`](Store::iter) passes over blocks whose atoms have gone.
//! It also keeps the labels of each predicate in order, and, for each place that
//! [`indexed`](Store::indexed) is given, those of each predicate and value there. So `next_at` takes a hash, or
//! for a predicate alone a look-up in a table, and a binary search; with a key at another place it goes through the labels
//! of the predicate. [`matches`](Store::matches) looks the key up once, and going on from the label found last
//! takes no search.
//! A number or a symbol has a key of its own. A compound value stands in its keys by a digest, a number of 64 bits that is
//! computed from its functors, numbers and symbols, and which other values may have too: `next_at` goes through the labels
//! of the digest's key and compares, and `matches` answers None. So no key holds a value, and looking one up takes no
//! memory.
//! [`spend_label`](Store::spend_label) gives a label to no atom, as where one is entered and removed at once.
//! [`indexed`](Store::indexed), [`insert`](Store::insert), [`insert_copy`](Store::insert_copy),
//! [`spend_label`](Store::spend_label) and [`copy`](Store::copy) take memory, no other call does.
//!
//! A [`View`] is a store in which labels are looked for that are older than an active one. It can show an atom
//! under the next label before that atom is entered, so a search for its partners needs no copy of it in the store.
//!
//! Contracts see a store as the list of its labels with their atoms, which rises, with the next label and the limit. They see
//! a view as such a store, with the atom that it shows, and the active label.
#![tactic(auto)]

mod atoms;
mod buckets;
mod chosen;
mod keys;
mod labels;
mod rows;
mod store;
mod view;

pub use chr_index::Matches;
pub use store::{Label, Store, StoreFault};
pub use view::View;
