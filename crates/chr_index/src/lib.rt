//! Labels under keys.
//!
//! An [`Index`] has rising labels under each of its keys. A [`Key`] is a word of 64 bits with its kind. The keys stand in
//! entries of 20 bytes, one after another in the order in which they came. A multiplication gives the home of a key, and
//! the entries of each home are a chain: four bytes a home say where it begins, so that finding a key takes a look or
//! two. The only label of a key stands in its entry, and where it has more they stand in a [`Bucket`], in slots of eight
//! bytes. Where there are as many entries as chains, the keys without labels go and the chains are made anew, at least two
//! for each key that is left.
//!
//! [`Matches`] goes through the labels of a key, and going on from the label found last takes no search.
//!
//! [`put`](Index::put) takes memory, no other call on an index does.
//!
//! Contracts see an index as its table with the labels of its buckets, and ask it by the labels of each key.
#![tactic(auto)]

mod bucket;
mod index;
mod matches;
mod table;

pub use bucket::Bucket;
pub use index::Index;
pub use matches::Matches;
pub use table::{Key, Kind};
