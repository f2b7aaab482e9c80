//! A store, and lists of the labels that a search for partners tries.
//!
//! [`Partners`] has atoms under labels, which are given in order from 1 on. Some of its labels are *listed*: they are those
//! of the constraints that may be partners in an instance. A search asks for the [`candidates`](Partners::candidates) of a
//! name, or of [a name and a value at a place](Partners::candidates_at), and tries each.
//!
//! The candidates are all listed labels whose atoms are as asked, and perhaps others, which cost time alone: a search looks
//! each candidate's atom up, by [`get_listed`](Partners::get_listed), and fits it to a head all the same. So keys are neither
//! stored nor compared. An atom has a key for its name, and one for its name with the value at each place that
//! [`keep_place`](Partners::keep_place) was told of. The hash of a key gives it a home, and at a home there is one list of
//! labels, in which each listed label with such a key is.
//!
//! A label that leaves is counted at the homes of its keys. Where more than half of a list has left, the list keeps those
//! that have an atom; where there are as many labels in the lists as homes, all are made anew, with twice the homes. Both take
//! constant time for each label that is listed, in the mean.
//!
//! A label has 4 bytes, and its atom a slot that is given again. [`push`](Partners::push), [`list`](Partners::list) and
//! [`keep_place`](Partners::keep_place) take memory, no other call does.
//!
//! Contracts see a `ListedStore`: a store as the list of its labels with their atoms, those of its labels that are listed,
//! and the label that comes next. What is promised:
//!
//! - `push` puts an atom under the next label, `get` gives exactly the atom of a label, `remove` drops a label from the store
//!   and from those that are listed, and `iter` goes through the whole store in the order of labels.
//! - `list` makes a label of the store listed, and `get_listed` tells exactly which are.
//! - `candidates` and `candidates_at` have each listed label whose atom is as asked, whatever the hashes are.
//! - After an `Err`, which is E01, the store and what is listed are as before.
//!
//! No contract says which other labels are candidates, how many there are, or how long a call takes.
#![tactic(auto)]

mod atoms;
mod entering;
mod hashing;
mod homes;
mod labels;
mod partners;

pub use atoms::Constraints;
pub use partners::Partners;
