//! A labelled instance of a program's rules that has one constraint, by plain enumeration of those that may be its
//! partners.
//!
//! [`find_with_partners`] is exact both ways: it finds a labelled instance that has the constraint, and it finds none only
//! where there is none. It takes no memory. It uses no join plan: for each head of each rule it tries the constraint, and
//! then, one after another, the open head that has the shortest list of candidates.
//!
//! A search knows a store by [`Partners`] alone: the constraint under a label, and lists of labels by predicate, place and
//! value. A list need only have all labels that it is to have. Others cost time and change no answer, since each
//! candidate's constraint is looked up and matched. So the search fits a checker of logs and plain lists alike.
#![tactic(auto)]

mod partners;
mod search;
mod slots;

pub use partners::Partners;
pub use search::{Found, find_with_partners};
