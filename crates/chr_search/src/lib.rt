//! The search for partners of an active label, cut into single trials.
//!
//! A trial is a rule, a head of it, and labels for heads in the order of that head's plan, the active label first. Trials
//! are ordered by rule, head and labels place by place, a beginning before what it begins. A [`Search`] is
//! an active label with a position in this order: a few numbers, so that it can be kept while others insert into the store
//! and remove from it. [`candidate`](Search::candidate) makes the least admissible trial at or after the
//! position, [`judge`] tells whether it misfits, is a part of an instance or is a whole one, as [`settled_on`] does of a
//! trial that stays where it is, and [`advance`](Search::advance) moves the search past what has been judged.
//! [`pass_over`](Search::pass_over) does the same for all trials up to one that is whole, and makes none of them. It
//! binds without a comparison what it finds for a head that a plan calls fresh.
//! [`pass_over_before`](Search::pass_over_before) does it before the active atom is entered, as if it were: where
//! the whole trial removes that atom, its firing spares the store both the entering and the removal.
//!
//! In an admissible trial every label but the first is older than the active one, so an instance is found by the
//! youngest of its labels.
#![tactic(auto)]

mod at_heads;
mod fitted;
mod front;
mod join;
mod judged;
pub mod laws;
mod passing;
mod position;
mod search;
mod trial;
mod walk;
mod whole;

pub use fitted::{Fitted, is_misfit_alone};
pub use front::Front;
pub use judged::{Judged, Verdict, judge, settled_on};
pub use position::Position;
pub use search::{Ask, Instance, Passed, Search, Then};
pub use trial::{Placed, Trial};
pub use whole::Whole;
