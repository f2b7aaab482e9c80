//! The replay of a log: whether its events are a run of a program that ends in a store.
//!
//! [`check`] replays the events one by one against the definitions of a run (in the manner of Lam and
//! Sulzmann, by this project's own rules), for either version of the condition under which a goal may be dropped. It
//! answers that they are a run that ends in the given store, and whether that run is also quiet and final, or else it
//! gives the first fault: E16 with its place, line and kind.
//!
//! | Kind | Where |
//! |---|---|
//! | BadTicket | a Post whose ticket isn't the next; an Activate whose ticket isn't a plain goal; a Fire or Drop whose ticket isn't a numbered goal |
//! | BadLabel | an Activate whose label isn't the next; a Fire with a label that isn't in the store |
//! | NoInstance | a Fire whose rule isn't in the program, whose labels aren't an instance with distinct labels, or whose ticket's label isn't among them |
//! | StillApplies | a Drop of a goal that may not be dropped |
//! | StoreDiffers | after the last event: the first entry of the store that differs from the run's, or one past the shorter of the two |
//!
//! The kinds are tested event by event, and for one event in this order. [`laws`] has the laws of the definitions.
//!
//! The replay keeps the store in [`chr_partners::Partners`], and finds a label and a ticket by their places. For a Drop it
//! searches by plain enumeration: at each head it tries the labels of the shortest list that the store has for the head's
//! name and bound arguments. It shares no code with the server's own search, so that a mistake there isn't repeated here.
#![tactic(auto)]

mod checking;
pub mod fault;
mod firing;
mod goal;
pub mod laws;
mod partners;
mod replay;
mod storing;

pub use checking::{Verdict, check, refused, watched_check};
pub use firing::has_label;
pub use replay::{Refusal, Replay};
