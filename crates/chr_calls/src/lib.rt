//! The calls of a book, as a table, and the laws of their runs.
//!
//! A book is a program with a store, the goals by their tickets, and the log of what happened. Several seats call it, one
//! call at a time. This crate says what each call answers and what the book is afterwards, and what holds of a book after
//! any calls by any seats. It has no book of its own: [`answers`] are the answers that calls give, `specs/` the table, and
//! [`laws`] are contracts of functions that do nothing.
//!
//! - `Turns`: what comes next for a goal.
//! - `Tickets`: a ticket's goal with its holder, its stray mark and its search; the state that a seat is told.
//! - `Books`: the state of a book.
//! - `Calls`: the table, a relation for each call, from the book before it and its answer to the book after it.
//! - `Batches`: the calls that make several lines of the table at once, for batches and for sheets.
//! - `Runs`: calls by any seats, one after another.
//! - `Headline`: what holds of a book after any run, and what each call keeps so that it does.
//! - `Moves`: where searches stand after a call.
//!
//! The law that all others serve is [`runs_have_the_headline`](laws::runs_have_the_headline): after any calls by any seats
//! on a book as it is opened, the log is lawful and leads to the book's store and goals; with labels erased its firings are
//! an abstract run from the atoms posted; no label is removed twice; and where no goal is open, no rule applies to the
//! store. It has no premise but that the book was opened with the plans of its rules.
//!
//! No call moves a search back ([`no_search_moves_back`](laws::no_search_moves_back)), and each report that is taken moves
//! its own on ([`searches_move_on`](laws::searches_move_on)).
#![tactic(auto)]

mod answers;
pub mod laws;

pub use answers::{
    Batch, BatchReport, ClaimFault, DropFault, Dropping, FireFault, Fired, Firing, Following,
    MarkFault, PostFault, PutDownFault, ReportFault, Sheet, SheetReport, TicketState, Turn,
    TurnFault,
};
