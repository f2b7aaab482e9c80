//! Lists of calls of a book.
//!
//! [`run_calls`] makes any list of calls by any seats on one book, one after another, and answers each as
//! the table of `chr_calls` has it. So a list of calls is one order in which several seats come to a book that they share.
//! Calls that only read a book, as `quiet`, `state` and `shot`, change nothing, and have no place in a list.
//!
//! A [`SeatCall`] is a call with the number of its seat. A report or a firing names the judgement that it
//! goes by, a [`Word`]: one that is given, or the seat's own, which is that of the last trial that the seat
//! was told for the ticket in this list. In the same way the report of a batch goes by [`Words`].
//!
//! `AnswersAre` says of a book, calls, their answers and the book afterwards that each answer is the one of its call's line
//! in the table, in order. [`laws`] are contracts of functions that do nothing: answers to a list of calls are a run of the
//! book, and so, from a book as it is opened, the headline of `chr_calls` holds for exactly the atoms that the calls
//! posted; and no search moves back.
//!
//! What `chr run` and the workers of a server make is such a list too: `AreCalls` says so of the rounds of `chr_book`, of
//! sheets, and of the run of one seat.
#![tactic(auto)]

mod calls;
pub mod laws;
mod own;
mod run;

pub use calls::{Answer, Call, SeatCall, Word, Words};
pub use run::run_calls;
