//! What a run writes, the checker accepts.
//!
//! `chr_run_text` makes runs and `chr_check_text` checks logs, and neither uses the other. This crate has no data and no code
//! of its own: its functions do nothing, and the contract of each is a law about the definitions of both. So the two can't
//! drift apart.
//!
//! | Law | What it says |
//! |---|---|
//! | [`what_a_run_writes_is_accepted`](laws::what_a_run_writes_is_accepted) | the check of a run's log and store answers `run final` where the run ended quiet, else `run`; of its strict log, `run final` |
//! | [`what_a_run_of_texts_writes_is_accepted`](laws::what_a_run_of_texts_writes_is_accepted) | the same of a run of any number of texts of posts |
//! | [`what_seats_write_is_accepted`](laws::what_seats_write_is_accepted) | the same of a book to which any seats have posted texts, with any calls between |
//! | [`texts_of_runs_are_read_back`](laws::texts_of_runs_are_read_back) | these texts are read with the program's names alone, as the events and the store of the run |
//! | [`runs_are_answered_so`](laws::runs_are_answered_so) | the answer, over events and a store |
//! | [`books_are_runs_for_the_checker`](laws::books_are_runs_for_the_checker) | the same for the definitions of a check, after any calls by any seats |
//!
//! The texts must keep the limit on length, 64 MiB each. Want of memory may come between.
#![tactic(auto)]

pub mod laws;
