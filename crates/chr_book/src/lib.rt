//! A book: a program with a store, its goals by their tickets, and the log of what happened.
//!
//! Several seats work on one [`Book`], one call at a time: whoever shares a book among threads holds a lock around each
//! call. A seat posts atoms, claims a ticket, asks for the next trial of its goal, judges it elsewhere and reports the
//! judgement or fires, until the goal has ended or is dropped. But for [`go_on`](Book::go_on) and [`start`](Book::start),
//! which are for a seat that works alone, the book judges nothing: it looks at what a judged trial carries, and at the
//! store. Where a compound value is bound, or there was no memory to keep what is bound, one more judgement finds it anew.
//!
//! | Call | What it does |
//! |---|---|
//! | [`post`](Book::post) | atoms take the next tickets and wait |
//! | [`claim`](Book::claim) | a waiting ticket's atom enters the store under the next label, or a resting one goes on |
//! | [`trial`](Book::trial) | the next trial of a goal becomes its candidate |
//! | [`report`](Book::report) | the search goes on after a candidate that is no instance |
//! | [`batch`](Book::batch) | so does the next trial, and those after it that differ in their last label alone come along |
//! | [`sheet`](Book::sheet) | so does the next trial, and those that come after it, whatever the verdicts, come along |
//! | [`report_batch`](Book::report_batch) | judgements are reported up to the first that is an instance |
//! | [`report_all`](Book::report_all) | and so are those of a sheet, as they are kept together |
//! | [`claim_sheet`](Book::claim_sheet) | a ticket is claimed, and its first trials are given |
//! | [`report_sheet`](Book::report_sheet) | judgements are reported, and the last one fires, the goal is dropped, or the next trials are given |
//! | [`fire`](Book::fire) | a candidate that is an instance fires, where its labels are all live |
//! | [`drop_goal`](Book::drop_goal) | a goal whose search has no trial left ends |
//! | [`go_on`](Book::go_on) | trials are asked for, judged and reported, up to one that fires, or to the drop of the goal |
//! | [`start`](Book::start) | a waiting ticket is claimed, and goes on so |
//! | [`put_down`](Book::put_down), [`mark_stray`](Book::mark_stray), [`take_stray`](Book::take_stray) | tickets that wait for another seat |
//!
//! [`of_text`](Book::of_text) opens a book of the rules of a text; [`post_text`](Book::post_text) posts the atoms of a text, by the book's own names;
//! [`store_lines`](Book::store_lines) and [`log_lines`](Book::log_lines) write the lines of the store and of the
//! log; [`into_store_lines`](Book::into_store_lines) gives those of the store once the log has gone;
//! [`strict_log`](Book::strict_log) is the log with its drops after the other entries, where no ticket is open.
//! [`shot`](Book::shot) is a copy of program, store and log, and [`continues`](Book::continues) tells whether a
//! book goes on from one by the work of its seats alone.
//!
//! The contract of each call is its line of the table in `chr_calls`. The type keeps what makes every drop lawful, so at
//! any time, after any calls by any seats, a book has the headline of `chr_calls`: its log is lawful and leads to its
//! store and goals; with labels erased its firings are an abstract run from the atoms posted; no label is removed twice;
//! and where no goal is open, no rule applies to the store.
//!
//! After E01 nothing has changed, but for what some calls have made before it, which stands: the judgements that
//! [`report_batch`](Book::report_batch), [`report_all`](Book::report_all) and [`report_sheet`](Book::report_sheet) have
//! reported, the claim of [`claim_sheet`](Book::claim_sheet), the rounds of [`go_on`](Book::go_on), and the claim and the
//! rounds of [`start`](Book::start).
#![tactic(auto)]

mod batches;
mod body;
mod book;
mod calls;
mod firing;
mod given;
mod passing;
mod rounds;
mod shot;
mod strict;
mod texts;

pub use book::{Book, OpenFault};
pub use given::MOST_IN_BATCH;
pub use shot::Shot;
pub use texts::Posted;
