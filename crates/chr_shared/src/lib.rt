//! A book under a lock, for the threads that hold its seats.
//!
//! [`Shared`] is one lock over a book, or over none yet. Who makes entries has a [`Seat`](chr_seats::Seat). A *hold* is
//! what is done between taking the lock and giving it back. A hold makes at most one call of the book, by the number of the
//! seat that it is given, and its contract is the line of that call in `chr_calls`, for the book that was there at that
//! moment: there was such a book, and it answered the call. Before the call the book has the headline of `chr_calls`, and
//! the seat's counts are what it has made in the log, and after it again. What a hold only reads it reads of a book that
//! has the headline. So whenever a call takes the lock, it holds no book, or one that has the headline. Nothing is judged
//! in a hold, but for a trial that fires under a compound value, or whose binding there was no memory to keep: that is judged
//! once more there. No guard of the lock leaves this crate.
//!
//! Workers [`rest`](Shared::rest) where there is nothing to take, until they are told of something new; a worker that is told
//! is awake from then on. Sessions [`watch`](Shared::watch) the workers. No contract says that a sleeper wakes.
//!
//! Who reads a log or a store takes in the hold only what its lines are made of ([`LogRead`], [`StoreRead`]), and makes the
//! [`Lines`] once the lock is free: to copy entries or constraints takes a part of the time that their text takes. What isn't
//! asked for isn't copied. Lines that are no more than the names are made at once, since to copy the names would take longer.
//! The lines are those of the log or the store that was read, as they were then.
#![tactic(auto)]

mod lines;
mod log_lines;
mod readings;
mod resting;
mod shared;
mod sleepers;
mod store_lines;

pub use lines::Lines;
pub use log_lines::LogRead;
pub use resting::Rest;
pub use shared::Shared;
pub use sleepers::HOLDS_A_LOOK;
pub use store_lines::StoreRead;
