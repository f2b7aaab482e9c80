//! The desk of a session on a book that others share.
//!
//! [`SharedDesk`] makes its entries by a seat of a [`Shared`](chr_shared::Shared) book, and
//! pushes the tickets of its posts on an inlet of the workers' pool. [`LentDesk`] does so by a seat
//! and an inlet that are lent to it, and waits as long as its [`Patience`] lasts. A load brings a
//! book where none is there yet (E20). `wait K` looks at the book until it is quiet, at most K + 1 times, and sleeps between two
//! looks while a worker is awake, as [`watch`](chr_shared::Shared::watch) does. Where none is awake it tells the workers once
//! to look again, and then it ends. `store` and `log` are read in one hold of the lock.
//!
//! What is promised: each reply, and the counts of the seat after it, are those of the step relation of this desk. A reply
//! `posted F n` raises the seat's posts by n, in a hold in which the book answered the call of this seat with this text;
//! no other reply raises a count. `quiet`, `open`, `store` and `log` are read off a book that has the headline of
//! `chr_calls`, and in which the seat's entries were exactly its counts, so all that was posted by it is in it. E20 comes
//! only where a hold found such a book, E24 only to a seat that has made nothing. Each of these holds is of some book: that
//! two of them see the same one is not said. A `wait K` looks at most K + 1 times. Its loop
//! has no way to look but by a value that counts each look; that what is counted is one hold rests on the code of
//! that look.
#![tactic(auto)]

mod shared_desk;
mod waiting;
mod watching;

pub use shared_desk::{LentDesk, SharedDesk};
pub use waiting::Patience;
