//! The run of one seat on a book, and the desk of a session that has a book for itself.
//!
//! [`solo_steps`] makes calls for one seat: each is for the least open ticket that no other seat holds, to
//! that ticket's end. A ticket that waits or rests is claimed; then its trials are asked for and judged one by one; a whole
//! one fires, another is reported, and where none is left the goal is dropped. So with one seat a book's log is fixed by its
//! rules, its label limit, the atoms posted and the number of calls.
//!
//! No trial is made for most of these calls: [`Book::go_on`](chr_book::Book::go_on) makes rounds of two of them, which
//! pass over trials, fire one or drop the goal, [`Book::start`](chr_book::Book::start) claims a ticket and makes such
//! rounds, and they are counted. Rounds leave out the claim of a ticket that rests or for which no label is left, the goal
//! whose label is gone, and the first call of a round for which too few calls are left. These calls are made one by one,
//! and what the last trial was judged is kept between them.
//!
//! [`SoloDesk`] has no program at first. A load opens a book, on which one seat, number 0, makes all
//! calls: a post's, and at `wait K` at most K calls of such a run.
//!
//! What the desk promises: each reply, and the book after it, are those of its step relation, in which a load is the
//! reading of a program, a post and a wait are calls of the book by seat 0, and `store` and `log` are the texts of what the
//! book holds. After a refusal the book is as before; after E01 at a wait it is that of the calls made so far.
#![tactic(auto)]

mod desk;
mod solo;

pub use desk::SoloDesk;
pub use solo::{End, Solo, solo_runs_are_fixed, solo_steps, watched_steps};
