//! Workers, and the runs of a crew of them on one book.
//!
//! [`work`](work::work) is what one worker does: it takes a ticket from the pool of `chr_pool`, by its hand, or else a stray
//! one of the book, claims it by its seat, and goes through the trials of its goal until that ends. Each call of the book is
//! made in a hold of the lock of `chr_shared`. One hold claims the ticket and gives its first trials; they are judged while
//! the lock is free, a [`Gate`] called before each judgement, up to the first that is whole; and one more hold reports the
//! judgements and fires, drops the goal, or gives the next trials. What a hold gives is sixteen trials, or twice as many as
//! the worker judged of what the last one gave, and at most 256.
//! New tickets go on the worker's hand, where other workers may steal them. After each 32 tickets a worker looks first into
//! the queue that sessions feed and for a stray ticket, in turn, so that tickets of its own without end keep none of these
//! waiting.
//!
//! A worker sleeps where it finds nothing to take. It is woken for the tickets of a post, of which each wakes one worker that
//! rests; for those that firings leave in another worker's hand; by tickets that another worker leaves as it ends; and by the
//! close of the crew. Those of its firings a worker tells of at once while its goals take sixteen trials or more in a sheet, and
//! until sixteen goals in a row have taken fewer; from then on only once they are eight, or it looks elsewhere. A ticket whose
//! call met want of memory (E01) or of labels (E10) is marked stray, and wakes nobody, since the next worker would mostly meet
//! the same want: the worker that met it looks again after the next announcement, if only one that came while it worked. Once the
//! crew is closed, a worker puts its goal down before its next call.
//!
//! [`run_crew`] runs up to sixteen workers on a book, each in a thread of its own, until they have made so
//! many calls or find nothing to take. Its contract says of the book that comes back that it has the headline of `chr_calls`,
//! and the rules, the names and the limit of the one handed in; that it goes on from there by the work of these seats alone,
//! none of it a post, which leads from the goals, the store and the next label of the one to those of the other; and that no
//! worker holds a ticket. The counts are what each worker's seat has made. The tally is of all tickets that waited or rested,
//! each pushed once, and of others that firings left: each was taken, or is left in the pool. The run is quiet exactly where no
//! ticket is open. It compares the book with what it kept of it before, so it says so of any schedule.
//!
//! A [`Rack`] lends the seats and inlets of sessions.
//!
//! No contract says that a worker gets on, that two workers judge at once, or that a sleeper wakes.
#![tactic(auto)]

mod before;
mod crew;
mod gate;
mod goal;
mod rack;
mod record;
pub mod work;
mod worker;

pub use crew::{Cause, CrewFault, End, Finished, run_crew};
pub use gate::{Gate, Open, Stop};
pub use rack::{NoSeat, Place, Rack};
