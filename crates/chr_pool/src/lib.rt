//! A pool of hands that share tasks by stealing.
//!
//! [`make`] makes a pool of hands and inlets. Each hand has a deque of its own: it pushes new tasks there, and takes the
//! oldest task of its own deque, else of the queue that the inlets feed, else of the deque of another hand, by stealing.
//! By [`Hand::take_fed`] it takes the oldest task of the queue, whatever its own deque has, so that what is fed needn't wait
//! for the end of its own tasks.
//! Hands and inlets may be used in different threads at the same time. Once all are back in one place, [`gather`] counts
//! what was pushed and taken, and hands out the tasks that are left.
//!
//! A hand's contracts list the numbers of the tasks that it pushed, and of those that it took from each source, in order.
//! These lists are true of the shared deques: a rule over each deque and over the queue keeps the tasks in it, together
//! with all that were taken from it, equal to those that were pushed there, as multisets, and the tasks in it in the order
//! of pushing (`specs/Accounts.antt`). So `gather` can say that taken and left together are the pushed tasks, each once.
//!
//! [`Hand::push`] waits for nobody. [`Hand::take`], [`Hand::take_fed`], [`Inlet::push`] and [`gather`] may wait for another
//! thread that is using the queue. No contract says that a call which may wait returns, nor that a task is ever taken.
#![tactic(auto)]

mod account;
mod deque_handle;
mod hand;
mod inlet;
mod making;
mod new_deque;
mod own_deque;
mod pool;
mod queue_handle;
mod settling;

pub use account::Numbered;
pub use hand::Hand;
pub use inlet::Inlet;
pub use making::make;
pub use pool::{Tally, gather};
