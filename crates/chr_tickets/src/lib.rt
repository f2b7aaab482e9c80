//! The tickets of a book: each posted or added atom gets the next one, and keeps it until its goal has ended.
//!
//! An open ticket has an atom that waits, or the search of an active goal with the seat that holds it and its candidate;
//! and it may be marked stray, for whoever looks for work. The tickets lie in slots by their numbers, each with room for
//! all that it becomes later. The slot of one that has ended is emptied, or left as it is where no open one comes before it:
//! such slots are let go together. Only [`push`](Tickets::push) takes memory, where the slots have to grow.
#![tactic(auto)]

mod slots;
mod ticket;
mod tickets;

pub use tickets::Tickets;
