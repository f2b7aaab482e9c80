//! Calls in one thread, hands in threads, and room.
mod room;
mod rows;
mod threads;
