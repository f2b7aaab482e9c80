//! Tests of the pool: calls whose answers are known in one thread, and hands in threads of their own.
//!
//! That taken and left tasks are the pushed ones, each once, is proved. The tests show which task a hand takes first, that
//! it answers `None` only where the deques and the queue are empty, and that the calls return, none of which a clause says.
#![tactic(auto)]

#[cfg(test)]
mod tests;
