//! Tests of crews: runs by several workers whose logs the check of a log accepts.
//!
//! What a run leaves of a book is proved. The tests show what no clause says: that a run gets to its end, that two workers
//! stand before a judgement at once and the lock is free there, that sleepers wake, what becomes of tickets where turns,
//! labels or memory run out, and when a session beside workers is answered.
//!
//! Two tests have the names of wrong bodies that they refuse and no proof can: `gives_up_at_once` and
//! `judging_under_the_lock`.
#![tactic(auto)]

#[cfg(test)]
mod tests;
