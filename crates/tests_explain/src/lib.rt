//! Tests of explanations.
//!
//! The rows fix the bytes of worked explanations, which are found by hand: of the gcd, as lines, with what removed each
//! constraint, and as a graph; and of a start of the scheduler in `examples`. They also show the faults of a label that
//! the log doesn't give and of a log that is refused, and what is answered where a request for memory is refused.
#![tactic(auto)]

#[cfg(test)]
mod explanations;
#[cfg(test)]
mod refusals;
