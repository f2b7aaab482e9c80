//! Tests of the readers and writers of texts: rule text and posts, logs and stores, and the phases of reading rule text.
//!
//! What each call answers is proved, by definitions that are proved to be the grammar. The tests compare these
//! definitions with texts from outside, row by row: what the formats' documents accept, and each fault with its line.
//! They also show what no clause says: that the calls succeed where memory is left, and how a fault is printed.
//!
//! The calls that take memory are made once more over an allocator that refuses the first request, then the second, and
//! so on, until a run meets no refusal. A call fails exactly where its request is refused, and succeeds when it is made
//! again: no clause says so. That a refused call leaves everything as before is proved, and not tested here.
#![tactic(auto)]

#[cfg(test)]
mod tests;
