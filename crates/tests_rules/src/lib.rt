//! Tests of rules, of fitting heads, of join plans, of the store and of searches.
//!
//! What each call answers is proved. The tests compare its definition with worked values from outside, from both sides
//! of each limit, and whole searches with rows worked out by hand and with what trying all labels at all heads finds.
//! They also show what no clause says: that the calls succeed where memory is left. Values, atoms, arithmetic and logs
//! are compared with worked values by the tests of texts and of whole runs.
//!
//! The calls of programs, plans and stores that take memory are made once more over an allocator that refuses the first
//! request, then the second, and so on, until a run meets no refusal. A call fails exactly where its request is refused,
//! and succeeds when it is made again: no clause says so. That a refused call leaves everything as before is proved.
#![tactic(auto)]

#[cfg(test)]
mod tests;
