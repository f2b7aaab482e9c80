//! Tests of a book: tables of calls by several seats, each with its answer and the state of every ticket after it, the same
//! tables as lists of calls, and many lists by three seats whose logs the check of a log accepts.
//!
//! What each call answers, and the book after it, is proved, and that the answers to a list are a run of its calls, in
//! order. The tables fix what worked runs answer, call by call, with their logs and stores as text. They also show what no
//! clause says: that a call succeeds where memory is left.
//!
//! Tables and lists are played again and again, over an allocator that refuses the first request of each call, then the
//! second, and so on, until no call meets a refusal. A call that is refused answers E01 and leaves every ticket's state, the
//! log and the store as they were; made again, it gives the answer of its row. That a refused call leaves the book as it was
//! is proved; that it fails exactly where a request is refused, and which calls take no memory, no clause says.
//!
//! A `Script` makes the calls on a book, and tells their answers in words.
#![tactic(auto)]

#[cfg(test)]
mod tests;
