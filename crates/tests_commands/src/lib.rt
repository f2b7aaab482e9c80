//! Tests of the command line of `chr`, and of its commands but for the server.
//!
//! No clause says what a command prints, which status it ends with, or how the words of a command line are understood. The
//! tables show it row by row: command lines with what they ask for, or with the error, the beginning of its text and its
//! exit code; the sentences on standard error, with the place of a fault; what is told of refused entries; the lines of
//! progress, by a clock that is set; the files that a run writes, and what is left where one can't be written; and what is
//! printed and said and which status is given at each end of a run, a check, a picture and a session, also with a reader and
//! a writer that fail.
#![tactic(auto)]

#[cfg(test)]
mod tests;
