//! Tests of whole runs, from the bytes of two texts to the bytes printed, of the check of a log, from those of three, and of
//! pictures of parts of a log.
//!
//! The contract of a whole run fixes its bytes by relations. The tests show them: worked programs with their output, byte
//! by byte, by each way to show a run and up to each limit that its options give; the values of worked expressions; and
//! texts that can't be read.
//!
//! What a check answers is proved, and so is each byte of its line. The tables fix the lines that are wanted for worked
//! texts: logs and stores that are runs, changed ones with their first fault, and texts that can't be read. They also
//! show what no clause says: that runs and checks succeed where memory is left, that a fault is displayed as its line has
//! it, and that a watch is told of each call and of each entry. Where a request for memory is refused, a check and a
//! picture answer that and nothing else.
#![tactic(auto)]

#[cfg(test)]
mod tests;
