//! Tests of a server of sessions, over sockets of the system in one process.
//!
//! A server may wait, and no clause says that it gets on. So these tests show that each client has its replies whatever the
//! others do and whatever the workers are at, that the seats are sixteen, that a client which vanishes or doesn't read costs
//! its own session and nothing else, that nothing is left of ten thousand of them, that a session without memory is told so,
//! and what becomes of the socket's file.
#![tactic(auto)]

#[cfg(test)]
mod tests;
