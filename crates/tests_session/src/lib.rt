//! Tests of sessions: tables of what a session is told, each command with its reply.
//!
//! What the bytes of a session spell, the run of its desk and the bytes of its replies are proved. The tables show what
//! these definitions come to: worked sessions, byte by byte, in one piece, in single bytes and cut in two at each byte;
//! each fault; the order in which a line is tested; how a command may be spelled; and the limits. They also show what no
//! clause says: that a session with memory goes on to the end of its input, and what is written before a device fails.
//!
//! A worked session is served again and again, over an allocator that refuses the first request, then the second, and so
//! on, until a run meets no refusal. A refused request ends the session before its first command, or one command is
//! answered E01 in place of its reply and the session goes on: each later reply is that of a run over the commands that
//! were carried out. That a desk's replies are those of such a run is proved; that a session goes on after a refusal, and
//! answers E01 only there, no clause says.
//!
//! A run is served through readers and writers that signals interrupt, in each call and many times: nothing is lost or
//! written twice. A client that sends a command only once it has the reply to the one before is served: a session that
//! kept its replies back would read the next command first.
//!
//! A `Talk` is a row of the tables.
#![tactic(auto)]

#[cfg(test)]
mod breaks;
#[cfg(test)]
mod in_turn;
#[cfg(test)]
mod interrupted;
#[cfg(test)]
mod limits;
#[cfg(test)]
mod pieces;
#[cfg(test)]
mod refused;
#[cfg(test)]
mod serving;
#[cfg(test)]
mod talks;
