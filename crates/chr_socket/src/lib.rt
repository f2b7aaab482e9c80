//! The command `chr serve`: a server of sessions over a Unix socket at a path.
//!
//! [`serve`](serve::serve) makes the socket, has `chr_serve` start its threads, says on standard error that clients can
//! connect and how many workers there are, has the clients served, and at the end removes the socket's file. It never
//! removes what it didn't make: where something is at the path it says what that is, and ends; and a file that has taken the
//! socket's place meanwhile is left there.
//!
//! What a session answers is promised by `chr_serve`, and that as many workers are started as were asked for and are named.
//! No clause can say what is at a path: that files are left and sockets are removed is tested.
#![tactic(auto)]

pub mod serve;
