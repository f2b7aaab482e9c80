//! A server of sessions: up to sixteen at once, on one book that a crew of workers works on.
//!
//! [`serve_on`] takes connections from a [`Listener`], which is a Unix socket or a
//! stand-in for one. Each connection has a session of `chr_session`, with a desk of `chr_shared_desk` by a seat and an inlet
//! that are lent to its thread. A connection that finds no seat is told `fault E18 NoSeat`, and closed. At the end all 32
//! seats are with their owner, and are audited before they are let go.
//!
//! The calling thread takes the connections. Before the first of them sixteen threads for sessions and one for each worker
//! are started, and the lock, the pool, the slab of live connections and the memory of sixteen sessions are made. Once all
//! of this stands, who asked for the server is told so ([`Ready`]); later only commands take memory. A reply is written
//! while no lock is held, so a client that doesn't read holds up its own session and nothing else.
//!
//! What is promised: over a source and a sink that tell their bytes, a session is a run of the step relation of a desk on a
//! shared book ([`serve_lent`], [`serve_at`]); a refusal is its line
//! ([`refuse`]); never more than sixteen connections are live; a server has as many workers as it was asked for; and a want
//! of descriptors or memory is told from a failure that lasts ([`Outlook`]). That descriptors are closed, that one client
//! doesn't hold up another, and that a server goes on after such a want is tested.
#![tactic(auto)]

mod connections;
mod failure;
mod listener;
mod members;
mod patient;
mod ready;
mod refusal;
mod serving;
mod session;
mod unread;

pub use failure::Outlook;
pub use listener::Listener;
pub use ready::Ready;
pub use refusal::refuse;
pub use serving::{ServerFault, serve_on};
pub use session::{serve_at, serve_lent};
