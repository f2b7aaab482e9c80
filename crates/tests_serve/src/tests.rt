//! Clients of servers, and a module for each kind of test.
mod client;
mod failing;
mod long;
mod sessions;
mod socket;
mod starting;
mod unread;
mod vanishing;
mod workers;
