//! Sessions: commands that are read from any source, and replies that are written to any sink.
//!
//! [`serve`] reads commands until `quit` or the end of the input, has each right one carried out by a
//! [`Desk`], and writes each reply before it reads the next command.
//!
//! | Command | Reply |
//! |---|---|
//! | `load N`, then N bytes | `loaded R`, the number of rules |
//! | `post TEXT` | `posted FIRST COUNT`, tickets |
//! | `wait K` | `quiet` or `open` |
//! | `store` | `store n`, and n lines |
//! | `log F` | `log n`, and n lines, from entry F on |
//! | `quit` | `bye` |
//!
//! A fault is a reply such as `fault E05 Propagation 1`, after which the session goes on, unless the input was cut (E23).
//!
//! What is promised: the input spells the commands that are carried out and the way in which the session ends, in whatever
//! pieces it comes; the states of the desk and its replies are a run of the desk's step relation over these commands; and
//! the bytes written are the text of all replies. Where a device fails, a beginning of these bytes is written.
//!
//! A session takes memory once, before its first command ([`Rooms`]): its rooms don't grow with the length of the input.
#![tactic(auto)]

mod buffer;
mod commands;
mod desk;
mod devices;
mod failing;
pub mod laws;
mod lines;
mod memory;
mod parsing;
mod room;
mod session;
mod streams;
mod writing;

pub use commands::Ended;
pub use desk::{Command, Desk, Fault, Reply};
pub use devices::{Failed, Sink, Source};
pub use failing::Failing;
pub use memory::{MemorySink, MemorySource};
pub use session::{Rooms, ServeFault, serve, serve_in};
pub use streams::Stream;
