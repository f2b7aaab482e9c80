//! The command line of `chr`: its commands, options and help.
//!
//! [`read`] makes of the words of a command line what they ask for. What is asked for wrongly, and help,
//! is an error of `clap` with its text and its exit code; in the text each word stands as [`Masked`] shows it. Programs other than `chr` that need the help, as the one that
//! holds it against the manual, read `--help`.
#![tactic(auto)]

mod commands;
mod masking;
mod reading;

pub use masking::Masked;
pub use reading::{Asked, Request, RunOptions, STANDARD_INPUT, VERSION, read};
