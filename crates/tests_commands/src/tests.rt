//! A module for each command, for the command line, and for what is said.
mod check;
mod command_line;
mod ends;
mod explain;
mod message;
mod outputs;
mod picture;
mod progress;
mod run;
mod session;
mod stage;
