//! A module for each kind of text, and for the calls that take memory.
mod allocator;
mod lexer;
mod logs;
mod programs;
mod refusals;
mod refused_logs;
mod refused_names;
mod refused_texts;
