//! What runs of a program that is read make can be written.
//!
//! A log's text has limits: names of at most 64 bytes, numbers of 64 bits with sign, at most 8 arguments, 256 rules, 6 labels in
//! a firing, labels of 32 bits and tickets of 64. The readers of rules and of posts keep them ([`chr_text`]), and this crate
//! says that runs do too. It has no data and no code of its own: its functions do nothing, and the contract of each is a law.
//!
//! | Law | What it says |
//! |---|---|
//! | [`what_is_read_are_rules`](laws::what_is_read_are_rules) | the rules of a text are in scope, and at most 256 |
//! | [`instances_add_what_can_be_written`](laws::instances_add_what_can_be_written) | a firing of such a rule adds only atoms that a log can hold |
//! | [`lawful_logs_can_be_written`](laws::lawful_logs_can_be_written) | so each event of a lawful log has a line, and each entry of the store |
//!
//! What is left to the caller is the length of the texts, and that no label has more than 32 bits.
#![tactic(auto)]

pub mod laws;
