//! The check of a log, from the bytes of three texts to the bytes printed.
//!
//! [`check_text`] reads the text of rules, the text of a log and the text of a store, in this
//! order and with one table of names, and has [`chr_check`] replay the log by the version that its header names. What
//! it gives is one line:
//!
//! | Line | Where |
//! |---|---|
//! | `run final` | the log is a run of the rules that ends in the store, no goal is open, and no rule applies to the store |
//! | `run` | the log is a run that ends in the store, and a goal is open |
//! | `refused E16 log 14 BadTicket` | it is no such run; the first fault stands in this line of this text, the log or the store |
//!
//! [`check_parts`] takes the log in parts, each with the limit on length of one text, and checks the
//! one log that they make.
//!
//! Where a text can't be read nothing is checked, and the fault of the first such text is told. The contract says of
//! each answer exactly where it comes, by the definitions of the readers and of the check, and each byte of the line.
//! It says nothing where memory ran out (E01).
#![tactic(auto)]

mod checked;
mod writing;

pub use checked::{
    CheckPartsFault, CheckTextFault, Checked, check_parts, check_text, watched_check_parts,
    watched_check_text,
};
