//! How a constraint came to be, from the bytes of a program and of a log to the bytes shown, as lines or as a graph.
//!
//! [`explain_text`] reads the text of rules and the text of a log, has [`chr_check`] replay the log, and writes a line for
//! each cause of a label ([`chr_causes`]), by rising label:
//!
//! ```text
//! #1 gcd(9) at log 4: posted at log 2; removed at log 7 by rule 2 (program 2)
//! #2 gcd(6) at log 6: posted at log 3; removed at log 10 by rule 2 (program 2)
//! #3 gcd(3) at log 9: rule 2 (program 2) fired at log 7 on #2 \ #1, N = 6, M = 9, L = 3
//! ```
//!
//! A line has the label, its atom, the line of the log that gave the label, and where it comes from: the line of its
//! Post, or the firing by its rule, the line of the rule's first byte in the program, the line of the firing, its kept
//! and removed heads, and the values of the rule's variables by their names, in the order of the rule's text. A variable
//! `_` has no name and is left out. Where it is asked which firing removed each constraint, that is told too.
//!
//! As a graph each line is the label of a node, and an arrow leads from each head to what its firing gave.
//!
//! A log that is no run of the rules is refused, with its first fault, and a label that it doesn't give is told.
//!
//! It takes time and memory in proportion to the log and the program's text.
#![tactic(auto)]

mod atoms;
mod dot;
mod explanation;
mod headings;
mod reasons;
mod removals;
mod text;
mod writing;

pub use explanation::{Form, Question};
pub use text::{ExplainFault, explain_text, watched_explain_text};
