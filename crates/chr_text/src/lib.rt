//! The readers of rule text and of posts.
//!
//! [`read_program`] gives the rules of a text, [`read_atoms`] the atoms of
//! posts. A text is read in phases: comments are taken out, items and tokens found, and each item is parsed by the
//! grammar; then the limits and the scope of its variables are tested, and last its names are numbered. A
//! fault is that of the first faulty item: its kind and the line of the item's first byte. After any refusal, want of memory
//! too, the table of names is as it was before the call.
//!
//! Both calls are exact: `program_of` and `posts_of` say for each table of names and each text what is read, with the
//! table after it, or the first fault, and the calls give just that unless memory runs out. A rule is first given by
//! the texts of its names, with its variables numbered in the order of its text (`rule`); then its names are numbered
//! from left to right over the table (`number_rule`). What the judges let pass is always a rule.
//!
//! A term comes as its words in text order. All of them are numbered, a functor before its arguments, and only then is the
//! term built, from the last word to the first: each word takes the terms that stand deeper behind it (`term_of_words`). So
//! no call goes as deep as a text nests, and the words of the term are those of the text ([`laws`]).
//!
//! A program and its atoms have names by their numbers in a table. [`are_rules_named`] tells whether a table has all of them,
//! so that whoever takes a program and a table from elsewhere can refuse one that doesn't fit the other. This never happens
//! with what the readers give: the table after a text that was read has all names of its rules or of its atoms. Posts leave
//! the names that a table had where they are.
#![tactic(auto)]

mod build;
mod in_order;
pub mod laws;
mod named;
mod naming;
mod posts;
mod reading;
mod terms;
mod trees;
mod variables;
mod words;

pub use named::are_rules_named;
pub use reading::{MOST_BYTES, read_atoms, read_program};
