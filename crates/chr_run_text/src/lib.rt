//! A whole run: from the texts of a program and of posts to the text of what became of them.
//!
//! [`run_texts`] posts the atoms of any number of texts, one text after another, and gives the run, which
//! is then [shown](Ran::shown) in as many ways as are wanted, the last of which may [let it go](Ran::into_shown).
//! [`run_text`] is that of one text of posts, shown in one way.
//!
//! A run reads all texts with one table of names, opens a book, posts all atoms in order, and lets one seat make calls until
//! no ticket is open, or as many as are asked for: each is for the least open ticket, which is claimed, searched trial by
//! trial, fired where a trial is whole, and dropped once no trial is left.
//!
//! A whole run promises: the rules and atoms that the texts say, or the fault of the first text that has one; that the book
//! is the one after the posts and a solo run of so many calls, and so has the headline; that it is called quiet exactly
//! where no ticket is open, and that no rule applies to the store then; and each byte of what is shown of it: all, the
//! store, the log, or the strict log. It promises nothing where memory ran out (E01).
#![tactic(auto)]

mod output;
mod ran;
mod running;

pub use output::Show;
pub use ran::Ran;
pub use running::{
    RunFault, RunOut, RunTextsFault, run_text, run_texts, watched_run, watched_run_texts,
};
