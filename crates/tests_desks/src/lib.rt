//! Tests of sessions that share a book.
//!
//! Each reply of a desk on a shared book, and what it adds to the counts of the desk's seat, is proved. The tests show what
//! no clause says: that a desk's posts are the atoms that its client named, that another desk finds them at once, which
//! tickets the workers' pool gets, and that a wait ends where no worker is awake; that of sixteen sessions which load at once
//! one is told `loaded`, and posts run under its rules; that sessions beside workers, at desks and over memory, find what they
//! posted; that a rack lends sixteen places and no seventeenth; and that a lock, a rack and a desk answer E01 exactly where a
//! request for memory is refused, and work on afterwards.
//!
//! `desk_posts_other_atoms` has the name of a wrong body that it refuses and no proof can.
#![tactic(auto)]

#[cfg(test)]
mod tests;
