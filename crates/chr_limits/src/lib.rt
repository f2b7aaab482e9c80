//! What may not stand in an item of rule text, though the grammar has it.
//!
//! An item is judged between the grammar and the numbering: names and variables are bytes still, and numbers digits.
//! [`judge_rule`], [`judge_declaration`] and
//! [`judge_post`] answer with the first fault in this order: a rule that removes nothing (E05), a
//! number outside the range of 64 bits with sign (E06), something too long or too many (E07), a variable that is used
//! where it has no value or gets a second one (E08). Each answer is exactly the one of its definition (`rule_judged`,
//! `declaration_judged`, `post_judged`), and no call takes memory, so none fails for want of it. The laws
//! ([`laws`]) say limit by limit what was judged without a fault.
//!
//! [`int`] is the whole number that a sign and digits spell, and
//! [`int_in_range`] is it where it was judged. [`is_seen`] tells a variable
//! that was seen before from a new one, and [`meet`] adds a new one: a rule's variables are counted, and later numbered,
//! in the order in which they are first seen, and each `_` is a new one.
//!
//! Each call goes over its item a fixed number of times, looks each variable up among the 24 at most that were seen
//! before, and counts arguments in terms of 64 words at most. So it takes time in proportion to the item's length.
#![tactic(auto)]

mod judging;
pub mod laws;
mod limits;
mod number;
mod parts;
mod scope;
mod terms;
mod variables;

pub use judging::{judge_declaration, judge_post, judge_rule};
pub use number::{int, int_in_range};
pub use terms::{MOST_TERM_DEPTH, MOST_TERM_SIZE};
pub use variables::{Seen, is_seen, meet};
