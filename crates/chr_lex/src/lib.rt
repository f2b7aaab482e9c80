//! The lower half of reading rule text: comments, items and tokens.
//!
//! A text is read in phases. [`plain_text`] replaces its comments, by `%` to the end of the line and
//! by `/*` to the next `*/`, and marks the bytes that no text may have. [`next_item`] gives the items
//! one by one, each with the line of its first byte and whether it has its end point. [`tokens`] gives
//! the names, variables, numbers and marks of an item. The grammar above defines what they mean; the kinds of faults that
//! it finds are those of [`fault`], in the order in which they are tested.
//!
//! Each phase has an executable definition (`plain_of`, `items`, `tokens_of`), and each call answers exactly what its
//! definition gives, unless memory runs out. The definitions themselves are proved to be those of the grammar, which
//! says for each phase, in its own words, which right side belongs to which left side ([`laws`]): comments from left to
//! right, items from their first byte to their first end point with their lines, and at each place the longest token
//! that is spelled there. Each left side has one right side at most, and a fault of syntax comes exactly where there
//! is none.
//!
//! Each call reads its text once or twice over, so it takes time in proportion to the text's length.
#![tactic(auto)]

pub mod fault;
mod item;
pub mod laws;
mod mark;
mod plain;
mod token;

pub use item::{Item, next_item};
pub use mark::Mark;
pub use plain::{has_bad_byte, plain_text};
pub use token::{Token, Word, tokens};
