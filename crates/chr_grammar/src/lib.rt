//! The grammar of rule text over tokens.
//!
//! [`parse_statement`] gives the declaration or the rule that the tokens of an item are,
//! [`parse_phrases`] the atoms of a post. What they give is what is written: names and variables
//! are still bytes, numbers digits, and an expression keeps its parentheses. What names mean and which limits they keep
//! is decided in a later phase, which also refuses propagation rules: here `==>` is an arrow as `<=>` is.
//!
//! Each call answers exactly what its definition over the tokens gives, unless memory runs out. The definitions themselves
//! are proved to be the grammar, which says how each thing is written ([`laws`]): what is read is written so, and what is
//! written so is read. So tokens are one statement at most, and a fault of syntax (E04) comes exactly where they are none.
//! An expression is read at any depth up to [`MOST_DEPTH`], and none that is deeper. A term is read at any depth: its words
//! are a list, and no call of its reader calls itself.
//!
//! Each call reads its tokens a fixed number of times, so it takes time in proportion to their number.
#![tactic(auto)]

mod body;
mod declaration;
mod expression;
mod guard;
pub mod laws;
mod list;
mod parts;
mod phrase;
mod rule;
mod sign;
mod statement;
mod term;

pub use body::BodyMember;
pub use declaration::Declared;
pub use expression::{MOST_DEPTH, ParsedExpression};
pub use guard::GuardMember;
pub use phrase::{ParsedAtom, parse_phrases};
pub use rule::{Consequence, Heads, ParsedRule};
pub use statement::{Statement, parse_statement};
pub use term::{ParsedTerm, TermNode};
