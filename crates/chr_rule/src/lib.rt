//! The parts of a rule.
//!
//! A rule has kept heads, removed heads, a guard and a body. Its variables are numbered from 0 in the order in which
//! they first occur: kept heads, removed heads, then the left sides of `is` in the body, each from left to right. A
//! [`Term`] without variables is a value, however deep it is; one with some is a variable or [`Open`].
//! [`Rule::new`](Rule::new) is the test that the parts keep this and the limits, and
//! [`Rule::from_parts`](Rule::from_parts) makes a rule of parts that were judged before. So a [`Rule`] always keeps
//! them: every variable that is used has a value by then. How deep an expression nests is no limit of a rule: the
//! reader of rule text keeps to 16 levels. A [`Program`] is a list of shared rules, numbered from 1, with an index that
//! tells where the heads of a predicate are.
//!
//! A rule keeps itself once more as a list of words, in Polish notation, by which [`Rule::same`](Rule::same) tells equal
//! rules in few steps. Rules with compound terms have no such list, and are compared part by part.
//!
//! Contracts see a rule as a `Simpagation ℕ` (Frühwirth's general form of a rule) over the numbers of names, without
//! where its parts lie in memory, so two rules are equal exactly where their content is.
#![tactic(auto)]

mod expression;
mod occurrences;
mod parts;
mod program;
mod rule;
mod rule_atom;
mod scope;
mod term;
mod words;

pub use expression::{BodyItem, Comparison, Expr, Operator, Relation};
pub use occurrences::HeadsFrom;
pub use program::{MOST_RULES, Program};
pub use rule::{MOST_COMPARISONS, MOST_HEADS, MOST_ITEMS, MOST_VARIABLES, Rule};
pub use rule_atom::RuleAtom;
pub use term::{Open, Term};
