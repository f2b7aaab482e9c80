//! Join plans: the order in which the heads of a rule are tried.
//!
//! The heads of a rule are numbered from 1, kept heads in text order and then removed heads. The plan of a head begins
//! with that head. Then, until every head is named, comes the least-numbered open head that has an argument whose
//! value is known by then, with the first place of such an argument as its key; where there is none, the least-numbered
//! open head, without a key. Known are terms without variables, and the variables of the heads before; a functor with a
//! variable in it never is. So a partner with a key can be looked up by a predicate and one value. A step also tells
//! whether all other arguments of its head are variables that come up there first, each once: a partner that is found
//! by the key then fits, whatever its other values.
//!
//! [`places`](Plans::places) lists what the plans look up, so that a store can keep an index for each.
//!
//! Contracts see the plans as a list of orders for each rule, and say of each order that it is that of the definition.
//! [`laws`] has what follows: a head has one plan, it names every head, and each key is bound by the steps before.
#![tactic(auto)]

pub mod laws;
mod order;
mod places;
mod plans;

pub use order::{Order, Step};
pub use plans::Plans;
