//! What rules mean: the value of an expression, when a guard holds, and which atoms are an instance of a rule.
//!
//! [`value`] and [`holds`] answer under a [`Binding`] of a rule's variables. [`fit`] finds the one binding under which some
//! heads of a rule are some atoms, [`body`](body::body) the atoms that the rule then adds, and
//! [`instance`](instance::instance) decides whether a full list of atoms is an instance of a rule.
//! [`instance_under`](instance::instance_under) decides the same and gives the binding in place of the body, and
//! [`becomes_instance`](instance::becomes_instance) completes that of the heads in place. Each answers None or false only
//! where there is none.
//!
//! Heads match by structure: a variable is bound to an atom's argument or to a part of one, and a binding borrows the
//! compound values among these from the atoms. So nothing takes memory but what makes atoms, which answers E01 where
//! memory runs out.
//!
//! An argument in a body, and a side of `==` or `\==`, has no value past [`MOST_DEPTH`](chr_value::MOST_DEPTH) or
//! [`MOST_SIZE`](chr_value::MOST_SIZE). Such values are counted, and none is made to be counted or compared.
//!
//! Who tries one atom after another at a head has one binding for all of them: it notes which variables are [`Known`], and
//! returns the binding to these, and where an index found the atoms, it may bind without a comparison, by [`bind_partner`].
//!
//! A [`Settled`] is what is kept of a binding where the atoms can't be borrowed on: numbers, symbols, and where compound
//! values stand. Where there are none of these, it gives the very same binding.
//!
//! Contracts speak of valuations, which give each variable a value. A binding is the list of what its variables are bound
//! to; the valuations that extend it are those that give each bound variable its value.
#![tactic(auto)]

mod arithmetic;
mod binding;
pub mod body;
pub mod instance;
pub mod laws;
mod matching;
mod settled;
mod terms;
mod values;

pub use binding::{Binding, Known};
pub use matching::{bind_partner, fit, fit_head, fit_partner};
pub use settled::Settled;
pub use values::{holds, value};
