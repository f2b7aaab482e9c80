//! Why a constraint is there: the constraints from which a lawful log derives it.
//!
//! A label is given by an Activate entry to the goal of a ticket, and the ticket was made by an earlier entry: a Post, or
//! a Fire whose rule's body added the goal. These are the label's [`Origin`](origins::Origin).
//!
//! The causes of a label are the least set that has the label and, with each label of it whose goal a firing made, the
//! labels of all heads of that firing, kept and removed ones. [`causes`](causes::causes) gives exactly these, each once,
//! by rising label and with its origin. It takes one pass forward over the log and one backward over the labels up to
//! the asked one, since the heads of a firing were all given before what its body adds; so it costs time and memory in
//! proportion to the log.
//!
//! [`laws`] says that these are reasons: each label has one origin, all heads of a cause's firing were in the store when
//! it fired, and a cause that no firing made was posted.
#![tactic(auto)]

pub mod causes;
pub mod laws;
pub mod origins;
