//! Versions of a value that changes under a lock.
//!
//! Who holds the lock adds a version when the value has changed, and gives out what is known of it. What was given out stays
//! true of that version, whatever becomes of the value: so if it is the last version still, it is true of the value as it is.
//! Two versions are told apart by their numbers alone. The values themselves exist in proofs only.
//!
//! [`Versions`] stands beside the value, [`Version`] is given out, and an [`Opened`] history gets its name from the type that
//! both have as a parameter.
//!
//! - `Kept`: the rule of the history, and what its steps tell.
#![tactic(auto)]

mod versions;

pub use versions::{Naming, Opened, Version, Versions};
