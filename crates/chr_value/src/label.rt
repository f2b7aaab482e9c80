//! Labels.

/// The number under which an atom is in a store, from 1.
pub type Label = u64;

/// The greatest label.
pub const GREATEST_LABEL: Label = 4_294_967_295;
