//! Names, values and atoms: what constraints are made of.
//!
//! - A [`Names`] table numbers texts from 0 without gaps, at most 65,536 of at most 64 bytes. A name keeps
//!   its number. After a refusal the table is as before, and `truncate` takes back the names from a number on.
//! - A [`Value`] is a whole number of 64 bits, a symbol, which is a name, or a compound value: a functor, which is a
//!   name, with one to eight values for arguments ([`Arguments`]). A number or a symbol has depth 1 and size 1. A compound value is one deeper than
//!   its deepest argument, and one larger than its arguments together.
//! - An [`Atom`] is a predicate's name with at most eight values, each at most 8 deep and 64 large: a constraint without
//!   variables. Two atoms are the same where predicate and arguments are.
//! - A [`ValueRef`] is a value that lies elsewhere, as in an atom: a number, a symbol or a reference to a compound value.
//!   It is `Copy`, and whoever reads values works with it.
//! - A [`Label`] is the number of an atom in a store.
//! - [`write_value`] gives a value's text: a functor's name, then its arguments by commas in brackets. [`write_atom`]
//!   gives an atom's in the same way.
//! - A [`TextAtom`] is an atom as a text has it, whose names are borrowed from that text, and
//!   [`number_atom`] makes an atom of it.
//!
//! An atom's first three arguments lie in the atom itself. Those from the fourth on, and the compound values of all, lie
//! in a box beside it, which takes no memory where there are none. So an atom of at most three numbers and symbols is made
//! and copied without memory.
//!
//! Contracts see a table as the list of its texts, a value as a `Value ℕ` and an atom as an `Atom ℕ`, both over the
//! numbers of names, and values and atoms of a text as the same over texts. Which bytes are a name, which names are
//! reserved, and which values and atoms have a text, is defined in `specs/Spelling` for the texts of rules and of logs
//! alike.
//!
//! What is promised:
//!
//! - `intern` answers a text's place in the table, where a new text goes last; it is refused as full exactly where the
//!   text is new and the table has 65,536 names. `find` and `text` are exact, and no text is there twice.
//! - `ValueRef::same` and `Atom::same` are true exactly where the contracts' values and atoms are equal. A copy is equal
//!   to what it was made of.
//! - `left` counts depth and size exactly, without building anything, and each argument of an atom is within the limits.
//! - `write_value` and `write_atom` write exactly the bytes of the spelling, and `number_atom` gives exactly what numbering
//!   the names from left to right gives, a functor's before those of its arguments: by the texts of the table after it, it
//!   is the text's atom. It is refused as full exactly where the table is then full and lacks one of its names. An atom
//!   that was written by a table is read by it as the same atom, and the table is unchanged.
//!
//! Memory is taken by `Names::intern`, `Names::copy`, `Atom::push`, each copy of a compound value and of an atom that has
//! something beside it, and by the calls of [`naming`] and [`writing`], and by no other call. Whether a call that may take
//! memory gets it, no contract says.
#![tactic(auto)]

mod atom;
mod beside;
mod compound;
mod label;
mod names;
mod naming;
mod slots;
mod text_atom;
mod value;
mod writing;

pub use atom::{Atom, MOST_ARGS, OWN_ARGS, Pred};
pub use compound::Arguments;
pub use label::{GREATEST_LABEL, Label};
pub use names::{MOST_NAME_BYTES, MOST_NAMES, Name, Names, NamesFault};
pub use naming::{name_number, number_atom};
pub use text_atom::{TextAtom, TextComp, TextValue};
pub use value::{Comp, MOST_DEPTH, MOST_SIZE, Value, ValueRef};
pub use writing::{put_number, write_atom, write_value};
