//! Why a text could not be read.

ghost use Rattle.std.specs.Prelude.{◌≡◌};
ghost use Rattle.chr_lex.specs.declared.fault.ItemError.TheVariants.{Memory};
ghost use Rattle.chr_lex.specs.declared.fault.ReadError.TheVariants.{Memory as NoMemory};

use std::alloc::{AllocError, AllocFailed};
use thiserror::Error;

/// What is wrong with an item, in the order in which it is tested.
#[derive(Clone, Copy, Debug, PartialEq, Eq, Error)]
pub enum Kind {
    /// The whole text is longer than its limit.
    #[error("E09 TooLong")]
    TooLong,
    /// A byte outside of comments is neither layout nor printable ASCII.
    #[error("E03 BadByte")]
    BadByte,
    /// The item has no end point, or bytes that are no token, or tokens that the grammar does not have.
    #[error("E04 Syntax")]
    Syntax,
    /// The item is a propagation rule.
    #[error("E05 Propagation")]
    Propagation,
    /// A number is outside the range of 64 bits with sign.
    #[error("E06 NumberRange")]
    NumberRange,
    /// The item passes a limit, as on heads, arguments or the length of a name.
    #[error("E07 TooMany")]
    TooMany,
    /// A variable is used where it has no value, or gets a second one.
    #[error("E08 Binding")]
    Binding,
    /// The table of names is full.
    #[error("E02 NamesFull")]
    NamesFull,
}

/// Why an item could not be read.
#[derive(Clone, Copy, Debug)]
pub enum ItemError {
    /// Memory ran out (E01).
    Memory,
    Fault(Kind),
}

impl From<AllocError> for ItemError {
    ghost from_gives = { λ _ e. e ≡ Memory };

    fn from(_e: AllocError) -> ItemError {
        ItemError::Memory
    }
}

impl<T: Drop> From<AllocFailed<T>> for ItemError {
    ghost from_gives = { λ _ e. e ≡ Memory };

    fn from(_e: AllocFailed<T>) -> ItemError {
        ItemError::Memory
    }
}

/// What is wrong with a text. It is written as its kind alone, since the caller decides where the line goes.
#[derive(Clone, Copy, Debug, PartialEq, Eq, Error)]
#[error("{kind}")]
pub struct ReadFault {
    pub kind: Kind,
    /// The line of the first byte of the first item that is wrong, from 1, or 0 for the whole text.
    pub line: u32,
}

/// Why a text could not be read.
#[derive(Clone, Copy, Debug, Error)]
pub enum ReadError {
    /// Memory ran out.
    #[error("E01 NoMemory")]
    Memory,
    #[error("{0}")]
    Fault(ReadFault),
}

impl From<AllocError> for ReadError {
    ghost from_gives = { λ _ e. e ≡ NoMemory };

    fn from(_e: AllocError) -> ReadError {
        ReadError::Memory
    }
}

impl<T: Drop> From<AllocFailed<T>> for ReadError {
    ghost from_gives = { λ _ e. e ≡ NoMemory };

    fn from(_e: AllocFailed<T>) -> ReadError {
        ReadError::Memory
    }
}
