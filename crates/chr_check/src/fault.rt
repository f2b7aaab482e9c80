//! What a check may find at fault.
ghost use Rattle.std.specs.Prelude.{◌≡◌};
ghost use Rattle.chr_check.specs.declared.fault.CheckError.TheVariants.{NoMemory};

use std::alloc::{AllocError, AllocFailed};
use std::fmt;
use thiserror::Error;

/// Which of the two texts a fault is in.
#[derive(Clone, Copy, Debug, PartialEq, Eq)]
pub enum Place {
    Log,
    Store,
}

impl fmt::Display for Place {
    fn fmt<W: fmt::Write>(&self, f: &mut fmt::Formatter<W>) -> fmt::Result {
        match self {
            Place::Log => write!(f, "log"),
            Place::Store => write!(f, "store"),
        }
    }
}

/// What is wrong with an event of a log or with an entry of a store.
#[derive(Clone, Copy, Debug, PartialEq, Eq, Error)]
pub enum Kind {
    /// The ticket isn't the next one, or isn't that of a plain or of a numbered goal.
    #[error("BadTicket")]
    BadTicket,
    /// The label isn't the next one, or isn't in the store.
    #[error("BadLabel")]
    BadLabel,
    /// The labels aren't an instance of the rule that has the goal's label.
    #[error("NoInstance")]
    NoInstance,
    /// The goal that is dropped may not be dropped.
    #[error("StillApplies")]
    StillApplies,
    /// The entry isn't the run's.
    #[error("StoreDiffers")]
    StoreDiffers,
}

/// E16: the log isn't a run that ends in the store.
#[derive(Clone, Copy, Debug, PartialEq, Eq, Error)]
#[error("E16 {place} {line} {kind}")]
pub struct CheckFault {
    pub place: Place,
    /// The line of the text, from 1. The first line of a log is its header.
    pub line: u64,
    pub kind: Kind,
}

/// Why a check gave no verdict.
#[derive(Clone, Copy, Debug, Error)]
pub enum CheckError {
    /// E01: a growth was refused.
    #[error("E01 NoMemory")]
    NoMemory,
    /// E16.
    #[error("{0}")]
    NotARun(CheckFault),
}

impl From<AllocError> for CheckError {
    ghost from_gives = { λ _ e. e ≡ NoMemory };

    fn from(_e: AllocError) -> CheckError {
        CheckError::NoMemory
    }
}
