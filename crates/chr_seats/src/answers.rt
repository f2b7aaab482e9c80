//! What holds answer.

/// Why a hold made no call.
#[derive(Clone, Copy, Debug, PartialEq, Eq)]
pub enum HoldFault {
    /// E26: the seat's counts aren't those that the lock keeps for its number.
    WrongSeat,
    /// E24: no book is there. The seat has made nothing.
    NoBook,
}
