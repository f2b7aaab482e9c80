//! Seats, and what each has made of a book.
//!
//! Who makes entries in the log of a book has a [`Seat`]: a number from 1 to 32, and the counts of the posts and
//! of the other entries that this seat has made. Workers have the seats 1 to 16, sessions the seats 17 to 32, and each exists
//! once.
//!
//! [`Kept`] is a book, or none yet, beside what each seat has made of it. A seat makes each call of the book by
//! [`hold`](Kept::hold), whose contract is the line of that call in `chr_calls`. Before the call the book has the
//! headline of `chr_calls`, and the seat's counts are what it has made in the log, and after it again. Of the book that a seat
//! reads these hold too. A seat with other counts than those that are kept for its number makes no call (E26), nor does one
//! where no book is there (E24).
//!
//! What searches look through changes with the log alone. So a book has versions, one for each length of its log at which trials
//! are given; trials that come next in a version come next still while that is the last one, and are reported without being
//! looked for again.
//!
//! By two ledgers of which each seat has a share, no count rises without its entry: who has all 32 seats knows that their
//! counts add up to the entries of the log ([`audit`](Kept::audit)).
#![tactic(auto)]

mod answers;
mod calls;
mod counts;
mod kept;
mod known;
mod seat;
mod seating;
mod tally;

pub use answers::HoldFault;
pub use calls::{
    AskSheet, Call, Claim, ClaimSheet, DropGoal, Fire, PostText, PutDown, ReportAll, ReportSheet,
};
pub use counts::Counts;
pub use kept::Kept;
pub use known::{Given, Known, KnownJudgements, KnownTrials, Taken};
pub use seat::{Blanks, PostLedger, SEATS, SESSION_SEATS, Seat, Seats, WORKER_SEATS};
