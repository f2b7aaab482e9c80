//! Sheets: the next trials of a search, read together, judged together and reported together.
//!
//! A search gives one trial at a time, and a verdict on it moves the search on. After a misfit the trial that comes next is the
//! one that lies just after it, since no admissible trial begins with a misfit; so the trials that are to be asked for next can
//! be read ahead, up to the first that is whole. [`read`] reads them from a store, [`judge`] judges them where the store isn't at
//! hand, and [`report`] moves the search over those of them that are still the next ones there.
//!
//! Trials that have all heads and differ in their last label alone lie one after another. They are kept as a [`Row`]: their
//! rule, head and other labels once, with the last labels and their atoms. The other labels are matched once a row, and the rule
//! is compared once.
//!
//! Just before them lies the trial of the labels that they begin with: a part, since trials begin with it. Where it comes next
//! as well it is kept with them, and all are called a branch: they are looked for from the part on, both at reading and at
//! reporting.
//!
//! At rules of one head, trials of the active label alone lie one after another too. They are kept as a [`Column`]: the first of
//! them, the heads of the others by their numbers, and the program that has them, which is shared. Their atom is kept once.
//!
//! Trials are judged where they are kept: those before the first that is whole stay there as they were read. A trial that is
//! kept alone is marked where it is a misfit; a part has no mark.
//!
//! - `Rows`: rows and branches of trials.
//! - `Columns`: columns of trials.
//! - `Kept`: which trials and judgements are kept.
//! - `Settings`: what a search looks through.
//! - `Sheets`: what is read, judged and reported.
#![tactic(auto)]

mod column;
mod judging;
mod reading;
mod reporting;
mod row;
mod setting;
mod single;
mod trials;

pub use column::Column;
pub use judging::{Judgements, Watch, judge};
pub use reading::read;
pub use reporting::{Reported, report, report_next};
pub use row::Row;
pub use single::Single;
pub use trials::Trials;
