//! Pictures of runs, from the texts of rules and of a log to the text of an SVG.
//!
//! [`draw_text`] reads two texts, has [`chr_check`] replay the log, and gathers what the picture of a part of it has: a row
//! for each constraint that the part gives, and for each one in the store before the part that its firings have for a head;
//! and each of its firings. A log that is refused has the fault that the check tells. At most 2,000 entries and 10,000 rows
//! are drawn.
//!
//! Each entry of the log is a column, each row a bar from the column that activates its constraint to the first firing that
//! removes it, and each firing a line through the rows of its heads with a mark in each.
//!
//! Contracts say of a picture which rows and firings it has, by the definitions of a run, and which fault is answered where
//! there is none. That of the text gives each of its bytes, row by row and firing by firing, by the numbers of the layout.
//! How it looks is for the eye.
#![tactic(auto)]

mod drawing;
mod gathering;
mod layout;
mod picture;
mod svg;
mod text;
mod words;

pub use text::{PictureFault, Range, draw_text, watched_draw_text};
