//! Where a picture's parts are, in pixels, and the colours of predicates.
ghost use Rattle.std.specs.Prelude.{◌≡◌, ◌+◌, ◌≤◌};
ghost use Rattle.chr_picture.specs.Layouts.{step_of, every_of, x_of, y_of, begin_of, end_of, entry_at, pair_of, pairs_of, index_of, colour};

use crate::words::Words;
use chr_value::Pred;
use std::alloc::Allocator;

/// The height of a row.
pub const ROW_HEIGHT: u64 = 16;

/// The most rows of a picture.
pub const MOST_ROWS: usize = 10_000;

/// The last place that a row, or a line below the rows, may have.
pub const MOST_PLACES: u64 = 30_000;

/// So many letters of a label and its atom have room.
pub const MOST_LETTERS: usize = 640;

/// Where the columns are.
#[derive(Clone, Copy)]
pub struct Layout {
    /// Where they begin.
    pub left: u16,
    /// How wide each is.
    pub step: u8,
    /// How many there are.
    pub count: u32,
    /// How many entries of the log come before the first of them.
    pub before: u32,
}

/// How wide a column is, by how many there are.
pub fn step_of(count: u32) -> u8
    ensures { result ≡ step_of count }
{
    if count < 41 {
        24
    } else if count < 101 {
        10
    } else if count < 161 {
        7
    } else {
        4
    }
}

/// Of how many entries one has its number below the rows.
pub fn every_of(count: u32) -> u64
    ensures { result ≡ every_of count }
{
    if count < 41 { 1 } else { 10 }
}

/// The middle of a row, by its place.
pub fn y_of(place: usize) -> u64
    ensures y { result ≡ y_of place }
    ensures bounds { (20 ≤ result) × (result ≤ 480_020) }
{
    20 + ROW_HEIGHT * (place as u64).min(MOST_PLACES)
}

impl Layout {
    /// The middle of a column.
    pub fn x_of(&self, column: u32) -> u64
        ensures { result ≡ x_of self.now column }
    {
        u64::from(self.left) + (u64::from(column) + 1) * u64::from(self.step)
    }

    /// So far to the right of where the columns begin.
    pub fn inset(&self, by: u8) -> u64
        ensures { result ≡ self.now.left + by }
    {
        u64::from(self.left) + u64::from(by)
    }

    /// Where the bar of a constraint begins, by the column that gives it.
    pub fn begin_of(&self, since: Option<u32>) -> u64
        ensures { result ≡ begin_of self.now since }
    {
        match since {
            Some(column) => self.x_of(column),
            None => u64::from(self.left),
        }
    }

    /// Where the bar of a constraint ends, by the column that removes it.
    pub fn end_of(&self, until: Option<u32>) -> u64
        ensures { result ≡ end_of self.now until }
    {
        match until {
            Some(column) => self.x_of(column),
            None => self.x_of(self.count),
        }
    }

    /// The number of a column's entry in the log, from 1.
    pub fn entry_at(&self, column: u32) -> u64
        ensures { result ≡ entry_at self.now column }
    {
        u64::from(self.before) + u64::from(column) + 1
    }

    /// The number of the last column's entry in the log; that of the one before where there is no column.
    pub fn last_entry(&self) -> u64
        ensures { result ≡ self.now.before + self.now.count }
    {
        u64::from(self.before) + u64::from(self.count)
    }
}

/// The place of a predicate among others, which is past the last one where it isn't among them.
pub fn index_of(preds: &[Pred], pred: Pred) -> usize
    ensures { result ≡ index_of (pairs_of preds.now) (pair_of pred) }
{
    for (place, other) in preds.iter().enumerate() {
        if other.name.number == pred.name.number && other.arity == pred.arity {
            return place;
        }
    }
    preds.len()
}

/// A colour, by its number below 8.
#[tactic(auto, unfolding(crate::specs::Layouts::colour))]
pub fn colour(number: usize) -> Words
    ensures { result ≡ colour number }
{
    match number {
        0 => Words::Blue,
        1 => Words::Orange,
        2 => Words::Green,
        3 => Words::Pink,
        4 => Words::Sky,
        5 => Words::Vermilion,
        6 => Words::Olive,
        _ => Words::Grey,
    }
}
