//! What a picture of a part of a log has.
ghost use Rattle.std.specs.Prelude.{◌≡◌, ◌≤◌, length};
ghost use Rattle.chr_picture.specs.Pictures.{is_head, place_of, removal};

use chr_check::has_label;
use chr_log::{Label, Labels};
use chr_value::Atom;
use std::alloc::Allocator;

/// A constraint. The entries that are drawn are columns, counted from 0.
#[derive(Drop)]
pub struct Row<A: Allocator> {
    pub label: Label,
    pub atom: Atom<A>,
    /// The column that activates it. None where it was in the store before the first column.
    pub since: Option<u32>,
}

/// A firing.
#[derive(Drop)]
pub struct Firing {
    pub column: u32,
    /// The number of the rule.
    pub rule: u16,
    pub kept: Labels,
    pub removed: Labels,
}

/// Whether a label is a head of one of the firings.
pub fn is_head(firings: &[Firing], label: Label) -> bool
    ensures { result ≡ is_head firings.now label }
{
    for firing in firings {
        if has_label(firing.kept.as_slice(), label) || has_label(firing.removed.as_slice(), label) {
            return true;
        }
    }
    false
}

/// The column that removes a label. None where no firing does.
pub fn removal(firings: &[Firing], label: Label) -> Option<u32>
    ensures { result ≡ removal firings.now label }
{
    for firing in firings {
        if has_label(firing.removed.as_slice(), label) {
            return Some(firing.column);
        }
    }
    None
}

/// The place of the row of a label, which is past the last one where there is none.
pub fn place_of<A: Allocator>(rows: &[Row<A>], label: Label) -> usize
    ensures { result ≡ place_of rows.now label }
{
    for (place, row) in rows.iter().enumerate() {
        if row.label == label {
            return place;
        }
    }
    rows.len()
}

/// A picture of a part of a log.
#[derive(Drop)]
pub struct Picture<A: Allocator> {
    /// How many entries come before the part.
    pub before: u32,
    /// How many entries the part has, which are the columns.
    pub count: u32,
    /// How many entries the log has.
    pub total: u64,
    /// The constraints that the part gives, and those from before it that its firings have for heads, by rising label.
    pub rows: Vec<Row<A>, A>,
    /// The firings of the part, in order.
    pub firings: Vec<Firing, A>,
}
