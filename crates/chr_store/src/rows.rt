//! The rows that predicates have in tables, which are found without a hash.
ghost use Rattle.std.specs.Prelude.{◌≡◌, ℕ, ◌<◌, ◌≤◌, ◌++◌, ◌∷◌, [], IfSome, MatchOption, Some, OnOk, OnErr, length, if◌then◌else◌, nat_eq};
ghost use Rattle.std.specs.List.{AllByRecursion};
ghost use Rattle.chr_value.specs.Bounds.{greatest_label};
ghost use Rattle.chr_index.specs.Buckets.{drop_number};
ghost use Rattle.chr_store.specs.Rows.{most_rows, place_of, row_at, row_of};

use crate::labels::Labels;
use chr_value::{Label, Pred};
use std::alloc::{AllocError, Allocator};
use std::marker::Model;

/// How many names have rows: those with the lowest numbers. A table has no more rows than this many times [`ARITIES`].
const NAMES: u32 = 1024;

/// How many rows a name has, one for each number of arguments that an atom may have.
const ARITIES: usize = 9;

/// The row that a predicate would have if the names of all numbers had rows.
#[inline(always)]
fn place_of(pred: Pred) -> Option<usize>
    ensures { result ≡ place_of pred }
{
    let arity = pred.arity as usize;
    if arity < ARITIES {
        Some(pred.name.number as usize * ARITIES + arity)
    } else {
        None
    }
}

/// The row of a predicate. None where its name's number is not low.
#[inline(always)]
pub fn row_of(pred: Pred) -> Option<usize>
    ensures row { result ≡ row_of pred }
    ensures within { IfSome result (λ row. row < most_rows) }
{
    if pred.name.number < NAMES {
        place_of(pred)
    } else {
        None
    }
}

/// The labels of predicates that have rows. Contracts see the list of those of each row.
#[derive(Drop)]
pub struct Rows<A: Allocator> {
    rows: Vec<Labels<A>, A>,
}

impl<A: Allocator> Model for Rows<A> {
    ghost use Rattle.std.specs.Prelude.{ℕ, ◌≤◌, List, length};
    ghost use Rattle.chr_store.specs.Rows.{most_rows};

    ghost Value = { List (List ℕ) };

    ghost view = { λ r. r.rows.items };

    ghost invariant = { λ r. length r.rows.items ≤ most_rows };
}

/// Makes the rows of a table up to one. E01 where that could not be.
fn make_row<A: Allocator + Copy>(rows: &mut Vec<Labels<A>, A>, row: usize) -> Result<(), AllocError>
    requires within { row < most_rows }
    requires few { length rows.old.items ≤ most_rows }
    ensures same { (i : ℕ) → row_at rows.new.items i ≡ row_at rows.old.items i }
    ensures made { OnOk result (row < length rows.new.items) }
    ensures few { length rows.new.items ≤ most_rows }
{
    while rows.len() <= row {
        rows.push(Labels::new())?;
    }
    Ok(())
}

impl<A: Allocator + Copy> Rows<A> {
    /// No rows. Takes no memory.
    pub fn new(alloc: A) -> Rows<A>
        ensures { result ≡ [] }
    {
        Rows {
            rows: Vec::new(alloc),
        }
    }

    /// The labels of a predicate. None where it has no row, or has no labels there. There are no rows past those of the low
    /// names, so the name's number is not looked at.
    #[inline(always)]
    pub fn get(&self, pred: Pred) -> Option<&Labels<A>>
        ensures { MatchOption result ((row : ℕ) → row_of pred ≡ Some row → row_at self.now row ≡ []) (λ labels. (row : ℕ) × (row_of pred ≡ Some row) × (labels.now ≡ row_at self.now row)) }
    {
        self.rows.get(place_of(pred)?)
    }

    /// Puts a label after those of a row. E01 where that could not grow: the labels are as before.
    pub fn put(&mut self, alloc: A, row: usize, label: Label) -> Result<(), AllocError>
        requires within { row < most_rows }
        requires below { AllByRecursion (λ m. m < label) (row_at self.old row) }
        requires fits { label ≤ greatest_label }
        ensures ok { OnOk result ((i : ℕ) → row_at self.new i ≡ (if nat_eq row i then row_at self.old row ++ label ∷ [] else row_at self.old i)) }
        ensures unchanged { OnErr result ((i : ℕ) → row_at self.new i ≡ row_at self.old i) }
    {
        make_row(&mut self.rows, row)?;
        self.rows[row].push(alloc, label)
    }

    /// Takes a label from those of a row.
    pub fn take(&mut self, row: usize, label: Label)
        ensures { (i : ℕ) → row_at self.new i ≡ (if nat_eq row i then drop_number label (row_at self.old row) else row_at self.old i) }
    {
        if row < self.rows.len() {
            self.rows[row].remove(label);
        }
    }
}
