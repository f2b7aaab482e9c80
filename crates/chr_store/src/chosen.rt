//! The places of predicates that an index is kept for.
ghost use Rattle.std.specs.Prelude.{◌≡◌, ◌<◌, ℕ, false, [], Some, None, IfOk, OnOk, MatchOption, if◌then◌else◌, nat_eq};
ghost use Rattle.std.specs.Option.{option_or};
ghost use Rattle.chr_store.specs.Index.{chosen, number_of};
ghost use Rattle.chr_store.specs.Marks.{IsMarkOf, IsMarked, mark_at};

use crate::rows::row_of;
use chr_value::Pred;
use std::alloc::{AllocError, Allocator};
use std::marker::Model;

/// How many marks a predicate has: one for each place, and at 0 one that tells its first place.
const PLACES: usize = 9;

/// Places of predicates, each with a number. A table of marks tells the number in one step, where the predicate's name has a
/// low one. Contracts see the list of the places.
#[derive(Drop)]
pub struct Chosen<A: Allocator> {
    places: Vec<(Pred, u8), A>,
    marks: Vec<Option<u32>, A>,
}

impl<A: Allocator> Model for Chosen<A> {
    ghost use Rattle.chr_store.specs.Index.{Places};
    ghost use Rattle.chr_store.specs.Marks.{AreMarks};

    ghost Value = { Places };

    ghost view = { λ c. c.places.items };

    ghost invariant = { λ c. AreMarks c.marks.items c.places.items };
}

/// The number of a place of a predicate. None where it is not one of these.
fn number_in(places: &[(Pred, u8)], pred: Pred, place: u8) -> Option<usize>
    requires { 0 < place }
    ensures { result ≡ number_of places.now pred place }
{
    for (number, (p, n)) in places.iter().enumerate() {
        if *p == pred && *n == place {
            return Some(number);
        }
    }
    None
}

/// The index of a place's mark. None where the table has no mark for it.
#[inline(always)]
fn mark_of(pred: Pred, place: u8) -> Option<usize>
    ensures { MatchOption result ((i : ℕ) → IsMarkOf pred place i → ⊥) (λ i. IsMarkOf pred place i) }
{
    let Some(row) = row_of(pred) else {
        return None;
    };
    let place = place as usize;
    if place >= PLACES {
        return None;
    }
    Some(row * PLACES + place)
}

/// The mark at an index, past the end none.
#[inline(always)]
fn mark_at(marks: &[Option<u32>], index: usize) -> Option<u32>
    ensures { result ≡ mark_at marks.now index }
{
    match marks.get(index) {
        None => None,
        Some(mark) => *mark,
    }
}

/// Sets the mark at an index where it is none. Marks are made up to there. E01 where that could not be.
fn set_mark<A: Allocator + Copy>(
    marks: &mut Vec<Option<u32>, A>,
    index: usize,
    number: u32,
) -> Result<(), AllocError>
    requires { index < 82944 }
    ensures { OnOk result ((i : ℕ) → mark_at marks.new.items i ≡ option_or (mark_at marks.old.items i) (if nat_eq i index then Some number else None)) }
{
    if marks.len() <= index {
        marks.resize(index + 1, None)?;
    }
    marks[index] = marks[index].or(Some(number));
    Ok(())
}

/// Sets the mark of a place of a predicate, where the table has one for it and it is none. E01 where it could not be made.
fn mark_place<A: Allocator + Copy>(
    marks: &mut Vec<Option<u32>, A>,
    pred: Pred,
    place: u8,
    number: u32,
) -> Result<(), AllocError>
    ensures { OnOk result (IsMarked pred place number marks.old.items marks.new.items) }
{
    match mark_of(pred, place) {
        None => Ok(()),
        Some(index) => set_mark(marks, index, number),
    }
}

impl<A: Allocator + Copy> Chosen<A> {
    /// No places. Takes no memory.
    pub fn new(alloc: A) -> Chosen<A>
        ensures { result ≡ [] }
    {
        Chosen {
            places: Vec::new(alloc),
            marks: Vec::new(alloc),
        }
    }

    /// These places. E01 where memory ran out.
    pub fn of(alloc: A, places: &[(Pred, u8)]) -> Result<Chosen<A>, AllocError>
        ensures { IfOk result (λ made. made ≡ places.now) }
    {
        let mut marks = Vec::new(alloc);
        for (number, (pred, place)) in places.iter().enumerate() {
            let Ok(number) = u32::try_from(number) else {
                return Err(AllocError);
            };
            mark_place(&mut marks, *pred, 0, number)?;
            mark_place(&mut marks, *pred, *place, number)?;
        }
        Ok(Chosen {
            places: Vec::from_slice(alloc, places)?,
            marks,
        })
    }

    /// The number of a place of a predicate. None where it is not one of these, and for the place 0.
    #[inline(always)]
    pub fn number(&self, pred: Pred, place: u8) -> Option<usize>
        ensures { result ≡ number_of self.now pred place }
    {
        if place == 0 {
            return None;
        }
        let Some(index) = mark_of(pred, place) else {
            return number_in(&self.places, pred, place);
        };
        match mark_at(&self.marks, index) {
            None => None,
            Some(number) => Some(number as usize),
        }
    }

    /// Whether a place of a predicate may be one of these. Where the answer is false, none is, beside the place 0.
    pub fn may_have(&self, pred: Pred) -> bool
        ensures { result ≡ false → (place : ℕ) → 0 < place → chosen self.now pred place ≡ false }
    {
        match mark_of(pred, 0) {
            None => true,
            Some(index) => mark_at(&self.marks, index).is_some(),
        }
    }

    /// A copy of the places. E01 where memory ran out.
    pub fn copy(&self, alloc: A) -> Result<Chosen<A>, AllocError>
        ensures { IfOk result (λ made. made ≡ self.now) }
    {
        Ok(Chosen {
            places: Vec::from_slice(alloc, &self.places)?,
            marks: Vec::from_slice(alloc, &self.marks)?,
        })
    }
}
