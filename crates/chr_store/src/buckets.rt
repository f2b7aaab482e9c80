//! The labels of each key.
ghost use Rattle.std.specs.Prelude.{◌≡◌, ℕ, ◌+◌, ◌<◌, ◌≤◌, ◌&&◌, ◌++◌, ◌∷◌, [], true, IfSome, Some, OnOk, OnErr, length, if◌then◌else◌, nat_eq};
ghost use Rattle.std.specs.List.{AllByRecursion};
ghost use Rattle.chr_value.specs.Bounds.{greatest_label};
ghost use Rattle.chr_index.specs.Buckets.{drop_number};
ghost use Rattle.chr_store.specs.KeyParts.{Key, KeyValue};
ghost use Rattle.chr_store.specs.Index.{chosen, is_pred, number_of, own_key, pred_of, same_key, same_value};
ghost use Rattle.chr_store.specs.Rows.{row_of, row_at};
ghost use Rattle.chr_store.specs.KeyLabels.{labels_in, index_at, other_labels, IsChanged};

use crate::chosen::Chosen;
use crate::keys::{Key, key_at, other_key};
use crate::rows::{Rows, row_of};
use chr_index::{Index, Matches};
use chr_value::{Atom, Label, Pred};
use std::alloc::{AllocError, Allocator};

/// The labels of each key: those of a predicate alone in a row of a table, where its name's number is low, and those of a
/// value in the index of its place.
#[derive(Drop)]
pub struct Buckets<A: Allocator> {
    pub places: Chosen<A>,
    rows: Rows<A>,
    others: Index<A>,
    indexes: Vec<Index<A>, A>,
}

impl<A: Allocator + Copy> Buckets<A> {
    /// No labels under any key, with an index for each of these places. Takes no memory.
    pub fn new(alloc: A, places: Chosen<A>) -> Buckets<A>
        ensures none { (k : Key) → labels_in result k ≡ [] }
        ensures places { result.places ≡ places }
    {
        Buckets {
            places,
            rows: Rows::new(alloc),
            others: Index::new(alloc),
            indexes: Vec::new(alloc),
        }
    }

    /// The labels of a predicate, to go through.
    #[inline(always)]
    pub fn of_pred(&self, pred: Pred) -> Matches<'_>
        ensures { result ≡ labels_in self.now (own_key pred) }
    {
        match self.rows.get(pred) {
            Some(labels) => labels.matches(),
            None => self.outside_table(pred),
        }
    }

    /// The same where the table has no row of the predicate: it has no labels, or they are in the index of predicates.
    #[inline(always)]
    fn outside_table(&self, pred: Pred) -> Matches<'_>
        requires { (row : ℕ) → row_of pred ≡ Some row → row_at self.now.rows row ≡ [] }
        ensures { result ≡ labels_in self.now (own_key pred) }
    {
        match row_of(pred) {
            None => self.others.matches(other_key(pred)),
            Some(_) => Matches::none(),
        }
    }

    /// The labels of a key of a chosen place, to go through. None where the place isn't chosen, or is 0.
    #[inline(always)]
    pub fn at_place(&self, key: &Key) -> Option<Matches<'_>>
        ensures { IfSome result (λ labels. (labels ≡ labels_in self.now key.now) × (0 < key.now.place) × (chosen self.now.places (pred_of key.now) key.now.place ≡ true)) }
    {
        let Some(number) = self.places.number(key.pred(), key.place()) else {
            return None;
        };
        match self.indexes.get(number) {
            None => Some(Matches::none()),
            Some(index) => Some(index.matches(key.in_index())),
        }
    }
}

/// Makes indexes up to the one with a number. E01 where that could not be.
fn make_index<A: Allocator + Copy>(
    indexes: &mut Vec<Index<A>, A>,
    alloc: A,
    number: usize,
) -> Result<(), AllocError>
    ensures same { (n : ℕ) (v : KeyValue) → index_at indexes.new.items n v ≡ index_at indexes.old.items n v }
    ensures made { OnOk result (number < length indexes.new.items) }
{
    while indexes.len() <= number {
        indexes.push(Index::new(alloc))?;
    }
    Ok(())
}

/// Puts a label after those of a key's value in the index with a number. E01 where that could not grow: the labels are as
/// before.
fn put_in_index<A: Allocator + Copy>(
    indexes: &mut Vec<Index<A>, A>,
    alloc: A,
    number: usize,
    key: &Key,
    label: Label,
) -> Result<(), AllocError>
    requires below { AllByRecursion (λ m. m < label) (index_at indexes.old.items number key.now.value) }
    requires fits { label ≤ greatest_label }
    ensures ok { OnOk result ((n : ℕ) (v : KeyValue) → index_at indexes.new.items n v ≡ (if nat_eq number n && same_value key.now.value v then index_at indexes.old.items number key.now.value ++ label ∷ [] else index_at indexes.old.items n v)) }
    ensures unchanged { OnErr result ((n : ℕ) (v : KeyValue) → index_at indexes.new.items n v ≡ index_at indexes.old.items n v) }
{
    make_index(indexes, alloc, number)?;
    indexes[number].put(key.in_index(), label)
}

/// Takes a label from those of a key's value in the index with a number.
fn take_from_index<A: Allocator + Copy>(
    indexes: &mut Vec<Index<A>, A>,
    number: usize,
    key: &Key,
    label: Label,
)
    ensures { (n : ℕ) (v : KeyValue) → index_at indexes.new.items n v ≡ (if nat_eq number n && same_value key.now.value v then drop_number label (index_at indexes.old.items number key.now.value) else index_at indexes.old.items n v) }
{
    if number < indexes.len() {
        indexes[number].take(key.in_index(), label);
    }
}

/// Puts a label after those of a predicate without a row. E01 where that could not be: the labels are as before.
#[inline(never)]
fn put_in_others<A: Allocator + Copy>(
    others: &mut Index<A>,
    pred: Pred,
    label: Label,
) -> Result<(), AllocError>
    requires below { AllByRecursion (λ m. m < label) (other_labels others.old pred) }
    requires fits { label ≤ greatest_label }
    ensures ok { OnOk result ((p : Pred) → other_labels others.new p ≡ (if is_pred pred p then other_labels others.old pred ++ label ∷ [] else other_labels others.old p)) }
    ensures unchanged { OnErr result ((p : Pred) → other_labels others.new p ≡ other_labels others.old p) }
{
    others.put(other_key(pred), label)
}

/// Takes a label from those of a predicate without a row.
#[inline(never)]
fn take_from_others<A: Allocator + Copy>(others: &mut Index<A>, pred: Pred, label: Label)
    ensures { (p : Pred) → other_labels others.new p ≡ (if is_pred pred p then drop_number label (other_labels others.old pred) else other_labels others.old p) }
{
    others.take(other_key(pred), label);
}

/// Puts a label after those of a predicate. E01 where they could not grow, which are then as before.
#[inline(always)]
fn put_own<A: Allocator + Copy>(
    buckets: &mut Buckets<A>,
    alloc: A,
    pred: Pred,
    label: Label,
) -> Result<(), AllocError>
    requires below { AllByRecursion (λ m. m < label) (labels_in buckets.old (own_key pred)) }
    requires fits { label ≤ greatest_label }
    ensures ok { OnOk result ((k : Key) → labels_in buckets.new k ≡ (if same_key (own_key pred) k then labels_in buckets.old (own_key pred) ++ label ∷ [] else labels_in buckets.old k)) }
    ensures unchanged { OnErr result ((k : Key) → labels_in buckets.new k ≡ labels_in buckets.old k) }
    ensures places { buckets.new.places ≡ buckets.old.places }
{
    match row_of(pred) {
        None => put_in_others(&mut buckets.others, pred, label),
        Some(row) => buckets.rows.put(alloc, row, label),
    }
}

/// Takes a label from those of a predicate. Takes no memory.
#[inline(always)]
fn take_own<A: Allocator + Copy>(buckets: &mut Buckets<A>, pred: Pred, label: Label)
    ensures labels { (k : Key) → labels_in buckets.new k ≡ (if same_key (own_key pred) k then drop_number label (labels_in buckets.old (own_key pred)) else labels_in buckets.old k) }
    ensures places { buckets.new.places ≡ buckets.old.places }
{
    match row_of(pred) {
        None => take_from_others(&mut buckets.others, pred, label),
        Some(row) => buckets.rows.take(row, label),
    }
}

/// Puts a label after those of a key of a chosen place. E01 where they could not grow, which are then as before.
fn put_at<A: Allocator + Copy>(
    buckets: &mut Buckets<A>,
    alloc: A,
    number: usize,
    key: &Key,
    label: Label,
) -> Result<(), AllocError>
    requires there { number_of buckets.old.places (pred_of key.now) key.now.place ≡ Some number }
    requires below { AllByRecursion (λ m. m < label) (labels_in buckets.old key.now) }
    requires fits { label ≤ greatest_label }
    ensures ok { OnOk result ((k : Key) → labels_in buckets.new k ≡ (if same_key key.now k then labels_in buckets.old key.now ++ label ∷ [] else labels_in buckets.old k)) }
    ensures unchanged { OnErr result ((k : Key) → labels_in buckets.new k ≡ labels_in buckets.old k) }
    ensures places { buckets.new.places ≡ buckets.old.places }
{
    put_in_index(&mut buckets.indexes, alloc, number, key, label)
}

/// Takes a label from those of a key of a chosen place. Takes no memory.
fn take_at<A: Allocator + Copy>(buckets: &mut Buckets<A>, number: usize, key: &Key, label: Label)
    requires { number_of buckets.old.places (pred_of key.now) key.now.place ≡ Some number }
    ensures labels { (k : Key) → labels_in buckets.new k ≡ (if same_key key.now k then drop_number label (labels_in buckets.old key.now) else labels_in buckets.old k) }
    ensures places { buckets.new.places ≡ buckets.old.places }
{
    take_from_index(&mut buckets.indexes, number, key, label);
}

/// Puts a label after those of each key of an atom at a chosen place. Where that could not grow, the keys of the places
/// below some place have it.
pub fn enter<A: Allocator + Copy>(
    buckets: &mut Buckets<A>,
    alloc: A,
    atom: &Atom<A>,
    label: Label,
) -> Result<(), AllocError>
    requires below { (k : Key) → AllByRecursion (λ m. m < label) (labels_in buckets.old k) }
    requires fits { label ≤ greatest_label }
    ensures ok { OnOk result (IsChanged (λ ms. ms ++ label ∷ []) buckets.old.places atom.now (length atom.now.args + 1) buckets.old buckets.new) }
    ensures part { OnErr result ((n : ℕ) × IsChanged (λ ms. ms ++ label ∷ []) buckets.old.places atom.now n buckets.old buckets.new) }
    ensures places { buckets.new.places ≡ buckets.old.places }
{
    let pred = atom.pred();
    put_own(buckets, alloc, pred, label)?;
    if !buckets.places.may_have(pred) {
        return Ok(());
    }
    let end = atom.arity() as u8 + 1;
    for place in 1..end {
        if let Some(number) = buckets.places.number(pred, place) {
            put_at(buckets, alloc, number, &key_at(atom, place), label)?;
        }
    }
    Ok(())
}

/// Takes a label from those of each key of an atom at a chosen place. Takes no memory.
pub fn leave<A: Allocator + Copy>(buckets: &mut Buckets<A>, atom: &Atom<A>, label: Label)
    ensures changed { IsChanged (drop_number label) buckets.old.places atom.now (length atom.now.args + 1) buckets.old buckets.new }
    ensures places { buckets.new.places ≡ buckets.old.places }
{
    let pred = atom.pred();
    take_own(buckets, pred, label);
    if !buckets.places.may_have(pred) {
        return;
    }
    let end = atom.arity() as u8 + 1;
    for place in 1..end {
        if let Some(number) = buckets.places.number(pred, place) {
            take_at(buckets, number, &key_at(atom, place), label);
        }
    }
}
