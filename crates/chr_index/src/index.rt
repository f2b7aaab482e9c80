//! The labels under the keys of one place.
ghost use Rattle.std.specs.Prelude.{◌≡◌, ◌≤◌, ◌<◌, ◌++◌, ◌∷◌, ℕ, [], false, Some, None, IfOk, OnOk, OnErr, IsTrue, if◌then◌else◌};
ghost use Rattle.std.specs.List.{AllByRecursion};
ghost use Rattle.slab.specs.Slab.{get, ContainsKey, Updates, SameValues};
ghost use Rattle.chr_value.specs.Bounds.{greatest_label};
ghost use Rattle.chr_index.specs.Buckets.{drop_number};
ghost use Rattle.chr_index.specs.Chains.{same_key};
ghost use Rattle.chr_index.specs.Indexed.{bucket_labels, labels_of};

use crate::bucket::Bucket;
use crate::matches::Matches;
use crate::table::{Key, Link, Table};
use chr_value::Label;
use slab::Slab;
use std::alloc::{AllocError, Allocator};
use std::marker::Model;

/// Rising labels under keys. Contracts see the table of the keys, and the labels in each bucket.
#[derive(Drop)]
pub struct Index<A: Allocator> {
    table: Table<A>,
    buckets: Slab<Bucket<A>, A>,
    alloc: A,
}

impl<A: Allocator> Model for Index<A> {
    ghost use Rattle.chr_index.specs.Indexed.{Indexed, IsIndex};

    ghost Value = { Indexed };

    ghost view = { λ i. record { table = i.table; buckets = i.buckets } };

    ghost invariant = { λ i. IsIndex i.table i.buckets };
}

/// Puts two labels into a new bucket, and tells its number. E01 where memory or the numbers ran out.
fn pair<A: Allocator + Copy>(
    buckets: &mut Slab<Bucket<A>, A>,
    alloc: A,
    first: Label,
    second: Label,
) -> Result<u32, AllocError>
    requires rising { first < second }
    requires fits { second ≤ greatest_label }
    ensures vacant { IfOk result (λ n. get buckets.old n ≡ None) }
    ensures ok { IfOk result (λ n. Updates buckets.old buckets.new n (Some (first ∷ second ∷ []))) }
    ensures unchanged { OnErr result (SameValues buckets.old buckets.new) }
{
    let Ok(number) = u32::try_from(buckets.vacant_key()) else {
        return Err(AllocError);
    };
    let mut bucket = Bucket::new(alloc);
    bucket.push(first)?;
    bucket.push(second)?;
    let Ok(_) = buckets.insert(bucket) else {
        return Err(AllocError);
    };
    Ok(number)
}

/// Puts a label after those of a bucket. E01 where it could not grow.
fn push_label<A: Allocator + Copy>(
    buckets: &mut Slab<Bucket<A>, A>,
    number: u32,
    label: Label,
) -> Result<(), AllocError>
    requires there { ContainsKey buckets.old number }
    requires below { AllByRecursion (λ m. m < label) (bucket_labels buckets.old number) }
    requires fits { label ≤ greatest_label }
    ensures ok { OnOk result (Updates buckets.old buckets.new number (Some (bucket_labels buckets.old number ++ label ∷ []))) }
    ensures unchanged { OnErr result (SameValues buckets.old buckets.new) }
{
    buckets[number as usize].push(label)
}

/// Takes a label out of a bucket, which goes with its last one. Tells whether it has gone.
fn take_label<A: Allocator + Copy>(
    buckets: &mut Slab<Bucket<A>, A>,
    number: u32,
    label: Label,
) -> bool
    requires { ContainsKey buckets.old number }
    ensures gone { IsTrue result → Updates buckets.old buckets.new number None }
    ensures none { IsTrue result → drop_number label (bucket_labels buckets.old number) ≡ [] }
    ensures kept { result ≡ false → Updates buckets.old buckets.new number (Some (drop_number label (bucket_labels buckets.old number))) }
{
    let bucket = &mut buckets[number as usize];
    bucket.remove(label);
    if !bucket.has_no_slots() {
        return false;
    }
    let _ = buckets.remove(number as usize);
    true
}

impl<A: Allocator + Copy> Index<A> {
    /// No labels under any key. Takes no memory.
    pub fn new(alloc: A) -> Index<A>
        ensures { (k : Key) → labels_of result k ≡ [] }
    {
        Index {
            table: Table::new(alloc),
            buckets: Slab::new(alloc),
            alloc,
        }
    }

    /// Puts a label after those of a key. E01 where memory ran out: the labels of each key are as before.
    pub fn put(&mut self, key: Key, label: Label) -> Result<(), AllocError>
        requires below { AllByRecursion (λ m. m < label) (labels_of self.old key) }
        requires fits { label ≤ greatest_label }
        ensures ok { OnOk result ((k : Key) → labels_of self.new k ≡ (if same_key key k then labels_of self.old key ++ label ∷ [] else labels_of self.old k)) }
        ensures unchanged { OnErr result ((k : Key) → labels_of self.new k ≡ labels_of self.old k) }
    {
        let place = self.table.place(key);
        match self.table.link_at(place) {
            Link::Nowhere => {
                self.table
                    .set(self.alloc, place, key, Link::Alone(label as u32))
            }
            Link::Alone(first) => {
                let number = pair(&mut self.buckets, self.alloc, u64::from(first), label)?;
                self.table.write(place, key, Link::Bucket(number));
                Ok(())
            }
            Link::Bucket(number) => push_label(&mut self.buckets, number, label),
        }
    }

    /// Takes a label from those of a key, where it is there. Takes no memory.
    pub fn take(&mut self, key: Key, label: Label)
        ensures { (k : Key) → labels_of self.new k ≡ (if same_key key k then drop_number label (labels_of self.old key) else labels_of self.old k) }
    {
        let place = self.table.place(key);
        match self.table.link_at(place) {
            Link::Nowhere => {}
            Link::Alone(only) => {
                if u64::from(only) == label {
                    self.table.write(place, key, Link::Nowhere);
                }
            }
            Link::Bucket(number) => {
                if take_label(&mut self.buckets, number, label) {
                    self.table.write(place, key, Link::Nowhere);
                }
            }
        }
    }

    /// The labels of a key, to go through.
    #[inline(always)]
    pub fn matches(&self, key: Key) -> Matches<'_>
        ensures { result ≡ labels_of self.now key }
    {
        match self.table.link_at(self.table.place(key)) {
            Link::Nowhere => Matches::none(),
            Link::Alone(only) => Matches::one(u64::from(only)),
            Link::Bucket(number) => match self.buckets.get(number as usize) {
                None => Matches::none(),
                Some(bucket) => Matches::of(bucket),
            },
        }
    }
}
