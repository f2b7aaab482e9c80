//! The labels of one key, where one alone takes no memory.
ghost use Rattle.std.specs.Prelude.{◌≡◌, ◌<◌, ◌≤◌, ◌++◌, ◌∷◌, [], OnOk, OnErr};
ghost use Rattle.std.specs.List.{AllByRecursion};
ghost use Rattle.chr_value.specs.Bounds.{greatest_label};
ghost use Rattle.chr_index.specs.Buckets.{drop_number};

use chr_index::{Bucket, Matches};
use chr_value::Label;
use std::alloc::{AllocError, Allocator};
use std::marker::Model;

/// How the labels are kept.
#[derive(Drop)]
pub(crate) enum Kept<A: Allocator> {
    None,
    One(Label),
    Many(Box<Bucket<A>, A>),
}

/// Labels that rise. They take memory from the second on. Contracts see the list of them.
#[derive(Drop)]
pub struct Labels<A: Allocator> {
    kept: Kept<A>,
}

impl<A: Allocator> Model for Labels<A> {
    ghost use Rattle.std.specs.Prelude.{ℕ, List};
    ghost use Rattle.chr_store.specs.Kept.{kept_labels};

    ghost Value = { List ℕ };

    ghost view = { λ ls. kept_labels ls.kept };
}

impl<A: Allocator + Copy> Labels<A> {
    /// No labels. Takes no memory.
    pub fn new() -> Labels<A>
        ensures { result ≡ [] }
    {
        Labels { kept: Kept::None }
    }

    /// One label more, above the others. E01 where they could not grow, and are then unchanged.
    pub fn push(&mut self, alloc: A, label: Label) -> Result<(), AllocError>
        requires below { AllByRecursion (λ m. m < label) self.old }
        requires fits { label ≤ greatest_label }
        ensures ok { OnOk result (self.new ≡ self.old ++ label ∷ []) }
        ensures unchanged { OnErr result (self.new ≡ self.old) }
    {
        match &mut self.kept {
            Kept::None => {
                self.kept = Kept::One(label);
                Ok(())
            }
            Kept::One(first) => {
                let mut bucket = Bucket::new(alloc);
                bucket.push(*first)?;
                bucket.push(label)?;
                self.kept = Kept::Many(Box::new(alloc, bucket)?);
                Ok(())
            }
            Kept::Many(bucket) => bucket.push(label),
        }
    }

    /// Takes a label out, where it is there. Takes no memory.
    pub fn remove(&mut self, label: Label)
        ensures { self.new ≡ drop_number label self.old }
    {
        match &mut self.kept {
            Kept::None => {}
            Kept::One(only) => {
                if *only == label {
                    self.kept = Kept::None;
                }
            }
            Kept::Many(bucket) => bucket.remove(label),
        }
    }

    /// The labels, to go through.
    #[inline(always)]
    pub fn matches(&self) -> Matches<'_>
        ensures { result ≡ self.now }
    {
        match &self.kept {
            Kept::None => Matches::none(),
            Kept::One(only) => Matches::one(*only),
            Kept::Many(bucket) => Matches::of(bucket),
        }
    }
}
