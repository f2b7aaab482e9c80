//! Lists of labels at the homes of keys.
ghost use Rattle.std.specs.Prelude.{◌≡◌, ◌<◌, ◌%◌, [], false, length, IfOk, OnOk};
ghost use Rattle.chr_partners.specs.Partners.{IsIn};
ghost use Rattle.chr_partners.specs.Homes.{labels_at, HasAll, HasLive};

use crate::atoms::Atoms;
use crate::labels::Labels;
use std::alloc::{AllocError, Allocator};
use std::marker::Model;

/// Gives the home of a hash, of so many.
#[inline(always)]
fn home_of(hash: u64, count: usize) -> usize
    requires { 0 < count }
    ensures { result ≡ hash % count }
{
    (hash % count as u64) as usize
}

/// Holds the labels at each home of keys. Contracts see the lists of them.
#[derive(Drop)]
pub struct Homes<A: Allocator> {
    homes: Vec<Labels<A>, A>,
    /// How many labels there are in all lists.
    labels: usize,
}

impl<A: Allocator> Model for Homes<A> {
    ghost use Rattle.std.specs.Prelude.{ℕ, List};

    ghost Value = { List (List ℕ) };

    ghost view = { λ h. h.homes.items };
}

impl<A: Allocator + Copy> Homes<A> {
    /// Makes no homes. Takes no memory.
    pub fn none(alloc: A) -> Homes<A>
        ensures { result ≡ [] }
    {
        Homes {
            homes: Vec::new(alloc),
            labels: 0,
        }
    }

    /// Makes so many homes without labels. An `Err` is E01.
    pub fn with_count(alloc: A, count: usize) -> Result<Homes<A>, AllocError>
        ensures { IfOk result (λ homes. length homes ≡ count) }
    {
        let mut homes = Vec::with_capacity(alloc, count)?;
        for _ in 0..count {
            homes.push(Labels::new(alloc))?;
        }
        Ok(Homes { homes, labels: 0 })
    }

    /// Counts the homes.
    pub fn count(&self) -> usize
        ensures { result ≡ length self.now }
    {
        self.homes.len()
    }

    /// Tells whether there are as many labels as homes, or more.
    pub fn are_full(&self) -> bool
        ensures { result ≡ false → 0 < length self.now }
    {
        self.homes.len() <= self.labels
    }

    /// Gives the labels at the home of a hash.
    #[inline(always)]
    pub fn labels_at(&self, hash: u64) -> &[u32]
        ensures { result.now ≡ labels_at self.now hash }
    {
        if self.homes.is_empty() {
            return &[];
        }
        self.homes[home_of(hash, self.homes.len())].as_slice()
    }

    /// Adds a label at the home of a hash. An `Err` is E01, and nothing has changed.
    pub fn put(&mut self, hash: u64, label: u32) -> Result<(), AllocError>
        requires { 0 < length self.old }
        ensures put { OnOk result (IsIn label (labels_at self.new hash)) }
        ensures all { HasAll self.old self.new }
        ensures count { length self.new ≡ length self.old }
    {
        let index = home_of(hash, self.homes.len());
        self.homes[index].put(label)?;
        self.labels = self.labels.saturating_add(1);
        Ok(())
    }

    /// Counts a label that has left at the home of a hash. Labels without atoms may go there.
    pub fn count_left(&mut self, hash: u64, atoms: &Atoms<A>)
        ensures live { HasLive atoms.now.store self.old self.new }
        ensures count { length self.new ≡ length self.old }
    {
        if self.homes.is_empty() {
            return;
        }
        let index = home_of(hash, self.homes.len());
        let fewer = self.homes[index].count_left(atoms);
        self.labels = self.labels.saturating_sub(fewer);
    }
}
