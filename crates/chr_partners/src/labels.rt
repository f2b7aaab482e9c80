//! Labels, some of which may have left the store.
ghost use Rattle.std.specs.Prelude.{◌≡◌, [], ℕ, filter, is_some, IsSome, OnOk};
ghost use Rattle.chr_value.specs.Stores.{atom_at};
ghost use Rattle.chr_partners.specs.Partners.{IsIn};

use crate::atoms::Atoms;
use std::alloc::{AllocError, Allocator};
use std::marker::Model;

/// Holds labels, some of which may have left the store. Contracts see the list of them.
#[derive(Drop)]
pub struct Labels<A: Allocator> {
    labels: Vec<u32, A>,
    /// How many of them have left since those without atoms went.
    left: usize,
}

impl<A: Allocator> Model for Labels<A> {
    ghost use Rattle.std.specs.Prelude.{ℕ, List};

    ghost Value = { List ℕ };

    ghost view = { λ h. h.labels.items };
}

/// Takes the labels out that have no atom.
fn keep_live<A: Allocator + Copy>(labels: &mut Vec<u32, A>, atoms: &Atoms<A>)
    ensures { labels.new.items ≡ filter (λ l. is_some (atom_at atoms.now.store l)) labels.old.items }
{
    labels.retain(|label| atoms.has(u64::from(*label)));
}

impl<A: Allocator + Copy> Labels<A> {
    /// Makes an empty list. Takes no memory.
    pub fn new(alloc: A) -> Labels<A>
        ensures { result ≡ [] }
    {
        Labels {
            labels: Vec::new(alloc),
            left: 0,
        }
    }

    /// Gives the labels.
    #[inline(always)]
    pub fn as_slice(&self) -> &[u32]
        ensures { result.now ≡ self.now }
    {
        &self.labels
    }

    /// Adds a label. An `Err` is E01, and nothing has changed.
    #[tactic(auto, using(crate::proofs::Listing::in_front, crate::proofs::Listing::in_last))]
    pub fn put(&mut self, label: u32) -> Result<(), AllocError>
        ensures put { OnOk result (IsIn label self.new) }
        ensures all { (l : ℕ) → IsIn l self.old → IsIn l self.new }
    {
        self.labels.push(label)?;
        Ok(())
    }

    /// Counts a label that has left. Where more than half have, takes those out that have no atom, and tells how many.
    pub fn count_left(&mut self, atoms: &Atoms<A>) -> usize
        ensures { (l : ℕ) → IsIn l self.old → IsSome (atom_at atoms.now.store l) → IsIn l self.new }
    {
        self.left = self.left.saturating_add(1);
        let before = self.labels.len();
        if self.left <= before / 2 {
            return 0;
        }
        keep_live(&mut self.labels, atoms);
        self.left = 0;
        before.saturating_sub(self.labels.len())
    }
}
