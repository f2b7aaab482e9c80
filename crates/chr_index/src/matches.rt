//! Going through the labels of a key.
ghost use Rattle.std.specs.Prelude.{◌≡◌, ◌<◌, ◌≤◌, ◌∷◌, [], length};
ghost use Rattle.chr_index.specs.Buckets.{IsLeastBetween};

use crate::bucket::{Bucket, Run};
use chr_value::Label;
use std::alloc::Allocator;
use std::marker::Model;

/// A label, where it is over `after` and under `below`.
#[inline(always)]
fn next_alone(only: Label, after: Label, below: Label) -> Option<Label>
    ensures { IsLeastBetween (only ∷ []) after below result }
{
    if after < only && only < below {
        Some(only)
    } else {
        None
    }
}

/// How labels are gone through.
#[derive(Drop)]
enum Walk<'s> {
    One(Label),
    Many(Run<'s>),
}

/// The labels of a key, to go through. Contracts see the list of them.
#[derive(Drop)]
pub struct Matches<'s> {
    walk: Walk<'s>,
}

impl<'s> Model for Matches<'s> {
    ghost use Rattle.std.specs.Prelude.{ℕ, List};
    ghost use Rattle.chr_index.specs.Walked.{walked_labels};

    ghost Value = { List ℕ };

    ghost view = { λ m. walked_labels m.walk };
}

impl<'s> Matches<'s> {
    /// No labels.
    #[inline(always)]
    pub fn none() -> Matches<'s>
        ensures { result ≡ [] }
    {
        Matches {
            walk: Walk::Many(Run::none()),
        }
    }

    /// One label.
    #[inline(always)]
    pub fn one(label: Label) -> Matches<'s>
        ensures { result ≡ label ∷ [] }
    {
        Matches {
            walk: Walk::One(label),
        }
    }

    /// The labels of a bucket.
    #[inline(always)]
    pub fn of<A: Allocator + Copy>(bucket: &'s Bucket<A>) -> Matches<'s>
        ensures { result ≡ bucket.now }
    {
        Matches {
            walk: Walk::Many(bucket.run()),
        }
    }

    /// An upper bound on how many there are: those that were taken out may be counted too.
    pub fn most(&self) -> usize
        ensures { length self.now ≤ result }
    {
        match &self.walk {
            Walk::One(_) => 1,
            Walk::Many(run) => run.most(),
        }
    }

    /// The least label over `after` and under `below`. It takes no search where `after` is the one found last.
    #[inline(always)]
    pub fn next_at(&mut self, after: Label, below: Label) -> Option<Label>
        ensures least { IsLeastBetween self.old after below result }
        ensures same { self.new ≡ self.old }
    {
        match &mut self.walk {
            Walk::One(only) => next_alone(*only, after, below),
            Walk::Many(run) => run.next_at(after, below),
        }
    }
}
