//! The partners of a numbered goal that is to be dropped.
ghost use Rattle.std.specs.Prelude.{◌≡◌};
ghost use Rattle.chr_check.specs.Replays.{IsKept};

use crate::replay::Replay;
use chr_enumeration::Partners;
use chr_log::Label;
use chr_value::{Atom, MOST_ARGS, Name, ValueRef};
use std::alloc::Allocator;

/// The constraint of a numbered goal, and those that may be its partners in an instance that keeps the goal from being
/// dropped: by version one all of the store, by version two those that are no numbered goals.
#[derive(Drop)]
pub struct DropPartners<'r, A: Allocator> {
    replay: &'r Replay<A>,
    label: Label,
    ghost kept: { IsKept replay.now },
}

impl<'r, A: Allocator> DropPartners<'r, A> {
    /// Takes the partners of a label in a replay.
    pub fn new(replay: &'r Replay<A>, label: Label) -> DropPartners<'r, A>
        requires { IsKept replay.now }
        ensures replay { result.replay.now ≡ replay.now }
        ensures label { result.label ≡ label }
    {
        DropPartners { replay, label }
    }
}

impl<'r, A: Allocator + Copy> Partners<A> for DropPartners<'r, A> {
    ghost use Rattle.chr_check.specs.Goals.{goals_of};
    ghost use Rattle.chr_check.specs.Partners.{partners_of};

    ghost store = { λ p. partners_of p.replay.now.version (goals_of p.replay.now.goals.items) p.label p.replay.now.store.store };

    ghost own = { λ p. p.label };

    fn own(&self) -> Label {
        self.label
    }

    fn atom(&self, label: Label) -> Option<&Atom<A>> {
        if label == self.label {
            self.replay.store.get(label)
        } else {
            self.replay.store.get_listed(label)
        }
    }

    fn labels(&self, name: Name) -> &[u32] {
        self.replay.store.candidates(name)
    }

    fn labels_at(&self, name: Name, place: usize, value: &ValueRef<'_, A>) -> Option<&[u32]> {
        if place > MOST_ARGS {
            return None;
        }
        Some(self.replay.store.candidates_at(name, place as u8, value))
    }
}
