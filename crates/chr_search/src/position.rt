//! Positions in the order of trials.
ghost use Rattle.std.specs.Prelude.{◌≡◌, ◌≢◌, ◌↔◌, ◌+◌, ◌∷◌, ◌++◌, ◌<◌, ◌≤◌, [], ℕ, length, map, take, MatchOption, IsTrue};
ghost use Rattle.chr_value.specs.Bounds.{most_heads};
ghost use Rattle.chr_search.specs.Positions.{beginning, just_after, past, front};
ghost use Rattle.chr_search.specs.Verdicts.{Trial as TrialView, labels as labels_of, position, IsFormed, IsPart};

use crate::trial::{Placed, Trial};
use chr_log::{Labels, copy_labels};
use chr_store::Label;
use std::alloc::Allocator;
use std::marker::Model;

/// A rule and a head, by their numbers from 1, and labels in the order of the head's plan. Contracts see the list of these
/// numbers.
#[derive(Drop)]
pub struct Position {
    pub(crate) labels: Labels,
    pub(crate) rule: u16,
    pub(crate) head: u8,
}

impl Model for Position {
    ghost use Rattle.std.specs.Prelude.{ℕ, List, ◌∷◌, ◌≤◌};

    ghost Value = { List ℕ };

    ghost view = { λ p. p.rule ∷ p.head ∷ p.labels.items };

    ghost invariant = { λ p. (1 ≤ p.rule) × (1 ≤ p.head) };
}

/// Makes labels one label alone. As they are written one by one, and are slow to move then, this is done where they lie.
#[inline(always)]
pub(crate) fn set_alone(labels: &mut Labels, label: Label)
    ensures { labels.new.items ≡ label ∷ [] }
{
    put_at(labels, 0, label);
}

/// Takes the last label away where it is the second after the first ones, which are as many as `depth` and stay. That is what
/// is mostly left of longer trials, and costs less than to truncate.
#[inline(always)]
fn shorten(labels: &mut Labels, depth: usize)
    requires { depth < most_heads }
    ensures { take depth labels.new.items ≡ take depth labels.old.items }
{
    if labels.len() == depth + 2 {
        let _last = labels.pop();
    }
}

/// Keeps the first labels, as many as `depth`, and puts one after them.
pub(crate) fn put_at(labels: &mut Labels, depth: usize, label: Label)
    requires { depth < most_heads }
    ensures { labels.new.items ≡ take depth labels.old.items ++ label ∷ [] }
{
    shorten(labels, depth);
    if labels.len() == depth + 1 {
        labels[depth] = label;
        return;
    }
    labels.truncate(depth);
    labels.push(label);
}

/// Sets the label after the first ones, which are as many as `depth` and stay.
pub(crate) fn set_at(labels: &mut Labels, depth: usize, label: Label)
    requires within { depth ≤ length labels.old.items }
    requires room { depth < most_heads }
    ensures { take (depth + 1) labels.new.items ≡ take depth labels.old.items ++ label ∷ [] }
{
    if depth < labels.len() {
        labels[depth] = label;
        return;
    }
    labels.push(label);
}

/// Makes labels the first ones after those of a trial and all that they begin.
fn set_past(after: &mut Labels, labels: &[Label])
    requires { (t : TrialView) × IsFormed t × (labels_of t ≡ labels.now) }
    ensures { after.new.items ≡ past labels.now }
{
    let Some((last, before)) = labels.split_last() else {
        after.clear();
        return;
    };
    for (i, label) in before.iter().enumerate() {
        set_at(after, i, *label);
    }
    put_at(after, before.len(), *last + 1);
}

/// Whether these are the labels.
fn are_labels_of<A: Allocator>(labels: &[Label], placed: &[Placed<A>]) -> bool
    ensures { IsTrue result ↔ (labels.now ≡ map (λ p. p.label) placed.now) }
{
    if labels.len() != placed.len() {
        return false;
    }
    for i in 0..labels.len() {
        if labels[i] != placed[i].label {
            return false;
        }
    }
    true
}

impl Position {
    /// The first position of all.
    pub(crate) fn beginning() -> Position
        ensures { result ≡ beginning }
    {
        Position {
            labels: Labels::new(),
            rule: 1,
            head: 1,
        }
    }

    /// Becomes the first position of all.
    #[inline(always)]
    pub(crate) fn restart(&mut self)
        ensures { self.new ≡ beginning }
    {
        self.labels.clear();
        self.rule = 1;
        self.head = 1;
    }

    /// A copy of the position.
    pub(crate) fn copy(&self) -> Position
        ensures { result ≡ self.now }
    {
        Position {
            labels: copy_labels(&self.labels),
            rule: self.rule,
            head: self.head,
        }
    }

    /// Whether two positions are the same.
    pub(crate) fn is_same(&self, other: &Position) -> bool
        ensures { IsTrue result ↔ (self.now ≡ other.now) }
    {
        if self.rule != other.rule || self.head != other.head {
            return false;
        }
        self.labels.as_slice() == other.labels.as_slice()
    }

    /// The position of a trial.
    pub(crate) fn of<A: Allocator + Copy>(trial: &Trial<A>) -> Position
        ensures position { result ≡ position trial.now }
        ensures formed { IsFormed trial.now }
    {
        let mut position = Position::beginning();
        position.become_of(trial);
        position
    }

    /// Becomes the position of a trial.
    pub(crate) fn become_of<A: Allocator + Copy>(&mut self, trial: &Trial<A>)
        ensures position { self.new ≡ position trial.now }
        ensures formed { IsFormed trial.now }
    {
        self.labels.clear();
        let all = trial.placed();
        for placed in all {
            self.labels.push(placed.label);
        }
        self.rule = trial.number();
        self.head = trial.head();
    }

    /// Becomes that of labels, at a rule and a head.
    pub(crate) fn become_at(&mut self, rule: u16, head: u8, labels: &Labels)
        requires rule { 1 ≤ rule }
        requires head { 1 ≤ head }
        ensures { self.new ≡ rule ∷ head ∷ labels.now.items }
    {
        self.labels.clear();
        for label in labels.as_slice() {
            self.labels.push(*label);
        }
        self.rule = rule;
        self.head = head;
    }

    /// Becomes that of the active label alone, at a rule and a head.
    pub(crate) fn become_alone(&mut self, rule: u16, head: u8, label: Label)
        requires rule { 1 ≤ rule }
        requires head { 1 ≤ head }
        ensures { self.new ≡ rule ∷ head ∷ label ∷ [] }
    {
        self.rule = rule;
        self.head = head;
        set_alone(&mut self.labels, label);
    }

    /// Becomes the first position after a trial, which is a part.
    pub(crate) fn become_just_after<A: Allocator + Copy>(&mut self, trial: &Trial<A>)
        requires { IsPart trial.now }
        ensures { self.new ≡ just_after (position trial.now) }
    {
        self.become_of(trial);
        self.labels.push(0);
    }

    /// Becomes the first position after a trial and all that it begins.
    pub(crate) fn become_past<A: Allocator + Copy>(&mut self, trial: &Trial<A>)
        ensures { self.new ≡ past (position trial.now) }
    {
        self.become_of(trial);
        if let Some(last) = self.labels.pop() {
            self.labels.push(last + 1);
        }
    }

    /// Becomes a position from which the trials after a trial are looked for: the first one after it. Where it has as many
    /// labels as a trial can have, it begins no other, and the position is past it.
    pub(crate) fn become_after<A: Allocator + Copy>(&mut self, trial: &Trial<A>)
        ensures most { length trial.now.placed ≡ most_heads → self.new ≡ past (position trial.now) }
        ensures fewer { length trial.now.placed ≢ most_heads → self.new ≡ just_after (position trial.now) }
    {
        if trial.placed().len() == 6 {
            self.become_past(trial);
            return;
        }
        self.become_of(trial);
        self.labels.push(0);
    }

    /// Whether it is a trial's.
    pub(crate) fn is_of<A: Allocator + Copy>(&self, trial: &Trial<A>) -> bool
        ensures { IsTrue result ↔ (self.now ≡ position trial.now) }
    {
        if self.rule != trial.number() || self.head != trial.head() {
            return false;
        }
        are_labels_of(self.labels.as_slice(), trial.placed())
    }

    /// The last label, where this is a trial's position with one label more.
    pub(crate) fn label_after<A: Allocator + Copy>(&self, part: &Trial<A>) -> Option<Label>
        ensures { MatchOption result ((l : ℕ) → self.now ≡ position part.now ++ l ∷ [] → ⊥) (λ l. self.now ≡ position part.now ++ l ∷ []) }
    {
        if self.rule != part.number() || self.head != part.head() {
            return None;
        }
        let (last, before) = self.labels.as_slice().split_last()?;
        if !are_labels_of(before, part.placed()) {
            return None;
        }
        Some(*last)
    }

    /// Becomes the first position after a trial of these labels and all that it begins.
    pub(crate) fn set_past(&mut self, rule: u16, head: u8, labels: &[Label])
        requires rule { 1 ≤ rule }
        requires head { 1 ≤ head }
        requires trial { (t : TrialView) × IsFormed t × (labels_of t ≡ labels.now) }
        ensures { self.new ≡ past (rule ∷ head ∷ labels.now) }
    {
        self.rule = rule;
        self.head = head;
        set_past(&mut self.labels, labels);
    }

    /// Whether this is a trial's position but for the last label.
    pub(crate) fn is_beside<A: Allocator + Copy>(&self, trial: &Trial<A>) -> bool
        ensures formed { IsFormed trial.now }
        ensures beside { IsTrue result ↔ (front self.now ≡ front (position trial.now)) }
    {
        let other = Position::of(trial);
        if self.rule != other.rule || self.head != other.head {
            return false;
        }
        let Some((_, labels)) = self.labels.as_slice().split_last() else {
            return false;
        };
        let Some((_, others)) = other.labels.as_slice().split_last() else {
            return false;
        };
        labels == others
    }
}
