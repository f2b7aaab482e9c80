//! Where rules have heads of a predicate.
ghost use Rattle.std.specs.Prelude.{◌≡◌, ℕ, ◌+◌, ◌*◌, ◌<◌, ◌≤◌, List, [], length, map, OnOk, MatchOption};
ghost use Rattle.std.specs.List.{Contains, slice_index_or};
ghost use Rattle.chr_value.specs.Bounds.{most_heads};
ghost use Rattle.chr_rule.specs.declared.occurrences.Occurrence.{Occurrence as OccurrenceView};
ghost use Rattle.chr_rule.specs.Rules.{Simpagation};
ghost use Rattle.chr_rule.specs.Occurrences.{NoneFrom, IsNextOccurrence, AreHeadsFrom};
ghost use Rattle.chr_rule.specs.Index.{rank, ComesBefore, row_at, room_at, IsRising, IsInOrder, IsRestFrom, KeepsRows, HasRoomFor, HasPushed, HasHeadsOf};

use crate::rule::{MOST_HEADS, Rule};
use chr_value::{Name, Pred};
use std::alloc::{AllocError, Allocator};
use std::marker::Model;

/// A head of some name: the number of its rule, its own number in the rule, and how many arguments it has.
#[derive(Clone, Copy)]
pub struct Occurrence {
    pub rule: u16,
    pub head: u8,
    pub arity: u8,
}

/// A number by which the occurrences of a name are in order: by rule and head.
fn rank_at(rule: u16, head: u8) -> u32
    ensures rank { result ≡ rule * 256 + head }
    ensures fits { head < 256 }
{
    u32::from(rule) * 256 + u32::from(head)
}

/// For each name, by its number, its occurrences in order. Contracts see the rows, and how many more each has room for.
#[derive(Drop)]
pub struct Occurrences<A: Allocator> {
    rows: Vec<Vec<Occurrence, A>, A>,
}

impl<A: Allocator> Model for Occurrences<A> {
    ghost use Rattle.std.specs.Prelude.{◌-◌, map, vec_len, vec_capacity};
    ghost use Rattle.chr_rule.specs.Index.{Index, AreInOrder};

    ghost Value = { Index };

    ghost view = { λ o. record { rows = map (λ row. row.items) o.rows.items; rooms = map (λ row. vec_capacity row - vec_len row) o.rows.items } };

    ghost invariant = { λ o. AreInOrder (map (λ row. row.items) o.rows.items) };
}

/// The place of the first occurrence that is not before a rule and a head.
fn place_from(row: &[Occurrence], rule: u16, head: u8) -> usize
    requires { IsRising row.now }
    ensures fits { head < 256 }
    ensures within { result ≤ length row.now }
    ensures front { (k : ℕ) (d : OccurrenceView) → k < result → rank (slice_index_or row.now k d) < rule * 256 + head }
    ensures later { (k : ℕ) (d : OccurrenceView) → result ≤ k → k < length row.now → rule * 256 + head ≤ rank (slice_index_or row.now k d) }
{
    let from = rank_at(rule, head);
    row.partition_point(|other| rank_at(other.rule, other.head) < from)
}

/// The heads of a predicate from a rule and a head on, by rule and then by head.
#[derive(Drop)]
pub struct HeadsFrom<'p> {
    pred: Pred,
    /// The occurrences of its name from there on, those with other numbers of arguments too.
    rest: &'p [Occurrence],
}

impl<'p> Model for HeadsFrom<'p> {
    ghost use Rattle.chr_rule.specs.Occurrences.{HeadsFrom};

    ghost Value = { HeadsFrom };

    ghost view = { λ h. record { pred = h.pred; rest = h.rest.now } };
}

impl<'p> HeadsFrom<'p> {
    /// The number of the next one's rule, and its own in the rule, both from 1. None where none is left.
    #[inline(always)]
    pub fn next(&mut self) -> Option<(u16, u8)>
        ensures pred { self.new.pred ≡ self.old.pred }
        ensures next { (rules : List (Simpagation ℕ)) (s i : ℕ) → AreHeadsFrom rules self.old s i → MatchOption result (NoneFrom rules self.old.pred s i) (λ found. IsNextOccurrence rules self.old.pred s i found × AreHeadsFrom rules self.new found.0 (found.1 + 1)) }
    {
        while let Some((first, rest)) = self.rest.split_first() {
            self.rest = rest;
            if first.arity == self.pred.arity {
                return Some((first.rule, first.head));
            }
        }
        None
    }
}

impl<A: Allocator + Copy> Occurrences<A> {
    /// No occurrences. Takes no memory.
    pub fn new(alloc: A) -> Occurrences<A>
        ensures { result.rows ≡ [] }
    {
        Occurrences {
            rows: Vec::new(alloc),
        }
    }

    /// Makes room for the heads of a rule in the row of a name. An `Err` is E01.
    fn reserve_row(&mut self, name: Name) -> Result<(), AllocError>
        ensures keeps { KeepsRows self.old self.new }
        ensures room { OnOk result (most_heads ≤ room_at self.new.rooms name.number) }
    {
        let place = name.number as usize;
        let alloc = *self.rows.allocator();
        for _ in self.rows.len()..place + 1 {
            self.rows.push(Vec::new(alloc))?;
        }
        self.rows[place].reserve(MOST_HEADS)
    }

    /// Makes room for the heads of a rule. An `Err` is E01.
    pub fn reserve(&mut self, rule: &Rule<A>) -> Result<(), AllocError>
        ensures keeps { KeepsRows self.old self.new }
        ensures room { OnOk result (HasRoomFor self.new rule.now) }
    {
        for head in 1..rule.heads() + 1 {
            if let Some(pattern) = rule.head(head) {
                self.reserve_row(pattern.name)?;
            }
        }
        Ok(())
    }

    /// Puts one more at the end of the row of a name, where there is room.
    fn push_reserved(&mut self, name: Name, one: Occurrence)
        requires room { 0 < room_at self.old.rooms name.number }
        requires last { (o : OccurrenceView) → Contains (row_at self.old.rows name.number) o → ComesBefore o one }
        requires fits { one.head < 256 }
        ensures rows { HasPushed self.old.rows name.number one self.new.rows }
        ensures rooms { (n : ℕ) → room_at self.old.rooms n ≤ room_at self.new.rooms n + 1 }
    {
        self.rows[name.number as usize].push_reserved(one);
    }

    /// Adds the heads of a rule of a number above all others, for which there is room.
    pub fn add_rule(&mut self, number: u16, rule: &Rule<A>)
        requires room { HasRoomFor self.old rule.now }
        requires last { (n : ℕ) (o : OccurrenceView) → Contains (row_at self.old.rows n) o → o.rule < number }
        ensures { HasHeadsOf self.old.rows number rule.now self.new.rows }
    {
        for head in 1..rule.heads() as u8 + 1 {
            if let Some(pattern) = rule.head(usize::from(head)) {
                let pred = pattern.pred();
                let arity = pred.arity;
                let one = Occurrence {
                    rule: number,
                    head,
                    arity,
                };
                self.push_reserved(pred.name, one);
            }
        }
    }

    /// The row of a name.
    #[inline(always)]
    fn row(&self, name: Name) -> &[Occurrence]
        ensures row { result.now ≡ row_at self.now.rows name.number }
        ensures order { IsInOrder result.now }
    {
        match self.rows.get(name.number as usize) {
            Some(row) => row,
            None => &[],
        }
    }

    /// The heads of a predicate.
    #[inline(always)]
    pub fn heads_of(&self, pred: Pred) -> HeadsFrom<'_>
        ensures pred { result.pred ≡ pred }
        ensures rest { result.rest ≡ row_at self.now.rows pred.name.number }
        ensures order { IsInOrder result.rest }
    {
        HeadsFrom {
            pred,
            rest: self.row(pred.name),
        }
    }

    /// The heads of a predicate from a rule and a head on. It takes a search.
    pub fn heads_from(&self, pred: Pred, rule: u16, head: u8) -> HeadsFrom<'_>
        ensures pred { result.pred ≡ pred }
        ensures rest { IsRestFrom (row_at self.now.rows pred.name.number) (rule * 256 + head) result.rest }
        ensures fits { head < 256 }
        ensures order { IsInOrder (row_at self.now.rows pred.name.number) }
    {
        let row = self.row(pred.name);
        let place = place_from(row, rule, head);
        HeadsFrom {
            pred,
            rest: &row[place..],
        }
    }
}
