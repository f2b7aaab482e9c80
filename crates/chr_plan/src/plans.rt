//! The plans of a program.
ghost use Rattle.std.specs.Prelude.{◌≡◌, ℕ, ◌<◌, ◌≤◌, length, map, Some, IsSome, IfOk, OnOk};
ghost use Rattle.std.specs.Option.{option_map};
ghost use Rattle.std.specs.List.{slice_get};
ghost use Rattle.chr_value.specs.Bounds.{most_heads};
ghost use Rattle.chr_rule.specs.Rules.{heads_of};
ghost use Rattle.chr_plan.specs.Orders.{IsPlan};
ghost use Rattle.chr_plan.specs.Plans.{plan_at, ArePlans, IsRowOf};
ghost use Rattle.chr_plan.specs.Places.{places_of};

use crate::order::{Order, Step, plan_of};
use crate::places::add_orders;
use arrayvec::ArrayVec;
use chr_rule::{MOST_HEADS, Program, Rule};
use chr_value::Pred;
use std::alloc::{AllocError, Allocator};
use std::marker::Model;

/// The number `rule * MOST_HEADS + head` of the first rule's first head, whose order comes first.
const FIRST: usize = MOST_HEADS + 1;

/// For each rule and head the order in which the heads are tried. They stand in one list, [`MOST_HEADS`] for each rule,
/// so that one is found by a single look-up: those past a rule's heads are empty. Contracts see the orders of each rule.
pub struct Plans<A: Allocator> {
    orders: Vec<Order, A>,
    counts: Vec<u8, A>,
}

// Not derived: letting the plans go is then one call, which is proved here once.
impl<A: Allocator> Drop for Plans<A> {
    fn drop(self) {
        let Plans {
            orders: _,
            counts: _,
        } = self;
    }
}

impl<A: Allocator> Model for Plans<A> {
    ghost use Rattle.std.specs.Prelude.{length, map};
    ghost use Rattle.chr_plan.specs.Plans.{PlanList, AreRows, in_rows};

    ghost Value = { PlanList };

    ghost view = { λ p. in_rows p.counts.items (map (λ order. order.items) p.orders.items) };

    ghost invariant = { λ p. AreRows p.counts.items (length p.orders.items) };
}

/// The plan of a head, and an empty order where the rule has no head of that number.
fn order_of<A: Allocator>(rule: &Rule<A>, head: u8) -> Order
    requires { 1 ≤ head }
    ensures { head ≤ length (heads_of rule.now) → IsPlan (heads_of rule.now) head result.items }
{
    if usize::from(head) <= rule.heads() {
        plan_of(rule, head)
    } else {
        ArrayVec::new()
    }
}

/// Puts the orders of a rule after those of others: its plans, and empty ones.
fn add_rule<A: Allocator>(orders: &mut Vec<Order, A>, rule: &Rule<A>) -> Result<(), AllocError>
    ensures { OnOk result (IsRowOf (λ order. order.items) rule.now most_heads orders.old.items orders.new.items) }
{
    for at in 0..MOST_HEADS {
        orders.push(order_of(rule, at as u8 + 1))?;
    }
    Ok(())
}

impl<A: Allocator + Copy> Plans<A> {
    /// A plan for each rule and head.
    pub fn make(alloc: A, program: &Program<A>) -> Result<Plans<A>, AllocError>
        ensures { IfOk result (λ plans. ArePlans program.now plans) }
    {
        let mut orders = Vec::with_capacity(alloc, program.len() * MOST_HEADS)?;
        let mut counts = Vec::with_capacity(alloc, program.len())?;
        for rule in program.rules() {
            add_rule(&mut orders, rule)?;
            counts.push(rule.heads() as u8)?;
        }
        Ok(Plans { orders, counts })
    }

    /// The plans of a rule by its index.
    fn orders_at(&self, index: usize) -> &[Order]
        requires { index < length self.now }
        ensures { Some (map (λ order. order.items) result.now) ≡ slice_get self.now index }
    {
        let count = usize::from(self.counts[index]);
        let start = index * MOST_HEADS;
        &self.orders[start..start + count]
    }

    /// The plan of a rule and a head, both by their numbers from 1. None where the program has no such head.
    pub fn plan(&self, rule: usize, head: u8) -> Option<&[Step]>
        ensures { option_map (λ steps. steps.now) result ≡ plan_at self.now rule head }
    {
        if rule == 0 || head == 0 || rule > self.counts.len() {
            return None;
        }
        let order = self.orders_at(rule - 1).get(usize::from(head) - 1)?;
        Some(order.as_slice())
    }

    /// The plan of a rule and a head that the program has, both by their numbers from 1.
    #[inline(always)]
    pub fn plan_at(&self, rule: u16, head: u8) -> &[Step]
        requires { IsSome (plan_at self.now rule head) }
        ensures { Some result.now ≡ plan_at self.now rule head }
    {
        self.orders[usize::from(rule) * MOST_HEADS + usize::from(head) - FIRST].as_slice()
    }

    /// The places that plans look up: each pair of a predicate and a place, from 1, that is a key in some plan, once, in
    /// the order in which it is first met by rule, head and step. `program` is that of the plans.
    pub fn places(&self, alloc: A, program: &Program<A>) -> Result<Vec<(Pred, u8), A>, AllocError>
        ensures { IfOk result (λ places. places.items ≡ places_of program.now self.now) }
    {
        let rules = program.rules();
        let count = rules.len().min(self.counts.len());
        let mut places = Vec::new(alloc);
        for at in 0..count {
            add_orders(&mut places, &rules[at], self.orders_at(at))?;
        }
        Ok(places)
    }
}
