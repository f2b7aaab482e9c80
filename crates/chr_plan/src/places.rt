//! The places that plans look up.
ghost use Rattle.std.specs.Prelude.{◌≡◌, ◌++◌, ◌∷◌, [], ℕ, List, map, OnOk};
ghost use Rattle.std.specs.List.{list_any};
ghost use Rattle.chr_rule.specs.Rules.{heads_of, head_in};
ghost use Rattle.chr_plan.specs.Places.{Place, same_place, key_place, order_places, for_each, once};

use crate::order::{Order, Step};
use chr_rule::Rule;
use chr_value::Pred;
use std::alloc::{AllocError, Allocator};

/// Whether a list has a place.
fn is_among(places: &[(Pred, u8)], pred: Pred, place: u8) -> bool
    ensures { result ≡ list_any (λ p. same_place p (pred, place)) places.now }
{
    for (p, n) in places {
        if *p == pred && *n == place {
            return true;
        }
    }
    false
}

/// Adds a place unless it is there.
fn add_place<A: Allocator>(
    places: &mut Vec<(Pred, u8), A>,
    pred: Pred,
    place: u8,
) -> Result<(), AllocError>
    ensures { OnOk result ((met : List Place) → places.old.items ≡ once met → places.new.items ≡ once (met ++ (pred, place) ∷ [])) }
{
    if is_among(places, pred, place) {
        return Ok(());
    }
    places.push((pred, place))?;
    Ok(())
}

/// Adds the place that a step looks up.
fn add_key<A: Allocator>(
    places: &mut Vec<(Pred, u8), A>,
    rule: &Rule<A>,
    step: Step,
) -> Result<(), AllocError>
    ensures { OnOk result ((met : List Place) → places.old.items ≡ once met → places.new.items ≡ once (met ++ key_place (head_in (heads_of rule.now) step.head) step.key)) }
{
    let Some(head) = rule.head(usize::from(step.head)) else {
        return Ok(());
    };
    let Some(place) = step.key else {
        return Ok(());
    };
    let pred = Pred {
        name: head.name,
        arity: head.terms.len() as u8,
    };
    add_place(places, pred, place)
}

/// Adds the places that a plan looks up.
fn add_order<A: Allocator>(
    places: &mut Vec<(Pred, u8), A>,
    rule: &Rule<A>,
    order: &[Step],
) -> Result<(), AllocError>
    ensures { OnOk result ((met : List Place) → places.old.items ≡ once met → places.new.items ≡ once (met ++ order_places (heads_of rule.now) order.now)) }
{
    for step in order {
        add_key(places, rule, *step)?;
    }
    Ok(())
}

/// Adds the places that the plans of a rule look up.
pub(crate) fn add_orders<A: Allocator>(
    places: &mut Vec<(Pred, u8), A>,
    rule: &Rule<A>,
    orders: &[Order],
) -> Result<(), AllocError>
    ensures { OnOk result ((met : List Place) → places.old.items ≡ once met → places.new.items ≡ once (met ++ for_each (order_places (heads_of rule.now)) (map (λ order. order.items) orders.now))) }
{
    for order in orders {
        add_order(places, rule, order.as_slice())?;
    }
    Ok(())
}
