//! What is kept of a binding without what it borrows.
ghost use Rattle.std.specs.Prelude.{◌≡◌, ◌≤◌, length, map, true, IfOk, MatchOption};
ghost use Rattle.std.specs.List.{list_any};
ghost use Rattle.std.specs.Option.{option_map};
ghost use Rattle.chr_value.specs.Atoms.{said};
ghost use Rattle.chr_value.specs.Bounds.{most_variables};
ghost use Rattle.chr_guard.specs.Settled.{Places, mark_of, mark_view, is_compound, IsFilled};

use crate::binding::Binding;
use chr_value::{Name, ValueRef};
use std::alloc::{AllocError, Allocator};
use std::marker::Model;

/// What is kept of what a variable is bound to: a number or a symbol, or that there is a compound value.
#[derive(Clone, Copy)]
enum Mark {
    Free,
    Number(i64),
    Symbol(Name),
    Compound,
}

impl Default for Mark {
    fn default() -> Self {
        Mark::Free
    }
}

impl Mark {
    /// What is kept of what a variable is bound to.
    #[inline(always)]
    fn of<'v, A: Allocator>(bound: Option<ValueRef<'v, A>>) -> Mark
        ensures { mark_view result ≡ mark_of (option_map said bound.entry) }
    {
        match bound {
            None => Mark::Free,
            Some(ValueRef::Int(n)) => Mark::Number(n),
            Some(ValueRef::Sym(name)) => Mark::Symbol(name),
            Some(ValueRef::Comp(_)) => Mark::Compound,
        }
    }
}

/// The numbers and symbols of a binding, and where compound values stand in it. It borrows nothing.
#[derive(Drop)]
pub struct Settled<A: Allocator> {
    /// At most [`MOST_VARIABLES`](chr_rule::MOST_VARIABLES).
    marks: Vec<Mark, A>,
}

impl<A: Allocator> Model for Settled<A> {
    ghost use Rattle.std.specs.Prelude.{ℕ, ◌≤◌, List, Option, length, map};
    ghost use Rattle.chr_value.specs.Atoms.{Value as PlainValue};
    ghost use Rattle.chr_value.specs.Bounds.{most_variables};
    ghost use Rattle.chr_value.specs.Code.{value_codes};
    ghost use Rattle.chr_guard.specs.Settled.{mark_view};

    ghost Value = { List (Option (Option (PlainValue ℕ))) };

    ghost coded = { Prim.hlevel value_codes };

    ghost view = { λ s. map mark_view s.marks.items };

    ghost invariant = { λ s. length s.marks.items ≤ most_variables };
}

impl<'v, A: Allocator + Copy> Binding<'v, A> {
    /// What is kept of the binding without what it borrows. An `Err` is E01.
    pub fn settled(&self, alloc: A) -> Result<Settled<A>, AllocError>
        ensures { IfOk result (λ kept. kept ≡ map mark_of self.now) }
    {
        let mut marks = Vec::with_capacity(alloc, self.variables())?;
        for variable in 0..self.variables() {
            marks.push(Mark::of(self.at(variable as u8)))?;
        }
        Ok(Settled { marks })
    }
}

impl<A: Allocator + Copy> Settled<A> {
    /// Whether a compound value stands in the binding.
    fn has_compound(&self) -> bool
        ensures { result ≡ list_any is_compound self.now }
    {
        for mark in &self.marks {
            match mark {
                Mark::Compound => return true,
                _ => {}
            }
        }
        false
    }

    /// Binds the variables that stand for a number or a symbol.
    fn fill<'v>(&self, binding: &mut Binding<'v, A>)
        requires { length self.now ≤ length binding.old }
        ensures { IsFilled self.now binding.old binding.new }
    {
        for (variable, mark) in self.marks.iter().enumerate() {
            match mark {
                Mark::Number(n) => binding.put(variable as u8, ValueRef::Int(*n)),
                Mark::Symbol(name) => binding.put(variable as u8, ValueRef::Sym(*name)),
                _ => {}
            }
        }
    }

    /// The binding again, or None where a compound value stands in it.
    pub fn plain<'v>(&self) -> Option<Binding<'v, A>>
        ensures { MatchOption result (list_any is_compound self.now ≡ true) (λ again. (binding : Places) → self.now ≡ map mark_of binding → again ≡ binding) }
    {
        if self.has_compound() {
            return None;
        }
        let mut binding = Binding::free(self.marks.len());
        self.fill(&mut binding);
        Some(binding)
    }
}
