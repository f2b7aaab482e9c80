//! Predicates and atoms.
ghost use Rattle.std.specs.Prelude.{◌≡◌, ◌<◌, ◌≤◌, ◌↔◌, ◌++◌, ◌∷◌, [], Some, length, slice_get, IsTrue, IsSome, IfSome, IfOk, OnOk, OnErr};
ghost use Rattle.std.specs.Option.{option_map};
ghost use Rattle.chr_value.specs.Atoms.{ground, said, AtomIsNamed};
ghost use Rattle.chr_value.specs.Bounds.{most_arguments};
ghost use Rattle.chr_value.specs.Limits.{IsWithin};
ghost use Rattle.chr_value.specs.Slots.{all_slots, comps_of, LieInOrder};
ghost use Rattle.chr_value.specs.declared.slots.Slot.TheVariants as slots;

use crate::beside::{
    Beside, copy_beside, count_of, further_at, open, push_comp, push_further, value_at,
};
use crate::names::Name;
use crate::slots::{Front, OWN_SLOTS, Slot};
use crate::value::{Comp, Value, ValueRef};
use std::alloc::{AllocError, Allocator, Global};
use std::default::MadeWith;
use std::marker::Model;

/// How many arguments an atom may have, and a functor.
pub const MOST_ARGS: usize = 8;

/// How many arguments lie in an atom itself.
pub const OWN_ARGS: usize = OWN_SLOTS;

/// A predicate: a name and how many arguments it takes.
#[derive(Clone, Copy, PartialEq, Eq, Debug, Hash)]
pub struct Pred {
    pub name: Name,
    pub arity: u8,
}

/// Adds a slot after the others. There is room for it.
#[inline(always)]
fn push_slot<A: Allocator>(front: &mut Front, beside: &mut Beside<A>, slot: Slot)
    requires order { LieInOrder front.old beside.old }
    requires few { front.old.arity < most_arguments }
    requires open { 3 ≤ front.old.arity → IsSome beside.old }
    ensures order { LieInOrder front.new beside.new }
    ensures name { front.new.name ≡ front.old.name }
    ensures slots { all_slots front.new beside.new ≡ all_slots front.old beside.old ++ slot ∷ [] }
    ensures comps { comps_of beside.new ≡ comps_of beside.old }
{
    if usize::from(front.arity) < OWN_SLOTS {
        front.push(slot);
        return;
    }
    push_further(beside, slot);
    front.count_further();
}

/// Adds a number or a symbol after the other arguments. An `Err` is E01, and nothing has changed.
#[inline(always)]
fn push_constant<A: Allocator + Copy>(
    front: &mut Front,
    beside: &mut Beside<A>,
    alloc: A,
    slot: Slot,
) -> Result<(), AllocError>
    requires order { LieInOrder front.old beside.old }
    requires few { front.old.arity < most_arguments }
    ensures order { LieInOrder front.new beside.new }
    ensures name { front.new.name ≡ front.old.name }
    ensures ok { OnOk result (all_slots front.new beside.new ≡ all_slots front.old beside.old ++ slot ∷ []) }
    ensures err { OnErr result (all_slots front.new beside.new ≡ all_slots front.old beside.old) }
    ensures comps { comps_of beside.new ≡ comps_of beside.old }
{
    if usize::from(front.arity) >= OWN_SLOTS {
        open(beside, alloc)?;
    }
    push_slot(front, beside, slot);
    Ok(())
}

/// Adds a compound value after the other arguments. An `Err` is E01, and nothing has changed.
fn push_compound<A: Allocator + Copy>(
    front: &mut Front,
    beside: &mut Beside<A>,
    alloc: A,
    comp: Comp<A>,
) -> Result<(), AllocError>
    requires order { LieInOrder front.old beside.old }
    requires few { front.old.arity < most_arguments }
    requires fewer { length (comps_of beside.old) ≤ front.old.arity }
    ensures order { LieInOrder front.new beside.new }
    ensures name { front.new.name ≡ front.old.name }
    ensures ok { OnOk result (all_slots front.new beside.new ≡ all_slots front.old beside.old ++ slots.Comp (length (comps_of beside.old)) ∷ []) }
    ensures err { OnErr result (all_slots front.new beside.new ≡ all_slots front.old beside.old) }
    ensures comps { OnOk result (comps_of beside.new ≡ comps_of beside.old ++ comp ∷ []) }
    ensures same { OnErr result (comps_of beside.new ≡ comps_of beside.old) }
{
    let place = count_of(beside);
    push_comp(beside, alloc, comp)?;
    push_slot(front, beside, Slot::Comp(place as u8));
    Ok(())
}

/// A predicate with its arguments, at most [`MOST_ARGS`], each within the limits of values. Contracts see a name and a list
/// of values.
pub struct Atom<A: Allocator> {
    front: Front,
    beside: Beside<A>,
    alloc: A,
}

// Atoms are stored, copied and moved everywhere.
const _: () = prove!(size_of::<Atom<Global>>() == 48);

// Not derived: letting an atom go is then proved here once. It is inlined, since beside most atoms lies nothing to let go.
impl<A: Allocator> Drop for Atom<A> {
    #[inline(always)]
    fn drop(self) {
        let Atom {
            front: _,
            beside: _,
            alloc: _,
        } = self;
    }
}

impl<A: Allocator> Model for Atom<A> {
    ghost use Rattle.std.specs.Prelude.{ℕ};
    ghost use Rattle.chr_value.specs.Atoms.{Atom};
    ghost use Rattle.chr_value.specs.Slots.{all_slots, comps_of, values_in, AreArguments, LieInOrder};
    ghost use Rattle.chr_value.specs.Code.{value_codes};

    ghost Value = { Atom ℕ };

    ghost coded = { Prim.hlevel value_codes };

    ghost view = { λ a. record { name = a.front.name.number; args = values_in (comps_of a.beside) (all_slots a.front a.beside) } };

    ghost invariant = { λ a. LieInOrder a.front a.beside × AreArguments (comps_of a.beside) (all_slots a.front a.beside) };
}

impl<A: Allocator + Copy> Atom<A> {
    /// The predicate without arguments. Takes no memory.
    pub fn new(alloc: A, name: Name) -> Atom<A>
        ensures { result ≡ record { name = name.number; args = [] } }
    {
        Atom {
            front: Front::new(name),
            beside: None,
            alloc,
        }
    }

    /// The predicate's name.
    #[inline(always)]
    pub fn name(&self) -> Name
        ensures { result.number ≡ self.now.name }
    {
        self.front.name
    }

    /// The predicate: the name, and how many arguments there are.
    #[inline(always)]
    pub fn pred(&self) -> Pred
        ensures name { result.name.number ≡ self.now.name }
        ensures arity { result.arity ≡ length self.now.args }
    {
        Pred {
            name: self.front.name,
            arity: self.front.arity,
        }
    }

    /// How many arguments there are.
    #[inline(always)]
    pub fn arity(&self) -> usize
        ensures count { result ≡ length self.now.args }
        ensures fits { length self.now.args ≤ most_arguments }
    {
        usize::from(self.front.arity)
    }

    /// An argument, by its index. It is within the limits of values.
    #[inline(always)]
    pub fn arg_at(&self, index: usize) -> ValueRef<'_, A>
        requires { index < length self.now.args }
        ensures value { Some (said result) ≡ slice_get self.now.args index }
        ensures within { IsWithin (said result) }
    {
        if index < OWN_SLOTS {
            return self.own_arg_at(index);
        }
        self.further_arg_at(index)
    }

    /// An argument that lies in the atom itself, by its index: one of the first [`OWN_ARGS`].
    #[inline(always)]
    pub fn own_arg_at(&self, index: usize) -> ValueRef<'_, A>
        requires own { index < 3 }
        requires within { index < length self.now.args }
        ensures value { Some (said result) ≡ slice_get self.now.args index }
        ensures within { IsWithin (said result) }
    {
        value_at(self.front.at(index), &self.beside)
    }

    /// The same for an argument from the fourth on.
    fn further_arg_at(&self, index: usize) -> ValueRef<'_, A>
        requires further { 3 ≤ index }
        requires within { index < length self.now.args }
        ensures value { Some (said result) ≡ slice_get self.now.args index }
        ensures within { IsWithin (said result) }
    {
        value_at(further_at(&self.beside, index - OWN_SLOTS), &self.beside)
    }

    /// The same, or None where there is no such argument.
    #[inline(always)]
    pub fn arg(&self, index: usize) -> Option<ValueRef<'_, A>>
        ensures value { option_map said result ≡ slice_get self.now.args index }
        ensures within { IfSome result (λ value. IsWithin (said value)) }
    {
        if self.arity() <= index {
            return None;
        }
        Some(self.arg_at(index))
    }

    /// Adds an argument after the others, of which there are fewer than [`MOST_ARGS`]. A compound value takes memory, and so
    /// does an argument from the fourth on. An `Err` is E01, and nothing has changed.
    #[inline(always)]
    pub fn push(&mut self, value: Value<A>) -> Result<(), AllocError>
        requires room { length self.old.args < most_arguments }
        requires within { IsWithin (ground value) }
        ensures ok { OnOk result (self.new ≡ record { name = self.old.name; args = self.old.args ++ ground value ∷ [] }) }
        ensures err { OnErr result (self.new ≡ self.old) }
    {
        let (front, beside, alloc) = (&mut self.front, &mut self.beside, self.alloc);
        match value {
            Value::Int(n) => push_constant(front, beside, alloc, Slot::Int(n)),
            Value::Sym(name) => push_constant(front, beside, alloc, Slot::Sym(name)),
            Value::Comp(comp) => push_compound(front, beside, alloc, Box::into_inner(comp)),
        }
    }

    /// Whether a table of `count` names has the atom's name and all names of its arguments.
    pub fn is_named(&self, count: usize) -> bool
        ensures { IsTrue result ↔ AtomIsNamed count self.now }
    {
        if count <= self.front.name.number as usize {
            return false;
        }
        for index in 0..self.arity() {
            if !self.arg_at(index).is_named(count) {
                return false;
            }
        }
        true
    }

    /// Whether two atoms are equal: the same predicate and the same arguments.
    pub fn same(&self, other: &Atom<A>) -> bool
        ensures { IsTrue result ↔ (self.now ≡ other.now) }
    {
        if self.front.name.number != other.front.name.number || self.arity() != other.arity() {
            return false;
        }
        for index in 0..self.arity() {
            if !self.arg_at(index).same(&other.arg_at(index)) {
                return false;
            }
        }
        true
    }

    /// A copy of the atom. An `Err` is E01.
    pub fn copy(&self, alloc: A) -> Result<Atom<A>, AllocError>
        ensures { IfOk result (λ made. made ≡ self.now) }
    {
        let mut made = Atom::new(alloc, self.front.name);
        made.become_copy(self)?;
        Ok(made)
    }

    /// Makes the atom a copy of another, which is written where the atom lies. An `Err` is E01, and nothing has changed.
    #[inline(always)]
    pub fn become_copy(&mut self, other: &Atom<A>) -> Result<(), AllocError>
        ensures ok { OnOk result (self.new ≡ other.now) }
        ensures err { OnErr result (self.new ≡ self.old) }
    {
        // Beside most atoms lies nothing, and then it takes no call.
        let beside = match &other.beside {
            None => None,
            _ => copy_beside(&other.beside, self.alloc)?,
        };
        self.beside = beside;
        self.front = other.front;
        Ok(())
    }
}

impl<A: Allocator + Copy> MadeWith<A> for Atom<A> {
    fn made_with(alloc: A) -> Atom<A> {
        Atom::new(alloc, Name { number: 0 })
    }
}
