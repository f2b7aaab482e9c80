//! Values: whole numbers, symbols, and functors with values for arguments.
ghost use Rattle.std.specs.Prelude.{◌≡◌, ◌↔◌, IsTrue, IfOk};
ghost use Rattle.chr_value.specs.Atoms.{ground, ground_comp, said, TermIsNamed};
ghost use Rattle.chr_value.specs.Limits.{left_of, left_after, IsWithin};

use crate::compound::Arguments;
use crate::names::Name;
use std::alloc::{AllocError, Allocator};

/// How deep a value may be. A number or a symbol is 1 deep, and a functor one deeper than its deepest argument.
pub const MOST_DEPTH: u8 = 8;

/// How large a value may be. A number or a symbol has the size 1, and a functor one more than its arguments together.
pub const MOST_SIZE: u8 = 64;

/// A whole number, a symbol, or a compound value: a functor with its arguments.
#[cycle(value)]
#[derive(Drop)]
pub enum Value<A: Allocator> {
    Int(i64),
    Sym(Name),
    Comp(Box<Comp<A>, A>),
}

/// A functor with its one to eight arguments.
#[cycle(value)]
#[derive(Drop)]
pub struct Comp<A: Allocator> {
    pub functor: Name,
    pub args: Arguments<Value<A>, A>,
}

/// A value that lies elsewhere. It is copied bit by bit.
#[derive(Clone, Copy)]
pub enum ValueRef<'v, A: Allocator> {
    Int(i64),
    Sym(Name),
    Comp(&'v Comp<A>),
}

impl<A: Allocator> Value<A> {
    /// The value, where it lies.
    #[inline(always)]
    pub fn as_ref(&self) -> ValueRef<'_, A>
        ensures { said result ≡ ground self.now }
    {
        match self {
            Value::Int(n) => ValueRef::Int(*n),
            Value::Sym(name) => ValueRef::Sym(*name),
            Value::Comp(comp) => ValueRef::Comp(comp),
        }
    }

    #[cycle(same)]
    fn same(&self, other: &Value<A>) -> bool
        ensures { IsTrue result ↔ (ground self.now ≡ ground other.now) }
    {
        match (self, other) {
            (Value::Int(m), Value::Int(n)) => *m == *n,
            (Value::Sym(s), Value::Sym(t)) => s.number == t.number,
            (Value::Comp(a), Value::Comp(b)) => a.same(b),
            _ => false,
        }
    }

    #[cycle(named)]
    fn is_named(&self, count: usize) -> bool
        ensures { IsTrue result ↔ TermIsNamed count (ground self.now) }
    {
        match self {
            Value::Int(_) => true,
            Value::Sym(name) => (name.number as usize) < count,
            Value::Comp(comp) => comp.is_named(count),
        }
    }

    #[cycle(left)]
    fn left(&self, depth: u8, room: u8) -> Option<u8>
        ensures { result ≡ left_after depth room (ground self.now) }
    {
        match self {
            Value::Comp(comp) => comp.left(depth, room),
            _ => constant_left(depth, room),
        }
    }
}

impl<A: Allocator + Copy> Value<A> {
    #[cycle(copy)]
    fn copy(&self, alloc: A) -> Result<Value<A>, AllocError>
        ensures { IfOk result (λ made. ground made ≡ ground self.now) }
    {
        match self {
            Value::Int(n) => Ok(Value::Int(*n)),
            Value::Sym(name) => Ok(Value::Sym(*name)),
            Value::Comp(comp) => Ok(Value::Comp(Box::new(alloc, comp.copy(alloc)?)?)),
        }
    }
}

/// The room that a number or a symbol leaves.
fn constant_left(depth: u8, room: u8) -> Option<u8>
    ensures { result ≡ left_of depth room 1 1 }
{
    if depth == 0 {
        return None;
    }
    room.checked_sub(1)
}

impl<A: Allocator> Comp<A> {
    /// Whether two compound values are equal: the same functor and the same arguments.
    #[cycle(same)]
    pub fn same(&self, other: &Comp<A>) -> bool
        ensures { IsTrue result ↔ (ground_comp self.now ≡ ground_comp other.now) }
    {
        if self.functor.number != other.functor.number || self.args.len() != other.args.len() {
            return false;
        }
        for (i, value) in self.args.iter().enumerate() {
            if !value.same(&other.args[i]) {
                return false;
            }
        }
        true
    }

    /// Whether a table of `count` names has the functor and all names of the arguments.
    #[cycle(named)]
    pub fn is_named(&self, count: usize) -> bool
        ensures { IsTrue result ↔ TermIsNamed count (ground_comp self.now) }
    {
        if count <= self.functor.number as usize {
            return false;
        }
        for value in self.args.iter() {
            if !value.is_named(count) {
                return false;
            }
        }
        true
    }

    #[cycle(left)]
    fn left(&self, depth: u8, room: u8) -> Option<u8>
        ensures { result ≡ left_after depth room (ground_comp self.now) }
    {
        if depth == 0 {
            return None;
        }
        let mut rest = room.checked_sub(1)?;
        for value in self.args.iter() {
            rest = value.left(depth - 1, rest)?;
        }
        Some(rest)
    }
}

impl<A: Allocator + Copy> Comp<A> {
    /// A copy. An `Err` is E01.
    #[cycle(copy)]
    pub fn copy(&self, alloc: A) -> Result<Comp<A>, AllocError>
        ensures { IfOk result (λ made. ground_comp made ≡ ground_comp self.now) }
    {
        let mut args = Vec::with_capacity(alloc, self.args.len())?;
        for value in self.args.iter() {
            args.push_reserved(value.copy(alloc)?);
        }
        Ok(Comp {
            functor: self.functor,
            args: Arguments::new(args),
        })
    }
}

impl<'v, A: Allocator> ValueRef<'v, A> {
    /// Whether two values are equal, wherever they lie. A number never equals a symbol.
    #[inline(always)]
    pub fn same(&self, other: &ValueRef<'_, A>) -> bool
        ensures { IsTrue result ↔ (said self.now ≡ said other.now) }
    {
        match (self, other) {
            (ValueRef::Int(m), ValueRef::Int(n)) => *m == *n,
            (ValueRef::Sym(s), ValueRef::Sym(t)) => s.number == t.number,
            (ValueRef::Comp(a), ValueRef::Comp(b)) => a.same(b),
            _ => false,
        }
    }

    /// Whether a table of `count` names has all names of the value. A number needs none.
    pub fn is_named(&self, count: usize) -> bool
        ensures { IsTrue result ↔ TermIsNamed count (said self.now) }
    {
        match self {
            ValueRef::Int(_) => true,
            ValueRef::Sym(name) => (name.number as usize) < count,
            ValueRef::Comp(comp) => comp.is_named(count),
        }
    }

    /// How much room the value leaves where it may be `depth` deep and `room` large. None where it is deeper or larger.
    pub fn left(&self, depth: u8, room: u8) -> Option<u8>
        ensures { result ≡ left_after depth room (said self.now) }
    {
        match self {
            ValueRef::Comp(comp) => comp.left(depth, room),
            _ => constant_left(depth, room),
        }
    }

    /// Whether the value is at most [`MOST_DEPTH`] deep and [`MOST_SIZE`] large.
    pub fn is_within(&self) -> bool
        ensures { IsTrue result ↔ IsWithin (said self.now) }
    {
        self.left(MOST_DEPTH, MOST_SIZE).is_some()
    }
}

impl<'v, A: Allocator + Copy> ValueRef<'v, A> {
    /// A value of its own. Only a compound one takes memory. An `Err` is E01.
    pub fn copy(&self, alloc: A) -> Result<Value<A>, AllocError>
        ensures { IfOk result (λ made. ground made ≡ said self.now) }
    {
        match self {
            ValueRef::Int(n) => Ok(Value::Int(*n)),
            ValueRef::Sym(name) => Ok(Value::Sym(*name)),
            ValueRef::Comp(comp) => Ok(Value::Comp(Box::new(alloc, comp.copy(alloc)?)?)),
        }
    }
}
