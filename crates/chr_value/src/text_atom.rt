//! Atoms as a text has them, before their names are numbered.
use std::alloc::Allocator;

/// A number, a symbol by its name's text, or a compound value by the texts of its names.
#[cycle(text)]
#[derive(Drop)]
pub enum TextValue<'a, A: Allocator> {
    Int(i64),
    Sym(&'a str),
    Comp(Box<TextComp<'a, A>, A>),
}

/// A functor's text with the arguments.
#[cycle(text)]
#[derive(Drop)]
pub struct TextComp<'a, A: Allocator> {
    pub functor: &'a str,
    pub args: Vec<TextValue<'a, A>, A>,
}

/// An atom by the texts of its names.
#[derive(Drop)]
pub struct TextAtom<'a, A: Allocator> {
    pub name: &'a str,
    pub args: Vec<TextValue<'a, A>, A>,
}
