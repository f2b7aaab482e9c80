//! Numbering the names of atoms.
ghost use Rattle.std.specs.Prelude.{◌≡◌, ◌≤◌, ◌↔◌, ℕ, Some, Err, true, false, length, map, take, IfOk, IsOk, OnErr};
ghost use Rattle.std.specs.List.{AllByRecursion};
ghost use Rattle.chr_value.specs.Bounds.{most_name_bytes, most_names};
ghost use Rattle.chr_value.specs.Names.{has_text, number_of, HasDistinctTexts};
ghost use Rattle.chr_value.specs.Atoms.{Atom, AtomIsNamed, ground, grounds, renamed, atom_renamed, by_texts as names_by};
ghost use Rattle.chr_value.specs.Naming.{TermIsKnown, AtomIsKnown, Named, IsEntered, number_name, numbered_value, number_terms, numbered_atom};
ghost use Rattle.chr_value.specs.TextAtoms.{text_value as word_of, text_values as words_of, text_atom};
ghost use Rattle.chr_value.specs.Spelling.{FitsTerm, FitsAtom};
ghost use Rattle.chr_value.specs.declared.names.NamesFault.TheVariants.{Full};

use crate::atom::Atom;
use crate::compound::Arguments;
use crate::names::{Name, Names, NamesFault};
use crate::text_atom::{TextAtom, TextValue};
use crate::value::{Comp, Value};
use std::alloc::{AllocError, Allocator};

/// The number of a name's text, which gets the next one where it is new. E01 where memory ran out; E02 exactly where
/// the text is new and the table full. The names that were there keep their numbers, so `truncate` to the length before
/// takes a new one back.
pub fn name_number<A: Allocator + Copy>(
    names: &mut Names<A>,
    text: &str,
) -> Result<Name, NamesFault>
    requires { length text.now ≤ most_name_bytes }
    ensures gives { Named (λ n. n.number) result (number_name names.old text.now) names.new }
    ensures full { (result ≡ Err Full) ↔ ((length names.old ≡ most_names) × (has_text names.old text.now ≡ false)) }
    ensures finds { has_text names.old text.now ≡ true → IsOk result }
    ensures unchanged { OnErr result (names.new ≡ names.old) }
    ensures keeps { take (length names.old) names.new ≡ names.old }
    ensures fits { length names.new ≤ most_names }
{
    names.intern(text)
}

/// Enters a name's text where it is new.
fn enter_name<A: Allocator + Copy>(names: &mut Names<A>, text: &str) -> Result<(), NamesFault>
    requires { length text.now ≤ most_name_bytes }
    ensures enters { IsEntered (λ table. has_text table text.now ≡ true) result (number_name names.old text.now) names.new }
    ensures keeps { take (length names.old) names.new ≡ names.old }
    ensures fits { length names.new ≤ most_names }
{
    name_number(names, text)?;
    Ok(())
}

/// Enters the names of a value.
#[cycle(enter)]
fn enter_value<A: Allocator + Copy>(
    names: &mut Names<A>,
    text: &TextValue<'_, A>,
) -> Result<(), NamesFault>
    requires { FitsTerm (word_of text.now) }
    ensures enters { IsEntered (λ table. TermIsKnown table (word_of text.now)) result (numbered_value names.old (word_of text.now)) names.new }
    ensures keeps { take (length names.old) names.new ≡ names.old }
    ensures fits { length names.old ≤ most_names → length names.new ≤ most_names }
{
    match text {
        TextValue::Int(_) => Ok(()),
        TextValue::Sym(name) => enter_name(names, name),
        TextValue::Comp(comp) => {
            enter_name(names, comp.functor)?;
            enter_values(names, &comp.args)
        }
    }
}

/// Enters the names of values, from left to right.
#[cycle(enter)]
fn enter_values<A: Allocator + Copy>(
    names: &mut Names<A>,
    texts: &[TextValue<'_, A>],
) -> Result<(), NamesFault>
    requires { AllByRecursion FitsTerm (words_of texts.now) }
    ensures enters { IsEntered (λ table. AllByRecursion (TermIsKnown table) (words_of texts.now)) result (number_terms names.old (words_of texts.now)) names.new }
    ensures keeps { take (length names.old) names.new ≡ names.old }
    ensures fits { length names.old ≤ most_names → length names.new ≤ most_names }
{
    for text in texts {
        enter_value(names, text)?;
    }
    Ok(())
}

/// A text's name; where the table lacks the text, the one that comes next.
fn name_in<A: Allocator + Copy>(names: &Names<A>, text: &str) -> Name
    ensures number { result.number ≡ number_of names.now text.now }
    ensures distinct { HasDistinctTexts names.now }
{
    let count = names.len();
    match names.find(text) {
        Some(name) => name,
        None => Name {
            number: count as u32,
        },
    }
}

/// A value whose names the table has. An `Err` is E01.
#[cycle(make)]
fn make_value<A: Allocator + Copy>(
    alloc: A,
    names: &Names<A>,
    text: &TextValue<'_, A>,
) -> Result<Value<A>, AllocError>
    requires { FitsTerm (word_of text.now) }
    ensures { IfOk result (λ made. ground made ≡ renamed (number_of names.now) (word_of text.now)) }
{
    match text {
        TextValue::Int(n) => Ok(Value::Int(*n)),
        TextValue::Sym(name) => Ok(Value::Sym(name_in(names, name))),
        TextValue::Comp(comp) => {
            let functor = name_in(names, comp.functor);
            let args = Arguments::new(make_values(alloc, names, &comp.args)?);
            Ok(Value::Comp(Box::new(alloc, Comp { functor, args })?))
        }
    }
}

/// Values whose names the table has. An `Err` is E01.
#[cycle(make)]
fn make_values<A: Allocator + Copy>(
    alloc: A,
    names: &Names<A>,
    texts: &[TextValue<'_, A>],
) -> Result<Vec<Value<A>, A>, AllocError>
    requires { AllByRecursion FitsTerm (words_of texts.now) }
    ensures { IfOk result (λ made. grounds made.items ≡ map (renamed (number_of names.now)) (words_of texts.now)) }
{
    let mut made = Vec::with_capacity(alloc, texts.len())?;
    for text in texts {
        made.push_reserved(make_value(alloc, names, text)?);
    }
    Ok(made)
}

/// An atom whose names the table has. An `Err` is E01.
fn make_atom<A: Allocator + Copy>(
    alloc: A,
    names: &Names<A>,
    text: &TextAtom<'_, A>,
) -> Result<Atom<A>, AllocError>
    requires { FitsAtom (text_atom text.now) }
    ensures gives { IfOk result (λ made. made ≡ atom_renamed (number_of names.now) (text_atom text.now)) }
    ensures distinct { HasDistinctTexts names.now }
{
    let mut atom = Atom::new(alloc, name_in(names, text.name));
    for value in &text.args {
        atom.push(make_value(alloc, names, value)?)?;
    }
    Ok(atom)
}

/// An atom of a text, by the numbers of its names; new names get the next ones, the predicate's first and then the
/// arguments' from left to right, a functor's before those of its arguments. E01 where memory ran out; E02 exactly where the
/// table is then full and lacks one of its names. An `Err` may leave new names after the old ones, which `truncate` to the
/// length before takes back. Where the table has its names already, the atom is the one that was written so, and the table is
/// as before.
pub fn number_atom<A: Allocator + Copy>(
    alloc: A,
    names: &mut Names<A>,
    text: &TextAtom<'_, A>,
) -> Result<Atom<A>, NamesFault>
    requires { FitsAtom (text_atom text.now) }
    ensures gives { Named (λ a. a) result (numbered_atom names.old (text_atom text.now)) names.new }
    ensures full { (result ≡ Err Full) ↔ ((length names.new ≡ most_names) × (AtomIsKnown names.new (text_atom text.now) → ⊥)) }
    ensures says { IfOk result (λ a. names_by names.new a ≡ text_atom text.now) }
    ensures again { (a : Atom ℕ) → HasDistinctTexts names.old → AtomIsNamed (length names.old) a → text_atom text.now ≡ names_by names.old a → Named (λ b. b) result (Some (a, names.old)) names.new }
    ensures keeps { take (length names.old) names.new ≡ names.old }
    ensures fits { length names.new ≤ most_names }
{
    enter_name(names, text.name)?;
    enter_values(names, &text.args)?;
    match make_atom(alloc, names, text) {
        Ok(atom) => Ok(atom),
        Err(_) => Err(NamesFault::NoMemory),
    }
}
