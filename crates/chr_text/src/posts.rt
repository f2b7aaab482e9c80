//! Atoms from the phrases of a post: names get their numbers.
ghost use Rattle.std.specs.Prelude.{◌≡◌, ◌++◌, map};
ghost use Rattle.std.specs.List.{AllByRecursion};
ghost use Rattle.chr_lex.specs.Reading.{Gives};
ghost use Rattle.chr_grammar.specs.Views as by_texts;
ghost use Rattle.chr_value.specs.Atoms.{ground};
ghost use Rattle.chr_value.specs.Naming.{numbered_value, numbered_atom};
ghost use Rattle.chr_text.specs.Fitting.{ValueFits, PostFits};
ghost use Rattle.chr_text.specs.Numbering.{or_full, each, more};
ghost use Rattle.chr_text.specs.Translation.{value as value_of, atom_by_texts};
ghost use Rattle.chr_text.specs.Tables.{Table, Keeps};

use crate::naming::number_name;
use crate::terms::number_term;
use chr_grammar::{ParsedAtom, ParsedTerm};
use chr_lex::fault::ItemError;
use chr_limits::Seen;
use chr_rule::Term;
use chr_value::{Atom, Names, Value};
use std::alloc::Allocator;

/// A value: a term without variables.
fn number_value<A: Allocator + Copy>(
    alloc: A,
    names: &mut Names<A>,
    term: &ParsedTerm<'_, A>,
) -> Result<Value<A>, ItemError>
    requires { ValueFits (by_texts.term term.now) }
    ensures gives { Gives (λ v. (ground v, names.new)) result (or_full (numbered_value names.old (value_of (by_texts.term term.now)))) }
    ensures keeps { (t : Table) → Keeps t names.old → Keeps t names.new }
{
    let mut seen = Seen::new();
    match number_term(alloc, names, &mut seen, term)? {
        Term::Given(value) => Ok(value),
        Term::Var(_) => unreachable!(),
        Term::Open(_) => unreachable!(),
    }
}

/// An atom: its name, then its arguments.
fn number_post<A: Allocator + Copy>(
    alloc: A,
    names: &mut Names<A>,
    phrase: &ParsedAtom<'_, A>,
) -> Result<Atom<A>, ItemError>
    requires { PostFits (by_texts.phrase phrase.now) }
    ensures gives { Gives (λ a. (a, names.new)) result (or_full (numbered_atom names.old (atom_by_texts (by_texts.phrase phrase.now)))) }
    ensures keeps { (t : Table) → Keeps t names.old → Keeps t names.new }
{
    let name = number_name(names, phrase.name)?;
    let mut atom = Atom::new(alloc, name);
    for term in &phrase.args {
        let value = number_value(alloc, names, term)?;
        atom.push(value)?;
    }
    Ok(atom)
}

/// The atoms of a post, after those that are there.
pub fn number_posts<A: Allocator + Copy>(
    alloc: A,
    names: &mut Names<A>,
    atoms: &mut Vec<Atom<A>, A>,
    phrases: &[ParsedAtom<'_, A>],
) -> Result<(), ItemError>
    requires { AllByRecursion PostFits (map by_texts.phrase phrases.now) }
    ensures gives { Gives (λ u. (atoms.new.items, names.new)) result (or_full (more atoms.old.items (each numbered_atom names.old (map atom_by_texts (map by_texts.phrase phrases.now))))) }
    ensures keeps { (t : Table) → Keeps t names.old → Keeps t names.new }
{
    for phrase in phrases {
        let atom = number_post(alloc, names, phrase)?;
        atoms.push(atom)?;
    }
    Ok(())
}
