//! Terms from their numbered words.
ghost use Rattle.std.specs.Prelude.{◌≡◌, ◌≤◌, ◌++◌, ◌∷◌, [], map, vec_len, IfOk, OnOk};
ghost use Rattle.std.specs.List.{list_any};
ghost use Rattle.chr_value.specs.Atoms.{grounds};
ghost use Rattle.chr_value.specs.Bounds.{most_arguments};
ghost use Rattle.chr_rule.specs.Parts.{argument};
ghost use Rattle.chr_rule.specs.Terms.{is_open};
ghost use Rattle.chr_text.specs.Terms.{inside, behind, values, functor_with, with_args, term_of_words, TakeFew};
ghost use Rattle.chr_text.specs.Trees.{is_deeper, from_top};
ghost use Rattle.chr_text.specs.Words.{word_term, placed_word};

use crate::words::{NumberedNode, NumberedWord};
use chr_rule::{Open, Term};
use chr_value::{Arguments, Comp, Name, Value};
use std::alloc::{AllocError, Allocator};

/// A term that is built.
#[derive(Drop)]
struct PlacedTerm<A: Allocator> {
    term: Term<A>,
    /// In how many parentheses the term stands.
    depth: usize,
}

/// A word alone. It takes no memory.
fn word_term<A: Allocator>(word: NumberedWord) -> Term<A>
    ensures { argument result ≡ word_term word }
{
    match word {
        NumberedWord::Variable(number) => Term::Var(number),
        NumberedWord::Name(name) => Term::Given(Value::Sym(name)),
        NumberedWord::Number(number) => Term::Given(Value::Int(number)),
    }
}

/// Whether a term is no value.
fn is_open<A: Allocator>(term: &Term<A>) -> bool
    ensures { result ≡ is_open (argument term.now) }
{
    match term {
        Term::Given(_) => false,
        Term::Var(_) => true,
        Term::Open(_) => true,
    }
}

fn any_open<A: Allocator>(terms: &[Term<A>]) -> bool
    ensures { result ≡ list_any is_open (map argument terms.now) }
{
    for term in terms {
        if is_open(term) {
            return true;
        }
    }
    false
}

/// Adds the value that a term is. A term with variables is none. An `Err` is E01.
fn push_value<A: Allocator>(made: &mut Vec<Value<A>, A>, term: Term<A>) -> Result<(), AllocError>
    ensures { OnOk result (grounds made.new.items ≡ grounds made.old.items ++ values (argument term ∷ [])) }
{
    match term {
        Term::Given(value) => made.push(value)?,
        Term::Var(_) => {}
        Term::Open(_) => {}
    }
    Ok(())
}

/// The values among terms. An `Err` is E01.
fn values<A: Allocator + Copy>(
    alloc: A,
    terms: Vec<Term<A>, A>,
) -> Result<Vec<Value<A>, A>, AllocError>
    ensures { IfOk result (λ made. grounds made.items ≡ values (map argument terms.items)) }
{
    let mut made = Vec::new(alloc);
    for term in terms {
        push_value(&mut made, term)?;
    }
    Ok(made)
}

/// Makes a functor with its one to eight arguments: a value where each of these is one. An `Err` is E01.
fn functor_with<A: Allocator + Copy>(
    alloc: A,
    functor: Name,
    args: Vec<Term<A>, A>,
) -> Result<Term<A>, AllocError>
    requires some { 1 ≤ vec_len args }
    requires few { vec_len args ≤ most_arguments }
    ensures { IfOk result (λ made. argument made ≡ functor_with functor.number (map argument args.items)) }
{
    if any_open(&args) {
        let args = Arguments::new(args);
        return Ok(Term::Open(Box::new(alloc, Open { functor, args })?));
    }
    let args = Arguments::new(values(alloc, args)?);
    Ok(Term::Given(Value::Comp(Box::new(alloc, Comp { functor, args })?)))
}

/// Gives a word its arguments, at most eight. Only a name has some. An `Err` is E01.
fn with_args<A: Allocator + Copy>(
    alloc: A,
    word: NumberedWord,
    args: Vec<Term<A>, A>,
) -> Result<Term<A>, AllocError>
    requires { vec_len args ≤ most_arguments }
    ensures { IfOk result (λ made. argument made ≡ with_args (word_term word) (map argument args.items)) }
{
    if args.is_empty() {
        return Ok(word_term(word));
    }
    match word {
        NumberedWord::Name(functor) => functor_with(alloc, functor, args),
        _ => Ok(word_term(word)),
    }
}

/// Whether the term on top of a stack stands in more than `depth` parentheses.
fn is_deeper<A: Allocator>(stack: &[PlacedTerm<A>], depth: usize) -> bool
    ensures { result ≡ is_deeper depth (from_top stack.now) }
{
    match stack {
        [.., top] => top.depth > depth,
        [] => false,
    }
}

/// Takes the terms that stand in more than `depth` parentheses from the top of a stack. An `Err` is E01.
fn take_inside<A: Allocator + Copy>(
    alloc: A,
    depth: usize,
    stack: &mut Vec<PlacedTerm<A>, A>,
) -> Result<Vec<Term<A>, A>, AllocError>
    ensures taken { IfOk result (λ terms. map argument terms.items ≡ inside depth (from_top stack.old.items)) }
    ensures left { OnOk result (from_top stack.new.items ≡ behind depth (from_top stack.old.items)) }
{
    let mut terms = Vec::new(alloc);
    while is_deeper(stack, depth) {
        let Some(top) = stack.pop() else {
            unreachable!();
        };
        terms.push(top.term)?;
    }
    Ok(terms)
}

/// Builds the term of these words from the last one to the first. A word alone takes no memory. An `Err` is E01.
pub fn build_term<A: Allocator + Copy>(
    alloc: A,
    words: &[NumberedNode],
) -> Result<Term<A>, AllocError>
    requires { TakeFew (map placed_word words.now) }
    ensures { IfOk result (λ made. argument made ≡ term_of_words (map placed_word words.now)) }
{
    if let [alone] = words {
        return Ok(word_term(alone.word));
    }
    let mut stack = Vec::new(alloc);
    for place in (0..words.len()).rev() {
        let node = words[place];
        let args = take_inside(alloc, node.depth, &mut stack)?;
        let term = with_args(alloc, node.word, args)?;
        let depth = node.depth;
        stack.push(PlacedTerm { term, depth })?;
    }
    match stack.pop() {
        Some(top) => Ok(top.term),
        None => Ok(Term::Var(0)),
    }
}
