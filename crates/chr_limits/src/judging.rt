//! What may not stand in an item, in the order in which it is tested.
ghost use Rattle.std.specs.Prelude.{◌≡◌, ◌≢◌, false, map, IfErr};
ghost use Rattle.chr_grammar.specs.Views as by_texts;
ghost use Rattle.chr_lex.specs.Reading.{Gives};
ghost use Rattle.chr_lex.specs.Tokens.{Name, Number};
ghost use Rattle.chr_lex.specs.declared.fault.ItemError.TheVariants.{Memory};
ghost use Rattle.chr_limits.specs.Words.{is_out_of_range, is_long};
ghost use Rattle.chr_limits.specs.Limits.{is_too_large};
ghost use Rattle.chr_limits.specs.Judging.{declaration_judged, rule_judged, post_judged};

use crate::limits::{Counted, Unfit, Wide, has_many_heads, has_wide_atom, rule_has};
use crate::number::int;
use crate::parts::{Test, any, count};
use crate::scope::is_in_scope;
use crate::terms::{Large, has_large_term};
use crate::variables::has_many_variables;
use chr_grammar::{Declared, ParsedAtom, ParsedRule};
use chr_lex::fault::{ItemError, Kind};
use chr_rule::{MOST_COMPARISONS, MOST_ITEMS};
use chr_value::MOST_NAME_BYTES;
use std::alloc::Allocator;

/// A number that is out of range.
#[derive(Clone, Copy)]
struct OutOfRange;

impl<'a> Test<Declared<'a>> for OutOfRange {
    ghost use Rattle.chr_grammar.specs.Parsed as parsed;

    ghost Said = { parsed.Declared };

    ghost said = { by_texts.declared };

    ghost passed = { λ _ d. is_out_of_range (Number false d.digits) };

    fn passes(self, part: &Declared<'a>) -> bool {
        int(false, part.digits).is_none()
    }
}

/// A name that is too long.
#[derive(Clone, Copy)]
struct Long;

impl<'a> Test<Declared<'a>> for Long {
    ghost use Rattle.chr_grammar.specs.Parsed as parsed;

    ghost Said = { parsed.Declared };

    ghost said = { by_texts.declared };

    ghost passed = { λ _ d. is_long (Name d.name) };

    fn passes(self, part: &Declared<'a>) -> bool {
        part.name.len() > MOST_NAME_BYTES
    }
}

fn is_too_large<A: Allocator>(rule: &ParsedRule<'_, A>) -> bool
    ensures { result ≡ is_too_large (by_texts.raw_rule rule.now) }
{
    if rule_has(Unfit::TooLong, rule) || has_wide_atom(rule) || has_large_term(rule) {
        return true;
    }
    if has_many_heads(rule) {
        return true;
    }
    if count(Counted, &rule.consequence.guard) > MOST_COMPARISONS {
        return true;
    }
    if count(Counted, &rule.consequence.body) > MOST_ITEMS {
        return true;
    }
    has_many_variables(rule)
}

/// Judges the names and numbers of a declaration. It takes no memory.
///
/// The fault is the first of these: a number outside the range of 64 bits with sign (E06), a name of more than 64 bytes
/// (E07).
pub fn judge_declaration(all: &[Declared]) -> Result<(), ItemError>
    ensures judged { Gives (λ u. u) result (declaration_judged (map by_texts.declared all.now)) }
    ensures no_memory { IfErr result (λ e. e ≢ Memory) }
{
    if any(OutOfRange, all) {
        return Err(ItemError::Fault(Kind::NumberRange));
    }
    if any(Long, all) {
        return Err(ItemError::Fault(Kind::TooMany));
    }
    Ok(())
}

/// Judges a rule; `full` says that the program has all its rules already. It takes no memory.
///
/// The fault is the first of these: the rule removes nothing (E05), a number is outside the range of 64 bits with sign
/// (E06), the program is full or something is too long or too many (E07), a variable is used where it has no value or
/// gets a second one (E08).
pub fn judge_rule<A: Allocator>(full: bool, rule: &ParsedRule<'_, A>) -> Result<(), ItemError>
    ensures judged { Gives (λ u. u) result (rule_judged full (by_texts.raw_rule rule.now)) }
    ensures no_memory { IfErr result (λ e. e ≢ Memory) }
{
    if rule.heads.removed.is_empty() {
        return Err(ItemError::Fault(Kind::Propagation));
    }
    if rule_has(Unfit::OutOfRange, rule) {
        return Err(ItemError::Fault(Kind::NumberRange));
    }
    if full || is_too_large(rule) {
        return Err(ItemError::Fault(Kind::TooMany));
    }
    if !is_in_scope(rule) {
        return Err(ItemError::Fault(Kind::Binding));
    }
    Ok(())
}

/// Judges the atoms of a post. It takes no memory.
///
/// The fault is the first of these: a number outside the range of 64 bits with sign (E06), a name of more than 64 bytes,
/// an atom or a functor with more than 8 arguments, or a term that is too deep or too large (E07), a variable (E08).
pub fn judge_post<A: Allocator>(phrases: &[ParsedAtom<'_, A>]) -> Result<(), ItemError>
    ensures judged { Gives (λ u. u) result (post_judged (map by_texts.phrase phrases.now)) }
    ensures no_memory { IfErr result (λ e. e ≢ Memory) }
{
    if any(Unfit::OutOfRange, phrases) {
        return Err(ItemError::Fault(Kind::NumberRange));
    }
    if any(Unfit::TooLong, phrases) || any(Wide, phrases) || any(Large, phrases) {
        return Err(ItemError::Fault(Kind::TooMany));
    }
    if any(Unfit::Variable, phrases) {
        return Err(ItemError::Fault(Kind::Binding));
    }
    Ok(())
}
