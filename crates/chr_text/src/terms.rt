//! Terms from what is written: names and variables get their numbers.
ghost use Rattle.std.specs.Prelude.{◌≡◌, ◌≤◌, length, OnOk};
ghost use Rattle.chr_value.specs.Bounds.{most_variables};
ghost use Rattle.chr_lex.specs.Reading.{Gives};
ghost use Rattle.chr_grammar.specs.Views as by_texts;
ghost use Rattle.chr_limits.specs.Views.{names as texts};
ghost use Rattle.chr_rule.specs.Parts.{argument};
ghost use Rattle.chr_text.specs.Fitting.{TermFits};
ghost use Rattle.chr_text.specs.Numbering.{or_full, numbered_term};
ghost use Rattle.chr_text.specs.Translation as raw;
ghost use Rattle.chr_text.specs.Tables.{Table, Keeps};

use crate::trees::build_term;
use crate::words::number_words;
use chr_grammar::ParsedTerm;
use chr_lex::fault::ItemError;
use chr_limits::Seen;
use chr_rule::Term;
use chr_value::Names;
use std::alloc::Allocator;

/// A term. All its words are numbered before it is built, so that memory that it wants hides no full table.
pub fn number_term<'a, A: Allocator + Copy>(
    alloc: A,
    names: &mut Names<A>,
    seen: &mut Seen<'a>,
    term: &ParsedTerm<'a, A>,
) -> Result<Term<A>, ItemError>
    requires fits { TermFits (by_texts.term term.now) }
    requires room { length (raw.argument (texts seen.old.items) (by_texts.term term.now)).1 ≤ most_variables }
    ensures gives { Gives (λ t. (argument t, names.new)) result (or_full (numbered_term names.old (raw.argument (texts seen.old.items) (by_texts.term term.now)).0)) }
    ensures seen { OnOk result (texts seen.new.items ≡ (raw.argument (texts seen.old.items) (by_texts.term term.now)).1) }
    ensures keeps { (t : Table) → Keeps t names.old → Keeps t names.new }
{
    let words = number_words(names, seen, &term.nodes)?;
    let term = build_term(alloc, &words)?;
    Ok(term)
}
