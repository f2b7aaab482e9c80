//! Words of terms by their numbers.
ghost use Rattle.std.specs.Prelude.{◌≡◌, ◌≤◌, length, map, OnOk};
ghost use Rattle.std.specs.List.{AllByRecursion};
ghost use Rattle.chr_value.specs.Bounds.{most_size, most_variables};
ghost use Rattle.chr_lex.specs.Reading.{Gives};
ghost use Rattle.chr_lex.specs.Tokens.{word as word_of};
ghost use Rattle.chr_grammar.specs.Views.{node as node_of};
ghost use Rattle.chr_limits.specs.Views.{names as texts};
ghost use Rattle.chr_text.specs.Fitting.{WordFits, NodeFits};
ghost use Rattle.chr_text.specs.Numbering.{or_full, each, numbered_term, numbered_word};
ghost use Rattle.chr_text.specs.Translation.{word_term as word_by_texts, placed_word as node_by_texts};
ghost use Rattle.chr_text.specs.Variables.{in_turn};
ghost use Rattle.chr_text.specs.Words.{word_term, placed_word};
ghost use Rattle.chr_text.specs.Tables.{Table, Keeps};

use crate::naming::number_name;
use crate::variables::number_variable;
use arrayvec::ArrayVec;
use chr_grammar::TermNode;
use chr_lex::Word;
use chr_lex::fault::ItemError;
use chr_limits::{MOST_TERM_SIZE, Seen, int_in_range};
use chr_value::{Name, Names};
use std::alloc::Allocator;

/// A word by the number of its variable or its name, or a number.
#[derive(Clone, Copy)]
pub enum NumberedWord {
    Variable(u8),
    Name(Name),
    Number(i64),
}

/// A word of a term by its number.
#[derive(Clone, Copy)]
pub struct NumberedNode {
    pub word: NumberedWord,
    /// In how many parentheses of the term the word stands.
    pub depth: usize,
}

impl Default for NumberedNode {
    fn default() -> Self {
        NumberedNode {
            word: NumberedWord::Number(0),
            depth: 0,
        }
    }
}

/// The words of a term in text order.
pub type NumberedWords = ArrayVec<NumberedNode, MOST_TERM_SIZE>;

fn number_word<'a, A: Allocator + Copy>(
    names: &mut Names<A>,
    seen: &mut Seen<'a>,
    part: Word<'a>,
) -> Result<NumberedWord, ItemError>
    requires fits { WordFits (word_of part) }
    requires room { length (word_by_texts (texts seen.old.items) (word_of part)).1 ≤ most_variables }
    ensures gives { Gives (λ w. (word_term w, names.new)) result (or_full (numbered_term names.old (word_by_texts (texts seen.old.items) (word_of part.entry)).0)) }
    ensures seen { OnOk result (texts seen.new.items ≡ (word_by_texts (texts seen.old.items) (word_of part.entry)).1) }
    ensures keeps { (t : Table) → Keeps t names.old → Keeps t names.new }
{
    match part {
        Word::Variable(name) => Ok(NumberedWord::Variable(number_variable(seen, name))),
        Word::Name(name) => Ok(NumberedWord::Name(number_name(names, name)?)),
        Word::Number { negative, digits } => {
            Ok(NumberedWord::Number(int_in_range(negative, digits)))
        }
    }
}

/// Numbers the words of a term from left to right. Only a new name takes memory.
pub fn number_words<'a, A: Allocator + Copy>(
    names: &mut Names<A>,
    seen: &mut Seen<'a>,
    nodes: &[TermNode<'a>],
) -> Result<NumberedWords, ItemError>
    requires fits { AllByRecursion NodeFits (map node_of nodes.now) }
    requires few { length nodes.now ≤ most_size }
    requires room { length (in_turn node_by_texts (texts seen.old.items) (map node_of nodes.now)).1 ≤ most_variables }
    ensures gives { Gives (λ v. (map placed_word v.items, names.new)) result (or_full (each numbered_word names.old (in_turn node_by_texts (texts seen.old.items) (map node_of nodes.now)).0)) }
    ensures seen { OnOk result (texts seen.new.items ≡ (in_turn node_by_texts (texts seen.old.items) (map node_of nodes.now)).1) }
    ensures keeps { (t : Table) → Keeps t names.old → Keeps t names.new }
{
    let mut words = ArrayVec::new();
    for node in nodes {
        let word = number_word(names, seen, node.word)?;
        let depth = node.depth;
        words.push(NumberedNode { word, depth });
    }
    Ok(words)
}
