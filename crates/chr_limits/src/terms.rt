//! Terms that are too large.
ghost use Rattle.std.specs.Prelude.{◌≡◌, map, nat_le};
ghost use Rattle.chr_grammar.specs.Views as by_texts;
ghost use Rattle.chr_value.specs.Bounds.{most_depth};
ghost use Rattle.chr_limits.specs.Limits.{arguments_behind, has_wide_functor, is_large_term, has_large_args, compares_large_terms, adds_large_args, has_large_term};

use crate::parts::{Test, any};
use chr_grammar::{BodyMember, GuardMember, ParsedAtom, ParsedRule, ParsedTerm, TermNode};
use chr_value::MOST_ARGS;
use std::alloc::Allocator;

/// How deep a term may be. A variable, a number or a name has depth 1; a functor is one deeper than its deepest argument.
pub const MOST_TERM_DEPTH: usize = 8;

/// How large a term may be. A variable, a number or a name has size 1; a functor's size is one more than the sum of its
/// arguments'.
pub const MOST_TERM_SIZE: usize = 64;

/// A word in too many parentheses.
#[derive(Clone, Copy)]
struct Deep;

impl<'a> Test<TermNode<'a>> for Deep {
    ghost use Rattle.chr_grammar.specs.Parsed as parsed;

    ghost Said = { parsed.TermNode };

    ghost said = { by_texts.node };

    ghost passed = { λ _ n. nat_le most_depth n.depth };

    fn passes(self, part: &TermNode<'a>) -> bool {
        part.depth >= MOST_TERM_DEPTH
    }
}

/// How many arguments a word in so many parentheses has, by the nodes behind it.
fn count_args(depth: usize, behind: &[TermNode]) -> usize
    ensures { result ≡ arguments_behind depth (map by_texts.node behind.now) }
{
    let mut count = 0;
    for node in behind {
        if node.depth <= depth {
            return count;
        }
        if node.depth - depth == 1 {
            count += 1;
        }
    }
    count
}

fn has_wide_functor(nodes: &[TermNode]) -> bool
    ensures { result ≡ has_wide_functor (map by_texts.node nodes.now) }
{
    let mut rest = nodes;
    while let [node, behind @ ..] = rest {
        if count_args(node.depth, behind) > MOST_ARGS {
            return true;
        }
        rest = behind;
    }
    false
}

/// A part with a term that is more than [`MOST_TERM_DEPTH`] deep, more than [`MOST_TERM_SIZE`] large, or has a functor with
/// more than [`MOST_ARGS`] arguments.
#[derive(Clone, Copy)]
pub struct Large;

impl<'a, A: Allocator> Test<ParsedTerm<'a, A>> for Large {
    ghost use Rattle.chr_grammar.specs.Parsed as parsed;

    ghost Said = { parsed.ParsedTerm };

    ghost said = { by_texts.term };

    ghost passed = { λ _. is_large_term };

    fn passes(self, part: &ParsedTerm<'a, A>) -> bool {
        part.nodes.len() > MOST_TERM_SIZE || any(Deep, &part.nodes) || has_wide_functor(&part.nodes)
    }
}

impl<'a, A: Allocator> Test<ParsedAtom<'a, A>> for Large {
    ghost use Rattle.chr_grammar.specs.Parsed as parsed;

    ghost Said = { parsed.ParsedAtom };

    ghost said = { by_texts.phrase };

    ghost passed = { λ _. has_large_args };

    fn passes(self, part: &ParsedAtom<'a, A>) -> bool {
        any(self, &part.args)
    }
}

impl<'a, A: Allocator> Test<GuardMember<'a, A>> for Large {
    ghost use Rattle.chr_grammar.specs.Parsed as parsed;

    ghost Said = { parsed.GuardMember };

    ghost said = { by_texts.test };

    ghost passed = { λ _. compares_large_terms };

    fn passes(self, part: &GuardMember<'a, A>) -> bool {
        match part {
            GuardMember::True => false,
            GuardMember::Compared(..) => false,
            GuardMember::Same(left, right) => self.passes(left) || self.passes(right),
            GuardMember::Differ(left, right) => self.passes(left) || self.passes(right),
        }
    }
}

impl<'a, A: Allocator> Test<BodyMember<'a, A>> for Large {
    ghost use Rattle.chr_grammar.specs.Parsed as parsed;

    ghost Said = { parsed.BodyMember };

    ghost said = { by_texts.member };

    ghost passed = { λ _. adds_large_args };

    fn passes(self, part: &BodyMember<'a, A>) -> bool {
        match part {
            BodyMember::True => false,
            BodyMember::Is(..) => false,
            BodyMember::Add(phrase) => self.passes(phrase),
        }
    }
}

/// Whether a rule has a term that is too large.
pub fn has_large_term<A: Allocator>(rule: &ParsedRule<'_, A>) -> bool
    ensures { result ≡ has_large_term (by_texts.raw_rule rule.now) }
{
    any(Large, &rule.heads.kept)
        || any(Large, &rule.heads.removed)
        || any(Large, &rule.consequence.guard)
        || any(Large, &rule.consequence.body)
}
