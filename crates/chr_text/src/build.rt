//! Rules from what is written: names and variables get their numbers.
ghost use Rattle.std.specs.Prelude.{◌≡◌, ◌≤◌, ◌∷◌, ℕ, List, [], length, IfOk, OnOk};
ghost use Rattle.chr_value.specs.Bounds.{most_variables};
ghost use Rattle.chr_lex.specs.Reading.{Gives};
ghost use Rattle.chr_grammar.specs.Views as by_texts;
ghost use Rattle.chr_limits.specs.Views.{names as texts};
ghost use Rattle.chr_rule.specs.Parts.{argument, shape, expression, comparison, member as item_of};
ghost use Rattle.chr_rule.specs.Rules.{Operation};
ghost use Rattle.chr_text.specs.Fitting.{TermFits, ShapeFits, ExpressionFits, TestFits, MemberFits, RuleFits};
ghost use Rattle.chr_text.specs.Numbering as numbering;
ghost use Rattle.chr_text.specs.Numbering.{or_full, each};
ghost use Rattle.chr_text.specs.Translation as raw;
ghost use Rattle.chr_text.specs.Translation.{given};
ghost use Rattle.chr_text.specs.Variables.{in_turn};
ghost use Rattle.chr_text.specs.Tables.{Table, Keeps};
ghost use Rattle.chr_text.specs.Ways.{way};

use crate::in_order::{Made, Part, number_parts};
use crate::naming::number_name;
use crate::terms::number_term;
use crate::variables::number_variable;
use chr_grammar::{BodyMember, GuardMember, ParsedAtom, ParsedExpression, ParsedRule, ParsedTerm};
use chr_lex::fault::ItemError;
use chr_limits::{Seen, int_in_range};
use chr_rule::{BodyItem, Comparison, Expr, Operator, Rule, RuleAtom, Term};
use chr_value::Names;
use std::alloc::{AllocError, Allocator};

impl<'a, A: Allocator + Copy> Part<Seen<'a>, Term<A>, A> for ParsedTerm<'a, A> {
    ghost before = { λ seen. texts seen.items };

    ghost way = { way by_texts.term TermFits (given raw.argument) numbering.numbered_term argument };

    fn number(&self, alloc: A, names: &mut Names<A>, seen: &mut Seen<'a>) -> Made<Term<A>> {
        Ok(Some(number_term(alloc, names, seen, self)?))
    }
}

/// A constraint of a rule: its name, then its arguments.
impl<'a, A: Allocator + Copy> Part<Seen<'a>, RuleAtom<A>, A> for ParsedAtom<'a, A> {
    ghost before = { λ seen. texts seen.items };

    ghost way = { way by_texts.phrase ShapeFits (given raw.rule_atom) numbering.numbered_rule_atom shape };

    fn number(&self, alloc: A, names: &mut Names<A>, seen: &mut Seen<'a>) -> Made<RuleAtom<A>> {
        let name = number_name(names, self.name)?;
        let terms = number_parts(alloc, names, seen, &self.args)?;
        Ok(Some(RuleAtom { name, terms }))
    }
}

fn operation<A: Allocator + Copy>(
    alloc: A,
    operator: Operator,
    left: Expr<A>,
    right: Expr<A>,
) -> Result<Expr<A>, AllocError>
    ensures { IfOk result (λ e. expression e ≡ Operation operator (expression left) (expression right)) }
{
    Ok(Expr::Operation(operator, Box::new(alloc, left)?, Box::new(alloc, right)?))
}

fn number_tree<'a, A: Allocator + Copy>(
    alloc: A,
    seen: &mut Seen<'a>,
    tree: &ParsedExpression<'a, A>,
) -> Result<Expr<A>, AllocError>
    requires { ExpressionFits (texts seen.old.items) (by_texts.formula tree.now) }
    ensures gives { IfOk result (λ e. expression e ≡ (raw.expression (texts seen.old.items) (by_texts.formula tree.now)).0) }
    ensures seen { OnOk result (texts seen.new.items ≡ (raw.expression (texts seen.old.items) (by_texts.formula tree.now)).1) }
{
    match tree {
        ParsedExpression::Number { negative, digits } => {
            Ok(Expr::Number(int_in_range(*negative, digits)))
        }
        ParsedExpression::Variable(name) => Ok(Expr::Var(number_variable(seen, *name))),
        ParsedExpression::Group(inner) => number_tree(alloc, seen, inner),
        ParsedExpression::Operation(operator, left, right) => {
            let left = number_tree(alloc, seen, left)?;
            let right = number_tree(alloc, seen, right)?;
            operation(alloc, *operator, left, right)
        }
    }
}

/// Two terms that are compared.
fn number_pair<'a, A: Allocator + Copy>(
    alloc: A,
    names: &mut Names<A>,
    seen: &mut Seen<'a>,
    left: &ParsedTerm<'a, A>,
    right: &ParsedTerm<'a, A>,
) -> Result<(Term<A>, Term<A>), ItemError>
    requires left_fits { TermFits (by_texts.term left.now) }
    requires right_fits { TermFits (by_texts.term right.now) }
    requires room { length (in_turn raw.argument (texts seen.old.items) (by_texts.term left.now ∷ by_texts.term right.now ∷ [])).1 ≤ most_variables }
    ensures gives { Gives (λ p. (argument p.0 ∷ argument p.1 ∷ [], names.new)) result (or_full (each numbering.numbered_term names.old (in_turn raw.argument (texts seen.old.items) (by_texts.term left.now ∷ by_texts.term right.now ∷ [])).0)) }
    ensures seen { OnOk result (texts seen.new.items ≡ (in_turn raw.argument (texts seen.old.items) (by_texts.term left.now ∷ by_texts.term right.now ∷ [])).1) }
    ensures keeps { (t : Table) → Keeps t names.old → Keeps t names.new }
{
    let left = number_term(alloc, names, seen, left)?;
    let right = number_term(alloc, names, seen, right)?;
    Ok((left, right))
}

/// A comparison; nothing for `true`.
impl<'a, A: Allocator + Copy> Part<Seen<'a>, Comparison<A>, A> for GuardMember<'a, A> {
    ghost before = { λ seen. texts seen.items };

    ghost way = { way by_texts.test TestFits raw.test numbering.number_test comparison };

    fn number(&self, alloc: A, names: &mut Names<A>, seen: &mut Seen<'a>) -> Made<Comparison<A>> {
        match self {
            GuardMember::True => Ok(None),
            GuardMember::Compared(relation, left, right) => {
                let left = number_tree(alloc, seen, left)?;
                let right = number_tree(alloc, seen, right)?;
                Ok(Some(Comparison::Numbers(*relation, left, right)))
            }
            GuardMember::Same(left, right) => {
                let (left, right) = number_pair(alloc, names, seen, left, right)?;
                Ok(Some(Comparison::Same(left, right)))
            }
            GuardMember::Differ(left, right) => {
                let (left, right) = number_pair(alloc, names, seen, left, right)?;
                Ok(Some(Comparison::Differ(left, right)))
            }
        }
    }
}

/// A member of the body; nothing for `true`.
impl<'a, A: Allocator + Copy> Part<Seen<'a>, BodyItem<A>, A> for BodyMember<'a, A> {
    ghost before = { λ seen. texts seen.items };

    ghost way = { way by_texts.member MemberFits raw.member numbering.number_member item_of };

    fn number(&self, alloc: A, names: &mut Names<A>, seen: &mut Seen<'a>) -> Made<BodyItem<A>> {
        match self {
            BodyMember::True => Ok(None),
            BodyMember::Is(name, tree) => {
                let variable = number_variable(seen, *name);
                let expression = number_tree(alloc, seen, tree)?;
                Ok(Some(BodyItem::Is(variable, expression)))
            }
            BodyMember::Add(phrase) => {
                let Some(pattern) = phrase.number(alloc, names, seen)? else {
                    unreachable!();
                };
                Ok(Some(BodyItem::Add(pattern)))
            }
        }
    }
}

/// The rule, with its variables numbered in the order in which they are seen and its names by the table.
pub fn number_rule<A: Allocator + Copy>(
    alloc: A,
    names: &mut Names<A>,
    rule: &ParsedRule<'_, A>,
) -> Result<Rule<A>, ItemError>
    requires { RuleFits (by_texts.raw_rule rule.now) }
    ensures gives { Gives (λ r. (r, names.new)) result (or_full (numbering.number_rule names.old (raw.rule (by_texts.raw_rule rule.now)))) }
    ensures keeps { (t : Table) → Keeps t names.old → Keeps t names.new }
{
    let mut seen = Seen::new();
    let mut heads = number_parts(alloc, names, &mut seen, &rule.heads.kept)?;
    let kept = heads.len();
    let mut removed = number_parts(alloc, names, &mut seen, &rule.heads.removed)?;
    heads.append(&mut removed)?;
    let guard = number_parts(alloc, names, &mut seen, &rule.consequence.guard)?;
    let body = number_parts(alloc, names, &mut seen, &rule.consequence.body)?;
    Ok(Rule::from_parts(seen.len(), heads, kept, guard, body))
}
