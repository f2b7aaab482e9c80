//! Reading programs and posts.
ghost use Rattle.std.specs.Prelude.{◌≡◌, ◌≤◌, ◌<◌, ℕ, zero, List, length, map, take, Result as ResultOf, Err, OnErr};
ghost use Rattle.chr_lex.specs.Items.{Item as Entry, items, entry};
ghost use Rattle.chr_lex.specs.Reading.{Gives, Reads, placed};
ghost use Rattle.chr_lex.specs.Tokens.{lexeme};
ghost use Rattle.chr_text.specs.Fitting.{RulePlain};
ghost use Rattle.chr_text.specs.Reading.{item_lexemes, over_items, of_text, with_rule, with_item, program_of, with_post, posts_of};
ghost use Rattle.chr_lex.specs.declared.fault.Kind.{Kind as FaultKind};
ghost use Rattle.chr_lex.specs.declared.fault.Kind.TheVariants.{TooLong};
ghost use Rattle.chr_value.specs.Atoms.{Atom as AtomOf};
ghost use Rattle.chr_value.specs.Bounds.{most_text_bytes};
ghost use Rattle.chr_rule.specs.Rules.{Simpagation};
ghost use Rattle.chr_lex.specs.declared.fault.ReadError.TheVariants as errors;
ghost use Rattle.chr_grammar.specs.Views as by_texts;
ghost use Rattle.chr_text.specs.Tables.{Table, Keeps};

use crate::build::number_rule;
use crate::posts::number_posts;
use chr_grammar::{ParsedRule, Statement, parse_phrases, parse_statement};
use chr_lex::fault::{ItemError, Kind, ReadError, ReadFault};
use chr_lex::{Item, Token, has_bad_byte, next_item, plain_text, tokens};
use chr_limits::{judge_declaration, judge_post, judge_rule};
use chr_rule::{MOST_RULES, Program};
use chr_value::{Atom, Names};
use std::alloc::Allocator;
use std::sync::Arc;

/// How many bytes a text may have.
pub const MOST_BYTES: usize = 65_536;

/// The tokens of an item that has its end point and no bad byte.
fn item_tokens<'a, A: Allocator + Copy>(
    alloc: A,
    item: Item<'a>,
) -> Result<Vec<Token<'a>, A>, ItemError>
    ensures { Gives (λ v. map lexeme v.items) result (item_lexemes (entry item.entry)) }
{
    if has_bad_byte(item.text) {
        return Err(ItemError::Fault(Kind::BadByte));
    }
    if !item.ended {
        return Err(ItemError::Fault(Kind::Syntax));
    }
    tokens(alloc, item.text)
}

/// Adds a rule, if it may stand.
fn add_rule<A: Allocator + Copy>(
    alloc: A,
    names: &mut Names<A>,
    program: &mut Program<A>,
    rule: &ParsedRule<'_, A>,
) -> Result<(), ItemError>
    requires { RulePlain (by_texts.raw_rule rule.now) }
    ensures gives { Gives (λ u. (program.new, names.new)) result (with_rule (program.old, names.old) (by_texts.raw_rule rule.now)) }
    ensures keeps { (t : Table) → Keeps t names.old → Keeps t names.new }
{
    judge_rule(program.len() >= MOST_RULES, rule)?;
    let rule = number_rule(alloc, names, rule)?;
    program.push(Arc::new(alloc, rule)?)?;
    Ok(())
}

/// What the items of a text give together.
trait Items<A: Allocator + Copy>: Drop + Sized {
    ghost Said: { Type 0 };

    ghost said: { Self → Said };

    ghost with: { Said × Table → Entry → ResultOf (Said × Table) FaultKind };

    /// Adds what an item says.
    fn add_item(&mut self, alloc: A, names: &mut Names<A>, item: Item) -> Result<(), ItemError>
        ensures gives { Gives (λ u. (said self.new, names.new)) result (with (said self.old, names.old) (entry item.entry)) }
        ensures keeps { (t : Table) → Keeps t names.old → Keeps t names.new };
}

impl<A: Allocator + Copy> Items<A> for Program<A> {
    ghost Said = { List (Simpagation ℕ) };

    ghost said = { λ program. program };

    ghost with = { with_item };

    fn add_item(&mut self, alloc: A, names: &mut Names<A>, item: Item) -> Result<(), ItemError> {
        let tokens = item_tokens(alloc, item)?;
        let statement = parse_statement(alloc, &tokens)?;
        match &statement {
            Statement::Import => Ok(()),
            Statement::Declaration(all) => judge_declaration(all),
            Statement::Rule(rule) => add_rule(alloc, names, self, rule),
        }
    }
}

impl<A: Allocator + Copy> Items<A> for Vec<Atom<A>, A> {
    ghost Said = { List (AtomOf ℕ) };

    ghost said = { λ atoms. atoms.items };

    ghost with = { with_post };

    fn add_item(&mut self, alloc: A, names: &mut Names<A>, item: Item) -> Result<(), ItemError> {
        let tokens = item_tokens(alloc, item)?;
        let phrases = parse_phrases(alloc, &tokens)?;
        judge_post(&phrases)?;
        number_posts(alloc, names, self, &phrases)
    }
}

fn at_line(line: u32, error: ItemError) -> ReadError
    ensures { result ≡ placed line error }
{
    match error {
        ItemError::Memory => ReadError::Memory,
        ItemError::Fault(kind) => ReadError::Fault(ReadFault { kind, line }),
    }
}

fn too_long() -> ReadError
    ensures { result ≡ errors.Fault (record { kind = TooLong; line = 0 }) }
{
    ReadError::Fault(ReadFault {
        kind: Kind::TooLong,
        line: 0,
    })
}

/// Adds what all items say.
fn add_items<S: Items<A>, A: Allocator + Copy>(
    alloc: A,
    names: &mut Names<A>,
    mut so_far: S,
    text: &[u8],
) -> Result<S, ReadError>
    requires { length text.now ≤ most_text_bytes }
    ensures reads { Reads (λ made. (S.said made, names.new)) result (over_items S.with (S.said so_far, names.old) (items zero 1 text.now)) }
    ensures keeps { (t : Table) → Keeps t names.old → Keeps t names.new }
{
    let mut line = 1;
    let mut rest = text;
    'items: loop {
        match next_item(line, rest) {
            None => return Ok(so_far),
            Some((item, next_line, after)) => {
                match so_far.add_item(alloc, names, item) {
                    Ok(()) => {}
                    Err(e) => return Err(at_line(item.line, e)),
                }
                line = next_line;
                rest = after;
            }
        }
    }
}

/// What a text says, after what there is. After any error `names` is as before.
#[tactic(auto, using(crate::proofs::Lists::keeps_same))]
fn read_text<S: Items<A>, A: Allocator + Copy>(
    alloc: A,
    bytes: &[u8],
    names: &mut Names<A>,
    so_far: S,
) -> Result<S, ReadError>
    ensures reads { Reads (λ made. (S.said made, names.new)) result (of_text S.with (S.said so_far, names.old) bytes.now) }
    ensures too_long { most_text_bytes < length bytes.now → result ≡ Err (errors.Fault (record { kind = TooLong; line = 0 })) }
    ensures unchanged { OnErr result (names.new ≡ names.old) }
    ensures keeps { take (length names.old) names.new ≡ names.old }
{
    if bytes.len() > MOST_BYTES {
        return Err(too_long());
    }
    let plain = plain_text(alloc, bytes)?;
    let before = names.len();
    match add_items(alloc, names, so_far, &plain) {
        Ok(made) => Ok(made),
        Err(error) => {
            names.truncate(before);
            Err(error)
        }
    }
}

/// The rules of a text, numbered from 1 in text order.
///
/// A text of more than [`MOST_BYTES`] bytes is E09 TooLong at line 0, whatever the allocator says. Else the error is the
/// fault of the first faulty item, with the line of the item's first byte: the first that applies of E03 BadByte, E04
/// Syntax, E05 Propagation, E06 NumberRange, E07 TooMany, E08 Binding, E02 NamesFull. E01 comes only where a growth was
/// refused. After any error `names` is as before; else the names of the rules are in it, after those from before, in
/// text order.
pub fn read_program<A: Allocator + Copy>(
    alloc: A,
    bytes: &[u8],
    names: &mut Names<A>,
) -> Result<Program<A>, ReadError>
    ensures reads { Reads (λ p. (p, names.new)) result (program_of names.old bytes.now) }
    ensures too_long { most_text_bytes < length bytes.now → result ≡ Err (errors.Fault (record { kind = TooLong; line = 0 })) }
    ensures unchanged { OnErr result (names.new ≡ names.old) }
    ensures keeps { take (length names.old) names.new ≡ names.old }
{
    read_text(alloc, bytes, names, Program::new(alloc))
}

/// The atoms of a text of posts, in text order.
///
/// The errors are those of [`read_program`]; a variable is E08 Binding. After any error `names` is as before.
pub fn read_atoms<A: Allocator + Copy>(
    alloc: A,
    bytes: &[u8],
    names: &mut Names<A>,
) -> Result<Vec<Atom<A>, A>, ReadError>
    ensures reads { Reads (λ v. (v.items, names.new)) result (posts_of names.old bytes.now) }
    ensures too_long { most_text_bytes < length bytes.now → result ≡ Err (errors.Fault (record { kind = TooLong; line = 0 })) }
    ensures unchanged { OnErr result (names.new ≡ names.old) }
    ensures keeps { take (length names.old) names.new ≡ names.old }
{
    read_text(alloc, bytes, names, Vec::new(alloc))
}
