//! From the bytes of texts to a run, and to the bytes shown.
ghost use Rattle.std.specs.Prelude.{◌≡◌, ◌≤◌, ℕ, List, map, IfOk, IfErr};
ghost use Rattle.chr_value.specs.Bounds.{greatest_label};
ghost use Rattle.chr_calls.specs.Tickets.{AreQuiet};
ghost use Rattle.chr_book.specs.Texts.{IsOpenText};
ghost use Rattle.chr_solo.specs.declared.solo.End.TheVariants.{Quiet};
ghost use Rattle.chr_run_text.specs.RunText.{IsRunText};
ghost use Rattle.chr_run_text.specs.RunTexts.{IsMadeRun, ArePosted, posts_fault, whole_fault, AreRefused, IsRunOn, IsRunTexts, IsShown};

use crate::output::Show;
use crate::ran::Ran;
use chr_book::Book;
use chr_lex::fault::{ReadError, ReadFault};
use chr_solo::{End, watched_steps};
use chr_store::Label;
use chr_watch::{Unwatched, Watch};
use std::alloc::{AllocError, Allocator};

/// The seat that makes all calls.
const SEAT: u32 = 0;

/// What a run gives: the bytes shown, and whether a ticket is left open.
#[derive(Drop)]
pub struct RunOut<A: Allocator> {
    pub bytes: Vec<u8, A>,
    pub end: End,
}

/// Why there is no run.
#[derive(Clone, Copy, Debug, PartialEq, Eq)]
pub enum RunFault {
    /// A fault in the text of rules.
    Program(ReadFault),
    /// A fault in the text of posts.
    Posts(ReadFault),
    /// E01: a growth was refused.
    Memory,
}

/// Why there is no run of texts of posts.
#[derive(Clone, Copy, Debug, PartialEq, Eq)]
pub enum RunTextsFault {
    /// A fault in the text of rules.
    Program(ReadFault),
    /// A fault in the text of posts of this place, from 0.
    Posts { place: usize, fault: ReadFault },
    /// E01: a growth was refused.
    Memory,
}

/// Why a text of posts of this place was not posted.
fn posts_fault(place: usize, error: ReadError) -> RunTextsFault
    ensures { result ≡ posts_fault place error }
{
    match error {
        ReadError::Fault(fault) => RunTextsFault::Posts { place, fault },
        ReadError::Memory => RunTextsFault::Memory,
    }
}

/// The same fault where there is one text of posts.
fn whole_fault(fault: RunTextsFault) -> RunFault
    ensures { result ≡ whole_fault fault }
{
    match fault {
        RunTextsFault::Program(fault) => RunFault::Program(fault),
        RunTextsFault::Posts { fault, .. } => RunFault::Posts(fault),
        RunTextsFault::Memory => RunFault::Memory,
    }
}

/// A book of the rules of a text.
fn open<A: Allocator + Copy>(
    alloc: A,
    program: &[u8],
    labels: Label,
) -> Result<Book<A>, RunTextsFault>
    requires { labels ≤ greatest_label }
    ensures ok { IfOk result (IsOpenText program.now labels) }
    ensures err { IfErr result (λ fault. (posts : List (List ℕ)) → AreRefused program.now posts fault) }
{
    match Book::of_text(alloc, program, labels) {
        Ok(book) => Ok(book),
        Err(ReadError::Fault(fault)) => Err(RunTextsFault::Program(fault)),
        Err(ReadError::Memory) => Err(RunTextsFault::Memory),
    }
}

/// Posts the atoms of texts, one text after another. After an `Err` those of the texts before the faulty one are posted.
fn post_all<A: Allocator + Copy>(book: &mut Book<A>, posts: &[&[u8]]) -> Result<(), RunTextsFault>
    ensures { ArePosted book.old (map (λ text. text.now) posts.now) result book.new }
{
    for (place, text) in posts.iter().enumerate() {
        if let Err(error) = book.post_text(SEAT, text) {
            return Err(posts_fault(place, error));
        }
    }
    Ok(())
}

/// Makes at most `steps` calls on a book.
fn run_posted<A: Allocator + Copy, W: Watch>(
    book: &mut Book<A>,
    steps: u64,
    watch: &mut W,
) -> Result<End, AllocError>
    ensures { IfOk result (λ end. IsMadeRun steps end book.old book.new) }
{
    let solo = watched_steps(book, SEAT, steps, watch)?;
    Ok(solo.end)
}

/// Posts texts to a book as it is opened, and makes at most `steps` calls.
fn run_on<A: Allocator + Copy, W: Watch>(
    book: &mut Book<A>,
    posts: &[&[u8]],
    steps: u64,
    watch: &mut W,
) -> Result<End, RunTextsFault>
    ensures run { (program : List ℕ) (labels : ℕ) → IsOpenText program labels book.old → IsRunOn program (map (λ text. text.now) posts.now) steps labels result book.new }
    ensures quiet { IfOk result (λ end. end ≡ Quiet → AreQuiet book.new.tickets) }
{
    match post_all(book, posts) {
        Ok(()) => match run_posted(book, steps, watch) {
            Ok(end) => Ok(end),
            Err(_) => Err(RunTextsFault::Memory),
        },
        Err(fault) => Err(fault),
    }
}

/// What is shown of a run, with its end.
fn run_out<A: Allocator + Copy>(alloc: A, ran: Ran<A>, show: Show) -> Result<RunOut<A>, RunFault>
    ensures { IsShown show ran.end ran.book result }
{
    let end = ran.end;
    match ran.into_shown(alloc, show) {
        Ok(bytes) => Ok(RunOut { bytes, end }),
        Err(_) => Err(RunFault::Memory),
    }
}

/// Reads rules and texts of posts with one table of names, posts all atoms of all texts in order, and makes at most `steps`
/// calls by one seat, as [`run_text`] does. Each text keeps the limit on length by itself, and lines are counted from 1 in
/// each.
pub fn run_texts<A: Allocator + Copy>(
    alloc: A,
    program: &[u8],
    posts: &[&[u8]],
    steps: u64,
    labels: Label,
) -> Result<Ran<A>, RunTextsFault>
    requires { labels ≤ greatest_label }
    ensures { IsRunTexts program.now (map (λ text. text.now) posts.now) steps labels result }
{
    watched_run_texts(alloc, program, posts, steps, labels, &mut Unwatched)
}

/// The same, and `watch` is told of the calls, as [`watched_steps`] tells it.
pub fn watched_run_texts<A: Allocator + Copy, W: Watch>(
    alloc: A,
    program: &[u8],
    posts: &[&[u8]],
    steps: u64,
    labels: Label,
    watch: &mut W,
) -> Result<Ran<A>, RunTextsFault>
    requires { labels ≤ greatest_label }
    ensures { IsRunTexts program.now (map (λ text. text.now) posts.now) steps labels result }
{
    let mut book = match open(alloc, program, labels) {
        Ok(book) => book,
        Err(fault) => return Err(fault),
    };
    match run_on(&mut book, posts, steps, watch) {
        Ok(end) => Ok(Ran { book, end }),
        Err(fault) => Err(fault),
    }
}

/// Reads rules and posts with one table of names, posts all atoms in order, and makes at most `steps` calls by one seat, each
/// for the least open ticket: it is claimed, its trials are asked for and judged one by one, a whole one fires, another is
/// reported, and where none is left the goal is dropped. No label above `labels` is given: it ends at a claim that asks for
/// one. What is shown of the book then is given by `show`.
pub fn run_text<A: Allocator + Copy>(
    alloc: A,
    program: &[u8],
    posts: &[u8],
    steps: u64,
    labels: Label,
    show: Show,
) -> Result<RunOut<A>, RunFault>
    requires { labels ≤ greatest_label }
    ensures { IsRunText program.now posts.now steps labels show result }
{
    watched_run(alloc, program, posts, steps, labels, show, &mut Unwatched)
}

/// The same, and `watch` is told of the calls, as [`watched_steps`] tells it.
pub fn watched_run<A: Allocator + Copy, W: Watch>(
    alloc: A,
    program: &[u8],
    posts: &[u8],
    steps: u64,
    labels: Label,
    show: Show,
    watch: &mut W,
) -> Result<RunOut<A>, RunFault>
    requires { labels ≤ greatest_label }
    ensures { IsRunText program.now posts.now steps labels show result }
{
    match watched_run_texts(alloc, program, &[posts], steps, labels, watch) {
        Ok(ran) => run_out(alloc, ran, show),
        Err(fault) => Err(whole_fault(fault)),
    }
}
