//! The desk, and the replies to each command.
ghost use Rattle.std.specs.Prelude.{◌≡◌, ◌≤◌, ℕ, None, Some, vec_len};
ghost use Rattle.chr_value.specs.Bounds.{greatest_label};
ghost use Rattle.chr_calls.specs.Books.{BookState};
ghost use Rattle.chr_session.specs.Commands.{reply_of, command_of};
ghost use Rattle.chr_solo.specs.SoloSteps.{LoadsText, PostReplies, WaitReplies, StoreReplies, LogReplies, BookReplies, SoloReplies};

use crate::solo::{End, solo_steps};
use chr_book::Book;
use chr_lex::fault::ReadError;
use chr_session::{Command, Desk, Fault, Reply};
use chr_store::Label;
use std::alloc::Allocator;
use std::marker::Model;

/// The seat that makes all calls.
const SEAT: u32 = 0;

/// A desk that has no program at first, and then a book on which one seat makes calls when it is asked to wait. Contracts
/// see the label limit and the book.
#[derive(Drop)]
pub struct SoloDesk<A: Allocator> {
    alloc: A,
    limit: Label,
    book: Option<Book<A>>,
}

/// Opens a book of the rules of a text, where there is none. E02 to E09 with their line for a text that has a fault, and E01:
/// then there is still none.
fn load<A: Allocator + Copy>(
    alloc: A,
    limit: Label,
    text: &[u8],
    book: &mut Option<Book<A>>,
) -> Reply<A>
    requires none { book.old ≡ None }
    requires limit { limit ≤ greatest_label }
    ensures { LoadsText limit text.now (reply_of result) book.new }
{
    match Book::of_text(alloc, text, limit) {
        Ok(opened) => {
            let count = opened.program().len();
            *book = Some(opened);
            Reply::Loaded(count)
        }
        Err(ReadError::Memory) => Reply::Fault(Fault::NoMemory),
        Err(ReadError::Fault(fault)) => Reply::Fault(Fault::Reading(fault)),
    }
}

/// Posts the atoms of a text.
fn post<A: Allocator + Copy>(book: &mut Book<A>, text: &[u8]) -> Reply<A>
    ensures { PostReplies book.old text.now (reply_of result) book.new }
{
    match book.post_text(SEAT, text) {
        Ok(posted) => Reply::Posted(posted.first, posted.count),
        Err(ReadError::Memory) => Reply::Fault(Fault::NoMemory),
        Err(ReadError::Fault(fault)) => Reply::Fault(Fault::Reading(fault)),
    }
}

/// Makes at most so many calls.
fn wait<A: Allocator + Copy>(book: &mut Book<A>, most: u32) -> Reply<A>
    ensures { WaitReplies book.old most (reply_of result) book.new }
{
    match solo_steps(book, SEAT, u64::from(most)) {
        Ok(solo) => match solo.end {
            End::Quiet => Reply::Quiet,
            End::Open => Reply::Open,
        },
        Err(_) => Reply::Fault(Fault::NoMemory),
    }
}

/// The lines of the store.
fn store<A: Allocator + Copy>(alloc: A, book: &Book<A>) -> Reply<A>
    ensures { StoreReplies book.now (reply_of result) book.now }
{
    let mut lines = Vec::new(alloc);
    match book.store_lines(&mut lines) {
        Ok(()) => Reply::Store(book.store().len(), lines),
        Err(_) => Reply::Fault(Fault::NoMemory),
    }
}

/// The lines of the log from an entry on, counted from 1.
fn log<A: Allocator + Copy>(alloc: A, book: &Book<A>, from: u32) -> Reply<A>
    ensures { LogReplies book.now from (reply_of result) book.now }
{
    let before = from.saturating_sub(1) as usize;
    let count = book.log().len().saturating_sub(before);
    let mut lines = Vec::new(alloc);
    match book.log_lines(&mut lines, u64::from(from)) {
        Ok(()) => Reply::Log(count, lines),
        Err(_) => Reply::Fault(Fault::NoMemory),
    }
}

/// Carries out a command on a book.
fn ask_book<A: Allocator + Copy>(alloc: A, book: &mut Book<A>, command: Command<'_>) -> Reply<A>
    ensures { BookReplies book.old (command_of command.entry) (reply_of result) book.new }
{
    match command {
        Command::Load(_) => Reply::Fault(Fault::AlreadyLoaded),
        Command::Post(text) => post(book, text),
        Command::Wait(most) => wait(book, most),
        Command::Store => store(alloc, book),
        Command::Log(from) => log(alloc, book, from),
    }
}

impl<A: Allocator> Model for SoloDesk<A> {
    ghost use Rattle.std.specs.Prelude.{◌≤◌, ℕ, Option};
    ghost use Rattle.chr_value.specs.Bounds.{greatest_label};
    ghost use Rattle.chr_rule.specs.Codes.{rule_codes};
    ghost use Rattle.chr_calls.specs.Books.{BookState};

    ghost Value = { ℕ × Option BookState };

    ghost coded = { Prim.hlevel rule_codes };

    ghost view = { λ d. (d.limit, d.book) };

    ghost invariant = { λ d. d.limit ≤ greatest_label };
}

impl<A: Allocator + Copy> SoloDesk<A> {
    /// A desk without a program, whose books give labels from 1 to `limit`.
    pub fn new(alloc: A, limit: Label) -> SoloDesk<A>
        requires { limit ≤ greatest_label }
        ensures { result ≡ (limit, None) }
    {
        SoloDesk {
            alloc,
            limit,
            book: None,
        }
    }

    /// The book, where a program stands.
    pub fn book(&self) -> Option<&Book<A>> {
        self.book.as_ref()
    }
}

impl<A: Allocator + Copy> Desk<A> for SoloDesk<A> {
    ghost step = { λ old command reply new. SoloReplies old.0 old.1 command reply new.1 × (new.0 ≡ old.0) };

    fn ask(&mut self, command: Command<'_>) -> Reply<A> {
        match (&mut self.book, command) {
            (Some(book), command) => ask_book(self.alloc, book, command),
            (None, Command::Load(text)) => load(self.alloc, self.limit, text, &mut self.book),
            (None, _) => Reply::Fault(Fault::NoProgram),
        }
    }
}
