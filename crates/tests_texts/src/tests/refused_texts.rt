//! The readers of a log, of a store, of rules and of posts.
use crate::tests::programs::{atoms, rules};
use chr_lex::fault::ReadError;
use chr_log_text::fault::TextFault;
use chr_log_text::{read_log, read_store};
use chr_value::Names;
use refusing::Refusing;
use std::alloc::Global;

const LOG: &str =
    "chr-log 1\nP 1 a(b,f(c,g(1)))\nA 1 1\nP 2 d(e,f,g)\nA 2 2\nF 2 1 1\\2\nP 3 h(i,j,k)\nD 1\n";

const STORE: &str = "#1 a(b,f(c,g(1)))\n#2 d(e,f,g)\n#4 h(i,j,k)\n#5 a\n#6 d\n";

const PROGRAM: &str =
    "a(X) \\ b(X,c) <=> X < 1, X == d | Y is X + 1, e(Y).\nf <=> g.\nh(f(X,g(1))) <=> X \\== k(2) | i(h(X)).\n";

const POSTS: &str = "a(b,f(c,g(1))), d.\ne(1).\n";

/// A kind of text that is read.
#[derive(Clone, Copy, Debug)]
pub enum Text {
    Log,
    Store,
    Program,
    Posts,
}

/// Memory that refuses a request.
pub type Memory<'m> = &'m Refusing<Global>;

/// How many entries a log has. Where it isn't read, whether for want of memory.
fn entries<'m>(memory: Memory<'m>, names: &mut Names<Memory<'m>>) -> Result<usize, bool> {
    match read_log(memory, LOG.as_bytes(), names) {
        Ok(log) => Ok(log.events.len()),
        Err(fault) => Err(fault == TextFault::NoMemory),
    }
}

/// The same of the lines of a store.
fn lines<'m>(memory: Memory<'m>, names: &mut Names<Memory<'m>>) -> Result<usize, bool> {
    match read_store(memory, STORE.as_bytes(), names) {
        Ok(lines) => Ok(lines.len()),
        Err(fault) => Err(fault == TextFault::NoMemory),
    }
}

fn is_of_memory(error: ReadError) -> bool {
    matches!(error, ReadError::Memory)
}

/// The same of a text of this kind.
fn count<'m>(memory: Memory<'m>, names: &mut Names<Memory<'m>>, text: Text) -> Result<usize, bool> {
    match text {
        Text::Log => entries(memory, names),
        Text::Store => lines(memory, names),
        Text::Program => rules(memory, PROGRAM.as_bytes(), names).map_err(is_of_memory),
        Text::Posts => atoms(memory, POSTS.as_bytes(), names).map_err(is_of_memory),
    }
}

/// Reads a text of this kind with request number `n` refused, and again into the same table, which then gives so many. A rule
/// does without the memory for the list of its words.
pub fn read(memory: &Refusing<Global>, n: u64, text: Text, wanted: usize) -> Option<bool> {
    let mut names = Names::new(memory);
    memory.refuse(n);
    let first = count(memory, &mut names, text);
    let refused = memory.was_refused();
    memory.refuse(0);
    let does_without = matches!(text, Text::Program) && first == Ok(wanted);
    let expected = if refused { Err(true) } else { Ok(wanted) };
    let is_right = first == expected || does_without;
    (is_right && count(memory, &mut names, text) == Ok(wanted)).then_some(refused)
}
