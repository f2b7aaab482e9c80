//! What standard error says of a fault in a text, and of a log that is refused.
use chr_check::fault::{CheckFault, Kind as CheckKind};
use chr_command_line::Masked;
use chr_lex::fault::{Kind, ReadFault};
use chr_log_text::fault::TextFault;
use std::alloc::{AllocError, Allocator};
use std::fmt;

/// How many bytes of a line are shown.
const MOST_SHOWN: usize = 160;

/// How much standard error says of a fault.
#[derive(Clone, Copy, Debug, PartialEq, Eq)]
pub enum Detail {
    /// The line that names the fault, as a program reads it.
    Line,
    /// That line, what it means, and where the fault is, as a person at a terminal reads it.
    Explained,
}

/// The texts that `chr run` and `chr check` read.
#[derive(Clone, Copy, Debug, PartialEq, Eq)]
pub enum Text {
    Program,
    Posts,
    Log,
    Store,
}

impl Text {
    /// The word for it in a fault's line.
    fn word(self) -> &'static str {
        match self {
            Text::Program => "program",
            Text::Posts => "posts",
            Text::Log => "log",
            Text::Store => "store",
        }
    }
}

/// A text with the path of its file.
#[derive(Clone, Copy, Debug)]
pub struct Source<'a> {
    pub text: Text,
    pub path: &'a str,
    pub bytes: &'a [u8],
    /// Where several files are read as texts of this kind: how many lines are counted before those of this one, as in the
    /// parts of a log before it.
    pub part: Option<u64>,
}

impl Source<'_> {
    /// The line of the file that is counted as `line`.
    fn own_line(&self, line: u64) -> u64 {
        line.saturating_sub(self.part.unwrap_or(0))
    }
}

/// Why a text is not read.
#[derive(Clone, Copy, Debug)]
pub enum Fault {
    /// Of a program or of posts.
    Read(ReadFault),
    /// Of a log or of a store.
    Text(TextFault),
}

impl Fault {
    /// The line at fault, or 0 for the whole text.
    fn line(&self) -> u64 {
        match self {
            Fault::Read(fault) => u64::from(fault.line),
            Fault::Text(fault) => fault.line(),
        }
    }

    /// What it means: what is wrong, and what is allowed.
    fn meaning(&self, text: Text) -> &'static str {
        match self {
            Fault::Read(fault) => read_meaning(text, fault.kind),
            Fault::Text(fault) => text_meaning(text, *fault),
        }
    }
}

impl fmt::Display for Fault {
    fn fmt<W: fmt::Write>(&self, f: &mut fmt::Formatter<W>) -> fmt::Result {
        match self {
            Fault::Read(fault) => write!(f, "{fault}"),
            Fault::Text(fault) => write!(f, "{fault}"),
        }
    }
}

/// Returns what standard error says where memory is refused (E01).
pub fn no_memory_message(detail: Detail) -> &'static str {
    match detail {
        Detail::Line => "chr: E01 NoMemory\n",
        Detail::Explained => {
            "chr: E01 NoMemory\nThe system refused the memory that the program asked for.\n"
        }
    }
}

/// Returns what a fault of a program or of posts means.
fn read_meaning(text: Text, kind: Kind) -> &'static str {
    match (kind, text) {
        (Kind::TooLong, _) => "The text is longer than 65,536 bytes, which is the limit.",
        (Kind::BadByte, _) => {
            "Outside comments only printable ASCII characters, tabs and line ends are allowed."
        }
        (Kind::Syntax, Text::Program) => {
            "This is not a rule or a declaration of the language, or the `.` that ends it is missing; an expression may be at most 16 deep."
        }
        (Kind::Syntax, _) => {
            "This is not a list of constraints with commas between them, or the `.` that ends it is missing."
        }
        (Kind::Propagation, _) => {
            "A rule with `==>` removes nothing and is not supported: write `<=>`, or `kept \\ removed <=> body`."
        }
        (Kind::NumberRange, _) => {
            "A number must be at least -9223372036854775808 and at most 9223372036854775807."
        }
        (Kind::TooMany, Text::Program) => {
            "A limit is exceeded: 256 rules in a program; 6 heads, 16 comparisons, 16 body members and 24 variables in a rule, where each `_` counts; 8 arguments; a depth of 8 and a size of 64 in a term; 64 bytes in a name or variable."
        }
        (Kind::TooMany, _) => {
            "A limit is exceeded: 8 arguments; a depth of 8 and a size of 64 in a term; 64 bytes in a name or variable."
        }
        (Kind::Binding, Text::Program) => {
            "A variable is used where no head and no earlier `is` gives it a value, or an `is` gives a value to a variable that already has one."
        }
        (Kind::Binding, _) => "A constraint that is posted must not have variables.",
        (Kind::NamesFull, _) => {
            "The item needs a new name, and there are 65,536 different names already, which is the limit."
        }
    }
}

/// Returns what a fault of a log or of a store means.
fn text_meaning(text: Text, fault: TextFault) -> &'static str {
    match (fault, text) {
        (TextFault::NoMemory, _) => "The system refused the memory that the program asked for.",
        (TextFault::TooLong, _) => "The text is longer than 67,108,864 bytes, which is the limit.",
        (TextFault::NamesFull { .. }, _) => {
            "The line needs a new name, and there are 65,536 different names already, which is the limit."
        }
        (TextFault::BadEntry { line: 1 }, Text::Log) => {
            "The first line of a log must be `chr-log 1` or `chr-log 2`."
        }
        (TextFault::BadEntry { .. }, Text::Log) => {
            "This is not an entry of a log, as `P 1 gcd(9)`, `A 1 1`, `F 2 2 2\\1` or `D 1`, with one blank between its parts and LF at its end."
        }
        (TextFault::BadEntry { .. }, _) => {
            "This is not a line of a store, as `#3 gcd(3)`, with a label above the one before it and LF at its end."
        }
    }
}

/// Returns what is wrong with the ticket of an entry. The first byte of the entry's line tells the event.
fn ticket_meaning(event: Option<&u8>) -> &'static str {
    match event {
        Some(b'P') => {
            "A post must take the next ticket: one more than there were posts and body constraints before it."
        }
        Some(b'A') => {
            "No goal with this ticket waits to be activated: no post and no firing before it gave the ticket, or the goal was activated before."
        }
        _ => {
            "No active goal has this ticket: the goal was not activated before, or it was dropped, or it ended as it removed its own constraint."
        }
    }
}

/// Returns what is wrong with the entry of a log, or with the line of a store, where a log is refused.
fn refusal_meaning(kind: CheckKind, entry: &[u8]) -> &'static str {
    match (kind, entry.first()) {
        (CheckKind::BadTicket, event) => ticket_meaning(event),
        (CheckKind::BadLabel, Some(b'A')) => {
            "An activation must give the next label: one more than there were activations before it."
        }
        (CheckKind::BadLabel, _) => {
            "A label of this firing is not in the store: no activation before it gave the label, or its constraint was removed."
        }
        (CheckKind::NoInstance, _) => {
            "The goal can't make this firing: the program must have the rule, the goal's own label must be among the labels, they must differ and their constraints match the heads, the guard must hold, and each `is` and each argument of the body must have a value."
        }
        (CheckKind::StillApplies, _) => {
            "The goal can't be dropped yet: a rule applies with its constraint (in a log of version 2: with its constraint and none of another active goal)."
        }
        (CheckKind::StoreDiffers, _) => {
            "The store after the log's last entry has another line here, or only one of the two stores has this line."
        }
    }
}

/// Returns the line of a number, counted from 1, without its end.
fn line_of(text: &[u8], number: u64) -> &[u8] {
    let mut rest = text;
    for _ in 1..number {
        let Some(end) = rest.iter().position(|b| *b == b'\n') else {
            return &[];
        };
        rest = &rest[end + 1..];
    }
    match rest.iter().position(|b| *b == b'\n') {
        Some(end) => &rest[..end],
        None => rest,
    }
}

/// Returns the character that stands for a byte: a blank for layout, `?` for what else can't be printed.
fn shown(b: u8) -> char {
    match b {
        b'\t' | b'\r' => ' ',
        0x20..=0x7e => char::from(b),
        _ => '?',
    }
}

/// Adds where a text has a line at fault: the file and its own line there, and the text of that line up to 160 bytes,
/// after the number that it is counted by. Line 0 is the whole text.
fn push_place<A: Allocator>(
    message: &mut String<A>,
    source: Source<'_>,
    line: u64,
) -> Result<(), AllocError> {
    write!(message, "\n --> {}", Masked(source.path))?;
    if line == 0 {
        return message.push('\n');
    }
    let own = source.own_line(line);
    let excerpt = line_of(source.bytes, own);
    write!(message, ":{own}\n{line} | ")?;
    for b in excerpt.iter().take(MOST_SHOWN) {
        message.push(shown(*b))?;
    }
    message.push_str(if MOST_SHOWN < excerpt.len() {
        " ..\n"
    } else {
        "\n"
    })
}

/// Adds which line of which text has a fault: the text by its word, and the file where it is one of several.
fn push_line<A: Allocator>(
    message: &mut String<A>,
    source: Source<'_>,
    line: u64,
) -> Result<(), AllocError> {
    write!(message, "chr: {} {line}", source.text.word())?;
    match source.part {
        Some(_) => write!(message, " in {}", Masked(source.path)),
        None => Ok(()),
    }
}

/// Returns what standard error says of a fault: its line, as `chr: program 4: E08 Binding`, or where the file is one of
/// several `chr: posts 4 in more.txt: E08 Binding`, and with [`Detail::Explained`] what it means and its place.
pub fn message<A: Allocator + Copy>(
    alloc: A,
    detail: Detail,
    source: Source<'_>,
    fault: Fault,
) -> Result<String<A>, AllocError> {
    let line = fault.line();
    let mut message = String::new(alloc);
    push_line(&mut message, source, line)?;
    write!(message, ": {fault}\n")?;
    if detail == Detail::Explained {
        message.push_str(fault.meaning(source.text))?;
        push_place(&mut message, source, line)?;
    }
    Ok(message)
}

/// Returns what a terminal is told of a log that is refused, after the line on standard output: what is wrong with the
/// entry, or with the line of the store, what `told` says of it, and its place.
pub fn refusal_message<A: Allocator + Copy>(
    alloc: A,
    source: Source<'_>,
    fault: CheckFault,
    told: Option<&str>,
) -> Result<String<A>, AllocError> {
    let entry = line_of(source.bytes, source.own_line(fault.line));
    let mut message = format!(in alloc; "{}", refusal_meaning(fault.kind, entry))?;
    if let Some(told) = told {
        message.push(' ')?;
        message.push_str(told)?;
    }
    push_place(&mut message, source, fault.line)?;
    Ok(message)
}

/// Returns the line that names the file of a refused entry, where that is one of several, as `chr: log 14 in more.txt: E16
/// BadTicket`.
pub fn part_message<A: Allocator + Copy>(
    alloc: A,
    source: Source<'_>,
    fault: CheckFault,
) -> Result<String<A>, AllocError> {
    let mut message = String::new(alloc);
    push_line(&mut message, source, fault.line)?;
    write!(message, ": E16 {}\n", fault.kind)?;
    Ok(message)
}
