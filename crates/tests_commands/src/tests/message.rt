//! What standard error says of faults.
use chr_check::fault::{CheckFault, Kind as CheckKind, Place};
use chr_commands::message::{
    Detail, Fault, Source, Text, message, no_memory_message, part_message, refusal_message,
};
use chr_lex::fault::{Kind, ReadFault};
use chr_log_text::fault::TextFault;
use std::alloc::{AllocError, Global};
use std::test::*;

/// The only file of its kind.
pub fn whole<'a>(text: Text, path: &'a str, bytes: &'a [u8]) -> Source<'a> {
    Source {
        text,
        path,
        bytes,
        part: None,
    }
}

/// A kind of fault of a whole text, and what is said of it before its place.
type Sentence = (Text, Kind, &'static str);

static SENTENCES: [Sentence; 11] = [
    (
        Text::Program,
        Kind::TooLong,
        "chr: program 0: E09 TooLong\nThe text is longer than 65,536 bytes, which is the limit.\n",
    ),
    (
        Text::Program,
        Kind::BadByte,
        "chr: program 0: E03 BadByte\nOutside comments only printable ASCII characters, tabs and line ends are allowed.\n",
    ),
    (
        Text::Program,
        Kind::Syntax,
        "chr: program 0: E04 Syntax\nThis is not a rule or a declaration of the language, or the `.` that ends it is missing; an expression may be at most 16 deep.\n",
    ),
    (
        Text::Posts,
        Kind::Syntax,
        "chr: posts 0: E04 Syntax\nThis is not a list of constraints with commas between them, or the `.` that ends it is missing.\n",
    ),
    (
        Text::Program,
        Kind::Propagation,
        "chr: program 0: E05 Propagation\nA rule with `==>` removes nothing and is not supported: write `<=>`, or `kept \\ removed <=> body`.\n",
    ),
    (
        Text::Program,
        Kind::NumberRange,
        "chr: program 0: E06 NumberRange\nA number must be at least -9223372036854775808 and at most 9223372036854775807.\n",
    ),
    (
        Text::Program,
        Kind::TooMany,
        "chr: program 0: E07 TooMany\nA limit is exceeded: 256 rules in a program; 6 heads, 16 comparisons, 16 body members and 24 variables in a rule, where each `_` counts; 8 arguments; a depth of 8 and a size of 64 in a term; 64 bytes in a name or variable.\n",
    ),
    (
        Text::Posts,
        Kind::TooMany,
        "chr: posts 0: E07 TooMany\nA limit is exceeded: 8 arguments; a depth of 8 and a size of 64 in a term; 64 bytes in a name or variable.\n",
    ),
    (
        Text::Program,
        Kind::Binding,
        "chr: program 0: E08 Binding\nA variable is used where no head and no earlier `is` gives it a value, or an `is` gives a value to a variable that already has one.\n",
    ),
    (
        Text::Posts,
        Kind::Binding,
        "chr: posts 0: E08 Binding\nA constraint that is posted must not have variables.\n",
    ),
    (
        Text::Posts,
        Kind::NamesFull,
        "chr: posts 0: E02 NamesFull\nThe item needs a new name, and there are 65,536 different names already, which is the limit.\n",
    ),
];

/// Whether this is said of a fault of a whole text.
fn says(alloc: Global, row: &Sentence) -> Result<bool, AllocError> {
    let (text, kind, wanted) = *row;
    let source = whole(text, "f", b"");
    let fault = Fault::Read(ReadFault { kind, line: 0 });
    let full = message(alloc, Detail::Explained, source, fault)?;
    Ok(full.as_str().strip_suffix(" --> f\n") == Some(wanted))
}

#[test]
fn sentences(rt: HostRuntime) -> Result<(), Fail> {
    for (i, row) in SENTENCES.iter().enumerate() {
        assert!(rt; says(rt.alloc(), row)?, "row {i}");
    }
    Ok(())
}

#[test]
fn no_memory(rt: HostRuntime) {
    assert!(rt; no_memory_message(Detail::Line) == "chr: E01 NoMemory\n");
    let full = no_memory_message(Detail::Explained);
    let wanted = "chr: E01 NoMemory\nThe system refused the memory that the program asked for.\n";
    assert!(rt; full == wanted);
}

/// A line, and how its place is shown.
static PLACES: [(u32, &str); 5] = [
    (0, "\n"),
    (1, ":1\n1 | a <=> b. \n"),
    (2, ":2\n2 | \n"),
    (3, ":3\n3 |  p(X) <=> q(Y). % ?\n"),
    (4, ":4\n4 | last\n"),
];

/// Whether a fault in a line is shown at this place, and at none where only the line that names it is said.
fn is_shown(alloc: Global, line: u32, place: &str) -> Result<bool, AllocError> {
    let source = whole(
        Text::Posts,
        "f",
        b"a <=> b.\r\n\n\tp(X) <=> q(Y). % \xff\nlast",
    );
    let fault = Fault::Read(ReadFault {
        kind: Kind::NumberRange,
        line,
    });
    let short = message(alloc, Detail::Line, source, fault)?;
    let full = message(alloc, Detail::Explained, source, fault)?;
    let wanted = format!(in alloc; "chr: posts {line}: E06 NumberRange\n")?;
    let wanted_full = format!(in alloc;
        "{wanted}A number must be at least -9223372036854775808 and at most 9223372036854775807.\n --> f{place}"
    )?;
    Ok(short.as_str() == wanted.as_str() && full.as_str() == wanted_full.as_str())
}

#[test]
fn places(rt: HostRuntime) -> Result<(), Fail> {
    for (line, place) in PLACES {
        assert!(rt; is_shown(rt.alloc(), line, place)?, "line {line}");
    }
    Ok(())
}

/// A fault of a log or of a store, and what is said of it.
type LogSentence = (Text, TextFault, &'static str);

static LOG_SENTENCES: [LogSentence; 5] = [
    (
        Text::Log,
        TextFault::TooLong,
        "chr: log 0: E09 TooLong\nThe text is longer than 67,108,864 bytes, which is the limit.\n --> f\n",
    ),
    (
        Text::Store,
        TextFault::NamesFull { line: 2 },
        "chr: store 2: E02 NamesFull\nThe line needs a new name, and there are 65,536 different names already, which is the limit.\n --> f:2\n2 | second\n",
    ),
    (
        Text::Log,
        TextFault::BadEntry { line: 1 },
        "chr: log 1: E11 BadEntry\nThe first line of a log must be `chr-log 1` or `chr-log 2`.\n --> f:1\n1 | first\n",
    ),
    (
        Text::Log,
        TextFault::BadEntry { line: 2 },
        "chr: log 2: E11 BadEntry\nThis is not an entry of a log, as `P 1 gcd(9)`, `A 1 1`, `F 2 2 2\\1` or `D 1`, with one blank between its parts and LF at its end.\n --> f:2\n2 | second\n",
    ),
    (
        Text::Store,
        TextFault::BadEntry { line: 1 },
        "chr: store 1: E11 BadEntry\nThis is not a line of a store, as `#3 gcd(3)`, with a label above the one before it and LF at its end.\n --> f:1\n1 | first\n",
    ),
];

/// Whether this is said of a fault of a log or of a store.
fn says_of_log(alloc: Global, row: &LogSentence) -> Result<bool, AllocError> {
    let (text, fault, wanted) = *row;
    let source = whole(text, "f", b"first\nsecond");
    let full = message(alloc, Detail::Explained, source, Fault::Text(fault))?;
    Ok(full.as_str() == wanted)
}

#[test]
fn sentences_of_logs_and_stores(rt: HostRuntime) -> Result<(), Fail> {
    for (i, row) in LOG_SENTENCES.iter().enumerate() {
        assert!(rt; says_of_log(rt.alloc(), row)?, "row {i}");
    }
    Ok(())
}

/// A log that is refused.
const LOG: &[u8] = b"chr-log 1\nP 2 a\nA 1 2\nF 1 1 \\1\nD 1\n";

/// A log that is refused, the line and kind of its fault, what is told of it, and what is said.
type Refusal = (
    &'static [u8],
    u64,
    CheckKind,
    Option<&'static str>,
    &'static str,
);

static REFUSALS: [Refusal; 10] = [
    (
        LOG,
        2,
        CheckKind::BadTicket,
        None,
        "A post must take the next ticket: one more than there were posts and body constraints before it.\n --> f:2\n2 | P 2 a\n",
    ),
    (
        LOG,
        3,
        CheckKind::BadTicket,
        None,
        "No goal with this ticket waits to be activated: no post and no firing before it gave the ticket, or the goal was activated before.\n --> f:3\n3 | A 1 2\n",
    ),
    (
        LOG,
        4,
        CheckKind::BadTicket,
        None,
        "No active goal has this ticket: the goal was not activated before, or it was dropped, or it ended as it removed its own constraint.\n --> f:4\n4 | F 1 1 \\1\n",
    ),
    (
        LOG,
        5,
        CheckKind::BadTicket,
        None,
        "No active goal has this ticket: the goal was not activated before, or it was dropped, or it ended as it removed its own constraint.\n --> f:5\n5 | D 1\n",
    ),
    (
        LOG,
        3,
        CheckKind::BadLabel,
        None,
        "An activation must give the next label: one more than there were activations before it.\n --> f:3\n3 | A 1 2\n",
    ),
    (
        LOG,
        4,
        CheckKind::BadLabel,
        None,
        "A label of this firing is not in the store: no activation before it gave the label, or its constraint was removed.\n --> f:4\n4 | F 1 1 \\1\n",
    ),
    (
        LOG,
        4,
        CheckKind::NoInstance,
        None,
        "The goal can't make this firing: the program must have the rule, the goal's own label must be among the labels, they must differ and their constraints match the heads, the guard must hold, and each `is` and each argument of the body must have a value.\n --> f:4\n4 | F 1 1 \\1\n",
    ),
    (
        LOG,
        5,
        CheckKind::StillApplies,
        None,
        "The goal can't be dropped yet: a rule applies with its constraint (in a log of version 2: with its constraint and none of another active goal).\n --> f:5\n5 | D 1\n",
    ),
    (
        LOG,
        6,
        CheckKind::StoreDiffers,
        None,
        "The store after the log's last entry has another line here, or only one of the two stores has this line.\n --> f:6\n6 | \n",
    ),
    (
        b"chr-log 1\nP 2 a\n",
        2,
        CheckKind::BadTicket,
        Some("The next one is 1."),
        "A post must take the next ticket: one more than there were posts and body constraints before it. The next one is 1.\n --> f:2\n2 | P 2 a\n",
    ),
];

/// Whether this is said of a log that is refused.
fn says_of_refusal(alloc: Global, row: &Refusal) -> Result<bool, AllocError> {
    let (bytes, line, kind, told, wanted) = *row;
    let source = whole(Text::Log, "f", bytes);
    let fault = CheckFault {
        place: Place::Log,
        line,
        kind,
    };
    let text = refusal_message(alloc, source, fault, told)?;
    Ok(text.as_str() == wanted)
}

#[test]
fn sentences_of_refusals(rt: HostRuntime) -> Result<(), Fail> {
    for (i, row) in REFUSALS.iter().enumerate() {
        assert!(rt; says_of_refusal(rt.alloc(), row)?, "row {i}");
    }
    Ok(())
}

/// What is said of a fault in a file that is one of several: the text, the lines before the file, the line of a fault, and
/// what is said of it shortly and at length.
type PartRow = (Text, u64, Fault, &'static str, &'static str);

static PARTS: [PartRow; 4] = [
    (
        Text::Posts,
        0,
        Fault::Read(ReadFault {
            kind: Kind::Syntax,
            line: 2,
        }),
        "chr: posts 2 in more: E04 Syntax\n",
        " --> more:2\n2 | second\n",
    ),
    (
        Text::Log,
        12,
        Fault::Text(TextFault::BadEntry { line: 14 }),
        "chr: log 14 in more: E11 BadEntry\n",
        " --> more:2\n14 | second\n",
    ),
    (
        Text::Log,
        0,
        Fault::Text(TextFault::NamesFull { line: 1 }),
        "chr: log 1 in more: E02 NamesFull\n",
        " --> more:1\n1 | first\n",
    ),
    (
        Text::Log,
        12,
        Fault::Text(TextFault::TooLong),
        "chr: log 0 in more: E09 TooLong\n",
        " --> more\n",
    ),
];

/// Whether this is said of a fault in one of several files.
fn says_of_part(alloc: Global, row: &PartRow) -> Result<bool, AllocError> {
    let (text, before, fault, line, place) = *row;
    let source = Source {
        text,
        path: "more",
        bytes: b"first\nsecond\n",
        part: Some(before),
    };
    let short = message(alloc, Detail::Line, source, fault)?;
    let full = message(alloc, Detail::Explained, source, fault)?;
    Ok(short.as_str() == line && full.as_str().starts_with(line) && full.as_str().ends_with(place))
}

#[test]
fn faults_in_one_of_several_files(rt: HostRuntime) -> Result<(), Fail> {
    for (i, row) in PARTS.iter().enumerate() {
        assert!(rt; says_of_part(rt.alloc(), row)?, "row {i}");
    }
    Ok(())
}

#[test]
fn a_refused_entry_of_a_part(rt: HostRuntime) -> Result<(), Fail> {
    let source = Source {
        text: Text::Log,
        path: "more",
        bytes: b"A 1 1\nP 7 a\n",
        part: Some(12),
    };
    let fault = CheckFault {
        place: Place::Log,
        line: 14,
        kind: CheckKind::BadTicket,
    };
    let short = part_message(rt.alloc(), source, fault)?;
    assert!(rt; short.as_str() == "chr: log 14 in more: E16 BadTicket\n");
    let full = refusal_message(rt.alloc(), source, fault, None)?;
    assert!(rt;
        full.as_str()
            .starts_with("A post must take the next ticket")
    );
    assert!(rt; full.as_str().ends_with(" --> more:2\n14 | P 7 a\n"));
    Ok(())
}
