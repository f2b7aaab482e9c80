//! What commands print and say, and how they end.
use crate::tests::command_line::DEFAULTS;
use crate::tests::stage::Stage;
use chr_command_line::read;
use chr_commands::check::check;
use chr_commands::explain::explain;
use chr_commands::picture::picture;
use chr_commands::run::run;
use chr_commands::session::session;
use chr_commands::{Detail, Status, print_usage, report_words};
use chr_explain::{Form, Question};
use chr_picture::Range;
use std::alloc::{AllocError, Global};
use std::test::*;
use std::{env, fs, io};

/// A text of this many bytes that begins with another, and goes on with blanks and a line end.
fn text_of(alloc: Global, begin: &[u8], length: usize) -> Result<Vec<u8>, AllocError> {
    let mut text = Vec::new(alloc);
    text.extend_from_slice(begin)?;
    text.resize(length.saturating_sub(1), b' ')?;
    text.push(b'\n')?;
    Ok(text)
}

/// How many bytes each of the rules, the posts and the further posts has, how the run ends, and what is said.
static LENGTHS: [(usize, usize, usize, Status, &str); 4] = [
    (65_536, 65_536, 65_536, Status::Done, ""),
    (65_537, 9, 9, Status::Fault, "chr: program 0: E09 TooLong\n"),
    (
        9,
        65_537,
        9,
        Status::Fault,
        "chr: posts 0 in posts.txt: E09 TooLong\n",
    ),
    (
        9,
        9,
        65_537,
        Status::Fault,
        "chr: posts 0 in more.txt: E09 TooLong\n",
    ),
];

#[test]
fn texts_of_rules_and_posts_past_their_limit(rt: HostRuntime) -> Result<(), Fail> {
    for (i, (rules, posts, more, wanted, said)) in LENGTHS.iter().enumerate() {
        fs::write(
            &rt,
            "rules.chr",
            text_of(rt.alloc(), b"a <=> b.", *rules)?.as_slice(),
        )?;
        fs::write(
            &rt,
            "posts.txt",
            text_of(rt.alloc(), b"a.", *posts)?.as_slice(),
        )?;
        fs::write(
            &rt,
            "more.txt",
            text_of(rt.alloc(), b"c.", *more)?.as_slice(),
        )?;
        let stage = Stage::new(&rt, b"");
        let more = ["more.txt"];
        let status = run(
            &stage,
            Detail::Line,
            "rules.chr",
            "posts.txt",
            &more,
            DEFAULTS,
        );
        assert!(rt; status == *wanted && stage.has_said(said), "row {i}");
    }
    Ok(())
}

/// The most bytes of a log or of a store.
const MOST: u64 = 67_108_864;

/// The file that is past its limit, and what is said.
static PAST: [(&str, &str); 2] = [
    ("more.txt", "chr: log 0 in more.txt: E09 TooLong\n"),
    ("store.txt", "chr: store 0: E09 TooLong\n"),
];

/// Writes the rules `a <=> b.`, and a log of them in two parts with its store.
fn write_log(rt: &HostRuntime) -> io::Result<()> {
    fs::write(rt, "rules.chr", b"a <=> b.".as_slice())?;
    fs::write(rt, "log.txt", b"chr-log 2\nP 1 a\nA 1 1\n".as_slice())?;
    fs::write(rt, "more.txt", b"F 1 1 \\1\nA 2 2\nD 2\n".as_slice())?;
    fs::write(rt, "store.txt", b"#2 b\n".as_slice())
}

/// The check of that log.
fn check_log(stage: &Stage<'_>) -> Status {
    check(
        stage,
        Detail::Line,
        "rules.chr",
        "log.txt",
        &["more.txt"],
        "store.txt",
    )
}

#[test]
fn texts_of_logs_and_stores_past_their_limit(rt: HostRuntime) -> Result<(), Fail> {
    for (path, said) in PAST {
        write_log(&rt)?;
        fs::create(&rt, path)?.set_len(MOST + 1)?;
        let stage = Stage::new(&rt, b"");
        assert!(rt; check_log(&stage) == Status::Fault, "{path}");
        assert!(rt; stage.has_said(said) && stage.has_printed(""), "{path}");
        fs::remove_file(&rt, path)?;
    }
    Ok(())
}

/// The texts of the parts of a log and of a store, how the check ends, and what is printed and said.
type CheckRow = (
    [&'static str; 3],
    &'static str,
    Status,
    &'static str,
    &'static str,
);

static CHECKS: [CheckRow; 8] = [
    (
        ["chr-log 2\nP 1 a\n", "A 1 1\nF 1 1 \\1\n", "A 2 2\nD 2\n"],
        "#2 b\n",
        Status::Done,
        "run final\n",
        "",
    ),
    (
        ["chr-log 2\nP 1 a\n", "A 1 1\nF 1 1 \\1\n", "A 2 2\n"],
        "#2 b\n",
        Status::Done,
        "run\n",
        "",
    ),
    (
        ["chr-log 2\nP 1 a\n", "A 1 1\nF 1 1 \\1\n", "A 2 2\nD 2\n"],
        "#2 a\n",
        Status::Fault,
        "refused E16 store 1 StoreDiffers\n",
        "",
    ),
    (
        ["chr-log 2\nP 1 a\n", "A 2 2\nD 2\n", "A 1 1\nF 1 1 \\1\n"],
        "#2 b\n",
        Status::Fault,
        "refused E16 log 3 BadTicket\n",
        "chr: log 3 in second.txt: E16 BadTicket\n",
    ),
    (
        ["chr-log 2\nP 1 a\n", "A 1 1\nF 1 1 \\1\n", "A 2 3\nD 2\n"],
        "#2 b\n",
        Status::Fault,
        "refused E16 log 5 BadLabel\n",
        "chr: log 5 in third.txt: E16 BadLabel\n",
    ),
    (
        ["chr-log 2\nP 2 a\n", "A 1 1\nF 1 1 \\1\n", "A 2 2\nD 2\n"],
        "#2 b\n",
        Status::Fault,
        "refused E16 log 2 BadTicket\n",
        "chr: log 2 in first.txt: E16 BadTicket\n",
    ),
    (
        ["chr-log 2\nP 1 a\n", "", "A 1 1\nG\n"],
        "#2 b\n",
        Status::Fault,
        "",
        "chr: log 4 in third.txt: E11 BadEntry\n",
    ),
    (
        ["chr-log 2\nP 1 a\n", "A 1 1\n", "F 1 1 \\1\nA 2 2\nD 2\n"],
        "b\n",
        Status::Fault,
        "",
        "chr: store 1: E11 BadEntry\n",
    ),
];

#[test]
fn ends_of_checks(rt: HostRuntime) -> Result<(), Fail> {
    fs::write(&rt, "rules.chr", b"a <=> b.".as_slice())?;
    for (i, (parts, store, wanted, printed, said)) in CHECKS.iter().enumerate() {
        for (path, text) in ["first.txt", "second.txt", "third.txt"].iter().zip(parts) {
            fs::write(&rt, *path, text.as_bytes())?;
        }
        fs::write(&rt, "store.txt", store.as_bytes())?;
        let more = ["second.txt", "third.txt"];
        let stage = Stage::new(&rt, b"");
        let status = check(
            &stage,
            Detail::Line,
            "rules.chr",
            "first.txt",
            &more,
            "store.txt",
        );
        assert!(rt; status == *wanted, "row {i}");
        assert!(rt;
            stage.has_printed(printed) && stage.has_said(said),
            "row {i}"
        );
    }
    Ok(())
}

/// The texts of three files of posts, how the run ends, and what is printed and said.
type RunRow = ([&'static str; 3], Status, &'static str, &'static str);

static RUNS: [RunRow; 6] = [
    (
        ["c.", "a.", "d."],
        Status::Done,
        "chr-log 2\nP 1 c\nP 2 a\nP 3 d\nA 1 1\nD 1\nA 2 2\nF 2 1 \\2\nA 3 3\nD 3\nA 4 4\nD 4\n",
        "",
    ),
    (
        ["c.", "a", "d."],
        Status::Fault,
        "",
        "chr: posts 1 in second.txt: E04 Syntax\n",
    ),
    (
        ["c.", "a.", "d.\n\n0."],
        Status::Fault,
        "",
        "chr: posts 3 in third.txt: E04 Syntax\n",
    ),
    (
        ["\n\u{0}.", "a.", "d."],
        Status::Fault,
        "",
        "chr: posts 2 in first.txt: E03 BadByte\n",
    ),
    (
        ["c.", "a.", "d(\u{0})."],
        Status::Fault,
        "",
        "chr: posts 1 in third.txt: E03 BadByte\n",
    ),
    (
        ["c.", "a. % \u{0}", ""],
        Status::Done,
        "chr-log 2\nP 1 c\nP 2 a\nA 1 1\nD 1\nA 2 2\nF 2 1 \\2\nA 3 3\nD 3\n",
        "",
    ),
];

#[test]
fn ends_of_runs(rt: HostRuntime) -> Result<(), Fail> {
    fs::write(&rt, "rules.chr", b"a <=> b.".as_slice())?;
    for (i, (texts, wanted, printed, said)) in RUNS.iter().enumerate() {
        for (path, text) in ["first.txt", "second.txt", "third.txt"].iter().zip(texts) {
            fs::write(&rt, *path, text.as_bytes())?;
        }
        let options = chr_command_line::RunOptions {
            show: chr_run_text::Show::Log,
            ..DEFAULTS
        };
        let more = ["second.txt", "third.txt"];
        let stage = Stage::new(&rt, b"");
        let status = run(
            &stage,
            Detail::Line,
            "rules.chr",
            "first.txt",
            &more,
            options,
        );
        assert!(rt; status == *wanted, "row {i}");
        assert!(rt;
            stage.has_printed(printed) && stage.has_said(said),
            "row {i}"
        );
    }
    Ok(())
}

#[test]
fn a_byte_0_in_rules(rt: HostRuntime) -> Result<(), Fail> {
    fs::write(&rt, "rules.chr", b"a <=> b.\nb \x00 <=> c.\n".as_slice())?;
    fs::write(&rt, "posts.txt", b"a.".as_slice())?;
    let stage = Stage::new(&rt, b"");
    let status = run(
        &stage,
        Detail::Line,
        "rules.chr",
        "posts.txt",
        &[],
        DEFAULTS,
    );
    assert!(rt; status == Status::Fault && stage.has_printed(""));
    assert!(rt; stage.has_said("chr: program 2: E03 BadByte\n"));
    Ok(())
}

const FULL: &str = "chr: standard output: no storage space\n";

const QUESTION: Question = Question {
    label: 2,
    gone: false,
    form: Form::Text,
};

#[test]
fn standard_output_that_is_full(rt: HostRuntime) -> Result<(), Fail> {
    write_log(&rt)?;
    fs::write(&rt, "posts.txt", b"a.".as_slice())?;
    let ran = Stage::with_room(&rt, 0);
    let status = run(&ran, Detail::Line, "rules.chr", "posts.txt", &[], DEFAULTS);
    assert!(rt; status == Status::Usage && ran.has_said(FULL));
    let checked = Stage::with_room(&rt, 9);
    assert!(rt; check_log(&checked) == Status::Usage && checked.has_said(FULL));
    fs::write(
        &rt,
        "log.txt",
        b"chr-log 2\nP 1 a\nA 1 1\nF 1 1 \\1\nA 2 2\n".as_slice(),
    )?;
    let told = Stage::with_room(&rt, 9);
    let status = explain(&told, Detail::Line, "rules.chr", "log.txt", QUESTION);
    assert!(rt; status == Status::Usage && told.has_said(FULL));
    let drawn = Stage::with_room(&rt, 9);
    let range = Range { from: 1, to: 9 };
    let status = picture(&drawn, Detail::Line, "rules.chr", "log.txt", range);
    assert!(rt; status == Status::Usage && drawn.has_said(FULL));
    let helped = Stage::with_room(&rt, 9);
    let Err(help) = read(rt.alloc(), &["chr", "--help"]) else {
        return Err(Fail::new("no error"));
    };
    assert!(rt; print_usage(&helped, Detail::Line, &help) == Status::Usage);
    assert!(rt; helped.has_said(FULL));
    Ok(())
}

#[test]
fn the_greatest_label_of_a_session(rt: HostRuntime) {
    let input = b"load 0\npost a, b.\nwait 9\nstore\n";
    let most = Stage::new(&rt, input);
    assert!(rt; session(&most, Detail::Line, 1) == Status::Done);
    assert!(rt; most.has_printed("loaded 0\nposted 1 2\nopen\nstore 1\n#1 a\n"));
    let more = Stage::new(&rt, input);
    assert!(rt; session(&more, Detail::Line, 2) == Status::Done);
    assert!(rt; more.has_printed("loaded 0\nposted 1 2\nquiet\nstore 2\n#1 a\n#2 b\n"));
}

/// Words of a command line, and what is said where they can't be read.
static WORDS: [(&[&[u8]], &str); 3] = [
    (
        &[b"chr", b"run", b"\xff.chr", b"posts"],
        "chr: the command line: word 2 isn't UTF-8, as each option and each path must be\n",
    ),
    (
        &[b"chr", b"run", b"r\xc3\xbcles.chr", b"\xc3"],
        "chr: the command line: word 3 isn't UTF-8, as each option and each path must be\n",
    ),
    (&[b"chr", b"run"], "chr: the command line: invalid data\n"),
];

#[test]
fn words_that_are_not_text(rt: HostRuntime) {
    for (i, (words, said)) in WORDS.iter().enumerate() {
        let stage = Stage::with_words(&rt, words);
        let error = match env::args(&stage) {
            Ok(_) => io::ErrorKind::InvalidData.into(),
            Err(error) => error,
        };
        let status = report_words(&stage, Detail::Line, &error);
        assert!(rt; status == Status::Usage && stage.has_said(said), "row {i}");
    }
}

#[test]
fn control_characters_in_paths(rt: HostRuntime) -> Result<(), Fail> {
    let path = "no\u{1b}[2J\nfile\t\u{9b}.txt";
    let stage = Stage::new(&rt, b"");
    let status = run(&stage, Detail::Line, path, "posts.txt", &[], DEFAULTS);
    assert!(rt; status == Status::Usage);
    let said = "chr: no?[2J?file ?.txt: No such file or directory (os error 2)\n";
    assert!(rt; stage.has_said(said));
    let words = ["chr", "run", "a", "b", "c\u{1b}[2J\nd"];
    let Err(error) = read(rt.alloc(), &words) else {
        return Err(Fail::new("no error"));
    };
    let text = format!(in rt.alloc(); "{error}")?;
    assert!(rt;
        text.as_str()
            .starts_with("error: unexpected argument 'c?[2J?d' found\n")
    );
    Ok(())
}
