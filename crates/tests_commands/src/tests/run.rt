//! The ends of runs.
use crate::tests::command_line::DEFAULTS;
use crate::tests::message::whole;
use chr_command_line::RunOptions;
use chr_commands::Status;
use chr_commands::check::check;
use chr_commands::message::{Detail, Text};
use chr_commands::run::{run, run_sources};
use chr_run_text::Show;
use std::test::*;
use std::{fs, io};

#[test]
fn a_file_that_is_not_there(rt: HostRuntime) {
    let (rules, posts) = ("there-is-no-such-file.chr", "nor-this.txt");
    let status = run(&rt, Detail::Line, rules, posts, &[], DEFAULTS);
    assert!(rt; status == Status::Usage);
}

/// Rules and posts, the most calls, the greatest label, what is shown, and how the run ends.
type Row = (&'static str, &'static str, u32, u32, Show, Status);

static STATUSES: [Row; 8] = [
    ("a <=> b.", "a.", 1_000_000, 4, Show::All, Status::Done),
    ("a <=> b.", "a.", 1_000_000, 4, Show::Strict, Status::Done),
    ("a <=> b.", "", 0, 0, Show::Store, Status::Done),
    ("a <=> b.", "a.", 1, 4, Show::All, Status::Open),
    ("a <=> b.", "a.", 1, 4, Show::Strict, Status::Open),
    ("a <=> b.", "a.", 1_000_000, 1, Show::Log, Status::Open),
    ("a ==> b.", "a.", 1_000_000, 4, Show::All, Status::Fault),
    ("a <=> b.", "a", 1_000_000, 4, Show::All, Status::Fault),
];

/// Whether a run ends as its row has it.
fn ends(rt: &HostRuntime, row: &Row) -> bool {
    let (program, posts, steps, labels, show, wanted) = *row;
    let program = whole(Text::Program, "rules", program.as_bytes());
    let posts = whole(Text::Posts, "posts", posts.as_bytes());
    let options = RunOptions {
        steps,
        labels,
        show,
        ..DEFAULTS
    };
    run_sources(rt, Detail::Line, program, &[posts], options) == wanted
}

#[test]
fn statuses(rt: HostRuntime) {
    for (i, row) in STATUSES.iter().enumerate() {
        assert!(rt; ends(&rt, row), "row {i}");
    }
}

/// The texts of two files of posts, and the log and the store that are written, where the run ends quiet.
type FilesRow = (&'static str, &'static str, &'static str, &'static str);

static FILES: [FilesRow; 3] = [
    (
        "a.",
        "b.",
        "chr-log 2\nP 1 a\nP 2 b\nA 1 1\nF 1 1 \\1\nA 2 2\nD 2\nA 3 3\nD 3\n",
        "#2 b\n#3 b\n",
    ),
    (
        "b.",
        "a.",
        "chr-log 2\nP 1 b\nP 2 a\nA 1 1\nD 1\nA 2 2\nF 2 1 \\2\nA 3 3\nD 3\n",
        "#1 b\n#3 b\n",
    ),
    ("", "b. % last", "chr-log 2\nP 1 b\nA 1 1\nD 1\n", "#1 b\n"),
];

/// Whether a run of two files of posts writes the log and the store of its row, which `chr check` accepts.
fn writes(rt: &HostRuntime, row: &FilesRow) -> io::Result<bool> {
    let (posts, more, log, store) = *row;
    fs::write(rt, "rules.chr", b"a <=> b.".as_slice())?;
    fs::write(rt, "posts.txt", posts.as_bytes())?;
    fs::write(rt, "more.txt", more.as_bytes())?;
    let options = RunOptions {
        show: Show::Store,
        log: Some("log.txt"),
        store: Some("store.txt"),
        ..DEFAULTS
    };
    let ran = run(
        rt,
        Detail::Line,
        "rules.chr",
        "posts.txt",
        &["more.txt"],
        options,
    );
    let checked = check(rt, Detail::Line, "rules.chr", "log.txt", &[], "store.txt");
    Ok(
        ran == Status::Done
            && checked == Status::Done
            && fs::read(rt, "log.txt")?.as_slice() == log.as_bytes()
            && fs::read(rt, "store.txt")?.as_slice() == store.as_bytes(),
    )
}

#[test]
fn texts_in_order_and_what_is_written(rt: HostRuntime) -> Result<(), Fail> {
    for (i, row) in FILES.iter().enumerate() {
        assert!(rt; writes(&rt, row)?, "row {i}");
    }
    Ok(())
}

#[test]
fn files_that_cannot_be_read_or_written(rt: HostRuntime) -> Result<(), Fail> {
    fs::write(&rt, "rules.chr", b"a <=> b.".as_slice())?;
    fs::write(&rt, "posts.txt", b"a.".as_slice())?;
    let options = RunOptions {
        show: Show::Store,
        log: Some("there-is-no-such-folder/log.txt"),
        ..DEFAULTS
    };
    let wrong = run(
        &rt,
        Detail::Line,
        "rules.chr",
        "posts.txt",
        &["there-is-no-such-file.txt"],
        options,
    );
    assert!(rt; wrong == Status::Usage);
    let unwritten = run(&rt, Detail::Line, "rules.chr", "posts.txt", &[], options);
    assert!(rt; unwritten == Status::Usage);
    Ok(())
}
