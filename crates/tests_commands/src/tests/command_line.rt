//! Command lines with what they ask for, and with the errors of those that are wrong.
use chr_command_line::{Request, RunOptions, read};
use chr_run_text::Show;
use clap::error::ErrorKind;
use std::alloc::{AllocError, Global};
use std::test::*;

/// The words of a command line, one after each blank, so that two blanks have an empty word between them.
fn words(alloc: Global, line: &str) -> Result<Vec<&str>, AllocError> {
    let mut words = Vec::new(alloc);
    for word in line.split(' ') {
        words.push(word)?;
    }
    Ok(words)
}

const STEPS: u32 = 1_000_000;

const GREATEST: u32 = 4_294_967_295;

/// The options of a run where none is given.
pub const DEFAULTS: RunOptions = RunOptions {
    steps: STEPS,
    labels: GREATEST,
    show: Show::All,
    log: None,
    store: None,
};

/// Command lines that ask for a run of `rules` on `posts`, with the most calls, the greatest label, and what is shown.
static RUNS: [(&str, u32, u32, Show); 10] = [
    ("chr run rules posts", STEPS, GREATEST, Show::All),
    ("chr run rules posts --steps 0", 0, GREATEST, Show::All),
    (
        "chr run --steps=4294967295 rules posts",
        GREATEST,
        GREATEST,
        Show::All,
    ),
    ("chr run rules --labels 0 posts", STEPS, 0, Show::All),
    (
        "chr run rules posts --labels 4294967295",
        STEPS,
        GREATEST,
        Show::All,
    ),
    ("chr run --show all rules posts", STEPS, GREATEST, Show::All),
    (
        "chr run rules posts --show store",
        STEPS,
        GREATEST,
        Show::Store,
    ),
    ("chr run rules posts --show=log", STEPS, GREATEST, Show::Log),
    (
        "chr run --show strict rules --labels 7 posts --steps 5",
        5,
        7,
        Show::Strict,
    ),
    (
        "chr run --labels 7 --steps 5 --show strict rules posts",
        5,
        7,
        Show::Strict,
    ),
];

/// Command lines that ask for a run of `rules` on `posts`, with what is shown, the files that are written, and further posts.
type FilesRow = (
    &'static str,
    Show,
    Option<&'static str>,
    Option<&'static str>,
    &'static [&'static str],
);

static FILES: [FilesRow; 6] = [
    (
        "chr run rules posts --posts two",
        Show::All,
        None,
        None,
        &["two"],
    ),
    (
        "chr run --posts=two rules --posts three posts --posts two",
        Show::All,
        None,
        None,
        &["two", "three", "two"],
    ),
    (
        "chr run rules posts --posts -",
        Show::All,
        None,
        None,
        &["-"],
    ),
    (
        "chr run rules posts --log log",
        Show::All,
        Some("log"),
        None,
        &[],
    ),
    (
        "chr run --store=store rules posts",
        Show::All,
        None,
        Some("store"),
        &[],
    ),
    (
        "chr run rules posts --store s --posts two --log l --show store",
        Show::Store,
        Some("l"),
        Some("s"),
        &["two"],
    ),
];

/// Command lines that ask for a check of `rules`, `log` and `store`, with further parts of the log.
static CHECKS: [(&str, &[&str]); 4] = [
    ("chr check rules log store", &[]),
    ("chr check rules log store --log two", &["two"]),
    (
        "chr check --log=two rules --log=three log store",
        &["two", "three"],
    ),
    ("chr check rules log store --log -", &["-"]),
];

/// Other command lines with what they ask for.
static REQUESTS: [(&str, Request<'static>); 13] = [
    (
        "chr picture rules log",
        Request::Picture {
            file: "rules",
            log: "log",
            from: 1,
            to: GREATEST,
        },
    ),
    (
        "chr picture rules --from 7 - --to=9",
        Request::Picture {
            file: "rules",
            log: "-",
            from: 7,
            to: 9,
        },
    ),
    (
        "chr picture rules log --from=4294967295 --to=1",
        Request::Picture {
            file: "rules",
            log: "log",
            from: GREATEST,
            to: 1,
        },
    ),
    ("chr session", Request::Session { labels: GREATEST }),
    ("chr session --labels 0", Request::Session { labels: 0 }),
    ("chr session --labels=7", Request::Session { labels: 7 }),
    (
        "chr serve --socket path --workers 1",
        Request::Serve {
            socket: "path",
            workers: 1,
            sessions: None,
        },
    ),
    (
        "chr serve --workers=16 --socket=path",
        Request::Serve {
            socket: "path",
            workers: 16,
            sessions: None,
        },
    ),
    (
        "chr serve --socket path --workers 4 --sessions 1",
        Request::Serve {
            socket: "path",
            workers: 4,
            sessions: Some(1),
        },
    ),
    (
        "chr serve --sessions=1000000 --workers=4 --socket=path",
        Request::Serve {
            socket: "path",
            workers: 4,
            sessions: Some(1_000_000),
        },
    ),
    (
        "chr run - posts",
        Request::Run {
            file: "-",
            posts: "posts",
            options: DEFAULTS,
        },
    ),
    (
        "chr run rules -",
        Request::Run {
            file: "rules",
            posts: "-",
            options: DEFAULTS,
        },
    ),
    (
        "chr check rules - store",
        Request::Check {
            file: "rules",
            log: "-",
            store: "store",
        },
    ),
];

/// Whether a command line asks for this, with these further files.
pub fn asks(alloc: Global, line: &str, wanted: &Request, more: &[&str]) -> bool {
    match words(alloc, line) {
        Ok(words) => read(alloc, words.as_slice()).is_ok_and(|asked| asked.request == *wanted
            && asked.more.as_slice() == more),
        Err(_) => false,
    }
}

/// Whether a command line asks for a run of `rules` on `posts` with these options.
fn asks_for_run(alloc: Global, line: &str, options: RunOptions, more: &[&str]) -> bool {
    let wanted = Request::Run {
        file: "rules",
        posts: "posts",
        options,
    };
    asks(alloc, line, &wanted, more)
}

#[test]
fn requests(rt: HostRuntime) {
    for (line, wanted) in &REQUESTS {
        assert!(rt; asks(rt.alloc(), line, wanted, &[]), "{line}");
    }
}

#[test]
fn runs(rt: HostRuntime) {
    for (line, steps, labels, show) in &RUNS {
        let options = RunOptions {
            steps: *steps,
            labels: *labels,
            show: *show,
            ..DEFAULTS
        };
        assert!(rt; asks_for_run(rt.alloc(), line, options, &[]), "{line}");
    }
}

#[test]
fn files_of_runs(rt: HostRuntime) {
    for (line, show, log, store, more) in &FILES {
        let options = RunOptions {
            show: *show,
            log: *log,
            store: *store,
            ..DEFAULTS
        };
        assert!(rt; asks_for_run(rt.alloc(), line, options, more), "{line}");
    }
}

#[test]
fn files_of_checks(rt: HostRuntime) {
    let wanted = Request::Check {
        file: "rules",
        log: "log",
        store: "store",
    };
    for (line, more) in &CHECKS {
        assert!(rt; asks(rt.alloc(), line, &wanted, more), "{line}");
    }
}

/// Command lines that ask for help or the version, and how the text that is printed begins and ends.
static PRINTED: [(&str, &str, &str); 7] = [
    ("chr --version", "chr 0.1.0\n", "chr 0.1.0\n"),
    (
        "chr --help",
        "Runs Constraint Handling Rules, ",
        "\n\nExample:\n  chr run examples/gcd/gcd.chr examples/gcd/posts.txt\n",
    ),
    (
        "chr run --help",
        "Runs rules on posted constraints, ",
        "\n\nExample:\n  chr run examples/gcd/gcd.chr examples/gcd/posts.txt --show store\n",
    ),
    (
        "chr check --help",
        "Checks whether a log is that of a run of rules, ",
        "\n\nExample:\n  chr check examples/gcd/gcd.chr examples/gcd/log.txt examples/gcd/store.txt\n",
    ),
    (
        "chr picture --help",
        "Draws a log as an SVG: ",
        "\n\nExample:\n  chr picture examples/gcd/gcd.chr examples/gcd/log.txt > gcd.svg\n",
    ),
    (
        "chr session --help",
        "Reads commands from standard input, ",
        "\n\nExample:\n  printf 'load 9\\na <=> b.\\npost a.\\nwait 1000\\nstore\\nquit\\n' | chr session\n",
    ),
    (
        "chr serve --help",
        "Serves up to sixteen sessions at once ",
        "\n\nExample:\n  chr serve --socket chr.sock --workers 4\n",
    ),
];

/// Whether a command line has an error whose text begins and ends so.
fn prints(alloc: Global, line: &str, begin: &str, end: &str) -> Result<bool, AllocError> {
    let words = words(alloc, line)?;
    match read(alloc, words.as_slice()) {
        Ok(_) => Ok(false),
        Err(error) => {
            let text = format!(in alloc; "{error}")?;
            Ok(text.as_str().starts_with(begin) && text.as_str().ends_with(end))
        }
    }
}

#[test]
fn printed_texts(rt: HostRuntime) -> Result<(), Fail> {
    for (line, begin, end) in &PRINTED {
        assert!(rt; prints(rt.alloc(), line, begin, end)?, "{line}");
    }
    Ok(())
}

/// The kind of an error, its exit code, and the command lines that have it.
pub type Errors = (ErrorKind, i32, &'static [&'static str]);

/// Command lines that ask for no command.
static OTHERS: [Errors; 7] = [
    (ErrorKind::MissingSubcommand, 2, &["chr"]),
    (ErrorKind::DisplayVersion, 0, &["chr --version", "chr -V"]),
    (
        ErrorKind::ArgumentConflict,
        2,
        &[
            "chr run - -",
            "chr check - log -",
            "chr run rules - --posts -",
            "chr run rules posts --posts - --posts -",
            "chr check rules log - --log -",
            "chr run rules posts --log -",
            "chr run rules posts --log l --store l",
        ],
    ),
    (
        ErrorKind::UnknownArgument,
        2,
        &[
            "chr check rules log store --posts two",
            "chr run rules posts more",
            "chr check rules log store more",
            "chr session rules",
            "chr session --steps 1",
            "chr serve --socket path --workers 4 more",
        ],
    ),
    (
        ErrorKind::MissingRequiredArgument,
        2,
        &[
            "chr run",
            "chr run rules",
            "chr check rules log",
            "chr serve",
            "chr serve --socket path",
            "chr serve --workers 4",
        ],
    ),
    (ErrorKind::InvalidSubcommand, 2, &["chr walk rules posts"]),
    (
        ErrorKind::DisplayHelp,
        0,
        &[
            "chr --help",
            "chr run --help",
            "chr check --help",
            "chr session --help",
            "chr serve --help",
        ],
    ),
];

/// Whether a command line has an error of this kind, with this exit code.
fn fails(alloc: Global, line: &str, kind: ErrorKind, code: i32) -> bool {
    match words(alloc, line) {
        Ok(words) => match read(alloc, words.as_slice()) {
            Ok(_) => false,
            Err(error) => error.kind() == kind && error.exit_code() == code,
        },
        Err(_) => false,
    }
}

/// The first command line that hasn't the error of its row.
pub fn first_other(alloc: Global, row: &Errors) -> Option<&'static str> {
    let (kind, code, lines) = *row;
    for line in lines {
        if !fails(alloc, line, kind, code) {
            return Some(*line);
        }
    }
    None
}

#[test]
fn other_words(rt: HostRuntime) {
    for row in &OTHERS {
        assert_eq!(rt; first_other(rt.alloc(), row), None);
    }
}

/// Command lines whose options are refused, and how the text of the error begins.
static REFUSED: [(&str, ErrorKind, &str); 25] = [
    (
        "chr run rules posts --log a --log b",
        ErrorKind::ArgumentConflict,
        "error: the argument '--log <PATH>' cannot be used multiple times\n",
    ),
    (
        "chr run rules posts --store -",
        ErrorKind::ArgumentConflict,
        "error: `--log` and `--store` need two files, neither of them `-`\n",
    ),
    (
        "chr run rules posts --posts ",
        ErrorKind::InvalidValue,
        "error: a value is required for '--posts <MORE>' but none was supplied\n",
    ),
    (
        "chr check rules log store --log",
        ErrorKind::InvalidValue,
        "error: a value is required for '--log <MORE>' but none was supplied\n",
    ),
    (
        "chr run rules posts --steps 4294967296",
        ErrorKind::ValueValidation,
        "error: invalid value '4294967296' for '--steps <0..4294967295>': 4294967296 is not in 0..=4294967295\n",
    ),
    (
        "chr run rules posts --steps -1",
        ErrorKind::ValueValidation,
        "error: invalid value '-1' for '--steps <0..4294967295>': -1 is not in 0..=4294967295\n",
    ),
    (
        "chr run rules posts --steps many",
        ErrorKind::ValueValidation,
        "error: invalid value 'many' for '--steps <0..4294967295>': invalid digit found in string\n",
    ),
    (
        "chr run rules posts --labels 4294967296",
        ErrorKind::ValueValidation,
        "error: invalid value '4294967296' for '--labels <0..4294967295>': 4294967296 is not in 0..=4294967295\n",
    ),
    (
        "chr run --labels 99999999999999999999 rules posts",
        ErrorKind::ValueValidation,
        "error: invalid value '99999999999999999999' for '--labels <0..4294967295>': number too large to fit in target type\n",
    ),
    (
        "chr run rules posts --show goals",
        ErrorKind::InvalidValue,
        "error: invalid value 'goals' for '--show <all|store|log|strict>'\n  [possible values: all, store, log, strict]\n",
    ),
    (
        "chr run rules posts --steps 1 --steps 1",
        ErrorKind::ArgumentConflict,
        "error: the argument '--steps <0..4294967295>' cannot be used multiple times\n",
    ),
    (
        "chr run --labels 1 rules posts --labels=2",
        ErrorKind::ArgumentConflict,
        "error: the argument '--labels <0..4294967295>' cannot be used multiple times\n",
    ),
    (
        "chr run --show log rules posts --show log",
        ErrorKind::ArgumentConflict,
        "error: the argument '--show <all|store|log|strict>' cannot be used multiple times\n",
    ),
    (
        "chr run rules posts --steps",
        ErrorKind::InvalidValue,
        "error: a value is required for '--steps <0..4294967295>' but none was supplied\n",
    ),
    (
        "chr session --labels 4294967296",
        ErrorKind::ValueValidation,
        "error: invalid value '4294967296' for '--labels <0..4294967295>': 4294967296 is not in 0..=4294967295\n",
    ),
    (
        "chr session --labels 1 --labels 2",
        ErrorKind::ArgumentConflict,
        "error: the argument '--labels <0..4294967295>' cannot be used multiple times\n",
    ),
    (
        "chr serve --socket path --workers 0",
        ErrorKind::ValueValidation,
        "error: invalid value '0' for '--workers <1..16>': 0 is not in 1..=16\n",
    ),
    (
        "chr serve --socket path --workers 17",
        ErrorKind::ValueValidation,
        "error: invalid value '17' for '--workers <1..16>': 17 is not in 1..=16\n",
    ),
    (
        "chr serve --socket path --workers -1",
        ErrorKind::ValueValidation,
        "error: invalid value '-1' for '--workers <1..16>': -1 is not in 1..=16\n",
    ),
    (
        "chr serve --socket path --workers 4x",
        ErrorKind::ValueValidation,
        "error: invalid value '4x' for '--workers <1..16>': invalid digit found in string\n",
    ),
    (
        "chr serve --socket path --workers 4 --sessions 0",
        ErrorKind::ValueValidation,
        "error: invalid value '0' for '--sessions <1..1000000>': 0 is not in 1..=1000000\n",
    ),
    (
        "chr serve --socket path --workers 4 --sessions 1000001",
        ErrorKind::ValueValidation,
        "error: invalid value '1000001' for '--sessions <1..1000000>': 1000001 is not in 1..=1000000\n",
    ),
    (
        "chr serve --socket  --workers 4",
        ErrorKind::InvalidValue,
        "error: a value is required for '--socket <PATH>' but none was supplied\n",
    ),
    (
        "chr serve --socket path --workers 4 --workers 4",
        ErrorKind::ArgumentConflict,
        "error: the argument '--workers <1..16>' cannot be used multiple times\n",
    ),
    (
        "chr serve --workers 4",
        ErrorKind::MissingRequiredArgument,
        "error: the following required arguments were not provided:\n  --socket <PATH>\n",
    ),
];

#[test]
fn options_at_fault(rt: HostRuntime) -> Result<(), Fail> {
    for (line, kind, begin) in &REFUSED {
        assert!(rt; fails(rt.alloc(), line, *kind, 2), "{line}");
        assert!(rt; prints(rt.alloc(), line, begin, "")?, "text of {line}");
    }
    Ok(())
}
