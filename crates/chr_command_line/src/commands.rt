//! The commands of the program, with their arguments and help.
use crate::reading::VERSION;
use clap::builder::ValueParser;
use clap::{Arg, ArgAction, Command};
use std::alloc::{AllocError, Global};

/// The range of the number of calls and of the greatest label, as errors and the help name it.
const RANGE: &str = "0..4294967295";

/// What each number of that range passes.
const NUMBER: ValueParser = ValueParser::Signed(0, 4_294_967_295);

/// Whether an argument has to be given.
#[derive(Clone, Copy)]
enum Presence {
    Required,
    Optional,
    /// It may be given any number of times.
    Repeated,
    /// It has this value where it isn't given.
    Default(&'static str),
    /// An option without a value.
    Flag,
}

/// What an option has after its name.
#[derive(Clone, Copy)]
struct OptionValue {
    /// What errors and the help call it.
    name: &'static str,
    /// What it may be.
    parser: ValueParser<'static>,
}

/// An argument of a command.
#[derive(Clone, Copy)]
struct Argument {
    /// Its name, for an option the one after `--`.
    name: &'static str,
    help: &'static str,
    presence: Presence,
    /// None for a word that is told by its place, or a flag. A word that is told by its place may have a value of its own
    /// name.
    value: Option<OptionValue>,
}

/// A command with its arguments.
#[derive(Clone, Copy)]
struct CommandRow {
    name: &'static str,
    about: &'static str,
    after_help: &'static str,
    arguments: &'static [Argument],
}

const FILE: Argument = Argument {
    name: "FILE",
    help: "The rules; `-` is standard input",
    presence: Presence::Required,
    value: None,
};

const LOG: Argument = Argument {
    name: "LOG",
    help: "The log, which begins with `chr-log 1` or `chr-log 2`; `-` is standard input",
    presence: Presence::Required,
    value: None,
};

const LABELS: Argument = Argument {
    name: "labels",
    help: "The greatest label that may be given",
    presence: Presence::Default("4294967295"),
    value: Some(OptionValue {
        name: RANGE,
        parser: NUMBER,
    }),
};

/// A path of a file, of which there may be several.
const MORE: OptionValue = OptionValue {
    name: "MORE",
    parser: ValueParser::NonEmptyString,
};

/// A path of a file.
const PATH: OptionValue = OptionValue {
    name: "PATH",
    parser: ValueParser::NonEmptyString,
};

/// The range of the number of an entry.
const ENTRY_RANGE: &str = "1..4294967295";

/// What each number of that range passes.
const ENTRY: ValueParser = ValueParser::Signed(1, 4_294_967_295);

static RUN: CommandRow = CommandRow {
    name: "run",
    about: "Runs rules on posted constraints, and prints the store and the log",
    after_help: "Example:\n  chr run examples/gcd/gcd.chr examples/gcd/posts.txt --show store",
    arguments: &[
        FILE,
        Argument {
            name: "POSTS",
            help: "The constraints to post; `-` is standard input",
            presence: Presence::Required,
            value: None,
        },
        Argument {
            name: "posts",
            help: "Further constraints, posted after those of POSTS; as often as wanted, in order",
            presence: Presence::Repeated,
            value: Some(MORE),
        },
        Argument {
            name: "steps",
            help: "How many calls are made at most",
            presence: Presence::Default("1000000"),
            value: Some(OptionValue {
                name: RANGE,
                parser: NUMBER,
            }),
        },
        LABELS,
        Argument {
            name: "show",
            help: "What is printed: all of the end, the store and the log, or one part; `strict` is the log with its drops after its other entries, and nothing where the run ends open",
            presence: Presence::Default("all"),
            value: Some(OptionValue {
                name: "all|store|log|strict",
                parser: ValueParser::Names(&["all", "store", "log", "strict"]),
            }),
        },
        Argument {
            name: "log",
            help: "A file to write: the log of the run, besides what is printed",
            presence: Presence::Optional,
            value: Some(PATH),
        },
        Argument {
            name: "store",
            help: "A file to write: the store of the run, besides what is printed",
            presence: Presence::Optional,
            value: Some(PATH),
        },
    ],
};

static CHECK: CommandRow = CommandRow {
    name: "check",
    about: "Checks whether a log is that of a run of rules, and whether the run ends in a store",
    after_help: "Example:\n  chr check examples/gcd/gcd.chr examples/gcd/log.txt examples/gcd/store.txt",
    arguments: &[
        FILE,
        LOG,
        Argument {
            name: "STORE",
            help: "The store, without the line that counts; `-` is standard input",
            presence: Presence::Required,
            value: None,
        },
        Argument {
            name: "log",
            help: "A file to read: a further part of the log, of entries alone; as often as wanted, in order",
            presence: Presence::Repeated,
            value: Some(MORE),
        },
    ],
};

static EXPLAIN: CommandRow = CommandRow {
    name: "explain",
    about: "Shows from which posts and by which firings a constraint of a log was derived",
    after_help: "Example:\n  chr explain examples/gcd/gcd.chr examples/gcd/log.txt 3 --gone",
    arguments: &[
        FILE,
        LOG,
        Argument {
            name: "LABEL",
            help: "The label of the constraint, without `#`: 1..4294967295",
            presence: Presence::Required,
            value: Some(OptionValue {
                name: "LABEL",
                parser: ValueParser::Signed(1, 4_294_967_295),
            }),
        },
        Argument {
            name: "gone",
            help: "Tells also which firing removed each constraint",
            presence: Presence::Flag,
            value: None,
        },
        Argument {
            name: "as",
            help: "How it is written: as lines, or as a graph in the language of Graphviz",
            presence: Presence::Default("text"),
            value: Some(OptionValue {
                name: "text|dot",
                parser: ValueParser::Names(&["text", "dot"]),
            }),
        },
    ],
};

static PICTURE: CommandRow = CommandRow {
    name: "picture",
    about: "Draws a log as an SVG: a row for each constraint, and the firings that join them",
    after_help: "At most 2,000 entries are drawn; the caption tells which, of how many.\n\nExample:\n  chr picture examples/gcd/gcd.chr examples/gcd/log.txt > gcd.svg",
    arguments: &[
        FILE,
        LOG,
        Argument {
            name: "from",
            help: "The number of the first entry that is drawn",
            presence: Presence::Default("1"),
            value: Some(OptionValue {
                name: ENTRY_RANGE,
                parser: ENTRY,
            }),
        },
        Argument {
            name: "to",
            help: "The number of the last entry that is drawn, if the log has it and it is no further than the 2,000th from the first",
            presence: Presence::Default("4294967295"),
            value: Some(OptionValue {
                name: ENTRY_RANGE,
                parser: ENTRY,
            }),
        },
    ],
};

static SESSION: CommandRow = CommandRow {
    name: "session",
    about: "Reads commands from standard input, and writes each reply to standard output before it reads the next",
    after_help: "Lines of input:\n  load N      The rules are the N bytes after this line\n  post TEXT   Posts the constraints of the text\n  wait K      Makes at most K calls, and tells whether a goal is open\n  store       Shows the store\n  log F       Shows the log from entry F on\n  quit        Ends the session\n\nExample:\n  printf 'load 9\\na <=> b.\\npost a.\\nwait 1000\\nstore\\nquit\\n' | chr session",
    arguments: &[LABELS],
};

static SERVE: CommandRow = CommandRow {
    name: "serve",
    about: "Serves up to sixteen sessions at once over a Unix socket, on one book that workers run",
    after_help: "A client sends the commands of `chr session` and reads its replies.\n\nExample:\n  chr serve --socket chr.sock --workers 4",
    arguments: &[
        Argument {
            name: "socket",
            help: "Where the socket is made: a path at which there is no file",
            presence: Presence::Required,
            value: Some(PATH),
        },
        Argument {
            name: "workers",
            help: "How many workers run the rules",
            presence: Presence::Required,
            value: Some(OptionValue {
                name: "1..16",
                parser: ValueParser::Signed(1, 16),
            }),
        },
        Argument {
            name: "sessions",
            help: "After how many connections the server ends; without it, it serves until it is stopped",
            presence: Presence::Optional,
            value: Some(OptionValue {
                name: "1..1000000",
                parser: ValueParser::Signed(1, 1_000_000),
            }),
        },
    ],
};

/// Returns an option with the value that follows it.
fn with_value<'a>(arg: Arg<'a>, name: &'static str, value: OptionValue) -> Arg<'a> {
    let is_number = matches!(value.parser, ValueParser::Signed(..));
    arg.long(name)
        .value_name(value.name)
        .value_parser(value.parser)
        .hide_possible_values(true)
        .allow_negative_numbers(is_number)
}

/// Returns an argument.
fn make_argument<'a>(alloc: Global, row: &Argument) -> Arg<'a> {
    let arg = Arg::new(alloc, row.name)
        .action(ArgAction::Set)
        .help(row.help);
    let arg = match row.value {
        Some(value) if value.name == row.name => arg.value_parser(value.parser),
        Some(value) => with_value(arg, row.name, value),
        None => arg,
    };
    match row.presence {
        Presence::Required => arg.required(true),
        Presence::Optional => arg,
        Presence::Repeated => arg.action(ArgAction::Append),
        Presence::Default(value) => arg.default_value(value),
        Presence::Flag => arg.long(row.name).action(ArgAction::SetTrue),
    }
}

/// Returns the arguments of a command.
fn arguments<'a>(alloc: Global, rows: &[Argument]) -> Result<Vec<Arg<'a>>, AllocError> {
    let mut arguments = Vec::new(alloc);
    for row in rows {
        arguments.push(make_argument(alloc, row))?;
    }
    Ok(arguments)
}

/// Returns a command with its arguments.
fn subcommand<'a>(alloc: Global, row: &CommandRow) -> Result<Command<'a>, AllocError> {
    let arguments = arguments(alloc, row.arguments)?;
    Command::new(alloc, row.name)
        .about(row.about)
        .after_help(row.after_help)
        .args(arguments)
}

/// Returns the commands of the program below its own.
fn subcommands<'a>(alloc: Global) -> Result<Vec<Command<'a>>, AllocError> {
    let mut commands = Vec::new(alloc);
    for row in [&RUN, &CHECK, &EXPLAIN, &PICTURE, &SESSION, &SERVE] {
        commands.push(subcommand(alloc, row)?)?;
    }
    Ok(commands)
}

/// Returns the commands of the program with their arguments.
pub(crate) fn command<'a>(alloc: Global) -> Result<Command<'a>, AllocError> {
    let subcommands = subcommands(alloc)?;
    Command::new(alloc, "chr")
        .version(VERSION)
        .after_help("Example:\n  chr run examples/gcd/gcd.chr examples/gcd/posts.txt")
        .about(
            "Runs Constraint Handling Rules, logs each activation, firing and drop, and checks logs",
        )
        .subcommand_required(true)
        .subcommands(subcommands)
}
