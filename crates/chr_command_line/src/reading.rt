//! What the words of a command line ask for.
use crate::commands::command;
use crate::masking::{are_masked, masked_words};
use chr_explain::{Form, Question};
use chr_run_text::Show;
use clap::error::ErrorKind;
use clap::{ArgMatches, Command, Error};
use std::alloc::{AllocError, Global};
use std::convert::AsStr;

/// The version of the program.
pub const VERSION: &str = "0.1.0";

/// The path that stands for standard input.
pub const STANDARD_INPUT: &str = "-";

/// The options of a run.
#[derive(Clone, Copy, Debug, PartialEq, Eq)]
pub struct RunOptions<'a> {
    /// How many calls are made at most.
    pub steps: u32,
    /// The greatest label that may be given.
    pub labels: u32,
    /// What is shown of the run.
    pub show: Show,
    /// The file that the log is written to.
    pub log: Option<&'a str>,
    /// The file that the store is written to, another one.
    pub store: Option<&'a str>,
}

/// What the command line asks for. At most one of the paths to read is [`STANDARD_INPUT`], and none to write.
#[derive(Clone, Copy, Debug, PartialEq, Eq)]
pub enum Request<'a> {
    /// `chr run FILE POSTS [--posts MORE].. [--steps K] [--labels N] [--show all|store|log|strict] [--log PATH] [--store
    /// PATH]`
    Run {
        file: &'a str,
        posts: &'a str,
        options: RunOptions<'a>,
    },
    /// `chr check FILE LOG STORE [--log MORE]..`
    Check {
        file: &'a str,
        log: &'a str,
        store: &'a str,
    },
    /// `chr explain FILE LOG LABEL [--gone] [--as text|dot]`
    Explain {
        file: &'a str,
        log: &'a str,
        question: Question,
    },
    /// `chr picture FILE LOG [--from N] [--to N]`
    Picture {
        file: &'a str,
        log: &'a str,
        /// The numbers of the first and of the last entry that is drawn, from 1.
        from: u32,
        to: u32,
    },
    /// `chr session [--labels N]`
    Session {
        /// The greatest label that may be given.
        labels: u32,
    },
    /// `chr serve --socket PATH --workers W [--sessions M]`
    Serve {
        /// The path of the socket, which isn't empty.
        socket: &'a str,
        /// How many workers there are, from 1 to 16.
        workers: u32,
        /// After how many connections the server ends, from 1 to 1,000,000. None where it isn't meant to end.
        sessions: Option<u32>,
    },
}

/// A request, with the paths that an option names which may be given again.
#[derive(Debug, Drop)]
pub struct Asked<'a> {
    pub request: Request<'a>,
    /// For `run` the further texts of posts, for `check` the further parts of the log, in order; none for the others.
    pub more: Vec<&'a str>,
}

/// What a value of `--show` asks for.
fn show_of(word: &str) -> Option<Show> {
    match word {
        "all" => Some(Show::All),
        "store" => Some(Show::Store),
        "log" => Some(Show::Log),
        "strict" => Some(Show::Strict),
        _ => None,
    }
}

/// Returns the options of a run.
fn run_options<'a>(run: &ArgMatches<'a>) -> Option<RunOptions<'a>> {
    Some(RunOptions {
        steps: run.get_one("steps")?,
        labels: run.get_one("labels")?,
        show: show_of(run.get_str("show")?)?,
        log: run.get_str("log"),
        store: run.get_str("store"),
    })
}

/// Returns what the arguments of `chr run` ask for.
fn run_asked<'a>(given: &ArgMatches<'a>) -> Option<Request<'a>> {
    Some(Request::Run {
        file: given.get_str("FILE")?,
        posts: given.get_str("POSTS")?,
        options: run_options(given)?,
    })
}

/// Returns what the arguments of `chr check` ask for.
fn check_asked<'a>(given: &ArgMatches<'a>) -> Option<Request<'a>> {
    Some(Request::Check {
        file: given.get_str("FILE")?,
        log: given.get_str("LOG")?,
        store: given.get_str("STORE")?,
    })
}

/// What a value of `--as` asks for.
fn form_of(word: &str) -> Option<Form> {
    match word {
        "text" => Some(Form::Text),
        "dot" => Some(Form::Dot),
        _ => None,
    }
}

/// Returns what the arguments of `chr explain` ask for.
fn explain_asked<'a>(given: &ArgMatches<'a>) -> Option<Request<'a>> {
    Some(Request::Explain {
        file: given.get_str("FILE")?,
        log: given.get_str("LOG")?,
        question: Question {
            label: given.get_one("LABEL")?,
            gone: given.get_flag("gone"),
            form: form_of(given.get_str("as")?)?,
        },
    })
}

/// Returns what the arguments of `chr picture` ask for.
fn picture_asked<'a>(given: &ArgMatches<'a>) -> Option<Request<'a>> {
    Some(Request::Picture {
        file: given.get_str("FILE")?,
        log: given.get_str("LOG")?,
        from: given.get_one("from")?,
        to: given.get_one("to")?,
    })
}

/// Returns what the arguments of `chr serve` ask for.
fn serve_asked<'a>(given: &ArgMatches<'a>) -> Option<Request<'a>> {
    Some(Request::Serve {
        socket: given.get_str("socket")?,
        workers: given.get_one("workers")?,
        sessions: given.get_one("sessions"),
    })
}

/// Returns what the arguments of the command of this name ask for.
fn request_of<'a>(name: &str, given: &ArgMatches<'a>) -> Option<Request<'a>> {
    match name {
        "run" => run_asked(given),
        "check" => check_asked(given),
        "explain" => explain_asked(given),
        "picture" => picture_asked(given),
        "session" => Some(Request::Session {
            labels: given.get_one("labels")?,
        }),
        "serve" => serve_asked(given),
        _ => None,
    }
}

/// Returns the paths of the option of a command that may be given again.
fn more_asked<'a>(
    alloc: Global,
    name: &str,
    given: &ArgMatches<'a>,
) -> Result<Vec<&'a str>, AllocError> {
    let option = match name {
        "run" => "posts",
        "check" => "log",
        _ => return Ok(Vec::new(alloc)),
    };
    let mut more = Vec::new(alloc);
    if let Some(paths) = given.get_strs(option) {
        more.extend_from_slice(paths)?;
    }
    Ok(more)
}

/// How many of the paths are standard input.
fn inputs(paths: &[&str]) -> usize {
    let inputs = paths.iter().filter(|path| **path == STANDARD_INPUT);
    inputs.count()
}

/// Whether more than one file to read is standard input.
fn shares_input(request: &Request<'_>, more: &[&str]) -> bool {
    let first = match *request {
        Request::Run { file, posts, .. } => inputs(&[file, posts]),
        Request::Check { file, log, store } => inputs(&[file, log, store]),
        Request::Explain { file, log, .. } | Request::Picture { file, log, .. } => {
            inputs(&[file, log])
        }
        Request::Session { .. } | Request::Serve { .. } => 0,
    };
    1 < first.saturating_add(inputs(more))
}

/// Whether a file to write is standard input, or two are one file.
fn shares_output(request: &Request<'_>) -> bool {
    let Request::Run { options, .. } = request else {
        return false;
    };
    match (options.log, options.store) {
        (Some(log), Some(store)) => log == store || inputs(&[log, store]) != 0,
        (Some(path), None) | (None, Some(path)) => path == STANDARD_INPUT,
        (None, None) => false,
    }
}

/// What is wrong with words that are arguments of a command: the kind of the error, and its text.
type Wrong = (ErrorKind, &'static str);

/// Returns what the command of this name asks for with its arguments.
fn requested<'a>(name: &str, given: &ArgMatches<'a>, more: &[&str]) -> Result<Request<'a>, Wrong> {
    match request_of(name, given) {
        None => Err((ErrorKind::InvalidSubcommand, "there is no such command")),
        Some(request) if shares_input(&request, more) => Err((
            ErrorKind::ArgumentConflict,
            "`-`, standard input, can stand for one file only",
        )),
        Some(request) if shares_output(&request) => Err((
            ErrorKind::ArgumentConflict,
            "`--log` and `--store` need two files, neither of them `-`",
        )),
        Some(request) => Ok(request),
    }
}

/// Returns what words that were matched ask for. An error is worded by the commands that there are.
fn asked_by<'a>(
    alloc: Global,
    command: &mut Command<'a>,
    matches: &ArgMatches<'a>,
) -> Result<Asked<'a>, Error> {
    let Some((name, given)) = matches.subcommand() else {
        return Err(command.error(ErrorKind::MissingSubcommand, "a command is missing")?);
    };
    let more = more_asked(alloc, name, given)?;
    match requested(name, given, more.as_slice()) {
        Ok(request) => Ok(Asked { request, more }),
        Err((kind, text)) => Err(command.error(kind, text)?),
    }
}

/// Reads the words of a command line by the commands that there are.
fn read_by<'a, S: AsStr>(
    alloc: Global,
    command: &mut Command<'a>,
    words: &'a [S],
) -> Result<Asked<'a>, Error> {
    match command.try_get_matches_from_mut(words) {
        Ok(matches) => asked_by(alloc, command, &matches),
        Err(error) => Err(error),
    }
}

/// Returns the error of words in which a control character stands, with the words as a message shows them.
fn masked_error<S: AsStr>(alloc: Global, words: &[S], error: Error) -> Result<Error, AllocError> {
    let masked = masked_words(alloc, words)?;
    let mut command = command(alloc)?;
    match read_by(alloc, &mut command, masked.as_slice()) {
        Ok(_) => Ok(error),
        Err(error) => Ok(error),
    }
}

/// Reads the words of a command line, the program's own name first.
///
/// Help and the version are an `Err` too where they are asked for, with exit code 0; they are printed to standard output.
pub fn read<'a, S: AsStr>(alloc: Global, words: &'a [S]) -> Result<Asked<'a>, Error> {
    let mut command = command(alloc)?;
    match read_by(alloc, &mut command, words) {
        Err(error) if are_masked(words) => Err(masked_error(alloc, words, error)?),
        read => read,
    }
}
