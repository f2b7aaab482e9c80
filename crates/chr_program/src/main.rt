//! The program `chr`: runs Constraint Handling Rules on constraints and checks the log of a run, from files, and serves
//! sessions.
//!
//! `chr run FILE POSTS` posts the constraints of POSTS, runs the rules of FILE on them, and prints the store and the log,
//! or one of them; options name further texts of posts, limit the calls that are made and the labels that are given, and
//! write the log and the store to files.
//! `chr check FILE LOG STORE` prints whether LOG is the log of a run of the rules of FILE that ends in STORE; an option
//! names further parts of the log. One of the files may be `-`, which is standard input.
//! `chr explain FILE LOG LABEL` prints how the constraint of a label in the log came to be.
//! `chr picture FILE LOG` prints a picture of the log as an SVG, or of a part of its entries.
//! `chr session` reads commands from standard input, and writes each reply to standard output before it reads the next.
//! `chr serve` serves such sessions over a Unix socket, up to sixteen at once, on one book that workers run.
//! The exit status is 0 where no goal is open at the end of the run, the log is one of a run, the explanation was printed,
//! the session has ended between commands, or the connections asked for have been served, 1 for a fault in a text, a log
//! that is refused or doesn't give the label, or a session whose input is cut, 2 for a wrong command line or a file or
//! socket that can't be read, written or made, 3 where goals are open at the end of the run, and 5 where memory is refused.
#![tactic(auto)]

use chr_command_line::{Request, read};
use chr_commands::check::check;
use chr_commands::explain::explain;
use chr_commands::picture::picture;
use chr_commands::run::run;
use chr_commands::session::session;
use chr_commands::{Detail, Status, print_usage, report_words};
use chr_picture::Range;
use chr_socket::serve::serve;
use std::env;
use std::io::{self, IsTerminal};
use std::net::Net;
use std::process::ExitCode;
use std::rt::{Clock, Files};
use std::sync::Wait;
use std::thread::Threads;

/// Returns the words of the command line, the program's own name first.
fn words(rt: &HostRuntime) -> io::Result<Vec<String>> {
    let given = env::args(rt)?;
    let mut words = Vec::with_capacity(rt.alloc(), given.len())?;
    for word in given {
        words.push(word)?;
    }
    Ok(words)
}

/// Does what the words of the command line ask for.
fn obey<R>(rt: &R, detail: Detail, words: &[String]) -> Status
where
    R: Files + Net + Threads + Wait + Sync + Clock + Input + Print + Eprint + AllocGlobal,
{
    let asked = match read(rt.alloc(), words) {
        Ok(asked) => asked,
        Err(error) => return print_usage(rt, detail, &error),
    };
    let request = asked.request;
    let more = asked.more.as_slice();
    match request {
        Request::Run {
            file,
            posts,
            options,
        } => run(rt, detail, file, posts, more, options),
        Request::Check { file, log, store } => check(rt, detail, file, log, more, store),
        Request::Explain {
            file,
            log,
            question,
        } => explain(rt, detail, file, log, question),
        Request::Picture {
            file,
            log,
            from,
            to,
        } => picture(rt, detail, file, log, Range { from, to }),
        Request::Session { labels } => session(rt, detail, labels),
        Request::Serve {
            socket,
            workers,
            sessions,
        } => serve(rt, detail, socket, workers, sessions),
    }
}

fn main(rt: HostRuntime) -> ExitCode {
    let detail = if rt.stderr().is_terminal() {
        Detail::Explained
    } else {
        Detail::Line
    };
    match words(&rt) {
        Ok(words) => obey(&rt, detail, words.as_slice()).code(),
        Err(error) => report_words(&rt, detail, &error).code(),
    }
}
