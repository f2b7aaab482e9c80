//! From the paths of texts to what a command does with them.
ghost use Rattle.std.specs.Prelude.{◌≡◌, length};

use crate::check::check_sources;
use crate::ending::Status;
use crate::explain::explain_sources;
use crate::files::{TextPath, all_paths, called, fetch_all};
use crate::message::{Detail, Source, Text};
use crate::parts::sources;
use crate::picture::draw;
use crate::report::{report_failure, report_no_memory};
use crate::run::run_sources;
use chr_command_line::RunOptions;
use chr_explain::Question;
use chr_picture::Range;
use std::alloc::AllocError;
use std::rt::{Clock, Files};

/// What a command does with its texts, of which the first is the program.
#[derive(Clone, Copy)]
pub enum Task<'a> {
    /// The others are posts.
    Run(RunOptions<'a>),
    /// The others are the store, and after it the parts of the log.
    Check,
    /// The other is the log.
    Explain(Question),
    /// The other is the log.
    Draw(Range),
}

/// Carries out a task with its texts.
fn carry_out<'s, R: Files + Clock + Print + Eprint + AllocGlobal>(
    rt: &R,
    detail: Detail,
    task: Task<'_>,
    texts: &'s [Source<'s>],
) -> Status {
    let [program, other, rest @ ..] = texts else {
        return Status::Usage;
    };
    match task {
        Task::Run(options) => run_sources(rt, detail, *program, &texts[1..], options),
        Task::Check => check_sources(rt, detail, *program, rest, *other),
        Task::Explain(question) => explain_sources(rt, detail, *program, *other, question),
        Task::Draw(range) => draw(rt, detail, *program, *other, range),
    }
}

/// Carries out a task with the texts of the files that were read.
fn carry_out_on_files<R: Files + Clock + Print + Eprint + AllocGlobal>(
    rt: &R,
    detail: Detail,
    task: Task<'_>,
    paths: &[TextPath<'_>],
    files: &[Vec<u8>],
) -> Status
    requires { length paths.now ≡ length files.now }
{
    match sources(rt.alloc(), paths, files) {
        Ok(texts) => carry_out(rt, detail, task, &texts),
        Err(AllocError) => report_no_memory(rt, detail),
    }
}

/// Reads some files, and after them further ones of one kind of text, and carries out a task with their texts.
pub fn read_and_carry_out<R: Files + Clock + Input + Print + Eprint + AllocGlobal>(
    rt: &R,
    detail: Detail,
    task: Task<'_>,
    first: &[TextPath<'_>],
    text: Text,
    more: &[&str],
) -> Status {
    let Ok(paths) = all_paths(rt.alloc(), first, text, more) else {
        return report_no_memory(rt, detail);
    };
    let fetched = fetch_all(rt, &paths);
    match &fetched {
        Ok(files) => carry_out_on_files(rt, detail, task, &paths, files),
        Err(unread) => report_failure(rt, detail, called(unread.path), &unread.error),
    }
}
