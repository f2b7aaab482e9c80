//! `chr run`.
ghost use Rattle.std.specs.Prelude.{◌≡◌, ◌≢◌, ◌⊎◌, map, IfOk, IfSome};
ghost use Rattle.chr_run_text.specs.Output.{shown};
ghost use Rattle.chr_commands.specs.Runs.{Ends, AreFaulty};

use crate::ending::{Status, status_at};
use crate::message::{Detail, Fault, Source, Text};
use crate::outputs::{Place, STANDARD_OUTPUT, place_of};
use crate::parts::texts;
use crate::progress::Progress;
use crate::report::{print, report_failure, report_fault, report_no_memory};
use crate::task::{Task, read_and_carry_out};
use crate::writing::{Output, write_files};
use chr_command_line::{Masked, RunOptions};
use chr_run_text::{Ran, RunTextsFault, Show, watched_run_texts};
use chr_solo::End;
use std::alloc::{AllocError, Global};
use std::io;
use std::rt::{Clock, Files};

/// What a run gives: what is printed, and what is written to the files that the options name.
#[derive(Drop)]
struct Given {
    shown: Vec<u8>,
    log: Option<Vec<u8>>,
    store: Option<Vec<u8>>,
}

/// Returns what is shown of a run in a file, if there is a path for it.
fn shown_for(
    alloc: Global,
    ran: &Ran<Global>,
    show: Show,
    path: Option<&str>,
) -> Result<Option<Vec<u8>>, AllocError>
    ensures { IfOk result (λ text. IfSome text (λ bytes. bytes.items ≡ shown show ran.now.end ran.now.book)) }
{
    match path {
        Some(_) => Ok(Some(ran.shown(alloc, show)?)),
        None => Ok(None),
    }
}

/// Returns the log and the store of a run, for the files that the options name.
fn files_of(
    alloc: Global,
    ran: &Ran<Global>,
    options: RunOptions<'_>,
) -> Result<(Option<Vec<u8>>, Option<Vec<u8>>), AllocError>
    ensures log { IfOk result (λ files. IfSome files.0 (λ bytes. bytes.items ≡ shown Show.Log ran.now.end ran.now.book)) }
    ensures store { IfOk result (λ files. IfSome files.1 (λ bytes. bytes.items ≡ shown Show.Store ran.now.end ran.now.book)) }
{
    let log = shown_for(alloc, ran, Show::Log, options.log)?;
    let store = shown_for(alloc, ran, Show::Store, options.store)?;
    Ok((log, store))
}

/// Returns what a run gives. An `Err` is E01.
fn all_given(alloc: Global, ran: Ran<Global>, options: RunOptions<'_>) -> Result<Given, AllocError>
    ensures printed { IfOk result (λ given. given.shown.items ≡ shown options.entry.show ran.end ran.book) }
    ensures log { IfOk result (λ given. IfSome given.log (λ bytes. bytes.items ≡ shown Show.Log ran.end ran.book)) }
    ensures store { IfOk result (λ given. IfSome given.store (λ bytes. bytes.items ≡ shown Show.Store ran.end ran.book)) }
{
    match files_of(alloc, &ran, options) {
        Ok((log, store)) => {
            // Nothing else is made of the run, so it needn't last.
            let shown = ran.into_shown(alloc, options.show)?;
            Ok(Given { shown, log, store })
        }
        Err(AllocError) => Err(AllocError),
    }
}

/// Adds a file to write, if there are a path and a text for it.
fn push_output<'o>(
    outputs: &mut Vec<Output<'o>>,
    path: Option<&'o str>,
    bytes: Option<&'o [u8]>,
) -> Result<(), AllocError> {
    if let (Some(path), Some(bytes)) = (path, bytes) {
        outputs.push(Output { path, bytes })?;
    }
    Ok(())
}

/// Returns the files that a run gives, the log first.
fn outputs_of<'o>(
    alloc: Global,
    given: &'o Given,
    options: RunOptions<'o>,
) -> Result<Vec<Output<'o>>, AllocError> {
    let mut outputs = Vec::new(alloc);
    push_output(&mut outputs, options.log, given.log.as_deref())?;
    push_output(&mut outputs, options.store, given.store.as_deref())?;
    Ok(outputs)
}

/// Writes what a run gives: the log and the store to their files, and then the rest to standard output. Where a file can't
/// be written none is, and nothing is printed.
fn give<R: Files + Print + Eprint + AllocGlobal>(
    rt: &R,
    detail: Detail,
    given: &Given,
    options: RunOptions<'_>,
) -> Status
    ensures { (result ≡ Status.Done) ⊎ (result ≡ Status.Usage) ⊎ (result ≡ Status.NoMemory) }
{
    let Ok(outputs) = outputs_of(rt.alloc(), given, options) else {
        return report_no_memory(rt, detail);
    };
    match write_files(rt, &outputs) {
        Ok(()) => print(rt, detail, &given.shown),
        Err(unwritten) => report_failure(rt, detail, unwritten.path, &unwritten.error),
    }
}

/// Writes what a run gives, all of which is made first, and returns the status of its end.
fn give_ran<R: Files + Print + Eprint + AllocGlobal>(
    rt: &R,
    detail: Detail,
    ran: Ran<Global>,
    options: RunOptions<'_>,
) -> Status
    ensures quiet { result ≡ Status.Done → ran.end ≡ End.Quiet }
    ensures open { result ≡ Status.Open → ran.end ≡ End.Open }
    ensures no_fault { result ≢ Status.Fault }
{
    let end = ran.end;
    let status = match all_given(rt.alloc(), ran, options) {
        Ok(given) => give(rt, detail, &given, options),
        Err(AllocError) => report_no_memory(rt, detail),
    };
    status_at(end, status)
}

/// Writes to standard error why there is no run of texts.
fn report_texts_fault<R: Eprint + AllocGlobal>(
    rt: &R,
    detail: Detail,
    program: Source<'_>,
    posts: &[Source<'_>],
    fault: RunTextsFault,
) -> Status
    ensures says { (result ≡ Status.Fault) ⊎ (result ≡ Status.NoMemory) }
    ensures fault { result ≡ Status.Fault → fault ≢ RunTextsFault.Memory }
{
    match fault {
        RunTextsFault::Program(fault) => report_fault(rt, detail, program, Fault::Read(fault)),
        RunTextsFault::Posts { place, fault } => match posts.get(place) {
            Some(source) => report_fault(rt, detail, *source, Fault::Read(fault)),
            None => Status::Fault,
        },
        RunTextsFault::Memory => report_no_memory(rt, detail),
    }
}

/// Runs the rules of one text on the constraints of the others, in order, and writes what the options ask for. After a
/// fault nothing is written but that.
#[tactic(auto, using(crate::proofs::Quiet::ends_with, crate::proofs::Quiet::faulty_with))]
pub fn run_sources<R: Files + Clock + Print + Eprint + AllocGlobal>(
    rt: &R,
    detail: Detail,
    program: Source<'_>,
    posts: &[Source<'_>],
    options: RunOptions<'_>,
) -> Status
    ensures quiet { result ≡ Status.Done → Ends End.Quiet program.entry.bytes.now (map (λ text. text.bytes.now) posts.now) options.entry.steps options.entry.labels }
    ensures open { result ≡ Status.Open → Ends End.Open program.entry.bytes.now (map (λ text. text.bytes.now) posts.now) options.entry.steps options.entry.labels }
    ensures fault { result ≡ Status.Fault → AreFaulty program.entry.bytes.now (map (λ text. text.bytes.now) posts.now) }
{
    let Ok(texts) = texts(rt.alloc(), posts) else {
        return report_no_memory(rt, detail);
    };
    let (steps, labels) = (u64::from(options.steps), u64::from(options.labels));
    let mut progress = Progress::new(rt, detail, "calls made");
    let ran = watched_run_texts(
        rt.alloc(),
        program.bytes,
        &texts,
        steps,
        labels,
        &mut progress,
    );
    match ran {
        Ok(ran) => give_ran(rt, detail, ran, options),
        Err(fault) => report_texts_fault(rt, detail, program, posts, fault),
    }
}

/// Returns where the path of an option leads.
fn place_for<R: Files + AllocGlobal>(rt: &R, path: Option<&str>) -> io::Result<Place> {
    match path {
        Some(path) => place_of(rt, path),
        None => Ok(Place::Other),
    }
}

/// Writes to standard error that two outputs of a run are one file.
fn report_shared<R: Eprint>(rt: &R, path: &str, other: Option<&str>) -> Status {
    let path = Masked(path);
    let _ = match other {
        Some(other) => {
            let other = Masked(other);
            eprintln!(rt; "chr: {path} and {other} are one file: `--log` and `--store` need two")
        }
        None => eprintln!(rt; "chr: {path} is the file of standard output: name another one"),
    };
    Status::Usage
}

/// Refuses outputs of a run of which two are one file, whatever their paths are. None where no two are.
fn refuse_shared<R: Files + Eprint + AllocGlobal>(
    rt: &R,
    detail: Detail,
    options: RunOptions<'_>,
) -> Option<Status> {
    let (log_path, store_path) = (options.log.unwrap_or(""), options.store.unwrap_or(""));
    let log = match place_for(rt, options.log) {
        Ok(place) => place,
        Err(error) => return Some(report_failure(rt, detail, log_path, &error)),
    };
    let store = match place_for(rt, options.store) {
        Ok(place) => place,
        Err(error) => return Some(report_failure(rt, detail, store_path, &error)),
    };
    let printed = place_of(rt, STANDARD_OUTPUT).unwrap_or(Place::Other);
    if log.is_file_of(&store) {
        Some(report_shared(rt, log_path, Some(store_path)))
    } else if log.is_file_of(&printed) {
        Some(report_shared(rt, log_path, None))
    } else if store.is_file_of(&printed) {
        Some(report_shared(rt, store_path, None))
    } else {
        None
    }
}

/// Runs the rules of the file `file` on the constraints of the file `posts` and then of those of `more`, in order, and
/// writes what the options ask for to the files that they name and to standard output. All files are read before the run,
/// and all that is written is made before any of it is written. After a fault nothing is written, and where two outputs are
/// one file nothing is run.
pub fn run<R: Files + Clock + Input + Print + Eprint + AllocGlobal>(
    rt: &R,
    detail: Detail,
    file: &str,
    posts: &str,
    more: &[&str],
    options: RunOptions<'_>,
) -> Status {
    if let Some(status) = refuse_shared(rt, detail, options) {
        return status;
    }
    let paths = [(Text::Program, file), (Text::Posts, posts)];
    read_and_carry_out(rt, detail, Task::Run(options), &paths, Text::Posts, more)
}
